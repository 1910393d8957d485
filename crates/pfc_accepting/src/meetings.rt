//! A meeting of a process with a caller of one of its entries.
ghost use Rattle.std.specs.Prelude.{◌≡◌, ◌+◌, ◌≤◌, IfOk, OnOk, length};
ghost use Rattle.std.specs.Vec.{vec_len, vec_capacity};
ghost use Rattle.pfc_program.specs.declared.tables.Tables.{Tables};
ghost use Rattle.pfc_semantics.specs.Remainders.{Offer as OfferSeen};
ghost use Rattle.pfc_semantics.specs.Statements.{plain_open};
ghost use Rattle.pfc_pending.specs.Selects.{stmt_of};
ghost use Rattle.pfc_pending.specs.Texts.{stmt_at};
ghost use Rattle.pfc_activities.specs.Shown.{activity_shown};
ghost use Rattle.pfc_activities.specs.Relation.{IsSameDoing};
ghost use Rattle.pfc_meeting.specs.Going.{HasRoom};
ghost use Rattle.pfc_accepting.specs.Meetings.{IsMeetingAt, opened, met};

use crate::parts::{put, put_replica, put_statements};
use pfc_activities::{Activity, Hand, Source};
use pfc_base::Memory;
use pfc_meeting::Onward;
use pfc_pending::{Accepting, At, OneStmt, Pending, Point, Stmts};
use pfc_program::Names;
use pfc_tree::Stmt;
use std::alloc::Global;

/// A meeting that is about to begin: the names in view in the accept's statement and around the accept, the scope of its parameters and the
/// number of the scope behind that one, its statement and its line, and how the process goes on behind it.
#[derive(Drop)]
pub struct Meeting<'t> {
    pub(crate) inner: Names,
    pub(crate) outer: Names,
    pub(crate) scope: u32,
    pub(crate) next: u32,
    pub(crate) stmt: OneStmt<'t>,
    pub(crate) line: u32,
    pub(crate) way: Onward<'t>,
}

/// The statement of an accept; where it has none, what comes behind the last one of a list.
#[tactic(auto, using(crate::proofs::Statements::no_statement))]
fn statement_of<'t>(source: &Source<'t>, stmt: Option<&'t Box<Stmt>>) -> OneStmt<'t>
    ensures { stmt_at result ≡ stmt_of stmt.entry }
{
    match stmt {
        Some(s) => OneStmt::Alone(s),
        None => {
            let list = source.program.main.stmts;
            OneStmt::Listed(list, list.len())
        }
    }
}

/// The meeting at an accept, where these names are in view. Its only refusal is want of memory; a scope past 2^32, which never comes,
/// counts as one.
pub fn meeting_at<'t>(
    alloc: Global,
    source: &Source<'t>,
    names: &Names,
    accepting: Accepting<'t>,
    way: Onward<'t>,
) -> Result<Meeting<'t>, Memory>
    ensures { IfOk result (λ m. IsMeetingAt source.now.program.tables names.now accepting.entry way.entry m) }
{
    let Some(next) = accepting.scope.checked_add(1) else {
        return Err(Memory);
    };
    Ok(Meeting {
        inner: names.within_accept(alloc, source.program.tables, accepting.scope)?,
        outer: names.copy(alloc)?,
        scope: accepting.scope,
        next,
        stmt: statement_of(source, accepting.stmt),
        line: accepting.line,
        way,
    })
}

/// How a process goes on behind a plain accept: all that is pending is left, and nothing more.
#[tactic(auto, using(crate::proofs::Statements::no_statements))]
pub(crate) fn way_behind_plain<'t>(source: &Source<'t>, activity: &Activity<'t>) -> Onward<'t>
    ensures kept { result.kept ≡ length activity.now.doing.pending.items }
    ensures opened { (offer : OfferSeen) → opened offer result ≡ plain_open offer }
{
    let list = source.program.main.stmts;
    Onward {
        kept: activity.doing.pending.len(),
        replica: None,
        next: 0,
        stmts: Stmts {
            list,
            from: list.len(),
        },
    }
}

/// Takes room for what is pending in a meeting. Its only refusal is want of memory; there is nothing to be seen of it.
pub(crate) fn make_room<'t>(activity: &mut Activity<'t>) -> Result<(), Memory>
    ensures same { (t : Tables) → activity_shown t activity.new ≡ activity_shown t activity.old }
    ensures doing { IsSameDoing activity.old.doing activity.new.doing }
    ensures room { OnOk result (HasRoom activity.new 6) }
{
    activity.doing.pending.reserve(6)?;
    Ok(())
}

/// The process is in the meeting with a caller, in room that was taken before.
pub(crate) fn begin<'t>(activity: &mut Activity<'t>, caller: u32, meeting: Meeting<'t>)
    requires { HasRoom activity.old 6 }
    ensures { (t : Tables) → activity_shown t activity.new ≡ met t activity.old meeting.entry caller }
{
    let way = meeting.way;
    let pending = &mut activity.doing.pending;
    pending.truncate(way.kept);
    put_statements(pending, way.next, way.stmts);
    put(pending, Pending::InNames(meeting.outer));
    put(pending, Pending::PartFrom(caller, meeting.line));
    let point = Point::Again;
    put(pending, Pending::Within(meeting.next, meeting.stmt, point));
    put(pending, Pending::InNames(meeting.inner));
    put_replica(pending, way.replica);
    activity.doing.at = At::Rest;
    activity.hand = Hand::Empty;
}
