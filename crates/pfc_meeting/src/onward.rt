//! How a process goes on behind an alternative.
ghost use Rattle.std.specs.Prelude.{◌≡◌, ℕ, ◌+◌, ◌≤◌, OnOk, take, option_map};
ghost use Rattle.std.specs.Vec.{vec_len, vec_capacity};
ghost use Rattle.pfc_program.specs.declared.tables.Tables.{Tables};
ghost use Rattle.pfc_semantics.specs.Channels.{behind_replica};
ghost use Rattle.pfc_semantics.specs.Statements.{behind};
ghost use Rattle.pfc_pending.specs.Selects.{replica_view};
ghost use Rattle.pfc_pending.specs.Texts.{stmts_left};
ghost use Rattle.pfc_pending.specs.declared.at_hand.At.TheVariants as at;
ghost use Rattle.pfc_pending.specs.Waiting.{remainder_of, waiting, over};
ghost use Rattle.pfc_activities.specs.Relation.{IsSameDoing};
ghost use Rattle.pfc_activities.specs.Shown.{activity_shown};
ghost use Rattle.pfc_meeting.specs.Going.{HasRoom, gone_on, left_of, onward};

use pfc_activities::{Activity, Hand};
use pfc_base::Memory;
use pfc_pending::{At, Pending, Replica, Stmts};
use std::mem;

/// How a process goes on behind an alternative: the first `kept` of what is pending is left, and above it are the statements behind the
/// alternative, whose next scope has this number, and the write of its replica where there is one.
#[derive(Clone, Copy)]
pub struct Onward<'t> {
    pub kept: usize,
    pub replica: Option<Replica>,
    pub next: u32,
    pub stmts: Stmts<'t>,
}

/// Takes room for two parts more. Its only refusal is want of memory; there is nothing to be seen of it.
pub fn make_room<'t>(activity: &mut Activity<'t>) -> Result<(), Memory>
    ensures same { (t : Tables) → activity_shown t activity.new ≡ activity_shown t activity.old }
    ensures room { OnOk result (HasRoom activity.new 2) }
    ensures doing { IsSameDoing activity.old.doing activity.new.doing }
    ensures hand { activity.new.hand ≡ activity.old.hand }
{
    activity.doing.pending.reserve(2)?;
    Ok(())
}

/// One part more is pending.
#[tactic(auto, using(std::proofs::lemmas::List::Sums::fold_push, crate::proofs::Behind::begin_kept))]
fn put<'t>(pending: &mut Vec<Pending<'t>>, part: Pending<'t>)
    requires { vec_len pending.old + 1 ≤ vec_capacity pending.old }
    ensures over { (t : Tables) → waiting t pending.new.items ≡ over t (waiting t pending.old.items) part.entry }
    ensures count { vec_len pending.new ≡ vec_len pending.old + 1 }
    ensures room { vec_capacity pending.old ≤ vec_capacity pending.new }
    ensures begin { (n : ℕ) → n ≤ vec_len pending.old → take n pending.new.items ≡ take n pending.old.items }
{
    pending.push_reserved(part);
}

/// Statements are pending, unless there are none.
#[tactic(auto, using(crate::proofs::Behind::behind_none, crate::proofs::Behind::behind_some))]
fn put_statements<'t>(pending: &mut Vec<Pending<'t>>, next: u32, stmts: Stmts<'t>)
    requires { vec_len pending.old + 1 ≤ vec_capacity pending.old }
    ensures over { (t : Tables) → remainder_of (waiting t pending.new.items) ≡ behind next (stmts_left stmts.entry)
        (remainder_of (waiting t pending.old.items)) }
    ensures count { vec_len pending.new ≤ vec_len pending.old + 1 }
    ensures fewer { vec_len pending.old ≤ vec_len pending.new }
    ensures room { vec_capacity pending.old ≤ vec_capacity pending.new }
    ensures begin { (n : ℕ) → n ≤ vec_len pending.old → take n pending.new.items ≡ take n pending.old.items }
{
    if stmts.from < stmts.list.len() {
        put(pending, Pending::Perform(next, stmts));
    }
}

/// The write of a replica is pending, where there is one.
fn put_replica<'t>(pending: &mut Vec<Pending<'t>>, replica: Option<Replica>)
    requires { vec_len pending.old + 1 ≤ vec_capacity pending.old }
    ensures over { (t : Tables) → remainder_of (waiting t pending.new.items) ≡ behind_replica (option_map replica_view replica)
        (remainder_of (waiting t pending.old.items)) }
    ensures begin { (n : ℕ) → n ≤ vec_len pending.old → take n pending.new.items ≡ take n pending.old.items }
{
    if let Some(r) = replica {
        put(pending, Pending::WriteAgain(r));
    }
}

/// The process goes on so, in room that was taken before.
pub fn go_onward<'t>(activity: &mut Activity<'t>, way: Onward<'t>)
    requires { HasRoom activity.old 2 }
    ensures shown { (t : Tables) → activity_shown t activity.new ≡ gone_on t activity.old way.entry }
    ensures left { (t : Tables) → remainder_of (waiting t activity.new.doing.pending.items) ≡ onward way.entry (left_of t activity.old way.entry.kept) }
    ensures begin { way.entry.kept ≤ vec_len activity.old.doing.pending →
        take way.entry.kept activity.new.doing.pending.items ≡ take way.entry.kept activity.old.doing.pending.items }
    ensures at { activity.new.doing.at ≡ at.Rest }
    ensures line { activity.new.doing.line ≡ activity.old.doing.line }
    ensures names { activity.new.doing.names ≡ activity.old.doing.names }
{
    let pending = &mut activity.doing.pending;
    pending.truncate(way.kept);
    put_statements(pending, way.next, way.stmts);
    put_replica(pending, way.replica);
    drop(mem::replace(&mut activity.doing.at, At::Rest));
    drop(mem::replace(&mut activity.hand, Hand::Empty));
}
