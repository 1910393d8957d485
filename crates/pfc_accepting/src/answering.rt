//! A plain `accept`.
ghost use Rattle.std.specs.Prelude.{◌≡◌, ◌≢◌, ◌∷◌, [], Some, None, IfOk, OnErr};
ghost use Rattle.pfc_state.specs.Stands.{IsWaiting};
ghost use Rattle.pfc_world.specs.Partners.{caller as first_caller};
ghost use Rattle.pfc_world.specs.Tables.{at};
ghost use Rattle.pfc_semantics.specs.Statements.{plain_open};
ghost use Rattle.pfc_semantics.specs.Remainders.{to_accept};
ghost use Rattle.pfc_pending.specs.Selects.{accepting_view, opens_view};
ghost use Rattle.pfc_pending.specs.declared.actions.Deed.TheVariants as deed;
ghost use Rattle.pfc_pending.specs.declared.select.Offer.TheVariants as offer;
ghost use Rattle.pfc_activities.specs.Relation.{MayAct, Performs, StaysAt};
ghost use Rattle.pfc_accepting.specs.Meetings.{HasMeetingRoom};

use crate::beginning::show;
use crate::meetings::way_behind_plain;
use crate::rules::accept_by;
use crate::{meeting_at, room_for_meeting, take_caller};
use pfc_activities::{Done, Hand, Offering, Source, State};
use pfc_base::Memory;
use pfc_pending::{Accepting, Offer, Open, Stmts};
use pfc_world::Why;
use std::alloc::Global;

/// A plain `accept`: the process takes the caller that has waited longest for the entry, and is at the accept's statement; where nobody
/// calls the entry, it waits and shows what it offers. Want of memory changes nothing that is to be seen; a caller that is no process, which
/// never comes, counts as one.
pub fn accepts<'t>(
    alloc: Global,
    source: &Source<'t>,
    state: &mut State<'t>,
    p: u32,
    accepting: Accepting<'t>,
) -> Result<Done, Memory>
    requires { MayAct state.old p }
    ensures ok { IfOk result (λ d. Performs source.now state.old state.new p (deed.Meets (offer.Accept accepting.entry)) [] d) }
    ensures err { OnErr result (StaysAt state.old state.new p) }
{
    let calls = Why::Call {
        owner: p,
        entry: accepting.entry,
    };
    match state.world.first_at(calls) {
        Some(caller) => {
            room_for_meeting(state, p)?;
            accepts_from(alloc, source, state, p, caller, accepting)
        }
        None => waits_for_caller(alloc, source, state, p, accepting),
    }
}

/// The process takes its first caller, in room that was taken before.
fn accepts_from<'t>(
    alloc: Global,
    source: &Source<'t>,
    state: &mut State<'t>,
    p: u32,
    caller: u32,
    accepting: Accepting<'t>,
) -> Result<Done, Memory>
    requires may { MayAct state.old p }
    requires first { first_caller state.old.world.rows p accepting.entry ≡ Some caller }
    requires waits { IsWaiting (at state.old.world.rows caller) }
    requires room { HasMeetingRoom state.old.activities.items p }
    ensures ok { IfOk result (λ d. Performs source.now state.old state.new p (deed.Meets (offer.Accept accepting.entry)) [] d) }
    ensures err { OnErr result (state.new ≡ state.old) }
{
    if caller as usize >= state.activities.len() {
        return Err(Memory);
    }
    let own = &state.activities[p as usize];
    let way = way_behind_plain(source, own);
    let meeting = meeting_at(alloc, source, &own.doing.names, accepting, way)?;
    accept_by(&mut state.world, p, accepting.entry);
    Ok(take_caller(alloc, state, p, caller, meeting))
}

/// An accept as the one open alternative, without statements. Its only refusal is want of memory.
#[tactic(auto, using(crate::proofs::Statements::no_statements))]
fn alone<'t>(
    alloc: Global,
    source: &Source<'t>,
    accepting: Accepting<'t>,
) -> Result<Vec<Open<'t>>, Memory>
    ensures { IfOk result (λ opens. opens_view opens.items ≡ plain_open (to_accept (accepting_view accepting.entry)) ∷ []) }
{
    let list = source.program.main.stmts;
    let mut opens = Vec::new(alloc);
    opens.push(Open {
        offer: Offer::Accept(accepting),
        replica: None,
        next: 0,
        stmts: Stmts {
            list,
            from: list.len(),
        },
    })?;
    Ok(opens)
}

/// The process waits for a caller, and shows what it offers. Want of memory changes nothing.
fn waits_for_caller<'t>(
    alloc: Global,
    source: &Source<'t>,
    state: &mut State<'t>,
    p: u32,
    accepting: Accepting<'t>,
) -> Result<Done, Memory>
    requires may { MayAct state.old p }
    requires nobody { first_caller state.old.world.rows p accepting.entry ≡ None }
    ensures ok { IfOk result (λ d. Performs source.now state.old state.new p (deed.Meets (offer.Accept accepting.entry)) [] d) }
    ensures err { OnErr result (state.new ≡ state.old) }
{
    let opens = alone(alloc, source, accepting)?;
    let doing = &state.activities[p as usize].doing;
    let offering = Offering {
        line: doing.line,
        opens,
        kept: doing.pending.len(),
    };
    accept_by(&mut state.world, p, accepting.entry);
    Ok(show(state, p, Hand::Offering(offering)))
}
