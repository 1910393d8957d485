//! One action of a process, with the event that it was.
ghost use Rattle.std.specs.Prelude.{◌≡◌, IfOk, OnErr};
ghost use Rattle.pfc_semantics.specs.Configurations.{Config};
ghost use Rattle.pfc_activities.specs.Relation.{MayAct};
ghost use Rattle.pfc_acting.specs.Acting.{IsActed, StandsBefore};
ghost use Rattle.pfc_watching.specs.Watching.{IsHappened, IsWatched, TellsEvent, done_of};

use crate::joining::{joins, waits_behind};
use pfc_acting::{next, put_back};
use pfc_activities::{Done, Source, State};
use pfc_base::{Memory, RunFault};
use pfc_events::{Coming, foretell, happened};
use pfc_hb::Event;
use pfc_performing::perform;
use pfc_sched::Picker;
use pfc_values::Output;
use std::alloc::Global;

/// What an action was.
#[derive(Drop)]
pub enum Walked {
    /// An action without a fault, as its event.
    Stepped(Event),
    /// A fault, at a line from 1: no event.
    Faulted { line: u32, fault: RunFault },
}

/// One action of a process that is ready, with the event that it was. `waited` says whether main's last action began a wait at `coend`: main's
/// next one joins. What the action writes is put behind `out`, and a select that has something to choose among asks the picker. Its only
/// refusal is want of memory, which leaves the process before the same action, and the output, the picker and `waited` as they were.
pub fn act_watched<'t>(
    alloc: Global,
    source: &'t Source<'t>,
    state: &mut State<'t>,
    p: u32,
    waited: &mut bool,
    picker: &mut Picker,
    out: &mut Output,
) -> Result<Walked, Memory>
    requires { MayAct state.old p }
    ensures ok { IfOk result (λ w. IsActed source.now state.old state.new p picker.old picker.new out.old out.new (done_of w)) }
    ensures watched { IfOk result (λ w. IsWatched source.now state.old p picker.old waited.old waited.new w) }
    ensures err { OnErr result ((c : Config) → StandsBefore source.now state.old c p → StandsBefore source.now state.new c p) }
    ensures kept { OnErr result (out.new ≡ out.old) }
    ensures unchosen { OnErr result (picker.new ≡ picker.old) }
    ensures unwatched { OnErr result (waited.new ≡ waited.old) }
{
    let joins = joins(p, *waited);
    let walked = act_told(alloc, source, state, p, joins, picker, out)?;
    *waited = waits_behind(p, *waited, &state.world);
    Ok(walked)
}

/// The same, where it is known whether the action joins.
fn act_told<'t>(
    alloc: Global,
    source: &'t Source<'t>,
    state: &mut State<'t>,
    p: u32,
    joins: bool,
    picker: &mut Picker,
    out: &mut Output,
) -> Result<Walked, Memory>
    requires { MayAct state.old p }
    ensures ok { IfOk result (λ w. IsActed source.now state.old state.new p picker.old picker.new out.old out.new (done_of w)) }
    ensures told { IfOk result (λ w. TellsEvent source.now state.old p joins picker.old w) }
    ensures err { OnErr result ((c : Config) → StandsBefore source.now state.old c p → StandsBefore source.now state.new c p) }
    ensures kept { OnErr result (out.new ≡ out.old) }
    ensures unchosen { OnErr result (picker.new ≡ picker.old) }
{
    let deed = next(alloc, source, state, p)?;
    let Ok(told) = foretell(alloc, source, state, p, &deed, picker) else {
        put_back(state, p, deed);
        return Err(Memory);
    };
    match perform(alloc, source, state, p, deed, picker, out) {
        Ok(done) => Ok(event_behind(done, told, state, p, joins)),
        Err(deed) => {
            put_back(state, p, deed);
            Err(Memory)
        }
    }
}

/// What an action was that came and was done, by the state behind it.
fn event_behind(done: Done, told: Coming, state: &State<'_>, p: u32, joins: bool) -> Walked
    ensures done { done_of result ≡ done }
    ensures event { IsHappened state.now p joins told result }
{
    match done {
        Done::Stepped => Walked::Stepped(happened(told, state, p, joins)),
        Done::Faulted { line, fault } => Walked::Faulted { line, fault },
    }
}
