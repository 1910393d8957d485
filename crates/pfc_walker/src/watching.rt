//! The events of a run.
ghost use Rattle.std.specs.Prelude.{◌≡◌, ◌≢◌, ◌+◌, ◌<◌, ℕ, None, IfOk, IsSome};
ghost use Rattle.pfc_sched.specs.Picks.{Picking};
ghost use Rattle.pfc_semantics.specs.Programs.{Program};
ghost use Rattle.pfc_semantics.specs.Configurations.{Config};
ghost use Rattle.pfc_activities.specs.Programs.{IsProgram};
ghost use Rattle.pfc_activities.specs.Relation.{MayAct, Stands};
ghost use Rattle.pfc_walker.specs.Courses.{IsPick};
ghost use Rattle.pfc_walker.specs.Walks.{Walks};
ghost use Rattle.pfc_walker.specs.Watching.{IsNextEvent, event_in, events_from};

use crate::Walker;
use crate::actors::next_actor;
use pfc_activities::{Source, State};
use pfc_base::Memory;
use pfc_hb::Event;
use pfc_sched::Picker;
use pfc_values::Output;
use pfc_watching::{Walked, act_watched};
use pfc_world::Ending;
use std::alloc::Global;

impl<'t> Walker<'t> {
    /// Performs actions until an ending, each of the process that is picked, and answers their events in order; what the actions print is let
    /// go. They are those of the run from here on, of which `limit` actions may be done. The only refusal is want of memory, as which more
    /// than 10^18 actions count, or as much time.
    pub fn events(
        &mut self,
        alloc: Global,
        picker: &mut Picker,
        limit: u64,
    ) -> Result<Vec<Event>, Memory>
        requires { (g : Program) × (c : Config) × Walks self.old g c }
        ensures { IfOk result (λ events. (g : Program) (c : Config) → Walks self.old g c → events.items ≡ events_from g limit picker.old self.old.waited c) }
    {
        events_of(
            alloc,
            self.source,
            &mut self.state,
            &mut self.waited,
            picker,
            limit,
        )
    }
}

/// The events of the run of a state.
fn events_of<'t>(
    alloc: Global,
    source: &'t Source<'t>,
    state: &mut State<'t>,
    waited: &mut bool,
    picker: &mut Picker,
    limit: u64,
) -> Result<Vec<Event>, Memory>
    requires { (g : Program) × (c : Config) × IsProgram source.now g × Stands source.now state.old c }
    ensures { IfOk result (λ events. (g : Program) (c : Config) → IsProgram source.now g → Stands source.now state.old c →
        events.items ≡ events_from g limit picker.old waited.old c) }
{
    let mut events = Vec::new(alloc);
    let mut left = limit;
    while let Some(event) = next_event(alloc, source, state, waited, picker, left)? {
        events.push(event)?;
        left -= 1;
    }
    Ok(events)
}

/// The event of the action that comes next in a run, of which so many actions are left; nothing where the run ends, or with a fault.
fn next_event<'t>(
    alloc: Global,
    source: &'t Source<'t>,
    state: &mut State<'t>,
    waited: &mut bool,
    picker: &mut Picker,
    left: u64,
) -> Result<Option<Event>, Memory>
    requires { (g : Program) × (c : Config) × IsProgram source.now g × Stands source.now state.old c }
    ensures event { IfOk result (λ event. (g : Program) (c : Config) → IsProgram source.now g → Stands source.now state.old c →
        IsNextEvent source.now g left picker.old picker.new waited.old waited.new c state.new event) }
    ensures some { IfOk result (λ event. IsSome event → 0 < left) }
{
    match next_actor(alloc, state, picker, left, left) {
        Ok(p) => event_of(alloc, source, state, p, waited, picker),
        Err(ending) => no_event(&ending),
    }
}

/// No event, at an ending; want of memory is none.
fn no_event(ending: &Ending) -> Result<Option<Event>, Memory>
    ensures { IfOk result (λ event. (event ≡ None) × (ending.now ≢ Ending.Memory)) }
{
    match ending {
        Ending::Memory => Err(Memory),
        _ => Ok(None),
    }
}

/// The event of the action of the process that was picked; nothing where that is a fault. What it prints is let go.
fn event_of<'t>(
    alloc: Global,
    source: &'t Source<'t>,
    state: &mut State<'t>,
    p: u32,
    waited: &mut bool,
    picker: &mut Picker,
) -> Result<Option<Event>, Memory>
    requires { MayAct state.old p }
    ensures { IfOk result (λ event. (g : Program) (limit left : ℕ) (picking : Picking) (c d : Config) → IsProgram source.now g → Stands source.now state.old d →
        IsPick g limit left picking picker.old c d p
        → IsNextEvent source.now g (left + 1) picking picker.new waited.old waited.new c state.new event) }
{
    let mut out = Output::new(alloc);
    let walked = act_watched(alloc, source, state, p, waited, picker, &mut out)?;
    Ok(event_in(walked))
}

/// The event that an action was, where it was no fault.
fn event_in(walked: Walked) -> Option<Event>
    ensures { result ≡ event_in walked }
{
    match walked {
        Walked::Stepped(event) => Some(event),
        Walked::Faulted { line: _, fault: _ } => None,
    }
}
