//! What an action was.
ghost use Rattle.std.specs.Prelude.{◌≡◌, ℕ, List, IfOk};
ghost use Rattle.pfc_semantics.specs.Configurations.{Config};
ghost use Rattle.pfc_semantics.specs.Programs.{Program};
ghost use Rattle.pfc_semantics.specs.Remainders.{Action};
ghost use Rattle.pfc_activities.specs.declared.changes.Done.TheVariants.{Stepped};
ghost use Rattle.pfc_activities.specs.declared.source.Source.{Source as HeldSource};
ghost use Rattle.pfc_activities.specs.Relation.{Ends, MayAct};
ghost use Rattle.pfc_events.specs.Events.{Foretells, IsComing, event_meant, line_in};

use crate::accesses::accesses_of;
use crate::things::things_of;
use crate::wakes::Standings;
use pfc_activities::{Source, State};
use pfc_base::Memory;
use pfc_hb::{Access, Accesses, Event, Thing, Things};
use pfc_pending::Deed;
use pfc_sched::Picker;
use std::alloc::Global;

/// What is told of an action before it is done: its line, its objects, the variables that it reads or writes, and who is ready before it.
#[derive(Drop)]
pub struct Coming {
    pub(crate) line: u32,
    pub(crate) things: Vec<Thing>,
    pub(crate) accesses: Vec<Access>,
    pub(crate) standings: Standings,
}

/// The line of an action, which is that of the statement but at the end of a body.
fn line_of<'t>(line: u32, deed: &Deed<'t>) -> u32
    ensures { result ≡ line_in line deed.now }
{
    match deed {
        Deed::Finishes(end) => *end,
        _ => line,
    }
}

/// What is told of the action that comes next for a process, before it is done; in a select with the choice that the picker makes next. It is
/// refused where memory is, and where something does not fit that fits in every run.
pub fn foretell<'t>(
    alloc: Global,
    source: &Source<'t>,
    state: &State<'t>,
    p: u32,
    deed: &Deed<'t>,
    picker: &Picker,
) -> Result<Coming, Memory>
    requires { MayAct state.now p }
    ensures { IfOk result (λ told. IsComing source.now state.now p deed.now picker.now told) }
{
    let own = &state.activities[p as usize];
    Ok(Coming {
        line: line_of(own.doing.line, deed),
        things: things_of(alloc, source, state, own, p, deed)?,
        accesses: accesses_of(alloc, state, p, deed, picker)?,
        standings: Standings::before(alloc, &state.world)?,
    })
}

/// The event that the action of process p was which came, by the state behind it; whether it joins behind a `coend` is known of main. It takes
/// no memory.
pub fn happened<'t>(told: Coming, state: &State<'t>, p: u32, joins: bool) -> Event
    ensures { (source : HeldSource) (g : Program) (c : Config) (choice : ℕ) (n : Action) (bytes : List ℕ) → Foretells g c p choice n told →
        Ends source g state.now c p choice n bytes Stepped → result ≡ event_meant g c p choice n joins }
{
    let Coming {
        line,
        things,
        accesses,
        standings,
    } = told;
    Event {
        process: p,
        line,
        joins,
        wakes: standings.woken(&state.world),
        things: Things::from_vec(things),
        accesses: Accesses::from_vec(accesses),
    }
}
