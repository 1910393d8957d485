//! One turn of a run: an ending, or an action.
ghost use Rattle.std.specs.Prelude.{◌≡◌, ◌≢◌, ℕ, ◌+◌, ◌<◌, Some, None};
ghost use Rattle.pfc_sched.specs.Picks.{Picking};
ghost use Rattle.pfc_semantics.specs.Programs.{Program};
ghost use Rattle.pfc_semantics.specs.Configurations.{Config};
ghost use Rattle.pfc_activities.specs.Programs.{IsProgram};
ghost use Rattle.pfc_activities.specs.Relation.{MayAct, Stands};
ghost use Rattle.pfc_walker.specs.Courses.{IsTurn, IsPick};

use crate::actors::next_actor;
use crate::telling::{Told, act_told};
use pfc_activities::{Done, Source, State};
use pfc_sched::Picker;
use pfc_settling::settle;
use pfc_values::Output;
use pfc_world::Ending;
use std::alloc::Global;

/// One action of the process that was picked, of which is told behind `out`. It answers the ending that this is, or None where the run goes
/// on.
fn act_out<'t>(
    alloc: Global,
    source: &'t Source<'t>,
    state: &mut State<'t>,
    p: u32,
    picker: &mut Picker,
    told: Told,
    out: &mut Output,
) -> Option<Ending>
    requires may { MayAct state.old p }
    requires before { (g : Program) × (c : Config) × IsProgram source.now g × Stands source.now state.old c }
    ensures turn { (g : Program) (limit left : ℕ) (picking : Picking) (c d : Config) → IsProgram source.now g → Stands source.now state.old d →
        IsPick g limit left picking picker.old c d p →
        IsTurn told source.now g limit (left + 1) picking picker.new c state.new result (Some out.old) (Some out.new) }
    ensures written { result ≢ Some Ending.SinkFailed }
{
    let Ok(done) = act_told(alloc, source, state, p, picker, told, out) else {
        return Some(Ending::Memory);
    };
    match done {
        Done::Stepped => None,
        Done::Faulted { line, fault } => {
            settle(alloc, state);
            Some(Ending::Fault {
                process: p,
                line,
                fault,
            })
        }
    }
}

/// One turn of a run: its ending, or the action of the process that is picked, of which is told behind `out`. It answers the ending, or None where
/// the run goes on.
pub(crate) fn turn<'t>(
    alloc: Global,
    source: &'t Source<'t>,
    state: &mut State<'t>,
    picker: &mut Picker,
    limit: u64,
    left: u64,
    told: Told,
    out: &mut Output,
) -> Option<Ending>
    requires before { (g : Program) × (c : Config) × IsProgram source.now g × Stands source.now state.old c }
    ensures turn { (g : Program) (c : Config) → IsProgram source.now g → Stands source.now state.old c →
        IsTurn told source.now g limit left picker.old picker.new c state.new result (Some out.old) (Some out.new) }
    ensures some { result ≡ None → 0 < left }
    ensures written { result ≢ Some Ending.SinkFailed }
{
    match next_actor(alloc, state, picker, limit, left) {
        Ok(p) => act_out(alloc, source, state, p, picker, told, out),
        Err(ending) => Some(ending),
    }
}
