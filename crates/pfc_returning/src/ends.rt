//! The end of a process.
ghost use Rattle.std.specs.Prelude.{◌≡◌};
ghost use Rattle.pfc_program.specs.declared.tables.Tables.{Tables};
ghost use Rattle.pfc_store.specs.Views.{store_view};
ghost use Rattle.pfc_semantics.specs.Processes.{without_all};
ghost use Rattle.pfc_activities.specs.Relation.{MayAct};
ghost use Rattle.pfc_activities.specs.Views.{activations_view};
ghost use Rattle.pfc_returning.specs.Ending.{HasEnded, EndsProcess};

use pfc_activities::{Activation, Activity, Done, Hand, State};
use pfc_pending::{At, Deed};
use pfc_store::{Display, Store};
use std::alloc::Global;
use std::mem;

/// The variables of these activations are gone.
fn remove_rooms<'t>(activations: &[Activation<'t>], store: &mut Store)
    ensures { (t : Tables) → store_view store.new ≡ without_all (store_view store.old) (activations_view t activations.now) }
{
    for i in (0..activations.len()).rev() {
        store.remove(activations[i].number);
    }
}

/// The process has no activation any more, and is at the end of its body, which has this line.
fn end_activity<'t>(alloc: Global, activity: &mut Activity<'t>, line: u32)
    ensures { (t : Tables) → HasEnded t activity.new line }
{
    activity.activations = Vec::new(alloc);
    activity.display = Display::new(alloc);
    drop(mem::replace(&mut activity.hand, Hand::Empty));
    activity.line = line;
    drop(mem::replace(&mut activity.doing.at, At::Deed(Deed::Finishes(line))));
}

/// The process has finished, at the line of its last `end`. The end of the last child makes main ready, where that one waits at `coend`.
pub(crate) fn end_process<'t>(alloc: Global, state: &mut State<'t>, p: u32, line: u32) -> Done
    requires { MayAct state.old p }
    ensures { EndsProcess state.old state.new p line result }
{
    remove_rooms(&state.activities[p as usize].activations, &mut state.store);
    end_activity(alloc, &mut state.activities[p as usize], line);
    let r = state.world.begin(p);
    state.world.finish(r);
    state.world.tick();
    Done::Stepped
}
