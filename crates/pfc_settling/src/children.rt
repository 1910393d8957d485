//! The end of children that only serve.
ghost use Rattle.std.specs.Prelude.{◌≡◌, ◌<◌, [], length};
ghost use Rattle.pfc_program.specs.declared.tables.Tables.{Tables};
ghost use Rattle.pfc_state.specs.Stands.{may_end};
ghost use Rattle.pfc_world.specs.Tables.{at};
ghost use Rattle.pfc_store.specs.Views.{store_view};
ghost use Rattle.pfc_semantics.specs.Processes.{without_all};
ghost use Rattle.pfc_activities.specs.Shown.{activity_shown};
ghost use Rattle.pfc_activities.specs.Views.{activations_view};
ghost use Rattle.pfc_settling.specs.Ending.{ended_shown, EndsOne, EndsNext, EndsChildren};

use pfc_activities::{Activation, Activity, Hand, State};
use pfc_store::{Display, Store};
use pfc_world::{State as Standing, Why, World};
use std::alloc::Global;

/// Whether a process waits in a select with an open `terminate`.
fn is_serving(world: &World, p: u32) -> bool
    requires { p < length world.now.rows }
    ensures { result ≡ may_end (at world.now.rows p) }
{
    match world.state(p) {
        Standing::Waiting(Why::Select { due: _, terminate }) => terminate,
        _ => false,
    }
}

/// The variables of these activations are gone.
fn remove_all<'t>(activations: &[Activation<'t>], store: &mut Store)
    ensures { (t : Tables) → store_view store.new ≡ without_all (store_view store.old) (activations_view t activations.now) }
{
    for i in (0..activations.len()).rev() {
        store.remove(activations[i].number);
    }
}

/// A process has no activation any more, and shows nothing. Its line stays.
fn end_activity<'t>(alloc: Global, activity: &mut Activity<'t>, store: &mut Store)
    ensures shown { (t : Tables) → activity_shown t activity.new ≡ ended_shown (activity_shown t activity.old) }
    ensures line { activity.new.line ≡ activity.old.line }
    ensures store { (t : Tables) → store_view store.new ≡ without_all (store_view store.old) (activations_view t activity.old.activations.items) }
{
    remove_all(&activity.activations, store);
    activity.activations = Vec::new(alloc);
    activity.display = Display::new(alloc);
    activity.hand = Hand::Empty;
}

/// The process with this number has no activation any more, and shows nothing.
fn end_one<'t>(alloc: Global, state: &mut State<'t>, p: u32)
    requires { p < length state.old.activities.items }
    ensures { EndsOne state.old state.new p }
{
    let activity = &mut state.activities[p as usize];
    end_activity(alloc, activity, &mut state.store);
}

/// The same, if it waits in a select with an open `terminate`.
fn end_if_serving<'t>(alloc: Global, state: &mut State<'t>, p: u32)
    requires { p < length state.old.world.rows }
    ensures { EndsNext state.old state.new p }
{
    if state.activities.len() <= p as usize {
        return;
    }
    if !is_serving(&state.world, p) {
        return;
    }
    end_one(alloc, state, p);
}

/// All that wait in a select with an open `terminate` have no activations any more, and show nothing.
pub(crate) fn end_children<'t>(alloc: Global, state: &mut State<'t>)
    ensures { EndsChildren state.old state.new }
{
    for p in 0..state.world.processes() {
        end_if_serving(alloc, state, p);
    }
}
