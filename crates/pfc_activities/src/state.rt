//! All that there is between two actions.

use crate::Activity;
use pfc_monitor::Monitors;
use pfc_pass::Semaphores;
use pfc_resource::Resources;
use pfc_sched::Draws;
use pfc_store::Store;
use pfc_values::Input;
use pfc_world::World;

/// All that there is between two actions: the processes by their numbers, main being 0; the table of standings, the count of each
/// semaphore and who holds each monitor and each resource; the variables; the input that is left, and the words of `random`.
#[derive(Drop)]
pub struct State<'t> {
    pub activities: Vec<Activity<'t>>,
    pub world: World,
    pub semaphores: Semaphores,
    pub monitors: Monitors,
    pub resources: Resources,
    pub store: Store,
    pub input: Input,
    pub draws: Draws,
}
