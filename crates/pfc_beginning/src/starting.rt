//! All that there is before the first action.
ghost use Rattle.std.specs.Prelude.{◌≡◌, ◌+◌, true, false, None, length, replicate, IfOk};
ghost use Rattle.pfc_world.specs.Tables.{start_table};
ghost use Rattle.pfc_world.specs.Tickets.{IsNew};
ghost use Rattle.pfc_semantics.specs.Objects.{of_kind};
ghost use Rattle.pfc_store.specs.Views.{values_view};
ghost use Rattle.pfc_activities.specs.Relation.{Stands};
ghost use Rattle.pfc_semantics.specs.Configurations.{most_alternatives, start};
ghost use Rattle.pfc_beginning.specs.Beginnings.{program_with};

use crate::counts::{are_below, module_count, object_count};
use crate::processes::processes;
use pfc_activities::{Source, State};
use pfc_base::Memory;
use pfc_monitor::Monitors;
use pfc_pass::Semaphores;
use pfc_resource::Resources;
use pfc_sched::Draws;
use pfc_store::{Store, Value};
use pfc_values::Input;
use pfc_world::World;
use std::alloc::Global;

/// How many processes there may be beside main.
const MOST_PROCESSES: usize = 1_023;

/// How many alternatives a process may offer in a select.
const MOST_ALTERNATIVES: u32 = 1_024;

/// The monitors of a program, all free. A condition of a monitor that there is not, which never comes, counts as want of memory.
fn monitors(alloc: Global, source: &Source) -> Result<Monitors, Memory>
    ensures { IfOk result (λ made. made ≡ record {
      holders = replicate (of_kind false source.now.program.tables.scopes.now.modules) None;
      owners =
          source.now.objects.conditions.items;
    }) }
{
    let count = module_count(source.program.tables.scopes, false);
    if !are_below(&source.objects.conditions, count) {
        return Err(Memory);
    }
    let monitors = Monitors::new(alloc, count, &source.objects.conditions)?;
    Ok(monitors)
}

/// The resources of a program, all free.
fn resources(alloc: Global, source: &Source) -> Result<Resources, Memory>
    ensures { IfOk result (λ made. made ≡ replicate (of_kind true source.now.program.tables.scopes.now.modules) None) }
{
    let count = module_count(source.program.tables.scopes, true);
    let resources = Resources::new(alloc, count)?;
    Ok(resources)
}

/// The table of processes: main is ready, and the others are idle. More than 1,023 of them count as want of memory.
fn table(alloc: Global, source: &Source) -> Result<World, Memory>
    ensures table { IfOk result (λ world. world ≡ start_table (1 + length source.now.objects.processes.items) most_alternatives) }
    ensures fresh { IfOk result (λ world. IsNew world.rows world.done) }
{
    let count = source.objects.processes.len();
    if count > MOST_PROCESSES {
        return Err(Memory);
    }
    let processes = 1 + count as u32;
    let objects = object_count(source, processes);
    let world = World::with_processes(alloc, processes, MOST_ALTERNATIVES, objects)?;
    Ok(world)
}

/// The state of a program before its first action, over main's variables, an input and a seed of `random`. Its only refusal is want of
/// memory; more than 1,023 processes beside main count as one.
pub fn at_start<'t>(
    alloc: Global,
    source: &Source<'t>,
    variables: Vec<Value>,
    input: &[u8],
    seed: u64,
) -> Result<State<'t>, Memory>
    ensures { IfOk result (λ state. Stands source.now state (start (program_with source.now (values_view variables.items)) input.now seed)) }
{
    let world = table(alloc, source)?;
    let semaphores = Semaphores::new(alloc, source.objects.semaphores)?;
    let guards = monitors(alloc, source)?;
    let free = resources(alloc, source)?;
    let bytes = Input::new(alloc, input)?;
    let activities = processes(alloc, source)?;
    let store = Store::with_main(alloc, variables);
    let draws = Draws::new(seed);
    Ok(State {
        activities,
        world,
        semaphores,
        monitors: guards,
        resources: free,
        store,
        input: bytes,
        draws,
    })
}
