//! How many objects of a kind there are.
ghost use Rattle.std.specs.Prelude.{◌≡◌, ◌<◌, ◌≤◌, true, length, All};
ghost use Rattle.pfc_semantics.specs.Objects.{of_kind};
ghost use Rattle.pfc_state.specs.Waits.{same_truth};

use pfc_activities::Source;
use pfc_types::{ModuleHead, Scopes};

/// Whether this is a resource, or whether it is a monitor.
fn is_of_kind(head: ModuleHead, resource: bool) -> bool
    ensures { result ≡ same_truth head.resource resource }
{
    head.resource == resource
}

/// How many resources there are, or how many monitors.
pub(crate) fn module_count(scopes: &Scopes, resource: bool) -> u32
    ensures { result ≡ of_kind resource scopes.now.modules }
{
    let mut count = 0;
    for k in 0..scopes.modules() {
        if is_of_kind(scopes.module(k), resource) {
            count += 1;
        }
    }
    count
}

/// How many lists of each kind of wait a program with so many processes needs so that no two of its objects share one: as
/// many as there are semaphores, channels, conditions, monitors and resources, processes, or entries of all processes,
/// whatever is most.
pub(crate) fn object_count(source: &Source, processes: u32) -> u32
    ensures semaphores { source.now.objects.semaphores ≤ result }
    ensures channels { source.now.objects.channels ≤ result }
    ensures modules { length source.now.program.tables.scopes.now.modules ≤ result }
    ensures processes { processes ≤ result }
{
    let objects = &source.objects;
    let scopes = source.program.tables.scopes;
    let conditions = objects.conditions.len().min(u32::MAX as usize) as u32;
    let entries = scopes.entries().saturating_mul(processes);
    objects
        .semaphores
        .max(objects.channels)
        .max(conditions)
        .max(scopes.modules())
        .max(processes)
        .max(entries)
}

/// Whether these numbers are all below another.
pub(crate) fn are_below(numbers: &[u32], end: u32) -> bool
    ensures { result ≡ true → All (λ n. n < end) numbers.now }
{
    for n in numbers {
        if *n >= end {
            return false;
        }
    }
    true
}
