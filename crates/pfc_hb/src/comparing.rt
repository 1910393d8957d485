//! What two events have in common.
ghost use Rattle.std.specs.Prelude.{◌≡◌, ◌≤◌, ◌||◌, ◌&&◌, length};
ghost use Rattle.std.specs.List.{list_any, starts_with};
ghost use Rattle.std.specs.Ordering.{int_eq};
ghost use Rattle.pfc_hb.specs.Clocks.{reaches};
ghost use Rattle.pfc_hb.specs.Conflicts.{clashes, clashes_with, overlaps, writes_against};

use crate::{Access, Event};

/// Whether the first event, the earlier one, is of the process of the second, or wakes it.
pub(crate) fn reaches_process(first: &Event, second: &Event) -> bool
    ensures { result ≡ reaches first.now second.now }
{
    first.process == second.process || first.wakes.as_slice().contains(&second.process)
}

/// Whether a write of the first event takes part in its conflict with the second.
pub(crate) fn has_write_against(first: &Event, second: &Event) -> bool
    ensures { result ≡ writes_against first.now second.now }
{
    let others = second.accesses.as_slice();
    first
        .accesses
        .as_slice()
        .iter()
        .any(|access| access.write && clashes_with_some(access, others))
}

// It stands apart, so that loops over events that have one access stay short.
#[inline(never)]
fn clashes_with_some(access: &Access, others: &[Access]) -> bool
    ensures { result ≡ list_any (clashes access.now) others.now }
{
    others.iter().any(|other| do_clash(access, other))
}

fn do_clash(first: &Access, second: &Access) -> bool
    ensures { result ≡ clashes first.now second.now }
{
    first.spot.variable == second.spot.variable
        && first.spot.activation == second.spot.activation
        && (first.write || second.write)
        && do_overlap(first.spot.path.steps(), second.spot.path.steps())
}

/// Whether one of two paths is a prefix of the other.
fn do_overlap(path: &[i32], other: &[i32]) -> bool
    ensures { result ≡ overlaps path.now other.now }
{
    path.is_empty() || other.is_empty() || path[0] == other[0] && does_one_begin(path, other)
}

// It stands apart, since few paths have the same first step.
#[inline(never)]
fn does_one_begin(path: &[i32], other: &[i32]) -> bool
    ensures { result ≡ overlaps path.now other.now }
{
    if path.len() <= other.len() {
        does_begin_with(other, path)
    } else {
        does_begin_with(path, other)
    }
}

/// Whether a path begins with one that is no longer.
fn does_begin_with(path: &[i32], front: &[i32]) -> bool
    requires { length front.now ≤ length path.now }
    ensures { result ≡ starts_with int_eq path.now front.now }
{
    for place in 0..front.len() {
        if path[place] != front[place] {
            return false;
        }
    }
    true
}
