//! The parts of variables that the events of a run access, by numbers.
ghost use Rattle.std.specs.Prelude.{◌≡◌, ◌≤◌, ◌++◌, IfOk, OnOk, length, true};
ghost use Rattle.std.specs.Option.{option_to_list};
ghost use Rattle.pfc_hb.specs.Parts.{AllAreKnown, AreAround, KeepsKnown, KnowsAll, front, is_known, number_of};

use crate::{Access, Event, Spot};
use indexmap::IndexSet;
use pfc_base::Memory;
use std::alloc::Global;

/// A part of a variable, or all of it, by what leads there.
#[derive(Clone, Copy, PartialEq, Eq, Hash)]
pub(crate) struct Part<'a> {
    pub(crate) activation: u64,
    pub(crate) variable: u32,
    pub(crate) path: &'a [i32],
}

/// What some events access. The number of a part is its place in the set. The only refusal is want of memory.
pub(crate) fn parts_of<'a>(alloc: Global, events: &'a [Event]) -> Result<IndexSet<Part<'a>>, Memory>
    ensures { IfOk result (λ parts. KnowsAll events.now parts.keys) }
{
    let mut parts = IndexSet::new(alloc);
    for event in events {
        put_parts(&mut parts, event.accesses.as_slice())?;
    }
    Ok(parts)
}

fn put_parts<'a>(parts: &mut IndexSet<Part<'a>>, accesses: &'a [Access]) -> Result<(), Memory>
    ensures kept { OnOk result (KeepsKnown parts.old.keys parts.new.keys) }
    ensures put { OnOk result (AllAreKnown accesses.now parts.new.keys) }
{
    for access in accesses {
        put_part(parts, &access.spot)?;
    }
    Ok(())
}

fn put_part<'a>(parts: &mut IndexSet<Part<'a>>, spot: &'a Spot) -> Result<(), Memory>
    ensures kept { OnOk result (KeepsKnown parts.old.keys parts.new.keys) }
    ensures put { OnOk result (is_known parts.new.keys spot.now ≡ true) }
{
    parts.insert(Part {
        activation: spot.activation,
        variable: spot.variable,
        path: spot.path.steps(),
    })?;
    Ok(())
}

/// The number of what lies at a spot, if it is among these parts.
pub(crate) fn number_of<'a>(parts: &IndexSet<Part<'a>>, spot: &'a Spot) -> Option<usize>
    ensures { result ≡ number_of parts.now.keys spot.now }
{
    number_at(parts, spot, spot.path.steps().len())
}

/// The number of what lies so many steps towards a spot.
fn number_at<'a>(parts: &IndexSet<Part<'a>>, spot: &'a Spot, depth: usize) -> Option<usize>
    requires { depth ≤ length spot.now.path }
    ensures { result ≡ number_of parts.now.keys (front depth spot.now) }
{
    let part = Part {
        activation: spot.activation,
        variable: spot.variable,
        path: &spot.path.steps()[..depth],
    };
    parts.get_index_of(&part)
}

/// The numbers of the parts within which what lies at a spot lies, without its own. The only refusal is want of memory.
pub(crate) fn numbers_outside<'a>(
    alloc: Global,
    parts: &IndexSet<Part<'a>>,
    spot: &'a Spot,
) -> Result<Vec<usize>, Memory>
    ensures { IfOk result (λ numbers. AreAround parts.now.keys spot.now (numbers.items ++ option_to_list (number_of parts.now.keys spot.now))) }
{
    let depths = spot.path.steps().len();
    let mut numbers = Vec::with_capacity(alloc, depths)?;
    for depth in 0..depths {
        if let Some(number) = number_at(parts, spot, depth) {
            numbers.push(number)?;
        }
    }
    Ok(numbers)
}
