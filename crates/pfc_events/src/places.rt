//! Reads and writes of what lies where a spot does.
ghost use Rattle.std.specs.Prelude.{◌≡◌, ◌+◌, ◌++◌, ◌∷◌, [], true, IfOk, OnOk, option_map};
ghost use Rattle.pfc_semantics.specs.Displays.{located};
ghost use Rattle.pfc_store.specs.Frames.{frame_view};
ghost use Rattle.pfc_store.specs.Views.{location_view, selectors_view, spot_view, store_view, value_view, values_view};
ghost use Rattle.pfc_races.specs.Seen.{path_seen};
ghost use Rattle.pfc_events.specs.Held.{access_to, is_reference, message_in, parameter_at, parameter_write, parameters_of};

use pfc_base::Memory;
use pfc_hb::{Access, Path, Spot as Touched};
use pfc_store::{Display, Frame, Location, Selector, Spot, Store, Value};
use std::alloc::Global;

/// The steps to a part, as the order of events knows them.
fn path_of(alloc: Global, steps: &[Selector]) -> Result<Path, Memory>
    ensures { IfOk result (λ path. path ≡ path_seen (selectors_view steps.now)) }
{
    let mut path = Vec::new(alloc);
    for step in steps {
        path.push(step.index)?;
    }
    Ok(Path::from_vec(path))
}

/// An access of what lies at a location.
fn access_at(alloc: Global, at: &Location, write: bool) -> Result<Access, Memory>
    ensures { IfOk result (λ access. access ≡ access_to write (location_view at.now)) }
{
    Ok(Access {
        spot: Touched {
            activation: at.activation,
            variable: at.variable,
            path: path_of(alloc, &at.selectors)?,
        },
        write,
    })
}

/// The one access of what lies where a spot does. Its only refusal is want of memory.
pub(crate) fn touch(
    alloc: Global,
    store: &Store,
    display: &Display,
    spot: &Spot,
    write: bool,
) -> Result<Vec<Access>, Memory>
    ensures { IfOk result (λ accesses. accesses.items ≡ access_to write (located (store_view store.now) display.now (spot_view spot.now)) ∷ []) }
{
    let at = store.located(alloc, display, spot)?;
    let mut accesses = Vec::new(alloc);
    accesses.push(access_at(alloc, &at, write)?)?;
    Ok(accesses)
}

/// The write of a message to its receiver's variable, if it has one. Its only refusal is want of memory.
pub(crate) fn message_write(
    alloc: Global,
    store: &Store,
    display: &Display,
    target: &Option<Spot>,
) -> Result<Vec<Access>, Memory>
    ensures { IfOk result (λ accesses. accesses.items ≡ message_in (store_view store.now) display.now (option_map spot_view target.now)) }
{
    match target {
        Some(spot) => touch(alloc, store, display, spot, true),
        None => Ok(Vec::new(alloc)),
    }
}

/// Whether a parameter with this value is a reference.
fn is_reference(value: &Value) -> bool
    ensures { result ≡ is_reference (value_view value.now) }
{
    match value {
        Value::Points(_) => true,
        Value::Ordinal(_) => false,
        Value::Compound(_) => false,
    }
}

/// The place of a parameter among the variables of its activation. One past 2^32, which never comes, counts as want of memory.
fn place_behind(first: u32, i: usize) -> Result<u32, Memory>
    ensures { IfOk result (λ place. place ≡ first + i) }
{
    match (first as usize).checked_add(i) {
        Some(place) if place <= 4_294_967_295 => Ok(place as u32),
        _ => Err(Memory),
    }
}

/// Adds the write of a parameter of an accept, unless it is a reference.
fn add_parameter(
    alloc: Global,
    writes: &mut Vec<Access>,
    frame: Frame,
    i: usize,
    value: &Value,
) -> Result<(), Memory>
    ensures { OnOk result (writes.new.items ≡ writes.old.items ++ parameter_write (frame_view frame) i (value_view value.now)) }
{
    if is_reference(value) {
        return Ok(());
    }
    writes.push(Access {
        spot: Touched {
            activation: frame.activation,
            variable: place_behind(frame.first, i)?,
            path: Path::from_vec(Vec::new(alloc)),
        },
        write: true,
    })?;
    Ok(())
}

/// The writes of the parameters of an accept that take values. Its only refusal is want of memory.
pub(crate) fn parameter_writes(
    alloc: Global,
    frame: Frame,
    values: &[Value],
) -> Result<Vec<Access>, Memory>
    ensures { IfOk result (λ accesses. accesses.items ≡ parameters_of (frame_view frame) 0 (values_view values.now)) }
{
    let mut writes = Vec::new(alloc);
    for (i, value) in values.iter().enumerate() {
        add_parameter(alloc, &mut writes, frame, i, value)?;
    }
    Ok(writes)
}
