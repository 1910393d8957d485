//! A part of a value: how it is read, and how another value is put there.
ghost use Rattle.std.specs.Prelude.{◌≡◌, ◌<◌, pos, length, get_or, set, option_copied};
ghost use Rattle.pfc_semantics.specs.Values.{ordinal, part_of, part, with_part as with_other_part, path_of};
ghost use Rattle.pfc_semantics.specs.Rendezvous.{taken_from};
ghost use Rattle.pfc_store.specs.declared.values.Value.{Value as HeldValue};
ghost use Rattle.pfc_store.specs.Views.{selectors_view, value_view, values_view, part_view};

use crate::{Selector, Value};
use std::mem;

/// One step into a value, None where there is no such part: it counts as ordinal 0. A value that has no parts is itself whatever part is
/// asked for.
fn part_in(whole: &Value, place: u32) -> Option<&Value>
    ensures { part_view (option_copied result) ≡ part_of (value_view whole.now) place }
{
    match whole {
        Value::Compound(parts) => parts.get(place as usize),
        Value::Ordinal(_) => Some(whole),
        Value::Points(_) => Some(whole),
    }
}

/// The part that some steps lead to, None where there is none: it counts as ordinal 0.
pub(crate) fn part_at<'a>(whole: &'a Value, steps: &[Selector]) -> Option<&'a Value>
    ensures { part_view (option_copied result) ≡ part (path_of (selectors_view steps.now)) (value_view whole.now) }
{
    let mut at = whole;
    for step in steps {
        at = part_in(at, step.place)?;
    }
    Some(at)
}

/// The value with another part where some steps lead to. Where there is no such part it is as before.
#[cycle(put)]
pub(crate) fn with_part(whole: Value, steps: &[Selector], new: Value) -> Value
    ensures { value_view result ≡ with_other_part (path_of (selectors_view steps.now)) (value_view whole) (value_view new) }
{
    match steps {
        [] => new,
        [step, rest @ ..] => match whole {
            Value::Compound(mut parts) => {
                put_among(&mut parts, step.place as usize, rest, new);
                Value::Compound(parts)
            }
            Value::Ordinal(n) => Value::Ordinal(n),
            Value::Points(l) => Value::Points(l),
        },
    }
}

/// Puts another value into one of these, where some steps lead to. Where there is no such part nothing changes.
#[cycle(put)]
pub(crate) fn put_among(values: &mut Vec<Value>, place: usize, steps: &[Selector], new: Value)
    ensures { values_view values.new.items ≡ set (values_view values.old.items) place (with_other_part (path_of (selectors_view steps.now))
        (get_or (values_view values.old.items) place (ordinal (pos 0))) (value_view new)) }
{
    if place < values.len() {
        let old = exchanged(values, place, Value::Ordinal(0));
        exchanged(values, place, with_part(old, steps, new));
    }
}

/// Some of these take other values, from one place on, one behind the other. Where there is no such place nothing changes.
pub(crate) fn take_among(values: &mut Vec<Value>, first: u32, mut args: Vec<Value>)
    ensures { values_view values.new.items ≡ taken_from first (values_view args.items) (values_view values.old.items) }
{
    while let Some(arg) = args.pop() {
        replace(values, first as usize + args.len(), arg);
    }
}

/// Puts another value in a place. Where there is no such place nothing changes.
fn replace(values: &mut Vec<Value>, place: usize, new: Value)
    ensures { values_view values.new.items ≡ set (values_view values.old.items) place (value_view new) }
{
    if place < values.len() {
        exchanged(values, place, new);
    }
}

/// Puts another value in a place, and gives the one that stood there.
fn exchanged(values: &mut Vec<Value>, place: usize, new: Value) -> Value
    requires { place < length values.old.items }
    ensures was { (d : HeldValue) → result ≡ get_or values.old.items place d }
    ensures put { values.new.items ≡ set values.old.items place new }
{
    mem::replace(&mut values[place], new)
}
