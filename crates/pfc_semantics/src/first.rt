//! The first value of a variable.
ghost use Rattle.std.specs.Prelude.{◌≡◌, ◌≤◌, IfOk, length, take};
ghost use Rattle.pfc_semantics.specs.Objects.{initial, first_of, first_fields, all_first};
ghost use Rattle.pfc_semantics.specs.Values.{copies};
ghost use Rattle.pfc_types.specs.Types.{extent};
ghost use Rattle.pfc_semantics.specs.Seen.{seen, seen_parts, value_view, part_views};

use crate::Value;
use pfc_base::Memory;
use pfc_types::{Fields, TypeForm, TypeId, TypeTable};
use std::alloc::Global;

/// The first value of a variable of a type: ordinal 0 in every part. The type is a place in the table. Its only refusal is want of
/// memory.
#[cycle(values)]
pub fn initial_value(alloc: Global, types: &TypeTable, t: TypeId) -> Result<Value, Memory>
    ensures { IfOk result (λ v. value_view v ≡ seen (initial types.now t)) }
{
    match types.form(t) {
        Some(
            TypeForm::Array {
                index: _,
                low,
                high,
                element,
            },
        ) => {
            let count = element_count(*low, *high);
            Ok(Value::List(elements(alloc, types, t, *element, count)?))
        }
        Some(TypeForm::Record(fields)) => Ok(Value::List(parts(alloc, types, t, fields)?)),
        Some(TypeForm::Channel(_)) => Ok(Value::Number(0)),
        Some(TypeForm::Process(_)) => Ok(Value::Number(0)),
        None => Ok(Value::Number(0)),
    }
}

/// How many elements an array with these bounds has.
fn element_count(low: i32, high: i32) -> u64
    ensures { result ≡ extent low high }
{
    (high as i64 - low as i64 + 1).unsigned_abs()
}

/// The first value of a part of a type. A type stands behind those that it is made of.
#[cycle(values)]
fn part(alloc: Global, types: &TypeTable, whole: TypeId, t: TypeId) -> Result<Value, Memory>
    requires { whole.place ≤ length types.now }
    ensures { IfOk result (λ v. value_view v ≡ seen (first_of (all_first (take whole.place types.now)) t)) }
{
    if t.place < whole.place {
        initial_value(alloc, types, t)
    } else {
        Ok(Value::Number(0))
    }
}

/// So many elements of an array.
#[cycle(values)]
fn elements(
    alloc: Global,
    types: &TypeTable,
    whole: TypeId,
    element: TypeId,
    count: u64,
) -> Result<Vec<Value>, Memory>
    requires { whole.place ≤ length types.now }
    ensures { IfOk result (λ vs. part_views vs.items ≡ seen_parts (copies count (first_of (all_first (take whole.place types.now)) element))) }
{
    let mut items = Vec::new(alloc);
    for _ in 0..count {
        items.push(part(alloc, types, whole, element)?)?;
    }
    Ok(items)
}

/// The fields of a record.
#[cycle(values)]
fn parts(
    alloc: Global,
    types: &TypeTable,
    whole: TypeId,
    fields: &Fields,
) -> Result<Vec<Value>, Memory>
    requires { whole.place ≤ length types.now }
    ensures { IfOk result (λ vs. part_views vs.items ≡ seen_parts (first_fields (all_first (take whole.place types.now)) fields.now)) }
{
    let mut items = Vec::new(alloc);
    for i in 0..fields.len() {
        items.push(part(alloc, types, whole, fields.type_at(i))?)?;
    }
    Ok(items)
}
