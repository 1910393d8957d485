//! The first values of variables.
ghost use Rattle.std.specs.Prelude.{◌≡◌, ◌≤◌, ◌++◌, IfOk, length, map, take, drop};
ghost use Rattle.pfc_types.specs.Types.{extent};
ghost use Rattle.pfc_semantics.specs.Values.{copies, values_from};
ghost use Rattle.pfc_semantics.specs.Objects.{initial, first_of, first_fields, all_first, first_laid as first_in_layout};
ghost use Rattle.pfc_store.specs.Views.{value_view, values_view};

use crate::Value;
use pfc_base::Memory;
use pfc_types::{Fields, Meaning, TypeForm, TypeId, TypeTable};
use std::alloc::Global;

/// The first value of a variable of a type: ordinal 0 in every part. Its only refusal is want of memory.
#[cycle(values)]
pub fn first_value(alloc: Global, types: &TypeTable, t: TypeId) -> Result<Value, Memory>
    ensures { IfOk result (λ v. value_view v ≡ initial types.now t) }
{
    match types.form(t) {
        Some(
            TypeForm::Array {
                index: _,
                low,
                high,
                element,
            },
        ) => {
            let count = element_count(*low, *high);
            Ok(Value::Compound(elements(alloc, types, t, *element, count)?))
        }
        Some(TypeForm::Record(fields)) => Ok(Value::Compound(parts(alloc, types, t, fields)?)),
        Some(TypeForm::Channel(_)) => Ok(Value::of(0)),
        Some(TypeForm::Process(_)) => Ok(Value::of(0)),
        None => Ok(Value::of(0)),
    }
}

/// How many elements an array with these bounds has.
pub(crate) fn element_count(low: i32, high: i32) -> u64
    ensures { result ≡ extent low high }
{
    (high as i64 - low as i64 + 1).unsigned_abs()
}

/// The first value of a part of a type. A type stands behind those that it is made of.
#[cycle(values)]
fn first_part(alloc: Global, types: &TypeTable, whole: TypeId, t: TypeId) -> Result<Value, Memory>
    requires { whole.place ≤ length types.now }
    ensures { IfOk result (λ v. value_view v ≡ first_of (all_first (take whole.place types.now)) t) }
{
    if t.place < whole.place {
        first_value(alloc, types, t)
    } else {
        Ok(Value::of(0))
    }
}

/// So many elements of an array.
#[cycle(values)]
fn elements(
    alloc: Global,
    types: &TypeTable,
    whole: TypeId,
    element: TypeId,
    count: u64,
) -> Result<Vec<Value>, Memory>
    requires { whole.place ≤ length types.now }
    ensures { IfOk result (λ vs. values_from (values_view vs.items) ≡ copies count (first_of (all_first (take whole.place types.now)) element)) }
{
    let mut items = Vec::new(alloc);
    for _ in 0..count {
        items.push(first_part(alloc, types, whole, element)?)?;
    }
    Ok(items)
}

/// The fields of a record.
#[cycle(values)]
fn parts(
    alloc: Global,
    types: &TypeTable,
    whole: TypeId,
    fields: &Fields,
) -> Result<Vec<Value>, Memory>
    requires { whole.place ≤ length types.now }
    ensures { IfOk result (λ vs. values_from (values_view vs.items) ≡ first_fields (all_first (take whole.place types.now)) fields.now) }
{
    let mut items = Vec::new(alloc);
    for i in 0..fields.len() {
        items.push(first_part(alloc, types, whole, fields.type_at(i))?)?;
    }
    Ok(items)
}

/// The first value of a place of a layout. Its only refusal is want of memory.
pub fn first_laid(alloc: Global, types: &TypeTable, laid: Meaning) -> Result<Value, Memory>
    ensures { IfOk result (λ v. value_view v ≡ first_in_layout (all_first types.now) laid) }
{
    match laid {
        Meaning::Variable { t, reference: _ } => first_value(alloc, types, t),
        Meaning::Process(_) => Ok(Value::of(0)),
        Meaning::Constant { t: _, value: _ } => Ok(Value::of(0)),
        Meaning::Named(_) => Ok(Value::of(0)),
        Meaning::Sub(_) => Ok(Value::of(0)),
        Meaning::Module(_) => Ok(Value::of(0)),
        Meaning::Entry(_) => Ok(Value::of(0)),
        Meaning::Predeclared(_) => Ok(Value::of(0)),
        Meaning::Faulty => Ok(Value::of(0)),
    }
}

/// The variables of a new activation: the arguments, and behind them the first values of the other places of its layout. Its only
/// refusal is want of memory.
pub fn new_values(
    alloc: Global,
    types: &TypeTable,
    layout: &[Meaning],
    args: Vec<Value>,
) -> Result<Vec<Value>, Memory>
    ensures { IfOk result (λ vs. values_view vs.items ≡ values_view args.items ++ drop (length args.items)
        (map (first_in_layout (all_first types.now)) layout.now)) }
{
    let mut values = args;
    for i in values.len()..layout.len() {
        values.push(first_laid(alloc, types, layout[i])?)?;
    }
    Ok(values)
}
