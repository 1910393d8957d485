//! The numbers in the cells of values.
ghost use Rattle.std.specs.Prelude.{◌≡◌, nat_abs, [], ◌∷◌, ◌++◌, IfOk, OnOk};
ghost use Rattle.pfc_store.specs.Views.{value_view, values_view};
ghost use Rattle.pfc_translation.specs.Objects.{main_numbers, numbers_of};

use pfc_base::Memory;
use pfc_store::Value;
use std::alloc::Global;

/// An ordinal as the number of an object. Its only refusal is a number of more than 32 bits.
fn number(n: i64) -> Result<u32, Memory>
    ensures { IfOk result (λ k. k ≡ nat_abs n) }
{
    match u32::try_from(n.unsigned_abs()) {
        Ok(k) => Ok(k),
        Err(_) => Err(Memory),
    }
}

/// One number more.
fn add_number(n: u32, numbers: &mut Vec<u32>) -> Result<(), Memory>
    ensures { OnOk result (numbers.new.items ≡ numbers.old.items ++ n ∷ []) }
{
    numbers.push(n)?;
    Ok(())
}

/// The numbers of a value, behind those before.
fn add_value(value: &Value, numbers: &mut Vec<u32>) -> Result<(), Memory>
    ensures { OnOk result (numbers.new.items ≡ numbers.old.items ++ numbers_of (value_view value.now)) }
{
    match value {
        Value::Ordinal(n) => add_number(number(*n)?, numbers),
        Value::Compound(parts) => {
            for part in parts {
                add_value(part, numbers)?;
            }
            Ok(())
        }
        Value::Points(_) => add_number(0, numbers),
    }
}

/// The numbers in the cells of values, in their order. An object stands for its number.
pub(crate) fn numbers(alloc: Global, values: &[Value]) -> Result<Vec<u32>, Memory>
    ensures { IfOk result (λ numbers. numbers.items ≡ main_numbers (values_view values.now)) }
{
    let mut numbers = Vec::new(alloc);
    for value in values {
        add_value(value, &mut numbers)?;
    }
    Ok(numbers)
}
