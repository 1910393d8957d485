//! Values, and where they lie.
ghost use Rattle.std.specs.Prelude.{◌≡◌, IfOk};
ghost use Rattle.pfc_semantics.specs.Values.{ordinal, points, ordinal_of};
ghost use Rattle.pfc_store.specs.Views.{location_view, value_view, values_view};

use pfc_base::Memory;
use std::alloc::Global;

/// One step into a value: the place of a part, from 0, and the ordinal of the index that chose it. A field's ordinal is its place.
#[derive(Clone, Copy, Debug, PartialEq, Eq)]
pub struct Selector {
    pub place: u32,
    pub index: i32,
}

/// Where a value lies.
#[derive(Drop)]
pub struct Location {
    /// The number of the activation: main's is 0, any other is that of the action, from 1, that made it.
    pub activation: u64,
    /// The place, from 0, of the variable in the layout of the activation's block.
    pub variable: u32,
    /// The steps to a part of it, outermost first.
    pub selectors: Vec<Selector>,
}

/// What a variable holds.
#[derive(Drop)]
pub enum Value {
    /// A value of a simple type, by its ordinal; an object, by its number.
    Ordinal(i64),
    /// An array by its elements, a record by its fields, in their order.
    Compound(Vec<Value>),
    /// What a reference parameter holds: where its variable lies.
    Points(Location),
}

impl Location {
    /// The same location once more.
    pub fn copy(&self, alloc: Global) -> Result<Location, Memory>
        ensures { IfOk result (λ l. location_view l ≡ location_view self.now) }
    {
        Ok(Location {
            activation: self.activation,
            variable: self.variable,
            selectors: Vec::from_slice(alloc, &self.selectors)?,
        })
    }
}

impl Value {
    /// The value of a simple type with an ordinal.
    pub fn of(n: i64) -> Value
        ensures { value_view result ≡ ordinal n }
    {
        Value::Ordinal(n)
    }

    /// What a reference parameter holds that stands for the variable there.
    pub fn pointing(l: Location) -> Value
        ensures { value_view result ≡ points (location_view l) }
    {
        Value::Points(l)
    }

    /// The ordinal of a value of a simple type, 0 for any other value.
    pub fn ordinal(&self) -> i64
        ensures { result ≡ ordinal_of (value_view self.now) }
    {
        match self {
            Value::Ordinal(n) => *n,
            Value::Compound(_) => 0,
            Value::Points(_) => 0,
        }
    }

    /// The same value once more. Its only refusal is want of memory.
    pub fn copy(&self, alloc: Global) -> Result<Value, Memory>
        ensures { IfOk result (λ v. value_view v ≡ value_view self.now) }
    {
        match self {
            Value::Ordinal(n) => Ok(Value::Ordinal(*n)),
            Value::Compound(parts) => {
                let mut copies = Vec::new(alloc);
                for part in parts {
                    copies.push(part.copy(alloc)?)?;
                }
                Ok(Value::Compound(copies))
            }
            Value::Points(l) => Ok(Value::Points(l.copy(alloc)?)),
        }
    }
}

/// The same values once more, in their order. Its only refusal is want of memory.
pub fn copy_values(alloc: Global, values: &[Value]) -> Result<Vec<Value>, Memory>
    ensures { IfOk result (λ vs. values_view vs.items ≡ values_view values.now) }
{
    let mut copies = Vec::new(alloc);
    for value in values {
        copies.push(value.copy(alloc)?)?;
    }
    Ok(copies)
}
