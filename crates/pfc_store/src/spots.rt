//! A variable's part as the text names it.
ghost use Rattle.std.specs.Prelude.{◌≡◌, ◌≤ℤ◌, ◌-ℤ◌, nat_abs, Some, None, Err, IfOk, IfErr, OnOk, OnErr, option_copied};
ghost use Rattle.pfc_types.specs.rules.Expressions.{field_type as type_of_field};
ghost use Rattle.pfc_semantics.specs.Displays.{within};
ghost use Rattle.pfc_semantics.specs.Expressions.{form_in, field_place as place_of_field, field_spot, element_spot};
ghost use Rattle.pfc_store.specs.Views.{selector_view, spot_view, typed_spot_view, HasRoom};
ghost use Rattle.pfc_store.specs.Bounds.{element_between};
ghost use Rattle.pfc_store.specs.declared.spots.StepFault.TheVariants.{Index};

use crate::Selector;
use pfc_base::{Memory, Name};
use pfc_types::{TypeForm, TypeId, TypeTable};
use std::alloc::Global;

/// A variable's part in the text: the scope that declares the variable, its place there, and the steps to the part, outermost first.
#[derive(Drop)]
pub struct Spot {
    pub scope: u32,
    pub variable: u32,
    pub selectors: Vec<Selector>,
}

/// A spot, with the type of what lies there.
#[derive(Drop)]
pub struct TypedSpot {
    pub spot: Spot,
    pub t: Option<TypeId>,
}

/// Why a step to an element was not made.
#[derive(Clone, Copy, Debug, PartialEq, Eq)]
pub enum StepFault {
    /// The index is outside the bounds.
    Index,
    /// Memory was refused.
    Memory,
}

impl Spot {
    /// The same spot once more. Its only refusal is want of memory.
    pub fn copy(&self, alloc: Global) -> Result<Spot, Memory>
        ensures { IfOk result (λ s. spot_view s ≡ spot_view self.now) }
    {
        Ok(Spot {
            scope: self.scope,
            variable: self.variable,
            selectors: Vec::from_slice(alloc, &self.selectors)?,
        })
    }

    /// Takes room for one step more. Its only refusal is want of memory; the spot is the same in any case.
    pub fn reserve_step(&mut self) -> Result<(), Memory>
        ensures same { spot_view self.new ≡ spot_view self.old }
        ensures room { OnOk result (HasRoom self.new) }
    {
        self.selectors.reserve(1)?;
        Ok(())
    }

    /// One step further, in room that was taken before. It takes no memory.
    pub fn step_within(&mut self, selector: Selector)
        requires { HasRoom self.old }
        ensures { spot_view self.new ≡ within (spot_view self.old) (selector_view selector) }
    {
        self.selectors.push(selector).unwrap();
    }

    /// One step further. Its only refusal is want of memory, which changes nothing.
    pub fn step(&mut self, selector: Selector) -> Result<(), Memory>
        ensures stepped { OnOk result (spot_view self.new ≡ within (spot_view self.old) (selector_view selector)) }
        ensures unchanged { OnErr result (spot_view self.new ≡ spot_view self.old) }
    {
        self.selectors.push(selector)?;
        Ok(())
    }
}

/// What a type is made of, None where there is no type.
fn form_of(types: &TypeTable, t: Option<TypeId>) -> Option<&TypeForm>
    ensures { option_copied result ≡ form_in types.now t }
{
    types.form(t?)
}

/// The place of a field of a type, 0 where it has no such field.
fn field_place(types: &TypeTable, t: Option<TypeId>, name: &Name) -> u32
    ensures { result ≡ place_of_field (form_in types.now t) name.now }
{
    match form_of(types, t) {
        Some(TypeForm::Record(fields)) => fields.position(name).unwrap_or(0),
        Some(_) => 0,
        None => 0,
    }
}

/// The type of a field of a type, None where it has no such field.
fn field_type(types: &TypeTable, t: Option<TypeId>, name: &Name) -> Option<TypeId>
    ensures { result ≡ type_of_field types.now t name.now }
{
    match form_of(types, t) {
        Some(TypeForm::Record(fields)) => fields.find(name),
        Some(_) => None,
        None => None,
    }
}

/// How far an index is above the low bound.
fn distance(low: i32, i: i32) -> u32
    requires { low ≤ℤ i }
    ensures { result ≡ nat_abs (i -ℤ low) }
{
    (i as i64 - low as i64) as u32
}

impl TypedSpot {
    /// The same spot once more, with the type. Its only refusal is want of memory.
    pub fn copy(&self, alloc: Global) -> Result<TypedSpot, Memory>
        ensures { IfOk result (λ s. typed_spot_view s ≡ typed_spot_view self.now) }
    {
        Ok(TypedSpot {
            spot: self.spot.copy(alloc)?,
            t: self.t,
        })
    }

    /// On to a field. Its only refusal is want of memory, which changes nothing; a place past 2^31 counts as one.
    pub fn field(&mut self, types: &TypeTable, name: &Name) -> Result<(), Memory>
        ensures stepped { OnOk result (typed_spot_view self.new ≡ field_spot types.now (typed_spot_view self.old) name.now) }
        ensures unchanged { OnErr result (typed_spot_view self.new ≡ typed_spot_view self.old) }
    {
        let place = field_place(types, self.t, name);
        if place > i32::MAX as u32 {
            return Err(Memory);
        }
        let t = field_type(types, self.t, name);
        self.spot.step(Selector {
            place,
            index: place as i32,
        })?;
        self.t = t;
        Ok(())
    }

    /// On to an element. It is refused with `Index` exactly where the index is outside the bounds, or where there are no elements. A
    /// refusal changes nothing.
    pub fn element(&mut self, types: &TypeTable, i: i64) -> Result<(), StepFault>
        ensures stepped { OnOk result (element_spot types.now (typed_spot_view self.old) i ≡ Some (typed_spot_view self.new)) }
        ensures unchanged { OnErr result (typed_spot_view self.new ≡ typed_spot_view self.old) }
        ensures outside { IfErr result (λ fault. fault ≡ Index → element_spot types.now (typed_spot_view self.old) i ≡ None) }
        ensures refused { element_spot types.now (typed_spot_view self.old) i ≡ None → result ≡ Err Index }
    {
        match form_of(types, self.t) {
            Some(
                TypeForm::Array {
                    index: _,
                    low,
                    high,
                    element,
                },
            ) => self.element_in(*low, *high, *element, i),
            Some(_) => Err(StepFault::Index),
            None => Err(StepFault::Index),
        }
    }

    /// On to an element of an array with these bounds.
    fn element_in(&mut self, low: i32, high: i32, element: TypeId, i: i64) -> Result<(), StepFault>
        ensures stepped { OnOk result (element_between low high element (spot_view self.old.spot) i ≡ Some (typed_spot_view self.new)) }
        ensures unchanged { OnErr result (typed_spot_view self.new ≡ typed_spot_view self.old) }
        ensures outside { IfErr result (λ fault. fault ≡ Index → element_between low high element (spot_view self.old.spot) i ≡ None) }
        ensures refused { element_between low high element (spot_view self.old.spot) i ≡ None → result ≡ Err Index }
    {
        if i < low as i64 || i > high as i64 {
            return Err(StepFault::Index);
        }
        let step = Selector {
            place: distance(low, i as i32),
            index: i as i32,
        };
        match self.spot.step(step) {
            Ok(()) => {
                self.t = Some(element);
                Ok(())
            }
            Err(Memory) => Err(StepFault::Memory),
        }
    }
}
