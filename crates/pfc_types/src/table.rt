//! The table of types.
ghost use Rattle.std.specs.Prelude.{◌≡◌, ◌⊎◌, ◌++◌, [], ◌∷◌, ◌<◌, ◌≤◌, ◌≤ℤ◌, ◌+◌, ◌-◌, ◌*◌, ◌^◌, ℕ, true, List, length, Some, None, Ok, Err, IfOk, IfErr};
ghost use Rattle.std.specs.Prelude.{OnOk, OnErr, option_copied};
ghost use Rattle.pfc_types.specs.Types.{has_bounds, extent, held_times, held_with, cells_in};
ghost use Rattle.pfc_types.specs.Table.{IsSmall};

use crate::{Fields, TypeForm, TypeId};
use pfc_base::Memory;
use std::alloc::Global;
use std::marker::Model;

/// What a variable of a type takes and holds.
#[derive(Clone, Copy, Debug, PartialEq, Eq)]
pub struct Held {
    /// How many cells it takes.
    pub cells: u64,
    /// How many processes it holds, counted up to 1,024, which is one more than a program may have beside main.
    pub processes: u64,
    /// Whether it holds a condition.
    pub conditions: bool,
    /// Whether it holds a semaphore or a channel.
    pub shared: bool,
}

/// Why a type was not added.
#[derive(Clone, Copy, Debug, PartialEq, Eq)]
pub enum TypeFault {
    /// The index of an array is not simple, or its low bound is above its high one.
    Bounds,
    /// It has more than 65,536 cells.
    Cells,
    /// Memory was refused, or 2^32 - 1 types are held.
    Memory,
}

/// The most cells that a type may have.
const MOST_CELLS: u64 = 65_536;

/// Processes are counted up to this number.
const MOST_PROCESSES: u64 = 1_024;

const NOTHING: Held = Held {
    cells: 0,
    processes: 0,
    conditions: false,
    shared: false,
};

const ONE_CELL: Held = Held {
    cells: 1,
    processes: 0,
    conditions: false,
    shared: false,
};

const ONE_SHARED: Held = Held {
    cells: 1,
    processes: 0,
    conditions: false,
    shared: true,
};

const ONE_CONDITION: Held = Held {
    cells: 1,
    processes: 0,
    conditions: true,
    shared: false,
};

const ONE_PROCESS: Held = Held {
    cells: 1,
    processes: 1,
    conditions: false,
    shared: false,
};

/// The table of types. A contract sees the list of their forms, None for the six predeclared ones, which stand first.
#[derive(Drop)]
pub struct TypeTable {
    forms: Vec<Option<TypeForm>>,
    held: Vec<Held>,
}

impl Model for TypeTable {
    ghost use Rattle.pfc_types.specs.Types.{Forms};

    ghost Value = { Forms };

    ghost use Rattle.pfc_types.specs.Table.{AreHeld};

    ghost view = { λ t. t.forms.items };

    ghost invariant = { λ t. AreHeld t.forms.items t.held.items };
}

impl TypeTable {
    ghost use Rattle.pfc_types.specs.Types.{predeclared_forms, form_of, held_of, held_form, fields_held, refusal_of, all_held};
    ghost use Rattle.pfc_types.specs.declared.table.TypeFault.{TypeFault};
    ghost use Rattle.pfc_types.specs.declared.table.TypeFault.TheVariants.{Memory as NoMemory};

    /// The table of the six predeclared types. Its only refusal is want of memory.
    pub fn new(alloc: Global) -> Result<TypeTable, Memory>
        ensures { IfOk result (λ table. table ≡ predeclared_forms) }
    {
        let forms = vec![in alloc; None, None, None, None, None, None]?;
        let held = Vec::from_slice(
            alloc,
            &[
                ONE_CELL,
                ONE_CELL,
                ONE_CELL,
                ONE_SHARED,
                ONE_CONDITION,
                ONE_CELL,
            ],
        )?;
        Ok(TypeTable { forms, held })
    }

    /// What a type is made of, None exactly for the six predeclared types and for a place that is none in the table.
    pub fn form(&self, t: TypeId) -> Option<&TypeForm>
        ensures { option_copied result ≡ form_of self.now t }
    {
        match self.forms.get(t.place as usize) {
            Some(Some(form)) => Some(form),
            Some(None) | None => None,
        }
    }

    /// What a variable of a type takes and holds. A place that is none in the table counts one cell.
    pub fn held(&self, t: TypeId) -> Held
        ensures value { result ≡ held_of self.now t }
        ensures small { IsSmall result }
    {
        match self.held.get(t.place as usize) {
            Some(held) => *held,
            None => ONE_CELL,
        }
    }

    /// Adds a type behind the others, and gives its place. It is refused with `Bounds` exactly where its index is not
    /// simple or its low bound is above its high one, and with `Cells` exactly where its bounds are good and it has more
    /// than 65,536 cells. A refusal changes nothing.
    pub fn add(&mut self, form: TypeForm) -> Result<TypeId, TypeFault>
        ensures added { OnOk result (self.new ≡ self.old ++ Some form ∷ []) }
        ensures place { IfOk result (λ t. t.place ≡ length self.old) }
        ensures unchanged { OnErr result (self.new ≡ self.old) }
        ensures fits { OnOk result (refusal_of self.old form ≡ None) }
        ensures cause { IfErr result (λ fault. (fault ≡ NoMemory) ⊎ (refusal_of self.old form ≡ Some fault)) }
        ensures refused { (fault : TypeFault) → refusal_of self.old form ≡ Some fault → result ≡ Err fault }
    {
        if !has_good_bounds(&form) {
            return Err(TypeFault::Bounds);
        }
        let held = self.held_by(&form);
        if held.cells > MOST_CELLS {
            return Err(TypeFault::Cells);
        }
        if self.forms.len() >= u32::MAX as usize {
            return Err(TypeFault::Memory);
        }
        self.push(form, held)
    }

    /// Adds a type with what it holds.
    #[tactic(auto, using(crate::proofs::Adding::are_held_push))]
    fn push(&mut self, form: TypeForm, held: Held) -> Result<TypeId, TypeFault>
        requires holds { held ≡ held_form (all_held self.old) form }
        requires small { IsSmall held }
        requires room { length self.old < 2 ^ 32 - 1 }
        ensures added { OnOk result (self.new ≡ self.old ++ Some form ∷ []) }
        ensures place { IfOk result (λ t. t.place ≡ length self.old) }
        ensures unchanged { OnErr result (self.new ≡ self.old) }
        ensures cause { IfErr result (λ fault. fault ≡ NoMemory) }
    {
        let place = self.forms.len() as u32;
        if self.held.push(held).is_err() {
            return Err(TypeFault::Memory);
        }
        if self.forms.push(Some(form)).is_err() {
            self.held.pop();
            return Err(TypeFault::Memory);
        }
        Ok(TypeId { place })
    }

    /// What a variable of a type that is not yet in the table takes and holds.
    fn held_by(&self, form: &TypeForm) -> Held
        requires { has_bounds form.now ≡ true }
        ensures value { result ≡ held_form (all_held self.now) form.now }
        ensures processes { result.processes ≤ 1024 }
    {
        match form {
            TypeForm::Channel(_) => ONE_SHARED,
            TypeForm::Array {
                index: _,
                low,
                high,
                element,
            } => times(value_count(*low, *high), self.held(*element)),
            TypeForm::Record(fields) => self.held_by_fields(fields),
            TypeForm::Process(_) => ONE_PROCESS,
        }
    }

    /// What the fields of a record take and hold together.
    fn held_by_fields(&self, fields: &Fields) -> Held
        ensures value { result ≡ fields_held (all_held self.now) fields.now }
        ensures processes { result.processes ≤ 1024 }
    {
        let mut sum = NOTHING;
        for i in 0..fields.len() {
            sum = both(sum, self.held(fields.type_at(i)));
        }
        sum
    }
}

/// What a variable of a type takes: `cells_of` is the number of its cells.
pub fn cells_of(types: &TypeTable, t: TypeId) -> u32
    ensures { result ≡ cells_in types.now t }
{
    types.held(t).cells as u32
}

/// Both bounds of an array are ordinals of a simple type, and the low one is not above the high one.
fn has_good_bounds(form: &TypeForm) -> bool
    ensures { result ≡ has_bounds form.now }
{
    match form {
        TypeForm::Array {
            index,
            low,
            high,
            element: _,
        } => index.place < 3 && *low <= *high,
        TypeForm::Channel(_) | TypeForm::Record(_) | TypeForm::Process(_) => true,
    }
}

/// How many values lie between two bounds, both counted.
pub fn value_count(low: i32, high: i32) -> u64
    requires { low ≤ℤ high }
    ensures value { result ≡ extent low high }
    ensures bound { result ≤ 2 ^ 32 }
{
    (high as i64 - low as i64 + 1) as u64
}

/// n times the same.
fn times(n: u64, held: Held) -> Held
    requires count { n ≤ 2 ^ 32 }
    requires small { IsSmall held }
    ensures value { result ≡ held_times n held }
    ensures processes { result.processes ≤ 1024 }
{
    Held {
        cells: n * held.cells,
        processes: (n * held.processes).min(MOST_PROCESSES),
        conditions: held.conditions,
        shared: held.shared,
    }
}

/// Both together.
fn both(sum: Held, held: Held) -> Held
    requires sum { sum.cells ≤ 2 ^ 48 }
    requires processes { sum.processes ≤ 1024 }
    requires small { IsSmall held }
    ensures value { result ≡ held_with sum held }
    ensures processes { result.processes ≤ 1024 }
{
    Held {
        cells: sum.cells + held.cells,
        processes: (sum.processes + held.processes).min(MOST_PROCESSES),
        conditions: sum.conditions || held.conditions,
        shared: sum.shared || held.shared,
    }
}
