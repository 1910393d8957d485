//! Which cells of variables hold an object.
ghost use Rattle.std.specs.Prelude.{◌≡◌, ◌≤◌, [], ◌∷◌, ◌++◌, length, take, None, IfOk, OnOk};
ghost use Rattle.pfc_types.specs.Types.{extent, form_of};
ghost use Rattle.pfc_translation.specs.Objects.{all_objects, cells_before, laid_objects, object_fields, times};
ghost use Rattle.pfc_objects.specs.Cells.{laid_object};

use pfc_base::Memory;
use pfc_types::{Fields, Meaning, TypeForm, TypeId, TypeTable};
use std::alloc::Global;

/// Whether a variable of a type that is made of nothing is an object: a semaphore or a condition.
fn is_object(types: &TypeTable, t: TypeId) -> bool
    requires { form_of types.now t ≡ None }
    ensures { cells_before (all_objects types.now) t ≡ result ∷ [] }
{
    let held = types.held(t);
    held.shared || held.conditions
}

/// How many elements an array with these bounds has.
fn element_count(low: i32, high: i32) -> u64
    ensures { result ≡ extent low high }
{
    (high as i64 - low as i64 + 1).unsigned_abs()
}

/// The cells of a variable of a type, behind those before.
#[cycle(cells)]
fn add_type(types: &TypeTable, t: TypeId, cells: &mut Vec<bool>) -> Result<(), Memory>
    ensures { OnOk result (cells.new.items ≡ cells.old.items ++ cells_before (all_objects types.now) t) }
{
    match types.form(t) {
        Some(
            TypeForm::Array {
                index: _,
                low,
                high,
                element,
            },
        ) => add_elements(types, t, *element, element_count(*low, *high), cells),
        Some(TypeForm::Record(fields)) => add_fields(types, t, fields, cells),
        Some(TypeForm::Channel(_)) => add_cell(true, cells),
        Some(TypeForm::Process(_)) => add_cell(true, cells),
        None => add_cell(is_object(types, t), cells),
    }
}

/// One cell more.
fn add_cell(is_object: bool, cells: &mut Vec<bool>) -> Result<(), Memory>
    ensures { OnOk result (cells.new.items ≡ cells.old.items ++ is_object ∷ []) }
{
    cells.push(is_object)?;
    Ok(())
}

/// The cells of a part of a type. A type stands behind those that it is made of.
#[cycle(cells)]
fn add_part(
    types: &TypeTable,
    whole: TypeId,
    t: TypeId,
    cells: &mut Vec<bool>,
) -> Result<(), Memory>
    requires { whole.place ≤ length types.now }
    ensures { OnOk result (cells.new.items ≡ cells.old.items ++ cells_before (all_objects (take whole.place types.now)) t) }
{
    if t.place < whole.place {
        add_type(types, t, cells)
    } else {
        add_cell(false, cells)
    }
}

/// The cells of so many elements of an array.
#[cycle(cells)]
fn add_elements(
    types: &TypeTable,
    whole: TypeId,
    element: TypeId,
    count: u64,
    cells: &mut Vec<bool>,
) -> Result<(), Memory>
    requires { whole.place ≤ length types.now }
    ensures { OnOk result (cells.new.items ≡ cells.old.items ++ times count (cells_before (all_objects (take whole.place types.now)) element)) }
{
    for _ in 0..count {
        add_part(types, whole, element, cells)?;
    }
    Ok(())
}

/// The cells of the fields of a record.
#[cycle(cells)]
fn add_fields(
    types: &TypeTable,
    whole: TypeId,
    fields: &Fields,
    cells: &mut Vec<bool>,
) -> Result<(), Memory>
    requires { whole.place ≤ length types.now }
    ensures { OnOk result (cells.new.items ≡ cells.old.items ++ object_fields (all_objects (take whole.place types.now)) fields.now) }
{
    for i in 0..fields.len() {
        add_part(types, whole, fields.type_at(i), cells)?;
    }
    Ok(())
}

/// The cells of a place of a layout.
fn add_laid(types: &TypeTable, laid: Meaning, cells: &mut Vec<bool>) -> Result<(), Memory>
    ensures { OnOk result (cells.new.items ≡ cells.old.items ++ laid_object (all_objects types.now) laid) }
{
    match laid {
        Meaning::Variable { t, reference: _ } => add_type(types, t, cells),
        _ => add_cell(true, cells),
    }
}

/// Which cells of the variables of a layout hold an object, in their order.
pub(crate) fn object_cells(
    alloc: Global,
    types: &TypeTable,
    layout: &[Meaning],
) -> Result<Vec<bool>, Memory>
    ensures { IfOk result (λ cells. cells.items ≡ laid_objects (all_objects types.now) layout.now) }
{
    let mut cells = Vec::new(alloc);
    for m in layout {
        add_laid(types, *m, &mut cells)?;
    }
    Ok(cells)
}
