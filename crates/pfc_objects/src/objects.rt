//! The objects of a program.
ghost use Rattle.std.specs.Prelude.{◌≡◌, ◌++◌, IfOk, OnOk};
ghost use Rattle.pfc_translation.specs.Objects.{objects_from, objects_of};
ghost use Rattle.pfc_objects.specs.Cells.{known, object_in};

use crate::cells::object_cells;
use crate::numbers::numbers;
use pfc_base::Memory;
use pfc_code::Object;
use pfc_program::Program;
use pfc_store::main_variables;
use std::alloc::Global;

/// The objects of a program.
#[derive(Drop)]
pub struct Objects {
    /// The objects in main's variables, by their cells, from 0.
    pub list: Vec<Object>,
    /// How many semaphores there are.
    pub semaphores: u32,
    /// How many channels there are.
    pub channels: u32,
    /// The number of the monitor of each condition.
    pub conditions: Vec<u32>,
}

/// A cell by its number, from 0; one past 2^32 counts as want of memory.
fn cell_at(k: usize) -> Result<u32, Memory>
    ensures { IfOk result (λ cell. cell ≡ k) }
{
    match u32::try_from(k) {
        Ok(cell) => Ok(cell),
        Err(_) => Err(Memory),
    }
}

/// Adds the object in a cell, where there is one.
fn add_object(is_object: bool, cell: u32, number: u32, list: &mut Vec<Object>) -> Result<(), Memory>
    ensures { OnOk result (list.new.items ≡ list.old.items ++ object_in is_object cell number) }
{
    if is_object {
        list.push(Object { cell, number })?;
    }
    Ok(())
}

/// The objects in cells with these numbers, by their cells.
fn objects_in(alloc: Global, cells: &[bool], numbers: &[u32]) -> Result<Vec<Object>, Memory>
    ensures { IfOk result (λ list. list.items ≡ objects_from 0 cells.now numbers.now) }
{
    let mut list = Vec::new(alloc);
    for k in 0..cells.len().min(numbers.len()) {
        add_object(cells[k], cell_at(k)?, numbers[k], &mut list)?;
    }
    Ok(list)
}

/// The objects of a program, each numbered among those of its kind in the order of main's layout: processes from 1, the others from 0. Its
/// only refusal is want of memory; a cell or a number of more than 32 bits counts as that.
pub fn main_objects(alloc: Global, program: &Program) -> Result<Objects, Memory>
    ensures list { IfOk result (λ o. o.list.items ≡ objects_of (known program.now)) }
    ensures semaphores { IfOk result (λ o. o.semaphores ≡ (known program.now).objects.semaphores) }
    ensures channels { IfOk result (λ o. o.channels ≡ (known program.now).objects.channels) }
    ensures conditions { IfOk result (λ o. o.conditions.items ≡ (known program.now).objects.conditions) }
{
    let (types, scopes) = (program.tables.types, program.tables.scopes);
    let (values, counted) = main_variables(alloc, types, scopes)?;
    let cells = object_cells(alloc, types, &program.main.layout)?;
    let numbers = numbers(alloc, &values)?;
    let list = objects_in(alloc, &cells, &numbers)?;
    Ok(Objects {
        list,
        semaphores: counted.semaphores,
        channels: counted.channels,
        conditions: counted.conditions,
    })
}
