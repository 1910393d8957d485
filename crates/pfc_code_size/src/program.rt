//! The instructions of a whole program.
ghost use Rattle.std.specs.Prelude.{◌≡◌, ◌+◌, ◌<◌, ◌≤◌, length, IfOk, IfErr};
ghost use Rattle.pfc_tree.specs.views.Parts.{tree_view};
ghost use Rattle.pfc_translation.specs.Images.{image_of};
ghost use Rattle.pfc_program.specs.Views.{block_view, blocks_view, guard_view};
ghost use Rattle.pfc_code_size.specs.Programs as sizes;
ghost use Rattle.pfc_code_size.specs.declared.adding.CountFault.TheVariants.{TooLarge};

use crate::CountFault;
use crate::adding::{more, one};
use crate::phrases::{Phrase, within};
use pfc_program::{Block, Guard, Program, Tables};
use pfc_types::Checked;
use std::alloc::Global;

/// How many instructions the image of a checked tree has, at most 200,000. It is refused with `TooLarge` only where there are more, and with
/// `Memory` for want of memory, or for a number of more than 32 bits.
pub fn count_instructions(alloc: Global, checked: &Checked) -> Result<u32, CountFault>
    ensures value { IfOk result (λ n. n ≡ length (image_of (tree_view checked.now.0)).code) }
    ensures fits { IfOk result (λ n. n ≤ 200000) }
    ensures large { IfErr result (λ f. f ≡ TooLarge → 200000 < length (image_of (tree_view checked.now.0)).code) }
{
    let program = Program::new(alloc, checked)?;
    whole(&program)
}

/// The instructions of a program: of all its bodies.
fn whole(program: &Program) -> Result<u32, CountFault>
    ensures value { IfOk result (λ total. total ≡ sizes.known_size program.now) }
    ensures fits { IfOk result (λ total. total ≤ 200000) }
    ensures large { IfErr result (λ f. f ≡ TooLarge → 200000 < sizes.known_size program.now) }
{
    match before_main(program) {
        Ok(outer) => main_code(program, outer),
        Err(fault) => Err(fault),
    }
}

/// With main's code: the initialising bodies, and the main body.
fn main_code(program: &Program, count: u32) -> Result<u32, CountFault>
    ensures value { IfOk result
        (λ total. total ≡ count + (sizes.initials_size program.now.tables.scopes.now (blocks_view program.now.tables program.now.modules.items) +
        sizes.body_size program.now.tables.scopes.now (block_view program.now.tables program.now.main))) }
    ensures fits { IfOk result (λ total. total ≤ 200000) }
    ensures large { IfErr result (λ f. f ≡ TooLarge →
        200000 < count + (sizes.initials_size program.now.tables.scopes.now (blocks_view program.now.tables program.now.modules.items) +
        sizes.body_size program.now.tables.scopes.now (block_view program.now.tables program.now.main))) }
{
    match initials(&program.modules, program.tables, count) {
        Ok(inner) => body(&program.main, program.tables, inner),
        Err(fault) => Err(fault),
    }
}

/// Those that stand before main's code: the bodies, and the `SCAN` of each resource.
fn before_main(program: &Program) -> Result<u32, CountFault>
    ensures value { IfOk result (λ total. total ≡ sizes.bodies_size program.now.tables.scopes.now (blocks_view program.now.tables program.now.blocks.items) +
        length program.now.resource_ends.items) }
    ensures large { IfErr result (λ f. f ≡ TooLarge →
        200000 < sizes.bodies_size program.now.tables.scopes.now (blocks_view program.now.tables program.now.blocks.items) +
        length program.now.resource_ends.items) }
{
    let outer = bodies(&program.blocks, program.tables, 0)?;
    Ok(more(outer, program.resource_ends.len() as u64)?)
}

/// With bodies of subs, guarded procedures and processes.
fn bodies(blocks: &[Block], tables: Tables, count: u32) -> Result<u32, CountFault>
    ensures value { IfOk result (λ total. total ≡ count + sizes.bodies_size tables.entry.scopes.now (blocks_view tables.entry blocks.now)) }
    ensures large { IfErr result (λ f. f ≡ TooLarge → 200000 < count + sizes.bodies_size tables.entry.scopes.now (blocks_view tables.entry blocks.now)) }
{
    let mut n = count;
    for b in blocks {
        n = body(b, tables, n)?;
    }
    Ok(n)
}

/// With initialising bodies.
fn initials(blocks: &[Block], tables: Tables, count: u32) -> Result<u32, CountFault>
    ensures value { IfOk result (λ total. total ≡ count + sizes.initials_size tables.entry.scopes.now (blocks_view tables.entry blocks.now)) }
    ensures large { IfErr result (λ f. f ≡ TooLarge → 200000 < count + sizes.initials_size tables.entry.scopes.now (blocks_view tables.entry blocks.now)) }
{
    let mut n = count;
    for b in blocks {
        n = statements(b, tables, n)?;
    }
    Ok(n)
}

/// With a body, its guard before it and its end behind it.
fn body(b: &Block, tables: Tables, count: u32) -> Result<u32, CountFault>
    ensures value { IfOk result (λ total. total ≡ count + sizes.body_size tables.entry.scopes.now (block_view tables.entry b.now)) }
    ensures fits { IfOk result (λ total. total ≤ 200000) }
    ensures large { IfErr result (λ f. f ≡ TooLarge → 200000 < count + sizes.body_size tables.entry.scopes.now (block_view tables.entry b.now)) }
{
    let opened = guard(&b.guard, tables, count)?;
    Ok(one(statements(b, tables, opened)?)?)
}

/// With a guard and `GRD`.
fn guard(guard: &Option<Guard>, tables: Tables, count: u32) -> Result<u32, CountFault>
    ensures value { IfOk result (λ total. total ≡ count + sizes.guard_size tables.entry.scopes.now (guard_view tables.entry guard.now)) }
    ensures large { IfErr result (λ f. f ≡ TooLarge → 200000 < count + sizes.guard_size tables.entry.scopes.now (guard_view tables.entry guard.now)) }
{
    match guard {
        None => Ok(count),
        Some(g) => {
            let (levels, around) = (g.names.levels(), g.names.around());
            let tested = within(levels, None, around, tables, Phrase::Test(g.test), count)?;
            Ok(one(tested)?)
        }
    }
}

/// With the statements of a body.
fn statements(b: &Block, tables: Tables, count: u32) -> Result<u32, CountFault>
    ensures value { IfOk result (λ total. total ≡ count + sizes.statements_size tables.entry.scopes.now (block_view tables.entry b.now)) }
    ensures large { IfErr result (λ f. f ≡ TooLarge → 200000 < count + sizes.statements_size tables.entry.scopes.now (block_view tables.entry b.now)) }
{
    let (levels, around) = (b.names.levels(), b.names.around());
    within(
        levels,
        None,
        around,
        tables,
        Phrase::Statements(b.next, b.stmts),
        count,
    )
}
