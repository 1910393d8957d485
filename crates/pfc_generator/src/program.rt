//! The image of a program.
ghost use Rattle.std.specs.Prelude.{◌≡◌, ◌++◌, [], ◌∷◌, ◌<◌, ◌≤◌, false, length, IfOk, IfErr};
ghost use Rattle.pfc_code.specs.Images.{plain_image};
ghost use Rattle.pfc_tree.specs.views.Parts.{tree_view};
ghost use Rattle.pfc_semantics.specs.Objects.{of_kind};
ghost use Rattle.pfc_translation.specs.Images.{image_of, image_over};
ghost use Rattle.pfc_addresses.specs.Sites.{whole_view};
ghost use Rattle.pfc_blocks.specs.Making.{IsOf, main_made};
ghost use Rattle.pfc_generator.specs.Whole.{blocks_in, placings_view};
ghost use Rattle.pfc_generator.specs.declared.faults.GenFault.TheVariants.{TooLarge};

use crate::GenFault;
use crate::coded::{Coded, put_all};
use crate::pieces::pieces;
use pfc_addresses::Addresses;
use pfc_base::{Memory, Token};
use pfc_blocks::{Called, Placed, block, main_block};
use pfc_code::{Block, Image, Instr};
use pfc_code_size::{CountFault, count_instructions};
use pfc_labels::processes;
use pfc_objects::main_objects;
use pfc_program::{Lookups, Program};
use pfc_tree::Tree;
use pfc_types::{Checked, Scopes};
use std::alloc::Global;

/// The image of a checked tree, which was read from these tokens. It is refused with `TooLarge` only where it has more than 200,000
/// instructions, and with `Memory` for want of memory, or for a number of more than 32 bits. A name that the tokens do not hold, which never
/// comes, counts as that.
pub fn generate(alloc: Global, checked: &Checked, tokens: &[Token]) -> Result<Image, GenFault>
    ensures image { IfOk result (λ image. plain_image image ≡ image_of (tree_view checked.now.0)) }
    ensures fits { IfOk result (λ image. length image.code.items ≤ 200000) }
    ensures large { IfErr result (λ fault. fault ≡ TooLarge → 200000 < length (image_of (tree_view checked.now.0)).code) }
{
    match made(alloc, checked, tokens) {
        Ok(image) => Ok(image),
        Err(GenFault::TooLarge) => Err(refusal(alloc, checked)),
        Err(GenFault::Memory) => Err(GenFault::Memory),
    }
}

/// Why there is no image where code is full: the number of its instructions tells.
fn refusal(alloc: Global, checked: &Checked) -> GenFault
    ensures { result ≡ TooLarge → 200000 < length (image_of (tree_view checked.now.0)).code }
{
    match count_instructions(alloc, checked) {
        Err(CountFault::TooLarge) => GenFault::TooLarge,
        Err(CountFault::Memory) => GenFault::Memory,
        Ok(_) => GenFault::Memory,
    }
}

/// The image of a checked tree.
fn made(alloc: Global, checked: &Checked, tokens: &[Token]) -> Result<Image, GenFault>
    ensures image { IfOk result (λ image. plain_image image ≡ image_of (tree_view checked.now.0)) }
    ensures fits { IfOk result (λ image. length image.code.items ≤ 200000) }
{
    let program = Program::new(alloc, checked)?;
    image(alloc, checked.tree(), &program, tokens)
}

/// The image of a tree, of whose program this is known.
fn image(alloc: Global, tree: &Tree, program: &Program, tokens: &[Token]) -> Result<Image, GenFault>
    requires { IsOf program.now tree.now }
    ensures image { IfOk result (λ image. plain_image image ≡ image_over (whole_view program.now) (tree_view tree.now)) }
    ensures fits { IfOk result (λ image. length image.code.items ≤ 200000) }
{
    let addresses = Addresses::new(alloc, program)?;
    let pieces = pieces(alloc, tree, program)?;
    let lookups = Lookups::new(alloc, program.tables.scopes)?;
    let coded = put_all(alloc, &addresses, &lookups, &pieces)?;
    let blocks = blocks(alloc, tree, program, &coded)?;
    let objects = main_objects(alloc, program)?;
    let processes = processes(alloc, program, &tree.name.0, tokens)?;
    Ok(Image {
        code: coded.code,
        lines: coded.lines,
        blocks,
        processes,
        objects: objects.list,
        texts: coded.texts,
        semaphores: objects.semaphores,
        channels: objects.channels,
        conditions: objects.conditions,
        monitors: monitors(program.tables.scopes),
        scans: coded.scans,
        arms: coded.arms,
    })
}

/// The blocks, in the order of their `begin`, and main's behind them.
fn blocks(
    alloc: Global,
    tree: &Tree,
    program: &Program,
    coded: &Coded,
) -> Result<Vec<Block>, Memory>
    requires is_of { IsOf program.now tree.now }
    requires few { length coded.now.code.items ≤ 200000 }
    ensures { IfOk result (λ bs. bs.items
        ≡ blocks_in (whole_view program.now) coded.now.code.items (placings_view program.now.tables coded.now.placed.items)
        ++ main_made (whole_view program.now) tree.now.name.0 coded.now.main coded.now.code.items ∷ []) }
{
    let called = Called::new(alloc, program, tree)?;
    let mut all = placed_blocks(alloc, &called, &coded.placed, &coded.code)?;
    let main = main_block(alloc, &called, &tree.name.0, coded.main, &coded.code)?;
    all.push(main)?;
    Ok(all)
}

/// The blocks of bodies that stand in this code.
fn placed_blocks(
    alloc: Global,
    called: &Called,
    placed: &[Placed],
    code: &[Instr],
) -> Result<Vec<Block>, Memory>
    requires is_of { IsOf called.now.program.now called.now.tree.now }
    requires few { length code.now ≤ 200000 }
    ensures { IfOk result (λ bs. bs.items ≡ blocks_in (whole_view called.now.program.now) code.now (placings_view called.now.program.now.tables placed.now)) }
{
    let mut all = Vec::new(alloc);
    for p in placed {
        all.push(block(alloc, called, *p, code)?)?;
    }
    Ok(all)
}

/// How many monitors there are.
fn monitors(scopes: &Scopes) -> u32
    ensures { result ≡ of_kind false scopes.now.modules }
{
    let mut count = 0;
    for n in 0..scopes.modules() {
        if !scopes.module(n).resource {
            count += 1;
        }
    }
    count
}
