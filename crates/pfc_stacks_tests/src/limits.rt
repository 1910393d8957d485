//! How deep calls go before a stack is full.
ghost use Rattle.std.specs.Prelude.{◌≡◌, ◌<◌, [], ◌∷◌, length};
ghost use Rattle.std.specs.List.{slice_get};
ghost use Rattle.pfc_stacks.specs.Activations.{params_of};
ghost use Rattle.pfc_stacks_tests.specs.Samples.{plain_block};

use super::images::two_blocks;
use pfc_base::Memory;
use pfc_code::Image;
use pfc_stacks::{CallFault, Mark, Stacks};
use std::alloc::Global;
use std::test::Fail;

/// More calls than any stack has place for.
const MANY: u32 = 40_000;

/// How often a process calls the sub before it is refused, and the refusal.
fn calls_until_full(image: &Image, stacks: &mut Stacks, p: u32) -> (u32, Option<CallFault>)
    requires block { 0 < length image.now.blocks.items }
    requires none { params_of (slice_get image.now.blocks.items 0) ≡ 0 }
{
    for n in 0..MANY {
        if p >= stacks.processes() {
            return (n, None);
        }
        if let Err(fault) = stacks.call(image, p, 0, Mark::Plain) {
            return (n, Some(fault));
        }
    }
    (MANY, None)
}

/// The same of a process that main creates at the sub.
fn calls_of_created(image: &Image, stacks: &mut Stacks) -> (u32, Option<CallFault>)
    requires block { 0 < length image.now.blocks.items }
    requires none { params_of (slice_get image.now.blocks.items 0) ≡ 0 }
{
    if stacks.processes() < 2 || stacks.at(0) > 1 {
        return (MANY, None);
    }
    match stacks.create(image, 1, 0, 0) {
        Ok(()) => calls_until_full(image, stacks, 1),
        Err(fault) => (0, Some(fault)),
    }
}

fn answer(alloc: Global, p: u32, sub: u32, main: u32) -> Result<(u32, Option<CallFault>), Memory> {
    let image = two_blocks(alloc, sub, main)?;
    let mut stacks = Stacks::start(alloc, &image)?;
    if p == 0 {
        Ok(calls_until_full(&image, &mut stacks, 0))
    } else {
        Ok(calls_of_created(&image, &mut stacks))
    }
}

/// The process, the cells of a sub and of main, and how many calls there is place for. Main has 262,144 cells, another
/// 16,384; each activation counts 8 more.
static DEPTHS: [(u32, u32, u32, u32); 13] = [
    (0, 56, 56, 4095),
    (0, 56, 57, 4094),
    (0, 56, 120, 4094),
    (0, 262_080, 48, 1),
    (0, 262_081, 48, 0),
    (0, 0, 0, 32_767),
    (1, 56, 56, 255),
    (1, 56, 65_536, 255),
    (1, 8184, 0, 1),
    (1, 8185, 0, 0),
    (1, 16_376, 0, 0),
    (1, 16_377, 0, 0),
    (1, 0, 0, 2047),
];

#[test]
fn calls_up_to_the_limit(rt: HostRuntime) -> Result<(), Fail> {
    for (at, (p, sub, main, owed)) in DEPTHS.iter().enumerate() {
        let full = (*owed, Some(CallFault::Stack));
        assert!(rt; answer(rt.alloc(), *p, *sub, *main)? == full, "case {at}");
    }
    Ok(())
}
