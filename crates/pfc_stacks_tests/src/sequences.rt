//! Calls one after the other: what takes the place of an activation, ends, and marks.
ghost use Rattle.std.specs.Prelude.{◌≡◌, ◌≤◌, ◌<◌, length};
ghost use Rattle.std.specs.List.{slice_get};
ghost use Rattle.pfc_stacks.specs.Activations.{params_of};
ghost use Rattle.pfc_stacks.specs.Stacks.{operands_of};

use super::images::image_of;
use super::states::sample_stacks;
use pfc_code::{Image, Instr};
use pfc_stacks::{CallFault, Mark, Stacks};
use std::alloc::Global;
use std::test::Fail;

/// The next address of main, two operands from the top, the block and the mark of its last activation, and whether it has
/// an activation that was entered through monitor 3, and through monitor 2.
type State = (u32, [i64; 2], u32, Option<Mark>, [bool; 2]);

fn state_of(stacks: &Stacks) -> State {
    let tops = [stacks.top(0, 0), stacks.top(0, 1)];
    if stacks.processes() == 0 {
        return (0, tops, 0, None, [false, false]);
    }
    let marked = [stacks.marked(0, 3), stacks.marked(0, 2)];
    (
        stacks.at(0),
        tops,
        stacks.block(0),
        Some(stacks.mark(0)),
        marked,
    )
}

/// After the last activation of main has ended.
fn ended(stacks: &mut Stacks) -> State {
    if stacks.processes() > 0 {
        stacks.end_call(0);
    }
    state_of(stacks)
}

/// After a block took the place of the last activation's, and after each of the two next ends.
fn replaced(image: &Image, stacks: &mut Stacks, block: u32) -> Result<[State; 3], CallFault>
    requires process { 0 < length stacks.old }
    requires block { block < length image.now.blocks.items }
    requires arguments { params_of (slice_get image.now.blocks.items block) ≤ length (operands_of stacks.old 0) }
{
    stacks.replace(image, 0, block)?;
    Ok([state_of(stacks), ended(stacks), ended(stacks)])
}

/// The same in the function, with the operands 3 and 4 over 50: by the guarded procedure, or by the procedure, which takes
/// both.
fn replaced_by(alloc: Global, is_guarded: bool) -> Result<Option<[State; 3]>, CallFault> {
    let image = image_of(alloc, Instr::END)?;
    let Some(mut stacks) = sample_stacks(alloc, &image, None, 3, 4)? else {
        return Ok(None);
    };
    let states = if is_guarded {
        replaced(&image, &mut stacks, 3)?
    } else {
        replaced(&image, &mut stacks, 1)?
    };
    Ok(Some(states))
}

const IN_PROCEDURE: State = (1, [50, 0], 1, Some(Mark::Monitor(3)), [true, false]);

const IN_MAIN: State = (1, [50, 0], 4, Some(Mark::Plain), [false, false]);

#[test]
fn a_block_in_place_of_another(rt: HostRuntime) -> Result<(), Fail> {
    let by_guarded = (40, [50, 0], 3, Some(Mark::Plain), [true, false]);
    let by_procedure = (10, [50, 0], 1, Some(Mark::Plain), [true, false]);
    assert!(rt; replaced_by(rt.alloc(), true)? == Some([by_guarded, IN_PROCEDURE, IN_MAIN]));
    assert!(rt; replaced_by(rt.alloc(), false)? == Some([by_procedure, IN_PROCEDURE, IN_MAIN]));
    Ok(())
}

/// The address and the block of the other process, its operands, and the same of main.
fn created(alloc: Global) -> Result<Option<[[i64; 3]; 2]>, CallFault> {
    let image = image_of(alloc, Instr::END)?;
    let Some(stacks) = sample_stacks(alloc, &image, None, 3, 4)? else {
        return Ok(None);
    };
    let other = [
        i64::from(stacks.at(1)),
        i64::from(stacks.block(1)),
        stacks.top(1, 0),
    ];
    let main = [
        i64::from(stacks.at(0)),
        i64::from(stacks.block(0)),
        stacks.top(0, 2),
    ];
    Ok(Some([other, main]))
}

#[test]
fn a_created_process(rt: HostRuntime) -> Result<(), Fail> {
    assert!(rt; created(rt.alloc())? == Some([[30, 2, 0], [1, 0, 50]]));
    Ok(())
}
