//! Instructions that go through static links, references and activations, each once.
ghost use Rattle.std.specs.Prelude.{◌≡◌, ◌<◌, Some, IfSome};
ghost use Rattle.pfc_stacks.specs.Conditions.{CanPerform};
ghost use Rattle.pfc_stacks_tests.specs.Samples.{sample_blocks, sample_stacks};

use super::images::image_of;
use super::states::sample_stacks;
use pfc_base::RunFault;
use pfc_code::Instr;
use pfc_stacks::{CallFault, Instructed, Mark, Stacks};
use pfc_state::Running;
use pfc_world::World;
use std::alloc::Global;
use std::test::Fail;

/// What became of an instruction.
#[derive(Clone, Copy, PartialEq, Eq)]
enum Seen {
    Quiet,
    Acted,
    Fault(RunFault),
    Outward(Instr),
    NoMemory,
}

/// What is seen, the next address, three operands from the top, and the block and the mark of the last activation.
type After = (Seen, u32, [i64; 3], u32, Mark);

fn rested(world: &mut World, r: Running, seen: Seen) -> Seen
    requires { world.old.acting ≡ Some r.number }
{
    world.rest(r);
    seen
}

fn state_of(stacks: &Stacks, seen: Seen) -> After {
    let tops = [stacks.top(0, 0), stacks.top(0, 1), stacks.top(0, 2)];
    let mark = if stacks.processes() > 0 {
        stacks.mark(0)
    } else {
        Mark::Plain
    };
    (seen, stacks.at(0), tops, stacks.block(0), mark)
}

/// What is seen of an instruction in the function, with two operands over 50 of which the last is the top, where static
/// links are counted from another process where one is given.
fn after(
    alloc: Global,
    instr: Instr,
    look: Option<u32>,
    a: i64,
    b: i64,
) -> Result<Option<After>, CallFault>
    requires other { IfSome look (λ q. q < 2) }
    requires condition { CanPerform sample_blocks instr 0 (sample_stacks look a b) }
{
    let image = image_of(alloc, instr)?;
    let Some(mut stacks) = sample_stacks(alloc, &image, look, a, b)? else {
        return Ok(None);
    };
    let mut world = World::with_processes(alloc, 2, 0, 1)?;
    let main = world.begin(0);
    let seen = match stacks.run_instr(&image, main) {
        Instructed::Quiet(r) => rested(&mut world, r, Seen::Quiet),
        Instructed::Acted(r) => rested(&mut world, r, Seen::Acted),
        Instructed::Fault { r, fault } => rested(&mut world, r, Seen::Fault(fault)),
        Instructed::Outward { r, instr } => rested(&mut world, r, Seen::Outward(instr)),
        Instructed::Memory(r) => rested(&mut world, r, Seen::NoMemory),
    };
    Ok(Some(state_of(&stacks, seen)))
}

/// The word of a cell of the other process.
const OTHER: i64 = 4_294_967_296;

/// Instructions that reach cells, from the last activation of main or of the other process.
fn reaching(alloc: Global, instr: Instr, look: Option<u32>) -> Result<Option<After>, CallFault> {
    match (instr, look) {
        (Instr::ADDR(0, _), None) => after(alloc, Instr::ADDR(0, 1), None, 3, 4),
        (Instr::ADDR(1, _), None) => after(alloc, Instr::ADDR(1, 0), None, 3, 4),
        (Instr::ADDR(_, _), None) => after(alloc, Instr::ADDR(2, 3), None, 3, 4),
        (Instr::ADDR(0, _), Some(_)) => after(alloc, Instr::ADDR(0, 1), Some(1), 3, 4),
        (Instr::ADDR(_, _), Some(_)) => after(alloc, Instr::ADDR(1, 0), Some(1), 3, 4),
        (Instr::REF(0, _), None) => after(alloc, Instr::REF(0, 0), None, 3, 4),
        (Instr::REF(_, _), None) => after(alloc, Instr::REF(1, 1), None, 3, 4),
        (Instr::REF(_, _), Some(_)) => after(alloc, Instr::REF(0, 0), Some(1), 3, 4),
        (Instr::OBJ, _) => after(alloc, Instr::OBJ, None, 3, 9),
        (Instr::LOAD(1), _) => after(alloc, Instr::LOAD(1), None, 3, OTHER + 8),
        (Instr::LOAD(_), _) => after(alloc, Instr::LOAD(2), None, 3, 20),
        _ => after(alloc, Instr::STORE(1), None, OTHER + 9, 4),
    }
}

/// Calls, returns, and what is left to others.
fn calling(alloc: Global, instr: Instr, look: Option<u32>) -> Result<Option<After>, CallFault> {
    match instr {
        Instr::CALL(0, _) => after(alloc, Instr::CALL(0, 1), None, 3, 4),
        Instr::CALL(_, _) => after(alloc, Instr::CALL(1, 2), None, 3, 4),
        Instr::RET => after(alloc, Instr::RET, None, 3, 4),
        Instr::RETF => after(alloc, Instr::RETF, None, 3, 4),
        Instr::MCALL(_, _) => after(alloc, Instr::MCALL(3, 1), None, 3, 4),
        Instr::NEW(_) => after(alloc, Instr::NEW(2), None, 3, 4),
        _ => reaching(alloc, instr, look),
    }
}

static INSTRUCTIONS: [(Instr, Option<u32>, After); 18] = [
    (
        Instr::ADDR(0, 1),
        None,
        (Seen::Quiet, 2, [32, 4, 3], 0, Mark::Plain),
    ),
    (
        Instr::ADDR(1, 0),
        None,
        (Seen::Quiet, 2, [20, 4, 3], 0, Mark::Plain),
    ),
    (
        Instr::ADDR(2, 3),
        None,
        (Seen::Quiet, 2, [11, 4, 3], 0, Mark::Plain),
    ),
    (
        Instr::ADDR(0, 1),
        Some(1),
        (Seen::Quiet, 2, [OTHER + 9, 4, 3], 0, Mark::Plain),
    ),
    (
        Instr::ADDR(1, 0),
        Some(1),
        (Seen::Quiet, 2, [8, 4, 3], 0, Mark::Plain),
    ),
    (
        Instr::REF(0, 0),
        None,
        (Seen::Quiet, 2, [10, 4, 3], 0, Mark::Plain),
    ),
    (
        Instr::REF(1, 1),
        None,
        (Seen::Quiet, 2, [8, 4, 3], 0, Mark::Plain),
    ),
    (
        Instr::REF(0, 0),
        Some(1),
        (Seen::Quiet, 2, [77, 4, 3], 0, Mark::Plain),
    ),
    (
        Instr::OBJ,
        None,
        (Seen::Quiet, 2, [5, 3, 50], 0, Mark::Plain),
    ),
    (
        Instr::LOAD(1),
        None,
        (Seen::Acted, 2, [77, 3, 50], 0, Mark::Plain),
    ),
    (
        Instr::LOAD(2),
        None,
        (Seen::Acted, 2, [8, 7, 3], 0, Mark::Plain),
    ),
    (
        Instr::STORE(1),
        None,
        (Seen::Acted, 2, [50, 0, 0], 0, Mark::Plain),
    ),
    (
        Instr::CALL(0, 1),
        None,
        (Seen::Acted, 20, [3, 50, 0], 0, Mark::Plain),
    ),
    (
        Instr::CALL(1, 2),
        None,
        (Seen::Acted, 10, [50, 0, 0], 1, Mark::Plain),
    ),
    (
        Instr::RET,
        None,
        (Seen::Acted, 1, [4, 3, 50], 1, Mark::Monitor(3)),
    ),
    (
        Instr::RETF,
        None,
        (Seen::Acted, 1, [99, 4, 3], 1, Mark::Monitor(3)),
    ),
    (
        Instr::MCALL(3, 1),
        None,
        (
            Seen::Outward(Instr::MCALL(3, 1)),
            1,
            [4, 3, 50],
            0,
            Mark::Plain,
        ),
    ),
    (
        Instr::NEW(2),
        None,
        (Seen::Outward(Instr::NEW(2)), 1, [4, 3, 50], 0, Mark::Plain),
    ),
];

#[test]
fn each_instruction(rt: HostRuntime) -> Result<(), Fail> {
    for (at, (instr, look, owed)) in INSTRUCTIONS.iter().enumerate() {
        assert!(rt;
            calling(rt.alloc(), *instr, *look)? == Some(*owed),
            "case {at}"
        );
    }
    Ok(())
}
