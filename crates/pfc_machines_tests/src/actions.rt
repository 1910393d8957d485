//! Actions that touch no object: input, output, draws, time, creations and ends.
ghost use Rattle.std.specs.Prelude.{◌≤◌, ◌<◌, ◌*◌, ◌^◌, length};
ghost use Rattle.pfc_stacks.specs.Stacks.{stack_of, operands_of};
ghost use Rattle.pfc_world.specs.Tickets.{IsNew};
ghost use Rattle.pfc_machines.specs.Actions.{Acts};

use super::machines::{image_of, machine_of};
use pfc_base::{Memory, RunFault};
use pfc_machines::{ActionFault, Machine};
use pfc_own_actions::{
    ask_clock, ask_end, ask_line_end, create, draw, finish, join, read, skip, sleep,
    write_line_end, write_text, write_value,
};
use pfc_state::{Running, State, Why};
use pfc_values::{Output, Simple};
use std::alloc::Global;
use std::test::Fail;

/// What main does.
#[derive(Clone, Copy)]
enum Act {
    Read(Simple),
    Skip,
    AskEnd,
    AskLineEnd,
    Value(Simple, u32),
    Text(u32),
    LineEnd,
    Sleep,
    Clock,
    Draw,
    Join,
    Finish,
    /// a block, by its number, and a process
    Create(u32, u32),
}

/// What an action answers, the next address of main, two operands of it from the top, what main and the other stand at, whether the
/// input is at an end and at the end of a line, and whether the output ends inside a line.
type After = (
    Result<(), ActionFault>,
    u32,
    [i64; 2],
    (State, State),
    [bool; 3],
);

/// Performs an action of main that needs no more than an operand and room for another.
fn perform(machine: &mut Machine, r: Running, act: Act, out: &mut Output) -> Result<(), ActionFault>
    requires acts { Acts r.number machine.old }
    requires some { 1 ≤ length (operands_of machine.old.stacks r.number) }
    requires room { length (operands_of machine.old.stacks r.number) < (stack_of machine.old.stacks r.number).room }
    requires fresh { IsNew machine.old.world.rows machine.old.world.done }
    requires moment { machine.old.world.moment < 2 * 10 ^ 18 }
{
    match act {
        Act::Skip => skip(machine, r)?,
        Act::AskEnd => ask_end(machine, r),
        Act::AskLineEnd => ask_line_end(machine, r),
        Act::Value(t, w) => write_value(machine, r, t, w, out)?,
        Act::Text(w) => write_text(machine, r, b"ab", w, out)?,
        Act::LineEnd => write_line_end(machine, r, out)?,
        Act::Sleep => sleep(machine, r)?,
        Act::Clock => ask_clock(machine, r)?,
        Act::Draw => draw(machine, r)?,
        Act::Join => join(machine, r),
        _ => finish(machine, r),
    }
    Ok(())
}

fn state_of(machine: &Machine, answer: Result<(), ActionFault>) -> After {
    let tops = [machine.stacks.top(0, 0), machine.stacks.top(0, 1)];
    let stands = if machine.world.processes() > 1 {
        (machine.world.state(0), machine.world.state(1))
    } else {
        (State::Idle, State::Idle)
    };
    let ends = [
        machine.input.is_at_end(),
        machine.input.is_at_line_end(),
        machine.in_line,
    ];
    (answer, machine.stacks.at(0), tops, stands, ends)
}

/// What is left where main acts with 3 and a top over 50, over an input; and what was printed.
#[tactic(auto, using(crate::proofs::Starts::new_at_start))]
fn after(alloc: Global, act: Act, top: i64, input: &[u8]) -> Result<(After, Output), Memory> {
    let image = image_of(alloc)?;
    let mut machine = machine_of(alloc, &image, 3, top, None, input, 7)?;
    let mut out = Output::new(alloc);
    let main = machine.world.begin(0);
    let answer = perform(&mut machine, main, act, &mut out);
    Ok((state_of(&machine, answer), out))
}

/// The same of a read into a cell of main, whose address is on top.
fn after_read(alloc: Global, t: Simple, input: &[u8]) -> Result<(After, Output), Memory> {
    let image = image_of(alloc)?;
    let mut machine = machine_of(alloc, &image, 3, 9, None, input, 7)?;
    let main = machine.world.begin(0);
    let answer = match read(&mut machine, main, t) {
        Ok(()) => Ok(()),
        Err(fault) => Err(ActionFault::Fault(fault)),
    };
    Ok((state_of(&machine, answer), Output::new(alloc)))
}

/// What is left where main creates itself at the first block, with 42.
fn main_at_first(alloc: Global) -> Result<After, Memory> {
    let image = image_of(alloc)?;
    let mut machine = machine_of(alloc, &image, 0, 42, None, b"", 7)?;
    let main = machine.world.begin(0);
    let answer = create(&mut machine, &image, main, 0);
    Ok(state_of(&machine, answer))
}

/// The same of the other process.
fn other_at_first(alloc: Global) -> Result<After, Memory> {
    let image = image_of(alloc)?;
    let mut machine = machine_of(alloc, &image, 1, 42, None, b"", 7)?;
    let main = machine.world.begin(0);
    let answer = create(&mut machine, &image, main, 0);
    Ok(state_of(&machine, answer))
}

/// The same of main at the second block.
fn main_at_second(alloc: Global) -> Result<After, Memory> {
    let image = image_of(alloc)?;
    let mut machine = machine_of(alloc, &image, 0, 42, None, b"", 7)?;
    let main = machine.world.begin(0);
    let answer = create(&mut machine, &image, main, 1);
    Ok(state_of(&machine, answer))
}

/// The same of the other process.
fn other_at_second(alloc: Global) -> Result<After, Memory> {
    let image = image_of(alloc)?;
    let mut machine = machine_of(alloc, &image, 1, 42, None, b"", 7)?;
    let main = machine.world.begin(0);
    let answer = create(&mut machine, &image, main, 1);
    Ok(state_of(&machine, answer))
}

/// The same by the number of the block, and of the process.
fn after_create(alloc: Global, k: u32, q: u32) -> Result<(After, Output), Memory> {
    let left = match (k, q) {
        (0, 0) => main_at_first(alloc)?,
        (0, _) => other_at_first(alloc)?,
        (_, 0) => main_at_second(alloc)?,
        (_, _) => other_at_second(alloc)?,
    };
    Ok((left, Output::new(alloc)))
}

fn answer(alloc: Global, act: Act, top: i64, input: &[u8]) -> Result<(After, Output), Memory> {
    match act {
        Act::Read(t) => after_read(alloc, t, input),
        Act::Create(k, q) => after_create(alloc, k, q),
        _ => after(alloc, act, top, input),
    }
}

/// The action, the top over 3 and 50, the input, and what is owed.
type Case = (Act, i64, &'static str, After, &'static str);

/// Main is ready, and the other idle.
const READY: (State, State) = (State::Ready, State::Idle);

const DONE: Result<(), ActionFault> = Ok(());

const OVERFLOW: Result<(), ActionFault> = Err(ActionFault::Fault(RunFault::Overflow));

const FULL: Result<(), ActionFault> = Err(ActionFault::Fault(RunFault::Stack));

const INPUT_END: Result<(), ActionFault> = Err(ActionFault::Fault(RunFault::InputEnd));

const NO_INTEGER: Result<(), ActionFault> = Err(ActionFault::Fault(RunFault::NoInteger));

const ACTIVE: Result<(), ActionFault> = Err(ActionFault::Fault(RunFault::Active));

const BELOW: Result<(), ActionFault> = Err(ActionFault::Fault(RunFault::Below));

const LATE: Result<(), ActionFault> = Err(ActionFault::Fault(RunFault::Late));

const WIDTH: Result<(), ActionFault> = Err(ActionFault::Fault(RunFault::Width));

static INPUT: [Case; 13] = [
    (
        Act::Read(Simple::Integer),
        4,
        "12",
        (DONE, 3, [3, 50], READY, [true, true, false]),
        "",
    ),
    (
        Act::Read(Simple::Integer),
        4,
        " -5\n6",
        (DONE, 3, [3, 50], READY, [false, true, false]),
        "",
    ),
    (
        Act::Read(Simple::Integer),
        4,
        " \n",
        (INPUT_END, 2, [9, 3], READY, [false, false, false]),
        "",
    ),
    (
        Act::Read(Simple::Integer),
        4,
        "x",
        (NO_INTEGER, 2, [9, 3], READY, [false, false, false]),
        "",
    ),
    (
        Act::Read(Simple::Integer),
        4,
        "2147483648",
        (OVERFLOW, 2, [9, 3], READY, [false, false, false]),
        "",
    ),
    (
        Act::Read(Simple::Char),
        4,
        "x",
        (DONE, 3, [3, 50], READY, [true, true, false]),
        "",
    ),
    (
        Act::Read(Simple::Char),
        4,
        "",
        (INPUT_END, 2, [9, 3], READY, [true, true, false]),
        "",
    ),
    (
        Act::Skip,
        4,
        "ab\nc",
        (DONE, 3, [4, 3], READY, [false, false, false]),
        "",
    ),
    (
        Act::Skip,
        4,
        "",
        (INPUT_END, 2, [4, 3], READY, [true, true, false]),
        "",
    ),
    (
        Act::AskEnd,
        4,
        "",
        (DONE, 3, [1, 4], READY, [true, true, false]),
        "",
    ),
    (
        Act::AskEnd,
        4,
        "\n",
        (DONE, 3, [0, 4], READY, [false, true, false]),
        "",
    ),
    (
        Act::AskLineEnd,
        4,
        "\n",
        (DONE, 3, [1, 4], READY, [false, true, false]),
        "",
    ),
    (
        Act::AskLineEnd,
        4,
        "a",
        (DONE, 3, [0, 4], READY, [false, false, false]),
        "",
    ),
];

static OUTPUT: [Case; 12] = [
    (
        Act::Value(Simple::Integer, 0),
        -4,
        "",
        (DONE, 3, [3, 50], READY, [true, true, true]),
        "-4",
    ),
    (
        Act::Value(Simple::Integer, 1),
        4,
        "",
        (DONE, 3, [50, 0], READY, [true, true, true]),
        "   3",
    ),
    (
        Act::Value(Simple::Integer, 1),
        0,
        "",
        (DONE, 3, [50, 0], READY, [true, true, true]),
        "3",
    ),
    (
        Act::Value(Simple::Integer, 1),
        256,
        "",
        (WIDTH, 2, [256, 3], READY, [true, true, false]),
        "",
    ),
    (
        Act::Value(Simple::Integer, 1),
        -1,
        "",
        (WIDTH, 2, [-1, 3], READY, [true, true, false]),
        "",
    ),
    (
        Act::Value(Simple::Boolean, 0),
        1,
        "",
        (DONE, 3, [3, 50], READY, [true, true, true]),
        "true",
    ),
    (
        Act::Value(Simple::Char, 0),
        65,
        "",
        (DONE, 3, [3, 50], READY, [true, true, true]),
        "A",
    ),
    (
        Act::Value(Simple::Char, 0),
        10,
        "",
        (DONE, 3, [3, 50], READY, [true, true, false]),
        "\n",
    ),
    (
        Act::Text(0),
        4,
        "",
        (DONE, 3, [4, 3], READY, [true, true, true]),
        "ab",
    ),
    (
        Act::Text(1),
        4,
        "",
        (DONE, 3, [3, 50], READY, [true, true, true]),
        "  ab",
    ),
    (
        Act::Text(1),
        256,
        "",
        (WIDTH, 2, [256, 3], READY, [true, true, false]),
        "",
    ),
    (
        Act::LineEnd,
        4,
        "",
        (DONE, 3, [4, 3], READY, [true, true, false]),
        "\n",
    ),
];

static OTHERS: [Case; 14] = [
    (
        Act::Sleep,
        0,
        "",
        (DONE, 3, [3, 50], READY, [true, true, false]),
        "",
    ),
    (
        Act::Sleep,
        2,
        "",
        (
            DONE,
            3,
            [3, 50],
            (State::Waiting(Why::Sleep(2000)), State::Idle),
            [true, true, false],
        ),
        "",
    ),
    (
        Act::Sleep,
        1_000_000_000_000,
        "",
        (
            DONE,
            3,
            [3, 50],
            (
                State::Waiting(Why::Sleep(1_000_000_000_000_000)),
                State::Idle,
            ),
            [true, true, false],
        ),
        "",
    ),
    (
        Act::Sleep,
        1_000_000_000_001,
        "",
        (LATE, 2, [1_000_000_000_001, 3], READY, [true, true, false]),
        "",
    ),
    (
        Act::Sleep,
        -1,
        "",
        (BELOW, 2, [-1, 3], READY, [true, true, false]),
        "",
    ),
    (
        Act::Clock,
        4,
        "",
        (DONE, 3, [0, 4], READY, [true, true, false]),
        "",
    ),
    (
        Act::Draw,
        0,
        "",
        (DONE, 3, [0, 3], READY, [true, true, false]),
        "",
    ),
    (
        Act::Draw,
        -1,
        "",
        (BELOW, 2, [-1, 3], READY, [true, true, false]),
        "",
    ),
    (
        Act::Join,
        4,
        "",
        (DONE, 3, [4, 3], READY, [true, true, false]),
        "",
    ),
    (
        Act::Finish,
        4,
        "",
        (
            DONE,
            2,
            [4, 3],
            (State::Done, State::Idle),
            [true, true, false],
        ),
        "",
    ),
    (
        Act::Create(0, 1),
        4,
        "",
        (
            DONE,
            3,
            [50, 0],
            (State::Ready, State::Created),
            [true, true, false],
        ),
        "",
    ),
    (
        Act::Create(0, 0),
        4,
        "",
        (ACTIVE, 2, [42, 0], READY, [true, true, false]),
        "",
    ),
    (
        Act::Create(1, 0),
        4,
        "",
        (ACTIVE, 2, [42, 0], READY, [true, true, false]),
        "",
    ),
    (
        Act::Create(1, 1),
        4,
        "",
        (FULL, 2, [42, 1], READY, [true, true, false]),
        "",
    ),
];

/// The first case that is answered otherwise.
fn first_wrong(alloc: Global, cases: &[Case]) -> Result<Option<usize>, Memory> {
    for (at, (act, top, input, owed, printed)) in cases.iter().enumerate() {
        let (left, out) = answer(alloc, *act, *top, input.as_bytes())?;
        if left != *owed || out.bytes() != printed.as_bytes() {
            return Ok(Some(at));
        }
    }
    Ok(None)
}

#[test]
fn input(rt: HostRuntime) -> Result<(), Fail> {
    assert!(rt; first_wrong(rt.alloc(), &INPUT)? == None);
    Ok(())
}

#[test]
fn output(rt: HostRuntime) -> Result<(), Fail> {
    assert!(rt; first_wrong(rt.alloc(), &OUTPUT)? == None);
    Ok(())
}

#[test]
fn others(rt: HostRuntime) -> Result<(), Fail> {
    assert!(rt; first_wrong(rt.alloc(), &OTHERS)? == None);
    Ok(())
}
