//! Meetings of main, which calls, with another process, which accepts: each of them first; and the call of a process that is not active.
ghost use Rattle.std.specs.Prelude.{◌≡◌, OnOk};
ghost use Rattle.pfc_machines_tests.specs.Samples.{meeting_pair, called_first, accepted_then, accepted_first, called_then};

use super::machines::{image_of, machine_of};
use super::pairs::pair_of;
use pfc_base::{Memory, RunFault};
use pfc_machines::Machine;
use pfc_meeting_actions::{accept, call_entry, end_accept};
use pfc_state::{State, Why};
use std::alloc::Global;
use std::test::Fail;

/// Main calls entry 0 of the other with 7.
#[tactic(auto, using(crate::proofs::Starts::new_with_two))]
fn call_first(machine: &mut Machine) -> Result<(), RunFault>
    requires { machine.old ≡ meeting_pair }
    ensures { OnOk result (machine.new ≡ called_first) }
{
    let main = machine.world.begin(0);
    call_entry(machine, main, 0, 1)?;
    machine.world.tick();
    Ok(())
}

/// The other accepts the call.
fn accept_then(machine: &mut Machine)
    requires { machine.old ≡ called_first }
    ensures { machine.new ≡ accepted_then }
{
    let other = machine.world.begin(1);
    accept(machine, other, 0, 0, 1);
    machine.world.tick();
}

/// The other waits for a call.
#[tactic(auto, using(crate::proofs::Starts::new_with_two))]
fn accept_first(machine: &mut Machine)
    requires { machine.old ≡ meeting_pair }
    ensures { machine.new ≡ accepted_first }
{
    let other = machine.world.begin(1);
    accept(machine, other, 0, 0, 1);
    machine.world.tick();
}

/// Main calls.
fn call_then(machine: &mut Machine) -> Result<(), RunFault>
    requires { machine.old ≡ accepted_first }
    ensures { OnOk result (machine.new ≡ called_then) }
{
    let main = machine.world.begin(0);
    call_entry(machine, main, 0, 1)?;
    machine.world.tick();
    Ok(())
}

/// The meeting ends, which began with the accept.
fn end_accepted(machine: &mut Machine)
    requires { machine.old ≡ accepted_then }
{
    let other = machine.world.begin(1);
    end_accept(machine, other);
}

/// The meeting ends, which began with the call.
fn end_called(machine: &mut Machine)
    requires { machine.old ≡ called_then }
{
    let other = machine.world.begin(1);
    end_accept(machine, other);
}

/// The addresses of main and the other, the top of each, and what they stand at.
type After = ([u32; 2], [i64; 2], (State, State));

fn state_of(machine: &Machine) -> Option<After> {
    if machine.world.processes() < 2 {
        return None;
    }
    Some((
        [machine.stacks.at(0), machine.stacks.at(1)],
        [machine.stacks.top(0, 0), machine.stacks.top(1, 0)],
        (machine.world.state(0), machine.world.state(1)),
    ))
}

/// Who is first.
#[derive(Clone, Copy)]
enum First {
    Caller,
    Acceptor,
}

/// What both stand at behind the first action, in the meeting, and behind it; None where a call was a fault.
fn meet(
    alloc: Global,
    first: First,
) -> Result<(Option<After>, Option<After>, Option<After>), Memory> {
    let image = image_of(alloc)?;
    let mut machine = pair_of(alloc, &image, 1, 7, 3, 4)?;
    match first {
        First::Caller => {
            if call_first(&mut machine).is_err() {
                return Ok((None, None, None));
            }
            let half = state_of(&machine);
            accept_then(&mut machine);
            let met = state_of(&machine);
            end_accepted(&mut machine);
            Ok((half, met, state_of(&machine)))
        }
        First::Acceptor => {
            accept_first(&mut machine);
            let half = state_of(&machine);
            if call_then(&mut machine).is_err() {
                return Ok((None, None, None));
            }
            let met = state_of(&machine);
            end_called(&mut machine);
            Ok((half, met, state_of(&machine)))
        }
    }
}

/// What both stand at in the meeting, and behind it.
const MET: Option<After> = Some((
    [5, 1],
    [50, 4],
    (State::Waiting(Why::Meeting(1)), State::Ready),
));

const PARTED: Option<After> = Some(([5, 2], [50, 4], (State::Ready, State::Ready)));

/// Who is first, and what is owed behind the first action.
static MEETINGS: [(First, Option<After>); 2] = [
    (
        First::Caller,
        Some((
            [5, 0],
            [7, 4],
            (
                State::Waiting(Why::Call { owner: 1, entry: 0 }),
                State::Ready,
            ),
        )),
    ),
    (
        First::Acceptor,
        Some((
            [4, 1],
            [7, 4],
            (State::Ready, State::Waiting(Why::Accept(0))),
        )),
    ),
];

#[test]
fn meetings_begin_and_end(rt: HostRuntime) -> Result<(), Fail> {
    for (at, (first, half)) in MEETINGS.iter().enumerate() {
        assert!(rt;
            meet(rt.alloc(), *first)? == (*half, MET, PARTED),
            "case {at}"
        );
    }
    Ok(())
}

/// What the call of a process that was never active answers, and what main stands at.
#[tactic(auto, using(crate::proofs::Starts::new_at_start))]
fn call_idle(alloc: Global) -> Result<(Result<(), RunFault>, Option<After>), Memory> {
    let image = image_of(alloc)?;
    let mut machine = machine_of(alloc, &image, 1, 7, None, b"", 7)?;
    let main = machine.world.begin(0);
    let answer = call_entry(&mut machine, main, 0, 1);
    Ok((answer, state_of(&machine)))
}

#[test]
fn calls_of_idle_processes_are_faults(rt: HostRuntime) -> Result<(), Fail> {
    let owed = Some(([2, 0], [7, 0], (State::Ready, State::Idle)));
    assert!(rt; call_idle(rt.alloc())? == (Err(RunFault::NotActive), owed));
    Ok(())
}
