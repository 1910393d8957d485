//! Selects of main, beside another process that sends.
ghost use Rattle.std.specs.Prelude.{◌≡◌, OnOk};
ghost use Rattle.pfc_machines_tests.specs.Samples.{select_pair, two_open, waiting_select, sender_waits};

use super::machines::image_of;
use super::pairs::pair_of;
use pfc_base::{Memory, RunFault};
use pfc_machines::{Machine, Offer};
use pfc_message_actions::send;
use pfc_select_actions::decide;
use pfc_state::{State, Why};
use std::alloc::Global;
use std::test::Fail;

/// Main makes a `timeout 2` and an alternative that receives.
fn open_two(machine: &mut Machine)
    requires { machine.old ≡ select_pair }
    ensures { machine.new ≡ two_open }
{
    machine.make(0, Offer::Timeout { seconds: 2 }, 9, 1);
    machine.make_receiving(0, 0, 8);
}

/// Main decides, and nobody sends.
#[tactic(auto, using(crate::proofs::Starts::new_with_two))]
fn decide_first(machine: &mut Machine) -> Result<(), RunFault>
    requires { machine.old ≡ two_open }
    ensures { OnOk result (machine.new ≡ waiting_select) }
{
    let main = machine.world.begin(0);
    decide(machine, main, 0, 0, 0)?;
    machine.world.tick();
    Ok(())
}

/// The other sends.
fn send_then(machine: &mut Machine)
    requires { machine.old ≡ waiting_select }
{
    let other = machine.world.begin(1);
    send(machine, other, 0);
}

/// The other sends, and nobody receives.
#[tactic(auto, using(crate::proofs::Starts::new_with_two))]
fn send_first(machine: &mut Machine)
    requires { machine.old ≡ two_open }
    ensures { machine.new ≡ sender_waits }
{
    let other = machine.world.begin(1);
    send(machine, other, 0);
    machine.world.tick();
}

/// Main decides.
fn decide_then(machine: &mut Machine) -> Result<(), RunFault>
    requires { machine.old ≡ sender_waits }
{
    let main = machine.world.begin(0);
    decide(machine, main, 0, 0, 0)
}

/// Main decides with an else part.
#[tactic(auto, using(crate::proofs::Starts::new_with_two))]
fn decide_otherwise(machine: &mut Machine) -> Result<(), RunFault>
    requires { machine.old ≡ two_open }
{
    let main = machine.world.begin(0);
    decide(machine, main, 1, 7, 0)
}

/// Main decides, and nothing is open.
#[tactic(auto, using(crate::proofs::Starts::new_with_two))]
fn decide_closed(machine: &mut Machine) -> Result<(), RunFault>
    requires { machine.old ≡ select_pair }
{
    let main = machine.world.begin(0);
    decide(machine, main, 0, 0, 0)
}

/// What main does.
#[derive(Clone, Copy)]
enum Case {
    /// it decides, and the other sends then
    Waits,
    /// the other sends, and main decides then
    Matched,
    /// it decides with an else part
    Otherwise,
    /// it decides without an alternative
    Closed,
}

/// The answer of the select, the addresses of main and the other, what they stand at, and how many alternatives main offers.
type After = (Result<(), RunFault>, [u32; 2], (State, State), u32);

fn state_of(machine: &Machine, answer: Result<(), RunFault>) -> Option<After> {
    if machine.world.processes() < 2 || machine.descriptors.len() < 2 {
        return None;
    }
    Some((
        answer,
        [machine.stacks.at(0), machine.stacks.at(1)],
        (machine.world.state(0), machine.world.state(1)),
        machine.descriptors.offered(0),
    ))
}

/// What both stand at behind the select, and at the end.
fn after(alloc: Global, case: Case) -> Result<(Option<After>, Option<After>), Memory> {
    let image = image_of(alloc)?;
    let mut machine = pair_of(alloc, &image, 3, 2, 7, 3)?;
    match case {
        Case::Waits => {
            open_two(&mut machine);
            let answer = decide_first(&mut machine);
            let half = state_of(&machine, answer);
            if answer.is_ok() {
                send_then(&mut machine);
            }
            Ok((half, state_of(&machine, answer)))
        }
        Case::Matched => {
            open_two(&mut machine);
            send_first(&mut machine);
            let answer = decide_then(&mut machine);
            Ok((state_of(&machine, answer), None))
        }
        Case::Otherwise => {
            open_two(&mut machine);
            let answer = decide_otherwise(&mut machine);
            Ok((state_of(&machine, answer), None))
        }
        Case::Closed => {
            let answer = decide_closed(&mut machine);
            Ok((state_of(&machine, answer), None))
        }
    }
}

/// What main waits for up to 2 seconds.
const SELECT: State = State::Waiting(Why::Select {
    due: Some(2000),
    terminate: false,
});

const BOTH: (State, State) = (State::Ready, State::Ready);

/// The case, and what is owed behind the select and at the end.
static CASES: [(Case, Option<After>, Option<After>); 4] = [
    (
        Case::Waits,
        Some((Ok(()), [9, 0], (SELECT, State::Ready), 2)),
        Some((Ok(()), [8, 1], BOTH, 0)),
    ),
    (Case::Matched, Some((Ok(()), [8, 1], BOTH, 0)), None),
    (Case::Otherwise, Some((Ok(()), [7, 0], BOTH, 0)), None),
    (
        Case::Closed,
        Some((Err(RunFault::Closed), [4, 0], BOTH, 0)),
        None,
    ),
];

#[test]
fn selects_decide(rt: HostRuntime) -> Result<(), Fail> {
    for (at, (case, half, whole)) in CASES.iter().enumerate() {
        assert!(rt; after(rt.alloc(), *case)? == (*half, *whole), "case {at}");
    }
    Ok(())
}
