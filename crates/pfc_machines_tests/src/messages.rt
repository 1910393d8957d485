//! Messages between main and another process: each of them first.
ghost use Rattle.std.specs.Prelude.{◌≡◌};
ghost use Rattle.pfc_machines_tests.specs.Samples.{message_pair, sent_first, received_first};

use super::machines::image_of;
use super::pairs::pair_of;
use pfc_base::Memory;
use pfc_machines::Machine;
use pfc_message_actions::{receive, send};
use pfc_state::{State, Why};
use std::alloc::Global;
use std::test::Fail;

/// Main sends 7 over channel 3.
#[tactic(auto, using(crate::proofs::Starts::new_with_two))]
fn send_first(machine: &mut Machine)
    requires { machine.old ≡ message_pair }
    ensures { machine.new ≡ sent_first }
{
    let main = machine.world.begin(0);
    send(machine, main, 1);
    machine.world.tick();
}

/// The other receives it.
fn receive_then(machine: &mut Machine)
    requires { machine.old ≡ sent_first }
{
    let other = machine.world.begin(1);
    receive(machine, other, 1);
}

/// The other waits for a word over channel 3.
#[tactic(auto, using(crate::proofs::Starts::new_with_two))]
fn receive_first(machine: &mut Machine)
    requires { machine.old ≡ message_pair }
    ensures { machine.new ≡ received_first }
{
    let other = machine.world.begin(1);
    receive(machine, other, 1);
    machine.world.tick();
}

/// Main sends it 7.
fn send_then(machine: &mut Machine)
    requires { machine.old ≡ received_first }
{
    let main = machine.world.begin(0);
    send(machine, main, 1);
}

/// Which of the two acts first: main, which sends, or the other.
#[derive(Clone, Copy)]
enum First {
    Sender,
    Receiver,
}

/// The addresses of main and the other, the top of each, what they stand at, and how many alternatives they offer.
type After = ([u32; 2], [i64; 2], (State, State), [u32; 2]);

fn state_of(machine: &Machine) -> Option<After> {
    if machine.world.processes() < 2 || machine.descriptors.len() < 2 {
        return None;
    }
    Some((
        [machine.stacks.at(0), machine.stacks.at(1)],
        [machine.stacks.top(0, 0), machine.stacks.top(1, 0)],
        (machine.world.state(0), machine.world.state(1)),
        [
            machine.descriptors.offered(0),
            machine.descriptors.offered(1),
        ],
    ))
}

/// What both stand at behind the first action, and behind both.
fn exchange(alloc: Global, first: First) -> Result<(Option<After>, Option<After>), Memory> {
    let image = image_of(alloc)?;
    let mut machine = pair_of(alloc, &image, 3, 7, 3, 4_294_967_304)?;
    match first {
        First::Sender => {
            send_first(&mut machine);
            let half = state_of(&machine);
            receive_then(&mut machine);
            Ok((half, state_of(&machine)))
        }
        First::Receiver => {
            receive_first(&mut machine);
            let half = state_of(&machine);
            send_then(&mut machine);
            Ok((half, state_of(&machine)))
        }
    }
}

/// Who acts first, and what is owed behind each action.
static EXCHANGES: [(First, Option<After>, Option<After>); 2] = [
    (
        First::Sender,
        Some((
            [5, 0],
            [50, 4_294_967_304],
            (State::Waiting(Why::Send(3)), State::Ready),
            [1, 0],
        )),
        Some(([5, 1], [50, 0], (State::Ready, State::Ready), [0, 0])),
    ),
    (
        First::Receiver,
        Some((
            [4, 1],
            [7, 0],
            (State::Ready, State::Waiting(Why::Receive(3))),
            [0, 1],
        )),
        Some(([5, 1], [50, 0], (State::Ready, State::Ready), [0, 0])),
    ),
];

#[test]
fn messages_pass(rt: HostRuntime) -> Result<(), Fail> {
    for (at, (first, half, whole)) in EXCHANGES.iter().enumerate() {
        assert!(rt;
            exchange(rt.alloc(), *first)? == (*half, *whole),
            "case {at}"
        );
    }
    Ok(())
}
