//! Semaphores and channels.
ghost use Rattle.std.specs.Prelude.{◌≡◌, None, Some};
ghost use Rattle.pfc_world.specs.Tickets.{IsNew};
ghost use Rattle.pfc_pass.specs.Messages.{ActsAfter};

use crate::stage::{five_children, next_action, wait_with};
use pfc_base::{Memory, RunFault};
use pfc_pass::{Passed, Semaphores, receive, sem_initial, sem_signal, sem_wait, send};
use pfc_world::{After, Arm, Running, World};
use std::alloc::Global;
use std::test::Fail;

/// An action of a process: with the number of a semaphore or of a channel.
#[derive(Clone, Copy)]
enum Call {
    Initial(u32, i32),
    Wait(u32),
    Signal(u32),
    Send(u32),
    Receive(u32),
    /// a select that waits, with a due moment or none
    Select(Arm, Arm, Option<u64>),
}

#[derive(Clone, Copy, Debug, PartialEq, Eq)]
enum Answer {
    /// the process is not ready, or a condition of the call does not hold
    Unable,
    Goes,
    Waits,
    Frees(Option<u32>),
    Fault(RunFault),
    Meets(u32, Option<u32>),
}

static ACTIONS: [(u32, Call, Answer); 35] = [
    (1, Call::Initial(0, -1), Answer::Fault(RunFault::Negative)),
    (1, Call::Initial(0, 1), Answer::Goes),
    (1, Call::Wait(0), Answer::Goes),
    (1, Call::Wait(0), Answer::Waits),
    (1, Call::Wait(0), Answer::Unable),
    (2, Call::Wait(0), Answer::Waits),
    // who has waited longest is freed first, and the count stays
    (3, Call::Signal(0), Answer::Frees(Some(1))),
    (3, Call::Signal(0), Answer::Frees(Some(2))),
    (3, Call::Signal(0), Answer::Frees(None)),
    (3, Call::Wait(0), Answer::Goes),
    (3, Call::Wait(0), Answer::Waits),
    (1, Call::Signal(1), Answer::Frees(None)),
    (1, Call::Signal(0), Answer::Frees(Some(3))),
    (1, Call::Initial(1, i32::MAX), Answer::Goes),
    (1, Call::Signal(1), Answer::Fault(RunFault::Count)),
    (1, Call::Wait(1), Answer::Goes),
    (1, Call::Signal(1), Answer::Frees(None)),
    // a message goes to who has waited longest on the other side
    (1, Call::Send(0), Answer::Waits),
    (2, Call::Send(0), Answer::Waits),
    (3, Call::Receive(0), Answer::Meets(1, None)),
    (3, Call::Receive(0), Answer::Meets(2, None)),
    (3, Call::Receive(0), Answer::Waits),
    // a select that was met waits no more, for no channel and no moment
    (
        4,
        Call::Select(Arm::Receive(1), Arm::Receive(0), Some(9_000)),
        Answer::Waits,
    ),
    (5, Call::Send(0), Answer::Meets(3, None)),
    (5, Call::Send(0), Answer::Meets(4, Some(1))),
    (5, Call::Send(0), Answer::Waits),
    (4, Call::Receive(0), Answer::Meets(5, None)),
    (1, Call::Send(1), Answer::Waits),
    (4, Call::Receive(1), Answer::Meets(1, None)),
    // the first alternative that fits is met, before a plain statement that waits less long
    (
        4,
        Call::Select(Arm::Receive(1), Arm::Receive(1), None),
        Answer::Waits,
    ),
    (5, Call::Receive(1), Answer::Waits),
    (1, Call::Send(1), Answer::Meets(4, Some(0))),
    (1, Call::Send(1), Answer::Meets(5, None)),
    // nobody meets himself
    (
        2,
        Call::Select(Arm::Send(2), Arm::Receive(2), None),
        Answer::Waits,
    ),
    (3, Call::Receive(2), Answer::Meets(2, Some(0))),
];

fn answer_to(world: &mut World, sems: &mut Semaphores, p: u32, call: Call) -> Answer
    requires { world.old.acting ≡ None }
    ensures { world.new.acting ≡ None }
{
    let Some(r) = next_action(world, p) else {
        return Answer::Unable;
    };
    match call {
        Call::Initial(s, n) => {
            world.rest(r);
            initial(sems, s, n)
        }
        Call::Wait(s) => wait(world, sems, r, s),
        Call::Signal(s) => {
            world.rest(r);
            signal(world, sems, s)
        }
        Call::Send(c) => {
            let passed = send(world, r, c);
            met(world, passed)
        }
        Call::Receive(c) => {
            let passed = receive(world, r, c);
            met(world, passed)
        }
        Call::Select(one, other, due) => {
            if wait_with(world, r, [one, other], due) {
                Answer::Waits
            } else {
                Answer::Unable
            }
        }
    }
}

fn initial(sems: &mut Semaphores, s: u32, n: i32) -> Answer {
    if !sems.has(s) {
        return Answer::Unable;
    }
    match sem_initial(sems, s, n) {
        Ok(()) => Answer::Goes,
        Err(fault) => Answer::Fault(fault),
    }
}

fn wait(world: &mut World, sems: &mut Semaphores, r: Running, s: u32) -> Answer
    requires acts { world.old.acting ≡ Some r.number }
    requires fresh { IsNew world.old.rows world.old.done }
    ensures { world.new.acting ≡ None }
{
    if !sems.has(s) {
        world.rest(r);
        return Answer::Unable;
    }
    match sem_wait(world, sems, r, s) {
        After::Goes(r) => {
            world.rest(r);
            Answer::Goes
        }
        After::Waits => Answer::Waits,
    }
}

fn signal(world: &mut World, sems: &mut Semaphores, s: u32) -> Answer
    requires { world.old.acting ≡ None }
    ensures { world.new.acting ≡ None }
{
    if !sems.has(s) {
        return Answer::Unable;
    }
    match sem_signal(world, sems, s) {
        Ok(freed) => Answer::Frees(freed),
        Err(fault) => Answer::Fault(fault),
    }
}

fn met(world: &mut World, passed: Passed) -> Answer
    requires { ActsAfter passed world.old.acting }
    ensures { world.new.acting ≡ None }
{
    match passed {
        Passed::Met {
            r,
            partner,
            alternative,
        } => {
            world.rest(r);
            Answer::Meets(partner, alternative)
        }
        Passed::Waits => Answer::Waits,
    }
}

/// The place of the first action whose answer is not the one that is owed.
fn first_difference(alloc: Global) -> Result<Option<usize>, Memory> {
    let mut world = five_children(alloc)?;
    let mut sems = Semaphores::new(alloc, 2)?;
    for (at, (p, call, owed)) in ACTIONS.iter().enumerate() {
        if answer_to(&mut world, &mut sems, *p, *call) != *owed {
            return Ok(Some(at));
        }
    }
    Ok(None)
}

#[test]
fn semaphores_and_channels(rt: HostRuntime) -> Result<(), Fail> {
    assert_eq!(rt; first_difference(rt.alloc())?, None);
    Ok(())
}
