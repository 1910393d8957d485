//! Actions on semaphores and conditions, by four children in their turns.
use crate::scripts::{Act, Answer, Step, first_difference};
use pfc_base::RunFault;
use pfc_state::{State, Why};
use std::test::Fail;

const READY: State = State::Ready;

const SEMAPHORE: State = State::Waiting(Why::Semaphore(0));

const ENTRANT_OF_MONITOR: State = State::Waiting(Why::Enter(0));

const RESUMER: State = State::Waiting(Why::Resumer(0));

const FIRST_BY_5: State = State::Waiting(Why::Condition { number: 0, rank: 5 });

const FIRST_BELOW_0: State = State::Waiting(Why::Condition {
    number: 0,
    rank: -1,
});

const SECOND_BY_3: State = State::Waiting(Why::Condition { number: 1, rank: 3 });

static SEMAPHORES: [Step; 18] = [
    (1, Act::Initialise(1, -1), Answer::Fault(RunFault::Negative)),
    (1, Act::See, Answer::Done(0, READY, -1, 1)),
    (1, Act::Initialise(0, 1), Answer::Done(1, READY, 9, 1)),
    // a positive count falls, and at 0 a process waits
    (2, Act::Wait(0), Answer::Done(1, READY, 9, 1)),
    (3, Act::Wait(0), Answer::Done(1, SEMAPHORE, 9, 1)),
    (4, Act::Wait(0), Answer::Done(1, SEMAPHORE, 9, 1)),
    // a signal frees who has waited longest, and the count stays
    (1, Act::Signal(0), Answer::Done(2, READY, 9, 1)),
    (3, Act::See, Answer::Done(1, READY, 9, 1)),
    (4, Act::See, Answer::Done(1, SEMAPHORE, 9, 1)),
    (3, Act::Signal(0), Answer::Done(2, READY, 9, 1)),
    (4, Act::See, Answer::Done(1, READY, 9, 1)),
    (4, Act::Wait(0), Answer::Done(2, SEMAPHORE, 9, 1)),
    // without a waiter it rises, up to the greatest integer
    (2, Act::Signal(1), Answer::Done(2, READY, 9, 1)),
    (2, Act::Wait(1), Answer::Done(3, READY, 9, 1)),
    (
        2,
        Act::Initialise(1, 2_147_483_647),
        Answer::Done(4, READY, 9, 1),
    ),
    (2, Act::Signal(1), Answer::Fault(RunFault::Count)),
    (2, Act::See, Answer::Done(4, READY, 1, 1)),
    (2, Act::Wait(2), Answer::Unable),
];

static CONDITIONS: [Step; 24] = [
    (1, Act::Enter(1), Answer::Done(10, READY, 9, 2)),
    (2, Act::Enter(1), Answer::Done(10, ENTRANT_OF_MONITOR, 9, 2)),
    (3, Act::Enter(1), Answer::Done(10, ENTRANT_OF_MONITOR, 9, 2)),
    (1, Act::IsEmpty(0), Answer::Done(11, READY, 1, 2)),
    // a delay hands over to the first entrant
    (1, Act::Delay(0, 5), Answer::Done(12, FIRST_BY_5, 9, 2)),
    (2, Act::See, Answer::Done(10, READY, 9, 2)),
    (2, Act::Delay(0, -1), Answer::Done(11, FIRST_BELOW_0, 9, 2)),
    // nobody waits on the other condition; here the least rank goes on, and who resumes waits
    (3, Act::Resume(1), Answer::Done(11, READY, 9, 2)),
    (3, Act::Resume(0), Answer::Done(12, RESUMER, 9, 2)),
    (2, Act::See, Answer::Done(11, READY, 9, 2)),
    (2, Act::IsEmpty(0), Answer::Done(12, READY, 0, 2)),
    // a return hands over to the resumer, before any entrant
    (2, Act::Return, Answer::Done(1, READY, 0, 1)),
    (3, Act::See, Answer::Done(12, READY, 9, 2)),
    (3, Act::Resume(0), Answer::Done(13, RESUMER, 9, 2)),
    (4, Act::Enter(1), Answer::Done(10, ENTRANT_OF_MONITOR, 9, 2)),
    (1, Act::Return, Answer::Done(1, READY, 9, 1)),
    (3, Act::See, Answer::Done(13, READY, 9, 2)),
    (4, Act::See, Answer::Done(10, ENTRANT_OF_MONITOR, 9, 2)),
    (3, Act::Return, Answer::Done(1, READY, 9, 1)),
    (4, Act::See, Answer::Done(10, READY, 9, 2)),
    // who is in no procedure of the monitor hands nothing over
    (1, Act::Delay(1, 3), Answer::Done(2, SECOND_BY_3, 9, 1)),
    (2, Act::Enter(1), Answer::Done(10, ENTRANT_OF_MONITOR, 0, 2)),
    (4, Act::Return, Answer::Done(1, READY, 9, 1)),
    (2, Act::See, Answer::Done(10, READY, 0, 2)),
];

#[test]
fn semaphores(rt: HostRuntime) -> Result<(), Fail> {
    assert_eq!(rt; first_difference(rt.alloc(), &SEMAPHORES)?, None);
    Ok(())
}

#[test]
fn conditions(rt: HostRuntime) -> Result<(), Fail> {
    assert_eq!(rt; first_difference(rt.alloc(), &CONDITIONS)?, None);
    Ok(())
}
