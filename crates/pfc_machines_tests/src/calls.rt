//! Calls and returns, from inside and from outside of a monitor, up to the last cell of a stack.
use crate::scripts::{Act, Answer, Step, first_difference};
use pfc_base::RunFault;
use pfc_state::{State, Why};
use std::test::Fail;

const READY: State = State::Ready;

const ENTRANT_OF_MONITOR: State = State::Waiting(Why::Enter(0));

static CALLS: [Step; 19] = [
    (1, Act::Call(1), Answer::Done(10, READY, 9, 2)),
    (1, Act::Call(2), Answer::Done(20, READY, 9, 3)),
    (1, Act::Return, Answer::Done(11, READY, 9, 2)),
    (1, Act::ReturnResult, Answer::Done(1, READY, 0, 1)),
    // 16,384 cells have place, and not one more; a refused call changes nothing
    (1, Act::Call(5), Answer::Fault(RunFault::Stack)),
    (1, Act::See, Answer::Done(1, READY, 0, 1)),
    (1, Act::Call(4), Answer::Done(40, READY, 0, 2)),
    (1, Act::Call(1), Answer::Fault(RunFault::Stack)),
    (1, Act::Return, Answer::Done(2, READY, 0, 1)),
    // a call from outside that is refused does not enter
    (2, Act::Enter(5), Answer::Fault(RunFault::Stack)),
    (2, Act::See, Answer::Done(0, READY, 9, 1)),
    (1, Act::Enter(1), Answer::Done(10, READY, 0, 2)),
    (2, Act::Enter(1), Answer::Done(10, ENTRANT_OF_MONITOR, 9, 2)),
    // a return from inside leaves the monitor as it is
    (1, Act::Call(1), Answer::Done(10, READY, 0, 3)),
    (1, Act::Return, Answer::Done(11, READY, 0, 2)),
    (2, Act::See, Answer::Done(10, ENTRANT_OF_MONITOR, 9, 2)),
    (1, Act::Return, Answer::Done(3, READY, 0, 1)),
    (2, Act::See, Answer::Done(10, READY, 9, 2)),
    (2, Act::Call(7), Answer::Unable),
];

#[test]
fn calls_and_returns(rt: HostRuntime) -> Result<(), Fail> {
    assert_eq!(rt; first_difference(rt.alloc(), &CALLS)?, None);
    Ok(())
}
