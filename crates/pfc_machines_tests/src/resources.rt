//! Calls of a resource, guards, scans and requeues.
use crate::scripts::{Act, Answer, Step, first_difference};
use pfc_base::RunFault;
use pfc_state::{State, Why};
use std::test::Fail;

const READY: State = State::Ready;

const ENTRANT: State = State::Waiting(Why::Entrant(0));

/// Barred at the first of the guarded procedures, or at the second.
const BARRED_AT_2: State = State::Waiting(Why::Barred {
    resource: 0,
    procedure: 2,
});

const BARRED_AT_3: State = State::Waiting(Why::Barred {
    resource: 0,
    procedure: 3,
});

static RESOURCE: [Step; 35] = [
    (1, Act::Ask(2), Answer::Done(20, READY, 9, 2)),
    // its own guard is false: it waits behind it
    (1, Act::Guard(0), Answer::Done(21, BARRED_AT_2, 9, 2)),
    (2, Act::Ask(3), Answer::Done(30, READY, 9, 2)),
    (3, Act::Ask(2), Answer::Done(20, ENTRANT, 9, 2)),
    (2, Act::Guard(0), Answer::Done(31, BARRED_AT_3, 9, 2)),
    // the entrant has the resource, and its guard is true
    (3, Act::Guard(1), Answer::Done(21, READY, 9, 2)),
    (4, Act::Ask(2), Answer::Done(20, ENTRANT, 9, 2)),
    // behind its return it scans: the guards of those that are barred, by ticket
    (3, Act::Return, Answer::Done(70, READY, 9, 1)),
    (3, Act::Turn, Answer::Done(20, READY, 9, 1)),
    (3, Act::Guard(0), Answer::Done(70, READY, 9, 1)),
    (3, Act::Turn, Answer::Done(30, READY, 9, 1)),
    (3, Act::Guard(1), Answer::Done(1, READY, 9, 1)),
    (2, Act::See, Answer::Done(31, READY, 9, 2)),
    (1, Act::See, Answer::Done(21, BARRED_AT_2, 9, 2)),
    (4, Act::See, Answer::Done(20, ENTRANT, 9, 2)),
    // behind a requeue who scanned is barred where it has requeued to, at its body
    (2, Act::Requeue(2), Answer::Done(70, READY, 9, 2)),
    (2, Act::Turn, Answer::Done(20, READY, 9, 2)),
    (2, Act::Guard(1), Answer::Done(22, BARRED_AT_2, 9, 2)),
    (1, Act::See, Answer::Done(21, READY, 9, 2)),
    // a scan that finds nobody gives the resource up
    (1, Act::Return, Answer::Done(70, READY, 9, 1)),
    (1, Act::Turn, Answer::Done(20, READY, 9, 1)),
    (1, Act::Guard(0), Answer::Done(70, READY, 9, 1)),
    (1, Act::Turn, Answer::Done(1, READY, 9, 1)),
    (4, Act::See, Answer::Done(20, READY, 9, 2)),
    // but behind a requeue its own guard is next
    (4, Act::Guard(1), Answer::Done(21, READY, 9, 2)),
    (4, Act::Requeue(3), Answer::Done(70, READY, 9, 2)),
    (4, Act::Turn, Answer::Done(20, READY, 9, 2)),
    (4, Act::Guard(0), Answer::Done(70, READY, 9, 2)),
    (4, Act::Turn, Answer::Done(30, READY, 9, 2)),
    (4, Act::Guard(0), Answer::Done(31, BARRED_AT_3, 9, 2)),
    // the activation that gives way is not counted
    (3, Act::Ask(5), Answer::Fault(RunFault::Stack)),
    (3, Act::Ask(4), Answer::Done(40, READY, 9, 2)),
    (3, Act::Requeue(5), Answer::Fault(RunFault::Stack)),
    (3, Act::Requeue(4), Answer::Done(70, READY, 9, 2)),
    (3, Act::Turn, Answer::Done(20, READY, 9, 2)),
];

#[test]
fn resources(rt: HostRuntime) -> Result<(), Fail> {
    assert_eq!(rt; first_difference(rt.alloc(), &RESOURCE)?, None);
    Ok(())
}
