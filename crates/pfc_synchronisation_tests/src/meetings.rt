//! Rendezvous, selects, and the end of processes that only serve.
ghost use Rattle.std.specs.Prelude.{◌≡◌, true, None, Some};
ghost use Rattle.pfc_meet.specs.Meetings.{ActsAfterAccept, ActsAfterCall, IsInMeeting};
ghost use Rattle.pfc_world.specs.Tables.{at};
ghost use Rattle.pfc_world.specs.Tickets.{IsNew};

use crate::stage::{five_children, next_action};
use pfc_base::Memory;
use pfc_meet::{
    Accepted, Called, Committed, Uncalled, accept, call_entry, end_accept, matches, select_commit,
    select_wait, terminate_all,
};
use pfc_world::{Arm, Running, State, Why, World};
use std::alloc::Global;
use std::test::Fail;

/// An action of a process; `Settle` and `Terminate` are no action of anybody.
#[derive(Clone, Copy)]
enum Call {
    Finish,
    Sleep(u64),
    Entry { owner: u32, entry: u32 },
    Accept(u32),
    EndAccept(u32),
    Matches(Arm, Arm),
    /// a select that takes the matched alternative at this place
    Choose(Arm, Arm, u32),
    /// a select that waits, with a due moment or none
    Select(Arm, Arm, Option<u64>),
    /// a select that waits with an open `terminate`
    Serve,
    Settle,
    Terminate,
}

#[derive(Clone, Copy, Debug, PartialEq, Eq)]
enum Answer {
    /// the process is not ready, or a condition of the call does not hold
    Unable,
    Goes,
    Waits,
    /// the fault of a process that is not active
    Uncalled,
    Begins(Option<u32>),
    Takes(u32),
    Count(u32),
    Commits(u32, u32, Option<u32>),
    Ends(bool),
}

static ACTIONS: [(u32, Call, Answer); 51] = [
    (5, Call::Finish, Answer::Goes),
    // only an owner that is idle or has finished cannot be called, not one that is busy
    (1, Call::Entry { owner: 5, entry: 0 }, Answer::Uncalled),
    (1, Call::Entry { owner: 6, entry: 0 }, Answer::Uncalled),
    (1, Call::Entry { owner: 2, entry: 0 }, Answer::Waits),
    (3, Call::Entry { owner: 2, entry: 0 }, Answer::Waits),
    (2, Call::Accept(0), Answer::Takes(1)),
    (1, Call::Finish, Answer::Unable),
    (2, Call::EndAccept(3), Answer::Unable),
    (2, Call::EndAccept(1), Answer::Goes),
    (2, Call::Accept(0), Answer::Takes(3)),
    (2, Call::EndAccept(3), Answer::Goes),
    (2, Call::Accept(1), Answer::Waits),
    (1, Call::Entry { owner: 2, entry: 0 }, Answer::Waits),
    (3, Call::Entry { owner: 2, entry: 1 }, Answer::Begins(None)),
    (2, Call::EndAccept(3), Answer::Goes),
    (2, Call::Accept(0), Answer::Takes(1)),
    (2, Call::EndAccept(1), Answer::Goes),
    // a select that waits for two entries, with a due moment
    (
        2,
        Call::Select(Arm::Accept(0), Arm::Accept(1), Some(9_000)),
        Answer::Waits,
    ),
    (
        1,
        Call::Entry { owner: 2, entry: 1 },
        Answer::Begins(Some(1)),
    ),
    (3, Call::Entry { owner: 2, entry: 0 }, Answer::Waits),
    (2, Call::EndAccept(1), Answer::Goes),
    (2, Call::Accept(0), Answer::Takes(3)),
    (2, Call::EndAccept(3), Answer::Goes),
    // two selects that can meet each other in two ways
    (
        1,
        Call::Select(Arm::Send(0), Arm::Receive(1), None),
        Answer::Waits,
    ),
    (
        3,
        Call::Matches(Arm::Send(1), Arm::Receive(0)),
        Answer::Count(2),
    ),
    // a select that is matched does not wait
    (
        3,
        Call::Select(Arm::Send(1), Arm::Receive(0), None),
        Answer::Unable,
    ),
    (
        3,
        Call::Choose(Arm::Send(1), Arm::Receive(0), 0),
        Answer::Commits(0, 1, Some(1)),
    ),
    (
        1,
        Call::Select(Arm::Send(0), Arm::Receive(1), None),
        Answer::Waits,
    ),
    (
        3,
        Call::Choose(Arm::Send(1), Arm::Receive(0), 1),
        Answer::Commits(1, 1, Some(0)),
    ),
    (
        3,
        Call::Choose(Arm::Send(1), Arm::Receive(0), 0),
        Answer::Unable,
    ),
    // two alternatives at one channel are two that are matched, and the partner is met at its first
    (
        1,
        Call::Select(Arm::Send(0), Arm::Send(0), Some(9_000)),
        Answer::Waits,
    ),
    (
        3,
        Call::Matches(Arm::Receive(0), Arm::Receive(0)),
        Answer::Count(2),
    ),
    (
        3,
        Call::Choose(Arm::Receive(0), Arm::Receive(0), 1),
        Answer::Commits(1, 1, Some(0)),
    ),
    (
        3,
        Call::Matches(Arm::Receive(0), Arm::Receive(0)),
        Answer::Count(0),
    ),
    // an entry is accepted by a select; the place among the alternatives is not that among the matched
    (1, Call::Entry { owner: 3, entry: 7 }, Answer::Waits),
    (
        3,
        Call::Matches(Arm::Receive(0), Arm::Accept(7)),
        Answer::Count(1),
    ),
    (
        3,
        Call::Choose(Arm::Receive(0), Arm::Accept(7), 0),
        Answer::Commits(1, 1, None),
    ),
    (3, Call::EndAccept(1), Answer::Goes),
    // processes that only serve end together, not while one is ready or sleeps
    (1, Call::Serve, Answer::Waits),
    (2, Call::Serve, Answer::Waits),
    (3, Call::Serve, Answer::Waits),
    (0, Call::Terminate, Answer::Ends(false)),
    (4, Call::Sleep(5_000), Answer::Waits),
    (0, Call::Terminate, Answer::Ends(false)),
    (0, Call::Settle, Answer::Goes),
    (4, Call::Serve, Answer::Waits),
    (0, Call::Finish, Answer::Unable),
    (0, Call::Terminate, Answer::Ends(true)),
    (0, Call::Terminate, Answer::Ends(false)),
    (4, Call::Finish, Answer::Unable),
    (0, Call::Finish, Answer::Goes),
];

fn answer_to(world: &mut World, p: u32, call: Call) -> Answer
    requires { world.old.acting ≡ None }
    ensures { world.new.acting ≡ None }
{
    match call {
        Call::Settle => {
            let _ = world.settle();
            Answer::Goes
        }
        Call::Terminate => Answer::Ends(terminate_all(world)),
        _ => match next_action(world, p) {
            Some(r) => acted(world, r, call),
            None => Answer::Unable,
        },
    }
}

fn acted(world: &mut World, r: Running, call: Call) -> Answer
    requires acts { world.old.acting ≡ Some r.number }
    requires fresh { IsNew world.old.rows world.old.done }
    ensures { world.new.acting ≡ None }
{
    match call {
        Call::Finish => {
            world.finish(r);
            Answer::Goes
        }
        Call::Sleep(moment) => {
            world.block(r, Why::Sleep(moment));
            Answer::Waits
        }
        Call::Entry { owner, entry } => called(world, r, owner, entry),
        Call::Accept(entry) => {
            let accepted = accept(world, r, entry);
            taken(world, accepted)
        }
        Call::EndAccept(caller) => {
            world.rest(r);
            ended(world, caller)
        }
        Call::Matches(one, other) => {
            let count = matches(world, r.number(), &[one, other]);
            world.rest(r);
            Answer::Count(count)
        }
        Call::Choose(one, other, k) => chosen(world, r, [one, other], k),
        Call::Select(one, other, due) => selects(world, r, [one, other], due),
        Call::Serve => {
            select_wait(world, r, &[], None, true);
            Answer::Waits
        }
        Call::Settle | Call::Terminate => {
            world.rest(r);
            Answer::Unable
        }
    }
}

fn called(world: &mut World, r: Running, owner: u32, entry: u32) -> Answer
    requires acts { world.old.acting ≡ Some r.number }
    requires fresh { IsNew world.old.rows world.old.done }
    ensures { world.new.acting ≡ None }
{
    if owner >= world.processes() {
        world.rest(r);
        return Answer::Unable;
    }
    match call_entry(world, r, owner, entry) {
        Ok(Called::Met { alternative }) => Answer::Begins(alternative),
        Ok(Called::Waits) => Answer::Waits,
        Err(Uncalled { r }) => {
            world.rest(r);
            Answer::Uncalled
        }
    }
}

fn taken(world: &mut World, accepted: Accepted) -> Answer
    requires { ActsAfterAccept accepted world.old.acting }
    ensures { world.new.acting ≡ None }
{
    match accepted {
        Accepted::Met { r, caller } => {
            world.rest(r);
            Answer::Takes(caller)
        }
        Accepted::Waits => Answer::Waits,
    }
}

/// Whether the process waits in a rendezvous.
fn is_in_meeting(world: &World, p: u32) -> bool
    ensures { result ≡ true → IsInMeeting (at world.now.rows p) }
{
    if p >= world.processes() {
        return false;
    }
    match world.state(p) {
        State::Waiting(Why::Meeting(_)) => true,
        _ => false,
    }
}

fn ended(world: &mut World, caller: u32) -> Answer
    requires { world.old.acting ≡ None }
    ensures { world.new.acting ≡ None }
{
    if !is_in_meeting(world, caller) {
        return Answer::Unable;
    }
    end_accept(world, caller);
    Answer::Goes
}

fn chosen(world: &mut World, r: Running, arms: [Arm; 2], k: u32) -> Answer
    requires acts { world.old.acting ≡ Some r.number }
    requires fresh { IsNew world.old.rows world.old.done }
    ensures { world.new.acting ≡ None }
{
    if k >= matches(world, r.number(), &arms) {
        world.rest(r);
        return Answer::Unable;
    }
    let Committed {
        r,
        alternative,
        partner,
        partner_alternative,
    } = select_commit(world, r, &arms, k);
    world.rest(r);
    Answer::Commits(alternative, partner, partner_alternative)
}

/// A select with two alternatives, which waits where it has room for them and none is matched.
fn selects(world: &mut World, r: Running, arms: [Arm; 2], due: Option<u64>) -> Answer
    requires acts { world.old.acting ≡ Some r.number }
    requires fresh { IsNew world.old.rows world.old.done }
    ensures { world.new.acting ≡ None }
{
    if world.room() < 2 || matches(world, r.number(), &arms) > 0 {
        world.rest(r);
        return Answer::Unable;
    }
    select_wait(world, r, &arms, due, false);
    Answer::Waits
}

/// The place of the first action whose answer is not the one that is owed.
fn first_difference(alloc: Global) -> Result<Option<usize>, Memory> {
    let mut world = five_children(alloc)?;
    for (at, (p, call, owed)) in ACTIONS.iter().enumerate() {
        if answer_to(&mut world, *p, *call) != *owed {
            return Ok(Some(at));
        }
    }
    Ok(None)
}

#[test]
fn meetings_and_selects(rt: HostRuntime) -> Result<(), Fail> {
    assert_eq!(rt; first_difference(rt.alloc())?, None);
    Ok(())
}
