//! Guarded resources.
ghost use Rattle.std.specs.Prelude.{◌≡◌, ◌<◌, length, true, None, Some};
ghost use Rattle.pfc_resource.specs.Scans.{IsBarredAt};
ghost use Rattle.pfc_world.specs.Tables.{at};
ghost use Rattle.pfc_world.specs.Tickets.{IsNew};

use crate::stage::{five_children, next_action};
use pfc_base::Memory;
use pfc_resource::{Resources, bar, enter, leave, pass_to, requeue, scan_next};
use pfc_world::{After, Running, State, Why, World};
use std::alloc::Global;
use std::test::Fail;

/// An action of a process on the one resource.
#[derive(Clone, Copy)]
enum Call {
    Enter,
    Bar(u32),
    Scan(Option<u64>),
    Pass(u32),
    Leave,
    Requeue { procedure: u32, to: u32 },
}

#[derive(Clone, Copy, Debug, PartialEq, Eq)]
enum Answer {
    /// the process is not ready, or a condition of the call does not hold
    Unable,
    Goes,
    Waits,
    Next(Option<u32>),
    /// the process, its procedure and its ticket
    Finds(Option<(u32, u32, u64)>),
}

static ACTIONS: [(u32, Call, Answer); 22] = [
    (1, Call::Enter, Answer::Goes),
    (2, Call::Enter, Answer::Waits),
    // who is barred gives the resource to the first entrant, and else frees it; the tickets are 4 and 5
    (1, Call::Bar(3), Answer::Next(Some(2))),
    (2, Call::Bar(4), Answer::Next(None)),
    (3, Call::Enter, Answer::Goes),
    (4, Call::Enter, Answer::Waits),
    (3, Call::Scan(None), Answer::Finds(Some((1, 3, 4)))),
    (3, Call::Scan(Some(4)), Answer::Finds(Some((2, 4, 5)))),
    (3, Call::Scan(Some(5)), Answer::Finds(None)),
    // another ticket than that of the one found last
    (3, Call::Scan(Some(4)), Answer::Finds(Some((2, 4, 5)))),
    (3, Call::Pass(4), Answer::Unable),
    (3, Call::Pass(1), Answer::Goes),
    (5, Call::Enter, Answer::Waits),
    (1, Call::Leave, Answer::Next(Some(4))),
    (4, Call::Bar(7), Answer::Next(Some(5))),
    // the requeued process waits at its new procedure, and is tried last
    (
        5,
        Call::Requeue {
            procedure: 6,
            to: 2,
        },
        Answer::Waits,
    ),
    (2, Call::Scan(None), Answer::Finds(Some((4, 7, 16)))),
    (2, Call::Scan(Some(16)), Answer::Finds(Some((5, 6, 17)))),
    (2, Call::Scan(Some(17)), Answer::Finds(None)),
    (2, Call::Leave, Answer::Next(None)),
    (2, Call::Leave, Answer::Unable),
    (3, Call::Enter, Answer::Goes),
];

fn answer_to(world: &mut World, res: &mut Resources, p: u32, call: Call) -> Answer
    requires { world.old.acting ≡ None }
    ensures { world.new.acting ≡ None }
{
    let Some(r) = next_action(world, p) else {
        return Answer::Unable;
    };
    if !res.has(0) {
        world.rest(r);
        return Answer::Unable;
    }
    match call {
        Call::Enter => entered(world, res, r),
        Call::Scan(after) => {
            world.rest(r);
            found(world, after)
        }
        Call::Pass(to) => {
            world.rest(r);
            passed(world, res, to)
        }
        Call::Leave => {
            world.rest(r);
            left(world, res)
        }
        Call::Bar(procedure) => was_barred(world, res, r, procedure),
        Call::Requeue { procedure, to } => requeued(world, res, r, procedure, to),
    }
}

fn found(world: &World, after: Option<u64>) -> Answer {
    match scan_next(world, 0, after) {
        Some(barred) => Answer::Finds(Some((barred.process, barred.procedure, barred.ticket))),
        None => Answer::Finds(None),
    }
}

fn entered(world: &mut World, res: &mut Resources, r: Running) -> Answer
    requires acts { world.old.acting ≡ Some r.number }
    requires fresh { IsNew world.old.rows world.old.done }
    requires known { 0 < length res.old }
    ensures { world.new.acting ≡ None }
{
    match enter(world, res, r, 0) {
        After::Goes(r) => {
            world.rest(r);
            Answer::Goes
        }
        After::Waits => Answer::Waits,
    }
}

/// Whether the process is barred at the resource.
fn is_barred(world: &World, p: u32) -> bool
    ensures { result ≡ true → IsBarredAt 0 (at world.now.rows p) }
{
    if p >= world.processes() {
        return false;
    }
    match world.state(p) {
        State::Waiting(Why::Barred { resource, .. }) => resource == 0,
        _ => false,
    }
}

fn passed(world: &mut World, res: &mut Resources, to: u32) -> Answer
    requires quiet { world.old.acting ≡ None }
    requires known { 0 < length res.old }
    ensures { world.new.acting ≡ None }
{
    if res.holder(0).is_none() || !is_barred(world, to) {
        return Answer::Unable;
    }
    pass_to(world, res, 0, to);
    Answer::Goes
}

fn left(world: &mut World, res: &mut Resources) -> Answer
    requires quiet { world.old.acting ≡ None }
    requires known { 0 < length res.old }
    ensures { world.new.acting ≡ None }
{
    if res.holder(0).is_none() {
        return Answer::Unable;
    }
    Answer::Next(leave(world, res, 0))
}

fn was_barred(world: &mut World, res: &mut Resources, r: Running, procedure: u32) -> Answer
    requires acts { world.old.acting ≡ Some r.number }
    requires fresh { IsNew world.old.rows world.old.done }
    requires known { 0 < length res.old }
    ensures { world.new.acting ≡ None }
{
    match res.holder(0) {
        Some(holder) if holder == r.number() => Answer::Next(bar(world, res, r, 0, procedure)),
        _ => {
            world.rest(r);
            Answer::Unable
        }
    }
}

fn requeued(world: &mut World, res: &mut Resources, r: Running, procedure: u32, to: u32) -> Answer
    requires acts { world.old.acting ≡ Some r.number }
    requires fresh { IsNew world.old.rows world.old.done }
    requires known { 0 < length res.old }
    ensures { world.new.acting ≡ None }
{
    let barred = is_barred(world, to);
    match res.holder(0) {
        Some(holder) if holder == r.number() && barred => {
            requeue(world, res, r, 0, procedure, to);
            Answer::Waits
        }
        _ => {
            world.rest(r);
            Answer::Unable
        }
    }
}

/// The place of the first action whose answer is not the one that is owed.
fn first_difference(alloc: Global) -> Result<Option<usize>, Memory> {
    let mut world = five_children(alloc)?;
    let mut res = Resources::new(alloc, 1)?;
    for (at, (p, call, owed)) in ACTIONS.iter().enumerate() {
        if answer_to(&mut world, &mut res, *p, *call) != *owed {
            return Ok(Some(at));
        }
    }
    Ok(None)
}

#[test]
fn guarded_resources(rt: HostRuntime) -> Result<(), Fail> {
    assert_eq!(rt; first_difference(rt.alloc())?, None);
    Ok(())
}
