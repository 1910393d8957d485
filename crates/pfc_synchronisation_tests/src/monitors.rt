//! Monitors and their conditions.
ghost use Rattle.std.specs.Prelude.{◌≡◌, None, Some};
ghost use Rattle.pfc_world.specs.Goings.{ActsAfter};
ghost use Rattle.pfc_world.specs.Tickets.{IsNew};

use crate::stage::{five_children, next_action};
use pfc_base::Memory;
use pfc_monitor::{Monitors, delay, enter, is_empty, leave, resume};
use pfc_world::{After, Running, World};
use std::alloc::Global;
use std::test::Fail;

/// An action of a process on the one monitor, or on one of its conditions.
#[derive(Clone, Copy)]
enum Call {
    Enter,
    Leave,
    Delay(u32, i32),
    Resume(u32),
    IsEmpty(u32),
}

#[derive(Clone, Copy, Debug, PartialEq, Eq)]
enum Answer {
    /// the process is not ready, or a condition of the call does not hold
    Unable,
    Goes,
    Waits,
    Next(Option<u32>),
    Empty(bool),
}

static ACTIONS: [(u32, Call, Answer); 25] = [
    (1, Call::Enter, Answer::Goes),
    (2, Call::Enter, Answer::Waits),
    (3, Call::Enter, Answer::Waits),
    (2, Call::Leave, Answer::Unable),
    (1, Call::IsEmpty(0), Answer::Empty(true)),
    // a delay hands over to the first entrant, and else frees the monitor
    (1, Call::Delay(0, 5), Answer::Next(Some(2))),
    (2, Call::Delay(0, -1), Answer::Next(Some(3))),
    (3, Call::Delay(0, 5), Answer::Next(None)),
    (4, Call::Enter, Answer::Goes),
    (4, Call::IsEmpty(0), Answer::Empty(false)),
    (4, Call::Resume(1), Answer::Goes),
    // the least rank goes on, and at one rank who has waited longest; whoever resumed waits
    (4, Call::Resume(0), Answer::Waits),
    (2, Call::Resume(0), Answer::Waits),
    (3, Call::Enter, Answer::Unable),
    (5, Call::Enter, Answer::Waits),
    // the latest resumer comes first, then the one before, then the entrant
    (1, Call::Leave, Answer::Next(Some(2))),
    (2, Call::Leave, Answer::Next(Some(4))),
    (4, Call::Leave, Answer::Next(Some(5))),
    (4, Call::Leave, Answer::Unable),
    (5, Call::Resume(0), Answer::Waits),
    (3, Call::IsEmpty(0), Answer::Empty(true)),
    (3, Call::Leave, Answer::Next(Some(5))),
    (5, Call::Leave, Answer::Next(None)),
    (1, Call::Enter, Answer::Goes),
    (1, Call::Leave, Answer::Next(None)),
];

fn answer_to(world: &mut World, mons: &mut Monitors, p: u32, call: Call) -> Answer
    requires { world.old.acting ≡ None }
    ensures { world.new.acting ≡ None }
{
    let Some(r) = next_action(world, p) else {
        return Answer::Unable;
    };
    match call {
        Call::Enter => entered(world, mons, r),
        Call::Leave => {
            world.rest(r);
            left(world, mons, p)
        }
        Call::Delay(c, rank) => delayed(world, mons, r, c, rank),
        Call::Resume(c) => resumed(world, mons, r, c),
        Call::IsEmpty(c) => {
            world.rest(r);
            Answer::Empty(is_empty(world, c))
        }
    }
}

fn entered(world: &mut World, mons: &mut Monitors, r: Running) -> Answer
    requires acts { world.old.acting ≡ Some r.number }
    requires fresh { IsNew world.old.rows world.old.done }
    ensures { world.new.acting ≡ None }
{
    if !mons.has(0) {
        world.rest(r);
        return Answer::Unable;
    }
    let after = enter(world, mons, r, 0);
    went(world, after)
}

fn went(world: &mut World, after: After) -> Answer
    requires { ActsAfter after world.old.acting }
    ensures { world.new.acting ≡ None }
{
    match after {
        After::Goes(r) => {
            world.rest(r);
            Answer::Goes
        }
        After::Waits => Answer::Waits,
    }
}

fn left(world: &mut World, mons: &mut Monitors, p: u32) -> Answer
    requires { world.old.acting ≡ None }
    ensures { world.new.acting ≡ None }
{
    if !mons.has(0) {
        return Answer::Unable;
    }
    match mons.holder(0) {
        Some(holder) if holder == p => Answer::Next(leave(world, mons, holder, 0)),
        _ => Answer::Unable,
    }
}

fn delayed(world: &mut World, mons: &mut Monitors, r: Running, c: u32, rank: i32) -> Answer
    requires acts { world.old.acting ≡ Some r.number }
    requires fresh { IsNew world.old.rows world.old.done }
    ensures { world.new.acting ≡ None }
{
    if !mons.has_condition(c) {
        world.rest(r);
        return Answer::Unable;
    }
    match mons.holder(mons.monitor_of(c)) {
        Some(holder) if holder == r.number() => Answer::Next(delay(world, mons, r, c, rank)),
        _ => {
            world.rest(r);
            Answer::Unable
        }
    }
}

fn resumed(world: &mut World, mons: &mut Monitors, r: Running, c: u32) -> Answer
    requires acts { world.old.acting ≡ Some r.number }
    requires fresh { IsNew world.old.rows world.old.done }
    ensures { world.new.acting ≡ None }
{
    if !mons.has_condition(c) {
        world.rest(r);
        return Answer::Unable;
    }
    match mons.holder(mons.monitor_of(c)) {
        Some(holder) if holder == r.number() => {
            let after = resume(world, mons, r, c);
            went(world, after)
        }
        _ => {
            world.rest(r);
            Answer::Unable
        }
    }
}

/// The place of the first action whose answer is not the one that is owed.
fn first_difference(alloc: Global) -> Result<Option<usize>, Memory> {
    let mut world = five_children(alloc)?;
    let mut mons = Monitors::new(alloc, 1, &[0, 0])?;
    for (at, (p, call, owed)) in ACTIONS.iter().enumerate() {
        if answer_to(&mut world, &mut mons, *p, *call) != *owed {
            return Ok(Some(at));
        }
    }
    Ok(None)
}

#[test]
fn monitors_and_conditions(rt: HostRuntime) -> Result<(), Fail> {
    assert_eq!(rt; first_difference(rt.alloc())?, None);
    Ok(())
}
