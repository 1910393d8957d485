//! A table of four processes: each transition, each refusal and each case of settling.
ghost use Rattle.std.specs.Prelude.{◌≡◌, None, Some, [], ◌∷◌, length, IfOk};
ghost use Rattle.pfc_state.specs.Stands.{Is_idle, Is_ready, Waits};
ghost use Rattle.pfc_world.specs.Tickets.{IsNew};

use pfc_base::{Memory, RunFault};
use pfc_world::{After, Arm, Offer, Settled, State, Why, World};
use std::alloc::Global;
use std::test::Fail;

const AT_COEND: State = State::Waiting(Why::Coend);

/// The states of the four processes.
fn states(world: &World) -> [State; 4]
    requires { length world.now.rows ≡ 4 }
{
    [
        world.state(0),
        world.state(1),
        world.state(2),
        world.state(3),
    ]
}

/// After one action main waits at `coend`, the processes 1 and 2 are ready, and 3 is idle.
fn two_children(alloc: Global) -> Result<World, Memory>
    ensures world { IfOk result (λ w. w ≡ record {
      rows = Waits Why.Coend 1 [] ∷ Is_ready ∷ Is_ready ∷ Is_idle ∷ [];
      acting =
          None;
      done = 1;
      moment = 1;
      room = 2;
    }) }
    ensures fresh { IfOk result (λ w. IsNew w.rows w.done) }
{
    let mut world = World::with_processes(alloc, 4, 2, 16)?;
    let _ = world.create(1);
    let _ = world.create(2);
    let main = world.begin(0);
    match world.coend(main) {
        After::Goes(r) => world.rest(r),
        After::Waits => {}
    }
    world.tick();
    Ok(world)
}

fn children_are_activated(alloc: Global) -> Result<[bool; 4], Memory> {
    let mut world = World::with_processes(alloc, 4, 2, 16)?;
    let counts = (world.processes(), world.room(), world.done(), world.now());
    let main = world.begin(0);
    let goes = match world.coend(main) {
        After::Goes(r) => {
            world.rest(r);
            true
        }
        After::Waits => false,
    };
    let created = (world.create(1), world.create(1), world.create(0));
    let left = [State::Ready, State::Created, State::Idle, State::Idle];
    Ok([
        counts == (4, 2, 0, 0),
        goes,
        created == (Ok(()), Err(RunFault::Active), Err(RunFault::Active)),
        states(&world) == left,
    ])
}

fn the_last_child_ends_the_wait_of_main(alloc: Global) -> Result<[bool; 3], Memory> {
    let mut world = two_children(alloc)?;
    let child = world.begin(1);
    world.finish(child);
    let between = states(&world);
    let child = world.begin(2);
    world.finish(child);
    let left = states(&world);
    Ok([
        between == [AT_COEND, State::Done, State::Ready, State::Idle],
        left == [State::Ready, State::Done, State::Done, State::Idle],
        world.create(1) == Ok(()),
    ])
}

fn the_first_is_who_waits_longest(alloc: Global) -> Result<[bool; 4], Memory> {
    let mut world = two_children(alloc)?;
    let child = world.begin(2);
    world.block(child, Why::Semaphore(7));
    world.tick();
    let child = world.begin(1);
    world.block(child, Why::Semaphore(7));
    let tickets = (world.ticket(2), world.ticket(1), world.ticket(3));
    let ends = (
        world.first_at(Why::Semaphore(7)),
        world.last_at(Why::Semaphore(7)),
    );
    let others = (world.first_at(Why::Semaphore(8)), world.last_at(Why::Coend));
    world.wake(2);
    let left = (world.first_at(Why::Semaphore(7)), world.state(2));
    Ok([
        tickets == (Some(2), Some(3), None),
        ends == (Some(2), Some(1)),
        others == (None, Some(0)),
        left == (Some(1), State::Ready),
    ])
}

fn a_select_offers_its_alternatives(alloc: Global) -> Result<[bool; 4], Memory> {
    let mut world = two_children(alloc)?;
    let child = world.begin(1);
    world.block_select(child, &[Arm::Accept(0), Arm::Send(3)], None, true);
    let sender = world.first_offer(Arm::Send(3));
    let receiver = world.first_offer(Arm::Receive(3));
    let offered = (world.arms(1).len(), world.arms(2).len());
    world.end_select(1);
    Ok([
        sender == Some(Offer { process: 1, arm: 1 }),
        receiver.is_none(),
        offered == (2, 0),
        states(&world) == [AT_COEND, State::Done, State::Ready, State::Idle],
    ])
}

fn the_barred_are_found_by_ticket(alloc: Global) -> Result<[bool; 3], Memory> {
    let mut world = two_children(alloc)?;
    let child = world.begin(1);
    world.block(
        child,
        Why::Barred {
            resource: 4,
            procedure: 0,
        },
    );
    world.tick();
    let child = world.begin(2);
    world.block(
        child,
        Why::Barred {
            resource: 4,
            procedure: 1,
        },
    );
    Ok([
        (world.next_barred(4, None), world.next_barred(5, None)) == (Some(1), None),
        (world.next_barred(4, Some(2)), world.next_barred(4, Some(3))) == (Some(2), None),
        // another ticket than that of the one found last
        (world.next_barred(4, Some(2)), world.next_barred(4, Some(1))) == (Some(2), Some(1)),
    ])
}

fn the_clock_goes_to_the_earliest_moment(alloc: Global) -> Result<[bool; 2], Memory> {
    let mut world = two_children(alloc)?;
    let child = world.begin(1);
    world.block(child, Why::Sleep(9));
    world.tick();
    let child = world.begin(2);
    world.block_select(child, &[Arm::Receive(0)], Some(9), false);
    world.tick();
    let settled = (world.settle(), world.now(), world.done());
    Ok([
        settled == (Settled::SomeReady, 9, 3),
        states(&world) == [AT_COEND, State::Ready, State::Ready, State::Idle],
    ])
}

fn who_is_due_is_woken_without_a_move_of_the_clock(alloc: Global) -> Result<[bool; 4], Memory> {
    let mut world = two_children(alloc)?;
    let child = world.begin(1);
    world.block(child, Why::Sleep(2));
    let early = (world.settle(), world.now());
    let sleeps = world.state(1);
    world.tick();
    let due = (world.settle(), world.now());
    Ok([
        early == (Settled::SomeReady, 1),
        sleeps == State::Waiting(Why::Sleep(2)),
        due == (Settled::SomeReady, 2),
        world.state(1) == State::Ready,
    ])
}

fn nobody_may_be_left(alloc: Global) -> Result<bool, Memory> {
    let mut world = World::with_processes(alloc, 4, 0, 16)?;
    let main = world.begin(0);
    world.block(main, Why::Condition { number: 2, rank: 0 });
    Ok((world.settle(), world.now()) == (Settled::NobodyReady, 0))
}

#[test]
fn transitions(rt: HostRuntime) -> Result<(), Fail> {
    assert!(rt; children_are_activated(rt.alloc())? == [true; 4]);
    assert!(rt; the_last_child_ends_the_wait_of_main(rt.alloc())? == [true; 3]);
    assert!(rt; a_select_offers_its_alternatives(rt.alloc())? == [true; 4]);
    Ok(())
}

#[test]
fn who_is_first(rt: HostRuntime) -> Result<(), Fail> {
    assert!(rt; the_first_is_who_waits_longest(rt.alloc())? == [true; 4]);
    assert!(rt; the_barred_are_found_by_ticket(rt.alloc())? == [true; 3]);
    Ok(())
}

#[test]
fn settling(rt: HostRuntime) -> Result<(), Fail> {
    assert!(rt; the_clock_goes_to_the_earliest_moment(rt.alloc())? == [true; 2]);
    assert!(rt; who_is_due_is_woken_without_a_move_of_the_clock(rt.alloc())? == [true; 4]);
    assert!(rt; nobody_may_be_left(rt.alloc())?);
    Ok(())
}
