//! Picks over a table of four processes of which two are ready, and draws.
ghost use Rattle.std.specs.Prelude.{◌≡◌, ◌<◌, None, Some, [], ◌∷◌, IfOk};
ghost use Rattle.pfc_state.specs.Stands.{Is_idle, Is_ready, Waits};

use pfc_base::{Memory, RunFault};
use pfc_sched::{Draws, Pick, Picker, Picks, Policy};
use pfc_world::{After, Why, World};
use rand_core::utils::NextWord;
use rand_pcg::Lcg64Xsh32;
use std::alloc::Global;
use std::test::Fail;

/// Main waits at `coend`, the processes 1 and 2 are ready, and 3 is idle.
fn two_ready(alloc: Global) -> Result<World, Memory>
    ensures { IfOk result (λ w. w ≡ record {
      rows = Waits Why.Coend 1 [] ∷ Is_ready ∷ Is_ready ∷ Is_idle ∷ [];
      acting =
          None;
      done = 0;
      moment = 0;
      room = 0;
    }) }
{
    let mut world = World::with_processes(alloc, 4, 0, 16)?;
    let _ = world.create(1);
    let _ = world.create(2);
    let main = world.begin(0);
    match world.coend(main) {
        After::Goes(r) => world.rest(r),
        After::Waits => {}
    }
    Ok(world)
}

/// Main waits on a semaphore, and there is no other process.
fn nobody_ready(alloc: Global) -> Result<World, Memory> {
    let mut world = World::with_processes(alloc, 1, 0, 16)?;
    let main = world.begin(0);
    world.block(main, Why::Semaphore(0));
    Ok(world)
}

fn script_of(alloc: Global, numbers: &[u32]) -> Result<Policy, Memory> {
    let mut picks = Picks::new(alloc);
    for number in numbers {
        picks.push(*number)?;
    }
    Ok(Policy::Script(picks))
}

/// Whether the picks come one behind the other, each with the number of the script's item, and then this choice among so many.
fn are_picked(world: &World, policy: Policy, picks: &[(Pick, u64)], among: u32, choice: u32) -> bool
    requires { 0 < among }
{
    let mut picker = Picker::new(policy);
    for (pick, item) in picks {
        if picker.pick(world) != *pick || picker.item() != *item {
            return false;
        }
    }
    picker.choose(among) == choice
}

static FAIR: [(Pick, u64); 6] = [
    (Pick::Process(2), 0),
    (Pick::Process(1), 0),
    (Pick::Process(2), 0),
    (Pick::Process(2), 0),
    (Pick::Process(1), 0),
    (Pick::Process(2), 0),
];

static UNFAIR: [(Pick, u64); 3] = [
    (Pick::Process(1), 0),
    (Pick::Process(1), 0),
    (Pick::Process(1), 0),
];

static SCRIPT: [(Pick, u64); 6] = [
    (Pick::Process(1), 1),
    (Pick::Process(2), 2),
    (Pick::NotReady(3), 3),
    (Pick::NoProcess(9), 4),
    (Pick::ScriptEnd, 5),
    (Pick::ScriptEnd, 5),
];

static NOBODY: [(Pick, u64); 1] = [(Pick::Nobody, 0)];

#[test]
fn each_policy_picks(rt: HostRuntime) -> Result<(), Fail> {
    let world = two_ready(rt.alloc())?;
    let script = script_of(rt.alloc(), &[1, 2, 3, 9])?;
    assert!(rt; are_picked(&world, Policy::Fair { seed: 1 }, &FAIR, 10, 6));
    assert!(rt; are_picked(&world, Policy::Unfair, &UNFAIR, 10, 0));
    assert!(rt; are_picked(&world, script, &SCRIPT, 10, 0));
    Ok(())
}

#[test]
fn nobody_takes_no_word_and_no_item(rt: HostRuntime) -> Result<(), Fail> {
    let world = nobody_ready(rt.alloc())?;
    let script = script_of(rt.alloc(), &[0])?;
    assert!(rt;
        are_picked(
            &world,
            Policy::Fair { seed: 1 },
            &NOBODY,
            1_000_000,
            776_849
        )
    );
    assert!(rt; are_picked(&world, script, &NOBODY, 10, 0));
    Ok(())
}

static DRAWS: [(i64, Result<i64, RunFault>); 4] = [
    (0, Ok(0)),
    (2_147_483_647, Ok(1_540_837_979)),
    (-1, Err(RunFault::Below)),
    (9, Ok(5)),
];

#[test]
fn draws_are_modulo(rt: HostRuntime) {
    let mut draws = Draws::new(1);
    for (n, drawn) in &DRAWS {
        assert!(rt; draws.draw(*n) == *drawn, "at {n}");
    }
}

/// The first words that are published for the seed 42 and the stream 54.
static WORDS: [u32; 6] = [
    0xa15c02b7, 0x7b47f409, 0xba1d3330, 0x83d2f293, 0xbfa4784b, 0xcbed606e,
];

#[test]
fn words_are_the_published_ones(rt: HostRuntime) {
    let mut words = Lcg64Xsh32::new(42, 54);
    for word in WORDS {
        assert!(rt; words.next_word() == word);
    }
}
