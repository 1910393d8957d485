//! Tables of 1,024 processes: the order in which waits end, ranks, due moments, and random transitions beside a
//! plain list of tickets.
ghost use Rattle.std.specs.Prelude.{◌≡◌, ◌<◌, ◌*◌, ◌^◌, true, false, None};
ghost use Rattle.pfc_state.specs.Stands.{Is_ready};
ghost use Rattle.pfc_world.specs.Tables.{at};
ghost use Rattle.pfc_state.specs.Waits.{is_select};

use pfc_base::Memory;
use pfc_world::{After, Arm, Offer, Partner, State, Why, World};
use std::alloc::Global;
use std::test::Fail;

const MOST: u32 = 1024;

const LATEST: u64 = 1_000_000;

/// How many lists the table keeps for each kind of wait, fewer than the numbers of semaphores and channels reach.
const LISTS: u32 = 64;

const SEMAPHORE: Why = Why::Semaphore(0);

/// A table in which nobody acts.
#[derive(Drop)]
struct Trial {
    world: World,
    ghost rests: { world.acting ≡ None },
}

impl Trial {
    /// All children are ready, and main waits at `coend`.
    fn new(alloc: Global) -> Result<Trial, Memory> {
        let world = World::with_processes(alloc, MOST, 4, LISTS)?;
        let mut trial = Trial { world };
        for p in 1..MOST {
            trial.create(p);
        }
        let _ = trial.coend(0);
        Ok(trial)
    }

    fn create(&mut self, p: u32) {
        if p < self.world.processes() {
            let _ = self.world.create(p);
        }
    }

    fn may_act(&self, p: u32) -> bool
        ensures ready { result ≡ true → at self.now.world.rows p ≡ Is_ready }
        ensures done { result ≡ true → self.now.world.done < 10 ^ 18 }
        ensures moment { result ≡ true → self.now.world.moment < 2 * 10 ^ 18 }
    {
        p < self.world.processes()
            && self.world.state(p) == State::Ready
            && self.world.done() < LATEST
            && self.world.now() < LATEST
    }

    /// The process is at `coend`, in an action of its own, where it is ready: whether it waits there.
    fn coend(&mut self, p: u32) -> bool {
        if !self.may_act(p) {
            return false;
        }
        self.world.tick();
        let r = self.world.begin(p);
        match self.world.coend(r) {
            After::Goes(r) => {
                self.world.rest(r);
                false
            }
            After::Waits => true,
        }
    }

    /// The process finishes, in an action of its own, where it is ready.
    fn finish(&mut self, p: u32) {
        if self.may_act(p) {
            self.world.tick();
            let r = self.world.begin(p);
            self.world.finish(r);
        }
    }

    /// The process waits, in an action of its own, where it is ready.
    fn wait(&mut self, p: u32, why: Why)
        requires { is_select why ≡ false }
    {
        if self.may_act(p) {
            self.world.tick();
            let r = self.world.begin(p);
            self.world.block(r, why);
        }
    }

    /// The wait of the process is over, where it waits.
    fn free(&mut self, p: u32) {
        if p < self.world.processes() {
            if let State::Waiting(_why) = self.world.state(p) {
                self.world.wake(p);
            }
        }
    }

    /// The process waits in a select, in an action of its own, where it is ready.
    fn select(&mut self, p: u32, arms: &[Arm], due: Option<u64>) {
        if self.may_act(p) && arms.len() <= self.world.room() as usize {
            self.world.tick();
            let r = self.world.begin(p);
            self.world.block_select(r, arms, due, false);
        }
    }

    fn settle(&mut self) {
        let _ = self.world.settle();
    }

    /// The first ready process, or main where nobody is ready.
    fn first_ready(&self) -> u32 {
        if self.world.ready_count() > 0 {
            self.world.ready_at(0)
        } else {
            0
        }
    }
}

#[test]
fn waits_end_in_order(rt: HostRuntime) -> Result<(), Fail> {
    let mut trial = Trial::new(rt.alloc())?;
    for p in 1..MOST {
        trial.wait(p, SEMAPHORE);
    }
    let mut held = trial.world.ready_count() == 0;
    trial.free(500);
    trial.free(1023);
    for want in 1..MOST {
        let first = trial.world.first_at(SEMAPHORE);
        held = held && (want == 500 || want == 1023 || first == Some(want));
        if first == Some(want) {
            trial.free(want);
        }
    }
    held = held
        && trial.world.first_at(SEMAPHORE).is_none()
        && trial.world.ready_count() == MOST - 1;
    assert!(rt; held);
    Ok(())
}

#[test]
fn only_created_children_are_started(rt: HostRuntime) -> Result<(), Fail> {
    let mut trial = Trial::new(rt.alloc())?;
    let mut held = true;
    for p in 1..200 {
        trial.finish(p);
        held = held && !trial.coend(1000);
        trial.create(p);
        // both of these are refused, and not counted
        trial.create(p);
        trial.create(p + 1);
        held = held && !trial.may_act(p) && trial.coend(p + 500) && trial.may_act(p);
        held = held && !trial.coend(1000);
    }
    assert!(rt; held);
    Ok(())
}

/// Ranks that are equal, rise, fall, and come again and again.
fn rank_of(kind: u32, p: u32) -> i32 {
    let p = (p % 2048) as i32;
    match kind {
        0 => 7,
        1 => p,
        2 => -p,
        _ => p * 37 % 11 - 5,
    }
}

#[test]
fn ranks_come_before_tickets(rt: HostRuntime) -> Result<(), Fail> {
    let mut trial = Trial::new(rt.alloc())?;
    let mut held = true;
    for kind in 0..4 {
        for p in 1..MOST {
            trial.wait(
                p,
                Why::Condition {
                    number: kind,
                    rank: rank_of(kind, p),
                },
            );
        }
        let mut before = (-5000, 0);
        for _i in 1..MOST {
            let next = match trial.world.first_ranked(kind) {
                Some(p) => (rank_of(kind, p), p),
                None => (-6000, 0),
            };
            held = held && before < next;
            trial.free(next.1);
            before = next;
        }
        held = held
            && trial.world.first_ranked(kind).is_none()
            && trial.world.ready_count() == MOST - 1;
    }
    assert!(rt; held);
    Ok(())
}

/// The moment for which a child sleeps: four sleep for each.
fn moment_of(p: u32) -> u64 {
    u64::from(2000 + 10 * (p % 2048 * 7 % 250))
}

#[test]
fn moments_come_in_order(rt: HostRuntime) -> Result<(), Fail> {
    let mut trial = Trial::new(rt.alloc())?;
    for p in 1..1001 {
        trial.wait(p, Why::Sleep(moment_of(p)));
    }
    for p in 1001..MOST {
        trial.wait(p, SEMAPHORE);
    }
    let mut held = true;
    for k in 0..250 {
        trial.settle();
        held = held && trial.world.now() == 2000 + 10 * k && trial.world.ready_count() == 4;
        for _i in 0..4 {
            let p = trial.first_ready();
            held = held && moment_of(p) == 2000 + 10 * k;
            trial.wait(p, SEMAPHORE);
        }
    }
    assert!(rt; held);
    Ok(())
}

/// A wait, as the plain list has it.
#[derive(Clone, Copy)]
struct PlainWait {
    place: u32,
    ticket: u64,
}

/// The process of least ticket at a place, by the plain list, or that of the greatest.
fn sought(waits: &[Option<PlainWait>; 64], place: u32, last: bool) -> Option<u32> {
    let mut best: Option<PlainWait> = None;
    let mut found = None;
    for (p, wait) in waits.iter().enumerate() {
        if let Some(wait) = *wait {
            let better = match best {
                Some(best) => (wait.ticket > best.ticket) == last,
                None => true,
            };
            if wait.place == place && better {
                best = Some(wait);
                found = Some(p as u32);
            }
        }
    }
    found
}

/// A semaphore. Two of the three share a list of the table.
fn semaphore(place: u32) -> Why
    ensures { is_select result ≡ false }
{
    Why::Semaphore(place % 3 * 32)
}

#[test]
fn random_waits_are_those_of_a_plain_list(rt: HostRuntime) -> Result<(), Fail> {
    let mut trial = Trial::new(rt.alloc())?;
    let mut waits: [Option<PlainWait>; 64] = [None; 64];
    let mut word: u64 = 1;
    let mut held = true;
    for _i in 0..3000 {
        word = word.wrapping_mul(75) % 65537;
        let p = (word % 64) as u32;
        let place = (word / 64 % 3) as u32;
        if p > 0 && waits[p as usize].is_none() {
            trial.wait(p, semaphore(place));
            waits[p as usize] = Some(PlainWait {
                place,
                ticket: trial.world.done() + 1,
            });
        } else if p > 0 {
            trial.free(p);
            waits[p as usize] = None;
        }
        for place in 0..3 {
            held = held && trial.world.first_at(semaphore(place)) == sought(&waits, place, false);
            held = held && trial.world.last_at(semaphore(place)) == sought(&waits, place, true);
        }
    }
    assert!(rt; held);
    Ok(())
}

/// Whether the first 64 children stand as the plain list of due moments says.
fn stand_as(trial: &Trial, dues: &[Option<u64>; 64]) -> bool {
    let mut held = true;
    for (p, due) in dues.iter().enumerate() {
        let p = p as u32;
        if p > 0 && p < trial.world.processes() {
            held = held && (trial.world.state(p) == State::Ready) == due.is_none();
        }
    }
    held
}

#[test]
fn random_moments_are_those_of_a_plain_list(rt: HostRuntime) -> Result<(), Fail> {
    let mut trial = Trial::new(rt.alloc())?;
    let mut dues: [Option<u64>; 64] = [None; 64];
    let mut word: u64 = 1;
    let mut held = true;
    for _i in 0..3000 {
        word = word.wrapping_mul(75) % 65537;
        let p = (word % 64) as u32;
        let due = trial.world.now().wrapping_add(word / 64 % 50);
        if p > 0 && dues[p as usize].is_some() {
            trial.free(p);
            dues[p as usize] = None;
        } else if p % 2 == 1 {
            trial.wait(p, Why::Sleep(due));
            dues[p as usize] = Some(due);
        } else if p > 0 {
            trial.select(p, &[Arm::Receive(p)], Some(due));
            dues[p as usize] = Some(due);
        }
        trial.settle();
        let now = trial.world.now();
        for due in dues.iter_mut() {
            if due.is_some_and(|moment| moment <= now) {
                *due = None;
            }
        }
        held = held && stand_as(&trial, &dues);
    }
    assert!(rt; held);
    Ok(())
}

/// Which process is freed, and who is first to offer to receive and to send then.
static OFFERS: [(u32, Option<Offer>, Option<Offer>); 5] = [
    (
        9,
        Some(Offer { process: 1, arm: 1 }),
        Some(Offer { process: 3, arm: 1 }),
    ),
    (
        2,
        Some(Offer { process: 1, arm: 1 }),
        Some(Offer { process: 3, arm: 1 }),
    ),
    (
        1,
        Some(Offer { process: 3, arm: 0 }),
        Some(Offer { process: 3, arm: 1 }),
    ),
    (3, Some(Offer { process: 4, arm: 2 }), None),
    (4, None, None),
];

#[test]
fn alternatives_at_one_channel(rt: HostRuntime) -> Result<(), Fail> {
    let mut trial = Trial::new(rt.alloc())?;
    trial.select(1, &[Arm::Send(1), Arm::Receive(0), Arm::Receive(0)], None);
    trial.select(2, &[Arm::Receive(0)], None);
    trial.select(3, &[Arm::Receive(0), Arm::Send(0)], Some(900_000));
    trial.select(4, &[Arm::Accept(0), Arm::Send(1), Arm::Receive(0)], None);
    let mut held = true;
    for (p, receives, sends) in OFFERS.iter() {
        trial.free(*p);
        held = held
            && trial.world.first_offer(Arm::Receive(0)) == *receives
            && trial.world.first_offer(Arm::Send(0)) == *sends;
    }
    assert!(rt; held);
    Ok(())
}

/// A process that is met in a select, or in a plain statement.
fn met(process: u32, alternative: Option<u32>) -> Option<Partner> {
    Some(Partner {
        process,
        alternative,
    })
}

#[test]
fn partners_at_one_channel_in_turn(rt: HostRuntime) -> Result<(), Fail> {
    let mut trial = Trial::new(rt.alloc())?;
    // selects and plain waits by turns; channels 3 and 67 share a list, and so do two alternatives of process 7
    trial.select(5, &[Arm::Send(3), Arm::Receive(67)], None);
    trial.select(6, &[Arm::Receive(3), Arm::Accept(3)], None);
    trial.wait(2, Why::Receive(3));
    trial.select(
        7,
        &[
            Arm::Receive(67),
            Arm::Accept(0),
            Arm::Receive(3),
            Arm::Receive(3),
        ],
        None,
    );
    trial.wait(1, Why::Receive(3));
    trial.select(8, &[Arm::Receive(3)], Some(900_000));
    let mut held = trial.world.first_open_to(Arm::Receive(67)) == met(5, Some(1))
        && trial.world.first_open_to(Arm::Accept(3)) == met(6, Some(1))
        && trial.world.first_open_to(Arm::Send(67)).is_none();
    let turns = [
        (6, met(6, Some(0))),
        (2, met(2, None)),
        (8, met(7, Some(2))),
        (7, met(7, Some(2))),
        (1, met(1, None)),
    ];
    for (p, partner) in turns.iter() {
        held = held && trial.world.first_open_to(Arm::Receive(3)) == *partner;
        trial.free(*p);
    }
    held = held && trial.world.first_open_to(Arm::Receive(3)).is_none();
    assert!(rt; held);
    Ok(())
}

#[test]
fn a_select_withdrawn_from_the_middle(rt: HostRuntime) -> Result<(), Fail> {
    let mut trial = Trial::new(rt.alloc())?;
    let mut held = true;
    for p in 1..MOST {
        trial.select(p, &[Arm::Receive(0), Arm::Send(1), Arm::Receive(0)], None);
    }
    trial.free(512);
    trial.select(512, &[Arm::Send(1), Arm::Accept(0)], None);
    for p in 1..MOST {
        let receiver = trial.world.first_offer(Arm::Receive(0));
        let sender = trial.world.first_offer(Arm::Send(1));
        held = held
            && (p == 512 || receiver == Some(Offer { process: p, arm: 0 }))
            && (p == 512 || sender == Some(Offer { process: p, arm: 1 }));
        if p != 512 {
            trial.free(p);
        }
    }
    held = held
        && trial.world.first_offer(Arm::Receive(0)).is_none()
        && trial.world.first_offer(Arm::Send(1))
            == Some(Offer {
                process: 512,
                arm: 0,
            })
        && trial.world.first_offer(Arm::Accept(0))
            == Some(Offer {
                process: 512,
                arm: 1,
            });
    assert!(rt; held);
    Ok(())
}

/// A wait in a select with two alternatives, as the plain list has it.
#[derive(Clone, Copy)]
struct PlainSelect {
    arms: [Arm; 2],
    ticket: u64,
}

/// The process of least ticket that waits with the alternative, by the plain list, and its first place there.
fn offer_sought(waits: &[Option<PlainSelect>; 64], arm: Arm) -> Option<Offer> {
    let mut least = LATEST;
    let mut found = None;
    for (p, wait) in waits.iter().enumerate() {
        if let Some(wait) = *wait {
            if wait.ticket < least && (wait.arms[0] == arm || wait.arms[1] == arm) {
                least = wait.ticket;
                found = Some(Offer {
                    process: p as u32,
                    arm: u32::from(wait.arms[0] != arm),
                });
            }
        }
    }
    found
}

/// An alternative. Channel 0 shares its list with channel 64, and no channel with an entry.
fn alternative(word: u64) -> Arm {
    let number = (word / 3 % 3 * 32) as u32;
    match word % 3 {
        0 => Arm::Send(number),
        1 => Arm::Receive(number),
        _ => Arm::Accept(number),
    }
}

#[test]
fn random_selects_are_those_of_a_plain_list(rt: HostRuntime) -> Result<(), Fail> {
    let mut trial = Trial::new(rt.alloc())?;
    let mut waits: [Option<PlainSelect>; 64] = [None; 64];
    let mut word: u64 = 1;
    let mut held = true;
    for _i in 0..3000 {
        word = word.wrapping_mul(75) % 65537;
        let p = (word % 64) as u32;
        let arms = [alternative(word / 64), alternative(word / 640)];
        if p > 0 && waits[p as usize].is_none() {
            trial.select(p, &arms, None);
            waits[p as usize] = Some(PlainSelect {
                arms,
                ticket: trial.world.done(),
            });
        } else if p > 0 {
            trial.free(p);
            waits[p as usize] = None;
        }
        for kind in 0..9 {
            let arm = alternative(kind);
            held = held && trial.world.first_offer(arm) == offer_sought(&waits, arm);
        }
    }
    assert!(rt; held);
    Ok(())
}
