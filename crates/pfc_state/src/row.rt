//! The place of one process in the table.
ghost use Rattle.std.specs.Prelude.{◌≡◌, ◌≤◌, false, length, IfOk, []};
ghost use Rattle.pfc_state.specs.Seats.{seated, vacated};
ghost use Rattle.pfc_state.specs.Stands.{Is_idle, Is_created, Is_ready, Waits, Is_done, IsWaiting, state_of, ticket_of, arms_of, due_of, is_ready};
ghost use Rattle.pfc_state.specs.Stands.{is_created, is_unfinished, is_at_coend, may_end, started, woken, is_above, ticket_at, rank_on, ticket_offering};
ghost use Rattle.pfc_state.specs.Stands.{ticket_barred};
ghost use Rattle.pfc_state.specs.Waits.{is_select, has_arm, place_of_arm};

use crate::offers::Offers;
use crate::{Arm, Created, Done, Idle, Ready, Running, State, Waiting, Why};
use pfc_base::Memory;
use std::alloc::Global;
use std::marker::Model;
use std::mem;

/// What the place of a process holds: the typed state of the process, or its number.
#[derive(Drop)]
pub enum Slot {
    Idle(Idle),
    Created(Created),
    Ready(Ready),
    /// the number of the process whose state is away, because it acts
    Acting(u32),
    Waiting(Waiting),
    Done(Done),
}

/// The place of one process in the table of processes. It holds the state of the process, but for
/// while the process acts, and room for the alternatives of its selects.
#[derive(Drop)]
pub struct Row {
    slot: Slot,
    offers: Offers,
}

impl Model for Row {
    ghost use Rattle.pfc_state.specs.Seats.{Seat};

    ghost Value = { Seat };

    ghost use Rattle.pfc_state.specs.Slots.{seat_in};

    ghost view = { λ r. seat_in r.slot r.offers.arms r.offers.room };
}

impl Row {
    /// The place of an idle process, with room for this many alternatives. Its only refusal is want of
    /// memory. Only the table of processes makes places.
    pub fn new(alloc: Global, number: u32, room: u32) -> Result<Row, Memory>
        ensures { IfOk result (λ row. row ≡ record { number = number; away = false; stand = Is_idle; room = room }) }
    {
        let offers = Offers::new(alloc, room)?;
        Ok(Row {
            slot: Slot::Idle(Idle::new(number)),
            offers,
        })
    }

    /// The process acts.
    pub fn begin(&mut self) -> Running
        requires { self.old ≡ seated self.old Is_ready }
        ensures number { result.number ≡ self.old.number }
        ensures row { self.new ≡ vacated self.old }
    {
        let Slot::Ready(ready) = mem::replace(&mut self.slot, Slot::Acting(0)) else {
            unreachable!()
        };
        self.slot = Slot::Acting(ready.number());
        ready.start()
    }

    /// The process has acted and may act again.
    pub fn rest(&mut self, r: Running)
        requires { r.number ≡ self.old.number }
        ensures { self.new ≡ seated self.old Is_ready }
    {
        self.slot = Slot::Ready(r.rest());
    }

    /// The process waits, since the action of this number.
    pub fn block(&mut self, r: Running, why: Why, ticket: u64)
        requires number { r.number ≡ self.old.number }
        requires plain { is_select why ≡ false }
        ensures { self.new ≡ seated self.old (Waits why ticket []) }
    {
        self.slot = Slot::Waiting(r.wait(why, ticket));
    }

    /// The process waits in a select with these alternatives, since the action of this number.
    pub fn block_select(
        &mut self,
        r: Running,
        arms: &[Arm],
        due: Option<u64>,
        terminate: bool,
        ticket: u64,
    )
        requires number { r.number ≡ self.old.number }
        requires room { length arms.now ≤ self.old.room }
        ensures { self.new ≡ seated self.old (Waits (Why.Select due terminate) ticket arms.now) }
    {
        self.offers.offer(arms);
        self.slot = Slot::Waiting(r.wait(Why::Select { due, terminate }, ticket));
    }

    /// The process has finished.
    pub fn finish(&mut self, r: Running)
        requires { r.number ≡ self.old.number }
        ensures { self.new ≡ seated self.old Is_done }
    {
        self.slot = Slot::Done(r.finish());
    }

    /// The wait of the process is over.
    pub fn wake(&mut self)
        requires { IsWaiting self.old.stand }
        ensures { self.new ≡ record self.old { stand = Is_ready } }
    {
        let Slot::Waiting(waiting) = mem::replace(&mut self.slot, Slot::Acting(0)) else {
            unreachable!()
        };
        self.slot = Slot::Ready(waiting.wake());
    }

    /// The process finishes where it waits.
    pub fn end(&mut self)
        requires { IsWaiting self.old.stand }
        ensures { self.new ≡ record self.old { stand = Is_done } }
    {
        let Slot::Waiting(waiting) = mem::replace(&mut self.slot, Slot::Acting(0)) else {
            unreachable!()
        };
        self.slot = Slot::Done(waiting.end());
    }

    /// The process is activated.
    pub fn create(&mut self)
        requires { is_unfinished self.old.stand ≡ false }
        ensures { self.new ≡ record self.old { stand = Is_created } }
    {
        self.slot = match mem::replace(&mut self.slot, Slot::Acting(0)) {
            Slot::Idle(idle) => Slot::Created(idle.create()),
            Slot::Done(done) => Slot::Created(done.create()),
            _ => unreachable!(),
        };
    }

    /// The process may act where it was created.
    pub fn start_created(&mut self)
        ensures { self.new ≡ record self.old { stand = started self.old.stand } }
    {
        self.slot = match mem::replace(&mut self.slot, Slot::Acting(0)) {
            Slot::Created(created) => Slot::Ready(created.start()),
            other => other,
        };
    }

    /// The process may act where its due moment has come.
    pub fn wake_due(&mut self, moment: u64)
        ensures { self.new ≡ record self.old { stand = woken moment self.old.stand } }
    {
        if self.due().is_some_and(|due| due <= moment) {
            self.wake();
        }
    }
}

impl Row {
    /// The standing of the process.
    pub fn state(&self) -> State
        ensures { result ≡ state_of self.now.stand }
    {
        match &self.slot {
            Slot::Idle(_) => State::Idle,
            Slot::Created(_) => State::Created,
            Slot::Ready(_) | Slot::Acting(_) => State::Ready,
            Slot::Waiting(waiting) => State::Waiting(waiting.why()),
            Slot::Done(_) => State::Done,
        }
    }

    /// The number of the action that began the wait of the process, from 1.
    pub fn ticket(&self) -> Option<u64>
        ensures { result ≡ ticket_of self.now.stand }
    {
        match &self.slot {
            Slot::Waiting(waiting) => Some(waiting.ticket()),
            _ => None,
        }
    }

    /// The alternatives that the process offers, where it waits in a select.
    pub fn arms(&self) -> &[Arm]
        ensures { result.now ≡ arms_of self.now.stand }
    {
        match &self.slot {
            Slot::Waiting(waiting) if is_of_select(waiting.why()) => self.offers.arms(),
            _ => &[],
        }
    }

    /// The first place of the alternative, from 0, among those that the process offers.
    pub fn place_of_arm(&self, arm: Arm) -> Option<u32>
        ensures { result ≡ place_of_arm arm (arms_of self.now.stand) }
    {
        match &self.slot {
            Slot::Waiting(waiting) if is_of_select(waiting.why()) => self.offers.place_of(arm),
            _ => None,
        }
    }

    /// The moment at which the process becomes ready by itself.
    pub fn due(&self) -> Option<u64>
        ensures { result ≡ due_of self.now.stand }
    {
        match &self.slot {
            Slot::Waiting(waiting) => match waiting.why() {
                Why::Sleep(moment) => Some(moment),
                Why::Select { due, .. } => due,
                _ => None,
            },
            _ => None,
        }
    }

    /// The ticket of the process, where its wait is this one.
    pub fn ticket_at(&self, why: Why) -> Option<u64>
        ensures { result ≡ ticket_at why self.now.stand }
    {
        match &self.slot {
            Slot::Waiting(waiting) if waiting.why().is_same(why) => Some(waiting.ticket()),
            _ => None,
        }
    }

    /// The rank of the process, where it waits on this condition.
    pub fn rank_on(&self, condition: u32) -> Option<i32>
        ensures { result ≡ rank_on condition self.now.stand }
    {
        match &self.slot {
            Slot::Waiting(waiting) => match waiting.why() {
                Why::Condition { number, rank } if number == condition => Some(rank),
                _ => None,
            },
            _ => None,
        }
    }

    /// The ticket of the process, where it waits in a select with this alternative.
    pub fn ticket_offering(&self, arm: Arm) -> Option<u64>
        ensures { result ≡ ticket_offering arm self.now.stand }
    {
        match &self.slot {
            Slot::Waiting(waiting)
                if is_of_select(waiting.why()) && has_arm(self.offers.arms(), arm) => Some(
                waiting.ticket(),
            ),
            _ => None,
        }
    }

    /// The ticket of the process, where it is barred at a procedure of the resource and the ticket is
    /// above `after`; any ticket is above None.
    pub fn ticket_barred(&self, resource: u32, after: Option<u64>) -> Option<u64>
        ensures { result ≡ ticket_barred resource after self.now.stand }
    {
        match &self.slot {
            Slot::Waiting(waiting) => match waiting.why() {
                Why::Barred {
                    resource: barred_at,
                    ..
                } if barred_at == resource && is_above(waiting.ticket(), after) => Some(
                    waiting.ticket(),
                ),
                _ => None,
            },
            _ => None,
        }
    }

    /// Whether the process is ready or acts.
    pub fn is_ready(&self) -> bool
        ensures { result ≡ is_ready self.now.stand }
    {
        match &self.slot {
            Slot::Ready(_) | Slot::Acting(_) => true,
            _ => false,
        }
    }

    /// Whether the process is activated, and has not begun.
    pub fn is_created(&self) -> bool
        ensures { result ≡ is_created self.now.stand }
    {
        match &self.slot {
            Slot::Created(_) => true,
            _ => false,
        }
    }

    /// Whether the process was activated and has not finished since.
    pub fn is_unfinished(&self) -> bool
        ensures { result ≡ is_unfinished self.now.stand }
    {
        match &self.slot {
            Slot::Idle(_) | Slot::Done(_) => false,
            _ => true,
        }
    }

    /// Whether the process waits at `coend`.
    pub fn is_at_coend(&self) -> bool
        ensures { result ≡ is_at_coend self.now.stand }
    {
        match &self.slot {
            Slot::Waiting(waiting) => match waiting.why() {
                Why::Coend => true,
                _ => false,
            },
            _ => false,
        }
    }
}

impl Row {
    /// Whether the process waits in a select with an open `terminate`.
    pub fn may_end(&self) -> bool
        ensures { result ≡ may_end self.now.stand }
    {
        match &self.slot {
            Slot::Waiting(waiting) => match waiting.why() {
                Why::Select { terminate, .. } => terminate,
                _ => false,
            },
            _ => false,
        }
    }
}

/// Whether a wait is that of a select.
fn is_of_select(why: Why) -> bool
    ensures { result ≡ is_select why }
{
    match why {
        Why::Select { .. } => true,
        _ => false,
    }
}

/// Whether the alternative is among these.
fn has_arm(arms: &[Arm], arm: Arm) -> bool
    ensures { result ≡ has_arm arm arms.now }
{
    arms.iter().any(|a| a.is_same(arm))
}

/// Whether the ticket is above another, as any is above None.
fn is_above(ticket: u64, after: Option<u64>) -> bool
    ensures { result ≡ is_above after ticket }
{
    match after {
        Some(after) => ticket > after,
        None => true,
    }
}
