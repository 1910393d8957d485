//! The rows of the table: what each process stands at, who acts, the number of actions done, and the clock.
ghost use Rattle.std.specs.Prelude.{◌≡◌, ℕ, ◌+◌, ◌*◌, ◌^◌, ◌<◌, ◌≤◌, true, false, None, Some, Option};
ghost use Rattle.std.specs.Prelude.{[], length, map, is_some, IfOk, IfSome, MatchOption};
ghost use Rattle.pfc_state.specs.declared.waits.Why.{Why};
ghost use Rattle.pfc_state.specs.Stands.{Is_ready, Waits, Is_done, IsWaiting, is_ready, is_unfinished, is_at_coend, state_of};
ghost use Rattle.pfc_state.specs.Stands.{ticket_of, arms_of, may_end, ticket_at, ticket_barred, ticket_offering};
ghost use Rattle.pfc_state.specs.Waits.{is_select, place_of_arm};
ghost use Rattle.pfc_world.specs.Coend.{IsAtCoend};
ghost use Rattle.pfc_world.specs.Firsts.{offer_at};
ghost use Rattle.pfc_world.specs.Tables.{at, start_table, some_ready};
ghost use Rattle.pfc_world.specs.Tickets.{AreTickets, IsNew};
ghost use Rattle.pfc_world.specs.Transitions.{begun, rested, placed, blocked, is_released, released, ended, finished, all_started, ticked, IsCreation};

use crate::walks::start_all;
use crate::{Arm, Offer, Running, State, Why};
use pfc_base::{Memory, RunFault};
use pfc_state::Row;
use std::alloc::Global;
use std::marker::Model;

/// The table of processes, the number of actions done, and the clock. Processes are numbered from 0,
/// main being 0. Contracts see what each process stands at, who acts, the number of actions, the
/// clock, and the room for alternatives; and a process that acts stands there as ready.
#[derive(Drop)]
pub(crate) struct Rows {
    rows: Vec<Row>,
    acting: Option<u32>,
    done: u64,
    moment: u64,
    room: u32,
}

impl Model for Rows {
    ghost use Rattle.pfc_world.specs.Tables.{Table};
    ghost use Rattle.pfc_world.specs.Rows.{table_of, AreTied};

    ghost Value = { Table };

    ghost view = { λ w. table_of w.rows.items w.acting w.done w.moment w.room };

    ghost invariant = { λ w. AreTied w.rows.items w.acting w.done w.room };
}

impl Rows {
    /// The table of n processes, each with room for this many alternatives: main is ready, the others are
    /// idle, and the clock is at 0. Its only refusal is want of memory; no other call takes memory.
    pub(crate) fn with_processes(alloc: Global, n: u32, arms: u32) -> Result<Rows, Memory>
        requires some { 0 < n }
        requires few { n ≤ 1024 }
        ensures table { IfOk result (λ table. table ≡ start_table n arms) }
        ensures fresh { IfOk result (λ table. IsNew table.rows table.done) }
    {
        let mut rows = Vec::with_capacity(alloc, n as usize)?;
        for p in 0..n {
            rows.push(Row::new(alloc, p, arms)?)?;
        }
        let main = &mut rows[0];
        main.create();
        main.start_created();
        Ok(Rows {
            rows,
            acting: None,
            done: 0,
            moment: 0,
            room: arms,
        })
    }

    /// The number of processes, main included: from 1 to 1,024.
    pub(crate) fn processes(&self) -> u32
        ensures count { result ≡ length self.now.rows }
        ensures some { 0 < result }
        ensures few { result ≤ 1024 }
        ensures acting { (p : ℕ) → self.now.acting ≡ Some p → at self.now.rows p ≡ Is_ready }
    {
        self.rows.len() as u32
    }

    /// The number of actions done, from 0 to 10^18.
    pub(crate) fn done(&self) -> u64
        ensures count { result ≡ self.now.done }
        ensures few { result ≤ 10 ^ 18 }
        ensures tickets { AreTickets self.now.rows self.now.done }
    {
        self.done
    }

    /// The clock: a moment from 0 on, one more after each action.
    pub(crate) fn now(&self) -> u64
        ensures { result ≡ self.now.moment }
    {
        self.moment
    }

    /// How many alternatives a process may offer in a select.
    pub(crate) fn room(&self) -> u32
        ensures { result ≡ self.now.room }
    {
        self.room
    }

    /// The standing of a process.
    pub(crate) fn state(&self, p: u32) -> State
        requires { p < length self.now.rows }
        ensures state { result ≡ state_of (at self.now.rows p) }

        // what a test of the answer tells of the process
        ensures ready { result ≡ State.Ready → at self.now.rows p ≡ Is_ready }
        ensures waits { (why : Why) → result ≡ State.Waiting why → IsWaiting (at self.now.rows p) }
        ensures ends { (due : Option ℕ) → result ≡ State.Waiting (Why.Select due true) → may_end (at self.now.rows p) ≡ true }
    {
        let row = &self.rows[p as usize];
        row.state()
    }

    /// Whether a process is ready or acts.
    pub(crate) fn is_ready(&self, p: u32) -> bool
        requires { p < length self.now.rows }
        ensures { result ≡ is_ready (at self.now.rows p) }
    {
        let row = &self.rows[p as usize];
        row.is_ready()
    }

    /// Whether a process waits in a select with an open `terminate`.
    pub(crate) fn may_end(&self, p: u32) -> bool
        requires { p < length self.now.rows }
        ensures { result ≡ may_end (at self.now.rows p) }
    {
        let row = &self.rows[p as usize];
        row.may_end()
    }

    /// Whether a process was activated and has not finished since.
    pub(crate) fn is_unfinished(&self, p: u32) -> bool
        requires { p < length self.now.rows }
        ensures { result ≡ is_unfinished (at self.now.rows p) }
    {
        let row = &self.rows[p as usize];
        row.is_unfinished()
    }

    /// Whether a process waits at `coend`.
    pub(crate) fn is_at_coend(&self, p: u32) -> bool
        requires { p < length self.now.rows }
        ensures { result ≡ is_at_coend (at self.now.rows p) }
    {
        let row = &self.rows[p as usize];
        row.is_at_coend()
    }

    /// The number of the action that began the wait of a process, from 1; None where it does not wait.
    pub(crate) fn ticket(&self, p: u32) -> Option<u64>
        requires { p < length self.now.rows }
        ensures { result ≡ ticket_of (at self.now.rows p) }
    {
        let row = &self.rows[p as usize];
        row.ticket()
    }

    /// The alternatives that a process offers: none unless it waits in a select.
    pub(crate) fn arms(&self, p: u32) -> &[Arm]
        requires { p < length self.now.rows }
        ensures { result.now ≡ arms_of (at self.now.rows p) }
    {
        let row = &self.rows[p as usize];
        row.arms()
    }

    /// The process acts. Nobody else does, and the process is ready.
    pub(crate) fn begin(&mut self, p: u32) -> Running
        requires alone { self.old.acting ≡ None }
        requires ready { at self.old.rows p ≡ Is_ready }
        ensures number { result.number ≡ p }
        ensures table { self.new ≡ begun self.old p }
    {
        self.acting = Some(p);
        let row = &mut self.rows[p as usize];
        row.begin()
    }

    /// The process that acts has acted, and may act again.
    pub(crate) fn rest(&mut self, r: Running)
        requires { self.old.acting ≡ Some r.number }
        ensures { self.new ≡ rested self.old }
    {
        self.acting = None;
        let row = &mut self.rows[r.number() as usize];
        row.rest(r);
    }

    /// The process that acts waits, in no select, with the number of the present action as its ticket.
    pub(crate) fn block(&mut self, r: Running, why: Why)
        requires acts { self.old.acting ≡ Some r.number }
        requires plain { is_select why ≡ false }
        requires fresh { IsNew self.old.rows self.old.done }
        ensures table { self.new ≡ blocked self.old r.number why [] }
        ensures within { r.number < length self.old.rows }
        ensures acted { at self.old.rows r.number ≡ Is_ready }
    {
        self.acting = None;
        let ticket = self.done + 1;
        let row = &mut self.rows[r.number() as usize];
        row.block(r, why, ticket);
    }

    /// The process that acts waits in a select, with the number of the present action as its ticket: for
    /// one of these alternatives, until the due moment where there is one, and until all its kin may end
    /// where it may `terminate`.
    pub(crate) fn block_select(
        &mut self,
        r: Running,
        arms: &[Arm],
        due: Option<u64>,
        terminate: bool,
    )
        requires acts { self.old.acting ≡ Some r.number }
        requires room { length arms.now ≤ self.old.room }
        requires fresh { IsNew self.old.rows self.old.done }
        ensures table { self.new ≡ blocked self.old r.number (Why.Select due terminate) arms.now }
        ensures within { r.number < length self.old.rows }
        ensures acted { at self.old.rows r.number ≡ Is_ready }
    {
        self.acting = None;
        let since = self.done + 1;
        let row = &mut self.rows[r.number() as usize];
        row.block_select(r, arms, due, terminate, since);
    }

    /// The wait of a process is over.
    pub(crate) fn wake(&mut self, p: u32)
        requires { IsWaiting (at self.old.rows p) }
        ensures table { self.new ≡ placed self.old p Is_ready }
        ensures fresh { IsNew self.old.rows self.old.done → IsNew self.new.rows self.new.done }
    {
        let row = &mut self.rows[p as usize];
        row.wake();
    }

    /// A process is activated. The fault is that it is created, ready or waiting, or acts.
    pub(crate) fn create(&mut self, p: u32) -> Result<(), RunFault>
        requires { p < length self.old.rows }
        ensures { IsCreation self.old p result self.new }
    {
        let row = &mut self.rows[p as usize];
        if row.is_unfinished() {
            return Err(RunFault::Active);
        }
        row.create();
        Ok(())
    }

    /// An action was done: the number of actions and the clock rise by 1.
    pub(crate) fn tick(&mut self)
        requires done { self.old.done < 10 ^ 18 }
        requires moment { self.old.moment < 2 * 10 ^ 18 }
        ensures table { self.new ≡ ticked self.old }
        ensures fresh { IsNew self.new.rows self.new.done }
    {
        self.done += 1;
        self.moment += 1;
    }
}

impl Rows {
    pub(crate) fn offer_at(&self, p: u32, arm: Arm) -> Option<Offer>
        requires { p < length self.now.rows }
        ensures { result ≡ offer_at p (place_of_arm arm (arms_of (at self.now.rows p))) }
    {
        let row = &self.rows[p as usize];
        match row.place_of_arm(arm) {
            Some(place) => Some(Offer {
                process: p,
                arm: place,
            }),
            None => None,
        }
    }

    /// Whether a process waits in a select with this alternative.
    pub(crate) fn offers(&self, p: u32, arm: Arm) -> bool
        requires { p < length self.now.rows }
        ensures { result ≡ is_some (ticket_offering arm (at self.now.rows p)) }
    {
        let row = &self.rows[p as usize];
        row.ticket_offering(arm).is_some()
    }

    /// How many alternatives a process offers.
    pub(crate) fn arm_count(&self, p: u32) -> usize
        requires { p < length self.now.rows }
        ensures { result ≡ length (arms_of (at self.now.rows p)) }
    {
        self.arms(p).len()
    }

    /// Whether the wait of a process is this one.
    pub(crate) fn waits_at(&self, p: u32, why: Why) -> bool
        requires { p < length self.now.rows }
        ensures { result ≡ is_some (ticket_at why (at self.now.rows p)) }
    {
        let row = &self.rows[p as usize];
        row.ticket_at(why).is_some()
    }

    /// Whether a process is barred at the resource with a ticket above `after`; any ticket is above None.
    pub(crate) fn is_barred(&self, p: u32, resource: u32, after: Option<u64>) -> bool
        requires { p < length self.now.rows }
        ensures { result ≡ is_some (ticket_barred resource after (at self.now.rows p)) }
    {
        let row = &self.rows[p as usize];
        row.ticket_barred(resource, after).is_some()
    }

    /// Whether there is such a process, and it is barred at the resource with this ticket.
    pub(crate) fn is_barred_since(&self, p: u32, resource: u32, ticket: u64) -> bool
        ensures within { result ≡ true → p < length self.now.rows }
        ensures barred { result ≡ true → ticket_barred resource None (at self.now.rows p) ≡ Some ticket }
        ensures told { p < length self.now.rows → ticket_barred resource None (at self.now.rows p) ≡ Some ticket → result ≡ true }
    {
        let Some(row) = self.rows.get(p as usize) else {
            return false;
        };
        match row.ticket_barred(resource, None) {
            Some(own) => own == ticket,
            None => false,
        }
    }

    pub(crate) fn give_up(&mut self, r: Running)
        requires { self.old.acting ≡ Some r.number }
        ensures table { self.new ≡ rested (placed self.old r.number Is_done) }
        ensures within { r.number < length self.old.rows }
        ensures acted { at self.old.rows r.number ≡ Is_ready }
    {
        self.acting = None;
        let row = &mut self.rows[r.number() as usize];
        row.finish(r);
    }

    pub(crate) fn end(&mut self, p: u32)
        requires { IsWaiting (at self.old.rows p) }
        ensures { self.new ≡ placed self.old p Is_done }
    {
        let row = &mut self.rows[p as usize];
        row.end();
    }

    pub(crate) fn start_created(&mut self)
        ensures { self.new ≡ all_started self.old }
    {
        start_all(&mut self.rows);
    }

    /// The clock stands at this moment.
    pub(crate) fn set_clock(&mut self, moment: u64)
        ensures { self.new ≡ record self.old { moment = moment } }
    {
        self.moment = moment;
    }
}
