//! The table of processes.
ghost use Rattle.std.specs.Prelude.{◌≡◌, ℕ, ◌+◌, ◌-◌, ◌*◌, ◌^◌, ◌<◌, ◌≤◌, true, false, None, Some, Option, []};
ghost use Rattle.std.specs.Prelude.{length, get_or, slice_index, map, IfOk, IfSome, MatchOption};
ghost use Rattle.pfc_state.specs.declared.waits.Why.{Why};
ghost use Rattle.pfc_state.specs.Stands.{Is_ready, Waits, Is_done, IsWaiting, is_due, state_of, ticket_of, arms_of};
ghost use Rattle.pfc_state.specs.Stands.{may_end, ticket_at, ticket_on, ticket_offering, ticket_barred};
ghost use Rattle.pfc_state.specs.Waits.{is_select, place_of_arm};
ghost use Rattle.pfc_world.specs.Coend.{IsAtCoend};
ghost use Rattle.pfc_world.specs.Firsts.{first, last, offer_at, first_offer, first_ranked, IsFirst, IsFirstRanked, IsLast, IsNobody};
ghost use Rattle.pfc_world.specs.Settling.{earliest, woken_now, moved_to, settled, children_may_end, may_all_end, IsLeftBy, IsDue};
ghost use Rattle.pfc_world.specs.Indexes.{IsReadySet, number};
ghost use Rattle.pfc_world.specs.Ready.{ready_numbers, turn_of};
ghost use Rattle.pfc_world.specs.Tables.{at, start_table, some_ready, some_created};
ghost use Rattle.pfc_world.specs.Tickets.{AreTickets, IsNew};
ghost use Rattle.pfc_world.specs.Transitions.{begun, rested, placed, blocked, is_released, released, ended, finished, all_started, ticked, IsCreation};

use crate::found::Found;
use crate::index::Index;
use crate::lookups::{first_barred, first_of, first_offering, last_of};
use crate::rows::Rows;
use crate::{After, Arm, Offer, Running, Settled, State, Why};
use pfc_alternatives::Alternatives;
use pfc_base::{Memory, RunFault};
use pfc_lists::Numbers;
use std::alloc::Global;
use std::marker::Model;

/// The table of processes, the number of actions done, and the clock. Processes are numbered from 0,
/// main being 0. Contracts see what each process stands at, who acts, the number of actions, the
/// clock, and the room for alternatives; and a process that acts stands there as ready.
#[derive(Drop)]
pub struct World {
    pub(crate) rows: Rows,
    pub(crate) index: Index,
    /// who waits in selects, by alternatives
    offers: Alternatives,
    found: Found,
}

impl Model for World {
    ghost use Rattle.pfc_world.specs.Tables.{Table};
    ghost use Rattle.pfc_world.specs.Offers.{IsKept};

    ghost Value = { Table };

    ghost view = { λ w. w.rows };

    ghost invariant = { λ w. IsKept w.rows w.index w.offers };
}

impl World {
    /// The table of n processes, each with room for this many alternatives: main is ready, the others are
    /// idle, and the clock is at 0. Each kind of wait, and of alternatives, has as many lists as there are objects, but at
    /// least one and at most 262,144. Where all numbers of semaphores, channels, monitors, conditions and resources
    /// are below this, and n times the number of entries of a process is no more, no two objects share a list. The memory
    /// of a list is 8 bytes, and each object counts for seventeen, and for 4 bytes more. Its only refusal is want of
    /// memory; no other call takes memory.
    pub fn with_processes(alloc: Global, n: u32, arms: u32, objects: u32) -> Result<World, Memory>
        requires some { 0 < n }
        requires few { n ≤ 1024 }
        ensures world { IfOk result (λ world. world ≡ start_table n arms) }
        ensures fresh { IfOk result (λ world. IsNew world.rows world.done) }
    {
        Ok(World {
            rows: Rows::with_processes(alloc, n, arms)?,
            index: Index::new(alloc, n, objects)?,
            offers: Alternatives::new(alloc, n, arms, objects)?,
            found: Found::new(alloc, objects)?,
        })
    }

    /// The number of processes, main included: from 1 to 1,024.
    pub fn processes(&self) -> u32
        ensures count { result ≡ length self.now.rows }
        ensures some { 0 < result }
        ensures few { result ≤ 1024 }
        ensures acting { (p : ℕ) → self.now.acting ≡ Some p → at self.now.rows p ≡ Is_ready }
    {
        self.rows.processes()
    }

    /// The number of actions done, from 0 to 10^18.
    pub fn done(&self) -> u64
        ensures count { result ≡ self.now.done }
        ensures few { result ≤ 10 ^ 18 }
        ensures tickets { AreTickets self.now.rows self.now.done }
    {
        self.rows.done()
    }

    /// The clock: a moment from 0 on, one more after each action.
    pub fn now(&self) -> u64
        ensures { result ≡ self.now.moment }
    {
        self.rows.now()
    }

    /// How many alternatives a process may offer in a select.
    pub fn room(&self) -> u32
        ensures { result ≡ self.now.room }
    {
        self.rows.room()
    }

    /// The standing of a process.
    pub fn state(&self, p: u32) -> State
        requires { p < length self.now.rows }
        ensures state { result ≡ state_of (at self.now.rows p) }

        // what a test of the answer tells of the process
        ensures ready { result ≡ State.Ready → at self.now.rows p ≡ Is_ready }
        ensures waits { (why : Why) → result ≡ State.Waiting why → IsWaiting (at self.now.rows p) }
        ensures ends { (due : Option ℕ) → result ≡ State.Waiting (Why.Select due true) → may_end (at self.now.rows p) ≡ true }
    {
        self.rows.state(p)
    }

    /// The number of the action that began the wait of a process, from 1; None where it does not wait.
    pub fn ticket(&self, p: u32) -> Option<u64>
        requires { p < length self.now.rows }
        ensures { result ≡ ticket_of (at self.now.rows p) }
    {
        self.rows.ticket(p)
    }

    /// The alternatives that a process offers: none unless it waits in a select.
    pub fn arms(&self, p: u32) -> &[Arm]
        requires { p < length self.now.rows }
        ensures { result.now ≡ arms_of (at self.now.rows p) }
    {
        self.rows.arms(p)
    }

    /// The process acts. Nobody else does, and the process is ready.
    pub fn begin(&mut self, p: u32) -> Running
        requires alone { self.old.acting ≡ None }
        requires ready { at self.old.rows p ≡ Is_ready }
        ensures number { result.number ≡ p }
        ensures world { self.new ≡ begun self.old p }
    {
        self.rows.begin(p)
    }

    /// The process that acts has acted, and may act again.
    pub fn rest(&mut self, r: Running)
        requires { self.old.acting ≡ Some r.number }
        ensures { self.new ≡ rested self.old }
    {
        self.rows.rest(r);
    }

    /// The process that acts waits, in no select, with the number of the present action as its ticket.
    pub fn block(&mut self, r: Running, why: Why)
        requires acts { self.old.acting ≡ Some r.number }
        requires plain { is_select why ≡ false }
        requires fresh { IsNew self.old.rows self.old.done }
        ensures { self.new ≡ blocked self.old r.number why [] }
    {
        let p = r.number();
        let ticket = self.rows.done() + 1;
        self.rows.block(r, why);
        self.index.begin_wait(p, why, ticket);
    }

    /// The process that acts waits in a select, with the number of the present action as its ticket: for
    /// one of these alternatives, until the due moment where there is one, and until all its kin may end
    /// where it may `terminate`.
    pub fn block_select(&mut self, r: Running, arms: &[Arm], due: Option<u64>, terminate: bool)
        requires acts { self.old.acting ≡ Some r.number }
        requires room { length arms.now ≤ self.old.room }
        requires fresh { IsNew self.old.rows self.old.done }
        ensures { self.new ≡ blocked self.old r.number (Why.Select due terminate) arms.now }
    {
        let p = r.number();
        let ticket = self.rows.done() + 1;
        self.rows.block_select(r, arms, due, terminate);
        self.offers.offer(p, arms, ticket);
        let why = Why::Select { due, terminate };
        self.index.begin_wait(p, why, ticket);
    }

    /// The process that acts has finished; main is ready where it waits at `coend` and no child is
    /// unfinished.
    pub fn finish(&mut self, r: Running)
        requires { self.old.acting ≡ Some r.number }
        ensures { self.new ≡ finished self.old r.number }
    {
        self.give_up(r);
        self.release();
    }

    /// The wait of a process is over.
    pub fn wake(&mut self, p: u32)
        requires { IsWaiting (at self.old.rows p) }
        ensures world { self.new ≡ placed self.old p Is_ready }
        ensures fresh { IsNew self.old.rows self.old.done → IsNew self.new.rows self.new.done }
    {
        let ends = self.rows.may_end(p);
        let arms = self.rows.arm_count(p);
        self.rows.wake(p);
        self.index.wake(p, ends);
        self.offers.withdraw(p, arms);
    }

    /// A process that waits in a select with `terminate` finishes there; main is ready where it waits at
    /// `coend` and no child is unfinished.
    pub fn end_select(&mut self, p: u32)
        requires { may_end (at self.old.rows p) ≡ true }
        ensures { self.new ≡ ended self.old p }
    {
        self.end(p);
        self.release();
    }

    /// A process is activated. The fault is that it is created, ready or waiting, or acts.
    pub fn create(&mut self, p: u32) -> Result<(), RunFault>
        requires { p < length self.old.rows }
        ensures { IsCreation self.old p result self.new }
    {
        self.rows.create(p)?;
        self.index.unfinished += 1;
        self.index.created += 1;
        Ok(())
    }

    /// The process that acts is at `coend`: where some process is created, all created ones are ready,
    /// and it waits until they have finished.
    pub fn coend(&mut self, r: Running) -> After
        requires acts { self.old.acting ≡ Some r.number }
        requires fresh { IsNew self.old.rows self.old.done }
        ensures { IsAtCoend self.old r.number result self.new }
    {
        if !self.some_created() {
            return After::Goes(r);
        }
        self.start_created();
        self.block(r, Why::Coend);
        After::Waits
    }

    /// An action was done: the number of actions and the clock rise by 1.
    pub fn tick(&mut self)
        requires done { self.old.done < 10 ^ 18 }
        requires moment { self.old.moment < 2 * 10 ^ 18 }
        ensures world { self.new ≡ ticked self.old }
        ensures fresh { IsNew self.new.rows self.new.done }
    {
        self.rows.tick();
    }

    /// Who is due is ready; where nobody is ready then, the clock goes to the earliest due moment.
    #[inline(always)]
    pub fn settle(&mut self) -> Settled
        requires { self.old.acting ≡ None }
        ensures world { self.new ≡ settled self.old }
        ensures answer { IsLeftBy result self.new.rows }
        ensures fresh { IsNew self.old.rows self.old.done → IsNew self.new.rows self.new.done }
    {
        self.wake_due();
        if self.some_ready() {
            return Settled::SomeReady;
        }
        match self.earliest() {
            Some(moment) => {
                self.move_to(moment);
                Settled::SomeReady
            }
            None => Settled::NobodyReady,
        }
    }

    /// Whether nobody is ready, no due moment is pending, and every unfinished child waits in a select with
    /// an open `terminate`, at least one child being unfinished.
    pub fn may_all_end(&self) -> bool
        ensures { result ≡ may_all_end self.now.rows }
    {
        !self.some_ready() && self.earliest().is_none() && self.children_may_end()
    }

    /// The process of least ticket whose wait is exactly this one.
    pub fn first_at(&self, why: Why) -> Option<u32>
        ensures first { result ≡ first (ticket_at why) self.now.rows }
        ensures found { MatchOption result (IsNobody (ticket_at why) self.now.rows) (IsFirst (ticket_at why) self.now.rows) }
        ensures waits { IfSome result (λ p. IsWaiting (at self.now.rows p)) }
        ensures within { IfSome result (λ p. p < length self.now.rows) }
    {
        first_of(&self.rows, self.index.spread, &self.index.waits, why)
    }

    /// The process of greatest ticket whose wait is exactly this one.
    pub fn last_at(&self, why: Why) -> Option<u32>
        ensures last { result ≡ last (ticket_at why) self.now.rows }
        ensures found { MatchOption result (IsNobody (ticket_at why) self.now.rows) (IsLast (ticket_at why) self.now.rows) }
        ensures waits { IfSome result (λ p. IsWaiting (at self.now.rows p)) }
        ensures within { IfSome result (λ p. p < length self.now.rows) }
    {
        last_of(&self.rows, self.index.spread, &self.index.waits, why)
    }

    /// The process of least rank among those that wait on the condition, and at that rank the one of least
    /// ticket.
    pub fn first_ranked(&self, condition: u32) -> Option<u32>
        ensures first { result ≡ first_ranked condition self.now.rows }
        ensures found { MatchOption result (IsNobody (ticket_on condition) self.now.rows) (IsFirstRanked condition self.now.rows) }
        ensures waits { IfSome result (λ p. IsWaiting (at self.now.rows p)) }
        ensures within { IfSome result (λ p. p < length self.now.rows) }
    {
        // this also tells that no two tickets are equal
        let _done = self.rows.done();
        self.index.ranks.first(condition)
    }

    /// The process of least ticket among those that wait in a select with this alternative, and its first
    /// place there.
    pub fn first_offer(&self, arm: Arm) -> Option<Offer>
        ensures offer { result ≡ first_offer arm self.now.rows }
        ensures found { MatchOption result (IsNobody (ticket_offering arm) self.now.rows)
            (λ offer. IsFirst (ticket_offering arm) self.now.rows offer.process) }
        ensures waits { IfSome result (λ offer. IsWaiting (at self.now.rows offer.process)) }
        ensures within { IfSome result (λ offer. offer.process < length self.now.rows) }
    {
        match first_offering(&self.rows, &self.offers, arm) {
            Some(p) => self.offer_at(p, arm),
            None => None,
        }
    }

    /// The first place of the alternative, from 0, among those that the process offers in a select; None where it offers
    /// no such alternative.
    pub fn offer_at(&self, p: u32, arm: Arm) -> Option<Offer>
        requires { p < length self.now.rows }
        ensures { result ≡ offer_at p (place_of_arm arm (arms_of (at self.now.rows p))) }
    {
        self.rows.offer_at(p, arm)
    }

    /// The process of least ticket above `after` among those that are barred at the resource; any ticket
    /// is above None. Where the ticket is that of the process that was found last at the resource, it takes
    /// the same steps however many are barred; else it looks from the first on.
    pub fn next_barred(&self, resource: u32, after: Option<u64>) -> Option<u32>
        ensures first { result ≡ first (ticket_barred resource after) self.now.rows }
        ensures found { MatchOption result (IsNobody (ticket_barred resource after) self.now.rows) (IsFirst (ticket_barred resource after) self.now.rows) }
        ensures waits { IfSome result (λ p. IsWaiting (at self.now.rows p)) }
        ensures within { IfSome result (λ p. p < length self.now.rows) }
    {
        let whose = self.found.at(resource);
        let next = first_barred(
            &self.rows,
            self.index.spread,
            &self.index.waits,
            resource,
            after,
            whose,
        );
        if let Some(p) = next {
            self.found.note(resource, p);
        }
        next
    }
}

impl World {
    /// How many processes are ready.
    pub fn ready_count(&self) -> u32
        ensures { result ≡ length (ready_numbers self.now.rows) }
    {
        self.index.ready.count()
    }

    /// The ready process at a place, counted from 0, in the order of numbers.
    pub fn ready_at(&self, place: u32) -> u32
        requires { place < length (ready_numbers self.now.rows) }
        ensures { result ≡ slice_index (ready_numbers self.now.rows) place }
    {
        self.index.ready.at(place)
    }

    /// The first ready process from this number on, or else the first of all ready ones.
    pub fn ready_from(&self, last: u32) -> u32
        requires { 0 < length (ready_numbers self.now.rows) }
        ensures { result ≡ turn_of last (ready_numbers self.now.rows) }
    {
        let before = self.index.ready.below(last);
        if before < self.index.ready.count() {
            self.index.ready.at(before)
        } else {
            self.index.ready.at(0)
        }
    }
}

impl World {
    fn some_ready(&self) -> bool
        ensures { result ≡ some_ready self.now.rows }
    {
        self.index.ready.count() > 0
    }

    fn earliest(&self) -> Option<u64>
        ensures { result ≡ earliest self.now.rows }
    {
        match self.index.dues.first() {
            Some(due) => Some(due.moment),
            None => None,
        }
    }

    /// Whether the children that wait in a select with an open `terminate` are all that are unfinished.
    #[inline(never)]
    fn children_may_end(&self) -> bool
        ensures { result ≡ children_may_end self.now.rows }
    {
        let unfinished = but_main(self.index.unfinished, self.rows.is_unfinished(0));
        let ending = but_main(self.index.ending, self.rows.may_end(0));
        unfinished > 0 && unfinished == ending
    }

    pub(crate) fn release(&mut self)
        ensures { self.new ≡ released self.old }
    {
        if self.is_released() {
            self.wake(0);
        }
    }

    /// Whether main waits at `coend` and is the last that is unfinished.
    fn is_released(&self) -> bool
        ensures { result ≡ is_released self.now.rows }
    {
        self.index.unfinished == 1 && self.rows.is_at_coend(0)
    }

    fn give_up(&mut self, r: Running)
        requires { self.old.acting ≡ Some r.number }
        ensures { self.new ≡ rested (placed self.old r.number Is_done) }
    {
        let p = r.number();
        self.rows.give_up(r);
        self.index.ready.put(p, false);
        self.index.unfinished -= 1;
    }

    pub(crate) fn end(&mut self, p: u32)
        requires { IsWaiting (at self.old.rows p) }
        ensures { self.new ≡ placed self.old p Is_done }
    {
        let ends = self.rows.may_end(p);
        let arms = self.rows.arm_count(p);
        self.rows.end(p);
        self.index.end(p, ends);
        self.offers.withdraw(p, arms);
    }

    fn some_created(&self) -> bool
        ensures { result ≡ some_created self.now.rows }
    {
        self.index.created > 0
    }

    fn start_created(&mut self)
        ensures { self.new ≡ all_started self.old }
    {
        self.rows.start_created();
        show_ready(&self.rows, &mut self.index.ready);
        self.index.created = 0;
    }

    /// Whoever's due moment has come is ready, one after the other.
    fn wake_due(&mut self)
        ensures { self.new ≡ woken_now self.old }
    {
        while let Some(p) = self.due_now() {
            self.wake(p);
        }
    }

    /// The process that is due first, where its moment has come.
    fn due_now(&self) -> Option<u32>
        ensures { MatchOption result (is_due self.now.moment (earliest self.now.rows) ≡ false) (IsDue self.now) }
    {
        match self.index.dues.first() {
            Some(due) if due.moment <= self.now() => Some(due.process),
            _ => None,
        }
    }

    #[inline(never)]
    fn move_to(&mut self, moment: u64)
        requires { self.old.acting ≡ None }
        ensures { self.new ≡ moved_to (Some moment) self.old }
    {
        self.rows.set_clock(moment);
        self.wake_due();
    }
}

/// Puts the numbers of the ready processes into the set, which holds no number past the processes.
fn show_ready(rows: &Rows, ready: &mut Numbers)
    requires room { length rows.now.rows ≤ length ready.old }
    requires past { (k : ℕ) → length rows.now.rows ≤ k → get_or ready.old k false ≡ false }
    ensures { IsReadySet rows.now.rows ready.new }
{
    for p in 0..rows.processes() {
        ready.put(p, rows.is_ready(p));
    }
}

/// How many of so many are children, where main is one of them or not.
fn but_main(all: u32, main: bool) -> u32
    requires { number main ≤ all }
    ensures { result ≡ all - number main }
{
    if main { all - 1 } else { all }
}
