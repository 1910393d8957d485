//! How a process goes on behind an action.
ghost use Rattle.std.specs.Prelude.{◌≡◌, ◌<◌, ◌*◌, ◌^◌, length, set};
ghost use Rattle.pfc_world.specs.Tickets.{IsNew};
ghost use Rattle.pfc_world.specs.Transitions.{ticked};
ghost use Rattle.pfc_activities.specs.declared.activities.Activity.{Activity};
ghost use Rattle.pfc_activities.specs.Views.{at_work, at_line};
ghost use Rattle.pfc_activities.specs.Relation.{IsIn, MayAct, IsKept, GoesOn, IsFault};

use crate::{Hand, State};
use pfc_base::RunFault;
use pfc_pending::At;
use pfc_store::Value;
use std::mem;

/// What an action was.
#[derive(Clone, Copy, Debug, PartialEq, Eq)]
pub enum Done {
    /// An action without a fault.
    Stepped,
    /// A fault, at a line from 1.
    Faulted { line: u32, fault: RunFault },
}

/// Lets go of what was at hand.
#[inline(never)]
fn let_go<'t>(_before: At<'t>) {}

/// This is at hand now. What owned nothing needs not be let go of.
#[inline(always)]
fn hold<'t>(place: &mut At<'t>, at: At<'t>)
    ensures { place.new ≡ at.entry }
{
    match &*place {
        At::Rest => mem::forget(mem::replace(place, at)),
        At::Value(Value::Ordinal(_)) => mem::forget(mem::replace(place, at)),
        _ => let_go(mem::replace(place, at)),
    }
}

impl<'t> State<'t> {
    /// The line of the statement that the process is at.
    pub fn line_of(&self, p: u32) -> u32
        requires { p < length self.now.activities.items }
        ensures { (a : Activity) → IsIn self.now.activities.items p a → result ≡ a.doing.line }
    {
        self.activities[p as usize].doing.line
    }

    /// The process has this at hand, and shows nothing.
    pub fn set_at_work(&mut self, p: u32, at: At<'t>)
        requires { p < length self.old.activities.items }
        ensures activity { (a : Activity) → IsIn self.old.activities.items p a →
            self.new.activities.items ≡ set self.old.activities.items p (at_work a at.entry) }
        ensures count { length self.new.activities.items ≡ length self.old.activities.items }
        ensures kept { IsKept self.old self.new }
        ensures world { self.new.world ≡ self.old.world }
    {
        let activity = &mut self.activities[p as usize];
        hold(&mut activity.doing.at, at);
        match &activity.hand {
            Hand::Empty => {}
            _ => drop(mem::replace(&mut activity.hand, Hand::Empty)),
        }
    }

    /// An action of the process was done at this line.
    pub fn end_action(&mut self, p: u32, line: u32)
        requires within { p < length self.old.activities.items }
        requires done { self.old.world.done < 10 ^ 18 }
        requires moment { self.old.world.moment < 2 * 10 ^ 18 }
        ensures activity { (a : Activity) → IsIn self.old.activities.items p a → self.new.activities.items ≡ set self.old.activities.items p (at_line a line) }
        ensures kept { IsKept self.old self.new }
        ensures world { self.new.world ≡ ticked self.old.world }
        ensures fresh { IsNew self.new.world.rows self.new.world.done }
    {
        self.activities[p as usize].line = line;
        self.world.tick();
    }

    /// The process goes on with this at hand, and shows nothing; its action was done at the line of its statement.
    pub fn go_on(&mut self, p: u32, at: At<'t>) -> Done
        requires { MayAct self.old p }
        ensures { GoesOn self.old self.new p at.entry result }
    {
        let line = self.line_of(p);
        self.set_at_work(p, at);
        self.end_action(p, line);
        Done::Stepped
    }

    /// The action of the process was a fault at the line of its statement.
    pub fn end_in_fault(&mut self, p: u32, fault: RunFault) -> Done
        requires { MayAct self.old p }
        ensures { IsFault self.old self.new p fault result }
    {
        let line = self.line_of(p);
        self.end_action(p, line);
        Done::Faulted { line, fault }
    }
}
