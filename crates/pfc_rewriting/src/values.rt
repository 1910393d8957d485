//! A value has come, and meets the part that waits for it.
ghost use Rattle.std.specs.Prelude.{◌≡◌, false};
ghost use Rattle.pfc_types.specs.rules.Expressions.{Env as Known};
ghost use Rattle.pfc_semantics.specs.Alternatives.{context};
ghost use Rattle.pfc_semantics.specs.Rewriting.{from_value};
ghost use Rattle.pfc_phrases.specs.Views.{env_view};
ghost use Rattle.pfc_program.specs.declared.tables.Tables.{Tables};
ghost use Rattle.pfc_store.specs.Views.{value_view};
ghost use Rattle.pfc_pending.specs.Waiting.{awaits_of, over, waiting};
ghost use Rattle.pfc_pending.specs.declared.pending.Pending.TheVariants as pending;
ghost use Rattle.pfc_expression_steps.specs.Ahead as expressions;
ghost use Rattle.pfc_statement_steps.specs.Resumed.{is_guard};
ghost use Rattle.pfc_rewriting.specs.Going.{going_ahead, HasRoom};

use crate::going::Going;
use pfc_base::Memory;
use pfc_expression_steps::{arrive, is_of_expression, reserve};
use pfc_pending::{At, Choosing, OneStmt, Pending, Point};
use pfc_select_steps::{offer_value, offer_wait, open_if};
use pfc_sites::Site;
use pfc_statement_steps::{arrive_guard, arrive_in};
use pfc_store::{Spot, Value};

impl<'t> Going<'t> {
    /// On with the part that the value meets; its room is there still. Where memory is refused, the part is pending and the value at
    /// hand again.
    #[inline(always)]
    pub(crate) fn meet(
        &mut self,
        part: Pending<'t>,
        v: Value,
        site: Site<'t, '_>,
    ) -> Result<(), Memory>
        requires { HasRoom self.old }
        ensures { (t : Tables) → going_ahead t (env_view site.entry.env) self.new ≡ from_value (context (env_view site.entry.env) self.old.line)
            (awaits_of (over t (waiting t self.old.pending.items) part.entry)) (value_view v) }
    {
        let mut part = part;
        if !is_of_expression(&part) {
            return self.meet_other(part, v, site);
        }
        match reserve(&mut part) {
            Ok(()) => {
                self.go_on(arrive(part, v, site));
                Ok(())
            }
            Err(Memory) => Err(self.wait_again(part, v)),
        }
    }

    /// The part is pending and the value at hand again, since memory was refused.
    #[inline(never)]
    #[tactic(auto, using(crate::proofs::Waiting::parts))]
    fn wait_again(&mut self, part: Pending<'t>, v: Value) -> Memory
        requires { HasRoom self.old }
        ensures { (t : Tables) (env : Known) →
            going_ahead t env self.new ≡ from_value (context env self.old.line)
            (awaits_of (over t (waiting t self.old.pending.items) part.entry)) (value_view v) }
    {
        self.pending.push_reserved(part);
        self.put(At::Value(v));
        Memory
    }

    /// A part that is none of an expression or of a simple statement. A guard of a resource has its value on the line at hand.
    #[inline(always)]
    fn meet_other(&mut self, part: Pending<'t>, v: Value, site: Site<'t, '_>) -> Result<(), Memory>
        requires room { HasRoom self.old }
        requires other { expressions.is_of_expression part ≡ false }
        ensures { (t : Tables) → going_ahead t (env_view site.entry.env) self.new ≡ from_value (context (env_view site.entry.env) self.old.line)
            (awaits_of (over t (waiting t self.old.pending.items) part.entry)) (value_view v) }
    {
        match arrive_guard(&part, &v, self.line) {
            Some(begun) => {
                drop(part);
                self.begin(begun);
                Ok(())
            }
            None => self.meet_choice(part, v, site),
        }
    }

    /// A part that is no guard of a resource either: of a statement that is under way, or of a select. What waits for no value, which
    /// never comes, is the end of a body.
    #[inline(never)]
    fn meet_choice(&mut self, part: Pending<'t>, v: Value, site: Site<'t, '_>) -> Result<(), Memory>
        requires room { HasRoom self.old }
        requires other { expressions.is_of_expression part ≡ false }
        requires no_guard { is_guard part ≡ false }
        ensures { (t : Tables) → going_ahead t (env_view site.entry.env) self.new ≡ from_value (context (env_view site.entry.env) self.old.line)
            (awaits_of (over t (waiting t self.old.pending.items) part.entry)) (value_view v) }
    {
        match part {
            Pending::Within(n, s, point) => self.meet_point(n, s, point, v, site),
            Pending::OpenIf(choosing) => {
                self.go_on(open_if(choosing, &v));
                Ok(())
            }
            Pending::OfferValue(channel, choosing) => self.meet_message(channel, choosing, v),
            Pending::OfferWait(choosing) => self.meet_seconds(choosing, v),
            part => {
                drop(part);
                self.put_end();
                Ok(())
            }
        }
    }

    /// A part of a statement that is under way has its value.
    #[inline(always)]
    fn meet_point(
        &mut self,
        n: u32,
        s: OneStmt<'t>,
        point: Point,
        v: Value,
        site: Site<'t, '_>,
    ) -> Result<(), Memory>
        requires { HasRoom self.old }
        ensures { (t : Tables) → going_ahead t (env_view site.entry.env) self.new ≡ from_value (context (env_view site.entry.env) self.old.line)
            (awaits_of (over t (waiting t self.old.pending.items) (pending.Within n s.entry point))) (value_view v) }
    {
        match arrive_in(n, s, point, &v, self.line, site) {
            Ok(step) => {
                self.go_on(step);
                Ok(())
            }
            Err(Memory) => Err(self.wait_again(Pending::Within(n, s, point), v)),
        }
    }

    /// The message of an alternative has come.
    #[inline(never)]
    fn meet_message(
        &mut self,
        channel: Spot,
        choosing: Box<Choosing<'t>>,
        v: Value,
    ) -> Result<(), Memory>
        requires { HasRoom self.old }
        ensures { (t : Tables) (env : Known) →
            going_ahead t env self.new ≡ from_value (context env self.old.line)
            (awaits_of (over t (waiting t self.old.pending.items) (pending.OfferValue channel choosing.entry))) (value_view v) }
    {
        match offer_value(channel, choosing, v) {
            Ok(step) => {
                self.go_on(step);
                Ok(())
            }
            Err((channel, choosing, v)) => Err(self.wait_again(
                Pending::OfferValue(channel, choosing),
                v,
            )),
        }
    }

    /// The seconds of a `timeout` have come.
    #[inline(never)]
    fn meet_seconds(&mut self, choosing: Box<Choosing<'t>>, v: Value) -> Result<(), Memory>
        requires { HasRoom self.old }
        ensures { (t : Tables) (env : Known) →
            going_ahead t env self.new ≡ from_value (context env self.old.line)
            (awaits_of (over t (waiting t self.old.pending.items) (pending.OfferWait choosing.entry))) (value_view v) }
    {
        match offer_wait(choosing, &v) {
            Ok(step) => {
                self.go_on(step);
                Ok(())
            }
            Err(choosing) => Err(self.wait_again(Pending::OfferWait(choosing), v)),
        }
    }
}
