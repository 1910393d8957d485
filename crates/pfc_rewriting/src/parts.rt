//! A part of the text at hand is read.
ghost use Rattle.std.specs.Prelude.{◌≡◌, []};
ghost use Rattle.pfc_semantics.specs.Alternatives.{context};
ghost use Rattle.pfc_semantics.specs.Rewriting.{from_location, from_remainder};
ghost use Rattle.pfc_semantics.specs.Statements.{from_stmt};
ghost use Rattle.pfc_types.specs.rules.Expressions.{Env as Known};
ghost use Rattle.pfc_phrases.specs.Views.{env_view};
ghost use Rattle.pfc_program.specs.declared.tables.Tables.{Tables};
ghost use Rattle.pfc_store.specs.Views.{typed_spot_view};
ghost use Rattle.pfc_pending.specs.Ahead.{ahead};
ghost use Rattle.pfc_pending.specs.Texts.{stmt_at};
ghost use Rattle.pfc_pending.specs.Waiting.{Waiting, waiting, goal_over, remainder_of};
ghost use Rattle.pfc_statement_steps.specs.Begins.{select_ahead};
ghost use Rattle.pfc_pending.specs.declared.at_hand.At.TheVariants as at;
ghost use Rattle.pfc_pending.specs.declared.pending.Goal.TheVariants as goal;
ghost use Rattle.pfc_rewriting.specs.Going.{going_ahead, HasRoom};

use crate::going::Going;
use crate::phrases::phrase;
use pfc_base::Memory;
use pfc_expression_steps::{Reached, Reason, expr, factor, lead, simple, term};
use pfc_pending::{At, Choosing, Goal, OneStmt, Stmts};
use pfc_select_steps::{begin, opened, reach_from, reach_into, reach_to};
use pfc_sites::Site;
use pfc_statement_steps::{Begin, Select, stmt, stmts};
use pfc_store::{Spot, TypedSpot};
use pfc_tree::{Desig, Expr, Factor, Selector, Simple, Term};

impl<'t> Going<'t> {
    /// Reads one part of what was at hand. Where memory is refused, it is at hand again.
    #[inline(never)]
    pub(crate) fn read(&mut self, at: At<'t>, site: Site<'t, '_>) -> Result<(), Memory>
        requires { HasRoom self.old }
        ensures { (t : Tables) → going_ahead t (env_view site.entry.env) self.new ≡ ahead t (context (env_view site.entry.env) self.old.line)
            (waiting t self.old.pending.items) at.entry }
    {
        match at {
            At::Stmt(n, s) => self.read_stmt(n, s, site),
            At::Stmts(n, ss) => self.read_stmts(n, ss),
            At::Part(spot, es, ss, goal) => self.read_part(spot, es, ss, goal, site),
            At::Opened(choosing) => self.read_opened(choosing, site),
            at => {
                self.go_on(phrase(at, self.line, site));
                Ok(())
            }
        }
    }

    /// An expression.
    #[inline(never)]
    pub(crate) fn read_expr(&mut self, e: &'t Expr, site: Site<'t, '_>)
        requires { HasRoom self.old }
        ensures { (t : Tables) → going_ahead t (env_view site.entry.env) self.new ≡ ahead t (context (env_view site.entry.env) self.old.line)
            (waiting t self.old.pending.items) (at.Expr e.entry) }
    {
        self.go_on(expr(e, site));
    }

    /// A sum.
    #[inline(never)]
    pub(crate) fn read_simple(&mut self, s: &'t Simple, site: Site<'t, '_>)
        requires { HasRoom self.old }
        ensures { (t : Tables) → going_ahead t (env_view site.entry.env) self.new ≡ ahead t (context (env_view site.entry.env) self.old.line)
            (waiting t self.old.pending.items) (at.Simple s.entry) }
    {
        self.go_on(simple(s, site));
    }

    /// A product.
    #[inline(never)]
    pub(crate) fn read_term(&mut self, product: &'t Term, site: Site<'t, '_>)
        requires { HasRoom self.old }
        ensures { (t : Tables) → going_ahead t (env_view site.entry.env) self.new ≡ ahead t (context (env_view site.entry.env) self.old.line)
            (waiting t self.old.pending.items) (at.Term product.entry) }
    {
        self.go_on(term(product, site));
    }

    /// A factor.
    #[inline(never)]
    pub(crate) fn read_factor(&mut self, f: &'t Factor, site: Site<'t, '_>)
        requires { HasRoom self.old }
        ensures { (t : Tables) → going_ahead t (env_view site.entry.env) self.new ≡ ahead t (context (env_view site.entry.env) self.old.line)
            (waiting t self.old.pending.items) (at.Factor f.entry) }
    {
        self.go_on(factor(f, site));
    }

    /// A statement, before which the next scope of the text has the number n.
    #[inline(never)]
    pub(crate) fn read_stmt(
        &mut self,
        n: u32,
        s: OneStmt<'t>,
        site: Site<'t, '_>,
    ) -> Result<(), Memory>
        requires { HasRoom self.old }
        ensures { (t : Tables) → going_ahead t (env_view site.entry.env) self.new ≡ ahead t (context (env_view site.entry.env) self.old.line)
            (waiting t self.old.pending.items) (at.Stmt n s.entry) }
    {
        match stmt(n, s, site) {
            Ok(Begin::Step(begun)) => {
                self.begin(begun);
                Ok(())
            }
            Ok(Begin::Select(q)) => self.read_select(n, s, q, site),
            Err(Memory) => {
                self.put(At::Stmt(n, s));
                Err(Memory)
            }
        }
    }

    /// A statement that is this select.
    #[inline(never)]
    fn read_select(
        &mut self,
        n: u32,
        s: OneStmt<'t>,
        q: Select<'t>,
        site: Site<'t, '_>,
    ) -> Result<(), Memory>
        requires { (t : Tables) (w : Waiting) → select_ahead (env_view site.env) n w q ≡ from_stmt (env_view site.env) n (stmt_at s) (remainder_of w)
            (from_remainder (env_view site.env) (remainder_of w)) }
        ensures { (t : Tables) → going_ahead t (env_view site.entry.env) self.new ≡ ahead t (context (env_view site.entry.env) self.old.line)
            (waiting t self.old.pending.items) (at.Stmt n s.entry) }
    {
        match begin(n, q.pri, q.alts, q.otherwise, q.line, site) {
            Ok(at) => {
                self.line = q.line;
                self.put(at);
                Ok(())
            }
            Err(Memory) => {
                self.put(At::Stmt(n, s));
                Err(Memory)
            }
        }
    }

    /// Statements, before which the next scope of the text has the number n.
    #[inline(never)]
    pub(crate) fn read_stmts(&mut self, n: u32, ss: Stmts<'t>) -> Result<(), Memory>
        requires { HasRoom self.old }
        ensures { (t : Tables) (env : Known) →
            going_ahead t env self.new ≡ ahead t (context env self.old.line) (waiting t self.old.pending.items) (at.Stmts n ss.entry) }
    {
        match stmts(n, ss) {
            Ok(step) => {
                self.go_on(step);
                Ok(())
            }
            Err(Memory) => {
                self.put(At::Stmts(n, ss));
                Err(Memory)
            }
        }
    }

    /// A variable's part, with the indices and selectors behind it.
    #[inline(never)]
    fn read_part(
        &mut self,
        spot: TypedSpot,
        es: &'t [Expr],
        ss: &'t [Selector],
        goal: Goal<'t>,
        site: Site<'t, '_>,
    ) -> Result<(), Memory>
        requires { HasRoom self.old }
        ensures { (t : Tables) → going_ahead t (env_view site.entry.env) self.new ≡ ahead t (context (env_view site.entry.env) self.old.line)
            (waiting t self.old.pending.items) (at.Part spot es.entry ss.entry goal.entry) }
    {
        match lead(spot, es, ss, goal, site) {
            Reached::Step(step) => {
                self.go_on(step);
                Ok(())
            }
            Reached::Back(Reason::Select, spot, goal) => self.offer(spot, goal, site),
            Reached::Back(Reason::Memory, spot, goal) => {
                self.put(At::Part(spot, &[], ss, goal));
                Err(Memory)
            }
        }
    }

    /// A variable, for what of a select waits for it; anything else, which never comes, counts as want of memory.
    #[inline(never)]
    fn offer(&mut self, spot: TypedSpot, goal: Goal<'t>, site: Site<'t, '_>) -> Result<(), Memory>
        requires { HasRoom self.old }
        ensures { (t : Tables) → let c = context (env_view site.entry.env) self.old.line in
            going_ahead t (env_view site.entry.env) self.new
            ≡ from_location c (goal_over (waiting t self.old.pending.items) goal.entry) (typed_spot_view spot) }
    {
        match goal {
            Goal::OfferTo(message, choosing) => self.offer_to(spot, message, choosing),
            Goal::OfferFrom(receiver, choosing) => self.offer_from(spot, receiver, choosing, site),
            Goal::OfferInto(channel, choosing) => self.offer_into(spot, channel, choosing),
            goal => Err(self.wait_still(spot, goal)),
        }
    }

    /// A variable and what waits for it are at hand again, since memory was refused.
    fn wait_still(&mut self, spot: TypedSpot, goal: Goal<'t>) -> Memory
        ensures { (t : Tables) (env : Known) → going_ahead t env self.new ≡ from_location (context env self.old.line)
            (goal_over (waiting t self.old.pending.items) goal.entry) (typed_spot_view spot) }
    {
        self.put(At::Part(spot, &[], &[], goal));
        Memory
    }

    /// The channel of an alternative that sends.
    fn offer_to(
        &mut self,
        spot: TypedSpot,
        message: Option<&'t Expr>,
        choosing: Box<Choosing<'t>>,
    ) -> Result<(), Memory>
        requires { HasRoom self.old }
        ensures { (t : Tables) (env : Known) → going_ahead t env self.new ≡ from_location (context env self.old.line)
            (goal_over (waiting t self.old.pending.items) (goal.OfferTo message.entry choosing.entry)) (typed_spot_view spot) }
    {
        match reach_to(spot, message, choosing) {
            Ok(step) => {
                self.go_on(step);
                Ok(())
            }
            Err((spot, goal)) => Err(self.wait_still(spot, goal)),
        }
    }

    /// The channel of an alternative that receives.
    fn offer_from(
        &mut self,
        spot: TypedSpot,
        receiver: Option<&'t Desig>,
        choosing: Box<Choosing<'t>>,
        site: Site<'t, '_>,
    ) -> Result<(), Memory>
        requires { HasRoom self.old }
        ensures { (t : Tables) → let c = context (env_view site.entry.env) self.old.line in
            going_ahead t (env_view site.entry.env) self.new
            ≡ from_location c (goal_over (waiting t self.old.pending.items) (goal.OfferFrom receiver.entry choosing.entry)) (typed_spot_view spot) }
    {
        match reach_from(spot, receiver, choosing, site) {
            Ok(step) => {
                self.go_on(step);
                Ok(())
            }
            Err((spot, goal)) => Err(self.wait_still(spot, goal)),
        }
    }

    /// The variable of an alternative that receives.
    fn offer_into(
        &mut self,
        spot: TypedSpot,
        channel: Spot,
        choosing: Box<Choosing<'t>>,
    ) -> Result<(), Memory>
        requires { HasRoom self.old }
        ensures { (t : Tables) (env : Known) → going_ahead t env self.new ≡ from_location (context env self.old.line)
            (goal_over (waiting t self.old.pending.items) (goal.OfferInto channel choosing.entry)) (typed_spot_view spot) }
    {
        match reach_into(spot, channel, choosing) {
            Ok(step) => {
                self.go_on(step);
                Ok(())
            }
            Err((spot, goal)) => Err(self.wait_still(spot, goal)),
        }
    }

    /// An alternative that is open: what it waits for.
    #[inline(never)]
    fn read_opened(&mut self, choosing: Box<Choosing<'t>>, site: Site<'t, '_>) -> Result<(), Memory>
        requires { HasRoom self.old }
        ensures { (t : Tables) → going_ahead t (env_view site.entry.env) self.new ≡ ahead t (context (env_view site.entry.env) self.old.line)
            (waiting t self.old.pending.items) (at.Opened choosing.entry) }
    {
        match opened(choosing, site) {
            Ok(step) => {
                self.go_on(step);
                Ok(())
            }
            Err(choosing) => {
                self.put(At::Opened(choosing));
                Err(Memory)
            }
        }
    }
}
