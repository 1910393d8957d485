//! What a process is at, while the same names are in view.
ghost use Rattle.std.specs.Prelude.{◌≡◌};
ghost use Rattle.pfc_types.specs.rules.Expressions.{Env as Known};
ghost use Rattle.pfc_semantics.specs.Alternatives.{context};
ghost use Rattle.pfc_semantics.specs.Remainders.{finishes};
ghost use Rattle.pfc_program.specs.declared.tables.Tables.{Tables};
ghost use Rattle.pfc_pending.specs.Ahead.{ahead, begun_ahead, step_ahead};
ghost use Rattle.pfc_pending.specs.Waiting.{waiting};
ghost use Rattle.pfc_rewriting.specs.Going.{going_ahead, HasRoom};

use pfc_pending::{At, Begun, Deed, Pending, Step};
use pfc_program::Names;
use std::mem;

/// The line of the statement that a process is in, what is at hand, and what is pending behind it, the innermost last.
#[derive(Drop)]
pub struct Going<'t> {
    pub line: u32,
    pub at: At<'t>,
    pub pending: Vec<Pending<'t>>,
}

/// Where rewriting comes to: the action, or other names in view.
#[derive(Drop)]
pub(crate) enum Came<'t> {
    Deed(Deed<'t>),
    Names(Names),
}

impl<'t> Going<'t> {
    /// Goes on with a step on the same line, in room that was taken before for the one part that it may put among those that are
    /// pending.
    #[inline(always)]
    #[tactic(auto, using(crate::proofs::Waiting::parts))]
    pub(crate) fn go_on(&mut self, step: Step<'t>)
        requires { HasRoom self.old }
        ensures { (t : Tables) (env : Known) →
            going_ahead t env self.new ≡ step_ahead t (context env self.old.line) (waiting t self.old.pending.items) step.entry }
    {
        match step {
            Step::On(at) => self.put(at),
            Step::Under(part, at) => {
                self.pending.push_reserved(part);
                self.put(at);
            }
        }
    }

    /// This is at hand now. What was at hand needs not be let go of: a turn takes it before, or it is a part of the text, a number or
    /// nothing, and owns nothing.
    #[inline(always)]
    pub(crate) fn put(&mut self, at: At<'t>)
        ensures { (t : Tables) (env : Known) → going_ahead t env self.new ≡ ahead t (context env self.old.line) (waiting t self.old.pending.items) at.entry }
    {
        mem::forget(mem::replace(&mut self.at, at));
    }

    /// A body has ended, which never comes here.
    #[inline(never)]
    pub(crate) fn put_end(&mut self)
        ensures { (t : Tables) (env : Known) → going_ahead t env self.new ≡ finishes 0 }
    {
        self.put(At::Deed(Deed::Finishes(0)));
    }

    /// Goes on with a step of a statement, which has its own line.
    #[inline(always)]
    pub(crate) fn begin(&mut self, begun: Begun<'t>)
        requires { HasRoom self.old }
        ensures { (t : Tables) (env : Known) → going_ahead t env self.new ≡ begun_ahead t env (waiting t self.old.pending.items) begun.entry }
    {
        self.line = begun.line;
        self.go_on(begun.step);
    }
}
