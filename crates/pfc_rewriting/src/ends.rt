//! A statement has ended, and the part that stands behind it goes on.
ghost use Rattle.std.specs.Prelude.{◌≡◌, ℕ, true, Ok};
ghost use Rattle.pfc_types.specs.rules.Expressions.{Env as Known};
ghost use Rattle.pfc_semantics.specs.Rewriting.{from_remainder};
ghost use Rattle.pfc_program.specs.declared.tables.Tables.{Tables};
ghost use Rattle.pfc_pending.specs.Waiting.{remainder_of, over, waiting};
ghost use Rattle.pfc_pending.specs.declared.pending.Pending.TheVariants as pending;
ghost use Rattle.pfc_statement_steps.specs.Resumed.{resumed_ahead};
ghost use Rattle.pfc_rewriting.specs.Going.{going_ahead, turned_ahead, HasRoom};
ghost use Rattle.pfc_rewriting.specs.Kinds.{is_plain};

use crate::going::{Came, Going};
use pfc_base::Memory;
use pfc_pending::{At, OneStmt, Pending, Point};
use pfc_select_steps::go_through;
use pfc_statement_steps::{Resumed, resume, resume_in};
use std::alloc::Global;

impl<'t> Going<'t> {
    /// On with a part that stood last among those that are pending; its room is there still. It answers other names in view, where
    /// some are. Where memory is refused, the part stands there again.
    #[inline(always)]
    pub(crate) fn end(
        &mut self,
        part: Pending<'t>,
        alloc: Global,
    ) -> Result<Option<Came<'t>>, Memory>
        requires { HasRoom self.old }
        ensures { (t : Tables) (env : Known) →
            turned_ahead t env self.new result ≡ from_remainder env (remainder_of (over t (waiting t self.old.pending.items) part.entry)) }
    {
        match part {
            Pending::Within(n, s, point) => self.end_within(n, s, point, alloc),
            Pending::GoThrough(line, choosing) => {
                self.begin(go_through(line, choosing));
                Ok(None)
            }
            part => self.end_plain(part, alloc),
        }
    }

    /// The same of a statement that is under way.
    #[inline(always)]
    fn end_within(
        &mut self,
        n: u32,
        s: OneStmt<'t>,
        point: Point,
        alloc: Global,
    ) -> Result<Option<Came<'t>>, Memory>
        requires { HasRoom self.old }
        ensures { (t : Tables) (env : Known) →
            turned_ahead t env self.new result ≡ from_remainder env
            (remainder_of (over t (waiting t self.old.pending.items) (pending.Within n s.entry point))) }
    {
        match resume_in(n, s, point, alloc) {
            Ok(begun) => {
                self.begin(begun);
                Ok(None)
            }
            Err(Memory) => Err(self.put_back(Pending::Within(n, s, point))),
        }
    }

    /// The same of a part that is neither of a statement that is under way nor of a select.
    #[inline(never)]
    fn end_plain(&mut self, part: Pending<'t>, alloc: Global) -> Result<Option<Came<'t>>, Memory>
        requires room { HasRoom self.old }
        requires plain { is_plain part ≡ true }
        ensures { (t : Tables) (env : Known) →
            turned_ahead t env self.new result ≡ from_remainder env (remainder_of (over t (waiting t self.old.pending.items) part.entry)) }
    {
        match resume(&part, self.pending.last(), alloc) {
            Ok(Some(resumed)) => {
                drop(part);
                Ok(self.take_up(resumed))
            }
            Ok(None) => {
                drop(part);
                self.put_end();
                Ok(None)
            }
            Err(Memory) => Err(self.put_back(part)),
        }
    }

    /// Goes on with what comes for a part, and answers the names in view from there on, where they are others.
    fn take_up(&mut self, resumed: Resumed<'t>) -> Option<Came<'t>>
        requires { HasRoom self.old }
        ensures { (t : Tables) (env : Known) → turned_ahead t env self.new (Ok result) ≡ resumed_ahead t env (waiting t self.old.pending.items) resumed.entry }
    {
        let Resumed { names, begun } = resumed;
        self.begin(begun);
        match names {
            Some(names) => Some(Came::Names(names)),
            None => None,
        }
    }

    /// The part stands last among those that are pending again, since memory was refused.
    #[inline(never)]
    #[tactic(auto, using(crate::proofs::Waiting::parts))]
    fn put_back(&mut self, part: Pending<'t>) -> Memory
        requires { HasRoom self.old }
        ensures { (t : Tables) (env : Known) →
            going_ahead t env self.new ≡ from_remainder env (remainder_of (over t (waiting t self.old.pending.items) part.entry)) }
    {
        self.pending.push_reserved(part);
        self.put(At::Rest);
        Memory
    }
}
