//! One turn of rewriting, and turns up to an action or to other names in view.
ghost use Rattle.std.specs.Prelude.{◌≡◌};
ghost use Rattle.pfc_phrases.specs.Views.{env_view};
ghost use Rattle.pfc_program.specs.declared.tables.Tables.{Tables};
ghost use Rattle.pfc_pending.specs.declared.at_hand.At.TheVariants as at;
ghost use Rattle.pfc_rewriting.specs.Going.{arrived_ahead, going_ahead, turned_ahead, HasRoom};

use crate::going::{Came, Going};
use pfc_base::Memory;
use pfc_frequent_steps::come;
use pfc_pending::At;
use pfc_sites::Site;
use pfc_store::Value;
use std::mem;

impl<'t> Going<'t> {
    /// Turns up to an action or to other names in view.
    pub(crate) fn turns(&mut self, site: Site<'t, '_>) -> Result<Came<'t>, Memory>
        ensures { (t : Tables) → arrived_ahead t (env_view site.entry.env) self.new result ≡ going_ahead t (env_view site.entry.env) self.old }
    {
        for _turn in 0..u64::MAX {
            if let Some(came) = self.turn(site)? {
                return Ok(came);
            }
            come(&mut self.at, &mut self.line, &mut self.pending, site);
        }
        Err(Memory)
    }

    /// One turn: a part of the text is read, or a part is put among those that are pending or taken from them. What is at hand most often
    /// is looked at where it stands.
    #[inline(never)]
    fn turn(&mut self, site: Site<'t, '_>) -> Result<Option<Came<'t>>, Memory>
        ensures { (t : Tables) → turned_ahead t (env_view site.entry.env) self.new result ≡ going_ahead t (env_view site.entry.env) self.old }
    {
        self.pending.reserve(1)?;
        match &self.at {
            At::Rest => self.turn_end(site),
            At::Value(Value::Ordinal(n)) => {
                let v = Value::Ordinal(*n);
                self.turn_value(v, site)?;
                Ok(None)
            }
            At::Expr(e) => {
                let e = *e;
                self.read_expr(e, site);
                Ok(None)
            }
            At::Simple(s) => {
                let s = *s;
                self.read_simple(s, site);
                Ok(None)
            }
            At::Term(t) => {
                let t = *t;
                self.read_term(t, site);
                Ok(None)
            }
            At::Factor(f) => {
                let f = *f;
                self.read_factor(f, site);
                Ok(None)
            }
            At::Stmt(n, s) => {
                let (n, s) = (*n, *s);
                self.read_stmt(n, s, site)?;
                Ok(None)
            }
            At::Stmts(n, ss) => {
                let (n, ss) = (*n, *ss);
                self.read_stmts(n, ss)?;
                Ok(None)
            }
            _ => self.turn_other(site),
        }
    }

    /// The same, where what is at hand is taken first.
    #[inline(never)]
    fn turn_other(&mut self, site: Site<'t, '_>) -> Result<Option<Came<'t>>, Memory>
        requires { HasRoom self.old }
        ensures { (t : Tables) → turned_ahead t (env_view site.entry.env) self.new result ≡ going_ahead t (env_view site.entry.env) self.old }
    {
        match mem::replace(&mut self.at, At::Rest) {
            At::Deed(deed) => Ok(Some(Came::Deed(deed))),
            At::Rest => self.turn_end(site),
            At::Value(v) => {
                self.turn_value(v, site)?;
                Ok(None)
            }
            at => {
                self.read(at, site)?;
                Ok(None)
            }
        }
    }

    /// Nothing is at hand: on with the innermost part that is pending. Where there is none, which never comes, a body has ended.
    #[inline(never)]
    #[tactic(auto, using(crate::proofs::Waiting::parts))]
    fn turn_end(&mut self, site: Site<'t, '_>) -> Result<Option<Came<'t>>, Memory>
        requires room { HasRoom self.old }
        requires rest { self.old.at ≡ at.Rest }
        ensures { (t : Tables) → turned_ahead t (env_view site.entry.env) self.new result ≡ going_ahead t (env_view site.entry.env) self.old }
    {
        match self.pending.pop() {
            Some(part) => self.end(part, site.alloc),
            None => {
                self.put_end();
                Ok(None)
            }
        }
    }

    /// A value is at hand: it meets the innermost part that is pending. Where there is none, which never comes, a body has ended.
    #[inline(never)]
    #[tactic(auto, using(crate::proofs::Waiting::unwanted))]
    fn turn_value(&mut self, v: Value, site: Site<'t, '_>) -> Result<(), Memory>
        requires { HasRoom self.old }
        ensures { (t : Tables) → going_ahead t (env_view site.entry.env) self.new ≡ going_ahead t (env_view site.entry.env)
            (record self.old { at = at.Value v }) }
    {
        match self.pending.pop() {
            Some(part) => self.meet(part, v, site),
            None => {
                self.put_end();
                Ok(())
            }
        }
    }
}
