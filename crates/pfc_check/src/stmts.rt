//! The accepts and the labels of statements.
ghost use Rattle.std.specs.Prelude.{◌≡◌, [], ◌∷◌, ◌++◌, map, false, OnOk};
ghost use Rattle.std.specs.List.{list_any};
ghost use Rattle.pfc_tree.specs.views.Types.{group_view};
ghost use Rattle.pfc_tree.specs.views.Stmts.{stmt_view, stmts_view, body_view, arms_view, arm_view, accept_view, alts_view, alt_view};
ghost use Rattle.pfc_types.specs.Views.{levels};
ghost use Rattle.pfc_types.specs.Blocks.{note};
ghost use Rattle.pfc_types.specs.rules.Constants.{same_ordinal, constant_value, constant_place};
ghost use Rattle.pfc_types.specs.rules.Declarations.{same_formal, same_formals, accept_rule, accepted, label_noted, labels_noted, stmt_state, stmts_state};
ghost use Rattle.pfc_types.specs.rules.Declarations.{body_state, arms_state, arm_state, accept_state, alts_state, alt_state};
ghost use Rattle.pfc_phrases.specs.Found.{refused};
ghost use Rattle.pfc_phrases.specs.Views.{ordinal_view};
ghost use Rattle.pfc_check.specs.States.{state_of, seen_in, labels_of};

use crate::state::{State, inside};
use indexmap::IndexSet;
use pfc_base::{Memory, Name, Place, Refusal};
use pfc_phrases::{Ordinal, constant_place, fault_unless, may_agree};
use pfc_tree::{Accept, Alt, Body, CaseArm, Comm, Constant, Group, Stmt};
use pfc_types::{Formal, Meaning, View};

/// The labels of one `case` so far, in the order of the text, each by the place of its type and its ordinal.
#[derive(Drop)]
struct Labels {
    seen: IndexSet<(u32, i32)>,
}

/// Whether a parameter of an accept is that of its entry. One of a faulty type is not compared.
fn same_formal(a: Formal, b: Formal) -> bool
    ensures { result ≡ same_formal a b }
{
    may_agree(a.t, b.t) && a.reference == b.reference
}

/// Whether an accept lists the parameters of its entry.
#[tactic(auto, using(crate::proofs::Lengths::same_formals_length))]
fn same_formals(fs: &[Formal], gs: &[Formal]) -> bool
    ensures { result ≡ same_formals fs.now gs.now }
{
    if fs.len() != gs.len() {
        return false;
    }
    for (i, f) in fs.iter().enumerate() {
        if !same_formal(*f, gs[i]) {
            return false;
        }
    }
    true
}

impl State {
    /// Whether an accept lists the parameters of its entry, which is one of the last process so far.
    fn accept_fault(
        &self,
        meaning: Option<Meaning>,
        formals: &[Formal],
        place: Place,
    ) -> Option<Refusal>
        ensures { refused result ≡ accept_rule (state_of self.now).blocks meaning formals.now place }
    {
        match meaning {
            Some(Meaning::Entry(k)) => {
                let n = self.scopes.processes().saturating_sub(1);
                fault_unless(
                    same_formals(formals, self.scopes.entry_formals(n, k)),
                    place,
                    415,
                )
            }
            _ => None,
        }
    }

    /// The parameters of an accept, which form a scope of their own.
    fn accepted(
        &mut self,
        name: &Name,
        groups: &[Group],
        place: Place,
        view: &View,
    ) -> Result<(), Memory>
        ensures { OnOk result (state_of self.new ≡ accepted (state_of self.old) (levels view.now) name.now (map group_view groups.now) place) }
    {
        let own = self.scopes.len();
        let meaning = self.look(view, name);
        self.open()?;
        let heading = self.accept_heading(groups, own, view)?;
        self.note(self.accept_fault(meaning, heading.formals.as_slice(), place))
    }

    /// One label. A faulty one is not compared.
    fn label(&mut self, c: &Constant, labels: &mut Labels, view: &View) -> Result<(), Memory>
        ensures { OnOk result (labels_of self.new labels.new ≡ label_noted (constant_value (state_of self.old).blocks.scopes (levels view.now) c.now)
            (constant_place c.now) (labels_of self.old labels.old)) }
    {
        let Some(value) = self.value(c, view) else {
            return Ok(());
        };
        if labels.hold(value) {
            return self.unless(false, constant_place(c), 320);
        }
        labels.push(value)
    }

    /// The labels of an arm.
    fn labels(&mut self, cs: &[Constant], labels: &mut Labels, view: &View) -> Result<(), Memory>
        ensures { OnOk result (labels_of self.new labels.new ≡ labels_noted (levels view.now) (labels_of self.old labels.old) cs.now) }
    {
        for c in cs {
            self.label(c, labels, view)?;
        }
        Ok(())
    }

    /// The accepts and the labels in a statement.
    #[cycle(stmts)]
    fn stmt(&mut self, s: &Stmt, view: &View) -> Result<(), Memory>
        ensures { OnOk result (state_of self.new ≡ stmt_state (state_of self.old) (levels view.now) (stmt_view s.now)) }
    {
        match s {
            Stmt::Empty
            | Stmt::Null(_)
            | Stmt::Requeue(..)
            | Stmt::Assign(..)
            | Stmt::Send(..)
            | Stmt::Receive(..)
            | Stmt::Call(..) => Ok(()),
            Stmt::Block(body, _) => self.stmts(&body.stmts, view),
            Stmt::If(_, then, other, _) => {
                self.stmt(then, view)?;
                match other {
                    None => Ok(()),
                    Some(other) => self.stmt(other, view),
                }
            }
            Stmt::Case(_, arms, _, _) => self.arms(arms, view),
            Stmt::While(_, inner, _) => self.stmt(inner, view),
            Stmt::Repeat(inner, _, _) => self.stmts(inner, view),
            Stmt::For(_, _, _, _, inner, _, _) => self.stmt(inner, view),
            Stmt::Cobegin(inner, _, _) => self.stmts(inner, view),
            Stmt::Accept(accept, _) => self.accept(accept, view),
            Stmt::Select(_, alts, other, _, _) => {
                self.alts(alts, view)?;
                match other {
                    None => Ok(()),
                    Some(other) => self.stmts(&other.0, view),
                }
            }
        }
    }

    #[cycle(stmts)]
    fn stmts(&mut self, ss: &[Stmt], view: &View) -> Result<(), Memory>
        ensures { OnOk result (state_of self.new ≡ stmts_state (state_of self.old) (levels view.now) (stmts_view ss.now)) }
    {
        for s in ss {
            self.stmt(s, view)?;
        }
        Ok(())
    }

    /// The accepts and the labels in a body.
    pub(crate) fn body(&mut self, body: &Body, view: &View) -> Result<(), Memory>
        ensures { OnOk result (state_of self.new ≡ body_state (state_of self.old) (levels view.now) (body_view body.now)) }
    {
        self.stmts(&body.stmts, view)
    }

    /// The arms of one `case`.
    #[cycle(stmts)]
    fn arms(&mut self, arms: &[CaseArm], view: &View) -> Result<(), Memory>
        ensures { OnOk result
            (state_of self.new ≡ (arms_state (levels view.now) (record { state = state_of self.old; seen = [] }) (arms_view arms.now)).state) }
    {
        let mut labels = Labels {
            seen: IndexSet::new(self.alloc),
        };
        for a in arms {
            self.arm(a, &mut labels, view)?;
        }
        Ok(())
    }

    #[cycle(stmts)]
    fn arm(&mut self, a: &CaseArm, labels: &mut Labels, view: &View) -> Result<(), Memory>
        ensures { OnOk result (labels_of self.new labels.new ≡ arm_state (levels view.now) (labels_of self.old labels.old) (arm_view a.now)) }
    {
        self.labels(&a.labels, labels, view)?;
        self.stmt(&a.stmt, view)
    }

    #[cycle(stmts)]
    fn accept(&mut self, a: &Accept, view: &View) -> Result<(), Memory>
        ensures { OnOk result (state_of self.new ≡ accept_state (state_of self.old) (levels view.now) (accept_view a.now)) }
    {
        let own = self.scopes.len();
        self.accepted(&a.name, &a.formals, a.place, view)?;
        match &a.stmt {
            None => Ok(()),
            Some(s) => {
                let inner = self.here(inside(own, &*view));
                self.stmt(s, &inner)
            }
        }
    }

    #[cycle(stmts)]
    fn alts(&mut self, alts: &[Alt], view: &View) -> Result<(), Memory>
        ensures { OnOk result (state_of self.new ≡ alts_state (state_of self.old) (levels view.now) (alts_view alts.now)) }
    {
        for a in alts {
            self.alt(a, view)?;
        }
        Ok(())
    }

    #[cycle(stmts)]
    fn alt(&mut self, a: &Alt, view: &View) -> Result<(), Memory>
        ensures { OnOk result (state_of self.new ≡ alt_state (state_of self.old) (levels view.now) (alt_view a.now)) }
    {
        match &a.comm {
            Comm::Accept(accept, _) => self.accept(accept, view)?,
            Comm::Send(..) | Comm::Receive(..) | Comm::Timeout(..) | Comm::Terminate(_) => {}
        }
        self.stmts(&a.rest, view)
    }
}

impl Labels {
    /// Whether a label is among those so far.
    fn hold(&self, c: Ordinal) -> bool
        ensures { result ≡ list_any (same_ordinal (ordinal_view c)) (seen_in self.now) }
    {
        self.seen.contains(&(c.t.place, c.value))
    }

    /// Adds a label behind those so far, which do not hold it.
    fn push(&mut self, c: Ordinal) -> Result<(), Memory>
        requires { list_any (same_ordinal (ordinal_view c)) (seen_in self.old) ≡ false }
        ensures { OnOk result (seen_in self.new ≡ seen_in self.old ++ ordinal_view c ∷ []) }
    {
        self.seen.insert((c.t.place, c.value))?;
        Ok(())
    }
}
