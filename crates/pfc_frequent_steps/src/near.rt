//! What is at hand most often, and what is pending most often, in small values.
ghost use Rattle.std.specs.Prelude.{◌≡◌, IfSome};
ghost use Rattle.pfc_program.specs.declared.tables.Tables.{Tables};
ghost use Rattle.pfc_semantics.specs.Remainders.{Context};
ghost use Rattle.pfc_pending.specs.Ahead.{ahead};
ghost use Rattle.pfc_pending.specs.Waiting.{Waiting};
ghost use Rattle.pfc_frequent_steps.specs.Near.{near_ahead};

use pfc_base::{Place, RunFault};
use pfc_frequent_parts::Indexed;
use pfc_pending::{At, Deed, OneStmt, Stmts};
use pfc_store::{Spot, Value};
use pfc_tree::{AddOp, Expr, Factor, MulOp, Relation, Sign, Simple, Term};

/// What is at hand most often: nothing, a number, a part of the text, or an action.
#[derive(Drop)]
pub(crate) enum Near<'t> {
    Rest,
    Number(i64),
    Expr(&'t Expr),
    Simple(&'t Simple),
    Term(&'t Term),
    Factor(&'t Factor),
    Stmt(u32, OneStmt<'t>),
    Stmts(u32, Stmts<'t>),
    Turns,
    Reads(Spot),
    Writes(Spot, i64),
    Finishes(u32),
    Faults(RunFault),
}

/// A part that is pending for a number.
#[derive(Drop)]
pub(crate) enum Waits<'t> {
    BeginSum(Option<(Sign, Place)>, &'t [((AddOp, Place), Term)]),
    AddTo(i64, AddOp, &'t [((AddOp, Place), Term)]),
    BeginProduct(&'t [((MulOp, Place), Factor)]),
    MultiplyBy(i64, MulOp, &'t [((MulOp, Place), Factor)]),
    CompareWith(Relation, &'t Simple),
    CompareTo(i64, Relation),
    StoreAt(Spot),
}

/// A part that is pending behind a statement: the end of a body, statements, the way back of a loop, the loop once more, and the test of a
/// `repeat`.
#[derive(Clone, Copy)]
pub(crate) enum Behind<'t> {
    Ends(u32),
    Perform(u32, Stmts<'t>),
    Turn(u32, OneStmt<'t>),
    Again(u32, OneStmt<'t>),
    Until(u32, OneStmt<'t>),
}

/// Which test of a statement waits for its value: that of an `if`, of a `case`, of a `while`, of a `repeat`.
#[derive(Clone, Copy)]
pub(crate) enum Test {
    Choose,
    ChooseArm,
    WhileTrue,
    UntilTrue,
}

/// A test that is pending for a number, and its statement, before which the next scope of the text has the number n.
#[derive(Clone, Copy)]
pub(crate) struct Tested<'t> {
    pub(crate) n: u32,
    pub(crate) s: OneStmt<'t>,
    pub(crate) test: Test,
}

/// What a step comes to: other at hand, perhaps over one more that is pending; the index of an element that is read, or that is assigned to,
/// over its array.
#[derive(Drop)]
pub(crate) enum Next<'t> {
    On(Near<'t>),
    Over(Waits<'t>, Near<'t>),
    Ahead(Behind<'t>, Near<'t>),
    Tests(Tested<'t>, Near<'t>),
    ToRead(Indexed<'t>),
    ToAssign(Indexed<'t>, &'t Expr),
}

/// What a statement comes to, with the line that it has.
#[derive(Drop)]
pub(crate) struct Entered<'t> {
    pub(crate) line: u32,
    pub(crate) next: Next<'t>,
}

/// Where one step comes to: other at hand, or no step.
#[derive(Drop)]
pub(crate) enum Went<'t> {
    On(Near<'t>),
    Ends(Near<'t>),
}

/// What is at hand, where it is frequent.
#[tactic(auto, using(crate::proofs::Numbers::numbers))]
#[inline(always)]
pub(crate) fn frequent<'t>(at: &At<'t>) -> Option<Near<'t>>
    ensures { IfSome result (λ n. (t : Tables) (c : Context) (w : Waiting) → near_ahead t c w n ≡ ahead t c w at.now) }
{
    match at {
        At::Rest => Some(Near::Rest),
        At::Value(Value::Ordinal(n)) => Some(Near::Number(*n)),
        At::Expr(e) => Some(Near::Expr(*e)),
        At::Simple(s) => Some(Near::Simple(*s)),
        At::Term(t) => Some(Near::Term(*t)),
        At::Factor(f) => Some(Near::Factor(*f)),
        At::Stmt(n, s) => Some(Near::Stmt(*n, *s)),
        At::Stmts(n, ss) => Some(Near::Stmts(*n, *ss)),
        _ => None,
    }
}

impl<'t> Near<'t> {
    /// The same, as what is at hand.
    pub(crate) fn at_hand(self) -> At<'t>
        ensures { (t : Tables) (c : Context) (w : Waiting) → ahead t c w result ≡ near_ahead t c w self.entry }
    {
        match self {
            Near::Rest => At::Rest,
            Near::Number(n) => At::Value(Value::of(n)),
            Near::Expr(e) => At::Expr(e),
            Near::Simple(s) => At::Simple(s),
            Near::Term(t) => At::Term(t),
            Near::Factor(f) => At::Factor(f),
            Near::Stmt(n, s) => At::Stmt(n, s),
            Near::Stmts(n, ss) => At::Stmts(n, ss),
            Near::Turns => At::Deed(Deed::Turns),
            Near::Reads(spot) => At::Deed(Deed::Reads(spot)),
            Near::Writes(spot, n) => At::Deed(Deed::Writes(spot, Value::of(n))),
            Near::Finishes(line) => At::Deed(Deed::Finishes(line)),
            Near::Faults(fault) => At::Deed(Deed::Faults(fault)),
        }
    }
}
