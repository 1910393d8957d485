//! What is at hand.

use crate::{Actuals, Choosing, Deed, Goal, OneStmt, Passing, Pending, Stmts};
use pfc_base::Place;
use pfc_store::{TypedSpot, Value};
use pfc_tree::{Actual, AddOp, Expr, Factor, MulOp, Selector, Simple, Term};

/// What is at hand: it is taken apart next.
#[derive(Drop)]
pub enum At<'a> {
    /// Nothing: on with what is pending.
    Rest,
    /// A statement, and statements, whose next scope of the text has this number.
    Stmt(u32, OneStmt<'a>),
    Stmts(u32, Stmts<'a>),
    /// The items of a `write` and the variables of a `read` that are left.
    Writes(Actuals<'a>, bool),
    Reads(Actuals<'a>, bool),
    /// One item of a `write`.
    Item(&'a Actual),
    /// A value, for what waits for one.
    Value(Value),
    /// Parts of expressions.
    Expr(&'a Expr),
    Simple(&'a Simple),
    Summands(Value, &'a [((AddOp, Place), Term)]),
    Term(&'a Term),
    Multipliers(Value, &'a [((MulOp, Place), Factor)]),
    Factor(&'a Factor),
    /// A variable's part, with the indices of a selector and the selectors that are left behind it.
    Part(TypedSpot, &'a [Expr], &'a [Selector], Goal<'a>),
    /// The arguments of a call.
    Passing(Passing<'a>),
    /// A select behind the alternative that was at hand; before the replica of the one at hand; before its guard; where it is open.
    Alternatives(Box<Choosing<'a>>),
    Replicated(Box<Choosing<'a>>),
    Guarded(Box<Choosing<'a>>),
    Opened(Box<Choosing<'a>>),
    /// The action that comes next.
    Deed(Deed<'a>),
}

/// What a part comes to: other at hand, perhaps over one more that is pending.
#[derive(Drop)]
pub enum Step<'a> {
    On(At<'a>),
    Under(Pending<'a>, At<'a>),
}

/// What a statement comes to: a step in it, with the line that it has.
#[derive(Drop)]
pub struct Begun<'a> {
    pub line: u32,
    pub step: Step<'a>,
}
