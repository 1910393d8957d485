//! Selects and communication: what is open, and what is gone through.

use crate::Stmts;
use pfc_store::{Spot, Value};
use pfc_tree::{Alt, Stmt};

/// What an open alternative, or a plain communication, waits to do.
#[derive(Drop)]
pub enum Offer<'a> {
    /// To send a value on a channel.
    Send(Spot, Value),
    /// To receive from a channel into a variable; over a channel of `synchronous` into none.
    Receive(Spot, Option<Spot>),
    Accept(Accepting<'a>),
    /// To wait so many seconds at most, or to terminate.
    Wait(i64),
    End,
}

/// An accept: the number of the entry, the scope of its parameters, its statement, none without `do`, and the line of its `accept`.
#[derive(Clone, Copy)]
pub struct Accepting<'a> {
    pub entry: u32,
    pub scope: u32,
    pub stmt: Option<&'a Box<Stmt>>,
    pub line: u32,
}

/// The write of a replicated alternative: its variable, by the scope that declares it and its place there, the value, and the line of the
/// select.
#[derive(Clone, Copy)]
pub struct Replica {
    pub scope: u32,
    pub variable: u32,
    pub value: i64,
    pub line: u32,
}

/// An alternative that is open, with its replica where it is replicated, and the statements behind it, whose next scope has this number. A
/// plain `!`, `?` or `accept` is one without statements.
#[derive(Drop)]
pub struct Open<'a> {
    pub offer: Offer<'a>,
    pub replica: Option<Replica>,
    pub next: u32,
    pub stmts: Stmts<'a>,
}

/// An alternative that is not yet gone through: one of the text, or one value of a replicated one. The number is that of its next scope.
#[derive(Clone, Copy)]
pub struct Alternative<'a> {
    pub replica: Option<Replica>,
    pub alt: &'a Alt,
    pub next: u32,
}

/// The statements behind `else`.
#[derive(Clone, Copy)]
pub struct Otherwise<'a> {
    pub next: u32,
    pub stmts: Stmts<'a>,
}

/// A select: whether it is `pri`, the alternatives that were found open so far, in the order of the text, and its `else` part.
#[derive(Drop)]
pub struct Selecting<'a> {
    pub pri: bool,
    pub offered: Vec<Open<'a>>,
    pub otherwise: Option<Otherwise<'a>>,
}

/// A select that is gone through: the alternative at hand, all of them, the place behind the one at hand, and what was found open before.
#[derive(Drop)]
pub struct Choosing<'a> {
    pub current: Alternative<'a>,
    pub all: Vec<Alternative<'a>>,
    pub behind: usize,
    pub select: Selecting<'a>,
}
