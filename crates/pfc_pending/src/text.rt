//! Parts of the text that are held while they wait.
//!
//! A list is held whole, with the place from which it counts: so a part that is pending is small.

use pfc_tree::{Actual, Stmt};

/// The statements of a list from a place on.
#[derive(Clone, Copy)]
pub struct Stmts<'a> {
    pub list: &'a Vec<Stmt>,
    pub from: usize,
}

/// One statement: that of a list at a place, none where the list ends before it; or one that stands alone.
#[derive(Clone, Copy)]
pub enum OneStmt<'a> {
    Listed(&'a Vec<Stmt>, usize),
    Alone(&'a Box<Stmt>),
}

/// The arguments of a list from a place on.
#[derive(Clone, Copy)]
pub struct Actuals<'a> {
    pub list: &'a Vec<Actual>,
    pub from: usize,
}
