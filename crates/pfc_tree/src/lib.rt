//! The tree of a program, and its writing.
//!
//! It promises that `write_tokens` gives the kinds of the tokens that write a tree, and it states the
//! grammar by that writing alone: which trees are lawful, which lists of kinds are programs, and where
//! a list of kinds goes wrong. It never reads tokens.
#![tactic(auto)]

mod laws;
mod tree;
mod writer;

pub use laws::{each_token_has_a_depth, each_token_is_passed, syntax_fault_is_determined};
pub use tree::{
    Accept, Actual, AddOp, Alt, Body, CaseArm, Comm, ConstItem, Constant, Desig, Entry, Expr,
    Factor, Group, Module, MulOp, Part, Process, Range, Relation, Selector, Sign, Simple, Spread,
    Stmt, Sub, SubKind, Term, Tree, TypeItem, TypeNode, VarItem,
};
pub use writer::write_tokens;
