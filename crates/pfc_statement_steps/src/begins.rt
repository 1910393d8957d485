//! What a statement comes to.

use pfc_pending::{Begun, Otherwise};
use pfc_program::Names;
use pfc_tree::Alt;

/// What a statement comes to: a step in it, or a select that begins.
#[derive(Drop)]
pub enum Begin<'t> {
    Step(Begun<'t>),
    Select(Select<'t>),
}

/// A select that begins: whether it is `pri`, its alternatives, its `else` part, and its line.
#[derive(Clone, Copy)]
pub struct Select<'t> {
    pub pri: bool,
    pub alts: &'t Vec<Alt>,
    pub otherwise: Option<Otherwise<'t>>,
    pub line: u32,
}

/// What comes where a statement has ended: a step, and the names that are in view from there on, where they are others than before.
#[derive(Drop)]
pub struct Resumed<'t> {
    pub names: Option<Names>,
    pub begun: Begun<'t>,
}
