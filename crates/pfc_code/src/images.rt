//! The image of a program: all that a run needs of it.

use crate::Instr;
use pfc_base::{Name, Text};

/// The body of a sub, of a guarded procedure, of a process or of the program.
#[derive(PartialEq, Eq, Drop)]
pub struct Block {
    /// The name that was declared.
    pub label: Name,
    /// The address of its first instruction, from 0: for a guarded procedure that of its guard.
    pub entry: u32,
    /// The address of its body's first instruction.
    pub body: u32,
    /// How many cells its parameters take; a reference takes one.
    pub params: u32,
    /// How many cells an activation of it has: parameters, result, variables, and the parameters of accepts.
    pub cells: u32,
    /// The most operands that its code may hold.
    pub operands: u32,
    /// How deep it is nested, from 0 for the program's own body.
    pub level: u32,
    /// The line of its `begin`, from 1.
    pub line: u32,
}

/// A process of the program, with its number as its place in the image.
#[derive(PartialEq, Eq, Drop)]
pub struct ProcessInfo {
    /// The place of its block, from 0.
    pub block: u32,
    /// What a report calls it: the process's name, or a variable with its selectors.
    pub label: Text,
}

/// An object of the program: a semaphore, a channel, a condition or a process.
#[derive(Clone, Copy, Debug, PartialEq, Eq)]
pub struct Object {
    /// The cell of the program's block at which it lies, from 0.
    pub cell: u32,
    /// Its number among the objects of its kind: processes count from 1, the others from 0.
    pub number: u32,
}

/// The image of a program.
#[derive(PartialEq, Eq, Drop)]
pub struct Image {
    /// The instructions, by their address from 0.
    pub code: Vec<Instr>,
    /// The line of each instruction, from 1.
    pub lines: Vec<u32>,
    /// The blocks, in the order of their `begin`; the program's own is the last.
    pub blocks: Vec<Block>,
    /// The processes, by their number; the program's own is 0.
    pub processes: Vec<ProcessInfo>,
    /// The objects, by their cell.
    pub objects: Vec<Object>,
    /// The strings that the program writes, in the order of its text.
    pub texts: Vec<Text>,
    /// How many semaphores there are.
    pub semaphores: u32,
    /// How many channels there are.
    pub channels: u32,
    /// The monitor of each condition, by the condition's number.
    pub conditions: Vec<u32>,
    /// How many monitors there are.
    pub monitors: u32,
    /// The address of the `SCAN` of each resource, by the resource's number.
    pub scans: Vec<u32>,
    /// The most alternatives that one select has.
    pub arms: u32,
}
