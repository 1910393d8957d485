//! The stacks of all processes.
ghost use Rattle.std.specs.Prelude.{◌≡◌, ◌≤◌, ◌<◌, ◌+◌, ◌-◌, ◌^◌, ℕ, ℤ, pos, max, Some, ◌∷◌, ◌++◌, length, take, drop, set, get_or, reverse, IfOk, IfSome};
ghost use Rattle.std.specs.Prelude.{Option};
ghost use Rattle.pfc_code.specs.Images.{plain_image};
ghost use Rattle.pfc_stacks.specs.Answers.{IsDone};
ghost use Rattle.pfc_stacks.specs.Conditions.{AreLive};
ghost use Rattle.pfc_stacks.specs.Effects.{quiet, with_outcome, within, passed};
ghost use Rattle.pfc_stacks.specs.Stacks.{Stack, stack_of, cells_of, operand, operands_of, written, first_in_view, own_number, block_place};
ghost use Rattle.pfc_stacks.specs.Starts.{begun, guard_room, is_guarded, main_entered, start_stacks};

use crate::Ref;
use crate::cells::{BLOCK_PLACE, word_at};
use crate::instructed::Performed;
use crate::stack::ProcessStack;
use pfc_base::{Memory, RunFault};
use pfc_code::{Block, Image, Object};
use std::alloc::Global;
use std::marker::Model;

/// The stacks of all processes of a program, by their numbers from 0, main being 0. Contracts see each as a plain stack:
/// its address, its cells, its operands with the top first, how many operands it may hold, and from where it counts static
/// links. Only `start`, `call`, `create`, `replace` and a performed `CALL` take memory.
#[derive(Drop)]
pub struct Stacks {
    pub(crate) alloc: Global,
    pub(crate) stacks: Vec<ProcessStack>,
}

impl Model for Stacks {
    ghost use Rattle.std.specs.Prelude.{◌≤◌, List, length};
    ghost use Rattle.pfc_stacks.specs.Stacks.{Stack};

    ghost Value = { List Stack };

    ghost view = { λ s. s.stacks.items };

    ghost invariant = { λ s. length s.stacks.items ≤ 1024 };
}

/// The most operands that a guarded procedure may hold.
fn guard_room(blocks: &[Block]) -> u32
    ensures { result ≡ guard_room blocks.now }
{
    let mut most = 0;
    for block in blocks {
        if block.entry != block.body {
            most = block.operands.max(most);
        }
    }
    most
}

/// The stacks of so many processes, of which the first is main's.
fn begun(
    alloc: Global,
    n: usize,
    main: ProcessStack,
    spare: u32,
) -> Result<Vec<ProcessStack>, Memory>
    requires { 0 < n }
    ensures { IfOk result (λ stacks. stacks.items ≡ begun n main spare) }
{
    let mut stacks = Vec::with_capacity(alloc, n)?;
    stacks.push(main)?;
    for _ in 1..n {
        stacks.push(ProcessStack::idle(alloc, spare))?;
    }
    Ok(stacks)
}

/// Main's stack before its first instruction.
fn main_entered(
    alloc: Global,
    number: u32,
    block: &Block,
    objects: &[Object],
    spare: u32,
) -> Result<ProcessStack, Memory>
    ensures { IfOk result (λ main. main ≡ main_entered number block.now objects.now spare) }
{
    let mut main = ProcessStack::entered(alloc, number, block, &[], block.cells as usize, spare)?;
    main.number_objects(objects);
    Ok(main)
}

impl Stacks {
    /// The stacks before the first instruction: main has entered its block, whose cells are all 0 but those of objects,
    /// which hold their numbers, and the others have begun nothing. An image without a main has no stacks. Its only refusal
    /// is want of memory.
    pub fn start(alloc: Global, image: &Image) -> Result<Stacks, Memory>
        requires { length image.now.processes.items ≤ 1024 }
        ensures { IfOk result (λ stacks. stacks ≡ start_stacks (plain_image image.now)) }
    {
        let n = image.processes.len();
        if let Some(main) = image.processes.first() {
            if let Some(block) = image.blocks.get(main.block as usize) {
                let spare = guard_room(&image.blocks);
                let first = main_entered(alloc, main.block, block, &image.objects, spare)?;
                let stacks = begun(alloc, n, first, spare)?;
                return Ok(Stacks { alloc, stacks });
            }
        }
        Ok(Stacks {
            alloc,
            stacks: Vec::new(alloc),
        })
    }

    /// How many processes there are: at most 1,024.
    pub fn processes(&self) -> u32
        ensures count { result ≡ length self.now }
        ensures few { result ≤ 1024 }
    {
        self.stacks.len() as u32
    }

    /// The operand of a process at a depth, the top at 0; 0 where there is none.
    pub fn top(&self, p: u32, k: u32) -> i64
        ensures { result ≡ operand (stack_of self.now p).operands k }
    {
        self.operand(p, k as usize)
    }

    /// Pops so many operands of a process, or all where it has fewer.
    pub fn cut(&mut self, p: u32, n: u32)
        ensures cut { self.new ≡ set self.old p (record (stack_of self.old p) { operands = drop n (stack_of self.old p).operands }) }
        ensures few { length (stack_of self.old p).operands ≤ (stack_of self.old p).room }
    {
        if (p as usize) < self.stacks.len() {
            let stack = &mut self.stacks[p as usize];
            stack.cut(n as usize);
        }
    }

    /// Pushes an operand of a process, which has room for it.
    pub fn push(&mut self, p: u32, v: i64)
        requires { length (stack_of self.old p).operands < (stack_of self.old p).room }
        ensures { self.new ≡ set self.old p (record (stack_of self.old p) { operands = v ∷ (stack_of self.old p).operands }) }
    {
        if (p as usize) < self.stacks.len() {
            let stack = &mut self.stacks[p as usize];
            stack.push(v);
        }
    }

    /// Writes z operands of a process, the last of them at depth k, to the z cells from an address on. They stay. The
    /// operands and the cells are there.
    pub fn copy_out(&mut self, p: u32, k: u32, z: u32, to: Ref)
        requires held { k + z ≤ length (stack_of self.old p).operands }
        requires live { AreLive self.old to z }
        ensures { self.new ≡ written self.old to (reverse (take z (drop k (stack_of self.old p).operands))) }
    {
        for j in 0..z as usize {
            let v = self.operand(p, k as usize + (z as usize - 1 - j));
            self.set_cell(to.process, to.cell as usize + j, v);
        }
    }

    /// Writes words to the cells from an address on, the first word to the first cell. The cells are there.
    pub fn write_words(&mut self, to: Ref, words: &[i64])
        requires { AreLive self.old to (length words.now) }
        ensures { self.new ≡ written self.old to words.now }
    {
        for j in 0..words.len() {
            self.set_cell(to.process, to.cell as usize + j, word_at(words, j));
        }
    }

    /// The process goes on at an address.
    pub fn go(&mut self, p: u32, at: u32)
        ensures { self.new ≡ set self.old p (record (stack_of self.old p) { at = at }) }
    {
        if (p as usize) < self.stacks.len() {
            let stack = &mut self.stacks[p as usize];
            stack.go(at);
        }
    }

    /// The address of the instruction of a process that comes next, from 0.
    pub fn at(&self, p: u32) -> u32
        ensures { result ≡ (stack_of self.now p).at }
    {
        match self.stacks.get(p as usize) {
            Some(stack) => stack.at(),
            None => 0,
        }
    }

    /// The line, from 1, of the instruction of a process that comes next; 0 where the image has none there.
    pub fn line(&self, image: &Image, p: u32) -> u32
        ensures { result ≡ get_or image.now.lines.items (stack_of self.now p).at 0 }
    {
        let at = self.at(p);
        image.lines.get(at as usize).copied().unwrap_or(0)
    }

    /// Where the own cells of the current activation of a process begin.
    pub fn base(&self, p: u32) -> u32
        ensures base { result ≡ (stack_of self.now p).base }
        ensures few { length self.now ≤ 1024 }
    {
        match self.stacks.get(p as usize) {
            Some(stack) => stack.base(),
            None => 0,
        }
    }

    /// The address of the next instruction of one of these processes.
    pub fn address(&self, p: u32) -> u32
        requires { p < length self.now }
        ensures { result ≡ (stack_of self.now p).at }
    {
        self.stacks[p as usize].at()
    }

    /// The number of the block of the last activation of a process; 0 where it has none.
    pub fn block(&self, p: u32) -> u32
        ensures { result ≡ own_number (stack_of self.now p) block_place }
    {
        match self.stacks.get(p as usize) {
            Some(stack) => stack.own_number(BLOCK_PLACE),
            None => 0,
        }
    }
}

impl Stacks {
    pub(crate) fn operand(&self, p: u32, k: usize) -> i64
        ensures { result ≡ operand (stack_of self.now p).operands k }
    {
        match self.stacks.get(p as usize) {
            Some(stack) => stack.operand(k),
            None => 0,
        }
    }

    /// The operand of a process at a depth, the top at 0, which is there.
    pub(crate) fn held(&self, p: u32, k: usize) -> i64
        requires process { p < length self.now }
        requires held { k < length (operands_of self.now p) }
        ensures { result ≡ operand (operands_of self.now p) k }
    {
        self.stacks[p as usize].held(k)
    }

    /// The cell of a process at a place, from 0; 0 where there is none.
    pub(crate) fn cell(&self, q: u32, k: usize) -> i64
        ensures { result ≡ get_or (cells_of self.now q) k (pos 0) }
    {
        match self.stacks.get(q as usize) {
            Some(stack) => stack.cell(k),
            None => 0,
        }
    }

    /// The cell of a process at a place, from 0, which is there.
    pub(crate) fn live_cell(&self, q: u32, k: usize) -> i64
        requires { k < length (cells_of self.now q) }
        ensures { result ≡ get_or (cells_of self.now q) k (pos 0) }
    {
        self.stacks[q as usize].live_cell(k)
    }

    /// Writes the cell of a process at a place, from 0, which is there.
    pub(crate) fn set_live_cell(&mut self, q: u32, k: usize, v: i64)
        requires { k < length (cells_of self.old q) }
        ensures { self.new ≡ set self.old q (record (stack_of self.old q) { cells = set (cells_of self.old q) k v }) }
    {
        self.stacks[q as usize].set_live_cell(k, v);
    }

    /// Writes the cell of a process at a place, from 0, where there is one.
    pub(crate) fn set_cell(&mut self, q: u32, k: usize, v: i64)
        ensures { self.new ≡ set self.old q (record (stack_of self.old q) { cells = set (cells_of self.old q) k v }) }
    {
        if (q as usize) < self.stacks.len() {
            let stack = &mut self.stacks[q as usize];
            stack.set_cell(k, v);
        }
    }

    /// Pops so many operands of a process, or all where it has fewer, which goes on at the next instruction.
    pub(crate) fn pass(&mut self, p: u32, n: usize)
        requires process { p < length self.old }
        requires next { (stack_of self.old p).at + 1 < 2 ^ 32 }
        ensures pass { self.new ≡ passed self.old p (drop n (stack_of self.old p).operands) }
        ensures few { length (stack_of self.old p).operands ≤ (stack_of self.old p).room }
    {
        let stack = &mut self.stacks[p as usize];
        let next = stack.at() + 1;
        stack.leave(n, next);
    }

    /// Pops so many operands of a process, pushes a word, and the process goes on at the next instruction.
    pub(crate) fn pass_pushing(&mut self, p: u32, n: usize, w: i64)
        requires process { p < length self.old }
        requires room { n ≡ 0 → length (operands_of self.old p) < (stack_of self.old p).room }
        requires held { n ≤ length (operands_of self.old p) }
        requires next { (stack_of self.old p).at + 1 < 2 ^ 32 }
        ensures { self.new ≡ passed self.old p (w ∷ drop n (operands_of self.old p)) }
    {
        let stack = &mut self.stacks[p as usize];
        stack.pass_with(n, w);
    }

    /// Pops so many operands of a process, pushes the value of an evaluation that has no fault, and the process goes on at the next instruction.
    pub(crate) fn pass_value(&mut self, p: u32, n: usize, v: i64) -> Performed
        requires process { p < length self.old }
        requires some { 0 < n }
        requires held { n ≤ length (operands_of self.old p) }
        requires next { (stack_of self.old p).at + 1 < 2 ^ 32 }
        ensures { IsDone (within self.old p (quiet ((stack_of self.old p).at + 1) (v ∷ drop n (operands_of self.old p)))) self.old result self.new }
    {
        self.stacks[p as usize].pass_value(n, v)
    }

    /// The same with what came of an evaluation; a fault changes nothing.
    pub(crate) fn pass_outcome(
        &mut self,
        p: u32,
        n: usize,
        outcome: Result<i64, RunFault>,
    ) -> Performed
        requires process { p < length self.old }
        requires some { 0 < n }
        requires held { n ≤ length (operands_of self.old p) }
        requires next { (stack_of self.old p).at + 1 < 2 ^ 32 }
        ensures { IsDone (within self.old p (with_outcome (stack_of self.old p).at (drop n (operands_of self.old p)) outcome)) self.old result self.new }
    {
        self.stacks[p as usize].pass_outcome(n, outcome)
    }

    /// The activation from which a process counts static links.
    pub(crate) fn first_in_view(&self, p: u32) -> Ref
        requires { p < length self.now }
        ensures first { result ≡ first_in_view self.now p }
        ensures few { result.process < 1024 }
    {
        let stack = &self.stacks[p as usize];
        match stack.looks_from() {
            Some(w) => Ref {
                process: w,
                cell: self.base(w),
            },
            None => Ref {
                process: p,
                cell: stack.base(),
            },
        }
    }
}
