//! The stack of one process.
ghost use Rattle.std.specs.Prelude.{◌≡◌, ◌≤◌, ◌<◌, ◌+◌, ◌^◌, ℤ, pos, [], ◌∷◌, length, ◌++◌, take, drop, set, get_or, reverse, IfOk, IfSome, Ok};
ghost use Rattle.pfc_stacks.specs.Answers.{own_effect_by, Changes};
ghost use Rattle.pfc_stacks.specs.Effects.{quiet, with_outcome};
ghost use Rattle.pfc_stacks.specs.Stacks.{operand, idle_stack, own_count, own_word, own_number};
ghost use Rattle.pfc_stacks.specs.Starts.{numbered};
ghost use Rattle.pfc_stacks.specs.Activations.{entered, first_own, own_words, block_cells};

use crate::Mark;
use crate::cells::{MAIN_LINK, OWN_CELLS, Own, push_block, push_own};
use crate::instructed::Performed;
use crate::operands::Operands;
use crate::refs::number_in;
use pfc_base::{Memory, RunFault};
use pfc_code::{Block, Object};
use std::alloc::Global;
use std::marker::Model;

/// The stack of one process: the address of its next instruction, the cells of its activations, of which the last one
/// begins at `base`, its operands, and the process from whose last activation it counts static links, where that is
/// another.
#[derive(Drop)]
pub(crate) struct ProcessStack {
    pub(crate) at: u32,
    pub(crate) base: u32,
    pub(crate) cells: Vec<i64>,
    pub(crate) operands: Operands,
    pub(crate) spare: u32,
    looks_from: Option<u32>,
}

impl Model for ProcessStack {
    ghost use Rattle.std.specs.Prelude.{◌<◌, IfSome};
    ghost use Rattle.pfc_stacks.specs.Stacks.{Stack};

    ghost Value = { Stack };

    ghost view = { λ s. record {
      at = s.at;
      base = s.base;
      cells = s.cells.items;
      operands = s.operands.words;
      room = s.operands.room;
      spare = s.spare;
      looks_from = s.looks_from;
    } };

    ghost invariant = { λ s. IfSome s.looks_from (λ w. w < 1024) };
}

/// The cells of a process in its first activation: its own, the arguments, and so many others.
fn first_cells(alloc: Global, number: u32, args: &[i64], others: usize) -> Result<Vec<i64>, Memory>
    requires few { length args.now < 2 ^ 32 }
    requires others { others < 2 ^ 32 }
    ensures { IfOk result (λ cells. cells.items ≡ own_words (first_own number) ++ block_cells args.now others) }
{
    let own = Own {
        address: 0,
        block: number,
        mark: Mark::Plain,
        link: MAIN_LINK,
        caller: 0,
        under: 0,
    };
    let mut cells = Vec::with_capacity(alloc, OWN_CELLS + args.len() + others)?;
    push_own(&mut cells, own);
    push_block(&mut cells, args, others);
    Ok(cells)
}

impl ProcessStack {
    /// A process that has begun nothing.
    pub(crate) fn idle(alloc: Global, spare: u32) -> ProcessStack
        ensures { result ≡ idle_stack spare }
    {
        ProcessStack {
            at: 0,
            base: 0,
            cells: Vec::new(alloc),
            operands: Operands::none(alloc),
            spare,
            looks_from: None,
        }
    }

    /// A process before the first instruction of a block, with its arguments and so many other cells. Its only refusal is
    /// want of memory.
    pub(crate) fn entered(
        alloc: Global,
        number: u32,
        block: &Block,
        args: &[i64],
        others: usize,
        spare: u32,
    ) -> Result<ProcessStack, Memory>
        requires few { length args.now < 2 ^ 32 }
        requires others { others < 2 ^ 32 }
        ensures { IfOk result (λ stack. stack ≡ entered number block.now args.now others spare) }
    {
        let cells = first_cells(alloc, number, args, others)?;
        let operands = Operands::with_room(alloc, block.operands as usize + spare as usize)?;
        Ok(ProcessStack {
            at: block.entry,
            base: 0,
            cells,
            operands,
            spare,
            looks_from: None,
        })
    }

    /// Each object's cell holds its number.
    pub(crate) fn number_objects(&mut self, objects: &[Object])
        ensures { self.new ≡ record self.old { cells = numbered objects.now self.old.cells } }
    {
        for object in objects {
            let place = OWN_CELLS + object.cell as usize;
            self.set_cell(place, i64::from(object.number));
        }
    }

    pub(crate) fn at(&self) -> u32
        ensures { result ≡ self.now.at }
    {
        self.at
    }

    pub(crate) fn base(&self) -> u32
        ensures { result ≡ self.now.base }
    {
        self.base
    }

    pub(crate) fn spare(&self) -> u32
        ensures { result ≡ self.now.spare }
    {
        self.spare
    }

    pub(crate) fn looks_from(&self) -> Option<u32>
        ensures other { result ≡ self.now.looks_from }
        ensures few { IfSome result (λ w. w < 1024) }
    {
        self.looks_from
    }

    /// From now on static links are counted from there.
    pub(crate) fn look_from(&mut self, w: Option<u32>)
        requires { IfSome w (λ q. q < 1024) }
        ensures { self.new ≡ record self.old { looks_from = w } }
    {
        self.looks_from = w;
    }

    /// The cell at a place, from 0; 0 where there is none.
    pub(crate) fn cell(&self, k: usize) -> i64
        ensures { result ≡ get_or self.now.cells k (pos 0) }
    {
        self.cells.get(k).copied().unwrap_or(0)
    }

    /// The cell at a place, from 0, which is there.
    pub(crate) fn live_cell(&self, k: usize) -> i64
        requires { k < length self.now.cells }
        ensures { result ≡ get_or self.now.cells k (pos 0) }
    {
        self.cells[k]
    }

    /// Writes the cell at a place, from 0, which is there.
    pub(crate) fn set_live_cell(&mut self, k: usize, v: i64)
        requires { k < length self.old.cells }
        ensures { self.new ≡ record self.old { cells = set self.old.cells k v } }
    {
        self.cells[k] = v;
    }

    /// The own cell of the last activation at a place, from 0.
    pub(crate) fn own_word(&self, k: usize) -> i64
        requires { k < 8 }
        ensures { result ≡ own_word self.now k }
    {
        self.cell(self.base as usize + k)
    }

    /// The number that it holds.
    pub(crate) fn own_number(&self, k: usize) -> u32
        requires { k < 8 }
        ensures { result ≡ own_number self.now k }
    {
        number_in(self.own_word(k))
    }

    /// How many operands it counts, which may have more than 32 bits.
    pub(crate) fn own_count(&self, k: usize) -> usize
        requires { k < 8 }
        ensures { result ≡ own_count self.now k }
    {
        self.own_word(k).unsigned_abs() as usize
    }

    /// Writes the cell at a place, from 0, where there is one.
    pub(crate) fn set_cell(&mut self, k: usize, v: i64)
        ensures { self.new ≡ record self.old { cells = set self.old.cells k v } }
    {
        if k < self.cells.len() {
            self.cells[k] = v;
        }
    }

    /// The operand at a depth, the top at 0; 0 where there is none.
    pub(crate) fn operand(&self, k: usize) -> i64
        ensures { result ≡ operand self.now.operands k }
    {
        self.operands.at(k)
    }

    /// The operand at a depth, the top at 0, which is there.
    pub(crate) fn held(&self, k: usize) -> i64
        requires { k < length self.now.operands }
        ensures { result ≡ operand self.now.operands k }
    {
        self.operands.held(k)
    }

    /// The last so many operands, the deepest first.
    pub(crate) fn last(&self, n: usize) -> &[i64]
        requires { n ≤ length self.now.operands }
        ensures words { result.now ≡ reverse (take n self.now.operands) }
        ensures count { length result.now ≡ n }
    {
        self.operands.last(n)
    }

    /// Writes the operand at a depth, where there is one.
    pub(crate) fn set_operand(&mut self, k: usize, v: i64)
        ensures { self.new ≡ record self.old { operands = set self.old.operands k v } }
    {
        self.operands.set(k, v);
    }

    pub(crate) fn push(&mut self, v: i64)
        requires { length self.old.operands < self.old.room }
        ensures { self.new ≡ record self.old { operands = v ∷ self.old.operands } }
    {
        self.operands.push(v);
    }

    /// Pops so many operands, or all where there are fewer.
    pub(crate) fn cut(&mut self, n: usize)
        ensures cut { self.new ≡ record self.old { operands = drop n self.old.operands } }
        ensures few { length self.old.operands ≤ self.old.room }
    {
        self.operands.cut(n);
    }

    pub(crate) fn go(&mut self, at: u32)
        ensures { self.new ≡ record self.old { at = at } }
    {
        self.at = at;
    }

    /// Goes on at the next instruction.
    pub(crate) fn pass(&mut self)
        requires { self.old.at + 1 < 2 ^ 32 }
        ensures { self.new ≡ record self.old { at = self.old.at + 1 } }
    {
        self.at += 1;
    }

    /// Pops so many operands, and goes on at an address.
    pub(crate) fn leave(&mut self, n: usize, at: u32)
        ensures leave { self.new ≡ record self.old { at = at; operands = drop n self.old.operands } }
        ensures few { length self.old.operands ≤ self.old.room }
    {
        self.operands.cut(n);
        self.at = at;
    }

    /// Pops so many operands, pushes a word, and goes on at the next instruction.
    pub(crate) fn pass_with(&mut self, n: usize, v: i64)
        requires room { n ≡ 0 → length self.old.operands < self.old.room }
        requires held { n ≤ length self.old.operands }
        requires next { self.old.at + 1 < 2 ^ 32 }
        ensures { self.new ≡ record self.old { at = self.old.at + 1; operands = v ∷ drop n self.old.operands } }
    {
        self.operands.replace(n, v);
        self.at += 1;
    }

    /// Pops so many operands, pushes the value of an evaluation that has no fault, and goes on at the next instruction.
    pub(crate) fn pass_value(&mut self, n: usize, v: i64) -> Performed
        requires some { 0 < n }
        requires held { n ≤ length self.old.operands }
        requires next { self.old.at + 1 < 2 ^ 32 }
        ensures effect { quiet (self.old.at + 1) (v ∷ drop n self.old.operands) ≡ own_effect_by result self.new.at self.new.operands }
        ensures changes { Changes result self.old self.new }
    {
        self.pass_with(n, v);
        Performed::Passed
    }

    /// The same with what came of an evaluation; a fault changes nothing.
    pub(crate) fn pass_outcome(&mut self, n: usize, outcome: Result<i64, RunFault>) -> Performed
        requires some { 0 < n }
        requires held { n ≤ length self.old.operands }
        requires next { self.old.at + 1 < 2 ^ 32 }
        ensures effect { with_outcome self.old.at (drop n self.old.operands) outcome ≡ own_effect_by result self.new.at self.new.operands }
        ensures changes { Changes result self.old self.new }
    {
        match outcome {
            Ok(v) => {
                self.pass_with(n, v);
                Performed::Passed
            }
            Err(fault) => Performed::Faulted(fault),
        }
    }
}
