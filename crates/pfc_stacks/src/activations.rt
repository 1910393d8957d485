//! How activations of one process begin and end.
ghost use Rattle.std.specs.Prelude.{◌≡◌, ◌≤◌, ◌<◌, ◌+◌, ◌^◌, nat_le, length, Option};
ghost use Rattle.pfc_stacks.specs.Activations.{size_of, called, returned, returned_with, result_in, params_of, replaced, mark_in, caller_of, has_mark_at};
ghost use Rattle.pfc_stacks.specs.Activations.{has_mark};
ghost use Rattle.pfc_stacks.specs.declared.marks.Mark.{Mark};
ghost use Rattle.pfc_stacks.specs.Answers.{IsCalled};
ghost use Rattle.pfc_stacks.specs.Stacks.{own_cells};

use crate::Mark;
use crate::cells::{
    ADDRESS_PLACE, BLOCK_PLACE, CALLER_PLACE, MARK_PLACE, OWN_CELLS, Own, UNDER_PLACE, has_place,
    others_of, push_block, push_own, size_of, write_word,
};
use crate::instructed::CallFault;
use crate::refs::number_in;
use crate::stack::ProcessStack;
use pfc_code::Block;

impl ProcessStack {
    /// Calls a block, by its number in the image, with its arguments on top, a static link and a mark. There may be so many
    /// cells. All memory is taken before anything is changed.
    #[inline(always)]
    pub(crate) fn call(
        &mut self,
        number: u32,
        block: &Block,
        link: i64,
        mark: Mark,
        most: u32,
    ) -> Result<(), CallFault>
        requires { block.now.params ≤ length self.old.operands }
        ensures { IsCalled (nat_le (length self.old.cells + size_of block.now) most) self.old (called number block.now link mark self.old) result self.new }
    {
        let size = size_of(block);
        let params = block.params as usize;
        let below = self.cells.len();
        if !has_place(below, size, most) {
            return Err(CallFault::Stack);
        }
        let under = self.operands.len() - params;
        self.cells.reserve(size)?;
        self.operands
            .make_room(under + block.operands as usize + self.spare as usize)?;
        let own = Own {
            address: u64::from(self.at) + 1,
            block: number,
            mark,
            link,
            caller: self.base,
            under: under as u32,
        };
        push_own(&mut self.cells, own);
        push_block(
            &mut self.cells,
            self.operands.last(params),
            others_of(block),
        );
        self.operands.cut(params);
        self.at = block.entry;
        self.base = below as u32;
        Ok(())
    }

    /// The last activation ends, and its caller goes on.
    pub(crate) fn end_call(&mut self)
        ensures { self.new ≡ returned self.old }
    {
        let address = self.own_number(ADDRESS_PLACE);
        let caller = self.own_number(CALLER_PLACE);
        self.cells.truncate(self.base as usize);
        self.at = address;
        self.base = caller;
    }

    /// The last activation, which is a function's, ends, and its caller goes on with the result.
    pub(crate) fn end_function(&mut self, v: i64)
        requires { length self.old.operands < self.old.room }
        ensures { self.new ≡ returned_with v self.old }
    {
        self.end_call();
        self.push(v);
    }

    /// The cell behind so many parameters of the last activation, where a function has its result.
    pub(crate) fn result(&self, params: u32) -> i64
        ensures { (block : Option Block) → params_of block ≡ params → result ≡ result_in block self.now }
    {
        self.cell(self.base as usize + (OWN_CELLS + params as usize))
    }

    /// Puts a block, by its number in the image, in the place of the last activation's, with its arguments on top. There may
    /// be so many cells. All memory is taken before anything is changed.
    pub(crate) fn replace(&mut self, number: u32, block: &Block, most: u32) -> Result<(), CallFault>
        requires { block.now.params ≤ length self.old.operands }
        ensures { IsCalled (nat_le (self.old.base + size_of block.now) most) self.old (replaced number block.now self.old) result self.new }
    {
        let size = size_of(block);
        let base = self.base as usize;
        if !has_place(base, size, most) {
            return Err(CallFault::Stack);
        }
        let under = self.own_count(UNDER_PLACE);
        let left = self.operands.len().min(under);
        self.cells.reserve(size)?;
        self.operands
            .make_room(left + block.operands as usize + self.spare as usize)?;
        self.cells.truncate(base + OWN_CELLS);
        write_word(&mut self.cells, base + BLOCK_PLACE, i64::from(number));
        let args = self.operands.last(block.params as usize);
        push_block(&mut self.cells, args, others_of(block));
        self.operands.keep(under);
        self.at = block.entry;
        Ok(())
    }

    /// The mark of the last activation.
    pub(crate) fn mark(&self) -> Mark
        ensures { result ≡ mark_in self.now }
    {
        Mark::of(self.own_word(MARK_PLACE))
    }

    /// The activation whose own cells begin there has the mark of a monitor.
    fn has_mark_at(&self, base: u32, m: u32) -> bool
        ensures { result ≡ has_mark_at (Mark.Monitor m) self.now.cells base }
    {
        self.cell(base as usize + MARK_PLACE) == Mark::Monitor(m).word()
    }

    /// Where the own cells of its caller begin.
    fn caller_of(&self, base: u32) -> u32
        ensures { result ≡ caller_of self.now.cells base }
    {
        number_in(self.cell(base as usize + CALLER_PLACE))
    }

    /// Some activation has the mark of a monitor.
    pub(crate) fn has_mark(&self, m: u32) -> bool
        ensures { result ≡ has_mark m self.now }
    {
        let mut base = self.base();
        for _ in 0..self.base() {
            if self.has_mark_at(base, m) {
                return true;
            }
            let caller = self.caller_of(base);
            if caller >= base {
                return false;
            }
            base = caller;
        }
        self.has_mark_at(base, m)
    }
}
