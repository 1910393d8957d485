//! How activations begin and end, of all processes.
ghost use Rattle.std.specs.Prelude.{◌≡◌, ◌≤◌, ◌<◌, ◌+◌, ◌-◌, ◌^◌, ℕ, Some, length, set, List, IfSome, IfOk};
ghost use Rattle.std.specs.List.{slice_get};
ghost use Rattle.pfc_code.specs.declared.images.Block.{Block};
ghost use Rattle.pfc_code.specs.declared.instructions.Instr.{Instr};
ghost use Rattle.pfc_stacks.specs.declared.instructed.Performed.{Performed};
ghost use Rattle.pfc_stacks.specs.declared.marks.Mark.{Mark};
ghost use Rattle.pfc_stacks.specs.Activations.{has_place, most_cells, returned, returned_with, result_in, params_of, arguments, entered, mark_in, has_mark};
ghost use Rattle.pfc_stacks.specs.Activations.{main_link};
ghost use Rattle.pfc_stacks.specs.Answers.{IsCallBy, IsCreatedBy, IsReplacedBy, IsDone};
ghost use Rattle.pfc_stacks.specs.Effects.{effect, last_block};
ghost use Rattle.pfc_stacks.specs.Stacks.{stack_of, operands_of, in_view};

use crate::cells::{BLOCK_PLACE, MAIN_LINK, has_place, others_of, size_of};
use crate::instructed::{CallFault, Performed};
use crate::stack::ProcessStack;
use crate::{Mark, Stacks};
use pfc_base::Memory;
use pfc_code::{Block, Image};

/// How many cells the activations of a process may have.
fn most_cells(p: u32) -> u32
    ensures { result ≡ most_cells p }
{
    if p == 0 { 262_144 } else { 16_384 }
}

impl Stacks {
    /// A call by a process of a block, by its number in the image: of a procedure of a monitor or a resource, whose arguments
    /// are the last operands. Its static link is main's activation. It goes on at the block's entry, and its caller behind the
    /// instruction at which the process is. All memory is taken before anything is changed.
    pub fn call(&mut self, image: &Image, p: u32, block: u32, mark: Mark) -> Result<(), CallFault>
        requires process { p < length self.old }
        requires block { block < length image.now.blocks.items }
        requires arguments { params_of (slice_get image.now.blocks.items block) ≤ length (operands_of self.old p) }
        ensures { (b : Block) → slice_get image.now.blocks.items block ≡ Some b → IsCallBy p block b main_link mark self.old result self.new }
    {
        self.call_block(p, block, &image.blocks[block as usize], MAIN_LINK, mark)
    }

    /// A call by a process of a block, by its number in the image, whose static link is l links up, without a mark: of a
    /// procedure or a function that is called from where it is in view. The arguments are the last operands. It goes on at the
    /// block's entry, and its caller behind the instruction at which the process is. All memory is taken before anything is
    /// changed.
    #[inline(always)]
    pub fn call_inside(
        &mut self,
        image: &Image,
        p: u32,
        block: u32,
        l: u32,
    ) -> Result<(), CallFault>
        requires process { p < length self.old }
        requires block { block < length image.now.blocks.items }
        requires arguments { params_of (slice_get image.now.blocks.items block) ≤ length (operands_of self.old p) }
        ensures { (b : Block) → slice_get image.now.blocks.items block ≡ Some b →
            IsCallBy p block b (in_view self.old p l) Mark.Plain self.old result self.new }
    {
        let link = self.links_up(p, l);
        self.call_block(p, block, &image.blocks[block as usize], link, Mark::Plain)
    }

    /// Whether an activation of a block may stand over the cells of a process.
    pub fn has_place(&self, p: u32, block: &Block) -> bool
        requires { p < length self.now }
        ensures { result ≡ has_place p (length (stack_of self.now p).cells) block.now }
    {
        let below = self.stacks[p as usize].cells.len();
        has_place(below, size_of(block), most_cells(p))
    }

    /// Whether an activation of a block may stand in the place of the last activation of a process.
    pub fn may_replace(&self, p: u32, block: &Block) -> bool
        requires { p < length self.now }
        ensures { result ≡ has_place p (stack_of self.now p).base block.now }
    {
        let below = self.stacks[p as usize].base();
        has_place(below as usize, size_of(block), most_cells(p))
    }

    /// The creation of process p at a block, by its number in the image, by a process that has the arguments as its last
    /// operands, over the number of p. It pops these and goes on. What p had before is gone. All memory is taken before
    /// anything is changed.
    pub fn create(&mut self, image: &Image, p: u32, from: u32, block: u32) -> Result<(), CallFault>
        requires process { p < length self.old }
        requires maker { from < length self.old }
        requires block { block < length image.now.blocks.items }
        requires arguments { params_of (slice_get image.now.blocks.items block) ≤ length (operands_of self.old from) }
        requires next { (stack_of self.old from).at + 1 < 2 ^ 32 }
        ensures { (b : Block) → slice_get image.now.blocks.items block ≡ Some b → IsCreatedBy from p block b self.old result self.new }
    {
        let b = &image.blocks[block as usize];
        if size_of(b) > most_cells(p) as usize {
            return Err(CallFault::Stack);
        }
        let made = self.enter(p, from, block, b)?;
        self.pass(from, b.params as usize + 1);
        self.stacks[p as usize] = made;
        Ok(())
    }

    /// The last activation of a process, which is not its first, ends, and its caller goes on.
    pub fn end_call(&mut self, p: u32)
        requires { p < length self.old }
        ensures { self.new ≡ set self.old p (returned (stack_of self.old p)) }
    {
        let stack = &mut self.stacks[p as usize];
        stack.end_call();
    }

    /// The last activation of a process, which is a function's, ends, and its caller goes on with the result.
    pub fn end_function(&mut self, image: &Image, p: u32)
        requires process { p < length self.old }
        requires room { length (operands_of self.old p) < (stack_of self.old p).room }
        ensures { let s = stack_of self.old p in self.new ≡ set self.old p (returned_with (result_in (last_block image.now.blocks.items s) s) s) }
    {
        self.end_function_of(&image.blocks, p);
    }

    /// Puts a block, by its number in the image, in the place of that of the last activation of a process, which is not its
    /// first. The arguments are the last operands; of the others those of the old activation are popped. Its mark, its static
    /// link and its caller stay. All memory is taken before anything is changed.
    pub fn replace(&mut self, image: &Image, p: u32, block: u32) -> Result<(), CallFault>
        requires process { p < length self.old }
        requires block { block < length image.now.blocks.items }
        requires arguments { params_of (slice_get image.now.blocks.items block) ≤ length (operands_of self.old p) }
        ensures { (b : Block) → slice_get image.now.blocks.items block ≡ Some b → IsReplacedBy p block b self.old result self.new }
    {
        self.replace_block(p, block, &image.blocks[block as usize])
    }

    /// From now on a process counts static links from the last activation of another one where that is given, and else from
    /// its own.
    pub fn look_from(&mut self, p: u32, w: Option<u32>)
        requires process { p < length self.old }
        requires other { IfSome w (λ q. q < length self.old) }
        ensures { self.new ≡ set self.old p (record (stack_of self.old p) { looks_from = w }) }
    {
        let stack = &mut self.stacks[p as usize];
        stack.look_from(w);
    }

    /// The mark of the last activation of a process.
    pub fn mark(&self, p: u32) -> Mark
        requires { p < length self.now }
        ensures { result ≡ mark_in (stack_of self.now p) }
    {
        self.stacks[p as usize].mark()
    }

    /// Some activation of a process has the mark of monitor m.
    pub fn marked(&self, p: u32, m: u32) -> bool
        requires { p < length self.now }
        ensures { result ≡ has_mark m (stack_of self.now p) }
    {
        self.stacks[p as usize].has_mark(m)
    }
}

impl Stacks {
    #[inline(always)]
    pub(crate) fn call_block(
        &mut self,
        p: u32,
        number: u32,
        block: &Block,
        link: i64,
        mark: Mark,
    ) -> Result<(), CallFault>
        requires process { p < length self.old }
        requires arguments { block.now.params ≤ length (operands_of self.old p) }
        ensures { IsCallBy p number block.now link mark self.old result self.new }
    {
        let most = most_cells(p);
        let stack = &mut self.stacks[p as usize];
        stack.call(number, block, link, mark, most)
    }

    fn replace_block(&mut self, p: u32, number: u32, block: &Block) -> Result<(), CallFault>
        requires process { p < length self.old }
        requires arguments { block.now.params ≤ length (operands_of self.old p) }
        ensures { IsReplacedBy p number block.now self.old result self.new }
    {
        let most = most_cells(p);
        let stack = &mut self.stacks[p as usize];
        stack.replace(number, block, most)
    }

    /// Process p in its first activation, with arguments that another holds.
    fn enter(&self, p: u32, from: u32, number: u32, block: &Block) -> Result<ProcessStack, Memory>
        requires process { p < length self.now }
        requires maker { from < length self.now }
        requires arguments { block.now.params ≤ length (operands_of self.now from) }
        ensures { let b = block.now in let args = arguments b (operands_of self.now from) in
            IfOk result (λ made. made ≡ entered number b args (b.cells - b.params) (stack_of self.now p).spare) }
    {
        let spare = self.stacks[p as usize].spare();
        let args = self.stacks[from as usize].last(block.params as usize);
        ProcessStack::entered(self.alloc, number, block, args, others_of(block), spare)
    }

    /// The end of an activation that was called by a plain call; any other is left to others.
    pub(crate) fn end_plain(&mut self, p: u32) -> Performed
        requires { p < length self.old }
        ensures { (blocks : List Block) → IsDone (effect blocks Instr.RET p self.old) self.old result self.new }
    {
        match self.mark(p) {
            Mark::Plain => {
                self.end_call(p);
                Performed::Action
            }
            _ => Performed::Nothing,
        }
    }

    /// The end of a function's activation, whose result its caller gets.
    pub(crate) fn end_function_of(&mut self, blocks: &[Block], p: u32) -> Performed
        requires process { p < length self.old }
        requires room { length (operands_of self.old p) < (stack_of self.old p).room }
        ensures done { result ≡ Performed.Action }
        ensures returned { let s = stack_of self.old p in self.new ≡ set self.old p (returned_with (result_in (last_block blocks.now s) s) s) }
    {
        let stack = &mut self.stacks[p as usize];
        let block = stack.own_number(BLOCK_PLACE);
        let params = params_of(blocks, block);
        let result = stack.result(params);
        stack.end_function(result);
        Performed::Action
    }
}

/// How many cells the parameters of a block take, by its number; 0 where there is no such block.
fn params_of(blocks: &[Block], number: u32) -> u32
    ensures { result ≡ params_of (slice_get blocks.now number) }
{
    match blocks.get(number as usize) {
        Some(block) => block.params,
        None => 0,
    }
}
