//! The instructions that need nothing but stacks and the blocks of the image.
ghost use Rattle.std.specs.Prelude.{◌≡◌, ◌<◌, ◌+◌, ◌^◌, ℕ, Some, length};
ghost use Rattle.std.specs.List.{slice_get};
ghost use Rattle.pfc_code.specs.declared.instructions.Instr.{Instr};
ghost use Rattle.pfc_stacks.specs.Answers.{IsDone, IsPerformed, performer};
ghost use Rattle.pfc_stacks.specs.Conditions.{CanPerform};
ghost use Rattle.pfc_stacks.specs.Effects.{effect};
ghost use Rattle.pfc_stacks.specs.Stacks.{stack_of};

use crate::instructed::{CallFault, Performed};
use crate::{Instructed, Mark, Stacks};
use pfc_base::RunFault;
use pfc_code::{Block, Image, Instr};
use pfc_state::Running;

impl Stacks {
    /// Performs the instruction of a process that comes next: its effect says what it does. Only a call takes memory. The
    /// process is one of these, the image has an instruction at its address, and that one can be performed; addresses are
    /// below 2^32.
    pub fn run_instr(&mut self, image: &Image, r: Running) -> Instructed
        requires short { length image.now.code.items < 2 ^ 32 }
        requires process { r.number < length self.old }
        requires condition { (i : Instr)
            × (slice_get image.now.code.items (stack_of self.old r.number).at ≡ Some i) × CanPerform image.now.blocks.items i r.number self.old }
        ensures process { (performer result).number ≡ r.number }
        ensures effect { (i : Instr) → slice_get image.now.code.items (stack_of self.old r.number).at ≡ Some i
            → IsPerformed image.now.blocks.items i r.number self.old result self.new }
    {
        let at = self.at(r.number());
        let instr = image.code[at as usize];
        match instr {
            Instr::CALL(k, l) => self.run_call(&image.blocks, r, k, l),
            _ => self.perform_instr(&image.blocks, r, instr),
        }
    }

    fn run_call(&mut self, blocks: &[Block], r: Running, k: u32, l: u32) -> Instructed
        requires process { r.number < length self.old }
        requires condition { CanPerform blocks.now (Instr.CALL k l) r.number self.old }
        ensures process { (performer result).number ≡ r.number }
        ensures effect { IsPerformed blocks.now (Instr.CALL k l) r.number self.old result self.new }
    {
        let p = r.number();
        let link = self.links_up(p, l);
        match self.call_block(p, k, &blocks[k as usize], link, Mark::Plain) {
            Ok(()) => Instructed::Acted(r),
            Err(CallFault::Stack) => Instructed::Fault {
                r,
                fault: RunFault::Stack,
            },
            Err(CallFault::Memory) => Instructed::Memory(r),
        }
    }

    /// One that is no call. It takes no memory.
    fn perform_instr(&mut self, blocks: &[Block], r: Running, i: Instr) -> Instructed
        requires process { r.number < length self.old }
        requires condition { CanPerform blocks.now i r.number self.old }
        requires other { (k l : ℕ) → i ≡ Instr.CALL k l → ⊥ }
        requires next { (stack_of self.old r.number).at + 1 < 2 ^ 32 }
        ensures process { (performer result).number ≡ r.number }
        ensures effect { IsPerformed blocks.now i r.number self.old result self.new }
    {
        let p = r.number();
        match self.perform(blocks, p, i) {
            Performed::Passed => Instructed::Quiet(r),
            Performed::Action => Instructed::Acted(r),
            Performed::Faulted(fault) => Instructed::Fault { r, fault },
            Performed::Nothing => Instructed::Outward { r, instr: i },
        }
    }

    fn perform(&mut self, blocks: &[Block], p: u32, i: Instr) -> Performed
        requires process { p < length self.old }
        requires condition { CanPerform blocks.now i p self.old }
        requires other { (k l : ℕ) → i ≡ Instr.CALL k l → ⊥ }
        requires next { (stack_of self.old p).at + 1 < 2 ^ 32 }
        ensures { IsDone (effect blocks.now i p self.old) self.old result self.new }
    {
        match i {
            Instr::RET => self.end_plain(p),
            Instr::RETF => self.end_function_of(blocks, p),
            _ => self.perform_inside(p, i),
        }
    }
}
