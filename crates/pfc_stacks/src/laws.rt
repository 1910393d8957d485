//! Laws of activations. The functions do nothing: their contracts are the laws.
ghost use Rattle.std.specs.Prelude.{◌≡◌, ◌≢◌, ◌≤◌, ◌<◌, ◌+◌, ◌^◌, ◌∷◌, ℕ, ℤ, List, drop, length};
ghost use Rattle.pfc_code.specs.declared.images.Block.{Block};
ghost use Rattle.pfc_code.specs.declared.instructions.Instr.{Instr};
ghost use Rattle.pfc_stacks.specs.declared.marks.Mark.{Mark};
ghost use Rattle.pfc_stacks.specs.Activations.{called, returned, returned_with, replaced, room_over, mark_in};
ghost use Rattle.pfc_stacks.specs.Conditions.{CanPerform};
ghost use Rattle.pfc_stacks.specs.Counts.{Leaves, IsCounted};
ghost use Rattle.pfc_stacks.specs.Effects.{effect};
ghost use Rattle.pfc_stacks.specs.Marks.{IsMark};
ghost use Rattle.pfc_stacks.specs.Stacks.{Stack, Stacks, stack_of, own_cells, own_word, block_place};

/// A return undoes the call: the caller goes on behind its instruction, with all its cells, and without the arguments. Only
/// the room for operands stays.
pub fn a_return_undoes_its_call()
    ensures { (k : ℕ) (b : Block) (link : ℤ) (mark : Mark) (s : Stack) → s.at + 1 < 2 ^ 32 → s.base < 2 ^ 32
        → (let left = drop b.params s.operands in
        returned (called k b link mark s) ≡ record s { at = s.at + 1; operands = left; room = room_over (length left) b s }) }
{}

/// The activation that a call makes has its mark.
pub fn a_call_marks_its_activation()
    ensures { (k : ℕ) (b : Block) (link : ℤ) (mark : Mark) (s : Stack) → IsMark mark → mark_in (called k b link mark s) ≡ mark }
{}

/// An activation that takes the place of another keeps its own cells but for the number of its block: the address at which
/// its caller goes on, its mark, its static link, its caller and what that keeps.
pub fn a_replacement_keeps_its_own_cells()
    ensures { (k : ℕ) (b : Block) (s : Stack) (place : ℕ) → s.base + own_cells ≤ length s.cells → place < own_cells → place ≢ block_place
        → own_word (replaced k b s) place ≡ own_word s place }
{}

/// An instruction that does something to the stacks pops and pushes as many operands as the table of instructions says, on
/// its way to the next one or elsewhere, and changes none below those that it reads.
pub fn an_instruction_takes_and_leaves_its_operands()
    ensures { (blocks : List Block) (i : Instr) (p : ℕ) (old new : Stacks) → p < length old → CanPerform blocks i p old
        → Leaves (effect blocks i p old) new → IsCounted blocks i (stack_of old p) (stack_of new p) }
{}

/// What the call of a function leaves, its return pushes over the operands that the call left.
pub fn a_function_leaves_its_result()
    ensures { (k : ℕ) (b : Block) (link : ℤ) (mark : Mark) (s : Stack) (v : ℤ)
        → (returned_with v (called k b link mark s)).operands ≡ v ∷ drop b.params s.operands }
{}
