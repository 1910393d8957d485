//! The ends of instructions: what they leave on the stack of a process.
ghost use Rattle.std.specs.Prelude.{◌≡◌, ◌≤◌, ◌<◌, ◌+◌, ◌^◌, [], ◌∷◌, length, drop};
ghost use Rattle.pfc_stacks.specs.Conditions.{AreLive};
ghost use Rattle.pfc_stacks.specs.Effects.{passed};
ghost use Rattle.pfc_stacks.specs.Refs.{number_of, ref_of};
ghost use Rattle.pfc_stacks.specs.Stacks.{stack_of, operand, operands_of, written};

use pfc_stacks::{Ref, Stacks};

/// The number of 32 bits that a word holds, as that of an object.
pub fn number_in(w: i64) -> u32
    ensures { result ≡ number_of w }
{
    (w.unsigned_abs() % 4_294_967_296) as u32
}

/// A process goes on at its next instruction.
pub fn pass(stacks: &mut Stacks, p: u32)
    requires process { p < length stacks.old }
    requires next { (stack_of stacks.old p).at + 1 < 2 ^ 32 }
    ensures { stacks.new ≡ passed stacks.old p (operands_of stacks.old p) }
{
    let next = stacks.at(p) + 1;
    stacks.go(p, next);
}

/// Pops so many operands of a process, or all where it has fewer, which goes on at its next instruction.
pub fn leave(stacks: &mut Stacks, p: u32, n: u32)
    requires process { p < length stacks.old }
    requires next { (stack_of stacks.old p).at + 1 < 2 ^ 32 }
    ensures { stacks.new ≡ passed stacks.old p (drop n (operands_of stacks.old p)) }
{
    stacks.cut(p, n);
    pass(stacks, p);
}

/// Pushes an operand of a process, which goes on at its next instruction.
pub fn leave_more(stacks: &mut Stacks, p: u32, v: i64)
    requires process { p < length stacks.old }
    requires next { (stack_of stacks.old p).at + 1 < 2 ^ 32 }
    requires room { length (operands_of stacks.old p) < (stack_of stacks.old p).room }
    ensures { stacks.new ≡ passed stacks.old p (v ∷ operands_of stacks.old p) }
{
    stacks.push(p, v);
    pass(stacks, p);
}

/// Puts an operand in the place of the top of a process, which goes on at its next instruction.
pub fn leave_instead(stacks: &mut Stacks, p: u32, v: i64)
    requires process { p < length stacks.old }
    requires next { (stack_of stacks.old p).at + 1 < 2 ^ 32 }
    requires some { 1 ≤ length (operands_of stacks.old p) }
    ensures { stacks.new ≡ passed stacks.old p (v ∷ drop 1 (operands_of stacks.old p)) }
{
    stacks.cut(p, 1);
    leave_more(stacks, p, v);
}

/// Pops an address of a process and writes a value there; the process goes on at its next instruction.
pub fn leave_written(stacks: &mut Stacks, p: u32, v: i64)
    requires process { p < length stacks.old }
    requires next { (stack_of stacks.old p).at + 1 < 2 ^ 32 }
    requires some { 1 ≤ length (operands_of stacks.old p) }
    requires live { AreLive stacks.old (ref_of (operand (operands_of stacks.old p) 0)) 1 }
    ensures { stacks.new ≡ passed (written stacks.old (ref_of (operand (operands_of stacks.old p) 0)) (v ∷ [])) p (drop 1 (operands_of stacks.old p)) }
{
    let to = Ref::of(stacks.top(p, 0));
    stacks.cut(p, 1);
    stacks.push(p, v);
    stacks.copy_out(p, 0, 1, to);
    leave(stacks, p, 1);
}
