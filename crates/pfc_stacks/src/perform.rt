//! Instructions that need no more than the address and the operands of their process, but operators.
ghost use Rattle.std.specs.Prelude.{◌≡◌, ◌≤◌, ◌<◌, ◌+◌, ◌-◌, ◌^◌, true, length};
ghost use Rattle.pfc_stacks.specs.Answers.{own_effect_by, Changes};
ghost use Rattle.pfc_stacks.specs.Conditions.{Reckons};
ghost use Rattle.pfc_stacks.specs.Refs.{IsAddress};
ghost use Rattle.pfc_stacks.specs.Effects.{own_effect, is_within, element_word, element_at};

use crate::instructed::Performed;
use crate::stack::ProcessStack;
use pfc_base::RunFault;
use pfc_code::Instr;
use pfc_values::is_true;

impl ProcessStack {
    /// A number.
    pub(crate) fn literal(&mut self, n: i32) -> Performed
        requires room { 1 ≤ self.old.room - length self.old.operands }
        requires next { self.old.at + 1 < 2 ^ 32 }
        ensures effect { own_effect (Instr.LIT n) self.old.at self.old.operands ≡ own_effect_by result self.new.at self.new.operands }
        ensures changes { Changes result self.old self.new }
    {
        self.push(i64::from(n));
        self.pass();
        Performed::Passed
    }

    /// The address of an element, over that of the array, whose index is on top.
    pub(crate) fn index(&mut self, low: i32, high: i32, z: u32) -> Performed
        requires held { 2 ≤ length self.old.operands }
        requires reckons { Reckons (Instr.IDX low high z) self.old.operands }
        requires next { self.old.at + 1 < 2 ^ 32 }
        ensures effect { own_effect (Instr.IDX low high z) self.old.at self.old.operands ≡ own_effect_by result self.new.at self.new.operands }
        ensures changes { Changes result self.old self.new }
    {
        let i = self.held(0);
        let array = self.held(1);
        self.pass_outcome(2, element(low, high, z, i, array))
    }

    /// The address of a field, over that of the record.
    pub(crate) fn field(&mut self, k: u32) -> Performed
        requires held { 1 ≤ length self.old.operands }
        requires reckons { Reckons (Instr.FLD k) self.old.operands }
        requires next { self.old.at + 1 < 2 ^ 32 }
        ensures effect { own_effect (Instr.FLD k) self.old.at self.old.operands ≡ own_effect_by result self.new.at self.new.operands }
        ensures changes { Changes result self.old self.new }
    {
        let a = self.held(0) + i64::from(k);
        self.pass_with(1, a);
        Performed::Passed
    }

    /// On at an address.
    pub(crate) fn jump(&mut self, a: u32) -> Performed
        ensures effect { own_effect (Instr.JMP a) self.old.at self.old.operands ≡ own_effect_by result self.new.at self.new.operands }
        ensures changes { Changes result self.old self.new }
    {
        self.go(a);
        Performed::Passed
    }

    /// On at an address where the value on top is false.
    pub(crate) fn jump_if_false(&mut self, a: u32) -> Performed
        requires held { 1 ≤ length self.old.operands }
        requires next { self.old.at + 1 < 2 ^ 32 }
        ensures effect { own_effect (Instr.JF a) self.old.at self.old.operands ≡ own_effect_by result self.new.at self.new.operands }
        ensures changes { Changes result self.old self.new }
    {
        let to = if is_true(self.held(0)) {
            self.at() + 1
        } else {
            a
        };
        self.leave(1, to);
        Performed::Passed
    }

    /// On at an address where the value of a `case`, on top, is that of a label.
    pub(crate) fn compare_label(&mut self, n: i32, a: u32) -> Performed
        requires held { 1 ≤ length self.old.operands }
        requires next { self.old.at + 1 < 2 ^ 32 }
        ensures effect { own_effect (Instr.CEQ n a) self.old.at self.old.operands ≡ own_effect_by result self.new.at self.new.operands }
        ensures changes { Changes result self.old self.new }
    {
        if self.held(0) == i64::from(n) {
            self.leave(1, a);
        } else {
            self.pass();
        }
        Performed::Passed
    }

    /// Back to an address, as an action.
    pub(crate) fn turn(&mut self, a: u32) -> Performed
        ensures effect { own_effect (Instr.TURN a) self.old.at self.old.operands ≡ own_effect_by result self.new.at self.new.operands }
        ensures changes { Changes result self.old self.new }
    {
        self.go(a);
        Performed::Action
    }

    /// A `for` begins: it ends at once where the first value is past the last.
    pub(crate) fn begin_for(&mut self, d: u32, a: u32) -> Performed
        requires held { 2 ≤ length self.old.operands }
        requires next { self.old.at + 1 < 2 ^ 32 }
        ensures effect { own_effect (Instr.FORB d a) self.old.at self.old.operands ≡ own_effect_by result self.new.at self.new.operands }
        ensures changes { Changes result self.old self.new }
    {
        let from = self.held(1);
        let last = self.held(0);
        let is_past = if d == 0 { last < from } else { from < last };
        if is_past {
            self.leave(3, a);
        } else {
            self.pass();
        }
        Performed::Passed
    }

    /// A `for` turns back with its next value, or ends quietly where the value that it keeps is not before the last.
    pub(crate) fn turn_for(&mut self, d: u32, a: u32) -> Performed
        requires held { 2 ≤ length self.old.operands }
        requires next { self.old.at + 1 < 2 ^ 32 }
        ensures effect { own_effect (Instr.FORT d a) self.old.at self.old.operands ≡ own_effect_by result self.new.at self.new.operands }
        ensures changes { Changes result self.old self.new }
    {
        let kept = self.held(1);
        let last = self.held(0);
        if d == 0 && kept < last {
            self.set_operand(1, kept + 1);
            self.turn(a)
        } else if d != 0 && last < kept {
            self.set_operand(1, kept - 1);
            self.turn(a)
        } else {
            self.leave(3, self.at() + 1);
            Performed::Passed
        }
    }
}

/// The address of an element of an array, whose index must lie within the bounds; an element has z cells.
fn element(low: i32, high: i32, z: u32, i: i64, array: i64) -> Result<i64, RunFault>
    requires array { IsAddress array }
    requires element { is_within low high i ≡ true → IsAddress (element_word low z i array) }
    ensures { result ≡ element_at low high z i array }
{
    if i < i64::from(low) || i > i64::from(high) {
        return Err(RunFault::Index);
    }
    Ok(array + (i - i64::from(low)) * i64::from(z))
}
