//! The instructions that begin and end no activation.
ghost use Rattle.std.specs.Prelude.{◌≡◌, ◌≤◌, ◌<◌, ◌+◌, ◌-◌, ◌^◌, ℕ, [], ◌∷◌, ◌++◌, length, take, drop, reverse};
ghost use Rattle.pfc_stacks.specs.Answers.{IsDone};
ghost use Rattle.pfc_stacks.specs.Conditions.{CanPerformInside, Leads, AreLive};
ghost use Rattle.pfc_stacks.specs.Refs.{ref_of, IsAddress};
ghost use Rattle.pfc_stacks.specs.Effects.{effect_inside, passed};
ghost use Rattle.pfc_stacks.specs.Stacks.{stack_of, cell_at, cells_at, operand, operands_of, written, in_view, cell_word};

use crate::cells::{LINK_PLACE, OWN_CELLS};
use crate::instructed::Performed;
use crate::{Ref, Stacks};
use pfc_base::RunFault;
use pfc_code::Instr;
use pfc_values::{
    Simple, both, char_at, difference, either, inverse, magnitude, negative, next_value, odd,
    product, quotient, remainder, square, sum, truth, value_before,
};

impl Stacks {
    /// Performs an instruction of a process that begins and ends no activation: its effect says what it does. Calls, returns and what is not of the
    /// stacks alone are left undone. It takes no memory.
    pub fn perform_inside(&mut self, p: u32, i: Instr) -> Performed
        requires process { p < length self.old }
        requires condition { CanPerformInside i p self.old }
        requires next { (stack_of self.old p).at + 1 < 2 ^ 32 }
        ensures { IsDone (effect_inside i p self.old) self.old result self.new }
    {
        match i {
            Instr::ADDR(l, d) => self.push_address(p, l, d),
            Instr::REF(l, d) => self.push_reference(p, l, d),
            Instr::OBJ => self.take_object(p),
            Instr::LOAD(z) => {
                self.load(p, z);
                Performed::Action
            }
            Instr::STORE(z) => {
                self.store(p, z);
                Performed::Action
            }
            Instr::FORW => {
                self.write_kept(p);
                Performed::Action
            }
            Instr::LIT(n) => self.stacks[p as usize].literal(n),
            Instr::IDX(low, high, z) => self.stacks[p as usize].index(low, high, z),
            Instr::FLD(k) => self.stacks[p as usize].field(k),
            Instr::JMP(a) => self.stacks[p as usize].jump(a),
            Instr::JF(a) => self.stacks[p as usize].jump_if_false(a),
            Instr::TURN(a) => self.stacks[p as usize].turn(a),
            Instr::FORB(d, a) => self.stacks[p as usize].begin_for(d, a),
            Instr::FORT(d, a) => self.stacks[p as usize].turn_for(d, a),
            Instr::CEQ(n, a) => self.stacks[p as usize].compare_label(n, a),
            Instr::CERR => Performed::Faulted(RunFault::Case),
            Instr::NEG => self.pass_outcome(p, 1, negative(self.held(p, 0))),
            Instr::ABS => self.pass_outcome(p, 1, magnitude(self.held(p, 0))),
            Instr::SQR => self.pass_outcome(p, 1, square(self.held(p, 0))),
            Instr::ODD => self.pass_value(p, 1, odd(self.held(p, 0))),
            Instr::CHR => self.pass_outcome(p, 1, char_at(self.held(p, 0))),
            Instr::SUCC(k) => self.pass_outcome(p, 1, next_value(Simple::of(k), self.held(p, 0))),
            Instr::PRED(k) => self.pass_outcome(p, 1, value_before(Simple::of(k), self.held(p, 0))),
            Instr::NOT => self.pass_value(p, 1, inverse(self.held(p, 0))),
            Instr::ADD => self.pass_outcome(p, 2, sum(self.held(p, 1), self.held(p, 0))),
            Instr::SUB => self.pass_outcome(p, 2, difference(self.held(p, 1), self.held(p, 0))),
            Instr::MUL => self.pass_outcome(p, 2, product(self.held(p, 1), self.held(p, 0))),
            Instr::DIV => self.pass_outcome(p, 2, quotient(self.held(p, 1), self.held(p, 0))),
            Instr::MOD => self.pass_outcome(p, 2, remainder(self.held(p, 1), self.held(p, 0))),
            Instr::AND => self.pass_value(p, 2, both(self.held(p, 1), self.held(p, 0))),
            Instr::OR => self.pass_value(p, 2, either(self.held(p, 1), self.held(p, 0))),
            Instr::EQ => self.pass_value(p, 2, truth(self.held(p, 1) == self.held(p, 0))),
            Instr::NE => self.pass_value(p, 2, truth(self.held(p, 1) != self.held(p, 0))),
            Instr::LT => self.pass_value(p, 2, truth(self.held(p, 1) < self.held(p, 0))),
            Instr::LE => self.pass_value(p, 2, truth(self.held(p, 1) <= self.held(p, 0))),
            Instr::GT => self.pass_value(p, 2, truth(self.held(p, 1) > self.held(p, 0))),
            Instr::GE => self.pass_value(p, 2, truth(self.held(p, 1) >= self.held(p, 0))),
            _ => Performed::Nothing,
        }
    }

    /// The address of cell d of the activation that lies l static links up.
    fn push_address(&mut self, p: u32, l: u32, d: u32) -> Performed
        requires process { p < length self.old }
        requires room { 1 ≤ (stack_of self.old p).room - length (operands_of self.old p) }
        requires reach { Leads l d p self.old }
        requires next { (stack_of self.old p).at + 1 < 2 ^ 32 }
        ensures done { result ≡ Performed.Passed }
        ensures passed { self.new ≡ passed self.old p (cell_word self.old p l d ∷ operands_of self.old p) }
    {
        let w = self.cell_word(p, l, d);
        self.pass_pushing(p, 0, w);
        Performed::Passed
    }

    /// The reference that cell d of that activation holds.
    fn push_reference(&mut self, p: u32, l: u32, d: u32) -> Performed
        requires process { p < length self.old }
        requires room { 1 ≤ (stack_of self.old p).room - length (operands_of self.old p) }
        requires reach { Leads l d p self.old }
        requires next { (stack_of self.old p).at + 1 < 2 ^ 32 }
        ensures done { result ≡ Performed.Passed }
        ensures passed { self.new ≡ passed self.old p (cell_at self.old (ref_of (cell_word self.old p l d)) ∷ operands_of self.old p) }
    {
        let r = Ref::of(self.cell_word(p, l, d));
        let w = self.cell(r.process, r.cell as usize);
        self.pass_pushing(p, 0, w);
        Performed::Passed
    }

    /// The number of the object at an address, which its cell holds.
    fn take_object(&mut self, p: u32) -> Performed
        requires process { p < length self.old }
        requires held { 1 ≤ length (operands_of self.old p) }
        requires next { (stack_of self.old p).at + 1 < 2 ^ 32 }
        ensures done { result ≡ Performed.Passed }
        ensures passed { self.new ≡ passed self.old p (cell_at self.old (ref_of (operand (operands_of self.old p) 0)) ∷ drop 1 (operands_of self.old p)) }
    {
        let r = Ref::of(self.held(p, 0));
        let w = self.cell(r.process, r.cell as usize);
        self.pass_pushing(p, 1, w);
        Performed::Passed
    }

    fn cell_word(&self, p: u32, l: u32, d: u32) -> i64
        requires process { p < length self.now }
        requires reach { Leads l d p self.now }
        ensures { result ≡ cell_word self.now p l d }
    {
        self.links_up(p, l) + (OWN_CELLS as i64 + i64::from(d))
    }

    /// The word of the first own cell of the activation that lies l static links up.
    pub(crate) fn links_up(&self, p: u32, l: u32) -> i64
        requires { p < length self.now }
        ensures up { result ≡ in_view self.now p l }
        ensures own { l ≡ 0 → IsAddress result }
    {
        let here = self.first_in_view(p);
        let mut w = here.word();
        for _ in 0..l {
            let r = Ref::of(w);
            w = self.cell(r.process, r.cell as usize + LINK_PLACE);
        }
        w
    }

    /// The z cells at an address; one, as most have, takes the address's place.
    fn load(&mut self, p: u32, z: u32)
        requires process { p < length self.old }
        requires held { 1 ≤ length (operands_of self.old p) }
        requires room { z - 1 ≤ (stack_of self.old p).room - length (operands_of self.old p) }
        requires live { AreLive self.old (ref_of (operand (operands_of self.old p) 0)) z }
        requires next { (stack_of self.old p).at + 1 < 2 ^ 32 }
        ensures { let ops = operands_of self.old p in
            self.new ≡ passed self.old p (reverse (cells_at self.old (ref_of (operand ops 0)) z) ++ drop 1 ops) }
    {
        if z == 1 {
            self.load_one(p);
        } else {
            self.load_all(p, z);
        }
    }

    /// The cell at an address.
    fn load_one(&mut self, p: u32)
        requires process { p < length self.old }
        requires held { 1 ≤ length (operands_of self.old p) }
        requires live { AreLive self.old (ref_of (operand (operands_of self.old p) 0)) 1 }
        requires next { (stack_of self.old p).at + 1 < 2 ^ 32 }
        ensures { let ops = operands_of self.old p in
            self.new ≡ passed self.old p (reverse (cells_at self.old (ref_of (operand ops 0)) 1) ++ drop 1 ops) }
    {
        let from = Ref::of(self.held(p, 0));
        let v = self.live_cell(from.process, from.cell as usize);
        self.pass_pushing(p, 1, v);
    }

    /// Any number of cells at an address.
    #[inline(never)]
    fn load_all(&mut self, p: u32, z: u32)
        requires process { p < length self.old }
        requires held { 1 ≤ length (operands_of self.old p) }
        requires room { z - 1 ≤ (stack_of self.old p).room - length (operands_of self.old p) }
        requires live { AreLive self.old (ref_of (operand (operands_of self.old p) 0)) z }
        requires next { (stack_of self.old p).at + 1 < 2 ^ 32 }
        ensures { let ops = operands_of self.old p in
            self.new ≡ passed self.old p (reverse (cells_at self.old (ref_of (operand ops 0)) z) ++ drop 1 ops) }
    {
        let from = Ref::of(self.operand(p, 0));
        self.pass(p, 1);
        for j in 0..z as usize {
            let v = self.cell(from.process, from.cell as usize + j);
            self.push(p, v);
        }
    }

    /// The z operands on top are written to an address, which lies below them.
    fn store(&mut self, p: u32, z: u32)
        requires process { p < length self.old }
        requires held { z + 1 ≤ length (operands_of self.old p) }
        requires live { AreLive self.old (ref_of (operand (operands_of self.old p) z)) z }
        requires next { (stack_of self.old p).at + 1 < 2 ^ 32 }
        ensures { let ops = operands_of self.old p in
            self.new ≡ passed (written self.old (ref_of (operand ops z)) (reverse (take z ops))) p (drop (z + 1) ops) }
    {
        if z == 1 {
            self.store_one(p);
        } else {
            self.store_all(p, z);
        }
    }

    /// The operand on top is written to the address below it.
    fn store_one(&mut self, p: u32)
        requires process { p < length self.old }
        requires held { 2 ≤ length (operands_of self.old p) }
        requires live { AreLive self.old (ref_of (operand (operands_of self.old p) 1)) 1 }
        requires next { (stack_of self.old p).at + 1 < 2 ^ 32 }
        ensures { let ops = operands_of self.old p in
            self.new ≡ passed (written self.old (ref_of (operand ops 1)) (reverse (take 1 ops))) p (drop 2 ops) }
    {
        let to = Ref::of(self.held(p, 1));
        let v = self.held(p, 0);
        self.set_live_cell(to.process, to.cell as usize, v);
        self.pass(p, 2);
    }

    /// Any number of operands.
    #[inline(never)]
    fn store_all(&mut self, p: u32, z: u32)
        requires process { p < length self.old }
        requires held { z + 1 ≤ length (operands_of self.old p) }
        requires live { AreLive self.old (ref_of (operand (operands_of self.old p) z)) z }
        requires next { (stack_of self.old p).at + 1 < 2 ^ 32 }
        ensures { let ops = operands_of self.old p in
            self.new ≡ passed (written self.old (ref_of (operand ops z)) (reverse (take z ops))) p (drop (z + 1) ops) }
    {
        let to = Ref::of(self.operand(p, z as usize));
        self.copy_out(p, 0, z, to);
        self.pass(p, z as usize + 1);
    }

    /// The value that a `for` keeps is written to its variable.
    fn write_kept(&mut self, p: u32)
        requires process { p < length self.old }
        requires held { 3 ≤ length (operands_of self.old p) }
        requires live { AreLive self.old (ref_of (operand (operands_of self.old p) 2)) 1 }
        requires next { (stack_of self.old p).at + 1 < 2 ^ 32 }
        ensures { let ops = operands_of self.old p in
            self.new ≡ passed (written self.old (ref_of (operand ops 2)) (operand ops 1 ∷ [])) p ops }
    {
        let to = Ref::of(self.held(p, 2));
        let v = self.held(p, 1);
        self.set_live_cell(to.process, to.cell as usize, v);
        self.pass(p, 0);
    }
}
