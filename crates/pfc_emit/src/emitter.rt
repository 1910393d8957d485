//! The emitter.
ghost use Rattle.std.specs.Prelude.{◌≡◌, ◌++◌, [], ◌∷◌, ◌<◌, ◌≤◌, true, length, map, take, Err, IfOk, IfErr, OnOk, OnErr};
ghost use Rattle.pfc_emit.specs.Patches.{has_address_at, patched};

use crate::addresses::retarget;
use pfc_base::Memory;
use pfc_code::Instr;
use std::alloc::Global;
use std::marker::Model;

/// Why an instruction was not put.
#[derive(Clone, Copy, Debug, PartialEq, Eq)]
pub enum EmitFault {
    /// 200,000 instructions are held.
    Full,
    /// Memory was refused.
    Memory,
}

/// The most instructions that the code of a program may have.
const MOST_INSTRUCTIONS: u32 = 200_000;

/// The code of a program as it grows. A contract sees the list of its instructions, each with its line.
#[derive(Drop)]
pub struct Emitter {
    code: Vec<Instr>,
    lines: Vec<u32>,
}

impl Model for Emitter {
    ghost use Rattle.std.specs.Prelude.{◌≡◌, ◌≤◌, length};
    ghost use Rattle.std.specs.List.{zip};
    ghost use Rattle.pfc_emit.specs.Patches.{Lined};

    ghost Value = { Lined };

    ghost view = { λ e. zip e.code.items e.lines.items };

    // one line for each instruction, and no more instructions than a program may have
    ghost invariant = { λ e. (length e.lines.items ≡ length e.code.items) × (length e.code.items ≤ 200000) };
}

impl Emitter {
    ghost use Rattle.pfc_emit.specs.declared.emitter.EmitFault.TheVariants.{Full, Memory as NoMemory};

    /// No instruction. It takes no memory.
    pub fn new(alloc: Global) -> Emitter
        ensures { result ≡ [] }
    {
        Emitter {
            code: Vec::new(alloc),
            lines: Vec::new(alloc),
        }
    }

    /// Puts an instruction with its line, from 1, behind all others, and gives its address, from 0. It is refused with
    /// `Full` exactly where 200,000 instructions are held. A refusal changes nothing.
    pub fn put(&mut self, instr: Instr, line: u32) -> Result<u32, EmitFault>
        ensures added { OnOk result (self.new ≡ self.old ++ (instr, line) ∷ []) }
        ensures address { IfOk result (λ address. address ≡ length self.old) }
        ensures unchanged { OnErr result (self.new ≡ self.old) }
        ensures room { OnOk result (length self.old < 200000) }
        ensures memory { IfErr result (λ fault. fault ≡ NoMemory → length self.old < 200000) }
        ensures full { IfErr result (λ fault. fault ≡ Full → length self.old ≡ 200000) }
        ensures refused { length self.old ≡ 200000 → result ≡ Err Full }
    {
        let address = self.here();
        if address >= MOST_INSTRUCTIONS {
            return Err(EmitFault::Full);
        }
        if self.push(instr, line).is_err() {
            return Err(EmitFault::Memory);
        }
        Ok(address)
    }

    /// Puts an instruction with its line behind all others. A refusal changes nothing.
    #[tactic(auto, using(crate::proofs::Pairs::pairs_push, crate::proofs::Pairs::length_pairs, std::proofs::lemmas::Grind::common_steps))]
    fn push(&mut self, instr: Instr, line: u32) -> Result<(), Memory>
        requires { length self.old < 200000 }
        ensures added { OnOk result (self.new ≡ self.old ++ (instr, line) ∷ []) }
        ensures unchanged { OnErr result (self.new ≡ self.old) }
    {
        self.code.push(instr)?;
        if self.lines.push(line).is_err() {
            self.code.pop();
            return Err(Memory);
        }
        Ok(())
    }

    /// Makes `target` the address argument of the instruction at the address `at`. Nothing else changes.
    #[tactic(auto, using(crate::proofs::Pairs::pairs_patched, crate::proofs::Pairs::within_pairs))]
    pub fn patch(&mut self, at: u32, target: u32)
        requires { has_address_at self.old at ≡ true }
        ensures { self.new ≡ patched self.old at target }
    {
        let instr = &mut self.code[at as usize];
        *instr = retarget(*instr, target);
    }

    /// Only the first `count` instructions are kept.
    #[tactic(auto, using(crate::proofs::Pairs::pairs_cut, crate::proofs::Pairs::length_pairs))]
    pub fn cut(&mut self, count: u32)
        requires { count ≤ length self.old }
        ensures { self.new ≡ take count self.old }
    {
        self.code.truncate(count as usize);
        self.lines.truncate(count as usize);
    }

    /// The address of the next instruction, which is the number of instructions so far, at most 200,000.
    #[tactic(auto, using(crate::proofs::Pairs::length_pairs))]
    pub fn here(&self) -> u32
        ensures address { result ≡ length self.now }
        ensures bound { length self.now ≤ 200000 }
    {
        self.code.len() as u32
    }

    /// The instructions and their lines, in their order.
    #[tactic(auto, using(crate::proofs::Pairs::columns))]
    pub fn finish(self) -> (Vec<Instr>, Vec<u32>)
        ensures code { result.0.items ≡ map (λ pair. pair.0) self }
        ensures lines { result.1.items ≡ map (λ pair. pair.1) self }
    {
        let Emitter { code, lines } = self;
        (code, lines)
    }
}
