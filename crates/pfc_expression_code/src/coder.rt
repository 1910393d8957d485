//! The code of a program as it is made, and one instruction that is put.
ghost use Rattle.std.specs.Prelude.{◌≡◌, ◌++◌, ◌<◌, length, OnOk, IfErr};
ghost use Rattle.pfc_expression_code.specs.Lists.{single, ways_in};
ghost use Rattle.pfc_emit.specs.declared.emitter.EmitFault.TheVariants.{Full};

use pfc_addresses::Site;
use pfc_base::Text;
use pfc_code::Instr;
use pfc_emit::{EmitFault, Emitter};
use std::alloc::Global;
use std::marker::Model;
use std::mem;

/// The code of a program so far, the strings that it writes, in the order of its text, and the most alternatives of one select. A
/// contract sees these three.
#[derive(Drop)]
pub struct Coder {
    alloc: Global,
    pub(crate) code: Emitter,
    texts: Vec<Text>,
    arms: u32,
}

impl Model for Coder {
    ghost use Rattle.pfc_expression_code.specs.Putting.{Made};

    ghost Value = { Made };

    ghost view = { λ c. record { code = c.code; texts = c.texts.items; arms = c.arms } };
}

/// Puts an instruction behind all others, with the line of the phrase.
#[tactic(auto, using(std::proofs::lemmas::Grind::common_steps), unfolding(crate::specs::Lists::ways_in))]
pub(crate) fn put(instr: Instr, site: Site, code: &mut Emitter) -> Result<(), EmitFault>
    ensures code { OnOk result (code.new ≡ code.old ++ single (ways_in site.entry) instr) }
    ensures large { IfErr result (λ fault. fault ≡ Full → 200000 < length (code.old ++ single (ways_in site.entry) instr)) }
{
    code.put(instr, site.line())?;
    Ok(())
}

impl Coder {
    ghost use Rattle.std.specs.Prelude.{◌≡◌, ◌<◌, ◌≤◌, ◌++◌, [], ◌∷◌, true, max, map, take, length, IfOk, OnOk, IfErr};
    ghost use Rattle.pfc_emit.specs.Patches.{has_address_at, patched};
    ghost use Rattle.pfc_emit.specs.declared.emitter.EmitFault.TheVariants.{Full, Memory as NoMemory};
    ghost use Rattle.pfc_translation.specs.Codes.{one, string};
    ghost use Rattle.pfc_addresses.specs.Sites.{site_view};
    ghost use Rattle.pfc_expression_code.specs.Putting.{IsMade, IsTooLarge};

    /// No code. It takes no memory.
    pub fn new(alloc: Global) -> Coder
        ensures { result ≡ record { code = []; texts = []; arms = 0 } }
    {
        Coder {
            alloc,
            code: Emitter::new(alloc),
            texts: Vec::new(alloc),
            arms: 0,
        }
    }

    /// Puts an instruction with the line of the phrase. `Full` comes exactly where 200,000 are there.
    pub fn put(&mut self, instr: Instr, site: Site) -> Result<(), EmitFault>
        ensures code { OnOk result (IsMade (one (site_view site.entry) instr) self.old self.new) }
        ensures large { IfErr result (λ fault. fault ≡ Full → IsTooLarge (one (site_view site.entry) instr) self.old) }
    {
        put(instr, site, &mut self.code)
    }

    /// Puts an instruction with the line of the phrase, and gives its address, from 0. `Full` comes exactly where 200,000 are there.
    pub fn place(&mut self, instr: Instr, site: Site) -> Result<u32, EmitFault>
        ensures code { OnOk result (IsMade (one (site_view site.entry) instr) self.old self.new) }
        ensures address { IfOk result (λ at. at ≡ length self.old.code) }
        ensures few { IfOk result (λ at. at < 200000) }
        ensures large { IfErr result (λ fault. fault ≡ Full → IsTooLarge (one (site_view site.entry) instr) self.old) }
    {
        self.put(instr, site)?;
        Ok(self.here() - 1)
    }

    /// The address of the next instruction, which is the number of instructions so far, at most 200,000.
    pub fn here(&self) -> u32
        ensures address { result ≡ length self.now.code }
        ensures few { length self.now.code ≤ 200000 }
    {
        self.code.here()
    }

    /// The instruction at the address `at` leads to the address `target` from now on. Nothing else changes.
    pub fn lead(&mut self, at: u32, target: u32)
        requires { has_address_at self.old.code at ≡ true }
        ensures { self.new ≡ record self.old { code = patched self.old.code at target } }
    {
        self.code.patch(at, target);
    }

    /// A select has so many alternatives.
    pub fn count_alternatives(&mut self, count: u32)
        ensures { self.new ≡ record self.old { arms = max self.old.arms count } }
    {
        if self.arms < count {
            self.arms = count;
        }
    }

    /// Only the first `count` instructions are kept. Strings and alternatives that were counted stay.
    pub fn cut(&mut self, count: u32)
        requires { count ≤ length self.old.code }
        ensures { self.new ≡ record self.old { code = take count self.old.code } }
    {
        self.code.cut(count);
    }

    /// How many strings there are so far.
    pub fn strings(&self) -> usize
        ensures { result ≡ length self.now.texts }
    {
        self.texts.len()
    }

    /// The strings so far, of which none is kept here any more.
    pub fn take_texts(&mut self) -> Vec<Text>
        ensures texts { result.items ≡ self.old.texts }
        ensures rest { self.new ≡ record self.old { texts = [] } }
    {
        mem::replace(&mut self.texts, Vec::new(self.alloc))
    }

    /// So many strings stand before from now on: empty ones are kept in their places. Its only refusal is want of memory.
    pub fn pass_strings(&mut self, count: u32) -> Result<(), EmitFault>
        ensures code { self.new.code ≡ self.old.code }
        ensures arms { self.new.arms ≡ self.old.arms }
        ensures texts { OnOk result (length self.old.texts ≤ count → length self.new.texts ≡ count) }
        ensures fault { IfErr result (λ fault. fault ≡ NoMemory) }
    {
        while self.texts.len() < count as usize {
            let empty = Text::from_vec(Vec::new(self.alloc));
            if self.texts.push(empty).is_err() {
                return Err(EmitFault::Memory);
            }
        }
        Ok(())
    }

    /// The instructions, their lines, and the most alternatives of one select.
    pub fn finish(self) -> (Vec<Instr>, Vec<u32>, u32)
        ensures code { result.0.items ≡ map (λ pair. pair.0) self.code }
        ensures lines { result.1.items ≡ map (λ pair. pair.1) self.code }
        ensures arms { result.2 ≡ self.arms }
    {
        let Coder {
            alloc: _,
            code,
            texts: _,
            arms,
        } = self;
        let (code, lines) = code.finish();
        (code, lines, arms)
    }

    /// Keeps a copy of a string, and gives its number, from 0. Its only refusal is want of memory; a full list is one.
    pub fn keep(&mut self, text: &Text) -> Result<u32, EmitFault>
        ensures number { IfOk result (λ n. n ≡ length self.old.texts) }
        ensures texts { OnOk result (self.new.texts ≡ self.old.texts ++ text.now ∷ []) }
        ensures code { self.new.code ≡ self.old.code }
        ensures arms { self.new.arms ≡ self.old.arms }
        ensures fault { IfErr result (λ fault. fault ≡ NoMemory) }
    {
        let n = self.texts.len();
        if n > u32::MAX as usize {
            return Err(EmitFault::Memory);
        }
        let Ok(copy) = text.copy(self.alloc) else {
            return Err(EmitFault::Memory);
        };
        match self.texts.push(copy) {
            Ok(()) => Ok(n as u32),
            Err(_) => Err(EmitFault::Memory),
        }
    }

    /// Puts a string: w is 1 where its width is the last operand, else 0.
    pub fn string(&mut self, text: &Text, w: u32, site: Site) -> Result<(), EmitFault>
        ensures code { OnOk result (IsMade (string (site_view site.entry) text.now w) self.old self.new) }
        ensures large { IfErr result (λ fault. fault ≡ Full → IsTooLarge (string (site_view site.entry) text.now w) self.old) }
    {
        let n = self.keep(text)?;
        put(Instr::WRS(n, w), site, &mut self.code)
    }
}
