//! What a name of a program stands for, and the names of one block.
ghost use Rattle.std.specs.Prelude.{◌≡◌, ◌++◌, List, [], ◌∷◌, ◌<◌, ℕ, IsSome, IfOk, IfErr, OnOk, OnErr, length, option_map, option_copied, get_or};

use crate::{PredeclaredName, TypeId};
use indexmap::IndexMap;
use pfc_base::{Memory, Name};
use std::alloc::Global;
use std::marker::Model;

/// What a name stands for.
#[derive(Clone, Copy, Debug, PartialEq, Eq)]
pub enum Meaning {
    /// A constant of a simple type, by its ordinal.
    Constant { t: TypeId, value: i32 },
    /// The name of a type.
    Named(TypeId),
    /// A variable or a parameter; `reference` for a parameter that stands for another variable.
    Variable { t: TypeId, reference: bool },
    /// A procedure, function or guarded procedure, numbered from 0 in the order of the text.
    Sub(u32),
    /// A monitor or a resource, numbered from 0 in the order of the text.
    Module(u32),
    /// A single process, numbered from 0 in the order of the text, process types included.
    Process(u32),
    /// An entry of the process around, numbered from 0 in the order of the text.
    Entry(u32),
    /// A predeclared name that is no type and no constant.
    Predeclared(PredeclaredName),
    /// A name whose declaration has a fault.
    Faulty,
}

/// Why a name was not added.
#[derive(Clone, Copy, Debug, PartialEq, Eq)]
pub enum ScopeFault {
    /// The name is there already.
    Repeated,
    /// Memory was refused, or 2^32 - 1 names are held.
    Memory,
}

impl From<Memory> for ScopeFault {
    ghost use Rattle.pfc_types.specs.declared.scope.ScopeFault.TheVariants.{Memory as NoMemory};

    fn from(_error: Memory) -> ScopeFault
        ensures { result ≡ NoMemory }
    {
        ScopeFault::Memory
    }
}

/// The names of one block, each with what it stands for, in the order of the text, which is the order of the layout.
/// A contract sees the list of these pairs. Its names differ, and it holds fewer than 2^32.
#[derive(Drop)]
pub struct Scope {
    names: IndexMap<Name, Meaning>,
}

impl Model for Scope {
    ghost use Rattle.std.specs.Prelude.{ℕ, List, ◌<◌, ◌^◌, length};
    ghost use Rattle.pfc_types.specs.declared.scope.Meaning.{Meaning};

    ghost Value = { List (List ℕ × Meaning) };

    ghost view = { λ s. s.names.entries };

    ghost invariant = { λ s. length s.names.entries < 2 ^ 32 };
}

impl Scope {
    ghost use Rattle.pfc_types.specs.Scopes.{meaning_in, position_in};
    ghost use Rattle.pfc_types.specs.declared.scope.Meaning.{Meaning};
    ghost use Rattle.pfc_types.specs.declared.scope.ScopeFault.{ScopeFault};
    ghost use Rattle.pfc_types.specs.declared.scope.ScopeFault.TheVariants.{Repeated};

    /// A scope without names.
    pub fn new(alloc: Global) -> Scope
        ensures { result ≡ [] }
    {
        Scope {
            names: IndexMap::new(alloc),
        }
    }

    /// Adds a name behind the others. It is refused with `Repeated` exactly where the scope holds the name.
    /// A refusal changes nothing.
    #[tactic(auto, using(crate::proofs::Names::names))]
    pub fn declare(&mut self, name: Name, meaning: Meaning) -> Result<(), ScopeFault>
        ensures added { OnOk result (self.new ≡ self.old ++ (name, meaning) ∷ []) }
        ensures unchanged { OnErr result (self.new ≡ self.old) }
        ensures fresh { OnOk result (meaning_in self.old name ≡ None) }
        ensures repeated { IfErr result (λ fault. fault ≡ Repeated → IsSome (meaning_in self.old name)) }
        ensures refused { IsSome (meaning_in self.old name) → result ≡ Err Repeated }
    {
        if self.names.contains_key(&name) {
            return Err(ScopeFault::Repeated);
        }
        if self.names.len() >= u32::MAX as usize {
            return Err(ScopeFault::Memory);
        }
        match self.names.insert(name, meaning) {
            Ok(_) => Ok(()),
            Err(_) => Err(ScopeFault::Memory),
        }
    }

    /// What a name stands for, None exactly where the scope does not hold it.
    #[tactic(auto, using(crate::proofs::Names::names))]
    pub fn find(&self, name: &Name) -> Option<&Meaning>
        ensures { option_copied result ≡ meaning_in self.now name.now }
    {
        self.names.get(name)
    }

    /// The place of a name in the order of the layout, from 0, and what it stands for; None exactly where the scope does not hold it.
    #[tactic(auto, using(crate::proofs::Names::names))]
    pub fn look_up(&self, name: &Name) -> Option<(u32, Meaning)>
        ensures place { option_map (λ found. found.0) result ≡ position_in self.now name.now }
        ensures meaning { option_map (λ found. found.1) result ≡ meaning_in self.now name.now }
    {
        let (place, _, meaning) = self.names.get_full(name)?;
        Some((place as u32, *meaning))
    }

    /// The place of a name in the order of the layout, from 0, None exactly where the scope does not hold it.
    #[tactic(auto, using(crate::proofs::Names::names))]
    pub fn position(&self, name: &Name) -> Option<u32>
        ensures { result ≡ position_in self.now name.now }
    {
        let place = self.names.get_index_of(name)?;
        Some(place as u32)
    }

    /// How many names the scope holds.
    pub fn len(&self) -> u32
        ensures { result ≡ length self.now }
    {
        self.names.len() as u32
    }

    /// What the name at a place of the layout stands for, from 0.
    #[tactic(auto, using(crate::proofs::Names::reads))]
    pub fn meaning_at(&self, i: u32) -> Meaning
        requires { i < length self.now }
        ensures { (d : List ℕ × Meaning) → result ≡ (get_or self.now i d).1 }
    {
        match self.names.get_index(i as usize) {
            Some((_, meaning)) => *meaning,
            None => unreachable!(),
        }
    }
}
