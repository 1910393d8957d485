//! What a program's subs, modules, processes and entries are called by.
ghost use Rattle.std.specs.Prelude.{◌≡◌, ◌++◌, [], ◌∷◌, ℕ, length, get_or, None, OnOk, OnErr};

use crate::TypeId;
use pfc_base::Memory;
use std::alloc::Global;
use std::marker::Model;

/// A parameter: its type, None where that is faulty, and whether it is a reference.
#[derive(Clone, Copy, Debug, PartialEq, Eq)]
pub struct Formal {
    pub t: Option<TypeId>,
    pub reference: bool,
}

/// The parameters of a heading in the order of the text. A contract sees their list. It holds fewer than 2^32.
#[derive(Drop)]
pub struct Formals {
    items: Vec<Formal>,
}

impl Model for Formals {
    ghost use Rattle.std.specs.Prelude.{ℕ, List, ◌<◌, ◌^◌, length};
    ghost use Rattle.pfc_types.specs.declared.heads.Formal.{Formal};

    ghost Value = { List Formal };

    ghost view = { λ s. s.items.items };

    ghost invariant = { λ s. length s.items.items < 2 ^ 32 };
}

impl Formals {
    /// No parameter.
    pub fn new(alloc: Global) -> Formals
        ensures { result ≡ [] }
    {
        Formals {
            items: Vec::new(alloc),
        }
    }

    /// Adds a parameter behind the others. Its only refusal is want of memory, which changes nothing; a full list
    /// is one.
    pub fn push(&mut self, formal: Formal) -> Result<(), Memory>
        ensures added { OnOk result (self.new ≡ self.old ++ formal ∷ []) }
        ensures unchanged { OnErr result (self.new ≡ self.old) }
    {
        if self.items.len() >= u32::MAX as usize {
            return Err(Memory);
        }
        self.items.push(formal)?;
        Ok(())
    }

    /// The parameters, in the order of the text.
    pub fn as_slice(&self) -> &[Formal]
        ensures { result.now ≡ self.now }
    {
        &self.items
    }
}

/// What a sub is.
#[derive(Clone, Copy, Debug, PartialEq, Eq)]
pub enum SubSort {
    /// A procedure.
    Procedure,
    /// A guarded procedure of a resource.
    Guarded,
    /// A function, by the type of its result, None where that is faulty.
    Function(Option<TypeId>),
}

/// The heading of a procedure, function or guarded procedure.
#[derive(Drop)]
pub struct SubHead {
    pub formals: Formals,
    pub sort: SubSort,
    /// The number of its scope, from 0 in the order of the text.
    pub scope: u32,
    /// Whether its module exports it.
    pub exported: bool,
}

/// A monitor or a resource.
#[derive(Clone, Copy, Debug, PartialEq, Eq)]
pub struct ModuleHead {
    /// The number of its scope, from 0 in the order of the text.
    pub scope: u32,
    /// Whether it is a resource.
    pub resource: bool,
}

/// The heading of a process or a process type.
#[derive(Drop)]
pub struct ProcessHead {
    pub formals: Formals,
    /// The place of its entry 0 in the list of the entries of all processes.
    pub entries: u32,
    /// The number of its scope, from 0 in the order of the text.
    pub scope: u32,
}
