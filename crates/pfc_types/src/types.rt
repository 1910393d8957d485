//! Types of a program, as the table of types keeps them.
ghost use Rattle.std.specs.Prelude.{◌≡◌, ◌++◌, List, [], ◌∷◌, ◌<◌, ℕ, IsSome, is_some, IfOk, IfErr, IsErr, OnOk, OnErr, IsTrue, ◌↔◌, length, Some, None};
ghost use Rattle.std.specs.Prelude.{Err, option_map, option_copied, get_or};

use crate::ScopeFault;
use indexmap::IndexMap;
use pfc_base::Name;
use std::alloc::Global;
use std::marker::Model;

/// A type, by its place in the table of types, from 0. The first six places hold `integer`, `boolean`, `char`,
/// `semaphore`, `condition` and `synchronous`. Two types are the same exactly where their places are equal.
#[derive(Clone, Copy, Debug, PartialEq, Eq)]
pub struct TypeId {
    pub place: u32,
}

impl TypeId {
    /// `integer`
    pub const INTEGER: TypeId = TypeId { place: 0 };
    /// `boolean`
    pub const BOOLEAN: TypeId = TypeId { place: 1 };
    /// `char`
    pub const CHAR: TypeId = TypeId { place: 2 };
    /// `semaphore`
    pub const SEMAPHORE: TypeId = TypeId { place: 3 };
    /// `condition`
    pub const CONDITION: TypeId = TypeId { place: 4 };
    /// `synchronous`
    pub const SYNCHRONOUS: TypeId = TypeId { place: 5 };
}

/// What a declared type is made of.
#[derive(Drop)]
pub enum TypeForm {
    /// `channel of T`
    Channel(TypeId),
    /// `array [low .. high] of element`, with the bounds as ordinals of the index's type
    Array {
        index: TypeId,
        low: i32,
        high: i32,
        element: TypeId,
    },
    /// A record, by its fields.
    Record(Fields),
    /// A process type, by the number of its process, from 0 in the order of the text.
    Process(u32),
}

/// The fields of a record in the order of the text. A contract sees the list of their names and types. Its names
/// differ, and it holds fewer than 2^32 fields.
#[derive(Drop)]
pub struct Fields {
    fields: IndexMap<Name, TypeId>,
}

impl Model for Fields {
    ghost use Rattle.std.specs.Prelude.{ℕ, List, ◌<◌, ◌^◌, length};
    ghost use Rattle.pfc_types.specs.declared.types.TypeId.{TypeId};

    ghost Value = { List (List ℕ × TypeId) };

    ghost view = { λ s. s.fields.entries };

    ghost invariant = { λ s. length s.fields.entries < 2 ^ 32 };
}

impl Fields {
    ghost use Rattle.pfc_types.specs.Fields.{type_named, position_of};
    ghost use Rattle.pfc_types.specs.declared.types.TypeId.{TypeId};
    ghost use Rattle.pfc_types.specs.declared.scope.ScopeFault.{ScopeFault};
    ghost use Rattle.pfc_types.specs.declared.scope.ScopeFault.TheVariants.{Repeated};

    /// No field.
    pub fn new(alloc: Global) -> Fields
        ensures { result ≡ [] }
    {
        Fields {
            fields: IndexMap::new(alloc),
        }
    }

    /// Adds a field behind the others. It is refused with `Repeated` exactly where there is a field of this name.
    /// A refusal changes nothing.
    #[tactic(auto, using(crate::proofs::Names::names))]
    pub fn push(&mut self, name: Name, t: TypeId) -> Result<(), ScopeFault>
        ensures added { OnOk result (self.new ≡ self.old ++ (name, t) ∷ []) }
        ensures unchanged { OnErr result (self.new ≡ self.old) }
        ensures fresh { OnOk result (type_named self.old name ≡ None) }
        ensures repeated { IfErr result (λ fault. fault ≡ Repeated → IsSome (type_named self.old name)) }
        ensures refused { IsSome (type_named self.old name) → result ≡ Err Repeated }
    {
        if self.fields.contains_key(&name) {
            return Err(ScopeFault::Repeated);
        }
        if self.fields.len() >= u32::MAX as usize {
            return Err(ScopeFault::Memory);
        }
        match self.fields.insert(name, t) {
            Ok(_) => Ok(()),
            Err(_) => Err(ScopeFault::Memory),
        }
    }

    /// How many fields there are.
    pub fn len(&self) -> u32
        ensures { result ≡ length self.now }
    {
        self.fields.len() as u32
    }

    /// The type of the field with this name, None exactly where there is none.
    #[tactic(auto, using(crate::proofs::Names::names))]
    pub fn find(&self, name: &Name) -> Option<TypeId>
        ensures { result ≡ type_named self.now name.now }
    {
        self.fields.get(name).copied()
    }

    /// The place of the field with this name, from 0, None exactly where there is none.
    #[tactic(auto, using(crate::proofs::Names::names))]
    pub fn position(&self, name: &Name) -> Option<u32>
        ensures { result ≡ position_of self.now name.now }
    {
        let place = self.fields.get_index_of(name)?;
        Some(place as u32)
    }

    /// The type of a field, by its place, from 0.
    #[tactic(auto, using(crate::proofs::Names::reads))]
    pub fn type_at(&self, i: u32) -> TypeId
        requires { i < length self.now }
        ensures { (d : List ℕ × TypeId) → result ≡ (get_or self.now i d).1 }
    {
        match self.fields.get_index(i as usize) {
            Some((_, t)) => *t,
            None => unreachable!(),
        }
    }
}
