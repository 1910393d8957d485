//! What the declarations have made so far.
ghost use Rattle.std.specs.Prelude.{◌≡◌, ◌<◌, length, is_some, option_map, OnOk, IfOk};
ghost use Rattle.pfc_types.specs.Views.{levels};
ghost use Rattle.pfc_types.specs.Scopes.{scope_at, here, look, meaning_in};
ghost use Rattle.pfc_types.specs.Faults.{unless};
ghost use Rattle.pfc_types.specs.Types.{is_object};
ghost use Rattle.pfc_types.specs.Blocks.{note, declare, open_scope};
ghost use Rattle.pfc_types.specs.Blocks as blocks;
ghost use Rattle.pfc_types.specs.rules.Constants as constants;
ghost use Rattle.pfc_types.specs.rules.Whole.{begun};
ghost use Rattle.pfc_phrases.specs.Found.{refused};
ghost use Rattle.pfc_phrases.specs.Views.{ordinal_view};
ghost use Rattle.pfc_check.specs.States.{state_of, around};

use pfc_base::{Memory, Name, Place, Refusal};
use pfc_phrases::{Ordinal, constant_fault, constant_value, fault_unless, is_object, meaning_of};
use pfc_tree::Constant;
use pfc_types::{Meaning, ScopeFault, Scopes, TypeId, TypeTable, View, find};
use std::alloc::Global;

/// What the declarations have made so far: the table of types, and the scopes with their headings and the rules that
/// are broken.
#[derive(Drop)]
pub(crate) struct State {
    pub(crate) alloc: Global,
    pub(crate) types: TypeTable,
    pub(crate) scopes: Scopes,
}

/// A block whose declarations are walked.
#[derive(Clone, Copy)]
pub(crate) struct Block<'a> {
    /// The number of its scope.
    pub(crate) scope: u32,
    /// What is in view around it; None for the program's own block.
    pub(crate) outer: Option<&'a View<'a>>,
}

/// The block whose scope has this number, inside of what is in view.
pub(crate) fn inside<'a>(scope: u32, view: &'a View<'a>) -> Block<'a>
    ensures scope { result.scope ≡ scope }
    ensures around { around result ≡ levels view.now }
{
    Block {
        scope,
        outer: Some(view),
    }
}

impl State {
    /// Before the first declaration: the predeclared types, and the program's own scope.
    pub(crate) fn new(alloc: Global) -> Result<State, Memory>
        ensures { IfOk result (λ state. state_of state ≡ begun) }
    {
        let types = TypeTable::new(alloc)?;
        let mut scopes = Scopes::new(alloc);
        scopes.open(alloc)?;
        Ok(State {
            alloc,
            types,
            scopes,
        })
    }

    /// Notes a broken rule, where there is one.
    pub(crate) fn note(&mut self, fault: Option<Refusal>) -> Result<(), Memory>
        ensures state { OnOk result (state_of self.new ≡ note (state_of self.old) (refused fault)) }
        ensures scopes { OnOk result (self.new.scopes.scopes ≡ self.old.scopes.scopes) }
    {
        match fault {
            None => Ok(()),
            Some(refusal) => self.scopes.note(refusal),
        }
    }

    /// Notes that a rule is broken at a place, unless this holds.
    pub(crate) fn unless(&mut self, holds: bool, place: Place, code: u16) -> Result<(), Memory>
        ensures { OnOk result (state_of self.new ≡ note (state_of self.old) (unless holds place code)) }
    {
        self.note(fault_unless(holds, place, code))
    }

    /// Opens a scope behind the others.
    pub(crate) fn open(&mut self) -> Result<(), Memory>
        ensures { OnOk result (state_of self.new ≡ open_scope (state_of self.old)) }
    {
        self.scopes.open(self.alloc)
    }

    /// Declares a name in the scope i. Where it is repeated, that is noted at its place, and the first counts.
    pub(crate) fn declare(
        &mut self,
        i: u32,
        name: &Name,
        place: Place,
        meaning: Meaning,
    ) -> Result<(), Memory>
        ensures { OnOk result (state_of self.new ≡ declare (state_of self.old) i (name.now, place) meaning) }
    {
        let copy = name.copy(self.alloc)?;
        match self.scopes.declare(i, copy, meaning) {
            Ok(()) => Ok(()),
            Err(ScopeFault::Repeated) => self.unless(false, place, 302),
            Err(ScopeFault::Memory) => Err(Memory),
        }
    }

    /// How many names the scope i holds so far.
    pub(crate) fn names(&self, i: u32) -> u32
        ensures { result ≡ length (scope_at (state_of self.now).blocks.scopes i) }
    {
        if self.scopes.len() <= i {
            return 0;
        }
        self.scopes.at(i).len()
    }

    /// What a name stands for in the scope i, None where that does not hold it.
    pub(crate) fn meaning(&self, i: u32, name: &Name) -> Option<Meaning>
        ensures { result ≡ meaning_in (scope_at (state_of self.now).blocks.scopes i) name.now }
    {
        if self.scopes.len() <= i {
            return None;
        }
        self.scopes.at(i).find(name).copied()
    }

    /// Whether the scope i holds a name.
    pub(crate) fn holds(&self, i: u32, name: &Name) -> bool
        ensures { result ≡ is_some (meaning_in (scope_at (state_of self.now).blocks.scopes i) name.now) }
    {
        self.meaning(i, name).is_some()
    }

    /// The names in view in a block now: all that its scope holds so far, and what is in view around it.
    pub(crate) fn here<'a>(&self, block: Block<'a>) -> View<'a>
        ensures { levels result ≡ here (state_of self.now).blocks.scopes block.entry.scope (around block.entry) }
    {
        View {
            scope: block.scope,
            count: self.names(block.scope),
            outer: block.outer,
        }
    }

    /// What a name in view stands for.
    pub(crate) fn look(&self, view: &View, name: &Name) -> Option<Meaning>
        ensures { result ≡ look (state_of self.now).blocks.scopes (levels view.now) name.now }
    {
        meaning_of(find(&self.scopes, view, name))
    }

    /// The value of a constant, None where it is faulty.
    pub(crate) fn value(&self, c: &Constant, view: &View) -> Option<Ordinal>
        ensures { option_map ordinal_view result ≡ constants.constant_value (state_of self.now).blocks.scopes (levels view.now) c.now }
    {
        constant_value(c, &self.scopes, view)
    }

    /// The rule that is broken in a constant.
    pub(crate) fn constant_fault(&self, c: &Constant, view: &View) -> Option<Refusal>
        ensures { (s : blocks.State) → note s (refused result) ≡ note s (constants.broken_constant (state_of self.now).blocks.scopes (levels view.now) c.now) }
    {
        constant_fault(c, &self.scopes, view)
    }

    /// Whether a type is a semaphore, a channel, a condition or a process, or holds one.
    pub(crate) fn is_object(&self, t: TypeId) -> bool
        ensures { result ≡ is_object (state_of self.now).forms t }
    {
        is_object(&self.types, t)
    }
}
