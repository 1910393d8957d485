//! The objects of synchronisation, and lists of them and of processes.
ghost use Rattle.std.specs.Prelude.{◌≡◌};

use std::marker::Model;

/// An object of a synchronisation, by its number. For calls of entries, for accepts and for their ends it is the
/// process that owns the entry.
#[derive(Clone, Copy, Debug, PartialEq, Eq, Hash)]
pub enum Thing {
    Semaphore(u32),
    Channel(u32),
    Monitor(u32),
    Resource(u32),
    Owner(u32),
}

/// Objects of an event, in any order. A contract sees them as a list.
#[derive(Drop)]
pub struct Things {
    things: Vec<Thing>,
}

impl Model for Things {
    ghost use Rattle.std.specs.Prelude.{List};
    ghost use Rattle.pfc_hb.specs.declared.objects.Thing.{Thing};

    ghost Value = { List Thing };

    ghost view = { λ t. t.things.items };
}

impl Things {
    /// These objects.
    pub fn from_vec(things: Vec<Thing>) -> Things
        ensures { result ≡ things.items }
    {
        Things { things }
    }

    /// The objects.
    pub fn as_slice(&self) -> &[Thing]
        ensures { result.now ≡ self.now }
    {
        &self.things
    }
}

/// Numbers of processes, in any order. A contract sees them as a list.
#[derive(Drop)]
pub struct Numbers {
    numbers: Vec<u32>,
}

impl Model for Numbers {
    ghost use Rattle.std.specs.Prelude.{ℕ, List};

    ghost Value = { List ℕ };

    ghost view = { λ n. n.numbers.items };
}

impl Numbers {
    /// These numbers.
    pub fn from_vec(numbers: Vec<u32>) -> Numbers
        ensures { result ≡ numbers.items }
    {
        Numbers { numbers }
    }

    /// The numbers.
    pub fn as_slice(&self) -> &[u32]
        ensures { result.now ≡ self.now }
    {
        &self.numbers
    }
}
