//! Last events: where in a run each object was last synchronised at.
ghost use Rattle.std.specs.Prelude.{◌≡◌, OnOk, []};
ghost use Rattle.std.specs.List.{list_any};
ghost use Rattle.pfc_hb.specs.Lasts.{PutsIn, last_place};
ghost use Rattle.pfc_hb.specs.Order.{is_same_thing};

use crate::Thing;
use pfc_base::Memory;
use std::alloc::Global;
use std::collections::HashMap;

/// For each object the place of the last event with it, of those that were put in.
#[derive(Drop)]
pub(crate) struct Lasts {
    pub(crate) places: HashMap<Thing, usize>,
}

impl Lasts {
    /// No event is put in yet.
    pub(crate) fn new(alloc: Global) -> Lasts
        ensures { result.places.entries ≡ [] }
    {
        Lasts {
            places: HashMap::new(alloc),
        }
    }

    /// The place of the last event with an object.
    pub(crate) fn of(&self, thing: Thing) -> Option<usize>
        ensures { result ≡ last_place self.now.places.entries thing }
    {
        self.places.get(&thing).copied()
    }

    /// Puts in an event behind all others, by its objects and its place. The only refusal is want of memory.
    pub(crate) fn put(&mut self, things: &[Thing], place: usize) -> Result<(), Memory>
        ensures { OnOk result (PutsIn (λ other. list_any (is_same_thing other) things.now) place self.old.places.entries self.new.places.entries) }
    {
        for thing in things {
            self.put_thing(*thing, place)?;
        }
        Ok(())
    }

    fn put_thing(&mut self, thing: Thing, place: usize) -> Result<(), Memory>
        ensures { OnOk result (PutsIn (λ other. is_same_thing other thing) place self.old.places.entries self.new.places.entries) }
    {
        self.places.insert(thing, place)?;
        Ok(())
    }
}
