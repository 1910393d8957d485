//! The variables of the living activations.
ghost use Rattle.std.specs.Prelude.{◌≡◌, ◌<◌, ◌++◌, pos, [], ◌∷◌, length, get_or, IfOk, IfSome, OnOk, OnErr, None, option_copied};
ghost use Rattle.pfc_semantics.specs.Values.{ordinal, ordinal_of};
ghost use Rattle.pfc_semantics.specs.Store.{values_in, variable, value_at, stored, with_room, without, with_values, inside as part_inside};
ghost use Rattle.pfc_semantics.specs.Displays.{own_location, located};
ghost use Rattle.pfc_semantics.specs.Rendezvous.{taken_from};
ghost use Rattle.pfc_store.specs.Views.{selectors_view, location_view, spot_view, value_view, values_view, part_view, store_view, rooms_view};
ghost use Rattle.pfc_store.specs.Latest.{NoneOf, IsLatest};

use crate::displays::sum;
use crate::parts::{part_at, put_among, take_among};
use crate::room::Room;
use crate::{Display, Location, Selector, Spot, Value};
use pfc_base::Memory;
use std::alloc::Global;

/// The variables of all living activations: main's, which has the number 0, while it lives, and the rooms of the others, the latest last.
#[derive(Drop)]
pub struct Store {
    main: Option<Vec<Value>>,
    rooms: Vec<Room>,
}

impl Store {
    /// No activation lives.
    pub fn new(alloc: Global) -> Store
        ensures { store_view result ≡ [] }
    {
        Store {
            main: None,
            rooms: Vec::new(alloc),
        }
    }

    /// Main's activation alone lives.
    pub fn with_main(alloc: Global, values: Vec<Value>) -> Store
        ensures { store_view result ≡ with_room [] 0 (values_view values.items) }
    {
        Store {
            main: Some(values),
            rooms: Vec::new(alloc),
        }
    }

    /// A new activation. Its only refusal is want of memory, which changes nothing.
    pub fn add(&mut self, activation: u64, values: Vec<Value>) -> Result<(), Memory>
        requires { 0 < activation }
        ensures added { OnOk result (store_view self.new ≡ with_room (store_view self.old) activation (values_view values.items)) }
        ensures unchanged { OnErr result (store_view self.new ≡ store_view self.old) }
    {
        self.rooms.push(Room { activation, values })?;
        Ok(())
    }

    /// An activation has ended.
    pub fn remove(&mut self, activation: u64)
        ensures { store_view self.new ≡ without (store_view self.old) activation }
    {
        if activation == 0 {
            self.main = None;
        } else if let Some(i) = self.place_of(activation) {
            drop(self.rooms.remove(i));
        }
    }

    /// The place of an activation's room, the latest with that number; None where it has none.
    fn place_of(&self, activation: u64) -> Option<usize>
        ensures there { IfSome result (λ i. IsLatest self.now.rooms.items activation i) }
        ensures none { result ≡ None → NoneOf activation (rooms_view self.now.rooms.items) }
    {
        for i in (0..self.rooms.len()).rev() {
            if self.rooms[i].activation == activation {
                return Some(i);
            }
        }
        None
    }

    /// The variables of an activation, none where it does not live.
    fn values_of(&self, activation: u64) -> &[Value]
        ensures { values_view result.now ≡ values_in (store_view self.now) activation }
    {
        if activation == 0 {
            match &self.main {
                Some(values) => values,
                None => &[],
            }
        } else {
            match self.place_of(activation) {
                Some(i) => &self.rooms[i].values,
                None => &[],
            }
        }
    }

    /// What a variable holds, by its place in the layout of its activation's block; None where there is none: it counts as ordinal 0.
    fn variable(&self, activation: u64, place: usize) -> Option<&Value>
        ensures { part_view (option_copied result) ≡ get_or (values_in (store_view self.now) activation) place (ordinal (pos 0)) }
    {
        self.values_of(activation).get(place)
    }

    /// The part at a location; None where there is none: it counts as ordinal 0.
    fn part(&self, l: &Location) -> Option<&Value>
        ensures { part_view (option_copied result) ≡ value_at (store_view self.now) (location_view l.now) }
    {
        part_at(
            self.variable(l.activation, l.variable as usize)?,
            &l.selectors,
        )
    }

    /// The ordinal at a location, 0 where no value of a simple type lies there. It takes no memory.
    pub fn ordinal_at(&self, l: &Location) -> i64
        ensures { result ≡ ordinal_of (value_at (store_view self.now) (location_view l.now)) }
    {
        match self.part(l) {
            Some(value) => value.ordinal(),
            None => 0,
        }
    }

    /// A copy of the value at a location. Its only refusal is want of memory.
    pub fn value_at(&self, alloc: Global, l: &Location) -> Result<Value, Memory>
        ensures { IfOk result (λ v. value_view v ≡ value_at (store_view self.now) (location_view l.now)) }
    {
        match self.part(l) {
            Some(value) => value.copy(alloc),
            None => Ok(Value::of(0)),
        }
    }

    /// Puts another value at a location. Where there is no such part nothing changes.
    pub fn put(&mut self, l: &Location, v: Value)
        ensures { store_view self.new ≡ stored (store_view self.old) (location_view l.now) (value_view v) }
    {
        if l.activation == 0 {
            if let Some(mut values) = self.main.take() {
                put_among(&mut values, l.variable as usize, &l.selectors, v);
                self.main = Some(values);
            }
        } else if let Some(i) = self.place_of(l.activation) {
            self.rooms[i].put(l.variable as usize, &l.selectors, v);
        }
    }

    /// What the variable of a spot holds, whole: a value, or for a reference parameter the location that it stands for.
    fn variable_of(&self, display: &Display, spot: &Spot) -> Option<&Value>
        ensures { part_view (option_copied result) ≡ variable (store_view self.now) (own_location display.now (spot_view spot.now)) }
    {
        let frame = display.frame_of(spot.scope);
        self.variable(
            frame.activation,
            frame.first as usize + spot.variable as usize,
        )
    }

    /// The part where a spot lies; None where there is none: it counts as ordinal 0.
    fn part_in(&self, display: &Display, spot: &Spot) -> Option<&Value>
        ensures { part_view (option_copied result) ≡ value_at (store_view self.now) (located (store_view self.now) display.now (spot_view spot.now)) }
    {
        let held = self.variable_of(display, spot)?;
        match held {
            Value::Points(l) => part_at(self.part(l)?, &spot.selectors),
            Value::Ordinal(_) => part_at(held, &spot.selectors),
            Value::Compound(_) => part_at(held, &spot.selectors),
        }
    }

    /// The ordinal where a spot lies, 0 where no value of a simple type lies there. It takes no memory.
    pub fn ordinal_in(&self, display: &Display, spot: &Spot) -> i64
        ensures { result ≡ ordinal_of (value_at (store_view self.now) (located (store_view self.now) display.now (spot_view spot.now))) }
    {
        match self.part_in(display, spot) {
            Some(value) => value.ordinal(),
            None => 0,
        }
    }

    /// A copy of the value where a spot lies. Its only refusal is want of memory.
    pub fn value_in(&self, alloc: Global, display: &Display, spot: &Spot) -> Result<Value, Memory>
        ensures { IfOk result (λ v. value_view v ≡ value_at (store_view self.now) (located (store_view self.now) display.now (spot_view spot.now))) }
    {
        match self.part_in(display, spot) {
            Some(value) => value.copy(alloc),
            None => Ok(Value::of(0)),
        }
    }

    /// Where a spot lies. Its only refusal is want of memory; a place past 2^32 counts as one.
    pub fn located(&self, alloc: Global, display: &Display, spot: &Spot) -> Result<Location, Memory>
        ensures { IfOk result (λ l. location_view l ≡ located (store_view self.now) display.now (spot_view spot.now)) }
    {
        match self.variable_of(display, spot) {
            Some(Value::Points(l)) => inside(alloc, l, &spot.selectors),
            Some(Value::Ordinal(_)) => own_place(alloc, display, spot),
            Some(Value::Compound(_)) => own_place(alloc, display, spot),
            None => own_place(alloc, display, spot),
        }
    }

    /// The parameters of an accept take their values: variables of an activation, from one place on, one behind the other.
    pub fn take_parameters(&mut self, activation: u64, first: u32, args: Vec<Value>)
        ensures { store_view self.new ≡ with_values (store_view self.old) activation (taken_from first (values_view args.items)
            (values_in (store_view self.old) activation)) }
    {
        if activation == 0 {
            if let Some(mut values) = self.main.take() {
                take_among(&mut values, first, args);
                self.main = Some(values);
            }
        } else if let Some(i) = self.place_of(activation) {
            self.rooms[i].take(first, args);
        }
    }
}

/// The part behind some steps of what lies at a location.
fn inside(alloc: Global, l: &Location, steps: &[Selector]) -> Result<Location, Memory>
    ensures { IfOk result (λ k. location_view k ≡ part_inside (location_view l.now) (selectors_view steps.now)) }
{
    let mut selectors = Vec::from_slice(alloc, &l.selectors)?;
    selectors.extend_from_slice(steps)?;
    Ok(Location {
        activation: l.activation,
        variable: l.variable,
        selectors,
    })
}

/// Where a spot lies whose variable is no reference parameter.
fn own_place(alloc: Global, display: &Display, spot: &Spot) -> Result<Location, Memory>
    ensures { IfOk result (λ l. location_view l ≡ part_inside (own_location display.now (spot_view spot.now)) (selectors_view spot.now.selectors.items)) }
{
    let frame = display.frame_of(spot.scope);
    Ok(Location {
        activation: frame.activation,
        variable: sum(frame.first, spot.variable)?,
        selectors: Vec::from_slice(alloc, &spot.selectors)?,
    })
}
