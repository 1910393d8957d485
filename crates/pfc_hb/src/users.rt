//! Users: which events access a part of a variable.
ghost use Rattle.std.specs.Prelude.{◌≡◌, ◌<◌, ◌&&◌, ◌||◌, ◌==◌, ℕ, Bool, Some, All, IfOk, OnOk, length, replicate};
ghost use Rattle.std.specs.Option.{option_to_list};
ghost use Rattle.pfc_hb.specs.Parts.{is_same_spot, lies_in, number_of};
ghost use Rattle.pfc_hb.specs.Users.{Adds, AddsAll, AddsNumbers, AreSized, HaveRoomFor, SameSizes, TellUsers, has_number, is_user, marks_against, no_users};

use crate::marks::Marks;
use crate::parts::{Part, number_of, numbers_outside};
use crate::{Access, Event};
use indexmap::IndexSet;
use pfc_base::Memory;
use std::alloc::Global;

/// The events that access a part, and those of them that write.
#[derive(Drop)]
pub(crate) struct Users {
    pub(crate) all: Marks,
    pub(crate) writers: Marks,
}

impl Users {
    fn new(alloc: Global, events: usize) -> Result<Users, Memory>
        ensures { IfOk result (λ users. users ≡ no_users events) }
    {
        Ok(Users {
            all: Marks::new(alloc, events)?,
            writers: Marks::new(alloc, events)?,
        })
    }

    /// Those with which a write clashes, or a read.
    pub(crate) fn against(&self, write: bool) -> &Marks
        ensures { result.now ≡ marks_against write self.now }
    {
        if write { &self.all } else { &self.writers }
    }

    fn put(&mut self, event: usize, write: bool)
        requires all { event < length self.old.all }
        requires writers { event < length self.old.writers }
        ensures all { length self.new.all ≡ length self.old.all }
        ensures writers { length self.new.writers ≡ length self.old.writers }
        ensures put { (w : Bool) (i : ℕ) → is_user self.new w i ≡ (is_user self.old w i || ((i == event) && (w || write))) }
    {
        self.all.put(event);
        if write {
            self.writers.put(event);
        }
    }
}

/// The users of all parts that the events of a run access: by what is of the part itself, and by what lies in it.
#[derive(Drop)]
pub(crate) struct Uses {
    pub(crate) at: Vec<Users>,
    pub(crate) within: Vec<Users>,
}

/// The users of these parts. The only refusal is want of memory.
pub(crate) fn uses_of<'a>(
    alloc: Global,
    events: &'a [Event],
    parts: &IndexSet<Part<'a>>,
) -> Result<Uses, Memory>
    ensures at { IfOk result (λ uses. TellUsers events.now parts.now.keys is_same_spot uses.at.items) }
    ensures within { IfOk result (λ uses. TellUsers events.now parts.now.keys lies_in uses.within.items) }
{
    let mut at = no_users(alloc, parts.len(), events.len())?;
    let mut within = no_users(alloc, parts.len(), events.len())?;
    for (place, event) in events.iter().enumerate() {
        put_event(alloc, &mut at, &mut within, parts, event, place)?;
    }
    Ok(Uses { at, within })
}

fn no_users(alloc: Global, parts: usize, events: usize) -> Result<Vec<Users>, Memory>
    ensures { IfOk result (λ users. users.items ≡ replicate parts (no_users events)) }
{
    let mut users = Vec::with_capacity(alloc, parts)?;
    for _part in 0..parts {
        users.push(Users::new(alloc, events)?)?;
    }
    Ok(users)
}

/// Puts an event among the users of what its accesses are of.
fn put_event<'a>(
    alloc: Global,
    at: &mut [Users],
    within: &mut [Users],
    parts: &IndexSet<Part<'a>>,
    event: &'a Event,
    place: usize,
) -> Result<(), Memory>
    requires parts_at { length at.old ≡ length parts.now.keys }
    requires parts_within { length within.old ≡ length parts.now.keys }
    requires room_at { HaveRoomFor place at.old }
    requires room_within { HaveRoomFor place within.old }
    ensures sizes_at { OnOk result (SameSizes at.old at.new) }
    ensures sizes_within { OnOk result (SameSizes within.old within.new) }
    ensures at { OnOk result (AddsAll parts.now.keys is_same_spot place event.now.accesses at.old at.new) }
    ensures within { OnOk result (AddsAll parts.now.keys lies_in place event.now.accesses within.old within.new) }
{
    for access in event.accesses.as_slice() {
        let own = number_of(parts, &access.spot);
        put_within(alloc, within, parts, access, own, place)?;
        put_own(at, own, place, access.write);
    }
    Ok(())
}

/// Puts an event among the users of all parts within which lies what an access is of, whose number is given.
fn put_within<'a>(
    alloc: Global,
    within: &mut [Users],
    parts: &IndexSet<Part<'a>>,
    access: &'a Access,
    own: Option<usize>,
    place: usize,
) -> Result<(), Memory>
    requires parts { length within.old ≡ length parts.now.keys }
    requires own { own ≡ number_of parts.now.keys access.now.spot }
    requires room { HaveRoomFor place within.old }
    ensures sizes { OnOk result (SameSizes within.old within.new) }
    ensures put { OnOk result (Adds parts.now.keys (lies_in access.now.spot) place access.now.write within.old within.new) }
{
    let outside = numbers_outside(alloc, parts, &access.spot)?;
    put_all(within, &outside, place, access.write);
    put_own(within, own, place, access.write);
    Ok(())
}

/// Puts an event among the users of the part of a number, if there is one.
fn put_own(users: &mut [Users], own: Option<usize>, place: usize, write: bool)
    requires own { (n : ℕ) → own ≡ Some n → n < length users.old }
    requires room { HaveRoomFor place users.old }
    ensures sizes { SameSizes users.old users.new }
    ensures put { AddsNumbers (option_to_list own) place write users.old users.new }
{
    if let Some(number) = own {
        let part = &mut users[number];
        part.put(place, write);
    }
}

/// Puts an event among the users of the parts of these numbers.
fn put_all(users: &mut [Users], numbers: &[usize], place: usize, write: bool)
    requires numbers { All (λ n. n < length users.old) numbers.now }
    requires room { HaveRoomFor place users.old }
    ensures sizes { SameSizes users.old users.new }
    ensures put { AddsNumbers numbers.now place write users.old users.new }
{
    for number in numbers {
        let part = &mut users[*number];
        part.put(place, write);
    }
}
