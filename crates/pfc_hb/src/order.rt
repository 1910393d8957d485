//! The order of the events of a run, kept as their clocks.
ghost use Rattle.std.specs.Prelude.{◌≡◌, ◌<◌, ◌≤◌, ℕ, true, [], IfOk, length, slice_index_or, slice_index};
ghost use Rattle.pfc_hb.specs.Clocks.{AreClocks, AreSlots, Gathers, Has, HasAll, IsClock, Keeps, TellOrder, has_thing, leads, reaches};
ghost use Rattle.pfc_hb.specs.Lasts.{TellLasts};
ghost use Rattle.pfc_hb.specs.Order.{Before, event_at, shares_thing};

use crate::clocks::Clock;
use crate::columns::{Column, columns_of};
use crate::comparing::reaches_process;
use crate::lasts::Lasts;
use crate::slots::{Slots, slots_of};
use crate::{Event, Thing};
use pfc_base::Memory;
use std::alloc::Global;

/// The order of some events: for each the slot of its process, and for each slot its column.
#[derive(Drop)]
pub(crate) struct Order {
    pub(crate) slots: Vec<usize>,
    pub(crate) columns: Vec<Column>,
}

impl Order {
    /// The counts of the process of an event in the clocks of all events.
    pub(crate) fn column(&self, place: usize) -> &[u32]
        requires place { place < length self.now.slots.items }
        requires slot { slice_index self.now.slots.items place < length self.now.columns.items }
        ensures { result.now ≡ slice_index_or self.now.columns.items (slice_index self.now.slots.items place) [] }
    {
        self.columns[self.slots[place]].as_slice()
    }
}

/// The order of the events of a run. The only refusal is want of memory.
pub(crate) fn order_of(alloc: Global, events: &[Event]) -> Result<Order, Memory>
    requires { length events.now ≤ 2000 }
    ensures { IfOk result (λ order. TellOrder events.now order.slots.items order.columns.items) }
{
    let slots = slots_of(alloc, events)?;
    let clocks = clocks_of(alloc, events, &slots)?;
    let columns = columns_of(alloc, &clocks, slots.width)?;
    let Slots {
        of_events,
        width: _,
    } = slots;
    Ok(Order {
        slots: of_events,
        columns,
    })
}

fn clocks_of(alloc: Global, events: &[Event], slots: &Slots) -> Result<Vec<Clock>, Memory>
    requires few { length events.now ≤ 2000 }
    requires slots { AreSlots events.now slots.now.of_events.items slots.now.width }
    ensures each { IfOk result (λ clocks. length clocks.items ≡ length events.now) }
    ensures clocks { IfOk result (λ clocks. AreClocks events.now slots.now.of_events.items slots.now.width (length events.now) clocks.items) }
{
    let mut clocks = Vec::new(alloc);
    let mut lasts = Lasts::new(alloc);
    for (place, event) in events.iter().enumerate() {
        let clock = clock_of(alloc, events, slots, &clocks, &lasts, place)?;
        clocks.push(clock)?;
        lasts.put(event.things.as_slice(), place)?;
    }
    Ok(clocks)
}

/// The clock of the event at a place, from those of all events before it.
fn clock_of(
    alloc: Global,
    events: &[Event],
    slots: &Slots,
    clocks: &[Clock],
    lasts: &Lasts,
    place: usize,
) -> Result<Clock, Memory>
    requires few { length events.now ≤ 2000 }
    requires slots { AreSlots events.now slots.now.of_events.items slots.now.width }
    requires place { place < length events.now }
    requires each { length clocks.now ≡ place }
    requires clocks { AreClocks events.now slots.now.of_events.items slots.now.width place clocks.now }
    requires lasts { TellLasts events.now place lasts.now.places.entries }
    ensures { IfOk result (λ clock. IsClock events.now slots.now.of_events.items slots.now.width place clock) }
{
    let mut clock = Clock::new(alloc, slots.width)?;
    gather(&mut clock, events, slots, clocks, lasts, place);
    clock.set_count(slots.of_events[place], place as u32 + 1);
    Ok(clock)
}

/// Has a clock that counts nothing yet count what is before the event at a place.
fn gather(
    clock: &mut Clock,
    events: &[Event],
    slots: &Slots,
    clocks: &[Clock],
    lasts: &Lasts,
    place: usize,
)
    requires slots { AreSlots events.now slots.now.of_events.items slots.now.width }
    requires place { place < length events.now }
    requires each { length clocks.now ≡ place }
    requires clocks { AreClocks events.now slots.now.of_events.items slots.now.width place clocks.now }
    requires lasts { TellLasts events.now place lasts.now.places.entries }
    requires behind { Gathers events.now slots.now.of_events.items slots.now.width place clock.old }
    ensures gathered { Gathers events.now slots.now.of_events.items slots.now.width place clock.new }
    ensures all { HasAll events.now slots.now.of_events.items leads place clock.new }
{
    count_own_past(clock, events, slots, clocks, place);
    count_objects(clock, events, slots, clocks, lasts, place);
    if events[place].joins {
        count_all(clock, events, slots, clocks, place);
    }
}

/// Has the clock of the event at a place count the events of its process and those that woke it. The last event of its
/// process has all that is further back.
fn count_own_past(
    clock: &mut Clock,
    events: &[Event],
    slots: &Slots,
    clocks: &[Clock],
    place: usize,
)
    requires slots { AreSlots events.now slots.now.of_events.items slots.now.width }
    requires place { place < length events.now }
    requires each { length clocks.now ≡ place }
    requires clocks { AreClocks events.now slots.now.of_events.items slots.now.width place clocks.now }
    requires behind { Gathers events.now slots.now.of_events.items slots.now.width place clock.old }
    ensures gathered { Gathers events.now slots.now.of_events.items slots.now.width place clock.new }
    ensures all { HasAll events.now slots.now.of_events.items reaches place clock.new }
{
    let event = &events[place];
    for earlier in (0..place).rev() {
        count_if_reaching(clock, events, slots, clocks, earlier, place);
        if events[earlier].process == event.process {
            return;
        }
    }
}

fn count_if_reaching(
    clock: &mut Clock,
    events: &[Event],
    slots: &Slots,
    clocks: &[Clock],
    earlier: usize,
    place: usize,
)
    requires slots { AreSlots events.now slots.now.of_events.items slots.now.width }
    requires place { place < length events.now }
    requires each { length clocks.now ≡ place }
    requires clocks { AreClocks events.now slots.now.of_events.items slots.now.width place clocks.now }
    requires behind { Gathers events.now slots.now.of_events.items slots.now.width place clock.old }
    requires earlier { earlier < place }
    ensures gathered { Gathers events.now slots.now.of_events.items slots.now.width place clock.new }
    ensures kept { Keeps slots.now.of_events.items clock.old clock.new }
    ensures counted { reaches (event_at events.now earlier) (event_at events.now place) ≡ true → Has slots.now.of_events.items clock.new earlier }
{
    if reaches_process(&events[earlier], &events[place]) {
        count_cause(clock, events, slots, clocks, earlier, place);
    }
}

/// Has the clock of the event at a place count the events that have an object with it. The last event with an object has
/// all that is further back.
fn count_objects(
    clock: &mut Clock,
    events: &[Event],
    slots: &Slots,
    clocks: &[Clock],
    lasts: &Lasts,
    place: usize,
)
    requires slots { AreSlots events.now slots.now.of_events.items slots.now.width }
    requires place { place < length events.now }
    requires each { length clocks.now ≡ place }
    requires clocks { AreClocks events.now slots.now.of_events.items slots.now.width place clocks.now }
    requires lasts { TellLasts events.now place lasts.now.places.entries }
    requires behind { Gathers events.now slots.now.of_events.items slots.now.width place clock.old }
    ensures gathered { Gathers events.now slots.now.of_events.items slots.now.width place clock.new }
    ensures kept { Keeps slots.now.of_events.items clock.old clock.new }
    ensures all { HasAll events.now slots.now.of_events.items shares_thing place clock.new }
{
    for thing in events[place].things.as_slice() {
        count_object(clock, events, slots, clocks, lasts, *thing, place);
    }
}

fn count_object(
    clock: &mut Clock,
    events: &[Event],
    slots: &Slots,
    clocks: &[Clock],
    lasts: &Lasts,
    thing: Thing,
    place: usize,
)
    requires slots { AreSlots events.now slots.now.of_events.items slots.now.width }
    requires place { place < length events.now }
    requires each { length clocks.now ≡ place }
    requires clocks { AreClocks events.now slots.now.of_events.items slots.now.width place clocks.now }
    requires lasts { TellLasts events.now place lasts.now.places.entries }
    requires behind { Gathers events.now slots.now.of_events.items slots.now.width place clock.old }
    requires had { has_thing thing (event_at events.now place) ≡ true }
    ensures gathered { Gathers events.now slots.now.of_events.items slots.now.width place clock.new }
    ensures kept { Keeps slots.now.of_events.items clock.old clock.new }
    ensures counted { (k : ℕ) → k < place → has_thing thing (event_at events.now k) ≡ true → Has slots.now.of_events.items clock.new k }
{
    if let Some(earlier) = lasts.of(thing) {
        count_cause(clock, events, slots, clocks, earlier, place);
    }
}

/// Has the clock of the event at a place, which joins, count all events before it.
fn count_all(clock: &mut Clock, events: &[Event], slots: &Slots, clocks: &[Clock], place: usize)
    requires slots { AreSlots events.now slots.now.of_events.items slots.now.width }
    requires place { place < length events.now }
    requires each { length clocks.now ≡ place }
    requires clocks { AreClocks events.now slots.now.of_events.items slots.now.width place clocks.now }
    requires behind { Gathers events.now slots.now.of_events.items slots.now.width place clock.old }
    requires joins { (event_at events.now place).joins ≡ true }
    ensures gathered { Gathers events.now slots.now.of_events.items slots.now.width place clock.new }
    ensures kept { Keeps slots.now.of_events.items clock.old clock.new }
    ensures all { (k : ℕ) → k < place → Has slots.now.of_events.items clock.new k }
{
    for earlier in (0..place).rev() {
        count_cause(clock, events, slots, clocks, earlier, place);
    }
}

/// Has the clock of the event at a place count one that is before it, with all that is before that. Where the clock counts it
/// already, nothing is new.
fn count_cause(
    clock: &mut Clock,
    events: &[Event],
    slots: &Slots,
    clocks: &[Clock],
    earlier: usize,
    place: usize,
)
    requires slots { AreSlots events.now slots.now.of_events.items slots.now.width }
    requires place { place < length events.now }
    requires each { length clocks.now ≡ place }
    requires clocks { AreClocks events.now slots.now.of_events.items slots.now.width place clocks.now }
    requires behind { Gathers events.now slots.now.of_events.items slots.now.width place clock.old }
    requires earlier { earlier < place }
    requires before { Before events.now earlier place }
    ensures gathered { Gathers events.now slots.now.of_events.items slots.now.width place clock.new }
    ensures kept { Keeps slots.now.of_events.items clock.old clock.new }
    ensures counted { Has slots.now.of_events.items clock.new earlier }
{
    let slot = slots.of_events[earlier];
    if clock.count(slot) as usize <= earlier {
        clock.join(&clocks[earlier]);
    }
}
