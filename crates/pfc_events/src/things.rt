//! The objects at which an action synchronises.
ghost use Rattle.std.specs.Prelude.{◌≡◌, ◌++◌, ◌∷◌, [], IfOk, OnOk, option_to_list};
ghost use Rattle.pfc_store.specs.Views.{spot_view, store_view};
ghost use Rattle.pfc_pending.specs.Selects.{offer_view, opens_view};
ghost use Rattle.pfc_program.specs.declared.tables.Tables.{Tables};
ghost use Rattle.pfc_activities.specs.Views.{activations_view, mark_view};
ghost use Rattle.pfc_meeting.specs.Opens.{number_in};
ghost use Rattle.pfc_races.specs.Seen.{thing_seen, things_seen};
ghost use Rattle.pfc_semantics.specs.Events.{a_monitor, innermost_things as innermost_seen, mark_things};
ghost use Rattle.pfc_events.specs.Things.{callee_things, module_thing_in, monitor_in, open_thing_in, open_things_in, things_held};

use pfc_activities::{Activation, Activity, Mark, Source, State};
use pfc_base::Memory;
use pfc_hb::Thing;
use pfc_meeting::object_at;
use pfc_pending::{Callee, Deed, Offer, Open};
use pfc_program::module_number;
use pfc_store::{Display, Spot, Store};
use pfc_types::Scopes;
use std::alloc::Global;

fn alone(alloc: Global, thing: Thing) -> Result<Vec<Thing>, Memory>
    ensures { IfOk result (λ things. things.items ≡ thing ∷ []) }
{
    let mut things = Vec::new(alloc);
    things.push(thing)?;
    Ok(things)
}

/// The channel of an offer, or the process itself where it is to accept; no other offer has an object. It is refused where a number is past
/// 2^32, which never comes in a run.
fn open_thing<'t>(
    store: &Store,
    display: &Display,
    p: u32,
    offer: &Offer<'t>,
) -> Result<Option<Thing>, Memory>
    ensures { IfOk result (λ thing. option_to_list thing ≡ things_seen (open_thing_in (store_view store.now) display.now p (offer_view offer.now))) }
{
    match offer {
        Offer::Send(channel, _) => Ok(Some(Thing::Channel(object_at(store, display, channel)?))),
        Offer::Receive(channel, _) => {
            Ok(Some(Thing::Channel(object_at(store, display, channel)?)))
        }
        Offer::Accept(_) => Ok(Some(Thing::Owner(p))),
        Offer::Wait(_) => Ok(None),
        Offer::End => Ok(None),
    }
}

fn offer_things<'t>(
    alloc: Global,
    store: &Store,
    display: &Display,
    p: u32,
    offer: &Offer<'t>,
) -> Result<Vec<Thing>, Memory>
    ensures { IfOk result (λ things. things.items ≡ things_seen (open_thing_in (store_view store.now) display.now p (offer_view offer.now))) }
{
    match open_thing(store, display, p, offer)? {
        Some(thing) => alone(alloc, thing),
        None => Ok(Vec::new(alloc)),
    }
}

/// The objects of all open alternatives. They are refused where memory is, and where a number is past 2^32.
#[tactic(auto, using(crate::proofs::Objects::things_step, crate::proofs::Objects::things_end))]
fn open_things<'t>(
    alloc: Global,
    store: &Store,
    display: &Display,
    p: u32,
    opens: &[Open<'t>],
) -> Result<Vec<Thing>, Memory>
    ensures { IfOk result (λ things. things.items ≡ things_seen (open_things_in (store_view store.now) display.now p (opens_view opens.now))) }
{
    let mut things = Vec::new(alloc);
    for open in opens {
        if let Some(thing) = open_thing(store, display, p, &open.offer)? {
            things.push(thing)?;
        }
    }
    Ok(things)
}

/// The monitor or resource that is a module of the text.
fn module_thing(scopes: &Scopes, n: u32) -> Thing
    ensures { result ≡ thing_seen (module_thing_in scopes.now n) }
{
    let number = module_number(scopes, n);
    if scopes.module(n).resource {
        return Thing::Resource(number);
    }
    Thing::Monitor(number)
}

/// The monitor or resource of a mark.
fn mark_things(alloc: Global, mark: Mark) -> Result<Vec<Thing>, Memory>
    ensures { IfOk result (λ things. things.items ≡ things_seen (mark_things (mark_view mark))) }
{
    match mark {
        Mark::Plain => Ok(Vec::new(alloc)),
        Mark::Monitor(m) => alone(alloc, Thing::Monitor(m)),
        Mark::Resource(r) => alone(alloc, Thing::Resource(r)),
    }
}

/// The monitor or resource with which the innermost activation is marked.
fn innermost_things<'t>(alloc: Global, activations: &[Activation<'t>]) -> Result<Vec<Thing>, Memory>
    ensures { IfOk result (λ things. (t : Tables) → things.items ≡ things_seen (innermost_seen (activations_view t activations.now))) }
{
    match activations {
        [.., last] => mark_things(alloc, last.mark),
        [] => Ok(Vec::new(alloc)),
    }
}

/// The objects of a call.
fn call_things<'t>(
    alloc: Global,
    source: &Source<'t>,
    store: &Store,
    own: &Activity<'t>,
    callee: &Callee,
) -> Result<Vec<Thing>, Memory>
    ensures { IfOk result (λ things. things.items ≡ things_seen (callee_things source.now (store_view store.now) own.now callee.now)) }
{
    match callee {
        Callee::Module(n, _) => alone(alloc, module_thing(source.program.tables.scopes, *n)),
        Callee::Requeue(_) => innermost_things(alloc, &own.activations),
        Callee::Entry(spot, _) => {
            let owner = object_at(store, &own.display, spot)?;
            alone(alloc, Thing::Owner(owner))
        }
        Callee::Procedure(_) => Ok(Vec::new(alloc)),
        Callee::Function(_) => Ok(Vec::new(alloc)),
        Callee::Process(_) => Ok(Vec::new(alloc)),
    }
}

/// The semaphore that a spot names.
fn semaphore_things(
    alloc: Global,
    store: &Store,
    display: &Display,
    spot: &Spot,
) -> Result<Vec<Thing>, Memory>
    ensures { IfOk result (λ things. things.items ≡ Thing.Semaphore (number_in (store_view store.now) display.now (spot_view spot.now)) ∷ []) }
{
    alone(alloc, Thing::Semaphore(object_at(store, display, spot)?))
}

/// The monitor of the condition that a spot names. A condition that is none, which never comes, counts as want of memory.
fn monitor_things<'t>(
    alloc: Global,
    state: &State<'t>,
    display: &Display,
    spot: &Spot,
) -> Result<Vec<Thing>, Memory>
    ensures { IfOk result (λ things. things.items ≡ thing_seen (a_monitor (monitor_in state.now display.now (spot_view spot.now))) ∷ []) }
{
    let condition = object_at(&state.store, display, spot)?;
    if !state.monitors.has_condition(condition) {
        return Err(Memory);
    }
    alone(alloc, Thing::Monitor(state.monitors.monitor_of(condition)))
}

/// The objects at which an action of a process synchronises: of a select those of all its open alternatives. They are refused where memory is,
/// and where a number is past 2^32 or a condition is none, which never come in a run.
pub(crate) fn things_of<'t>(
    alloc: Global,
    source: &Source<'t>,
    state: &State<'t>,
    own: &Activity<'t>,
    p: u32,
    deed: &Deed<'t>,
) -> Result<Vec<Thing>, Memory>
    ensures { IfOk result (λ things. things.items ≡ things_seen (things_held source.now state.now own.now p deed.now)) }
{
    let store = &state.store;
    let display = &own.display;
    match deed {
        Deed::Calls(callee, _) => call_things(alloc, source, store, own, callee),
        Deed::Finishes(_) => innermost_things(alloc, &own.activations),
        Deed::Initials(spot, _) => semaphore_things(alloc, store, display, spot),
        Deed::Waits(spot) => semaphore_things(alloc, store, display, spot),
        Deed::Signals(spot) => semaphore_things(alloc, store, display, spot),
        Deed::AsksEmpty(spot) => monitor_things(alloc, state, display, spot),
        Deed::Delays(spot, _) => monitor_things(alloc, state, display, spot),
        Deed::Resumes(spot) => monitor_things(alloc, state, display, spot),
        Deed::Meets(offer) => offer_things(alloc, store, display, p, offer),
        Deed::Decides(select) => open_things(alloc, store, display, p, &select.offered),
        Deed::Parts(_) => alone(alloc, Thing::Owner(p)),
        Deed::Scans(scan) => alone(alloc, Thing::Resource(scan.resource)),
        Deed::Bars(guard) => alone(alloc, Thing::Resource(guard.resource)),
        Deed::Passes(_, scan) => alone(alloc, Thing::Resource(scan.resource)),
        _ => Ok(Vec::new(alloc)),
    }
}
