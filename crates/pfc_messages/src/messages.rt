//! Plain `!` and `?`.
ghost use Rattle.std.specs.Prelude.{◌≡◌, [], ◌∷◌, false, option_map, IfOk, IfErr, OnErr};
ghost use Rattle.pfc_program.specs.declared.tables.Tables.{Tables};
ghost use Rattle.pfc_state.specs.Stands.{IsWaiting};
ghost use Rattle.pfc_state.specs.Waits.{is_select};
ghost use Rattle.pfc_world.specs.Tables.{at};
ghost use Rattle.pfc_semantics.specs.Statements.{plain_open};
ghost use Rattle.pfc_pending.specs.Selects.{offer_view, opens_view};
ghost use Rattle.pfc_pending.specs.declared.actions.Deed.TheVariants as deed;
ghost use Rattle.pfc_pending.specs.declared.select.Offer.TheVariants as offer;
ghost use Rattle.pfc_activities.specs.Relation.{MayAct, IsPerformed, StaysAt};
ghost use Rattle.pfc_activities.specs.Shown.{activity_shown};
ghost use Rattle.pfc_meeting.specs.Meeting.{IsSent, IsReceived, IsShowing, waits_with};

use pfc_activities::{Activity, Done, Hand, Offering, Source, State};
use pfc_base::Memory;
use pfc_meeting::{met_receiver, met_sender, object_at, pass, place_of, room_at};
use pfc_pending::{At, Offer, Open, Stmts};
use pfc_store::{Spot, Value};
use pfc_world::{Arm, Why};
use std::alloc::Global;

/// The process has ended its action, and shows this while it waits.
fn show<'t>(activity: &mut Activity<'t>, opens: Vec<Open<'t>>)
    ensures { (t : Tables) → activity_shown t activity.new ≡ waits_with t activity.old opens.entry.items }
{
    let offering = Offering {
        line: activity.doing.line,
        opens,
        kept: activity.doing.pending.len(),
    };
    activity.doing.at = At::Rest;
    activity.hand = Hand::Offering(offering);
}

/// An offer as the one open alternative, without statements. Its only refusal is want of memory.
#[tactic(auto, using(pfc_meeting::proofs::Behind::no_statements))]
fn alone<'t>(
    alloc: Global,
    source: &Source<'t>,
    offer: Offer<'t>,
) -> Result<Vec<Open<'t>>, Offer<'t>>
    ensures ok { IfOk result (λ opens. opens_view opens.items ≡ plain_open (offer_view offer.entry) ∷ []) }
    ensures given { IfErr result (λ given. given ≡ offer.entry) }
{
    let mut opens = Vec::new(alloc);
    let Ok(()) = opens.reserve(1) else {
        return Err(offer);
    };
    let list = source.program.main.stmts;
    let stmts = Stmts {
        list,
        from: list.len(),
    };
    opens
        .push(Open {
            offer,
            replica: None,
            next: 0,
            stmts,
        })
        .unwrap();
    Ok(opens)
}

/// The process waits for this, and shows what it offers, as an alternative without statements. Want of memory changes nothing.
fn waits<'t>(
    alloc: Global,
    source: &Source<'t>,
    state: &mut State<'t>,
    p: u32,
    why: Why,
    offer: Offer<'t>,
) -> Result<Done, Offer<'t>>
    requires may { MayAct state.old p }
    requires plain { is_select why ≡ false }
    ensures ok { IfOk result (λ d. IsShowing state.old state.new p why offer.entry d) }
    ensures err { OnErr result (StaysAt state.old state.new p) }
    ensures given { IfErr result (λ given. given ≡ offer.entry) }
{
    let opens = match alone(alloc, source, offer) {
        Ok(opens) => opens,
        Err(given) => return Err(given),
    };
    let line = state.line_of(p);
    let r = state.world.begin(p);
    state.world.block(r, why);
    show(&mut state.activities[p as usize], opens);
    state.end_action(p, line);
    Ok(Done::Stepped)
}

/// The message is sent to a process that waits to receive it. It is refused where memory is, and where that process offers no such thing,
/// which never comes in a run; nothing is to be seen of it then.
fn sends_to<'t>(
    alloc: Global,
    state: &mut State<'t>,
    p: u32,
    q: u32,
    channel: u32,
    value: Value,
) -> Result<Done, Value>
    requires may { MayAct state.old p }
    requires waits { IsWaiting (at state.old.world.rows q) }
    ensures ok { IfOk result (λ d. IsSent state.old state.new p q channel value d) }
    ensures err { OnErr result (StaysAt state.old state.new p) }
    ensures given { IfErr result (λ given. given ≡ value) }
{
    let Ok(()) = room_at(state, q) else {
        return Err(value);
    };
    let partner = &state.activities[q as usize];
    let Ok(met) = met_receiver(alloc, &state.store, partner, channel) else {
        return Err(value);
    };
    Ok(pass(state, p, q, met.into, value, met.way))
}

/// The message is received from a process that waits to send it. It is refused where memory is, and where that process offers no such
/// thing, which never comes in a run; nothing is to be seen of it then.
fn receives_from<'t>(
    alloc: Global,
    state: &mut State<'t>,
    p: u32,
    q: u32,
    channel: u32,
    target: &Option<Spot>,
) -> Result<Done, Memory>
    requires may { MayAct state.old p }
    requires waits { IsWaiting (at state.old.world.rows q) }
    ensures ok { IfOk result (λ d. IsReceived state.old state.new p q channel target.now d) }
    ensures err { OnErr result (StaysAt state.old state.new p) }
{
    let Ok(()) = room_at(state, q) else {
        return Err(Memory);
    };
    let partner = &state.activities[q as usize];
    let Ok(met) = met_sender(alloc, &state.store, partner, channel) else {
        return Err(Memory);
    };
    let display = &state.activities[p as usize].display;
    let Ok(into) = place_of(alloc, &state.store, display, target) else {
        return Err(Memory);
    };
    Ok(pass(state, p, q, into, met.value, met.way))
}

/// A plain `!`: the value passes to the process that has waited longest to receive from the channel; where there is none, the process
/// waits. It is refused where memory is, and where something does not fit that fits in every run; nothing is to be seen of it then.
pub fn sends<'t>(
    alloc: Global,
    source: &Source<'t>,
    state: &mut State<'t>,
    p: u32,
    channel: Spot,
    value: Value,
) -> Result<Done, Offer<'t>>
    requires { MayAct state.old p }
    ensures ok { IfOk result (λ d. IsPerformed state.old state.new p (deed.Meets (offer.Send channel value)) [] d) }
    ensures err { OnErr result (StaysAt state.old state.new p) }
    ensures given { IfErr result (λ given. given ≡ offer.Send channel value) }
{
    let display = &state.activities[p as usize].display;
    let Ok(number) = object_at(&state.store, display, &channel) else {
        return Err(Offer::Send(channel, value));
    };
    match state.world.first_open_to(Arm::Receive(number)) {
        Some(partner) => match sends_to(alloc, state, p, partner.process, number, value) {
            Ok(done) => Ok(done),
            Err(value) => Err(Offer::Send(channel, value)),
        },
        None => waits(
            alloc,
            source,
            state,
            p,
            Why::Send(number),
            Offer::Send(channel, value),
        ),
    }
}

/// A plain `?`: a value comes from the process that has waited longest to send to the channel; where there is none, the process waits. It
/// is refused where memory is, and where something does not fit that fits in every run; nothing is to be seen of it then.
pub fn receives<'t>(
    alloc: Global,
    source: &Source<'t>,
    state: &mut State<'t>,
    p: u32,
    channel: Spot,
    target: Option<Spot>,
) -> Result<Done, Offer<'t>>
    requires { MayAct state.old p }
    ensures ok { IfOk result (λ d. IsPerformed state.old state.new p (deed.Meets (offer.Receive channel target)) [] d) }
    ensures err { OnErr result (StaysAt state.old state.new p) }
    ensures given { IfErr result (λ given. given ≡ offer.Receive channel target) }
{
    let display = &state.activities[p as usize].display;
    let Ok(number) = object_at(&state.store, display, &channel) else {
        return Err(Offer::Receive(channel, target));
    };
    match state.world.first_open_to(Arm::Send(number)) {
        Some(partner) => match receives_from(alloc, state, p, partner.process, number, &target) {
            Ok(done) => Ok(done),
            Err(Memory) => Err(Offer::Receive(channel, target)),
        },
        None => waits(
            alloc,
            source,
            state,
            p,
            Why::Receive(number),
            Offer::Receive(channel, target),
        ),
    }
}
