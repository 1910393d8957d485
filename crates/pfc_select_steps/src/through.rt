//! Going through the alternatives: the next one, its replica, its guard, and what it waits for.
ghost use Rattle.std.specs.Prelude.{◌≡◌, ◌∷◌, [], ℕ, true, false, IfOk, IfErr, option_map};
ghost use Rattle.pfc_tree.specs.views.Exprs.{expr_view, desig_view};
ghost use Rattle.pfc_tree.specs.views.Stmts.{accept_view, comm_view};
ghost use Rattle.pfc_types.specs.rules.Expressions.{Env as Known};
ghost use Rattle.pfc_semantics.specs.Alternatives as alternatives;
ghost use Rattle.pfc_semantics.specs.Alternatives.{context};
ghost use Rattle.pfc_semantics.specs.Remainders.{Context, to_accept};
ghost use Rattle.pfc_phrases.specs.Views.{env_view};
ghost use Rattle.pfc_program.specs.declared.tables.Tables.{Tables};
ghost use Rattle.pfc_pending.specs.Ahead.{ahead, step_ahead};
ghost use Rattle.pfc_pending.specs.Selects.{alternative_view, offer_view, rest_view};
ghost use Rattle.pfc_pending.specs.Waiting.{Waiting};
ghost use Rattle.pfc_pending.specs.declared.at_hand.At.TheVariants as at;
ghost use Rattle.pfc_select_steps.specs.Gone.{comm_ahead, guard_ahead, open_ahead, receive_ahead, send_ahead, timeout_ahead};

use crate::communication::accepting;
use crate::offers::{keep_open, reserve};
use pfc_facts::{message_of, receiver_of};
use pfc_pending::{At, Choosing, Deed, Goal, Offer, Pending, Selecting, Step};
use pfc_sites::{Site, part};
use pfc_store::{Spot, Value};
use pfc_tree::{Accept, Comm, Desig, Expr};
use std::alloc::Global;

/// A select behind the alternative that was at hand: the next one comes to hand, or behind the last one the select decides.
#[tactic(auto, using(crate::proofs::Lists::behind))]
pub fn next<'t>(mut choosing: Box<Choosing<'t>>) -> At<'t>
    ensures { (t : Tables) (c : Context) (w : Waiting) → ahead t c w result ≡ ahead t c w (at.Alternatives choosing.entry) }
{
    if take_next(&mut choosing) {
        At::Replicated(choosing)
    } else {
        At::Deed(Deed::Decides(found_open(choosing)))
    }
}

/// The next alternative comes to hand; false where there is none.
#[tactic(auto, using(crate::proofs::Lists::left))]
fn take_next<'t>(choosing: &mut Choosing<'t>) -> bool
    ensures more { result ≡ true → rest_view choosing.old ≡ alternative_view choosing.new.current ∷ rest_view choosing.new }
    ensures none { result ≡ false → rest_view choosing.old ≡ [] }
    ensures select { choosing.new.select ≡ choosing.old.select }
{
    if choosing.behind < choosing.all.len() {
        choosing.current = choosing.all[choosing.behind];
        choosing.behind += 1;
        true
    } else {
        false
    }
}

/// What a select has found open.
fn found_open<'t>(choosing: Box<Choosing<'t>>) -> Selecting<'t>
    ensures { result ≡ choosing.entry.value.select }
{
    let choosing = Box::into_inner(choosing);
    choosing.select
}

/// The alternative at hand: a replicated one writes its variable before its guard, on the line of the select.
pub fn replicated<'t>(choosing: Box<Choosing<'t>>, line: u32, alloc: Global) -> Step<'t>
    ensures { (t : Tables) (env : Known) (w : Waiting) →
        step_ahead t (context env line) w result ≡ ahead t (context env line) w (at.Replicated choosing.entry) }
{
    match choosing.current.replica {
        Some(replica) => {
            let spot = Spot {
                scope: replica.scope,
                variable: replica.variable,
                selectors: Vec::new(alloc),
            };
            let write = Deed::Writes(spot, Value::of(replica.value));
            Step::Under(Pending::GoThrough(line, choosing), At::Deed(write))
        }
        None => Step::On(At::Guarded(choosing)),
    }
}

/// The guard of the alternative at hand; one without a guard is open.
#[tactic(auto, using(crate::proofs::Nodes::nodes))]
pub fn guarded<'t>(choosing: Box<Choosing<'t>>) -> Step<'t>
    ensures { (t : Tables) (c : Context) (w : Waiting) → step_ahead t c w result ≡ ahead t c w (at.Guarded choosing.entry) }
{
    let alt = choosing.current.alt;
    under_guard(&alt.guard, choosing)
}

#[tactic(auto, using(crate::proofs::Rules::guards))]
fn under_guard<'t>(guard: &'t Option<Expr>, choosing: Box<Choosing<'t>>) -> Step<'t>
    ensures { (t : Tables) (c : Context) (w : Waiting) → step_ahead t c w result ≡ guard_ahead c w choosing.entry.value (option_map expr_view guard.now) }
{
    match guard {
        Some(e) => Step::Under(Pending::OpenIf(choosing), At::Expr(e)),
        None => Step::On(At::Opened(choosing)),
    }
}

/// The alternative at hand where it is open: what it waits for is evaluated. Its only refusal is want of memory, also for a number of more
/// than 32 bits; the select is given back then, and stands for the same.
#[tactic(auto, using(crate::proofs::Nodes::nodes, crate::proofs::Rules::kept))]
pub fn opened<'t>(
    choosing: Box<Choosing<'t>>,
    site: Site<'t, '_>,
) -> Result<Step<'t>, Box<Choosing<'t>>>
    ensures ok { IfOk result (λ step. (t : Tables) (line : ℕ) (w : Waiting) → step_ahead t (context (env_view site.entry.env) line) w step ≡ ahead t
        (context (env_view site.entry.env) line) w (at.Opened choosing.entry)) }
    ensures err { IfErr result (λ b. (t : Tables) (c : Context) (w : Waiting) → ahead t c w (at.Opened b) ≡ ahead t c w (at.Opened choosing.entry)) }
{
    let alt = choosing.current.alt;
    offered(&alt.comm, choosing, site)
}

/// The same of an alternative that waits for this.
fn offered<'t>(
    comm: &'t Comm,
    choosing: Box<Choosing<'t>>,
    site: Site<'t, '_>,
) -> Result<Step<'t>, Box<Choosing<'t>>>
    ensures ok { IfOk result (λ step. (t : Tables) (line : ℕ) (w : Waiting) → step_ahead t (context (env_view site.entry.env) line) w step ≡ comm_ahead
        (context (env_view site.entry.env) line) w choosing.entry.value (comm_view comm.now)) }
    ensures err { IfErr result (λ b. (t : Tables) (c : Context) (w : Waiting) → ahead t c w (at.Opened b) ≡ ahead t c w (at.Opened choosing.entry)) }
{
    match comm {
        Comm::Accept(a, place) => offer_accept(choosing, a, place.line, site),
        Comm::Send(d, e, _) => Ok(offer_send(choosing, d, e, site)),
        Comm::Receive(d, v, _) => Ok(offer_receive(choosing, d, v, site)),
        Comm::Timeout(e, _) => Ok(offer_timeout(choosing, e)),
        Comm::Terminate(_) => offer_now(choosing, Offer::End),
    }
}

/// An accept with this line, whose parameters are the next scope.
fn offer_accept<'t>(
    choosing: Box<Choosing<'t>>,
    a: &'t Accept,
    line: u32,
    site: Site<'t, '_>,
) -> Result<Step<'t>, Box<Choosing<'t>>>
    ensures ok { IfOk result (λ step. (t : Tables) (at : ℕ) (w : Waiting) → step_ahead t (context (env_view site.entry.env) at) w step ≡ open_ahead
        (context (env_view site.entry.env) at) w choosing.entry.value
        (to_accept (alternatives.accepting_of (context (env_view site.entry.env) at) choosing.entry.value.current.next (accept_view a.now) line))) }
    ensures err { IfErr result (λ b. (t : Tables) (c : Context) (w : Waiting) → ahead t c w (at.Opened b) ≡ ahead t c w (at.Opened choosing.entry)) }
{
    let accepting = accepting(choosing.current.next, a, line, site.env);
    offer_now(choosing, Offer::Accept(accepting))
}

/// What is evaluated no further: the alternative is open.
#[tactic(auto, using(crate::proofs::Rules::kept))]
fn offer_now<'t>(
    mut choosing: Box<Choosing<'t>>,
    offer: Offer<'t>,
) -> Result<Step<'t>, Box<Choosing<'t>>>
    ensures ok { IfOk result (λ step. (t : Tables) (c : Context) (w : Waiting) →
        step_ahead t c w step ≡ open_ahead c w choosing.entry.value (offer_view offer.entry)) }
    ensures err { IfErr result (λ b. (t : Tables) (c : Context) (w : Waiting) → ahead t c w (at.Opened b) ≡ ahead t c w (at.Opened choosing.entry)) }
{
    match reserve(&mut choosing) {
        Ok(next) => Ok(keep_open(choosing, next, offer)),
        Err(_) => Err(choosing),
    }
}

/// `c ! e`: the channel before the message.
fn offer_send<'t>(
    choosing: Box<Choosing<'t>>,
    d: &'t Desig,
    e: &'t Expr,
    site: Site<'t, '_>,
) -> Step<'t>
    ensures { (t : Tables) (line : ℕ) (w : Waiting) → step_ahead t (context (env_view site.entry.env) line) w result ≡ send_ahead
        (context (env_view site.entry.env) line) w choosing.entry.value (desig_view d.now) (expr_view e.now) }
{
    let goal = Goal::OfferTo(message_of(e, site.env), choosing);
    Step::On(part(d, goal, site))
}

/// `c ? v`: the channel before the variable.
fn offer_receive<'t>(
    choosing: Box<Choosing<'t>>,
    d: &'t Desig,
    v: &'t Desig,
    site: Site<'t, '_>,
) -> Step<'t>
    ensures { (t : Tables) (line : ℕ) (w : Waiting) → step_ahead t (context (env_view site.entry.env) line) w result ≡ receive_ahead
        (context (env_view site.entry.env) line) w choosing.entry.value (desig_view d.now) (desig_view v.now) }
{
    let goal = Goal::OfferFrom(receiver_of(v, site.env), choosing);
    Step::On(part(d, goal, site))
}

/// `timeout e`: the seconds.
#[tactic(auto, using(crate::proofs::Rules::communication))]
fn offer_timeout<'t>(choosing: Box<Choosing<'t>>, e: &'t Expr) -> Step<'t>
    ensures { (t : Tables) (c : Context) (w : Waiting) → step_ahead t c w result ≡ timeout_ahead c w choosing.entry.value (expr_view e.now) }
{
    Step::Under(Pending::OfferWait(choosing), At::Expr(e))
}
