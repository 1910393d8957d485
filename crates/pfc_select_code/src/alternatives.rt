//! The alternatives of a select.
ghost use Rattle.std.specs.Prelude.{◌≡◌, ◌++◌, [], ◌∷◌, ◌-◌, length, option_map, Some, OnOk, IfOk, IfErr};
ghost use Rattle.pfc_tree.specs.views.Exprs.{expr_view, desig_view};
ghost use Rattle.pfc_tree.specs.views.Stmts.{accept_view, alt_view, alts_view, comm_view};
ghost use Rattle.pfc_semantics.specs.Alternatives.{alternatives};
ghost use Rattle.pfc_translation.specs.Sites.{context_of};
ghost use Rattle.pfc_translation.specs.Codes.{with_arms};
ghost use Rattle.pfc_translation.specs.Selects.{guarded_code};
ghost use Rattle.pfc_emit.specs.declared.emitter.EmitFault.TheVariants.{Full, Memory as NoMemory};
ghost use Rattle.pfc_addresses.specs.Sites.{site_view};
ghost use Rattle.pfc_expression_code.specs.Putting.{IsMade, IsTooLarge};
ghost use Rattle.pfc_select_code.specs.Alternatives.{alt_places, arm_place, arm_places, each_places, open_accept, open_alt, open_alternatives, open_comm};
ghost use Rattle.pfc_select_code.specs.Alternatives.{open_each, open_receive, open_send, open_spread, open_timeout, spread_places};
ghost use Rattle.pfc_select_code.specs.Values.{at_values};

use crate::accepts::head_of;
use crate::replicas::{Values, values_of, write};
use pfc_addresses::Site;
use pfc_base::Name;
use pfc_call_code::{message, message_cells, receiver, receiver_cells};
use pfc_code::Instr;
use pfc_emit::EmitFault;
use pfc_expression_code::Coder;
use pfc_facts::{message_of, receiver_of};
use pfc_program::behind_alt;
use pfc_tree::{Accept, Alt, Comm, Desig, Expr, Spread};
use std::alloc::Global;

/// An alternative of the text: its guard, what it waits for, and the number of the next scope before it.
#[derive(Clone, Copy)]
struct Offer<'a> {
    next: u32,
    guard: &'a Option<Expr>,
    comm: &'a Comm,
}

/// Puts the alternatives of a select, before which the next scope of the text has the number n, and counts them. Each leads to the address 0
/// until it is led to its branch. Gives for each, each value of a replicated one apart, the address of its ARM, from 0; None for
/// `terminate`, which has no branch. Its other refusal is want of memory; a number of more than 32 bits is that too.
pub fn open_alternatives(
    alloc: Global,
    n: u32,
    alts: &[Alt],
    site: Site,
    made: &mut Coder,
) -> Result<Vec<Option<u32>>, EmitFault>
    ensures code { OnOk result (IsMade (with_arms (length (alternatives (context_of (site_view site.entry)) n (alts_view alts.now)))
        (open_alternatives (site_view site.entry) (alternatives (context_of (site_view site.entry)) n (alts_view alts.now)))) made.old made.new) }
    ensures places { IfOk result (λ places. places.items
        ≡ arm_places (site_view site.entry) (length made.old.code) (alternatives (context_of (site_view site.entry)) n (alts_view alts.now))) }
    ensures large { IfErr result (λ fault. fault ≡ Full →
        IsTooLarge (open_alternatives (site_view site.entry) (alternatives (context_of (site_view site.entry)) n (alts_view alts.now))) made.old) }
{
    let mut places = Vec::new(alloc);
    put_all(n, alts, site, made, &mut places)?;
    let Ok(count) = u32::try_from(places.len()) else {
        return Err(EmitFault::Memory);
    };
    made.count_alternatives(count);
    Ok(places)
}

/// Puts all alternatives, and adds the addresses of their ARMs.
fn put_all(
    n: u32,
    alts: &[Alt],
    site: Site,
    made: &mut Coder,
    places: &mut Vec<Option<u32>>,
) -> Result<(), EmitFault>
    ensures code { OnOk result (IsMade (open_alternatives (site_view site.entry) (alternatives (context_of (site_view site.entry)) n (alts_view alts.now)))
        made.old made.new) }
    ensures places { OnOk result (places.new.items ≡ places.old.items
        ++ arm_places (site_view site.entry) (length made.old.code) (alternatives (context_of (site_view site.entry)) n (alts_view alts.now))) }
    ensures large { IfErr result (λ fault. fault ≡ Full →
        IsTooLarge (open_alternatives (site_view site.entry) (alternatives (context_of (site_view site.entry)) n (alts_view alts.now))) made.old) }
{
    let mut next = n;
    for alt in alts {
        put_alt(next, alt, site, made, places)?;
        match behind_alt(alt, next) {
            Ok(behind) => next = behind,
            Err(_) => return Err(EmitFault::Memory),
        }
    }
    Ok(())
}

/// Puts an alternative of the text, before which the next scope has this number.
#[tactic(auto, using(crate::proofs::Nodes::alternatives))]
fn put_alt(
    next: u32,
    alt: &Alt,
    site: Site,
    made: &mut Coder,
    places: &mut Vec<Option<u32>>,
) -> Result<(), EmitFault>
    ensures code { OnOk result (IsMade (open_alt (site_view site.entry) next (alt_view alt.now)) made.old made.new) }
    ensures places { OnOk result (places.new.items ≡ places.old.items ++ alt_places (site_view site.entry) (length made.old.code) next (alt_view alt.now)) }
    ensures large { IfErr result (λ fault. fault ≡ Full → IsTooLarge (open_alt (site_view site.entry) next (alt_view alt.now)) made.old) }
{
    let offer = Offer {
        next,
        guard: &alt.guard,
        comm: &alt.comm,
    };
    put_spread(&alt.spread, offer, site, made, places)
}

/// Puts an alternative with this spread.
fn put_spread(
    spread: &Option<Spread>,
    offer: Offer,
    site: Site,
    made: &mut Coder,
    places: &mut Vec<Option<u32>>,
) -> Result<(), EmitFault>
    ensures code { OnOk result (IsMade (open_spread (site_view site.entry) offer.entry.next spread.now (option_map expr_view offer.entry.guard.now)
        (comm_view offer.entry.comm.now)) made.old made.new) }
    ensures places { OnOk result (places.new.items ≡ places.old.items ++ spread_places (site_view site.entry) (length made.old.code)
        offer.entry.next spread.now (option_map expr_view offer.entry.guard.now) (comm_view offer.entry.comm.now)) }
    ensures large { IfErr result (λ fault. fault ≡ Full → IsTooLarge (open_spread (site_view site.entry) offer.entry.next spread.now
        (option_map expr_view offer.entry.guard.now) (comm_view offer.entry.comm.now)) made.old) }
{
    match spread {
        Some(s) => put_each(values_of(s, site), &s.name, offer, site, made, places),
        None => {
            let place = put_guarded(offer, site, made)?;
            add(place, places)
        }
    }
}

/// Puts an alternative for each of these values.
fn put_each(
    values: Values,
    name: &Name,
    offer: Offer,
    site: Site,
    made: &mut Coder,
    places: &mut Vec<Option<u32>>,
) -> Result<(), EmitFault>
    ensures code { OnOk result (IsMade (open_each (site_view site.entry) offer.entry.next (option_map expr_view offer.entry.guard.now)
        (comm_view offer.entry.comm.now) (at_values (site_view site.entry) name.now values.low values.count)) made.old made.new) }
    ensures places { OnOk result (places.new.items ≡ places.old.items ++ each_places (site_view site.entry) (length made.old.code)
        offer.entry.next (option_map expr_view offer.entry.guard.now) (comm_view offer.entry.comm.now)
        (at_values (site_view site.entry) name.now values.low values.count)) }
    ensures large { IfErr result (λ fault. fault ≡ Full → IsTooLarge (open_each (site_view site.entry) offer.entry.next
        (option_map expr_view offer.entry.guard.now) (comm_view offer.entry.comm.now)
        (at_values (site_view site.entry) name.now values.low values.count)) made.old) }
{
    for k in 0..values.count {
        write(name, values.at(k), site, made)?;
        let place = put_guarded(offer, site, made)?;
        add(place, places)?;
    }
    Ok(())
}

/// Adds where an ARM stands. Its only refusal is want of memory.
fn add(place: Option<u32>, places: &mut Vec<Option<u32>>) -> Result<(), EmitFault>
    ensures places { OnOk result (places.new.items ≡ places.old.items ++ place ∷ []) }
    ensures fault { IfErr result (λ fault. fault ≡ NoMemory) }
{
    match places.push(place) {
        Ok(()) => Ok(()),
        Err(_) => Err(EmitFault::Memory),
    }
}

/// Puts an alternative behind the value of its variable: its guard, and what it waits for. Gives the address of its ARM.
fn put_guarded(offer: Offer, site: Site, made: &mut Coder) -> Result<Option<u32>, EmitFault>
    ensures code { OnOk result (IsMade (guarded_code (site_view site.entry) (option_map expr_view offer.entry.guard.now)
        (open_comm (site_view site.entry) offer.entry.next (comm_view offer.entry.comm.now))) made.old made.new) }
    ensures place { IfOk result (λ place. place ≡ arm_place (comm_view offer.entry.comm.now) (length made.new.code - 1)) }
    ensures large { IfErr result (λ fault. fault ≡ Full → IsTooLarge (guarded_code (site_view site.entry) (option_map expr_view offer.entry.guard.now)
        (open_comm (site_view site.entry) offer.entry.next (comm_view offer.entry.comm.now))) made.old) }
{
    match offer.guard {
        Some(e) => put_when(e, offer, site, made),
        None => put_comm(offer.comm, offer.next, site, made),
    }
}

/// The same with this guard, which leads behind the alternative where it is false.
fn put_when(e: &Expr, offer: Offer, site: Site, made: &mut Coder) -> Result<Option<u32>, EmitFault>
    ensures code { OnOk result (IsMade (guarded_code (site_view site.entry) (Some (expr_view e.now))
        (open_comm (site_view site.entry) offer.entry.next (comm_view offer.entry.comm.now))) made.old made.new) }
    ensures place { IfOk result (λ place. place ≡ arm_place (comm_view offer.entry.comm.now) (length made.new.code - 1)) }
    ensures large { IfErr result (λ fault. fault ≡ Full → IsTooLarge (guarded_code (site_view site.entry) (Some (expr_view e.now))
        (open_comm (site_view site.entry) offer.entry.next (comm_view offer.entry.comm.now))) made.old) }
{
    made.expr(e, site)?;
    let test = made.place(Instr::JF(0), site)?;
    let place = put_comm(offer.comm, offer.next, site, made)?;
    let behind = made.here();
    made.lead(test, behind);
    Ok(place)
}

/// Puts what an alternative waits for, before which the next scope has the number n. Gives the address of its ARM.
fn put_comm(comm: &Comm, n: u32, site: Site, made: &mut Coder) -> Result<Option<u32>, EmitFault>
    ensures code { OnOk result (IsMade (open_comm (site_view site.entry) n (comm_view comm.now)) made.old made.new) }
    ensures place { IfOk result (λ place. place ≡ arm_place (comm_view comm.now) (length made.new.code - 1)) }
    ensures large { IfErr result (λ fault. fault ≡ Full → IsTooLarge (open_comm (site_view site.entry) n (comm_view comm.now)) made.old) }
{
    match comm {
        Comm::Accept(a, _) => Ok(Some(put_accept(n, a, site, made)?)),
        Comm::Send(d, e, _) => Ok(Some(put_send(d, e, site, made)?)),
        Comm::Receive(d, v, _) => Ok(Some(put_receive(d, v, site, made)?)),
        Comm::Timeout(e, _) => Ok(Some(put_timeout(e, site, made)?)),
        Comm::Terminate(_) => {
            made.put(Instr::ARMX, site)?;
            Ok(None)
        }
    }
}

/// `accept`, whose parameters have the scope n.
fn put_accept(n: u32, a: &Accept, site: Site, made: &mut Coder) -> Result<u32, EmitFault>
    ensures code { OnOk result (IsMade (open_accept (site_view site.entry) n (accept_view a.now)) made.old made.new) }
    ensures place { IfOk result (λ at. at ≡ length made.new.code - 1) }
    ensures large { IfErr result (λ fault. fault ≡ Full → IsTooLarge (open_accept (site_view site.entry) n (accept_view a.now)) made.old) }
{
    let head = head_of(n, a, site)?;
    made.place(Instr::ARMA(head.entry, head.cell, head.cells, 0), site)
}

/// `d ! e`: the channel before the message.
fn put_send(d: &Desig, e: &Expr, site: Site, made: &mut Coder) -> Result<u32, EmitFault>
    ensures code { OnOk result (IsMade (open_send (site_view site.entry) (desig_view d.now) (expr_view e.now)) made.old made.new) }
    ensures place { IfOk result (λ at. at ≡ length made.new.code - 1) }
    ensures large { IfErr result (λ fault. fault ≡ Full → IsTooLarge (open_send (site_view site.entry) (desig_view d.now) (expr_view e.now)) made.old) }
{
    let m = message_of(e, site.env());
    made.object(d, site)?;
    message(m, site, made)?;
    made.place(Instr::ARMS(message_cells(m, site), 0), site)
}

/// `d ? v`: the channel before the variable.
fn put_receive(d: &Desig, v: &Desig, site: Site, made: &mut Coder) -> Result<u32, EmitFault>
    ensures code { OnOk result (IsMade (open_receive (site_view site.entry) (desig_view d.now) (desig_view v.now)) made.old made.new) }
    ensures place { IfOk result (λ at. at ≡ length made.new.code - 1) }
    ensures large { IfErr result (λ fault. fault ≡ Full → IsTooLarge (open_receive (site_view site.entry) (desig_view d.now) (desig_view v.now)) made.old) }
{
    let r = receiver_of(v, site.env());
    made.object(d, site)?;
    receiver(r, site, made)?;
    made.place(Instr::ARMR(receiver_cells(r, site), 0), site)
}

/// `timeout e`
fn put_timeout(e: &Expr, site: Site, made: &mut Coder) -> Result<u32, EmitFault>
    ensures code { OnOk result (IsMade (open_timeout (site_view site.entry) (expr_view e.now)) made.old made.new) }
    ensures place { IfOk result (λ at. at ≡ length made.new.code - 1) }
    ensures large { IfErr result (λ fault. fault ≡ Full → IsTooLarge (open_timeout (site_view site.entry) (expr_view e.now)) made.old) }
{
    made.expr(e, site)?;
    made.place(Instr::ARMT(0), site)
}
