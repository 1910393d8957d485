//! Who is first, and who is last, among those who wait: walks along one list.
ghost use Rattle.std.specs.Prelude.{◌≡◌, ◌<◌, length, IfSome, MatchOption};
ghost use Rattle.pfc_state.specs.Stands.{IsWaiting, ticket_at, ticket_barred, ticket_offering};
ghost use Rattle.pfc_world.specs.Firsts.{first, last, IsFirst, IsLast, IsNobody};
ghost use Rattle.pfc_world.specs.Indexes.{AreListed};
ghost use Rattle.pfc_world.specs.Lists.{list_at};
ghost use Rattle.pfc_world.specs.Offers.{AreOffered};
ghost use Rattle.pfc_world.specs.Tables.{at};
ghost use Rattle.pfc_world.specs.Walks.{IsForward};

use crate::lists::Spread;
use crate::rows::Rows;
use crate::{Arm, Why};
use pfc_alternatives::Alternatives;
use pfc_links::Links;

/// The process of least ticket among those whose wait is this one.
pub(crate) fn first_of(rows: &Rows, spread: Spread, waits: &Links, why: Why) -> Option<u32>
    requires { AreListed spread rows.now.rows waits.now }
    ensures first { result ≡ first (ticket_at why) rows.now.rows }
    ensures found { MatchOption result (IsNobody (ticket_at why) rows.now.rows) (IsFirst (ticket_at why) rows.now.rows) }
    ensures waits { IfSome result (λ p. IsWaiting (at rows.now.rows p)) }
    ensures within { IfSome result (λ p. p < length rows.now.rows) }
{
    // this also tells that no two tickets are equal
    let _done = rows.done();
    let mut next = waits.first(spread.list_of(why));
    while let Some(p) = next {
        if rows.waits_at(p, why) {
            return Some(p);
        }
        next = waits.next(p);
    }
    None
}

/// The process of least ticket among those that wait in a select with this alternative.
pub(crate) fn first_offering(rows: &Rows, offers: &Alternatives, arm: Arm) -> Option<u32>
    requires { AreOffered rows.now.rows offers.now }
    ensures first { result ≡ first (ticket_offering arm) rows.now.rows }
    ensures found { MatchOption result (IsNobody (ticket_offering arm) rows.now.rows) (IsFirst (ticket_offering arm) rows.now.rows) }
    ensures waits { IfSome result (λ p. IsWaiting (at rows.now.rows p)) }
    ensures within { IfSome result (λ p. p < length rows.now.rows) }
{
    // this also tells that no two tickets are equal
    let _done = rows.done();
    let mut next = offers.first(arm);
    while let Some(node) = next {
        let p = offers.process_of(node);
        if rows.offers(p, arm) {
            return Some(p);
        }
        next = offers.next(node);
    }
    None
}

/// The process of greatest ticket among those whose wait is this one.
pub(crate) fn last_of(rows: &Rows, spread: Spread, waits: &Links, why: Why) -> Option<u32>
    requires { AreListed spread rows.now.rows waits.now }
    ensures last { result ≡ last (ticket_at why) rows.now.rows }
    ensures found { MatchOption result (IsNobody (ticket_at why) rows.now.rows) (IsLast (ticket_at why) rows.now.rows) }
    ensures waits { IfSome result (λ p. IsWaiting (at rows.now.rows p)) }
    ensures within { IfSome result (λ p. p < length rows.now.rows) }
{
    // this also tells that no two tickets are equal
    let _done = rows.done();
    let mut next = waits.last(spread.list_of(why));
    while let Some(p) = next {
        if rows.waits_at(p, why) {
            return Some(p);
        }
        next = waits.previous(p);
    }
    None
}

/// The process of least ticket above `after` among those that are barred at the resource; any ticket is above None. Told
/// whose ticket `after` is, it looks behind that process, and else from the first on.
pub(crate) fn first_barred(
    rows: &Rows,
    spread: Spread,
    waits: &Links,
    resource: u32,
    after: Option<u64>,
    whose: Option<u32>,
) -> Option<u32>
    requires { AreListed spread rows.now.rows waits.now }
    ensures first { result ≡ first (ticket_barred resource after) rows.now.rows }
    ensures found { MatchOption result (IsNobody (ticket_barred resource after) rows.now.rows)
        (IsFirst (ticket_barred resource after) rows.now.rows) }
    ensures waits { IfSome result (λ p. IsWaiting (at rows.now.rows p)) }
    ensures within { IfSome result (λ p. p < length rows.now.rows) }
{
    // this also tells that no two tickets are equal
    let _done = rows.done();
    let mut next = first_behind(rows, spread, waits, resource, after, whose);
    while let Some(p) = next {
        if rows.is_barred(p, resource, after) {
            return Some(p);
        }
        next = waits.next(p);
    }
    None
}

/// Where to look for who is barred at the resource with a ticket above `after`: behind the process whose ticket that is,
/// where it is told, and else from the first on.
fn first_behind(
    rows: &Rows,
    spread: Spread,
    waits: &Links,
    resource: u32,
    after: Option<u64>,
    whose: Option<u32>,
) -> Option<u32>
    requires { AreListed spread rows.now.rows waits.now }
    ensures { IsForward spread (ticket_barred resource after) rows.now.rows (list_at spread 12 resource) result }
{
    match (after, whose) {
        (Some(ticket), Some(p)) if rows.is_barred_since(p, resource, ticket) => waits.next(p),
        _ => waits.first(spread.list_of_barred(resource)),
    }
}
