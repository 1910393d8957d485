//! An element is led into: its array is put among those that are pending while its index has no value, and taken when it has one.
ghost use Rattle.std.specs.Prelude.{◌≡◌, ℕ, true, false};
ghost use Rattle.pfc_program.specs.declared.tables.Tables.{Tables};
ghost use Rattle.pfc_tree.specs.trees.Exprs.{no_exprs, no_selectors};
ghost use Rattle.pfc_tree.specs.views.Exprs.{expr_view, exprs_view, selectors_view};
ghost use Rattle.pfc_semantics.specs.Alternatives.{context};
ghost use Rattle.pfc_semantics.specs.Remainders.{Context, AwaitsLocation, assign_to, index_into, read_for, store_at};
ghost use Rattle.pfc_semantics.specs.Rewriting.{from_location, from_value};
ghost use Rattle.pfc_semantics.specs.Values.{ordinal};
ghost use Rattle.pfc_phrases.specs.Views.{env_view};
ghost use Rattle.pfc_store.specs.Views.{spot_view, typed_spot_view};
ghost use Rattle.pfc_pending.specs.Ahead.{ahead};
ghost use Rattle.pfc_pending.specs.declared.at_hand.At.TheVariants as at;
ghost use Rattle.pfc_pending.specs.Waiting as waits;
ghost use Rattle.pfc_pending.specs.Waiting.{awaits_of, goal_over, remainder_of, waiting};
ghost use Rattle.pfc_frequent_parts.specs.Parts.{indexed_ahead, reached_ahead, HasRoom, HasRoomTwice};

use crate::indices::Indexed;
use pfc_pending::{Goal, Pending};
use pfc_sites::Site;
use pfc_store::{Spot, TypedSpot};
use pfc_tree::{Expr, Selector};

/// What an element comes to: it is read, or it is the target of an assignment, whose value is at hand then.
#[derive(Drop)]
pub enum Reached<'t> {
    Reads(Spot),
    Stores(&'t Expr),
}

/// Puts the array of an element with what waits for the element among those that are pending, in room that was taken before; the index
/// is at hand then.
#[inline(always)]
pub fn put_index<'t>(
    pending: &mut Vec<Pending<'t>>,
    element: Indexed<'t>,
    goal: Goal<'t>,
) -> &'t Expr
    requires { HasRoom pending.old }
    ensures { (t : Tables) (c : Context) →
        ahead t c (waiting t pending.new.items) (at.Expr result) ≡ indexed_ahead c element.entry (goal_over (waiting t pending.old.items) goal.entry) }
{
    let index = element.index;
    put_array(pending, element.array, goal);
    index
}

/// The array is pending.
#[tactic(auto, using(crate::proofs::Waiting::parts))]
#[inline(never)]
fn put_array<'t>(pending: &mut Vec<Pending<'t>>, array: TypedSpot, goal: Goal<'t>)
    requires { HasRoom pending.old }
    ensures { (t : Tables) → let w = waiting t pending.old.items in
        waiting t pending.new.items ≡ waits.value (index_into (typed_spot_view array) no_exprs no_selectors (goal_over w goal.entry)) }
{
    pending.push_reserved(Pending::IndexInto(array, &[], &[], goal));
}

/// A number meets the array that is pending innermost, as its index. All is as it was where another part is pending, where more indices or
/// selectors stand behind this one, where the index is outside the bounds, and where memory is refused.
#[inline(always)]
pub fn meet_index<'t>(
    i: i64,
    pending: &mut Vec<Pending<'t>>,
    site: Site<'t, '_>,
) -> Option<Reached<'t>>
    requires { HasRoom pending.old }
    ensures next { (t : Tables) (line : ℕ) → let c = context (env_view site.entry.env) line in
        reached_ahead t c (waiting t pending.new.items) i result ≡ from_value c (awaits_of (waiting t pending.old.items)) (ordinal i) }
    ensures room { HasRoom pending.new }
{
    if is_indexed(pending) {
        take_index(i, pending, site)
    } else {
        None
    }
}

/// Whether the innermost part that is pending is an array with one index alone, whose element is read or assigned to.
#[inline(always)]
fn is_indexed(pending: &Vec<Pending>) -> bool {
    matches!(
        pending.last(),
        Some(Pending::IndexInto(_, [], [], Goal::Read | Goal::AssignTo(_)))
    )
}

/// The same as `meet_index`, where the part is taken.
#[tactic(auto, using(crate::proofs::Waiting::parts))]
#[inline(never)]
fn take_index<'t>(i: i64, pending: &mut Vec<Pending<'t>>, site: Site<'t, '_>) -> Option<Reached<'t>>
    requires { HasRoom pending.old }
    ensures next { (t : Tables) (line : ℕ) → let c = context (env_view site.entry.env) line in
        reached_ahead t c (waiting t pending.new.items) i result ≡ from_value c (awaits_of (waiting t pending.old.items)) (ordinal i) }
    ensures room { HasRoom pending.new }
{
    match pending.pop() {
        Some(part) => enter(part, i, pending, site),
        None => None,
    }
}

/// A number meets this part, in its room.
#[tactic(auto, using(crate::proofs::Waiting::parts))]
#[inline(always)]
fn enter<'t>(
    part: Pending<'t>,
    i: i64,
    pending: &mut Vec<Pending<'t>>,
    site: Site<'t, '_>,
) -> Option<Reached<'t>>
    requires { HasRoomTwice pending.old }
    ensures next { (t : Tables) (line : ℕ) → let c = context (env_view site.entry.env) line in
        reached_ahead t c (waiting t pending.new.items) i result
        ≡ from_value c (awaits_of (waits.over t (waiting t pending.old.items) part.entry)) (ordinal i) }
    ensures room { HasRoom pending.new }
{
    match part {
        Pending::IndexInto(array, es, ss, goal) => {
            enter_array(array, es, ss, goal, i, pending, site)
        }
        part => {
            pending.push_reserved(part);
            None
        }
    }
}

/// The same of an array.
#[inline(always)]
fn enter_array<'t>(
    array: TypedSpot,
    es: &'t [Expr],
    ss: &'t [Selector],
    goal: Goal<'t>,
    i: i64,
    pending: &mut Vec<Pending<'t>>,
    site: Site<'t, '_>,
) -> Option<Reached<'t>>
    requires { HasRoomTwice pending.old }
    ensures next { (t : Tables) (line : ℕ) → let c = context (env_view site.entry.env) line in
        reached_ahead t c (waiting t pending.new.items) i result
        ≡ from_value c (index_into (typed_spot_view array) (exprs_view es.now) (selectors_view ss.now) (goal_over (waiting t pending.old.items) goal.entry))
        (ordinal i) }
    ensures room { HasRoom pending.new }
{
    match goal {
        Goal::Read => enter_to_read(array, es, ss, i, pending, site),
        Goal::AssignTo(value) => enter_to_assign(array, es, ss, value, i, pending, site),
        goal => {
            put_back(pending, array, es, ss, goal);
            None
        }
    }
}

/// The same of an array whose element is read.
#[inline(always)]
fn enter_to_read<'t>(
    array: TypedSpot,
    es: &'t [Expr],
    ss: &'t [Selector],
    i: i64,
    pending: &mut Vec<Pending<'t>>,
    site: Site<'t, '_>,
) -> Option<Reached<'t>>
    requires { HasRoomTwice pending.old }
    ensures next { (t : Tables) (line : ℕ) → let c = context (env_view site.entry.env) line in
        reached_ahead t c (waiting t pending.new.items) i result
        ≡ from_value c (index_into (typed_spot_view array) (exprs_view es.now) (selectors_view ss.now) (read_for (awaits_of (waiting t pending.old.items))))
        (ordinal i) }
    ensures room { HasRoom pending.new }
{
    let mut array = array;
    if step(&mut array, es, ss, i, site) {
        return Some(Reached::Reads(array.spot));
    }
    put_back(pending, array, es, ss, Goal::Read);
    None
}

/// The same of an array whose element is assigned to.
#[inline(always)]
fn enter_to_assign<'t>(
    array: TypedSpot,
    es: &'t [Expr],
    ss: &'t [Selector],
    value: &'t Expr,
    i: i64,
    pending: &mut Vec<Pending<'t>>,
    site: Site<'t, '_>,
) -> Option<Reached<'t>>
    requires { HasRoomTwice pending.old }
    ensures next { (t : Tables) (line : ℕ) → let c = context (env_view site.entry.env) line in
        reached_ahead t c (waiting t pending.new.items) i result
        ≡ from_value c (index_into (typed_spot_view array) (exprs_view es.now) (selectors_view ss.now)
        (assign_to (expr_view value.now) (remainder_of (waiting t pending.old.items)))) (ordinal i) }
    ensures room { HasRoom pending.new }
{
    let mut array = array;
    if step(&mut array, es, ss, i, site) {
        put_target(pending, array.spot);
        return Some(Reached::Stores(value));
    }
    put_back(pending, array, es, ss, Goal::AssignTo(value));
    None
}

/// The target of an assignment is pending.
#[tactic(auto, using(crate::proofs::Waiting::parts))]
#[inline(always)]
fn put_target<'t>(pending: &mut Vec<Pending<'t>>, target: Spot)
    requires { HasRoomTwice pending.old }
    ensures put { (t : Tables) → waiting t pending.new.items ≡ waits.value (store_at (spot_view target) (remainder_of (waiting t pending.old.items))) }
    ensures room { HasRoom pending.new }
{
    pending.push_reserved(Pending::StoreAt(target));
}

/// An array is pending again, as it was.
#[tactic(auto, using(crate::proofs::Waiting::parts))]
#[inline(never)]
fn put_back<'t>(
    pending: &mut Vec<Pending<'t>>,
    array: TypedSpot,
    es: &'t [Expr],
    ss: &'t [Selector],
    goal: Goal<'t>,
)
    requires { HasRoomTwice pending.old }
    ensures put { (t : Tables) → let w = waiting t pending.old.items in
        waiting t pending.new.items
        ≡ waits.value (index_into (typed_spot_view array) (exprs_view es.now) (selectors_view ss.now) (goal_over w goal.entry)) }
    ensures room { HasRoom pending.new }
{
    pending.push_reserved(Pending::IndexInto(array, es, ss, goal));
}

/// On to an element, where nothing stands behind its index. Else nothing has changed.
#[tactic(auto, using(crate::proofs::Entered::elements))]
#[inline(always)]
fn step<'t>(
    array: &mut TypedSpot,
    es: &'t [Expr],
    ss: &'t [Selector],
    i: i64,
    site: Site<'t, '_>,
) -> bool
    ensures stepped { result ≡ true → (line : ℕ) (goal : AwaitsLocation) → let c = context (env_view site.entry.env) line in
        from_location c goal (typed_spot_view array.new)
        ≡ from_value c (index_into (typed_spot_view array.old) (exprs_view es.now) (selectors_view ss.now) goal) (ordinal i) }
    ensures unchanged { result ≡ false → typed_spot_view array.new ≡ typed_spot_view array.old }
{
    if es.len() != 0 || ss.len() != 0 {
        return false;
    }
    match array.element(site.env.types, i) {
        Ok(()) => true,
        Err(_) => false,
    }
}
