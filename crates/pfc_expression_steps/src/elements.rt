//! Elements of arrays, in room that was taken before.
ghost use Rattle.std.specs.Prelude.{◌≡◌, ◌≤ℤ◌, ◌-ℤ◌, nat_abs, option_map};
ghost use Rattle.pfc_semantics.specs.Expressions.{element_spot};
ghost use Rattle.pfc_store.specs.Bounds.{element_between};
ghost use Rattle.pfc_store.specs.Views.{spot_view, typed_spot_view, HasRoom};

use pfc_store::{Selector, Spot, TypedSpot};
use pfc_types::{TypeForm, TypeId, TypeTable};

/// The element that an index leads to, in room that was taken before. None where the index is outside the bounds, or where there are no
/// elements.
pub(crate) fn element(spot: TypedSpot, types: &TypeTable, i: i64) -> Option<TypedSpot>
    requires { HasRoom spot.spot }
    ensures { option_map typed_spot_view result ≡ element_spot types.now (typed_spot_view spot) i }
{
    match types.form(spot.t?) {
        Some(
            TypeForm::Array {
                index: _,
                low,
                high,
                element,
            },
        ) => element_in(spot.spot, *low, *high, *element, i),
        Some(_) => None,
        None => None,
    }
}

/// The element of an array with these bounds.
fn element_in(spot: Spot, low: i32, high: i32, element: TypeId, i: i64) -> Option<TypedSpot>
    requires { HasRoom spot }
    ensures { option_map typed_spot_view result ≡ element_between low high element (spot_view spot) i }
{
    if i < low as i64 || i > high as i64 {
        return None;
    }
    let mut spot = spot;
    spot.step_within(Selector {
        place: distance(low, i as i32),
        index: i as i32,
    });
    Some(TypedSpot {
        spot,
        t: Some(element),
    })
}

/// How far an index is above the low bound.
fn distance(low: i32, i: i32) -> u32
    requires { low ≤ℤ i }
    ensures { result ≡ nat_abs (i -ℤ low) }
{
    (i as i64 - low as i64) as u32
}
