//! Variables as a whole, where a part of a variable may stand.
ghost use Rattle.std.specs.Prelude.{◌≡◌, ℕ, IfSome};
ghost use Rattle.pfc_tree.specs.views.Exprs.{actual_view, actuals_view, desig_view};
ghost use Rattle.pfc_semantics.specs.Alternatives.{context};
ghost use Rattle.pfc_semantics.specs.Displays as displays;
ghost use Rattle.pfc_semantics.specs.Expressions.{from_desig, from_lent, from_reference};
ghost use Rattle.pfc_semantics.specs.Remainders.{Action, AwaitsLocation};
ghost use Rattle.pfc_phrases.specs.Views.{env_view};
ghost use Rattle.pfc_store.specs.Views.{typed_spot_view};

use pfc_phrases::as_desig;
use pfc_sites::{Site, expression};
use pfc_store::TypedSpot;
use pfc_tree::{Actual, Desig};

/// The variable that the first argument is, where it is one as a whole.
pub(crate) fn first_whole(args: &[Actual], site: Site) -> Option<TypedSpot>
    ensures { IfSome result (λ s. (line : ℕ) (goal : AwaitsLocation) (arrive : displays.TypedSpot → Action) →
        let c = context (env_view site.entry.env) line in from_reference c (actuals_view args.now) goal arrive ≡ arrive (typed_spot_view s)) }
{
    match args {
        [first, _rest @ ..] => whole_argument(first, site),
        [] => None,
    }
}

/// The variable that an argument is, where it is one as a whole.
fn whole_argument(a: &Actual, site: Site) -> Option<TypedSpot>
    ensures { IfSome result (λ s. (line : ℕ) (goal : AwaitsLocation) (arrive : displays.TypedSpot → Action) →
        let c = context (env_view site.entry.env) line in from_lent c (actual_view a.now) goal arrive ≡ arrive (typed_spot_view s)) }
{
    whole(as_desig(expression(a))?, site)
}

/// The variable that a name with selectors is, where it has none.
pub(crate) fn whole(d: &Desig, site: Site) -> Option<TypedSpot>
    ensures { IfSome result (λ s. (line : ℕ) (goal : AwaitsLocation) (arrive : displays.TypedSpot → Action) →
        let c = context (env_view site.entry.env) line in from_desig c (desig_view d.now) goal arrive ≡ arrive (typed_spot_view s)) }
{
    match d.selectors.as_slice() {
        [] => Some(site.spot(&d.name)),
        _ => None,
    }
}
