//! Elements of arrays that are named by one index alone.
ghost use Rattle.std.specs.Prelude.{◌≡◌, ℕ, Some, IfSome};
ghost use Rattle.pfc_tree.specs.views.Exprs.{actuals_view, desig_view, expr_view, exprs_view, selector_view, selectors_view};
ghost use Rattle.pfc_tree.specs.trees.Exprs as trees;
ghost use Rattle.pfc_tree.specs.trees.Exprs.{no_exprs, more_exprs, no_selectors, more_selectors};
ghost use Rattle.pfc_types.specs.rules.Expressions.{find};
ghost use Rattle.pfc_program.specs.Held.{IsHeld};
ghost use Rattle.pfc_semantics.specs.Alternatives.{context};
ghost use Rattle.pfc_semantics.specs.Expressions.{from_desig, from_factor, spot_of};
ghost use Rattle.pfc_semantics.specs.Remainders.{AwaitsLocation, AwaitsValue, read_for};
ghost use Rattle.pfc_semantics.specs.Rewriting.{from_location, from_value};
ghost use Rattle.pfc_phrases.specs.Views.{env_view};
ghost use Rattle.pfc_store.specs.Views.{typed_spot_view};
ghost use Rattle.pfc_frequent_parts.specs.Parts.{index_alone, indexed_ahead};

use pfc_base::{Name, Place};
use pfc_phrases::{find_in, meaning_of};
use pfc_sites::Site;
use pfc_store::{Spot, TypedSpot};
use pfc_tree::{Actual, Desig, Expr, Selector};
use pfc_types::{Found, Meaning};

/// An element of an array: the array, and the index.
#[derive(Drop)]
pub struct Indexed<'t> {
    pub array: TypedSpot,
    pub index: &'t Expr,
}

/// A name with its selectors in an expression, where it is an element of a variable by one index alone; None for any other.
pub fn read<'t>(
    d: &'t Desig,
    args: &'t Vec<Actual>,
    _place: Place,
    site: Site<'t, '_>,
) -> Option<Indexed<'t>>
    ensures { IfSome result (λ x. (line : ℕ) (u : AwaitsValue) → let c = context (env_view site.entry.env) line in
        indexed_ahead c x (read_for u) ≡ from_factor c (trees.applied (desig_view d.now) (actuals_view args.now.items) _place) u (from_value c u)) }
{
    let index = lone_index(d.selectors.as_slice())?;
    let found = find_here(&d.name, site);
    match meaning_of(found) {
        Some(Meaning::Variable { t: _, reference: _ }) => Some(Indexed {
            array: array(found, site),
            index,
        }),
        _ => None,
    }
}

/// A variable's part, where it is an element of a variable by one index alone; None for any other.
pub fn target<'t>(d: &'t Desig, site: Site<'t, '_>) -> Option<Indexed<'t>>
    ensures { IfSome result (λ x. (line : ℕ) (goal : AwaitsLocation) → let c = context (env_view site.entry.env) line in
        indexed_ahead c x goal ≡ from_desig c (desig_view d.now) goal (from_location c goal)) }
{
    let index = lone_index(d.selectors.as_slice())?;
    Some(Indexed {
        array: site.spot(&d.name),
        index,
    })
}

/// The index of a selector that stands alone and has one index alone; None for any others.
#[inline(always)]
fn lone_index<'t>(ss: &'t [Selector]) -> Option<&'t Expr>
    ensures { IfSome result (λ e. index_alone (selectors_view ss.now) ≡ Some (expr_view e.now)) }
{
    match ss {
        [first] => index_of(first),
        _ => None,
    }
}

/// The same of one selector.
#[tactic(auto, using(crate::proofs::Alone::ones))]
#[inline(always)]
fn index_of<'t>(s: &'t Selector) -> Option<&'t Expr>
    ensures { IfSome result (λ e. index_alone (more_selectors (selector_view s.now) no_selectors) ≡ Some (expr_view e.now)) }
{
    match s {
        Selector::Index(es, _place) => lone_expr(es),
        Selector::Field(_, _) => None,
    }
}

/// An expression that stands alone; None for any others.
#[inline(always)]
fn lone_expr<'t>(es: &'t [Expr]) -> Option<&'t Expr>
    ensures { IfSome result (λ e. exprs_view es.now ≡ more_exprs (expr_view e.now) no_exprs) }
{
    match es {
        [first] => Some(first),
        _ => None,
    }
}

/// What a name is here: it stands in its scope.
#[inline(always)]
fn find_here(name: &Name, site: Site) -> Option<Found>
    ensures value { result ≡ find (env_view site.entry.env) name.now }
    ensures held { IfSome result (IsHeld site.entry.program.now.tables.scopes.now.scopes) }
{
    find_in(site.env, name)
}

/// The variable as a whole that a name was found to be.
#[inline(always)]
fn array(found: Option<Found>, site: Site) -> TypedSpot
    requires { IfSome found (IsHeld site.program.now.tables.scopes.now.scopes) }
    ensures { typed_spot_view result ≡ spot_of (env_view site.entry.env) found }
{
    let spot = site.program.spot(found);
    TypedSpot {
        spot: Spot {
            scope: spot.scope,
            variable: spot.variable,
            selectors: Vec::new(site.alloc),
        },
        t: spot.t,
    }
}
