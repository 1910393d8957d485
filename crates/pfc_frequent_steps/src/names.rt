//! Factors that are literals, constants, variables as a whole or elements by one index.
ghost use Rattle.std.specs.Prelude.{◌≡◌, ℕ, IfSome};
ghost use Rattle.pfc_tree.specs.views.Exprs.{desig_view, actuals_view};
ghost use Rattle.pfc_tree.specs.trees.Exprs as trees;
ghost use Rattle.pfc_tree.specs.trees.Exprs.{ActualTrees};
ghost use Rattle.pfc_types.specs.Scopes as scopes;
ghost use Rattle.pfc_types.specs.rules.Expressions.{find};
ghost use Rattle.pfc_program.specs.Held.{IsHeld};
ghost use Rattle.pfc_program.specs.declared.tables.Tables.{Tables};
ghost use Rattle.pfc_semantics.specs.Alternatives.{context};
ghost use Rattle.pfc_semantics.specs.Expressions.{from_factor, spot_of};
ghost use Rattle.pfc_semantics.specs.Rewriting.{from_value};
ghost use Rattle.pfc_phrases.specs.Views.{env_view};
ghost use Rattle.pfc_store.specs.Views.{spot_view};
ghost use Rattle.pfc_pending.specs.Ahead.{ahead};
ghost use Rattle.pfc_pending.specs.Waiting.{Waiting, awaits_of};
ghost use Rattle.pfc_pending.specs.declared.at_hand.At.TheVariants as at;
ghost use Rattle.pfc_frequent_steps.specs.Names.{from_whole};
ghost use Rattle.pfc_frequent_steps.specs.Near.{next_ahead};

use crate::expressions::expr;
use crate::near::{Near, Next};
use pfc_base::{Name, Place};
use pfc_frequent_parts::read;
use pfc_phrases::{find_in, meaning_of};
use pfc_sites::Site;
use pfc_store::Spot;
use pfc_tree::{Actual, Desig, Factor};
use pfc_types::{Found, Meaning};

/// A factor, None where it is none of these.
pub(crate) fn factor<'t>(f: &'t Factor, site: Site<'t, '_>) -> Option<Next<'t>>
    ensures { IfSome result (λ n. (t : Tables) (line : ℕ) (w : Waiting) → let c =
        context (env_view site.entry.env) line in next_ahead t c w n ≡ ahead t c w (at.Factor f.entry)) }
{
    match f {
        Factor::Number(n, _place) => Some(Next::On(Near::Number(*n as i64))),
        Factor::Paren(e, _place) => Some(expr(e)),
        Factor::Use(d, args, place) => used(d, args, *place, site),
        _ => None,
    }
}

/// A name without selectors that means a variable or a constant, or an element of a variable by one index; None for any other.
#[inline(always)]
fn used<'t>(
    d: &'t Desig,
    args: &'t Vec<Actual>,
    _place: Place,
    site: Site<'t, '_>,
) -> Option<Next<'t>>
    ensures { IfSome result (λ n. (t : Tables) (line : ℕ) (w : Waiting) → let c = context (env_view site.entry.env) line in
        next_ahead t c w n ≡ from_factor c (trees.applied (desig_view d.now) (actuals_view args.now.items) _place) (awaits_of w) (from_value c (awaits_of w))) }
{
    match d.selectors.as_slice() {
        [] => named(&d.name, site),
        _ => Some(Next::ToRead(read(d, args, _place, site)?)),
    }
}

/// The same of a name alone, which is looked up once.
#[inline(always)]
fn named<'t>(name: &Name, site: Site<'t, '_>) -> Option<Next<'t>>
    ensures { IfSome result (λ n. (t : Tables) (line : ℕ) (w : Waiting) (args : ActualTrees) → let c = context (env_view site.entry.env) line in
        let found = find (env_view site.entry.env) name.now in
        next_ahead t c w n ≡ from_whole c (scopes.meaning_of found) (spot_of (env_view site.entry.env) found) args (awaits_of w)) }
{
    let found = find_here(name, site);
    meant(meaning_of(found), found, site)
}

/// What a name is here: it stands in its scope.
#[inline(always)]
fn find_here(name: &Name, site: Site) -> Option<Found>
    ensures value { result ≡ find (env_view site.entry.env) name.now }
    ensures held { IfSome result (IsHeld site.entry.program.now.tables.scopes.now.scopes) }
{
    find_in(site.env, name)
}

/// A name that means this, where it was found to be that.
#[inline(always)]
fn meant<'t>(meaning: Option<Meaning>, found: Option<Found>, site: Site<'t, '_>) -> Option<Next<'t>>
    requires { IfSome found (IsHeld site.program.now.tables.scopes.now.scopes) }
    ensures { IfSome result (λ n. (t : Tables) (line : ℕ) (w : Waiting) (args : ActualTrees) → let c = context (env_view site.entry.env) line in
        next_ahead t c w n ≡ from_whole c meaning (spot_of (env_view site.entry.env) found) args (awaits_of w)) }
{
    match meaning {
        Some(Meaning::Constant { t: _, value }) => Some(Next::On(Near::Number(value as i64))),
        Some(Meaning::Variable { t: _, reference: _ }) => Some(Next::On(Near::Reads(variable(
            found, site,
        )))),
        _ => None,
    }
}

/// The variable as a whole that a name was found to be.
#[inline(always)]
fn variable(found: Option<Found>, site: Site) -> Spot
    requires { IfSome found (IsHeld site.program.now.tables.scopes.now.scopes) }
    ensures { spot_view result ≡ (spot_of (env_view site.entry.env) found).spot }
{
    let spot = site.program.spot(found);
    Spot {
        scope: spot.scope,
        variable: spot.variable,
        selectors: Vec::new(site.alloc),
    }
}
