//! Factors: literals, names and calls.
ghost use Rattle.std.specs.Prelude.{◌≡◌, ℕ, []};
ghost use Rattle.pfc_tree.specs.views.Exprs.{desig_view, selectors_view, actuals_view};
ghost use Rattle.pfc_tree.specs.trees.Exprs as trees;
ghost use Rattle.pfc_program.specs.declared.tables.Tables.{Tables};
ghost use Rattle.pfc_semantics.specs.Remainders.{Context, apply, read_for, reads, to_function};
ghost use Rattle.pfc_semantics.specs.Alternatives.{context};
ghost use Rattle.pfc_semantics.specs.Expressions.{from_args, from_factor, from_argument, from_selectors};
ghost use Rattle.pfc_types.specs.Blocks.{sub_at};
ghost use Rattle.pfc_semantics.specs.Rewriting.{from_value};
ghost use Rattle.pfc_facts.specs.Views.{function_view};
ghost use Rattle.pfc_phrases.specs.Views.{env_view};
ghost use Rattle.pfc_store.specs.Views.{typed_spot_view};
ghost use Rattle.pfc_pending.specs.Ahead.{ahead, step_ahead};
ghost use Rattle.pfc_pending.specs.Waiting.{Waiting, awaits_of};
ghost use Rattle.pfc_pending.specs.declared.at_hand.At.TheVariants as at;
ghost use Rattle.pfc_expression_steps.specs.Names.{from_meaning, from_predeclared};

use pfc_base::Place;
use pfc_facts::{Function, char_in, function_of};
use pfc_pending::{At, Callee, Deed, Goal, Pending, Step};
use pfc_sites::{Site, expression, passing, reference, selected};
use pfc_store::{TypedSpot, Value};
use pfc_tree::{Actual, Desig, Factor, Selector};
use pfc_types::{Meaning, TypeId};
use pfc_typing::first_type;

/// A factor.
pub fn factor<'t>(f: &'t Factor, site: Site<'t, '_>) -> Step<'t>
    ensures { (t : Tables) (line : ℕ) (w : Waiting) → let c =
        context (env_view site.entry.env) line in step_ahead t c w result ≡ ahead t c w (at.Factor f.entry) }
{
    match f {
        Factor::Number(n, _place) => Step::On(At::Value(Value::of(*n as i64))),
        Factor::Literal(text, _place) => Step::On(At::Value(Value::of(
            char_in(text.bytes()) as i64,
        ))),
        Factor::Not(negated, _place) => Step::Under(Pending::Invert, At::Factor(negated)),
        Factor::Paren(e, _place) => Step::On(At::Expr(e)),
        Factor::Use(d, args, place) => used(d, args, *place, site),
    }
}

/// A name with its selectors or arguments.
#[tactic(auto, using(crate::proofs::Nodes::names))]
fn used<'t>(d: &'t Desig, args: &'t Vec<Actual>, _place: Place, site: Site<'t, '_>) -> Step<'t>
    ensures { (t : Tables) (line : ℕ) (w : Waiting) → let c = context (env_view site.entry.env) line in
        step_ahead t c w result
        ≡ from_factor c (trees.applied (desig_view d.now) (actuals_view args.now.items) _place) (awaits_of w) (from_value c (awaits_of w)) }
{
    meant(
        site.meaning(&d.name),
        site.spot(&d.name),
        &d.selectors,
        args,
        site,
    )
}

/// A name that means this, with the variable that it stands for, its selectors and its arguments.
#[tactic(auto, using(crate::proofs::Rules::names))]
fn meant<'t>(
    meaning: Option<Meaning>,
    spot: TypedSpot,
    ss: &'t [Selector],
    args: &'t Vec<Actual>,
    site: Site<'t, '_>,
) -> Step<'t>
    ensures { (t : Tables) (line : ℕ) (w : Waiting) → let c = context (env_view site.entry.env) line in
        step_ahead t c w result ≡ from_meaning c meaning (typed_spot_view spot) (selectors_view ss.now) (actuals_view args.now.items) (awaits_of w) }
{
    match meaning {
        Some(Meaning::Constant { t: _, value }) => Step::On(At::Value(Value::of(value as i64))),
        Some(Meaning::Variable { t: _, reference: _ }) => value_of(spot, ss),
        Some(Meaning::Sub(n)) => call(n, args, site),
        Some(Meaning::Predeclared(k)) => function(function_of(k), args, site),
        _ => Step::On(At::Value(Value::of(0))),
    }
}

/// The value of a variable, or of the part of it that selectors lead to.
#[tactic(auto, using(crate::proofs::Rules::names))]
fn value_of<'t>(spot: TypedSpot, ss: &'t [Selector]) -> Step<'t>
    ensures { (t : Tables) (c : Context) (w : Waiting) → step_ahead t c w result ≡ from_selectors c (typed_spot_view spot) (selectors_view ss.now)
        (read_for (awaits_of w)) (λ last. reads c last.spot (awaits_of w)) }
{
    match ss {
        [] => Step::On(At::Deed(Deed::Reads(spot.spot))),
        _ => Step::On(selected(spot, ss, Goal::Read)),
    }
}

/// A function of the program with its arguments.
#[inline(never)]
fn call<'t>(n: u32, args: &'t Vec<Actual>, site: Site<'t, '_>) -> Step<'t>
    ensures { (t : Tables) (line : ℕ) (w : Waiting) → let c = context (env_view site.entry.env) line in let head =
        sub_at (env_view site.entry.env).state.blocks n in
        step_ahead t c w result ≡ from_args c head.formals (actuals_view args.now.items) [] (to_function head.scope (awaits_of w)) }
{
    let scopes = site.scopes();
    let callee = Callee::Function(scopes.sub_scope(n));
    passing(scopes.sub_formals(n), args, callee, site.alloc)
}

/// A predeclared function with its arguments.
#[tactic(auto, using(crate::proofs::Rules::functions))]
#[inline(never)]
fn function<'t>(f: Function, args: &'t [Actual], site: Site<'t, '_>) -> Step<'t>
    ensures { (t : Tables) (line : ℕ) (w : Waiting) → let c = context (env_view site.entry.env) line in
        step_ahead t c w result ≡ from_predeclared c (function_view f) (actuals_view args.now) (awaits_of w) }
{
    match f {
        Function::Eof => Step::On(At::Deed(Deed::AsksEof)),
        Function::Eoln => Step::On(At::Deed(Deed::AsksEoln)),
        Function::Clock => Step::On(At::Deed(Deed::AsksClock)),
        Function::Empty => Step::On(reference(args, Goal::AskEmpty, site)),
        Function::Abs
        | Function::Sqr
        | Function::Odd
        | Function::Ord
        | Function::Chr
        | Function::Succ
        | Function::Pred
        | Function::Random
        | Function::NoFunction => evaluated(f, first_type(args, site.env), args),
    }
}

/// A function over its argument, of this type, which is evaluated; where there is none it counts as 0.
fn evaluated<'t>(f: Function, t: Option<TypeId>, args: &'t [Actual]) -> Step<'t>
    ensures { (s : Tables) (c : Context) (w : Waiting) → let u = apply (function_view f) t (awaits_of w) in
        step_ahead s c w result ≡ from_argument c (actuals_view args.now) u (from_value c u) }
{
    let part = Pending::Apply(f, t);
    match args {
        [] => Step::Under(part, At::Value(Value::of(0))),
        [first, _rest @ ..] => Step::Under(part, At::Expr(expression(first))),
    }
}
