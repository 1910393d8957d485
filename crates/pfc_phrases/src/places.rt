//! The places of the first tokens of phrases, and expressions that are no more than a designator or a literal.
ghost use Rattle.std.specs.Prelude.{◌≡◌, option_map};
ghost use Rattle.pfc_tree.specs.views.Exprs.{expr_view, simple_view, term_view, factor_view, desig_view};
ghost use Rattle.pfc_types.specs.rules.Expressions as expressions;
ghost use Rattle.pfc_phrases.specs.Single as single;

use pfc_base::{Place, Text};
use pfc_tree::{Desig, Expr, Factor, Simple, Term};

/// The place of a factor's first token.
fn factor_place(f: &Factor) -> Place
    ensures { result ≡ expressions.factor_place (factor_view f.now) }
{
    match f {
        Factor::Number(_, place)
        | Factor::Literal(_, place)
        | Factor::Not(_, place)
        | Factor::Paren(_, place)
        | Factor::Use(_, _, place) => *place,
    }
}

/// The place of a term's first token.
fn term_place(t: &Term) -> Place
    ensures { result ≡ expressions.term_place (term_view t.now) }
{
    factor_place(&t.first)
}

/// The place of a sum's first token.
pub(crate) fn simple_place(s: &Simple) -> Place
    ensures { result ≡ expressions.simple_place (simple_view s.now) }
{
    match s.sign {
        Some((_, place)) => place,
        None => term_place(&s.first),
    }
}

/// The place of an expression's first token.
pub fn expr_place(e: &Expr) -> Place
    ensures { result ≡ expressions.expr_place (expr_view e.now) }
{
    e.place
}

/// The place of a designator's first token.
pub fn desig_place(d: &Desig) -> Place
    ensures { result ≡ expressions.desig_place (desig_view d.now) }
{
    d.place
}

/// The term that a sum is, without a sign.
#[tactic(auto, using(crate::proofs::Nodes::nodes))]
fn single_term(s: &Simple) -> Option<&Term>
    ensures { option_map (λ t. term_view t.now) result ≡ single.single_term (simple_view s.now) }
{
    if s.sign.is_some() {
        return None;
    }
    match s.rest.as_slice() {
        [] => Some(&s.first),
        [_first, _rest @ ..] => None,
    }
}

/// The factor that a product is.
#[tactic(auto, using(crate::proofs::Nodes::nodes))]
fn single_factor(t: &Term) -> Option<&Factor>
    ensures { option_map (λ f. factor_view f.now) result ≡ single.single_factor (term_view t.now) }
{
    match t.rest.as_slice() {
        [] => Some(&t.first),
        [_first, _rest @ ..] => None,
    }
}

/// The factor that an expression is, without signs and operators.
fn as_factor(e: &Expr) -> Option<&Factor>
    ensures { option_map (λ f. factor_view f.now) result ≡ single.as_factor (expr_view e.now) }
{
    match e.right {
        Some(_) => None,
        None => single_factor(single_term(&e.left)?),
    }
}

/// The designator that a factor is.
fn factor_desig(f: &Factor) -> Option<&Desig>
    ensures { option_map (λ d. desig_view d.now) result ≡ single.factor_desig (Some (factor_view f.now)) }
{
    let Factor::Use(d, args, _) = f else {
        return None
    };
    match args.as_slice() {
        [] => Some(d),
        [_first, _rest @ ..] => None,
    }
}

/// The literal that a factor is.
fn factor_literal(f: &Factor) -> Option<&Text>
    ensures { option_map (λ x. x.now) result ≡ single.factor_literal (Some (factor_view f.now)) }
{
    match f {
        Factor::Literal(text, _) => Some(text),
        _ => None,
    }
}

/// The designator that an expression is, without parentheses, operators and arguments.
#[tactic(auto, using(crate::proofs::Single::single))]
pub fn as_desig(e: &Expr) -> Option<&Desig>
    ensures { option_map (λ d. desig_view d.now) result ≡ expressions.as_desig (expr_view e.now) }
{
    factor_desig(as_factor(e)?)
}

/// The literal that an expression is.
#[tactic(auto, using(crate::proofs::Single::single))]
pub fn as_literal(e: &Expr) -> Option<&Text>
    ensures { option_map (λ x. x.now) result ≡ expressions.as_literal (expr_view e.now) }
{
    factor_literal(as_factor(e)?)
}
