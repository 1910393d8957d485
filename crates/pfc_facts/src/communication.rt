//! What is communicated: `any` over a channel of `synchronous` is none.
ghost use Rattle.std.specs.Prelude.{◌≡◌, ℕ, option_map};
ghost use Rattle.pfc_tree.specs.views.Exprs.{expr_view, desig_view};
ghost use Rattle.pfc_types.specs.rules.Statements as rules;
ghost use Rattle.pfc_semantics.specs.Alternatives as alternatives;
ghost use Rattle.pfc_phrases.specs.Views.{env_view};

use pfc_phrases::{Env, as_desig, find_in, is_any, meaning_of};
use pfc_tree::{Desig, Expr};

/// Whether a variable is `any`, alone, as it is predeclared.
fn is_signal(d: &Desig, env: Env) -> bool
    ensures { result ≡ rules.names_any (env_view env.entry) (Some (desig_view d.now)) }
{
    match d.selectors.as_slice() {
        [] => is_any(meaning_of(find_in(env, &d.name))),
        [_first, _rest @ ..] => false,
    }
}

/// The message that is sent, None for `any`.
pub fn message_of<'a>(e: &'a Expr, env: Env) -> Option<&'a Expr>
    ensures { (line : ℕ) →
        option_map (λ m. expr_view m.now) result ≡ alternatives.message_of (alternatives.context (env_view env.entry) line) (expr_view e.now) }
{
    match as_desig(e) {
        Some(d) if is_signal(d, env) => None,
        _ => Some(e),
    }
}

/// The variable that receives a message, None for `any`.
pub fn receiver_of<'a>(d: &'a Desig, env: Env) -> Option<&'a Desig>
    ensures { (line : ℕ) →
        option_map (λ m. desig_view m.now) result ≡ alternatives.receiver_of (alternatives.context (env_view env.entry) line) (desig_view d.now) }
{
    if is_signal(d, env) { None } else { Some(d) }
}
