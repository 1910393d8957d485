//! Plain communication: accepts, and messages that are sent and received.
ghost use Rattle.std.specs.Prelude.{◌≡◌, ℕ};
ghost use Rattle.pfc_tree.specs.views.Exprs.{expr_view, desig_view};
ghost use Rattle.pfc_tree.specs.views.Stmts.{accept_view};
ghost use Rattle.pfc_semantics.specs.Alternatives as alternatives;
ghost use Rattle.pfc_semantics.specs.Alternatives.{context};
ghost use Rattle.pfc_semantics.specs.Statements.{from_send, from_receive, plain_open};
ghost use Rattle.pfc_semantics.specs.Remainders.{meets, to_accept};
ghost use Rattle.pfc_phrases.specs.Views.{env_view};
ghost use Rattle.pfc_program.specs.declared.tables.Tables.{Tables};
ghost use Rattle.pfc_pending.specs.Ahead.{step_ahead};
ghost use Rattle.pfc_pending.specs.Selects.{accepting_view};
ghost use Rattle.pfc_pending.specs.Waiting.{Waiting, remainder_of};

use pfc_facts::{entry_number, message_of, receiver_of};
use pfc_pending::{Accepting, At, Deed, Goal, Offer, Step};
use pfc_phrases::{Env, find_in, meaning_of};
use pfc_sites::{Site, part};
use pfc_tree::{Accept, Desig, Expr};

/// An accept with this line, whose parameters have the scope with this number.
pub fn accepting<'t>(scope: u32, a: &'t Accept, line: u32, env: Env) -> Accepting<'t>
    ensures { accepting_view result ≡ alternatives.accepting_of (context (env_view env.entry) line) scope (accept_view a.now) line }
{
    let entry = entry_number(meaning_of(find_in(env, &a.name)));
    match &a.stmt {
        Some(stmt) => Accepting {
            entry,
            scope,
            stmt: Some(stmt),
            line,
        },
        None => Accepting {
            entry,
            scope,
            stmt: None,
            line,
        },
    }
}

/// A plain accept with this line.
pub(crate) fn accept<'t>(scope: u32, a: &'t Accept, line: u32, site: Site<'t, '_>) -> Step<'t>
    ensures { (t : Tables) (w : Waiting) → step_ahead t (context (env_view site.entry.env) line) w result ≡ meets (context (env_view site.entry.env) line)
        (plain_open (to_accept (alternatives.accepting_of (context (env_view site.entry.env) line) scope (accept_view a.now) line))) (remainder_of w) }
{
    let accepting = accepting(scope, a, line, site.env);
    Step::On(At::Deed(Deed::Meets(Offer::Accept(accepting))))
}

/// `c ! e`: the channel before the message.
#[tactic(auto, using(crate::proofs::Rules::communication))]
pub(crate) fn send<'t>(d: &'t Desig, e: &'t Expr, site: Site<'t, '_>) -> Step<'t>
    ensures { (t : Tables) (line : ℕ) (w : Waiting) → step_ahead t (context (env_view site.entry.env) line) w result ≡ from_send
        (context (env_view site.entry.env) line) (desig_view d.now) (expr_view e.now) (remainder_of w) }
{
    Step::On(part(d, Goal::SendTo(message_of(e, site.env)), site))
}

/// `c ? v`: the channel before the variable.
#[tactic(auto, using(crate::proofs::Rules::communication))]
pub(crate) fn receive<'t>(d: &'t Desig, v: &'t Desig, site: Site<'t, '_>) -> Step<'t>
    ensures { (t : Tables) (line : ℕ) (w : Waiting) → step_ahead t (context (env_view site.entry.env) line) w result ≡ from_receive
        (context (env_view site.entry.env) line) (desig_view d.now) (desig_view v.now) (remainder_of w) }
{
    Step::On(part(d, Goal::ReceiveFrom(receiver_of(v, site.env)), site))
}
