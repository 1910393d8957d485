//! What an accept waits to do.
ghost use Rattle.std.specs.Prelude.{◌≡◌, ℕ};
ghost use Rattle.pfc_tree.specs.views.Stmts.{accept_view};
ghost use Rattle.pfc_semantics.specs.Alternatives as alternatives;
ghost use Rattle.pfc_semantics.specs.Alternatives.{context};
ghost use Rattle.pfc_phrases.specs.Views.{env_view};
ghost use Rattle.pfc_pending.specs.Selects.{accepting_view};

use pfc_facts::entry_number;
use pfc_pending::Accepting;
use pfc_phrases::{Env, find_in, meaning_of};
use pfc_tree::Accept;

/// An accept with this line, whose parameters have the scope with this number.
pub fn accepting<'t>(scope: u32, a: &'t Accept, line: u32, env: Env) -> Accepting<'t>
    ensures { accepting_view result ≡ alternatives.accepting_of (context (env_view env.entry) line) scope (accept_view a.now) line }
{
    let entry = entry_number(meaning_of(find_in(env, &a.name)));
    match &a.stmt {
        Some(stmt) => Accepting {
            entry,
            scope,
            stmt: Some(stmt),
            line,
        },
        None => Accepting {
            entry,
            scope,
            stmt: None,
            line,
        },
    }
}
