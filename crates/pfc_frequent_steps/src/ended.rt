//! A statement has ended, and the part that stands behind it goes on.
ghost use Rattle.std.specs.Prelude.{◌≡◌};
ghost use Rattle.std.specs.Option.{option_copied};
ghost use Rattle.pfc_types.specs.rules.Expressions.{Env as Known};
ghost use Rattle.pfc_program.specs.declared.tables.Tables.{Tables};
ghost use Rattle.pfc_semantics.specs.Rewriting.{from_remainder, loop_line};
ghost use Rattle.pfc_pending.specs.Texts.{stmt_at};
ghost use Rattle.pfc_pending.specs.Waiting.{Waiting, remainder_of, over};
ghost use Rattle.pfc_frequent_steps.specs.Near.{behind_part, entered_ahead, node_view};

use crate::near::{Behind, Entered, Near, Next};
use crate::statements::node;
use crate::tested::until;
use pfc_pending::OneStmt;
use pfc_tree::Stmt;

/// What comes for the part that stands behind a statement that has ended.
#[inline(always)]
pub(crate) fn ended<'t>(part: Behind<'t>) -> Entered<'t>
    ensures { (t : Tables) (env : Known) (w : Waiting) → entered_ahead t env w result ≡ from_remainder env (remainder_of (over t w (behind_part part.entry))) }
{
    match part {
        Behind::Ends(line) => Entered {
            line,
            next: Next::On(Near::Finishes(line)),
        },
        Behind::Perform(n, ss) => Entered {
            line: 0,
            next: Next::On(Near::Stmts(n, ss)),
        },
        Behind::Turn(n, s) => Entered {
            line: line_of(s),
            next: Next::Ahead(Behind::Again(n, s), Near::Turns),
        },
        Behind::Again(n, s) => Entered {
            line: 0,
            next: Next::On(Near::Stmt(n, s)),
        },
        Behind::Until(n, s) => until(n, s, node(s)),
    }
}

/// The line of a loop.
#[inline(always)]
fn line_of(s: OneStmt) -> u32
    ensures { result ≡ loop_line (stmt_at s.entry) }
{
    line_at(node(s))
}

/// The line of a loop of the text.
fn line_at(found: Option<&Stmt>) -> u32
    ensures { result ≡ loop_line (node_view (option_copied found.entry)) }
{
    match found {
        Some(Stmt::While(_, _, p)) => p.line,
        Some(Stmt::Repeat(_, _, p)) => p.line,
        _ => 0,
    }
}
