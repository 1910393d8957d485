//! A part of the text at hand that is read without memory.
ghost use Rattle.std.specs.Prelude.{◌≡◌};
ghost use Rattle.pfc_semantics.specs.Alternatives.{context};
ghost use Rattle.pfc_phrases.specs.Views.{env_view};
ghost use Rattle.pfc_program.specs.declared.tables.Tables.{Tables};
ghost use Rattle.pfc_pending.specs.Ahead.{ahead, step_ahead};
ghost use Rattle.pfc_pending.specs.Waiting.{Waiting};

use pfc_expression_steps::{expr, factor, multipliers, pass, simple, summands, term};
use pfc_pending::{At, Step};
use pfc_select_steps::{guarded, next, replicated};
use pfc_sites::Site;
use pfc_statement_steps::{item, reads, writes};

/// What a part of the text comes to, on this line; what is none, or takes memory, stays at hand.
#[inline(never)]
pub(crate) fn phrase<'t>(at: At<'t>, line: u32, site: Site<'t, '_>) -> Step<'t>
    ensures { (t : Tables) (w : Waiting) → step_ahead t (context (env_view site.entry.env) line) w result ≡ ahead t
        (context (env_view site.entry.env) line) w at.entry }
{
    match at {
        At::Writes(items, newline) => writes(items, newline, line),
        At::Reads(args, skip) => reads(args, skip, line, site),
        At::Item(a) => item(a, site.env),
        At::Expr(e) => expr(e, site),
        At::Simple(s) => simple(s, site),
        At::Summands(sum, rest) => summands(sum, rest),
        At::Term(t) => term(t, site),
        At::Multipliers(product, rest) => multipliers(product, rest),
        At::Factor(f) => factor(f, site),
        At::Passing(p) => pass(p, site),
        At::Alternatives(choosing) => Step::On(next(choosing)),
        At::Replicated(choosing) => replicated(choosing, line, site.alloc),
        At::Guarded(choosing) => guarded(choosing),
        at => Step::On(at),
    }
}
