//! Calls of the predeclared procedures.
ghost use Rattle.std.specs.Prelude.{◌≡◌, ℕ};
ghost use Rattle.pfc_tree.specs.views.Exprs.{actuals_view};
ghost use Rattle.pfc_semantics.specs.Remainders.{Context};
ghost use Rattle.pfc_semantics.specs.Alternatives.{context};
ghost use Rattle.pfc_semantics.specs.Expressions.{from_argument};
ghost use Rattle.pfc_semantics.specs.Rewriting.{from_value};
ghost use Rattle.pfc_semantics.specs.Remainders.{sleep_for};
ghost use Rattle.pfc_semantics.specs.Statements.{from_procedure, from_initial, expr_of, behind_first};
ghost use Rattle.pfc_facts.specs.Views.{procedure_view};
ghost use Rattle.pfc_phrases.specs.Views.{env_view};
ghost use Rattle.pfc_program.specs.declared.tables.Tables.{Tables};
ghost use Rattle.pfc_pending.specs.Ahead.{step_ahead, on_rest};
ghost use Rattle.pfc_pending.specs.Waiting.{Waiting, remainder_of};

use pfc_facts::Procedure;
use pfc_pending::{At, Deed, Goal, Pending, Step};
use pfc_sites::{Site, all, expression, reference, second};
use pfc_tree::Actual;

/// A call of a predeclared procedure.
#[tactic(auto, using(crate::proofs::Rules::procedures))]
pub(crate) fn procedure<'t>(p: Procedure, args: &'t Vec<Actual>, site: Site<'t, '_>) -> Step<'t>
    ensures { (t : Tables) (line : ℕ) (w : Waiting) → step_ahead t (context (env_view site.entry.env) line) w result ≡ from_procedure
        (context (env_view site.entry.env) line) (procedure_view p) (actuals_view args.now.items) (remainder_of w)
        (on_rest (context (env_view site.entry.env) line) w) }
{
    match p {
        Procedure::Reader(skip) => Step::On(At::Reads(all(args), skip)),
        Procedure::Writer(newline) => Step::On(At::Writes(all(args), newline)),
        Procedure::Initial => initial(args, site),
        Procedure::Wait => Step::On(reference(args, Goal::WaitAt, site)),
        Procedure::Signal => Step::On(reference(args, Goal::SignalAt, site)),
        Procedure::Delay => Step::On(reference(args, Goal::DelayAt(second(args)), site)),
        Procedure::Resume => Step::On(reference(args, Goal::ResumeAt, site)),
        Procedure::Sleep => sleep(args),
        Procedure::NoProcedure => Step::On(At::Rest),
    }
}

/// `initial(s, n)`: the semaphore before its count.
#[tactic(auto, using(crate::proofs::Rules::procedures))]
fn initial<'t>(args: &'t [Actual], site: Site<'t, '_>) -> Step<'t>
    ensures { (t : Tables) (line : ℕ) (w : Waiting) → step_ahead t (context (env_view site.entry.env) line) w result ≡ from_initial
        (context (env_view site.entry.env) line) (actuals_view args.now) (remainder_of w) (expr_of (behind_first (actuals_view args.now)))
        (on_rest (context (env_view site.entry.env) line) w) }
{
    match second(args) {
        Some(count) => Step::On(reference(args, Goal::InitialTo(count), site)),
        None => Step::On(At::Rest),
    }
}

#[tactic(auto, using(crate::proofs::Rules::arguments))]
fn sleep<'t>(args: &'t [Actual]) -> Step<'t>
    ensures { (t : Tables) (c : Context) (w : Waiting) → step_ahead t c w result ≡ from_argument c (actuals_view args.now) (sleep_for (remainder_of w))
        (from_value c (sleep_for (remainder_of w))) }
{
    match args {
        [] => Step::On(At::Deed(Deed::Sleeps(0))),
        [seconds, _rest @ ..] => Step::Under(Pending::SleepFor, At::Expr(expression(seconds))),
    }
}
