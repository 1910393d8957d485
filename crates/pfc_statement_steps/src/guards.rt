//! Guards of resources: that of the own procedure, and those of the barred processes that a scan tries.
ghost use Rattle.std.specs.Prelude.{◌≡◌, IfOk, IfSome, is_some};
ghost use Rattle.pfc_tree.specs.views.Exprs.{expr_view};
ghost use Rattle.pfc_types.specs.rules.Expressions.{Env as Known};
ghost use Rattle.pfc_semantics.specs.Alternatives.{context};
ghost use Rattle.pfc_semantics.specs.Expressions.{from_expr};
ghost use Rattle.pfc_semantics.specs.Remainders as remainders;
ghost use Rattle.pfc_semantics.specs.Rewriting.{from_remainder, from_value};
ghost use Rattle.pfc_store.specs.Views.{value_view};
ghost use Rattle.pfc_program.specs.declared.tables.Tables.{Tables};
ghost use Rattle.pfc_pending.specs.Ahead.{ahead, begun_ahead};
ghost use Rattle.pfc_pending.specs.Waiting.{Waiting, remainder_of, awaits_of, bar_view, scan_view, tried_view, over};
ghost use Rattle.pfc_statement_steps.specs.Resumed.{guard_context, is_guard, resumed_ahead, under};

use crate::Resumed;
use pfc_base::Memory;
use pfc_pending::{At, Bar, Begun, Deed, Pending, Scan, Step, Tried};
use pfc_program::Guard;
use pfc_store::Value;
use pfc_values::is_true;
use std::alloc::Global;

/// The test of a guard, over what waits for it. The names in view in the guard are in view from there on.
fn test<'t>(guard: &'t Guard<'t>, waits: Pending<'t>, alloc: Global) -> Result<Resumed<'t>, Memory>
    ensures { IfOk result (λ r. (t : Tables) (env : Known) (w : Waiting) →
        resumed_ahead t env w r ≡ from_expr (guard_context t guard.now) (expr_view guard.now.test.now) (awaits_of (over t w waits.entry))
        (from_value (guard_context t guard.now) (awaits_of (over t w waits.entry)))) }
{
    let names = guard.names.copy(alloc)?;
    let begun = Begun {
        line: guard.line,
        step: Step::Under(waits, At::Expr(guard.test)),
    };
    Ok(Resumed {
        names: Some(names),
        begun,
    })
}

/// The guard of the own procedure. Below it stand the names of that procedure's body; where they do not, which never comes, it is
/// refused.
#[tactic(auto, using(crate::proofs::Rules::guards))]
pub(crate) fn try_own<'t>(
    bar: Bar<'t>,
    below: Option<&Pending<'t>>,
    alloc: Global,
) -> Result<Resumed<'t>, Memory>
    ensures { IfOk result (λ r. (t : Tables) (env : Known) (w : Waiting) →
        resumed_ahead t env (under t w below.entry) r ≡ from_remainder env (remainders.try_guard (bar_view t bar.entry)
        (remainder_of (under t w below.entry)))) }
{
    match below {
        Some(Pending::InNames(_)) => test(bar.guard, Pending::PassOwn(bar), alloc),
        _ => Err(Memory),
    }
}

/// The guard of a barred process that a scan tries.
pub(crate) fn try_other<'t>(
    tried: Tried<'t>,
    scan: Scan<'t>,
    alloc: Global,
) -> Result<Resumed<'t>, Memory>
    ensures { IfOk result (λ r. (t : Tables) (env : Known) (w : Waiting) →
        resumed_ahead t env w r ≡ from_remainder env (remainders.try_other (tried_view t tried.entry) (scan_view t scan.entry) (remainder_of w))) }
{
    test(tried.bar.guard, Pending::PassOther(tried, scan), alloc)
}

/// What is at hand, with a line.
fn on<'t>(line: u32, at: At<'t>) -> Begun<'t>
    ensures { (t : Tables) (env : Known) (w : Waiting) → begun_ahead t env w result ≡ ahead t (context env line) w at.entry }
{
    Begun {
        line,
        step: Step::On(at),
    }
}

/// The own guard has its value, on the line at hand: where it is false, the process is barred.
fn pass_own<'t>(bar: Bar<'t>, v: &Value, line: u32) -> Begun<'t>
    ensures { (t : Tables) (env : Known) (w : Waiting) →
        begun_ahead t env w result ≡ from_value (context env line) (remainders.pass_own (bar_view t bar.entry) (remainder_of w)) (value_view v.now) }
{
    if is_true(v.ordinal()) {
        on(line, At::Rest)
    } else {
        on(line, At::Deed(Deed::Bars(bar)))
    }
}

/// The guard of a barred process has its value, on the line at hand: where it is true, that process has the resource next; else the
/// scan goes on past its ticket.
fn pass_other<'t>(tried: Tried<'t>, scan: Scan<'t>, v: &Value, line: u32) -> Begun<'t>
    ensures { (t : Tables) (env : Known) (w : Waiting) →
        begun_ahead t env w result ≡ from_value (context env line) (remainders.pass_other (tried_view t tried.entry)
        (scan_view t scan.entry) (remainder_of w)) (value_view v.now) }
{
    if is_true(v.ordinal()) {
        return on(line, At::Deed(Deed::Passes(tried, scan)));
    }
    let past = Scan {
        after: Some(tried.ticket),
        ..scan
    };
    on(scan.line, At::Deed(Deed::Scans(past)))
}

/// A value has come for a guard of a resource, on the line at hand. None for what is no guard.
pub fn arrive_guard<'t>(pending: &Pending<'t>, v: &Value, line: u32) -> Option<Begun<'t>>
    ensures guard { is_some result ≡ is_guard pending.now }
    ensures value { IfSome result (λ begun. (t : Tables) (env : Known) (w : Waiting) →
        begun_ahead t env w begun ≡ from_value (context env line) (awaits_of (over t w pending.now)) (value_view v.now)) }
{
    match pending {
        Pending::PassOwn(bar) => Some(pass_own(*bar, v, line)),
        Pending::PassOther(tried, scan) => Some(pass_other(*tried, *scan, v, line)),
        _ => None,
    }
}
