//! Where a statement has ended: what comes for the part that stands behind it.
ghost use Rattle.std.specs.Prelude.{◌≡◌, IfOk, IfSome, is_some};
ghost use Rattle.pfc_types.specs.rules.Expressions.{Env as Known};
ghost use Rattle.pfc_semantics.specs.Alternatives.{context};
ghost use Rattle.pfc_semantics.specs.Remainders as remainders;
ghost use Rattle.pfc_semantics.specs.Rewriting.{from_remainder};
ghost use Rattle.pfc_program.specs.declared.tables.Tables.{Tables};
ghost use Rattle.pfc_program.specs.Views.{names_view};
ghost use Rattle.pfc_pending.specs.Ahead.{ahead};
ghost use Rattle.pfc_pending.specs.Selects.{replica_view};
ghost use Rattle.pfc_pending.specs.Waiting.{Waiting, remainder_of, over};
ghost use Rattle.pfc_statement_steps.specs.Resumed.{is_resumed, resumed_ahead, under};

use crate::Resumed;
use crate::guards::{try_other, try_own};
use pfc_base::Memory;
use pfc_pending::{At, Begun, Deed, Pending, Replica, Step};
use pfc_program::Names;
use pfc_store::{Spot, Value};
use std::alloc::Global;

/// What stands on a part that is pending behind a statement, with this line; the names in view stay.
fn here<'t>(line: u32, at: At<'t>) -> Resumed<'t>
    ensures { (t : Tables) (env : Known) (w : Waiting) → resumed_ahead t env w result ≡ ahead t (context env line) w at.entry }
{
    let begun = Begun {
        line,
        step: Step::On(at),
    };
    Resumed { names: None, begun }
}

/// From here on these names are in view.
fn in_names<'t>(names: &Names, alloc: Global) -> Result<Resumed<'t>, Memory>
    ensures { IfOk result (λ r. (t : Tables) (env : Known) (w : Waiting) →
        resumed_ahead t env w r ≡ from_remainder env (remainders.in_names (names_view t names.now) (remainder_of w))) }
{
    let names = names.copy(alloc)?;
    let begun = Begun {
        line: 0,
        step: Step::On(At::Rest),
    };
    Ok(Resumed {
        names: Some(names),
        begun,
    })
}

/// The write of a replicated alternative that was chosen.
fn write_again<'t>(replica: Replica, alloc: Global) -> Resumed<'t>
    ensures { (t : Tables) (env : Known) (w : Waiting) →
        resumed_ahead t env w result ≡ from_remainder env (remainders.write_again (replica_view replica) (remainder_of w)) }
{
    let spot = Spot {
        scope: replica.scope,
        variable: replica.variable,
        selectors: Vec::new(alloc),
    };
    let write = Deed::Writes(spot, Value::of(replica.value));
    here(replica.line, At::Deed(write))
}

/// A statement has ended, and this part stands behind it, over the one below. None for a statement that is under way, for a select, and
/// for what waits for a value. Its only refusal is want of memory; an own guard over anything but names, which never comes, counts as
/// one.
pub fn resume<'t>(
    pending: &Pending<'t>,
    below: Option<&Pending<'t>>,
    alloc: Global,
) -> Result<Option<Resumed<'t>>, Memory>
    ensures taken { IfOk result (λ r. is_some r ≡ is_resumed pending.now) }
    ensures value { IfOk result (λ r. IfSome r (λ resumed. (t : Tables) (env : Known) (w : Waiting) →
        resumed_ahead t env (under t w below.entry) resumed ≡ from_remainder env (remainder_of (over t (under t w below.entry) pending.now)))) }
{
    match pending {
        Pending::Ends(line) => Ok(Some(here(*line, At::Deed(Deed::Finishes(*line))))),
        Pending::Perform(n, ss) => Ok(Some(here(0, At::Stmts(*n, *ss)))),
        Pending::InNames(names) => Ok(Some(in_names(names, alloc)?)),
        Pending::WriteOn(line, items, newline) => Ok(Some(here(
            *line,
            At::Writes(*items, *newline),
        ))),
        Pending::ReadOn(line, args, skip) => Ok(Some(here(*line, At::Reads(*args, *skip)))),
        Pending::AtCoend(line) => Ok(Some(here(*line, At::Deed(Deed::Joins)))),
        Pending::PartFrom(caller, line) => Ok(Some(here(*line, At::Deed(Deed::Parts(*caller))))),
        Pending::WriteAgain(replica) => Ok(Some(write_again(*replica, alloc))),
        Pending::TryGuard(bar) => Ok(Some(try_own(*bar, below, alloc)?)),
        Pending::ScanOn(scan) => Ok(Some(here(scan.line, At::Deed(Deed::Scans(*scan))))),
        Pending::TryOther(tried, scan) => Ok(Some(try_other(*tried, *scan, alloc)?)),
        _ => Ok(None),
    }
}
