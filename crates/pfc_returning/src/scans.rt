//! The scan behind the return from a resource.
ghost use Rattle.std.specs.Prelude.{◌≡◌, OnOk, OnErr, get_or};
ghost use Rattle.pfc_program.specs.declared.tables.Tables.{Tables};
ghost use Rattle.pfc_pending.specs.Waiting.{remainder_of, waiting};
ghost use Rattle.pfc_activities.specs.Shown.{activity_shown};
ghost use Rattle.pfc_activities.specs.Views.{caller_view};
ghost use Rattle.pfc_returning.specs.Scans.{scan_before, behind_scan, with_scan};

use pfc_activities::{Activity, Caller, Source};
use pfc_base::Memory;
use pfc_pending::{Pending, Scan};
use pfc_program::Names;
use std::alloc::Global;

/// The line of the resource's final `end`; 0 where there is no such resource, which never comes.
pub(crate) fn end_of<'t>(source: &Source<'t>, resource: u32) -> u32
    ensures { result ≡ get_or source.now.program.resource_ends.items resource 0 }
{
    match source.program.resource_ends.get(resource as usize) {
        Some(line) => *line,
        None => 0,
    }
}

/// Puts a scan of the resource before what is pending, in whose names that goes on. Its only refusal is want of memory, which changes nothing.
fn push_scan<'t>(
    pending: &mut Vec<Pending<'t>>,
    names: Names,
    resource: u32,
    line: u32,
) -> Result<(), Memory>
    ensures ok { OnOk result ((t : Tables) → remainder_of (waiting t pending.new.items) ≡ scan_before t names resource line
        (remainder_of (waiting t pending.old.items))) }
    ensures err { OnErr result (pending.new.items ≡ pending.old.items) }
{
    pending.reserve(2)?;
    pending.push(Pending::InNames(names)).unwrap();
    let scan = Scan {
        resource,
        line,
        after: None,
        own: None,
    };
    pending.push(Pending::ScanOn(scan)).unwrap();
    Ok(())
}

/// Puts a scan of the resource before what waits for the end of an activation. Its only refusal is want of memory; then there is nothing to be
/// seen of it.
fn put_before<'t>(
    alloc: Global,
    caller: &mut Caller<'t>,
    resource: u32,
    line: u32,
) -> Result<(), Memory>
    ensures ok { OnOk result ((t : Tables) → caller_view t caller.new ≡ behind_scan resource line (caller_view t caller.old)) }
    ensures err { OnErr result ((t : Tables) → caller_view t caller.new ≡ caller_view t caller.old) }
{
    let inner = match caller {
        Caller::Nobody => return Ok(()),
        Caller::Remainder(names, _) => names.copy(alloc)?,
        Caller::Value(_, _, _) => return Ok(()),
    };
    if let Caller::Remainder(_, pending) = caller {
        push_scan(pending, inner, resource, line)?;
    }
    Ok(())
}

/// Puts a scan of the resource before what waits for the end of the process's innermost activation. Its only refusal is want of memory; then
/// there is nothing to be seen of it.
pub(crate) fn put_scan<'t>(
    alloc: Global,
    activity: &mut Activity<'t>,
    resource: u32,
    line: u32,
) -> Result<(), Memory>
    ensures doing { activity.new.doing ≡ activity.old.doing }
    ensures ok { OnOk result ((t : Tables) → activity_shown t activity.new ≡ with_scan resource line (activity_shown t activity.old)) }
    ensures err { OnErr result ((t : Tables) → activity_shown t activity.new ≡ activity_shown t activity.old) }
{
    let Some(mut last) = activity.activations.pop() else {
        return Ok(());
    };
    let put = put_before(alloc, &mut last.caller, resource, line);
    activity.activations.push(last).unwrap();
    put
}
