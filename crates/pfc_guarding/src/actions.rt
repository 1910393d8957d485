//! The actions of guarded resources.
ghost use Rattle.std.specs.Prelude.{◌≡◌, [], IfOk, IfErr, OnErr};
ghost use Rattle.pfc_pending.specs.declared.actions.Deed.TheVariants as deed;
ghost use Rattle.pfc_activities.specs.Relation.{MayAct, IsPerformed, StaysAt};
ghost use Rattle.pfc_guarding.specs.Scanning.{GivesUp};

use crate::barring::wait_barred;
use crate::rules::{bar_by, give_up_by, is_barred_at, is_held_by, pass_by, requeue_by};
use crate::tries::next_tried;
use crate::under::go_under;
use pfc_activities::{Done, State};
use pfc_base::Memory;
use pfc_pending::{At, Bar, Pending, Scan, Tried};
use pfc_waiting::go_on_when_ready;

/// A turn of a scan: it takes the next barred process by ticket, whose guard comes next. Where there is none, behind a return the resource goes
/// to the first entrant or is free, and behind a requeue the process tries its own guard. Want of memory changes nothing that is to be seen; a
/// scan of a resource that the process does not hold, which never comes, counts as one.
pub fn scans<'t>(state: &mut State<'t>, p: u32, scan: Scan<'t>) -> Result<Done, Scan<'t>>
    requires { MayAct state.old p }
    ensures ok { IfOk result (λ d. IsPerformed state.old state.new p (deed.Scans scan.entry) [] d) }
    ensures err { OnErr result (StaysAt state.old state.new p) }
    ensures given { IfErr result (λ given. given ≡ scan.entry) }
{
    match scan_once(state, p, scan) {
        Ok(done) => Ok(done),
        Err(Memory) => Err(scan),
    }
}

/// The same, where want of memory gives nothing back.
fn scan_once<'t>(state: &mut State<'t>, p: u32, scan: Scan<'t>) -> Result<Done, Memory>
    requires { MayAct state.old p }
    ensures ok { IfOk result (λ d. IsPerformed state.old state.new p (deed.Scans scan.entry) [] d) }
    ensures err { OnErr result (StaysAt state.old state.new p) }
{
    match next_tried(state, scan.resource, scan.after) {
        Some(tried) => go_under(state, p, Pending::TryOther(tried, scan)),
        None => match scan.own {
            Some(bar) => go_under(state, p, Pending::TryGuard(bar)),
            None => end_scan(state, p, scan.resource),
        },
    }
}

/// The end of a scan behind a return. Where the process does not hold the resource, which never comes, nothing changes, and it counts as want
/// of memory.
fn end_scan<'t>(state: &mut State<'t>, p: u32, r: u32) -> Result<Done, Memory>
    requires { MayAct state.old p }
    ensures ok { IfOk result (λ d. GivesUp state.old state.new p r d) }
    ensures err { OnErr result (StaysAt state.old state.new p) }
{
    if !is_held_by(&state.resources, r, p) {
        return Err(Memory);
    }
    give_up_by(&mut state.world, &mut state.resources, p, r);
    Ok(go_on_when_ready(state, p, At::Rest))
}

/// A false guard of the own procedure: the process waits there, and the resource goes to the first entrant or is free. A resource that the process
/// does not hold, which never comes, counts as want of memory, and changes nothing.
pub fn bars<'t>(state: &mut State<'t>, p: u32, bar: Bar<'t>) -> Result<Done, Bar<'t>>
    requires { MayAct state.old p }
    ensures ok { IfOk result (λ d. IsPerformed state.old state.new p (deed.Bars bar.entry) [] d) }
    ensures err { OnErr result (StaysAt state.old state.new p) }
    ensures given { IfErr result (λ given. given ≡ bar.entry) }
{
    if !is_held_by(&state.resources, bar.resource, p) {
        return Err(bar);
    }
    bar_by(
        &mut state.world,
        &mut state.resources,
        p,
        bar.resource,
        bar.procedure,
    );
    Ok(wait_barred(state, p, bar))
}

/// A true guard of a barred process: that one has the resource, and is ready at its body. Behind a return the process that scanned goes on; behind
/// a requeue it waits at the procedure to which it has requeued. A resource that the process does not hold, and a process that is not barred
/// there, which never come, count as want of memory, and change nothing.
pub fn passes<'t>(
    state: &mut State<'t>,
    p: u32,
    tried: Tried<'t>,
    scan: Scan<'t>,
) -> Result<Done, (Tried<'t>, Scan<'t>)>
    requires { MayAct state.old p }
    ensures ok { IfOk result (λ d. IsPerformed state.old state.new p (deed.Passes tried.entry scan.entry) [] d) }
    ensures err { OnErr result (StaysAt state.old state.new p) }
    ensures given { IfErr result (λ given. (given.0 ≡ tried.entry) × (given.1 ≡ scan.entry)) }
{
    let r = scan.resource;
    if !is_held_by(&state.resources, r, p) {
        return Err((tried, scan));
    }
    if !is_barred_at(&state.world, r, tried.process) {
        return Err((tried, scan));
    }
    match scan.own {
        None => {
            pass_by(&mut state.world, &mut state.resources, p, r, tried.process);
            Ok(go_on_when_ready(state, p, At::Rest))
        }
        Some(bar) => {
            let procedure = bar.procedure;
            let to = tried.process;
            requeue_by(&mut state.world, &mut state.resources, p, r, procedure, to);
            Ok(wait_barred(state, p, bar))
        }
    }
}
