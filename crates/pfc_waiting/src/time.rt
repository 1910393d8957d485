//! The wait for a moment, and the wait at `coend`.
ghost use Rattle.std.specs.Prelude.{◌≡◌, ◌<◌, ◌*◌, ◌^◌, []};
ghost use Rattle.pfc_pending.specs.declared.actions.Deed.TheVariants as deed;
ghost use Rattle.pfc_activities.specs.Relation.{MayAct, IsPerformed};
ghost use Rattle.pfc_waiting.specs.Moments.{due_behind, due_after};

use crate::going::go_on_when_ready;
use crate::rules::{block_by, join_by};
use pfc_activities::{Done, State};
use pfc_base::RunFault;
use pfc_pending::At;
use pfc_world::Why;

/// The last due moment.
const LATEST: u64 = 1_000_000_000_000_000;

/// The moment so many seconds behind this one; None where there is no wait. The fault is that of a moment too late.
fn moment_after(moment: u64, seconds: u64) -> Result<Option<u64>, RunFault>
    requires { moment < 2 * 10 ^ 18 }
    ensures { result ≡ due_after moment seconds }
{
    if seconds == 0 {
        return Ok(None);
    }
    if seconds > LATEST {
        return Err(RunFault::Late);
    }
    let due = moment + 1000 * seconds;
    if due <= LATEST {
        Ok(Some(due))
    } else {
        Err(RunFault::Late)
    }
}

/// The same of a number that was given, of which one below 0 is a fault.
fn moment_behind(moment: u64, seconds: i64) -> Result<Option<u64>, RunFault>
    requires { moment < 2 * 10 ^ 18 }
    ensures { result ≡ due_behind moment seconds }
{
    if seconds < 0 {
        return Err(RunFault::Below);
    }
    moment_after(moment, seconds.unsigned_abs())
}

/// `sleep(n)`: the process waits until the clock has gone on by n seconds, and not at all for 0. The faults are those of a number below 0
/// and of a moment too late.
pub fn sleeps<'t>(state: &mut State<'t>, p: u32, n: i64) -> Done
    requires { MayAct state.old p }
    ensures { IsPerformed state.old state.new p (deed.Sleeps n) [] result }
{
    match moment_behind(state.world.now(), n) {
        Ok(None) => go_on_when_ready(state, p, At::Rest),
        Ok(Some(due)) => {
            block_by(&mut state.world, p, Why::Sleep(due));
            go_on_when_ready(state, p, At::Rest)
        }
        Err(fault) => state.end_in_fault(p, fault),
    }
}

/// The process is at `coend`: where some process is created, all that are become ready, and this one waits until they have finished.
pub fn joins<'t>(state: &mut State<'t>, p: u32) -> Done
    requires { MayAct state.old p }
    ensures { IsPerformed state.old state.new p deed.Joins [] result }
{
    join_by(&mut state.world, p);
    go_on_when_ready(state, p, At::Rest)
}
