//! Who acts next in a run, or how it ends.
ghost use Rattle.std.specs.Prelude.{◌≡◌, ◌≢◌, ◌<◌, not, IfOk, IfErr};
ghost use Rattle.pfc_sched.specs.Picks.{item_of};
ghost use Rattle.pfc_world.specs.Tables.{at, some_ready};
ghost use Rattle.pfc_machine_acts.specs.Settling.{machine_settled};
ghost use Rattle.pfc_sessions.specs.Courses.{IsPick, IsOver};
ghost use Rattle.pfc_sessions.specs.Runs.{is_done, is_worn_out};

use pfc_machine_acts::settle;
use pfc_machines::Machine;
use pfc_sched::{Pick, Picker};
use pfc_world::{Ending, ScriptWhy, State};

/// How many actions may be done, and how far the clock may go: past that, which never comes, a run counts as want of memory.
const MOST_ACTIONS: u64 = 1_000_000_000_000_000_000;

/// Main has finished.
fn is_over(machine: &Machine) -> bool
    ensures { result ≡ is_done (at machine.now.world.rows 0) }
{
    // a table has a row for main
    machine.world.processes() > 0 && matches!(machine.world.state(0), State::Done)
}

/// No process is ready.
fn is_stuck(machine: &Machine) -> bool
    ensures { result ≡ not (some_ready machine.now.world.rows) }
{
    machine.world.ready_count() == 0
}

/// So much was done, or the clock is so far, that no action is counted any more.
fn is_worn_out(machine: &Machine) -> bool
    ensures { result ≡ is_worn_out machine.now }
{
    machine.world.done() >= MOST_ACTIONS || machine.world.now() >= MOST_ACTIONS
}

/// The script gave no ready process.
fn script(picker: &Picker, why: ScriptWhy) -> Ending
    ensures { result ≡ Ending.Script (item_of picker.now) why }
{
    Ending::Script {
        item: picker.item(),
        why,
    }
}

/// The process that is picked to act next, once the machine has settled, or the ending to which the run comes before another action. Of the
/// actions that it may do so many are left. Past 10^18 actions, or as much time, it counts as want of memory.
pub(crate) fn next_actor(
    machine: &mut Machine,
    picker: &mut Picker,
    limit: u64,
    left: u64,
) -> Result<u32, Ending>
    requires { machine.old.world.acting ≡ None }
    ensures pick { IfOk result (λ p. IsPick picker.old picker.new machine.old machine.new p) }
    ensures some { IfOk result (λ p. 0 < left) }
    ensures settled { machine.new ≡ machine_settled machine.old }
    ensures over { IfErr result (λ ending. IsOver limit left picker.old machine.old machine.new ending) }
    ensures written { IfErr result (λ ending. ending ≢ Ending.SinkFailed) }
{
    settle(machine);
    if is_over(machine) {
        return Err(Ending::Finished);
    }
    if is_stuck(machine) {
        return Err(Ending::Deadlock);
    }
    if left == 0 {
        return Err(Ending::Limit(limit));
    }
    if is_worn_out(machine) {
        return Err(Ending::Memory);
    }
    match picker.pick(&machine.world) {
        Pick::Process(p) => Ok(p),
        Pick::Nobody => Err(Ending::Deadlock),
        Pick::NotReady(p) => Err(script(picker, ScriptWhy::NotReady(p))),
        Pick::NoProcess(p) => Err(script(picker, ScriptWhy::NoProcess(p))),
        Pick::ScriptEnd => Err(script(picker, ScriptWhy::Ended)),
    }
}
