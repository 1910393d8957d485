//! Who acts next in a run.
ghost use Rattle.std.specs.Prelude.{◌≡◌, ◌≢◌, ◌+◌, ◌-◌, ◌<◌, ◌*◌, ◌^◌, false, IfOk, IfErr};
ghost use Rattle.pfc_sched.specs.Picks.{item_of};
ghost use Rattle.pfc_world.specs.Tables.{at};
ghost use Rattle.pfc_semantics.specs.Programs.{Program};
ghost use Rattle.pfc_semantics.specs.Configurations.{Config};
ghost use Rattle.pfc_semantics.specs.Runs.{is_done};
ghost use Rattle.pfc_semantics.specs.Time.{settled_config};
ghost use Rattle.pfc_activities.specs.declared.source.Source.{Source};
ghost use Rattle.pfc_activities.specs.Relation.{MayAct, Stands};
ghost use Rattle.pfc_walker.specs.Courses.{IsOver, IsPick};

use pfc_activities::State;
use pfc_sched::{Pick, Picker};
use pfc_settling::settle;
use pfc_world::{Ending, ScriptWhy, Settled, State as Standing};
use std::alloc::Global;

/// How many actions may be done, and how far the clock may go: past that, which never comes, a run counts as want of memory.
const MOST_ACTIONS: u64 = 1_000_000_000_000_000_000;

/// Main has finished.
fn is_over(state: &State) -> bool
    ensures { result ≡ is_done (at state.now.world.rows 0) }
{
    // a table has a row for main
    state.world.processes() > 0 && matches!(state.world.state(0), Standing::Done)
}

/// So much was done, or the clock is so far, that no action is counted any more.
fn is_worn_out(state: &State) -> bool
    ensures done { result ≡ false → state.now.world.done < 10 ^ 18 }
    ensures moment { result ≡ false → state.now.world.moment < 2 * 10 ^ 18 }
{
    state.world.done() >= MOST_ACTIONS || state.world.now() >= MOST_ACTIONS
}

/// The script gave no ready process.
fn script(picker: &Picker, why: ScriptWhy) -> Ending
    ensures { result ≡ Ending.Script (item_of picker.now) why }
{
    Ending::Script {
        item: picker.item(),
        why,
    }
}

/// The process that is picked to act next, once the state has settled, or the ending to which the run comes before another action. Of the
/// actions that it may do so many are left. Past 10^18 actions, or as much time, it counts as want of memory.
pub(crate) fn next_actor(
    alloc: Global,
    state: &mut State<'_>,
    picker: &mut Picker,
    limit: u64,
    left: u64,
) -> Result<u32, Ending>
    requires { (source : Source) × (c : Config) × Stands source state.old c }
    ensures pick { IfOk result (λ p. (source : Source) (g : Program) (c : Config) → Stands source state.old c →
        IsPick g limit (left - 1) picker.old picker.new c (settled_config c) p) }
    ensures stands { IfOk result (λ p. (source : Source) (c : Config) → Stands source state.old c → Stands source state.new (settled_config c)) }
    ensures may { IfOk result (λ p. MayAct state.new p) }
    ensures some { IfOk result (λ p. 0 < left) }
    ensures over { IfErr result (λ ending. (source : Source) (g : Program) (c : Config) → Stands source state.old c →
        IsOver g limit left picker.old c state.new ending) }
    ensures written { IfErr result (λ ending. ending ≢ Ending.SinkFailed) }
{
    let settled = settle(alloc, state);
    if is_over(state) {
        return Err(Ending::Finished);
    }
    if let Settled::NobodyReady = settled {
        return Err(Ending::Deadlock);
    }
    if left == 0 {
        return Err(Ending::Limit(limit));
    }
    if is_worn_out(state) {
        return Err(Ending::Memory);
    }
    match picker.pick(&state.world) {
        Pick::Process(p) => Ok(p),
        Pick::Nobody => Err(Ending::Deadlock),
        Pick::NotReady(p) => Err(script(picker, ScriptWhy::NotReady(p))),
        Pick::NoProcess(p) => Err(script(picker, ScriptWhy::NoProcess(p))),
        Pick::ScriptEnd => Err(script(picker, ScriptWhy::Ended)),
    }
}
