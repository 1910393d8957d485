//! The end of a rendezvous.
ghost use Rattle.std.specs.Prelude.{◌≡◌, [], IfOk, OnErr};
ghost use Rattle.pfc_pending.specs.declared.actions.Deed.TheVariants as deed;
ghost use Rattle.pfc_activities.specs.Relation.{MayAct, IsPerformed};

use pfc_activities::{Done, State};
use pfc_base::Memory;
use pfc_pending::At;
use pfc_world::State as Standing;

/// The end of an accept: the caller, who waits in the rendezvous, is ready. It takes no memory; it is refused where that process does not
/// wait, which never comes in a run, and nothing changes then.
pub fn parts<'t>(state: &mut State<'t>, p: u32, caller: u32) -> Result<Done, Memory>
    requires { MayAct state.old p }
    ensures ok { IfOk result (λ d. IsPerformed state.old state.new p (deed.Parts caller) [] d) }
    ensures err { OnErr result (state.new ≡ state.old) }
{
    if caller >= state.world.processes() {
        return Err(Memory);
    }
    let Standing::Waiting(_) = state.world.state(caller) else {
        return Err(Memory);
    };
    state.world.wake(caller);
    Ok(state.go_on(p, At::Rest))
}
