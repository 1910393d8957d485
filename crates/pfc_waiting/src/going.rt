//! How a process goes on that perhaps waits.
ghost use Rattle.pfc_waiting.specs.Waiting.{MayEnd, GoesOnWhenReady};

use pfc_activities::{Done, State};
use pfc_pending::At;

/// The process goes on with this at hand when it is ready, and shows nothing; its action was done at the line of its statement.
pub fn go_on_when_ready<'t>(state: &mut State<'t>, p: u32, at: At<'t>) -> Done
    requires { MayEnd state.old p }
    ensures { GoesOnWhenReady state.old state.new p at.entry result }
{
    let line = state.line_of(p);
    state.set_at_work(p, at);
    state.end_action(p, line);
    Done::Stepped
}
