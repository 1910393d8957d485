//! The end of an action behind which a process is where it was put.
ghost use Rattle.std.specs.Prelude.{◌<◌, ◌*◌, ◌^◌, length};
ghost use Rattle.pfc_activating.specs.Ending.{EndsAt};

use pfc_activities::{Done, State};

/// The action of the process is done, at this line.
pub fn end_at<'t>(state: &mut State<'t>, p: u32, line: u32) -> Done
    requires within { p < length state.old.activities.items }
    requires done { state.old.world.done < 10 ^ 18 }
    requires moment { state.old.world.moment < 2 * 10 ^ 18 }
    ensures { EndsAt state.old state.new p line result }
{
    state.end_action(p, line);
    Done::Stepped
}
