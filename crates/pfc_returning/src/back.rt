//! How a process goes back to where a call came from.
ghost use Rattle.pfc_program.specs.declared.tables.Tables.{Tables};
ghost use Rattle.pfc_store.specs.Views.{value_view};
ghost use Rattle.pfc_waiting.specs.Waiting.{MayEnd};
ghost use Rattle.pfc_returning.specs.Ending.{IsBack, GoesBack};

use pfc_activities::{Activity, Caller, Doing, Done, Hand, State};
use pfc_pending::At;
use pfc_store::Value;
use std::mem;

/// The process is where its innermost activation was called, at this line; an expression there has the value.
fn go_back<'t>(activity: &mut Activity<'t>, value: Value, line: u32)
    ensures { (t : Tables) → IsBack t activity.old activity.new (value_view value) line }
{
    let Some(ended) = activity.activations.pop() else {
        return;
    };
    activity.display = ended.display;
    drop(mem::replace(&mut activity.hand, Hand::Empty));
    activity.line = line;
    match ended.caller {
        Caller::Nobody => {}
        Caller::Remainder(names, pending) => {
            let doing = Doing {
                names,
                line,
                at: At::Rest,
                pending,
            };
            drop(mem::replace(&mut activity.doing, doing));
        }
        Caller::Value(names, before, pending) => {
            let doing = Doing {
                names,
                line: before,
                at: At::Value(value),
                pending,
            };
            drop(mem::replace(&mut activity.doing, doing));
        }
    }
}

/// The process goes back from its innermost activation, which has this number, when it is ready; an expression there has the value. The action
/// was done at this line.
pub(crate) fn go_back_from<'t>(
    state: &mut State<'t>,
    p: u32,
    number: u64,
    value: Value,
    line: u32,
) -> Done
    requires { MayEnd state.old p }
    ensures { GoesBack state.old state.new p number (value_view value) line result }
{
    state.store.remove(number);
    go_back(&mut state.activities[p as usize], value, line);
    state.world.tick();
    Done::Stepped
}
