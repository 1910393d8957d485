//! How a process waits that is barred.
ghost use Rattle.std.specs.Prelude.{◌≡◌, ◌<◌, length, set};
ghost use Rattle.pfc_activities.specs.declared.activities.Activity.{Activity};
ghost use Rattle.pfc_activities.specs.Relation.{IsIn, IsKept};
ghost use Rattle.pfc_waiting.specs.Waiting.{MayEnd};
ghost use Rattle.pfc_guarding.specs.Barring.{showing_bar, WaitsBarred};

use pfc_activities::{Done, Hand, State};
use pfc_pending::{At, Bar};

/// The process shows the guard.
fn show_bar<'t>(state: &mut State<'t>, p: u32, bar: Bar<'t>)
    requires { p < length state.old.activities.items }
    ensures activity { (a : Activity) → IsIn state.old.activities.items p a →
        state.new.activities.items ≡ set state.old.activities.items p (showing_bar a bar.entry) }
    ensures count { length state.new.activities.items ≡ length state.old.activities.items }
    ensures kept { IsKept state.old state.new }
    ensures world { state.new.world ≡ state.old.world }
{
    let activity = &mut state.activities[p as usize];
    activity.hand = Hand::Barred(bar);
}

/// The process waits, goes on with what is pending when it is ready, and shows the guard meanwhile; its action was done at the line of its
/// statement.
pub(crate) fn wait_barred<'t>(state: &mut State<'t>, p: u32, bar: Bar<'t>) -> Done
    requires { MayEnd state.old p }
    ensures { WaitsBarred state.old state.new p bar.entry result }
{
    let line = state.line_of(p);
    state.set_at_work(p, At::Rest);
    show_bar(state, p, bar);
    state.end_action(p, line);
    Done::Stepped
}
