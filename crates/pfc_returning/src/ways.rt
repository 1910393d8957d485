//! To whom the end of a body goes back.
ghost use Rattle.std.specs.Prelude.{◌≡◌, ◌<◌, length};
ghost use Rattle.pfc_program.specs.declared.tables.Tables.{Tables};
ghost use Rattle.pfc_activities.specs.Views.{mark_view, caller_view, activations_view};
ghost use Rattle.pfc_returning.specs.Ways.{way_marked, way_to, way_from, IsWay};

use pfc_activities::{Activation, Caller, Mark, State};

/// To whom the end of a body goes back, with the number of the activation that ends. To nobody, since its process ends; to a statement; to an
/// expression that waits for the result, of a function by the number of its scope; or to a statement outside a monitor or a resource.
#[derive(Clone, Copy, Debug, PartialEq, Eq)]
pub(crate) enum Way {
    Process,
    Statement(u64),
    Value(u64, u32),
    Monitor(u64, u32),
    Resource(u64, u32),
}

/// Where a statement is gone back to from the activation with this number and mark.
fn way_marked(number: u64, mark: Mark) -> Way
    ensures { result ≡ way_marked number (mark_view mark) }
{
    match mark {
        Mark::Plain => Way::Statement(number),
        Mark::Monitor(m) => Way::Monitor(number, m),
        Mark::Resource(r) => Way::Resource(number, r),
    }
}

/// To whom the end of this activation goes back.
fn way_to<'t>(ended: &Activation<'t>) -> Way
    ensures { (t : Tables) → result ≡ way_to ended.now.number ended.now.scope (mark_view ended.now.mark) (caller_view t ended.now.caller) }
{
    match ended.caller {
        Caller::Nobody => Way::Process,
        Caller::Remainder(_, _) => way_marked(ended.number, ended.mark),
        Caller::Value(_, _, _) => Way::Value(ended.number, ended.scope),
    }
}

/// To whom the end of the innermost of these activations goes back.
fn way_from<'t>(activations: &[Activation<'t>]) -> Way
    ensures { (t : Tables) → result ≡ way_from (activations_view t activations.now) }
{
    match activations {
        [.., last] => way_to(last),
        [] => Way::Process,
    }
}

/// To whom the end of the process's innermost body goes back.
pub(crate) fn way_back<'t>(state: &State<'t>, p: u32) -> Way
    requires { p < length state.now.activities.items }
    ensures { IsWay state.now p result }
{
    way_from(&state.activities[p as usize].activations)
}
