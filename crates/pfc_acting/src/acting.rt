//! One action of a process.
ghost use Rattle.std.specs.Prelude.{◌≡◌, IfOk, OnErr};
ghost use Rattle.pfc_semantics.specs.Configurations.{Config};
ghost use Rattle.pfc_activities.specs.Relation.{MayAct};
ghost use Rattle.pfc_acting.specs.Acting.{StandsBefore, IsActed};

use crate::advancing::{next, put_back};
use pfc_activities::{Done, Source, State};
use pfc_base::Memory;
use pfc_performing::perform;
use pfc_sched::Picker;
use pfc_values::Output;
use std::alloc::Global;

/// One action of a process that is ready: all that is quiet, and then the action that comes next. What it writes is put behind `out`, and a
/// select that has something to choose among asks the picker. Its only refusal is want of memory, which leaves the process before the same
/// action, and the output and the picker as they were.
pub fn act<'t>(
    alloc: Global,
    source: &'t Source<'t>,
    state: &mut State<'t>,
    p: u32,
    picker: &mut Picker,
    out: &mut Output,
) -> Result<Done, Memory>
    requires { MayAct state.old p }
    ensures ok { IfOk result (λ d. IsActed source.now state.old state.new p picker.old picker.new out.old out.new d) }
    ensures err { OnErr result ((c : Config) → StandsBefore source.now state.old c p → StandsBefore source.now state.new c p) }
    ensures kept { OnErr result (out.new ≡ out.old) }
    ensures unchosen { OnErr result (picker.new ≡ picker.old) }
{
    let deed = next(alloc, source, state, p)?;
    match perform(alloc, source, state, p, deed, picker, out) {
        Ok(done) => Ok(done),
        Err(deed) => {
            put_back(state, p, deed);
            Err(Memory)
        }
    }
}
