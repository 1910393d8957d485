//! What is told of an action.
ghost use Rattle.std.specs.Prelude.{◌≡◌, ◌∷◌, [], IfOk, OnOk, OnErr};
ghost use Rattle.pfc_traces.specs.Traces.{trace_text};
ghost use Rattle.pfc_activities.specs.Relation.{MayAct};
ghost use Rattle.pfc_walker.specs.Telling.{IsActTold};

use pfc_acting::act;
use pfc_activities::{Done, Source, State};
use pfc_base::Memory;
use pfc_sched::Picker;
use pfc_values::{Output, Simple};
use std::alloc::Global;

/// What is told of a run.
#[derive(Clone, Copy)]
pub enum Told {
    /// What its actions print.
    Output,
    /// Its trace: the number of the process of each action, each on a line.
    Trace,
}

/// One action of a process that is ready, of which is told behind `out`. Its only refusal is want of memory, which leaves `out` as it was.
pub(crate) fn act_told<'t>(
    alloc: Global,
    source: &'t Source<'t>,
    state: &mut State<'t>,
    p: u32,
    picker: &mut Picker,
    told: Told,
    out: &mut Output,
) -> Result<Done, Memory>
    requires { MayAct state.old p }
    ensures ok { IfOk result (λ done. IsActTold told source.now state.old state.new p picker.old picker.new out.old out.new done) }
    ensures kept { OnErr result (out.new ≡ out.old) }
{
    match told {
        Told::Output => act(alloc, source, state, p, picker, out),
        Told::Trace => act_traced(alloc, source, state, p, picker, out),
    }
}

/// The same with a line of the trace. What the action prints is let go.
fn act_traced<'t>(
    alloc: Global,
    source: &'t Source<'t>,
    state: &mut State<'t>,
    p: u32,
    picker: &mut Picker,
    out: &mut Output,
) -> Result<Done, Memory>
    requires { MayAct state.old p }
    ensures ok { IfOk result (λ done. IsActTold Told.Trace source.now state.old state.new p picker.old picker.new out.old out.new done) }
    ensures kept { OnErr result (out.new ≡ out.old) }
{
    let mut line = Output::new(alloc);
    let done = act(alloc, source, state, p, picker, &mut line)?;
    write_actor(&mut line, p)?;
    let Ok(()) = out.put(line.bytes(), None) else {
        return Err(Memory);
    };
    Ok(done)
}

/// Makes the bytes the line of a trace for the action of process `p`.
fn write_actor(line: &mut Output, p: u32) -> Result<(), Memory>
    ensures { OnOk result (line.new ≡ trace_text (p ∷ [])) }
{
    line.clear();
    let Ok(()) = line.put_value(Simple::Integer, i64::from(p), None) else {
        return Err(Memory);
    };
    let Ok(()) = line.put(b"\n", None) else {
        return Err(Memory);
    };
    Ok(())
}
