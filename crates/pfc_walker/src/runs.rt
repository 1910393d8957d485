//! Runs: actions one after the other, until an ending.
ghost use Rattle.std.specs.Prelude.{◌≡◌, ◌≤◌};
ghost use Rattle.pfc_io.specs.Counts.{Rose};
ghost use Rattle.pfc_values.specs.Outputs.{is_open_line};
ghost use Rattle.pfc_semantics.specs.Programs.{Program};
ghost use Rattle.pfc_semantics.specs.Configurations.{Config};
ghost use Rattle.pfc_semantics.specs.Runs.{run_from};
ghost use Rattle.pfc_activities.specs.Programs.{IsProgram};
ghost use Rattle.pfc_activities.specs.Relation.{Stands};
ghost use Rattle.pfc_walker.specs.Courses.{IsCourse, EndsLine};
ghost use Rattle.pfc_walker.specs.Walks.{Walks};

use crate::Walker;
use crate::output::{hand_over, hand_piece};
use crate::telling::Told;
use crate::turns::turn;
use pfc_activities::{Source, State};
use pfc_io::Sink;
use pfc_sched::Picker;
use pfc_values::Output;
use pfc_world::Ending;
use std::alloc::Global;

impl<'t> Walker<'t> {
    /// Performs actions until an ending, each of the process that is picked. What is told of them is gathered, what they print or the trace:
    /// the sink is handed a piece where 4,096 bytes are held, and the rest before the answer. The ending is that of the run from here on,
    /// of which `limit` actions may be done; or the sink took no more bytes, whatever that ending would have been; or memory was refused,
    /// and then the bytes that are held are dropped.
    pub fn run<O: Sink>(
        &mut self,
        alloc: Global,
        picker: &mut Picker,
        limit: u64,
        told: Told,
        sink: &mut O,
    ) -> Ending
        requires { (g : Program) × (c : Config) × Walks self.old g c }
        ensures run { (g : Program) (c : Config) → Walks self.old g c → IsCourse told g limit (run_from g limit limit picker.old c) c self.new.state result
            (O.written sink.old) (O.written sink.new) }
        ensures line { (g : Program) (c : Config) → Walks self.old g c → EndsLine told (run_from g limit limit picker.old c) result self.new.in_line }
        ensures source { self.new.source.now ≡ self.old.source.now }
        ensures faults { O.faults sink.old ≤ O.faults sink.new }
        ensures failed { result ≡ Ending.SinkFailed → Rose (O.faults sink.old) (O.faults sink.new) }
    {
        run_state(
            alloc,
            self.source,
            &mut self.state,
            &mut self.in_line,
            picker,
            limit,
            told,
            sink,
        )
    }
}

/// The run of a state.
fn run_state<'t, O: Sink>(
    alloc: Global,
    source: &'t Source<'t>,
    state: &mut State<'t>,
    in_line: &mut bool,
    picker: &mut Picker,
    limit: u64,
    told: Told,
    sink: &mut O,
) -> Ending
    requires { (g : Program) × (c : Config) × IsProgram source.now g × Stands source.now state.old c × (in_line.old ≡ is_open_line c.output) }
    ensures run { (g : Program) (c : Config) → IsProgram source.now g → Stands source.now state.old c → in_line.old ≡ is_open_line c.output →
        IsCourse told g limit (run_from g limit limit picker.old c) c state.new result (O.written sink.old) (O.written sink.new) }
    ensures line { (g : Program) (c : Config) → IsProgram source.now g → Stands source.now state.old c → in_line.old ≡ is_open_line c.output →
        EndsLine told (run_from g limit limit picker.old c) result in_line.new }
    ensures faults { O.faults sink.old ≤ O.faults sink.new }
    ensures failed { result ≡ Ending.SinkFailed → Rose (O.faults sink.old) (O.faults sink.new) }
{
    let mut out = Output::new(alloc);
    let mut left = limit;
    loop {
        if let Some(ending) = turn(alloc, source, state, picker, limit, left, told, &mut out) {
            return hand_over(ending, &out, in_line, sink);
        }
        let Ok(()) = hand_piece(&mut out, in_line, sink) else {
            return Ending::SinkFailed;
        };
        left -= 1;
    }
}
