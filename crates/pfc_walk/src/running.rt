//! From a checked tree to the bytes of its run.
ghost use Rattle.std.specs.Prelude.{◌≡◌, ◌≤◌, IfOk, IsErrOf};
ghost use Rattle.pfc_io.specs.Counts.{Rose};
ghost use Rattle.pfc_tree.specs.trees.Parts.{ProgramTree};
ghost use Rattle.pfc_tree.specs.views.Parts.{tree_view};
ghost use Rattle.pfc_beginning.specs.Beginnings.{program_with};
ghost use Rattle.pfc_semantics.specs.Programs.{program_of};
ghost use Rattle.pfc_store.specs.Views.{values_view};
ghost use Rattle.pfc_outcome.specs.Loaded.{asks};
ghost use Rattle.pfc_outcome.specs.Outcomes.{behind};
ghost use Rattle.pfc_outcome.specs.Requests.{Settings, settings_of};
ghost use Rattle.pfc_walk.specs.Answers.{IsAnswerToText, IsWritten};
ghost use Rattle.pfc_walk.specs.Running.{IsBegun};
ghost use Rattle.pfc_walk.specs.Traces.{run_told};

use crate::reading::Sound;
use crate::replies::Stop;
use crate::reporting::{status_of, write_end};
use crate::writing::say;
use pfc_activities::Source;
use pfc_base::Memory;
use pfc_code::ProcessInfo;
use pfc_io::Sink;
use pfc_labels::processes;
use pfc_outcome::{Loaded, Options};
use pfc_program::Program;
use pfc_run_laws::output_only_grows;
use pfc_sched::{Picker, Policy};
use pfc_state::Ending;
use pfc_store::{Value, main_variables};
use pfc_walker::{Told, Walker};
use std::alloc::Global;

/// A program as it is run, and the first values of main's variables.
#[derive(Drop)]
pub(crate) struct Made<'t> {
    pub(crate) source: Source<'t>,
    pub(crate) variables: Vec<Value>,
}

/// Runs a checked program from its start to its end under a policy, and writes what the program prints and the report of its ending, or the
/// trace of its run, behind a listing. All that the run begins with is made before the listing is written.
pub(crate) fn run<O: Sink>(
    alloc: Global,
    sound: &Sound,
    options: &Options<'_>,
    loaded: &Loaded,
    policy: Policy,
    told: Told,
    listing: &[u8],
    sink: &mut O,
) -> Result<u8, Stop>
    ensures written { IsWritten (behind listing.now (run_told told (tree_view sound.now.checked.0) (settings_of (asks options.now loaded.now) policy))) result
        (O.written sink.old) (O.written sink.new) }
    ensures sound { IfOk result (λ status. IsAnswerToText status) }
    ensures cut { IsErrOf result Stop.WriteFailed → Rose (O.faults sink.old) (O.faults sink.new) }
    ensures faults { O.faults sink.old ≤ O.faults sink.new }
{
    match make_program(alloc, sound) {
        Ok(Made { source, variables }) => run_source(
            alloc, &source, variables, sound, options, loaded, policy, told, listing, sink,
        ),
        Err(Memory) => Err(Stop::Memory),
    }
}

/// The program of a checked tree.
pub(crate) fn make_program<'t>(alloc: Global, sound: &'t Sound) -> Result<Made<'t>, Memory>
    ensures { IfOk result (λ made. program_with made.source (values_view made.variables.items) ≡ program_of (tree_view sound.entry.now.checked.0)) }
{
    let program = Program::new(alloc, &sound.checked)?;
    let (variables, objects) = main_variables(alloc, program.tables.types, program.tables.scopes)?;
    Ok(Made {
        source: Source { program, objects },
        variables,
    })
}

/// Runs a program, as `run` does.
fn run_source<O: Sink>(
    alloc: Global,
    source: &Source<'_>,
    variables: Vec<Value>,
    sound: &Sound,
    options: &Options<'_>,
    loaded: &Loaded,
    policy: Policy,
    told: Told,
    listing: &[u8],
    sink: &mut O,
) -> Result<u8, Stop>
    requires { program_with source.now (values_view variables.items) ≡ program_of (tree_view sound.now.checked.0) }
    ensures written { IsWritten (behind listing.now (run_told told (tree_view sound.now.checked.0) (settings_of (asks options.now loaded.now) policy))) result
        (O.written sink.old) (O.written sink.new) }
    ensures sound { IfOk result (λ status. IsAnswerToText status) }
    ensures cut { IsErrOf result Stop.WriteFailed → Rose (O.faults sink.old) (O.faults sink.new) }
    ensures faults { O.faults sink.old ≤ O.faults sink.new }
{
    let labels = processes(
        alloc,
        &source.program,
        &sound.checked.tree().name.0,
        &sound.tokens,
    )?;
    let walker = Walker::start(alloc, source, variables, loaded.input.bytes(), options.seed)?;
    say(sink, listing)?;
    walk_on(alloc, walker, labels, policy, options.limit, told, sink)
}

/// Runs a walker from its start to its end, with at most `limit` actions, and writes what the program prints and the report of its ending, or
/// the trace of its run.
fn walk_on<O: Sink>(
    alloc: Global,
    walker: Walker<'_>,
    labels: Vec<ProcessInfo>,
    policy: Policy,
    limit: u64,
    told: Told,
    sink: &mut O,
) -> Result<u8, Stop>
    requires { (tree : ProgramTree) × (settings : Settings) × IsBegun tree settings walker labels.items policy limit }
    ensures written { (tree : ProgramTree) (settings : Settings) → IsBegun tree settings walker.entry labels.items policy limit
        → IsWritten (run_told told tree settings) result (O.written sink.old) (O.written sink.new) }
    ensures sound { IfOk result (λ status. IsAnswerToText status) }
    ensures cut { IsErrOf result Stop.WriteFailed → Rose (O.faults sink.old) (O.faults sink.new) }
    ensures faults { O.faults sink.old ≤ O.faults sink.new }
{
    output_only_grows();
    let mut walker = walker;
    let mut picker = Picker::new(policy);
    match walker.run(alloc, &mut picker, limit, told, sink) {
        Ending::SinkFailed => Err(Stop::WriteFailed),
        Ending::Memory => Err(Stop::Memory),
        ending => {
            write_end(alloc, told, &ending, &walker, labels, sink)?;
            Ok(status_of(&ending))
        }
    }
}
