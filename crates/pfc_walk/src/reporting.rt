//! The report of a run's end.
ghost use Rattle.std.specs.Prelude.{◌≡◌, ◌≤◌, true, IfOk, IfErr, IsErrOf};
ghost use Rattle.std.specs.Io.KnownBytes.{Appends};
ghost use Rattle.pfc_code.specs.Images.{plain_image};
ghost use Rattle.pfc_io.specs.Counts.{Rose};
ghost use Rattle.pfc_io.specs.Writes.{AppendsFront};
ghost use Rattle.pfc_report.specs.Reports.{HasReport, NamesProcess, NameProcesses};
ghost use Rattle.pfc_tree.specs.trees.Parts.{ProgramTree};
ghost use Rattle.pfc_outcome.specs.Outcomes.{status_of as status_by};
ghost use Rattle.pfc_outcome.specs.Requests.{Settings};
ghost use Rattle.pfc_walk.specs.Running.{IsEnded, labelled_image, report_by};
ghost use Rattle.pfc_walk.specs.Traces.{end_by};

use crate::replies::Stop;
use crate::writing::say;
use pfc_code::{Image, ProcessInfo};
use pfc_io::Sink;
use pfc_report::report;
use pfc_state::{Ending, Standing};
use pfc_walker::{Told, Walker};
use std::alloc::Global;

/// Writes what stands behind what was told of a run: behind its output the report, behind its trace nothing.
pub(crate) fn write_end<O: Sink>(
    alloc: Global,
    told: Told,
    ending: &Ending,
    walker: &Walker<'_>,
    labels: Vec<ProcessInfo>,
    sink: &mut O,
) -> Result<(), Stop>
    requires { HasReport ending.now }
    ensures whole { (tree : ProgramTree) (settings : Settings) → IsEnded told tree settings ending.now walker.now labels.items
        → IfOk result (λ done. Appends (O.written sink.old) (O.written sink.new) (end_by told tree settings)) }
    ensures front { (tree : ProgramTree) (settings : Settings) → IsEnded told tree settings ending.now walker.now labels.items
        → IfErr result (λ stop. AppendsFront (O.written sink.old) (O.written sink.new) (end_by told tree settings)) }
    ensures cut { IsErrOf result Stop.WriteFailed → Rose (O.faults sink.old) (O.faults sink.new) }
    ensures faults { O.faults sink.old ≤ O.faults sink.new }
{
    match told {
        Told::Output => write_report(alloc, ending, walker, labels, sink),
        Told::Trace => Ok(()),
    }
}

/// Writes the report of a run behind its output. A process that has no label, which never comes, counts as want of memory.
fn write_report<O: Sink>(
    alloc: Global,
    ending: &Ending,
    walker: &Walker<'_>,
    labels: Vec<ProcessInfo>,
    sink: &mut O,
) -> Result<(), Stop>
    requires { HasReport ending.now }
    ensures whole { (tree : ProgramTree) (settings : Settings) → IsEnded Told.Output tree settings ending.now walker.now labels.items
        → IfOk result (λ done. Appends (O.written sink.old) (O.written sink.new) (report_by tree settings)) }
    ensures front { (tree : ProgramTree) (settings : Settings) → IsEnded Told.Output tree settings ending.now walker.now labels.items
        → IfErr result (λ stop. AppendsFront (O.written sink.old) (O.written sink.new) (report_by tree settings)) }
    ensures cut { IsErrOf result Stop.WriteFailed → Rose (O.faults sink.old) (O.faults sink.new) }
    ensures faults { O.faults sink.old ≤ O.faults sink.new }
{
    let standings = walker.standings(alloc)?;
    let image = with_labels(alloc, labels);
    if !names_process(&image, ending) || !name_processes(&image, &standings) {
        return Err(Stop::Memory);
    }
    let bytes = report(alloc, ending, &standings, &image, walker.open_line())?;
    say(sink, &bytes)
}

/// A program as far as a report reads it: its processes, with their labels.
pub(crate) fn with_labels(alloc: Global, processes: Vec<ProcessInfo>) -> Image
    ensures { plain_image result ≡ labelled_image processes.items }
{
    Image {
        code: Vec::new(alloc),
        lines: Vec::new(alloc),
        blocks: Vec::new(alloc),
        processes,
        objects: Vec::new(alloc),
        texts: Vec::new(alloc),
        semaphores: 0,
        channels: 0,
        conditions: Vec::new(alloc),
        monitors: 0,
        scans: Vec::new(alloc),
        arms: 0,
    }
}

/// The process of a fault has a label.
fn names_process(image: &Image, ending: &Ending) -> bool
    ensures { result ≡ true → NamesProcess (plain_image image.now) ending.now }
{
    match ending {
        Ending::Fault {
            process,
            line: _,
            fault: _,
        } => (*process as usize) < image.processes.len(),
        Ending::Finished => true,
        Ending::Deadlock => true,
        Ending::Limit(_) => true,
        Ending::Script { item: _, why: _ } => true,
        Ending::SinkFailed => true,
        Ending::Memory => true,
    }
}

/// Each process of the standings has a label.
fn name_processes(image: &Image, standings: &[Standing]) -> bool
    ensures { result ≡ true → NameProcesses (plain_image image.now) standings.now }
{
    for standing in standings {
        if standing.process as usize >= image.processes.len() {
            return false;
        }
    }
    true
}

/// The status of an ending that has a report.
pub(crate) fn status_of(ending: &Ending) -> u8
    requires { HasReport ending.now }
    ensures { result ≡ status_by ending.now }
{
    match ending {
        Ending::Finished => 0,
        Ending::Fault { .. } => 3,
        Ending::Deadlock => 4,
        Ending::Limit(_) => 5,
        Ending::Script { .. } => 10,
        Ending::SinkFailed | Ending::Memory => unreachable!(),
    }
}
