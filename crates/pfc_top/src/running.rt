//! From an image to the bytes of its run.
ghost use Rattle.std.specs.Prelude.{◌≡◌, ◌≤◌, IfOk, IfErr, IsErrOf};
ghost use Rattle.std.specs.Io.KnownBytes.{Appends};
ghost use Rattle.pfc_code.specs.Images.{plain_image};
ghost use Rattle.pfc_io.specs.Counts.{Rose};
ghost use Rattle.pfc_io.specs.Writes.{AppendsFront};
ghost use Rattle.pfc_report.specs.Reports.{HasReport, NamesProcess};
ghost use Rattle.pfc_tree.specs.trees.Parts.{ProgramTree};
ghost use Rattle.pfc_outcome.specs.Outcomes.{ran_with, status_of as status_by};
ghost use Rattle.pfc_outcome.specs.Requests.{Settings};
ghost use Rattle.pfc_top.specs.Answers.{IsAnswerToText, IsWritten};
ghost use Rattle.pfc_top.specs.Compiling.{IsImage};
ghost use Rattle.pfc_top.specs.Meanings.{run_of, source_meaning};
ghost use Rattle.pfc_top.specs.Running.{IsAtEnd, IsBegun, report_by};

use crate::replies::{Answer, Stop};
use crate::writing::say;
use pfc_code::Image;
use pfc_io::Sink;
use pfc_report::report;
use pfc_sched::{Picker, Policy};
use pfc_sessions::Session;
use pfc_source_runs::checked_programs_run;
use pfc_state::Ending;
use std::alloc::Global;

/// Runs a session from its start to its end, with at most `limit` actions, and writes what the program prints and the report
/// of its ending. It hands the session back, which then stands for the end of the source text's run.
pub(crate) fn run<O: Sink>(
    alloc: Global,
    image: &Image,
    session: Session,
    policy: Policy,
    limit: u64,
    sink: &mut O,
) -> Result<Answer, Stop>
    requires { (tree : ProgramTree) × (settings : Settings) × IsBegun tree settings (plain_image image.now) session policy limit }
    ensures written { (tree : ProgramTree) (settings : Settings) → IsBegun tree settings (plain_image image.now) session policy limit
        → IsWritten (ran_with source_meaning tree settings) result (O.written sink.old) (O.written sink.new) }
    ensures sound { IfOk result (λ answer. IsAnswerToText answer.status answer.session) }
    ensures cut { IsErrOf result Stop.WriteFailed → Rose (O.faults sink.old) (O.faults sink.new) }
{
    checked_programs_run();
    let mut session = session;
    let mut picker = Picker::new(policy);
    match session.run(alloc, image, &mut picker, limit, sink) {
        Ending::SinkFailed => Err(Stop::WriteFailed),
        Ending::Memory => Err(Stop::Memory),
        ending => {
            write_report(alloc, &ending, &session, image, sink)?;
            Ok(Answer {
                status: status_of(&ending),
                session: Some(session),
            })
        }
    }
}

/// Writes the report of a run behind its output.
fn write_report<O: Sink>(
    alloc: Global,
    ending: &Ending,
    session: &Session,
    image: &Image,
    sink: &mut O,
) -> Result<(), Stop>
    requires report { HasReport ending.now }
    requires process { NamesProcess (plain_image image.now) ending.now }
    requires end { (tree : ProgramTree) × (settings : Settings) × IsImage tree (plain_image image.now) × IsAtEnd tree settings session.now }
    ensures whole { (tree : ProgramTree) (settings : Settings) → IsImage tree (plain_image image.now) → IsAtEnd tree settings session.now →
        ending.now ≡ (run_of tree settings).ending
        → IfOk result (λ done. Appends (O.written sink.old) (O.written sink.new) (report_by tree settings)) }
    ensures front { (tree : ProgramTree) (settings : Settings) → IsImage tree (plain_image image.now) → IsAtEnd tree settings session.now →
        ending.now ≡ (run_of tree settings).ending
        → IfErr result (λ stop. AppendsFront (O.written sink.old) (O.written sink.new) (report_by tree settings)) }
    ensures cut { IsErrOf result Stop.WriteFailed → Rose (O.faults sink.old) (O.faults sink.new) }
    ensures faults { O.faults sink.old ≤ O.faults sink.new }
{
    let standings = session.standings(alloc)?;
    let bytes = report(alloc, ending, &standings, image, session.open_line())?;
    say(sink, &bytes)
}

/// The status of an ending that has a report.
fn status_of(ending: &Ending) -> u8
    requires { HasReport ending.now }
    ensures { result ≡ status_by ending.now }
{
    match ending {
        Ending::Finished => 0,
        Ending::Fault { .. } => 3,
        Ending::Deadlock => 4,
        Ending::Limit(_) => 5,
        Ending::Script { .. } => 10,
        Ending::SinkFailed | Ending::Memory => unreachable!(),
    }
}
