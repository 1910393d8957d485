//! The answer to a text: its refusal, or its run, behind what is listed of it.
ghost use Rattle.std.specs.Prelude.{◌≡◌, ◌≤◌, ◌++◌, Ok, IfOk, IfErr, IsErrOf, length, if◌then◌else◌, []};
ghost use Rattle.std.specs.Io.KnownBytes.{Appends};
ghost use Rattle.pfc_code.specs.Images.{plain_image};
ghost use Rattle.pfc_code.specs.Printing.{code_text};
ghost use Rattle.pfc_io.specs.Counts.{Rose};
ghost use Rattle.pfc_io.specs.Writes.{AppendsFront};
ghost use Rattle.pfc_report.specs.Listings.{listing_text};
ghost use Rattle.pfc_tree.specs.trees.Parts.{ProgramTree};
ghost use Rattle.pfc_outcome.specs.Loaded.{asks};
ghost use Rattle.pfc_outcome.specs.Outcomes.{IsOutcomeOfText, behind, stopped_at, without_run};
ghost use Rattle.pfc_outcome.specs.Requests.{policy_of};
ghost use Rattle.pfc_top.specs.Answers.{IsAnswerToText, IsWritten, Replies};
ghost use Rattle.pfc_top.specs.Compiling.{IsImage};
ghost use Rattle.pfc_top.specs.Listings.{list_text, IsNoPolicy};
ghost use Rattle.pfc_top.specs.Meanings.{source_meaning};
ghost use Rattle.pfc_top.specs.Running.{program_outcome};

use crate::bytes::are_bytes;
use crate::compiling::{Uncompiled, compile};
use crate::replies::{Answer, Stop};
use crate::running::run;
use crate::writing::say;
use pfc_base::Memory;
use pfc_code::{Image, print_code};
use pfc_io::Sink;
use pfc_outcome::{Loaded, Options, an_outcome_is_one};
use pfc_report::{listing, refusal_line, report};
use pfc_sched::{Policy, ScriptFault, read_script};
use pfc_sessions::Session;
use pfc_source_runs::checked_programs_run;
use pfc_state::{Ending, ScriptWhy};
use std::alloc::Global;

/// The status of a refused text.
const REFUSED: u8 = 1;

/// The status of a script that is no list of numbers.
const SCRIPT_REFUSED: u8 = 10;

/// Answers a text of at most 262,144 bytes: runs its program, or writes the line of its refusal.
pub(crate) fn answer<O: Sink>(
    alloc: Global,
    options: &Options<'_>,
    loaded: &Loaded,
    sink: &mut O,
) -> Result<Answer, Stop>
    requires { length loaded.now.text ≤ 262144 }
    ensures replies { Replies (IsOutcomeOfText source_meaning loaded.now.text (asks options.now loaded.now)) result (O.written sink.old) (O.written sink.new) }
    ensures sound { IfOk result (λ answer. IsAnswerToText answer.status answer.session) }
    ensures cut { IsErrOf result Stop.WriteFailed → Rose (O.faults sink.old) (O.faults sink.new) }
{
    an_outcome_is_one();
    let text = loaded.text.bytes();
    match compile(alloc, text) {
        Ok(image) => answer_image(alloc, text, &image, options, loaded, sink),
        Err(Uncompiled::Refused(refusal)) => {
            let line = refusal_line(alloc, &refusal)?;
            refuse(alloc, text, options.list, &line, sink)
        }
        Err(Uncompiled::Memory) => Err(Stop::Memory),
    }
}

/// Writes the line of a refused text, behind the listing where that is asked for.
fn refuse<O: Sink>(
    alloc: Global,
    text: &[u8],
    list: bool,
    line: &[u8],
    sink: &mut O,
) -> Result<Answer, Stop>
    ensures written { IsWritten (behind (if list then listing_text text.now else []) (without_run 1 line.now)) result
        (O.written sink.old) (O.written sink.new) }
    ensures sound { IfOk result (λ answer. IsAnswerToText answer.status answer.session) }
    ensures cut { IsErrOf result Stop.WriteFailed → Rose (O.faults sink.old) (O.faults sink.new) }
{
    let listing = listed(alloc, text, list)?;
    say(sink, &listing)?;
    say(sink, line)?;
    Ok(Answer::without_run(REFUSED))
}

/// Runs the program of an image, or writes the line of a script that is no list of numbers, behind what is listed.
fn answer_image<O: Sink>(
    alloc: Global,
    text: &[u8],
    image: &Image,
    options: &Options<'_>,
    loaded: &Loaded,
    sink: &mut O,
) -> Result<Answer, Stop>
    requires { (tree : ProgramTree) × IsImage tree (plain_image image.now) }
    ensures written { (tree : ProgramTree) → IsImage tree (plain_image image.now)
        → IsWritten (program_outcome text.now tree (asks options.now loaded.now)) result (O.written sink.old) (O.written sink.new) }
    ensures sound { IfOk result (λ answer. IsAnswerToText answer.status answer.session) }
    ensures cut { IsErrOf result Stop.WriteFailed → Rose (O.faults sink.old) (O.faults sink.new) }
{
    checked_programs_run();
    match policy(alloc, options, loaded) {
        Ok(policy) => {
            let input = loaded.input.bytes();
            are_bytes(input);
            let session = Session::start(alloc, image, input, options.seed)?;
            list(alloc, text, image, options, sink)?;
            run(alloc, image, session, policy, options.limit, sink)
        }
        Err(ScriptFault::NotANumber { item }) => stop_at(alloc, text, image, options, item, sink),
        Err(ScriptFault::Memory) => Err(Stop::Memory),
    }
}

/// Who picks: the script where there is one, else what the words ask for.
fn policy(alloc: Global, options: &Options<'_>, loaded: &Loaded) -> Result<Policy, ScriptFault>
    ensures picks { IfOk result (λ policy. policy_of (asks options.now loaded.now) ≡ Ok policy) }
    ensures none { IfErr result (λ fault. IsNoPolicy (asks options.now loaded.now) fault) }
{
    if options.script.is_some() {
        return Ok(Policy::Script(read_script(alloc, loaded.script.bytes())?));
    }
    if options.unfair {
        return Ok(Policy::Unfair);
    }
    Ok(Policy::Fair { seed: options.seed })
}

/// Writes the line of a script whose item of this number is no number, behind what is listed.
fn stop_at<O: Sink>(
    alloc: Global,
    text: &[u8],
    image: &Image,
    options: &Options<'_>,
    item: u64,
    sink: &mut O,
) -> Result<Answer, Stop>
    requires { (tree : ProgramTree) × IsImage tree (plain_image image.now) }
    ensures written { (tree : ProgramTree) → IsImage tree (plain_image image.now)
        → IsWritten (behind (list_text options.now text.now (plain_image image.now)) (stopped_at source_meaning tree item)) result
        (O.written sink.old) (O.written sink.new) }
    ensures sound { IfOk result (λ answer. IsAnswerToText answer.status answer.session) }
    ensures cut { IsErrOf result Stop.WriteFailed → Rose (O.faults sink.old) (O.faults sink.new) }
{
    let stopped = Ending::Script {
        item,
        why: ScriptWhy::NotANumber,
    };
    let line = report(alloc, &stopped, &[], image, false)?;
    list(alloc, text, image, options, sink)?;
    say(sink, &line)?;
    Ok(Answer::without_run(SCRIPT_REFUSED))
}

/// Writes the listing and the code text, as far as they are asked for. Both are made before the first is written.
fn list<O: Sink>(
    alloc: Global,
    text: &[u8],
    image: &Image,
    options: &Options<'_>,
    sink: &mut O,
) -> Result<(), Stop>
    requires { length image.now.lines.items ≡ length image.now.code.items }
    ensures whole { IfOk result (λ done. Appends (O.written sink.old) (O.written sink.new) (list_text options.now text.now (plain_image image.now))) }
    ensures front { IfErr result (λ stop. AppendsFront (O.written sink.old) (O.written sink.new) (list_text options.now text.now (plain_image image.now))) }
    ensures cut { IsErrOf result Stop.WriteFailed → Rose (O.faults sink.old) (O.faults sink.new) }
    ensures faults { O.faults sink.old ≤ O.faults sink.new }
{
    let listing = listed(alloc, text, options.list)?;
    let code = coded(alloc, image, options.code)?;
    say(sink, &listing)?;
    say(sink, &code)
}

/// The listing of the text, where it is asked for.
fn listed(alloc: Global, text: &[u8], list: bool) -> Result<Vec<u8>, Memory>
    ensures { IfOk result (λ bytes. bytes.items ≡ (if list then listing_text text.now else [])) }
{
    if list {
        return listing(alloc, text);
    }
    Ok(Vec::new(alloc))
}

/// The code text, where it is asked for.
fn coded(alloc: Global, image: &Image, code: bool) -> Result<Vec<u8>, Memory>
    requires { length image.now.lines.items ≡ length image.now.code.items }
    ensures { IfOk result (λ bytes. bytes.items ≡ (if code then code_text (plain_image image.now) else [])) }
{
    if code {
        return print_code(alloc, image);
    }
    Ok(Vec::new(alloc))
}
