//! The top call.
ghost use Rattle.std.specs.Prelude.{◌≡◌, ◌≢◌, ◌⊎◌, List, None, Some, [], IfOk, IfErr, IsSome};
ghost use Rattle.std.specs.Io.KnownBytes.{Appends};
ghost use Rattle.pfc_io.specs.Counts.{Rose};
ghost use Rattle.pfc_io.specs.Files.{File};
ghost use Rattle.pfc_outcome.specs.Asked.{asked_of, texts_of};
ghost use Rattle.pfc_outcome.specs.Loading.{Lacks, long, missing};
ghost use Rattle.pfc_outcome.specs.Options.{options_of};
ghost use Rattle.pfc_outcome.specs.Outcomes.{IsOutcome, IsOutcomeOf, names_by, without_run};
ghost use Rattle.pfc_report.specs.Refusals.{words_refused_text};
ghost use Rattle.pfc_top.specs.Answers.{GivesFront, GivesFrontOfAll, GivesOne, IsAskedLacking, IsSound, IsWritten};
ghost use Rattle.pfc_top.specs.Meanings.{source_meaning};

use crate::answering::answer;
use crate::replies::{Answer, Stop, ended, stopped};
use crate::writing::say;
use pfc_io::{LoadFault, Shelf, Sink};
use pfc_outcome::{Options, load_asked, read_words};
use pfc_report::words_refused;
use std::alloc::Global;

/// The status of refused words.
const WORDS_REFUSED: u8 = 2;

/// The status where the shelf does not give a file.
const LOAD_FAILED: u8 = 6;

/// The status where a file is longer than its length.
const TOO_LONG: u8 = 9;

/// Runs the program that the words ask for, and answers the status, and the session that made the run.
///
/// The words are the name of the command and `[FILE] [--seed N] [--unfair] [--limit N] [--input FILE] [--script FILE] [--list]
/// [--code] [--make N]`, with exactly one of FILE and `--make`. A text has at most 262,144 bytes, an input and a script at most
/// 1,048,576. What is written goes to the sink: the listing and the code text where they are asked for, the output of the run and
/// the report of its ending; or the listing and the line of the text's refusal; or the lines for refused words. The status is
///
/// * 0 where the run finished, 3 where it met a fault, 4 where nobody could go on, and 5 at its limit of actions;
/// * 10 where the script is no list of numbers, or its next number names no ready process while some process is ready;
/// * 1 where the text is refused, and 2 where the words are;
/// * 6 where the shelf does not give a file, and 9 where one is longer; then nothing is written;
/// * 7 where the sink takes no more, and 8 where memory is wanting.
///
/// The session is handed back where the run came to its end: with 0, 3, 4 and 5, and with 10 where there was a run.
pub fn pfc<F: Shelf, O: Sink>(
    alloc: Global,
    words: &[String],
    shelf: &mut F,
    sink: &mut O,
) -> Answer
    // The headline: where the shelf tells its files, no call on shelf or sink failed and memory was not refused.
    ensures headline { (files : List File) → F.told shelf.old ≡ Some files
        → ¬ Rose (F.faults shelf.old) (F.faults shelf.new) → ¬ Rose (O.faults sink.old) (O.faults sink.new) → result.status ≢ 8
        → GivesOne (IsOutcome source_meaning (texts_of words.now) files) result (O.written sink.old) (O.written sink.new) }
    // The same by the status: what is answered, unless a call failed or memory was refused.
    ensures outcome { (files : List File) → F.told shelf.old ≡ Some files → result.status ≢ 6 → result.status ≢ 7 → result.status ≢ 8
        → GivesOne (IsOutcome source_meaning (texts_of words.now) files) result (O.written sink.old) (O.written sink.new) }
    ensures sound { IsSound result.status result.session }

    // Words: status 2 exactly where they are refused, but for a failed write.
    ensures usage { result.status ≡ 2 → options_of (texts_of words.now) ≡ None }
    ensures refused { options_of (texts_of words.now) ≡ None → (result.status ≡ 2) ⊎ (result.status ≡ 7) ⊎ (result.status ≡ 8) }

    // The shelf: status 6 and 9 by its counts, and where it tells its files by what it holds.
    ensures load_failed { result.status ≡ 6 → Rose (F.faults shelf.old) (F.faults shelf.new) }
    ensures missing { IsAskedLacking (F.told shelf.old) (texts_of words.now) missing → (result.status ≡ 6) ⊎ (result.status ≡ 8) }
    ensures found { F.is_steady shelf.old → result.status ≡ 6 → IsAskedLacking (F.told shelf.old) (texts_of words.now) missing }
    ensures too_long { result.status ≡ 9 → Rose (F.longs shelf.old) (F.longs shelf.new) }
    ensures long { result.status ≡ 9 → IsSome (F.told shelf.old) → IsAskedLacking (F.told shelf.old) (texts_of words.now) long }
    ensures not_long { IsAskedLacking (F.told shelf.old) (texts_of words.now) long → (result.status ≡ 9) ⊎ (result.status ≡ 6) ⊎ (result.status ≡ 8) }
    ensures kept { F.told shelf.new ≡ F.told shelf.old }
    ensures unwritten { (result.status ≡ 6) ⊎ (result.status ≡ 9) → Appends (O.written sink.old) (O.written sink.new) [] }

    // The sink: status 7 by its count, with a front of the outcome's bytes written, as with status 8.
    ensures write_failed { result.status ≡ 7 → Rose (O.faults sink.old) (O.faults sink.new) }
    ensures cut { (files : List File) → F.told shelf.old ≡ Some files → result.status ≡ 7
        → GivesFront (IsOutcome source_meaning (texts_of words.now) files) (O.written sink.old) (O.written sink.new) }
    ensures no_memory { (files : List File) → F.told shelf.old ≡ Some files → result.status ≡ 8
        → GivesFrontOfAll (IsOutcome source_meaning (texts_of words.now) files) (O.written sink.old) (O.written sink.new) }
{
    match read_words(alloc, words) {
        Ok(Some(options)) => answer_options(alloc, &options, shelf, sink),
        Ok(None) => ended(refuse_words(sink)),
        Err(_memory) => stopped(Stop::Memory),
    }
}

/// Writes the lines for refused words.
fn refuse_words<O: Sink>(sink: &mut O) -> Result<Answer, Stop>
    ensures written { IsWritten (without_run 2 words_refused_text) result (O.written sink.old) (O.written sink.new) }
    ensures only { IfOk result (λ answer. answer ≡ record { status = 2; session = None }) }
    ensures cut { IfErr result (λ stop. (stop ≡ Stop.WriteFailed) × Rose (O.faults sink.old) (O.faults sink.new)) }
{
    say(sink, words_refused())?;
    Ok(Answer::without_run(WORDS_REFUSED))
}

/// Loads the files that the options ask for, and answers the text.
fn answer_options<F: Shelf, O: Sink>(
    alloc: Global,
    options: &Options<'_>,
    shelf: &mut F,
    sink: &mut O,
) -> Answer
    ensures outcome { (files : List File) → F.told shelf.old ≡ Some files → result.status ≢ 6 → result.status ≢ 7 → result.status ≢ 8
        → GivesOne (IsOutcomeOf source_meaning (asked_of options.now) files) result (O.written sink.old) (O.written sink.new) }
    ensures sound { IsSound result.status result.session }
    ensures other { result.status ≢ 2 }
    ensures load_failed { result.status ≡ 6 → Rose (F.faults shelf.old) (F.faults shelf.new) }
    ensures missing { Lacks (F.told shelf.old) (names_by (asked_of options.now)) missing → (result.status ≡ 6) ⊎ (result.status ≡ 8) }
    ensures found { F.is_steady shelf.old → result.status ≡ 6 → Lacks (F.told shelf.old) (names_by (asked_of options.now)) missing }
    ensures too_long { result.status ≡ 9 → Rose (F.longs shelf.old) (F.longs shelf.new) }
    ensures long { result.status ≡ 9 → IsSome (F.told shelf.old) → Lacks (F.told shelf.old) (names_by (asked_of options.now)) long }
    ensures not_long { Lacks (F.told shelf.old) (names_by (asked_of options.now)) long → (result.status ≡ 9) ⊎ (result.status ≡ 6) ⊎ (result.status ≡ 8) }
    ensures kept { F.told shelf.new ≡ F.told shelf.old }
    ensures unwritten { (result.status ≡ 6) ⊎ (result.status ≡ 9) → Appends (O.written sink.old) (O.written sink.new) [] }
    ensures write_failed { result.status ≡ 7 → Rose (O.faults sink.old) (O.faults sink.new) }
    ensures cut { (files : List File) → F.told shelf.old ≡ Some files → result.status ≡ 7
        → GivesFront (IsOutcomeOf source_meaning (asked_of options.now) files) (O.written sink.old) (O.written sink.new) }
    ensures no_memory { (files : List File) → F.told shelf.old ≡ Some files → result.status ≡ 8
        → GivesFrontOfAll (IsOutcomeOf source_meaning (asked_of options.now) files) (O.written sink.old) (O.written sink.new) }
{
    match load_asked(alloc, options, shelf) {
        Ok(loaded) => ended(answer(alloc, options, &loaded, sink)),
        Err(LoadFault::Failed) => Answer::without_run(LOAD_FAILED),
        Err(LoadFault::TooLong) => Answer::without_run(TOO_LONG),
        Err(LoadFault::Memory) => stopped(Stop::Memory),
    }
}
