//! The top call.
ghost use Rattle.std.specs.Prelude.{◌≡◌, ◌≢◌, ◌⊎◌, ◌≤◌, List, None, Some, [], false, IfOk, IfErr, IsSome};
ghost use Rattle.std.specs.Io.KnownBytes.{Appends};
ghost use Rattle.pfc_io.specs.Counts.{Rose};
ghost use Rattle.pfc_io.specs.Files.{File};
ghost use Rattle.pfc_outcome.specs.Asked.{asked_of, texts_of};
ghost use Rattle.pfc_outcome.specs.Loading.{Lacks, long, missing};
ghost use Rattle.pfc_outcome.specs.Outcomes.{names_by, without_run};
ghost use Rattle.pfc_outcome.specs.WalkOptions.{most_watched, walk_options_of};
ghost use Rattle.pfc_walk.specs.Answers.{GivesFront, GivesFrontOfAll, GivesOne, IsAskedLacking, IsStatus, IsWritten};
ghost use Rattle.pfc_walk.specs.Meanings.{whole_meaning};
ghost use Rattle.pfc_walk.specs.Traces.{IsToldOf};
ghost use Rattle.pfc_walk.specs.Words.{IsWalkOutcome, refused_text};

use crate::answering::answer;
use crate::replies::{Stop, ended, stopped};
use crate::writing::say;
use pfc_io::{LoadFault, Shelf, Sink};
use pfc_outcome::{Options, Shown, load_asked, read_walk_words};
use std::alloc::Global;

/// The status of refused words.
const WORDS_REFUSED: u8 = 2;

/// The status where the shelf does not give a file.
const LOAD_FAILED: u8 = 6;

/// The status where a file is longer than its length.
const TOO_LONG: u8 = 9;

/// The line for refused words.
const REFUSED_LINE: &[u8] = b"-- words refused\n";

/// Runs the program that the words ask for by rewriting its text, and answers the status.
///
/// The words are the name of the command and `FILE [--seed N] [--unfair] [--limit N] [--input FILE] [--script FILE] [--list] [--trace]`, or
/// with `--races` in place of `--trace`. A text has at most 262,144 bytes, an input and a script at most 1,048,576. What is written goes to the
/// sink: the listing where it is asked for, the output of the run and the report of its ending, or in place of these two the trace of the run
/// where that is asked for, or behind these two the lines of its races; or the listing and the line of the text's refusal; or the line for
/// refused words. A run whose races are asked for has at most 2,000 actions. The status is
///
/// * 0 where the run finished, 3 where it met a fault, 4 where nobody could go on, and 5 at its limit of actions;
/// * 10 where the script is no list of numbers, or its next number names no ready process while some process is ready;
/// * 1 where the text is refused, at its first fault or as a program of more than 200,000 instructions, and 2 where the words are;
/// * 6 where the shelf does not give a file, and 9 where one is longer; then nothing is written;
/// * 7 where the sink takes no more, and 8 where memory is wanting.
pub fn walk<F: Shelf, O: Sink>(alloc: Global, words: &[String], shelf: &mut F, sink: &mut O) -> u8
    // The headline: where the shelf tells its files, no call on shelf or sink failed and memory was not refused.
    ensures headline { (files : List File) → F.told shelf.old ≡ Some files
        → ¬ Rose (F.faults shelf.old) (F.faults shelf.new) → ¬ Rose (O.faults sink.old) (O.faults sink.new) → result ≢ 8
        → GivesOne (IsWalkOutcome whole_meaning (texts_of words.now) files) result (O.written sink.old) (O.written sink.new) }
    // The same by the status: what is answered, unless a call failed or memory was refused.
    ensures outcome { (files : List File) → F.told shelf.old ≡ Some files → result ≢ 6 → result ≢ 7 → result ≢ 8
        → GivesOne (IsWalkOutcome whole_meaning (texts_of words.now) files) result (O.written sink.old) (O.written sink.new) }
    ensures sound { IsStatus result }

    // Words: status 2 exactly where they are refused, but for a failed write.
    ensures usage { result ≡ 2 → walk_options_of (texts_of words.now) ≡ None }
    ensures refused { walk_options_of (texts_of words.now) ≡ None → (result ≡ 2) ⊎ (result ≡ 7) ⊎ (result ≡ 8) }

    // The shelf: status 6 and 9 by its counts, and where it tells its files by what it holds.
    ensures load_failed { result ≡ 6 → Rose (F.faults shelf.old) (F.faults shelf.new) }
    ensures missing { IsAskedLacking (F.told shelf.old) (texts_of words.now) missing → (result ≡ 6) ⊎ (result ≡ 8) }
    ensures found { F.is_steady shelf.old → result ≡ 6 → IsAskedLacking (F.told shelf.old) (texts_of words.now) missing }
    ensures too_long { result ≡ 9 → Rose (F.longs shelf.old) (F.longs shelf.new) }
    ensures long { result ≡ 9 → IsSome (F.told shelf.old) → IsAskedLacking (F.told shelf.old) (texts_of words.now) long }
    ensures not_long { IsAskedLacking (F.told shelf.old) (texts_of words.now) long → (result ≡ 9) ⊎ (result ≡ 6) ⊎ (result ≡ 8) }
    ensures kept { F.told shelf.new ≡ F.told shelf.old }
    ensures unwritten { (result ≡ 6) ⊎ (result ≡ 9) → Appends (O.written sink.old) (O.written sink.new) [] }

    // The sink: status 7 by its count, with a front of the outcome's bytes written, as with status 8.
    ensures write_failed { result ≡ 7 → Rose (O.faults sink.old) (O.faults sink.new) }
    ensures cut { (files : List File) → F.told shelf.old ≡ Some files → result ≡ 7
        → GivesFront (IsWalkOutcome whole_meaning (texts_of words.now) files) (O.written sink.old) (O.written sink.new) }
    ensures no_memory { (files : List File) → F.told shelf.old ≡ Some files → result ≡ 8
        → GivesFrontOfAll (IsWalkOutcome whole_meaning (texts_of words.now) files) (O.written sink.old) (O.written sink.new) }
{
    match read_walk_words(alloc, words) {
        Ok(Some(asked)) => { answer_options(alloc, &asked.options, asked.shown, shelf, sink) }
        Ok(None) => ended(refuse_words(sink)),
        Err(_memory) => stopped(Stop::Memory),
    }
}

/// Writes the line for refused words.
fn refuse_words<O: Sink>(sink: &mut O) -> Result<u8, Stop>
    ensures written { IsWritten (without_run 2 refused_text) result (O.written sink.old) (O.written sink.new) }
    ensures only { IfOk result (λ status. status ≡ 2) }
    ensures cut { IfErr result (λ stop. (stop ≡ Stop.WriteFailed) × Rose (O.faults sink.old) (O.faults sink.new)) }
{
    say(sink, REFUSED_LINE)?;
    Ok(WORDS_REFUSED)
}

/// Loads the files that the options ask for, and answers the text.
fn answer_options<F: Shelf, O: Sink>(
    alloc: Global,
    options: &Options<'_>,
    shown: Shown,
    shelf: &mut F,
    sink: &mut O,
) -> u8
    requires codeless { options.now.code ≡ false }
    requires few { shown ≡ Shown.Races → options.now.limit ≤ most_watched }
    ensures outcome { (files : List File) → F.told shelf.old ≡ Some files → result ≢ 6 → result ≢ 7 → result ≢ 8
        → GivesOne (IsToldOf shown whole_meaning (asked_of options.now) files) result (O.written sink.old) (O.written sink.new) }
    ensures sound { IsStatus result }
    ensures other { result ≢ 2 }
    ensures load_failed { result ≡ 6 → Rose (F.faults shelf.old) (F.faults shelf.new) }
    ensures missing { Lacks (F.told shelf.old) (names_by (asked_of options.now)) missing → (result ≡ 6) ⊎ (result ≡ 8) }
    ensures found { F.is_steady shelf.old → result ≡ 6 → Lacks (F.told shelf.old) (names_by (asked_of options.now)) missing }
    ensures too_long { result ≡ 9 → Rose (F.longs shelf.old) (F.longs shelf.new) }
    ensures long { result ≡ 9 → IsSome (F.told shelf.old) → Lacks (F.told shelf.old) (names_by (asked_of options.now)) long }
    ensures not_long { Lacks (F.told shelf.old) (names_by (asked_of options.now)) long → (result ≡ 9) ⊎ (result ≡ 6) ⊎ (result ≡ 8) }
    ensures kept { F.told shelf.new ≡ F.told shelf.old }
    ensures unwritten { (result ≡ 6) ⊎ (result ≡ 9) → Appends (O.written sink.old) (O.written sink.new) [] }
    ensures write_failed { result ≡ 7 → Rose (O.faults sink.old) (O.faults sink.new) }
    ensures cut { (files : List File) → F.told shelf.old ≡ Some files → result ≡ 7
        → GivesFront (IsToldOf shown whole_meaning (asked_of options.now) files) (O.written sink.old) (O.written sink.new) }
    ensures no_memory { (files : List File) → F.told shelf.old ≡ Some files → result ≡ 8
        → GivesFrontOfAll (IsToldOf shown whole_meaning (asked_of options.now) files) (O.written sink.old) (O.written sink.new) }
{
    match load_asked(alloc, options, shelf) {
        Ok(loaded) => ended(answer(alloc, options, &loaded, shown, sink)),
        Err(LoadFault::Failed) => LOAD_FAILED,
        Err(LoadFault::TooLong) => TOO_LONG,
        Err(LoadFault::Memory) => stopped(Stop::Memory),
    }
}
