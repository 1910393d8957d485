//! The answer to a text: its refusal, or its run, behind what is listed of it.
ghost use Rattle.std.specs.Prelude.{◌≡◌, ◌≤◌, Ok, IfOk, IfErr, IsErrOf, length, if◌then◌else◌, [], false};
ghost use Rattle.std.specs.Io.KnownBytes.{Appends};
ghost use Rattle.pfc_io.specs.Counts.{Rose};
ghost use Rattle.pfc_io.specs.Writes.{AppendsFront};
ghost use Rattle.pfc_report.specs.Listings.{listing_text};
ghost use Rattle.pfc_tree.specs.trees.Parts.{ProgramTree};
ghost use Rattle.pfc_tree.specs.views.Parts.{tree_view};
ghost use Rattle.pfc_outcome.specs.Loaded.{asks};
ghost use Rattle.pfc_outcome.specs.Outcomes.{behind, stopped_at, without_run};
ghost use Rattle.pfc_outcome.specs.Requests.{policy_of, settings_of};
ghost use Rattle.pfc_outcome.specs.WalkOptions.{most_watched};
ghost use Rattle.pfc_sched.specs.declared.picking.Policy.{Policy as Picks};
ghost use Rattle.pfc_walk.specs.Answers.{IsAnswerToText, IsWritten, Replies};
ghost use Rattle.pfc_walk.specs.Reading.{IsNoPolicy};
ghost use Rattle.pfc_walk.specs.Traces.{IsToldOfText, program_shown, races_by, races_shown, run_shown, told_in};
ghost use Rattle.pfc_walk.specs.Meanings.{whole_meaning};

use crate::racing::lines_of_races;
use crate::reading::{Sound, Unread, read};
use crate::replies::Stop;
use crate::reporting::with_labels;
use crate::running::run;
use crate::writing::say;
use pfc_base::Memory;
use pfc_io::Sink;
use pfc_outcome::{Loaded, Options, Shown, an_outcome_is_one};
use pfc_report::{listing, refusal_line, report};
use pfc_sched::{Policy, ScriptFault, read_script};
use pfc_state::{Ending, ScriptWhy};
use pfc_walker::Told;
use std::alloc::Global;

/// The status of a refused text.
const REFUSED: u8 = 1;

/// The status of a script that is no list of numbers.
const SCRIPT_REFUSED: u8 = 10;

/// Answers a text of at most 262,144 bytes: runs its program, or writes the line of its refusal. No code text may be asked for.
pub(crate) fn answer<O: Sink>(
    alloc: Global,
    options: &Options<'_>,
    loaded: &Loaded,
    shown: Shown,
    sink: &mut O,
) -> Result<u8, Stop>
    requires short { length loaded.now.text ≤ 262144 }
    requires codeless { options.now.code ≡ false }
    requires few { shown ≡ Shown.Races → options.now.limit ≤ most_watched }
    ensures replies { Replies (IsToldOfText shown whole_meaning loaded.now.text (asks options.now loaded.now)) result
        (O.written sink.old) (O.written sink.new) }
    ensures sound { IfOk result (λ status. IsAnswerToText status) }
    ensures cut { IsErrOf result Stop.WriteFailed → Rose (O.faults sink.old) (O.faults sink.new) }
{
    an_outcome_is_one();
    let text = loaded.text.bytes();
    let listing = listed(alloc, text, options.list)?;
    match read(alloc, text) {
        Ok(sound) => answer_sound(alloc, &sound, options, loaded, shown, &listing, sink),
        Err(Unread::Refused(refusal)) => {
            let line = refusal_line(alloc, &refusal)?;
            refuse(&listing, &line, REFUSED, sink)
        }
        Err(Unread::Memory) => Err(Stop::Memory),
    }
}

/// The listing of the text, where it is asked for.
fn listed(alloc: Global, text: &[u8], list: bool) -> Result<Vec<u8>, Memory>
    ensures { IfOk result (λ bytes. bytes.items ≡ (if list then listing_text text.now else [])) }
{
    if list {
        return listing(alloc, text);
    }
    Ok(Vec::new(alloc))
}

/// Writes the line that stands for a run, behind a listing, and answers the status.
fn refuse<O: Sink>(listing: &[u8], line: &[u8], status: u8, sink: &mut O) -> Result<u8, Stop>
    requires { IsAnswerToText status }
    ensures written { IsWritten (behind listing.now (without_run status line.now)) result (O.written sink.old) (O.written sink.new) }
    ensures sound { IfOk result (λ status. IsAnswerToText status) }
    ensures cut { IsErrOf result Stop.WriteFailed → Rose (O.faults sink.old) (O.faults sink.new) }
{
    say(sink, listing)?;
    say(sink, line)?;
    Ok(status)
}

/// Runs a checked program, or writes the line of a script that is no list of numbers, behind a listing.
fn answer_sound<O: Sink>(
    alloc: Global,
    sound: &Sound,
    options: &Options<'_>,
    loaded: &Loaded,
    shown: Shown,
    listing: &[u8],
    sink: &mut O,
) -> Result<u8, Stop>
    requires { shown ≡ Shown.Races → options.now.limit ≤ most_watched }
    ensures written { IsWritten (program_shown shown listing.now (tree_view sound.now.checked.0) (asks options.now loaded.now)) result
        (O.written sink.old) (O.written sink.new) }
    ensures sound { IfOk result (λ status. IsAnswerToText status) }
    ensures cut { IsErrOf result Stop.WriteFailed → Rose (O.faults sink.old) (O.faults sink.new) }
{
    match policy(alloc, options, loaded) {
        Ok(policy) => run_shown(alloc, sound, options, loaded, policy, shown, listing, sink),
        Err(ScriptFault::NotANumber { item }) => {
            let line = script_line(alloc, item)?;
            refuse(listing, &line, SCRIPT_REFUSED, sink)
        }
        Err(ScriptFault::Memory) => Err(Stop::Memory),
    }
}

/// Runs a checked program, and writes what is shown of its run, behind a listing.
fn run_shown<O: Sink>(
    alloc: Global,
    sound: &Sound,
    options: &Options<'_>,
    loaded: &Loaded,
    policy: Policy,
    shown: Shown,
    listing: &[u8],
    sink: &mut O,
) -> Result<u8, Stop>
    requires policy { policy_of (asks options.now loaded.now) ≡ Ok policy }
    requires few { shown ≡ Shown.Races → options.now.limit ≤ most_watched }
    ensures written { IsWritten (behind listing.now (run_shown shown (tree_view sound.now.checked.0) (settings_of (asks options.now loaded.now) policy))) result
        (O.written sink.old) (O.written sink.new) }
    ensures sound { IfOk result (λ status. IsAnswerToText status) }
    ensures cut { IsErrOf result Stop.WriteFailed → Rose (O.faults sink.old) (O.faults sink.new) }
{
    let told = told_in(shown);
    let status = run(alloc, sound, options, loaded, policy, told, listing, sink)?;
    tell_races(alloc, sound, options, loaded, shown, sink)?;
    Ok(status)
}

/// What is told of the actions of the run.
fn told_in(shown: Shown) -> Told
    ensures { result ≡ told_in shown }
{
    match shown {
        Shown::Output | Shown::Races => Told::Output,
        Shown::Trace => Told::Trace,
    }
}

/// Writes the lines of the races behind a run, where they are shown.
fn tell_races<O: Sink>(
    alloc: Global,
    sound: &Sound,
    options: &Options<'_>,
    loaded: &Loaded,
    shown: Shown,
    sink: &mut O,
) -> Result<(), Stop>
    requires { shown ≡ Shown.Races → options.now.limit ≤ most_watched }
    ensures whole { (policy : Picks) → policy_of (asks options.now loaded.now) ≡ Ok policy
        → IfOk result (λ done. Appends (O.written sink.old) (O.written sink.new) (races_shown shown (tree_view sound.now.checked.0)
        (settings_of (asks options.now loaded.now) policy))) }
    ensures front { (policy : Picks) → policy_of (asks options.now loaded.now) ≡ Ok policy
        → IfErr result (λ stop. AppendsFront (O.written sink.old) (O.written sink.new) (races_shown shown (tree_view sound.now.checked.0)
        (settings_of (asks options.now loaded.now) policy))) }
    ensures cut { IsErrOf result Stop.WriteFailed → Rose (O.faults sink.old) (O.faults sink.new) }
{
    if let Shown::Races = shown {
        return say_races(alloc, sound, options, loaded, sink);
    }
    Ok(())
}

/// Writes the lines of the races behind a run. A script that is no list of numbers, which never ran, counts as want of memory.
fn say_races<O: Sink>(
    alloc: Global,
    sound: &Sound,
    options: &Options<'_>,
    loaded: &Loaded,
    sink: &mut O,
) -> Result<(), Stop>
    requires { options.now.limit ≤ most_watched }
    ensures whole { (policy : Picks) → policy_of (asks options.now loaded.now) ≡ Ok policy
        → IfOk result (λ done. Appends (O.written sink.old) (O.written sink.new) (races_by (tree_view sound.now.checked.0)
        (settings_of (asks options.now loaded.now) policy))) }
    ensures front { (policy : Picks) → policy_of (asks options.now loaded.now) ≡ Ok policy
        → IfErr result (λ stop. AppendsFront (O.written sink.old) (O.written sink.new) (races_by (tree_view sound.now.checked.0)
        (settings_of (asks options.now loaded.now) policy))) }
    ensures cut { IsErrOf result Stop.WriteFailed → Rose (O.faults sink.old) (O.faults sink.new) }
{
    let Ok(policy) = policy(alloc, options, loaded) else {
        return Err(Stop::Memory);
    };
    let lines = lines_of_races(alloc, sound, options, loaded, policy)?;
    say(sink, &lines)
}

/// Who picks: the script where there is one, else what the words ask for.
fn policy(alloc: Global, options: &Options<'_>, loaded: &Loaded) -> Result<Policy, ScriptFault>
    ensures picks { IfOk result (λ policy. policy_of (asks options.now loaded.now) ≡ Ok policy) }
    ensures none { IfErr result (λ fault. IsNoPolicy (asks options.now loaded.now) fault) }
{
    if options.script.is_some() {
        return Ok(Policy::Script(read_script(alloc, loaded.script.bytes())?));
    }
    if options.unfair {
        return Ok(Policy::Unfair);
    }
    Ok(Policy::Fair { seed: options.seed })
}

/// The line of a script whose item of this number is no number.
fn script_line(alloc: Global, item: u64) -> Result<Vec<u8>, Memory>
    ensures { (tree : ProgramTree) → IfOk result (λ line. line.items ≡ (stopped_at whole_meaning tree item).bytes) }
{
    let stopped = Ending::Script {
        item,
        why: ScriptWhy::NotANumber,
    };
    let image = with_labels(alloc, Vec::new(alloc));
    report(alloc, &stopped, &[], &image, false)
}
