//! The options of the walker's command line.
ghost use Rattle.std.specs.Prelude.{◌≡◌, ◌≤◌, IfOk, IfSome, option_map, false};
ghost use Rattle.clap.specs.Words.{app_of, found_of, rows_of, rule_of};
ghost use Rattle.pfc_outcome.specs.Options.{most_actions};
ghost use Rattle.pfc_outcome.specs.Asked.{walk_asked_of, texts_of};
ghost use Rattle.pfc_outcome.specs.WalkOptions.{limit_for, most_watched, needed_file_rule, shown_by, shown_of, shown_with, walk_asked_by, walk_command};
ghost use Rattle.pfc_outcome.specs.WalkOptions.{walk_options_of};

use crate::options::{
    MOST_ACTIONS, Options, Source, USUAL_LIMIT, USUAL_SEED, file, flag, is_set, number, number_in,
    refused_for_words, with, word, word_in,
};
use clap::{Arg, ArgMatches, Command};
use pfc_base::Memory;
use std::alloc::{AllocError, Global};

/// The most actions of a run whose races are told.
const MOST_WATCHED: u64 = 2_000;

/// What is shown of a run.
#[derive(Clone, Copy)]
pub enum Shown {
    /// Its output, and the report of its ending.
    Output,
    /// Its trace, in place of these two.
    Trace,
    /// Its output and its report, and behind them the lines of its races.
    Races,
}

/// What the words of the walker ask for.
#[derive(Clone, Copy)]
pub struct WalkOptions<'a> {
    /// The text to be run, and how.
    pub options: Options<'a>,
    /// What is shown of the run.
    pub shown: Shown,
}

/// What the words of the walker ask for; nothing where the command refuses them, help and version among the refusals. FILE is
/// required, the trace and the races of a run are not both shown, and no code text can be asked for. The first word is the program's name.
#[tactic(none)]
pub fn read_walk_words<'a>(
    alloc: Global,
    words: &'a [String],
) -> Result<Option<WalkOptions<'a>>, Memory>
    ensures options { IfOk result (λ walk. option_map walk_asked_of walk ≡ walk_options_of (texts_of words.entry.now)) }
    ensures shown { IfOk result (λ walk. IfSome walk (λ asked. asked.shown ≡ shown_of (texts_of words.entry.now))) }
    ensures within { IfOk result (λ walk. IfSome walk (λ asked. asked.options.limit ≤ most_actions)) }
    ensures few { IfOk result (λ walk. IfSome walk (λ asked. asked.shown ≡ Shown.Races → asked.options.limit ≤ most_watched)) }
    ensures codeless { IfOk result (λ walk. IfSome walk (λ asked. asked.options.code ≡ false)) }
{
    let command = command(alloc)?;
    match command.try_get_matches_from(words) {
        Ok(matches) => Ok(walk_options_in(&matches)),
        Err(error) => {
            refused_for_words(&error)?;
            Ok(None)
        }
    }
}

/// The command and its options, without a rule between two of them.
fn command<'a>(alloc: Global) -> Result<Command<'a>, AllocError>
    ensures { IfOk result (λ command. app_of command ≡ walk_command) }
{
    let command = Command::new(alloc, "pfcwalk");
    let command = with(command, needed_file(alloc))?;
    let command = with(command, number(alloc, "seed", 0, u64::MAX))?;
    let command = with(command, flag(alloc, "unfair"))?;
    let command = with(command, number(alloc, "limit", 1, MOST_ACTIONS))?;
    let command = with(command, word(alloc, "input"))?;
    let command = with(command, word(alloc, "script"))?;
    let command = with(command, flag(alloc, "list"))?;
    let command = with(command, flag(alloc, "trace"))?;
    with(command, flag(alloc, "races"))
}

fn needed_file<'a>(alloc: Global) -> Arg<'a>
    ensures rule { rule_of result ≡ needed_file_rule }
    ensures local { result.global ≡ false }
{
    file(alloc).required(true)
}

/// The options in the matches of the command.
fn walk_options_in<'a>(matches: &ArgMatches<'a>) -> Option<WalkOptions<'a>>
    ensures options { option_map walk_asked_of result ≡ walk_asked_by (rows_of (found_of matches.now)) }
    ensures shown { IfSome result (λ asked. asked.shown ≡ shown_with (rows_of (found_of matches.now))) }
    ensures within { IfSome result (λ asked. asked.options.limit ≤ most_actions) }
    ensures few { IfSome result (λ asked. asked.shown ≡ Shown.Races → asked.options.limit ≤ most_watched) }
    ensures codeless { IfSome result (λ asked. asked.options.code ≡ false) }
{
    let shown = shown_by(is_set(matches, "trace"), is_set(matches, "races"))?;
    let limit = number_in(matches, "limit", 1, MOST_ACTIONS).unwrap_or(USUAL_LIMIT);
    let options = Options {
        source: Source::File(word_in(matches, "file")?),
        seed: number_in(matches, "seed", 0, u64::MAX).unwrap_or(USUAL_SEED),
        unfair: is_set(matches, "unfair"),
        limit: limit_for(shown, limit),
        input: word_in(matches, "input"),
        script: word_in(matches, "script"),
        list: is_set(matches, "list"),
        code: false,
    };
    Some(WalkOptions { options, shown })
}

/// What is shown, by whether the trace and the races are asked for; nothing where both are.
fn shown_by(trace: bool, races: bool) -> Option<Shown>
    ensures { result ≡ shown_by trace races }
{
    match (trace, races) {
        (false, false) => Some(Shown::Output),
        (true, false) => Some(Shown::Trace),
        (false, true) => Some(Shown::Races),
        (true, true) => None,
    }
}

/// The limit of actions of a run of which this is shown, where the words give this one.
fn limit_for(shown: Shown, limit: u64) -> u64
    ensures limit { result ≡ limit_for shown limit }
    ensures few { shown ≡ Shown.Races → result ≤ most_watched }
    ensures lower { result ≤ limit }
{
    match shown {
        Shown::Output | Shown::Trace => limit,
        Shown::Races => limit.min(MOST_WATCHED),
    }
}
