//! The options of the command line.
ghost use Rattle.std.specs.Prelude.{◌≡◌, ◌≢◌, ◌≤◌, IfOk, IfSome, option_map, codes, false, None};
ghost use Rattle.clap.specs.Words.{app_of, first_of, found_of, kind_of, rows_of, rule_of, with_rule};
ghost use Rattle.pfc_outcome.specs.Options.{asked_by, file_rule, flag, is_set, most_actions, most_made, number_at, number_of, options_of, pfc_command};
ghost use Rattle.pfc_outcome.specs.Options.{source_of, with_number, with_word};
ghost use Rattle.pfc_outcome.specs.Asked.{asked_of, plain_source, texts_of};

use clap::builder::ValueParser;
use clap::error::ErrorKind;
use clap::{Arg, ArgAction, ArgMatches, Command, Error};
use pfc_base::Memory;
use std::alloc::{AllocError, Global};

/// The seed where the words give none.
pub(crate) const USUAL_SEED: u64 = 1;

/// The limit of actions where the words give none.
pub(crate) const USUAL_LIMIT: u64 = 1_000_000;

/// The greatest limit of actions.
pub(crate) const MOST_ACTIONS: u64 = 100_000_000;

/// The greatest size of a made text.
const MOST_MADE: u64 = 31;

/// The text to be run.
#[derive(Clone, Copy)]
pub enum Source<'a> {
    /// The text of the file of this name.
    File(&'a str),
    /// The made text of this size, from 1 to 31.
    Made(u64),
}

/// What the words of the command line ask for.
#[derive(Clone, Copy)]
pub struct Options<'a> {
    /// The text to be run.
    pub source: Source<'a>,
    /// The seed of the picks and of `random`.
    pub seed: u64,
    /// Whether the unfair schedule is asked for; a script beats it.
    pub unfair: bool,
    /// The greatest number of actions, from 1 to 100,000,000.
    pub limit: u64,
    /// The file of the input; without one the input is empty.
    pub input: Option<&'a str>,
    /// The file of the script.
    pub script: Option<&'a str>,
    /// Whether the listing of the text is asked for.
    pub list: bool,
    /// Whether the code text is asked for.
    pub code: bool,
}

/// What the words ask for; nothing where the command refuses them, help and version among the refusals, or where not exactly
/// one of FILE and `--make` is given. The first word is the program's name.
#[tactic(none)]
pub fn read_words<'a>(alloc: Global, words: &'a [String]) -> Result<Option<Options<'a>>, Memory>
    ensures options { IfOk result (λ options. option_map asked_of options ≡ options_of (texts_of words.entry.now)) }
    ensures within { IfOk result (λ options. IfSome options (λ asked. asked.limit ≤ most_actions)) }
{
    let command = command(alloc)?;
    match command.try_get_matches_from(words) {
        Ok(matches) => Ok(options_in(&matches)),
        Err(error) => {
            refused_for_words(&error)?;
            Ok(None)
        }
    }
}

/// An error of the command is one of the words, unless memory was refused.
pub(crate) fn refused_for_words(error: &Error) -> Result<(), Memory>
    ensures { IfOk result (λ done. kind_of error.now ≢ ErrorKind.OutOfMemory) }
{
    if error.kind() == ErrorKind::OutOfMemory {
        return Err(Memory);
    }
    Ok(())
}

/// The command and its options, without a rule between two of them.
fn command<'a>(alloc: Global) -> Result<Command<'a>, AllocError>
    ensures { IfOk result (λ command. app_of command ≡ pfc_command) }
{
    let command = Command::new(alloc, "pfc");
    let command = with(command, file(alloc))?;
    let command = with(command, number(alloc, "seed", 0, u64::MAX))?;
    let command = with(command, flag(alloc, "unfair"))?;
    let command = with(command, number(alloc, "limit", 1, MOST_ACTIONS))?;
    let command = with(command, word(alloc, "input"))?;
    let command = with(command, word(alloc, "script"))?;
    let command = with(command, flag(alloc, "list"))?;
    let command = with(command, flag(alloc, "code"))?;
    with(command, number(alloc, "make", 1, MOST_MADE))
}

/// The command with one more argument.
pub(crate) fn with<'a>(command: Command<'a>, arg: Arg<'a>) -> Result<Command<'a>, AllocError>
    requires { arg.global ≡ false }
    ensures { IfOk result (λ more. app_of more ≡ with_rule (app_of command.entry) (rule_of arg.entry)) }
{
    command.arg(arg)
}

pub(crate) fn file<'a>(alloc: Global) -> Arg<'a>
    ensures rule { rule_of result ≡ file_rule }
    ensures local { result.global ≡ false }
{
    Arg::new(alloc, "file").action(ArgAction::Set)
}

pub(crate) fn word<'a>(alloc: Global, name: &'a str) -> Arg<'a>
    ensures rule { rule_of result ≡ with_word name.entry.now }
    ensures local { result.global ≡ false }
{
    Arg::new(alloc, name).long(name).action(ArgAction::Set)
}

pub(crate) fn flag<'a>(alloc: Global, name: &'a str) -> Arg<'a>
    ensures rule { rule_of result ≡ flag name.entry.now }
    ensures local { result.global ≡ false }
{
    Arg::new(alloc, name).long(name).action(ArgAction::SetTrue)
}

pub(crate) fn number<'a>(alloc: Global, name: &'a str, least: u64, greatest: u64) -> Arg<'a>
    ensures rule { rule_of result ≡ with_number name.entry.now least greatest }
    ensures local { result.global ≡ false }
{
    word(alloc, name).value_parser(ValueParser::unsigned(least, greatest))
}

/// The options in the matches of the command.
fn options_in<'a>(matches: &ArgMatches<'a>) -> Option<Options<'a>>
    ensures options { option_map asked_of result ≡ asked_by (rows_of (found_of matches.now)) }
    ensures within { IfSome result (λ asked. asked.limit ≤ most_actions) }
{
    Some(Options {
        source: source_in(matches)?,
        seed: number_in(matches, "seed", 0, u64::MAX).unwrap_or(USUAL_SEED),
        unfair: is_set(matches, "unfair"),
        limit: number_in(matches, "limit", 1, MOST_ACTIONS).unwrap_or(USUAL_LIMIT),
        input: word_in(matches, "input"),
        script: word_in(matches, "script"),
        list: is_set(matches, "list"),
        code: is_set(matches, "code"),
    })
}

/// FILE or the size of a made text, where exactly one of them is given.
fn source_in<'a>(matches: &ArgMatches<'a>) -> Option<Source<'a>>
    ensures { option_map plain_source result
        ≡ source_of (first_of (codes "file") (rows_of (found_of matches.now))) (number_at (codes "make") 1 most_made (rows_of (found_of matches.now))) }
{
    match (
        word_in(matches, "file"),
        number_in(matches, "make", 1, MOST_MADE),
    ) {
        (Some(file), None) => Some(Source::File(file)),
        (None, Some(size)) => Some(Source::Made(size)),
        (Some(_), Some(_)) | (None, None) => None,
    }
}

/// The word of an option, where one is given.
pub(crate) fn word_in<'a>(matches: &ArgMatches<'a>, name: &str) -> Option<&'a str>
    ensures { option_map (λ word. word.now) result ≡ first_of name.now (rows_of (found_of matches.now)) }
{
    matches.get_str(name)
}

pub(crate) fn is_set<'a>(matches: &ArgMatches<'a>, name: &str) -> bool
    ensures { result ≡ is_set name.now (rows_of (found_of matches.now)) }
{
    match word_in(matches, name) {
        Some(word) => word == "true",
        None => false,
    }
}

/// The number of an option, where one is given, from `least` to `most`.
pub(crate) fn number_in<'a>(
    matches: &ArgMatches<'a>,
    name: &str,
    least: u64,
    most: u64,
) -> Option<u64>
    ensures number { result ≡ number_at name.now least most (rows_of (found_of matches.now)) }
    ensures within { IfSome result (λ n. n ≤ most) }
{
    number_of(word_in(matches, name)?, least, most)
}

/// The number from `least` to `most` that a word writes in decimal; a plus may stand first.
fn number_of(word: &str, least: u64, most: u64) -> Option<u64>
    ensures number { result ≡ number_of least most word.now }
    ensures within { IfSome result (λ n. n ≤ most) }
{
    let Ok(n) = word.parse::<u64>() else {
        return None;
    };
    if n < least || most < n {
        return None;
    }
    Some(n)
}
