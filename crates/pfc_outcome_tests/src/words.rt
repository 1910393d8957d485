//! What command lines ask for.

use pfc_base::Memory;
use pfc_outcome::{Options, Shown, Source, WalkOptions, make_text, read_walk_words, read_words};
use std::alloc::Global;
use std::test::Fail;

/// Words behind the program's name, and behind `|` what they ask for; nothing where they are refused. An option that is not named
/// is as where no word names it. `~` is an empty word.
const WORDS: &str = "\
a.pas|a.pas
a.pas --seed 5|a.pas seed 5
--seed=18446744073709551615 a.pas|a.pas seed 18446744073709551615
a.pas --seed +5|a.pas seed 5
a.pas --seed 007|a.pas seed 7
a.pas --seed 0|a.pas seed 0
a.pas --limit 1|a.pas limit 1
a.pas --limit 100000000|a.pas limit 100000000
a.pas --unfair --list --code|a.pas unfair list code
a.pas --input in --script picks|a.pas input in script picks
--make 1|made 1
--make 31 --list|made 31 list
-- a.pas|a.pas
-- --seed|--seed
-|-
a.pas --input --script|
a.pas --input=--script|a.pas input --script
|
a.pas b.pas|
a.pas --make 3|
--make 0|
--make 32|
a.pas --limit 0|
a.pas --limit 100000001|
a.pas --seed 18446744073709551616|
a.pas --seed -5|
a.pas --seed=-5|
a.pas --seed=|
a.pas --seed -- b|
a.pas --seed 1 --seed 1|
a.pas --unfair --unfair|
a.pas --unfair=true|
a.pas --see 5|
a.pas -h|
--help|
a.pas -V|
a.pas --version|
--seed 5|
~|~
";

/// Words of the walker behind the program's name, and behind `|` what they show of the run and its limit; nothing where they are refused.
const WALK_WORDS: &str = "\
a.pas|output 1000000
a.pas --trace|trace 1000000
--trace a.pas --list --unfair|trace 1000000
a.pas --list --script picks|output 1000000
a.pas --races|races 2000
a.pas --races --limit 2001|races 2000
a.pas --limit 2000 --races|races 2000
a.pas --races --limit 7 --list|races 7
a.pas --limit 2001|output 2001
a.pas --trace --limit 2001|trace 2001
a.pas --input=--races|output 1000000
-- --races|output 1000000
a.pas --trace --races|
a.pas --races --limit 7 --trace|
a.pas --races --races|
a.pas --races=true|
a.pas --race|
--races|
a.pas --races --limit 0|
a.pas --input --trace|
a.pas --input=--trace|output 1000000
a.pas -- --trace|
-- --trace|output 1000000
a.pas --trace --trace|
a.pas --trace=true|
a.pas --trac|
--trace|
a.pas --trace --code|
";

/// The words of a line, the program's name before them.
fn words_of(alloc: Global, text: &str) -> Result<Vec<String>, Memory> {
    let mut words = Vec::new(alloc);
    words.push(String::from_str(alloc, "pfc")?)?;
    for word in text.split_whitespace() {
        words.push(String::from_str(alloc, if word == "~" { "" } else { word })?)?;
    }
    Ok(words)
}

/// Whether the options are what the words of the table ask for, with the usual seed and limit where none is named.
fn is_asked(options: &Options<'_>, owed: &str) -> bool {
    let mut seed = 1;
    let mut limit = 1_000_000;
    let (mut input, mut script) = (None, None);
    let mut source = false;
    let (mut unfair, mut list, mut code) = (false, false, false);
    let mut words = owed.split_whitespace();
    while let Some(word) = words.next() {
        match word {
            "seed" => seed = words
                .next()
                .and_then(|n| n.parse::<u64>().ok())
                .unwrap_or(0),
            "limit" => limit = words
                .next()
                .and_then(|n| n.parse::<u64>().ok())
                .unwrap_or(0),
            "input" => input = words.next(),
            "script" => script = words.next(),
            "unfair" => unfair = true,
            "list" => list = true,
            "code" => code = true,
            "made" => source =
                matches!(options.source, Source::Made(size) if words.next().and_then(|n| n.parse::<u64>().ok()) == Some(size)),
            file => source =
                matches!(options.source, Source::File(name) if name == file || name.is_empty() && file == "~"),
        }
    }
    source
        && options.seed == seed
        && options.limit == limit
        && options.input == input
        && options.script == script
        && (options.unfair, options.list, options.code) == (unfair, list, code)
}

/// Whether the words of a line ask for what its line says.
fn is_read(alloc: Global, line: &str) -> Result<bool, Memory> {
    let Some((text, owed)) = line.split_once('|') else {
        return Ok(false);
    };
    let words = words_of(alloc, text)?;
    match read_words(alloc, &words)? {
        Some(options) => Ok(!owed.is_empty() && is_asked(&options, owed)),
        None => Ok(owed.is_empty()),
    }
}

/// Whether the walker's options are what is shown and the limit of the table.
fn is_walk_asked(walk: &WalkOptions<'_>, owed: &str) -> bool {
    let name = match walk.shown {
        Shown::Output => "output",
        Shown::Trace => "trace",
        Shown::Races => "races",
    };
    let Some((shown, limit)) = owed.split_once(' ') else {
        return false;
    };
    shown == name && limit.parse::<u64>().ok() == Some(walk.options.limit)
}

/// Whether the walker reads from the words of a line what its line says.
fn is_walk_read(alloc: Global, line: &str) -> Result<bool, Memory> {
    let Some((text, owed)) = line.split_once('|') else {
        return Ok(false);
    };
    let words = words_of(alloc, text)?;
    Ok(match read_walk_words(alloc, &words)? {
        Some(walk) => is_walk_asked(&walk, owed),
        None => owed.is_empty(),
    })
}

#[test]
fn words_of_the_walker_are_read(rt: HostRuntime) -> Result<(), Fail> {
    for line in WALK_WORDS.lines() {
        assert!(rt; is_walk_read(rt.alloc(), line)?, "in {line}");
    }
    Ok(())
}

#[test]
fn words_are_read(rt: HostRuntime) -> Result<(), Fail> {
    for line in WORDS.lines() {
        assert!(rt; is_read(rt.alloc(), line)?, "in {line}");
    }
    Ok(())
}

/// What the text for 31 ends with.
const ENDING: &[u8] = b"array[1..31] of producer; c: array[1..31] of consumer;
begin
  initial(m, 1);
  cobegin
    for k := 1 to 31 do p[k];
    for k := 1 to 31 do c[k]
  coend;
  writeln('total  ', total)
end.
";

#[test]
fn a_made_text_names_its_size(rt: HostRuntime) -> Result<(), Fail> {
    let text = make_text(rt.alloc(), 31)?;
    assert!(rt; text.len() == 983, "{} bytes", text.len());
    assert!(rt; text.ends_with(ENDING), "other bytes at the end");
    Ok(())
}
