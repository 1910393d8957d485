//! Runs of the texts, and what is written of them.
ghost use Rattle.std.specs.Prelude.{◌<◌};

use crate::stop::Stop;
use crate::texts::files_of;
use pfc_base::decimal;
use pfc_io::{MemoryShelf, MemorySink, Shelf, Sink, write_all};
use pfc_top::pfc;
use pfc_walk::walk;
use std::alloc::Global;
use std::str;

/// The most bytes of a file that is read, and of what a run writes.
const MOST: usize = 1_000_000;

/// A way in which the texts of a file are run.
#[derive(Drop)]
struct Way {
    /// The number of the load that fails, from 1, or 0.
    load: u64,
    /// The number of the write that fails, from 1, or 0.
    write: u64,
    /// The most bytes that one write takes, at least 1.
    most: usize,
    /// The words of the command line, the name of the program first.
    words: Vec<String>,
    ghost some: { 0 < most },
}

/// Runs what `list` names.
pub(crate) fn all<F: Shelf, O: Sink>(
    alloc: Global,
    shelf: &mut F,
    sink: &mut O,
) -> Result<(), Stop> {
    let list = shelf.load(alloc, "list", MOST)?;
    let Ok(list) = str::from_utf8(&list) else {
        return Err(Stop);
    };
    for line in list.lines() {
        let Some((file, fields)) = line.split_once(' ') else {
            return Err(Stop);
        };
        let way = way_of(alloc, fields)?;
        let texts = shelf.load(alloc, file, MOST)?;
        run_each(alloc, file, &texts, &way, sink)?;
    }
    Ok(())
}

/// The way that a line of `list` names.
fn way_of(alloc: Global, line: &str) -> Result<Way, Stop> {
    let mut numbers = [0, 0, 0];
    let mut words = Vec::new(alloc);
    for (at, field) in line.split_whitespace().enumerate() {
        match numbers.get_mut(at) {
            Some(number) => *number = field.parse::<u64>().unwrap_or(0),
            None => words.push(String::from_str(alloc, field)?)?,
        }
    }
    let [load, write, most] = numbers;
    Ok(Way {
        load,
        write,
        most: (most as usize).max(1),
        words,
    })
}

fn run_each<O: Sink>(
    alloc: Global,
    file: &str,
    texts: &[u8],
    way: &Way,
    sink: &mut O,
) -> Result<(), Stop> {
    let Ok(texts) = str::from_utf8(texts) else {
        return Err(Stop);
    };
    for (at, line) in texts.lines().enumerate() {
        let (status, bytes) = run(alloc, line, way)?;
        let mut written = Vec::from_slice(alloc, file.as_bytes())?;
        for number in [at as i64 + 1, i64::from(status)] {
            written.push(b' ')?;
            written.extend_from_slice(decimal(alloc, number)?.bytes())?;
        }
        written.push(b' ')?;
        add_shown(alloc, &mut written, &bytes)?;
        written.push(b'\n')?;
        write_all(sink, &written)?;
    }
    Ok(())
}

/// The status and the bytes of the run that a line describes.
fn run(alloc: Global, line: &str, way: &Way) -> Result<(u8, Vec<u8>), Stop> {
    let (own, files) = own_words(line);
    let words = all_words(alloc, &way.words, own)?;
    let mut shelf = MemoryShelf::new(
        files_of(alloc, files)?,
        Vec::from_slice(alloc, &[way.load])?,
    );
    let fails = Vec::from_slice(alloc, &[way.write])?;
    let mut sink = MemorySink::new(alloc, MOST, way.most, fails)?;
    let status = status_of(alloc, &words, &mut shelf, &mut sink);
    Ok((status, sink.written))
}

/// The words that a line has of its own, and what it says of files: `$`, a blank, the words and a tab may stand before these.
fn own_words(line: &str) -> (&str, &str) {
    let Some(rest) = line.strip_prefix("$ ") else {
        return ("", line);
    };
    match rest.split_once('\t') {
        Some(both) => both,
        None => ("", rest),
    }
}

/// Some words, and behind them those of a text, apart by blanks.
fn all_words(alloc: Global, words: &[String], more: &str) -> Result<Vec<String>, Stop> {
    let mut all = Vec::new(alloc);
    for word in words {
        all.push(word.clone()?)?;
    }
    for word in more.split_whitespace() {
        all.push(String::from_str(alloc, word)?)?;
    }
    Ok(all)
}

/// The status by the program that the first word names: `pfcwalk`, or else `pfc`.
fn status_of(
    alloc: Global,
    words: &[String],
    shelf: &mut MemoryShelf,
    sink: &mut MemorySink,
) -> u8 {
    match words.first() {
        Some(name) if name.as_str() == "pfcwalk" => walk(alloc, words, shelf, sink),
        _ => pfc(alloc, words, shelf, sink).status,
    }
}

/// Adds bytes with `\n` for each line end; where there are more than 4,000, their number and the last 100.
fn add_shown(alloc: Global, written: &mut Vec<u8>, bytes: &[u8]) -> Result<(), Stop> {
    let mut shown = bytes;
    if bytes.len() > 4_000 {
        written.extend_from_slice(decimal(alloc, bytes.len() as i64)?.bytes())?;
        written.extend_from_slice(b" bytes, at last ")?;
        shown = &bytes[bytes.len() - 100..];
    }
    for b in shown {
        match *b {
            b'\n' => written.extend_from_slice(b"\\n")?,
            other => written.push(other)?,
        }
    }
    Ok(())
}
