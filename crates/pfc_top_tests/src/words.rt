//! Words that are refused, files that cannot be loaded, and texts at their greatest length.
use crate::sinks::{SUM, shelf};
use pfc_base::Memory;
use pfc_io::MemorySink;
use pfc_top::pfc;
use std::alloc::Global;
use std::test::Fail;

/// The words of a command line, of which a blank ends each.
pub(crate) fn words(alloc: Global, line: &str) -> Result<Vec<String>, Memory> {
    let mut words = Vec::new(alloc);
    for word in line.split(' ') {
        words.push(String::from_str(alloc, word)?)?;
    }
    Ok(words)
}

/// The lines for refused words.
const REFUSED: &str = "-- words refused
usage: pfc [FILE] [--seed N] [--unfair] [--limit N] [--input FILE] [--script FILE] [--list] [--code] [--make N]
";

/// A command line, the number of the load that fails, and the status and the bytes that are owed.
static LINES: [(&str, u64, u8, &str); 5] = [
    ("pfc a.pas", 9, 0, "3\n-- finished\n"),
    ("pfc", 9, 2, REFUSED),
    ("pfc a.pas b.pas", 9, 2, REFUSED),
    ("pfc b.pas", 9, 6, ""),
    ("pfc a.pas", 1, 6, ""),
];

#[test]
fn words_name_a_file(rt: HostRuntime) -> Result<(), Fail> {
    for (line, fails, status, bytes) in &LINES {
        let words = words(rt.alloc(), line)?;
        let mut shelf = shelf(rt.alloc(), SUM.as_bytes(), *fails)?;
        let mut sink = MemorySink::new(rt.alloc(), 200, 200, Vec::new(rt.alloc()))?;
        let given = pfc(rt.alloc(), &words, &mut shelf, &mut sink).status;
        assert!(rt; given == *status && sink.written.as_slice() == bytes.as_bytes());
    }
    Ok(())
}

#[test]
fn texts_have_a_length(rt: HostRuntime) -> Result<(), Fail> {
    let mut text = Vec::from_slice(rt.alloc(), SUM.as_bytes())?;
    text.resize(262_144, b' ')?;
    for status in [0, 9] {
        let words = words(rt.alloc(), "pfc a.pas")?;
        let mut shelf = shelf(rt.alloc(), &text, 9)?;
        let mut sink = MemorySink::new(rt.alloc(), 200, 200, Vec::new(rt.alloc()))?;
        let given = pfc(rt.alloc(), &words, &mut shelf, &mut sink).status;
        assert!(rt; given == status && sink.written.is_empty() == (status == 9));
        text.push(b' ')?;
    }
    Ok(())
}
