//! Which answers hand back the session that made the run.
use crate::sinks::SUM;
use crate::words::words;
use pfc_base::Memory;
use pfc_io::{MemoryShelf, MemorySink};
use pfc_top::pfc;
use std::alloc::Global;
use std::test::Fail;

/// The files of the shelf.
static FILES: [(&str, &str); 9] = [
    ("sum", SUM),
    ("fault", "program d; begin writeln(1 div 0) end."),
    ("wrong", "program d; begin writeln(x) end."),
    (
        "stuck",
        "program d; var s: semaphore; begin initial(s, 0); wait(s) end.",
    ),
    (
        "meet",
        "program d; var c: channel of integer; process p; begin c ! 7 end; process q; var n: integer; begin c ? n; write(n) end; begin cobegin p; q coend end.",
    ),
    (
        "child",
        "program d; process p; begin writeln(1 div 0) end; begin cobegin p coend end.",
    ),
    ("last", "0 0 1 9"),
    ("others", "0 0 9"),
    ("names", "0 x"),
];

/// A command line, the number of the write that fails, the status, and whether there is a session.
static ANSWERS: [(&str, u64, u8, bool); 16] = [
    ("pfc sum", 9, 0, true),
    ("pfc fault", 9, 3, true),
    ("pfc sum --limit 1", 9, 5, true),
    ("pfc stuck", 9, 4, true),
    ("pfc meet", 9, 0, true),
    ("pfc meet --limit 3", 9, 5, true),
    ("pfc meet --script last", 9, 10, true),
    ("pfc child", 9, 3, true),
    ("pfc sum --script others", 9, 10, true),
    ("pfc sum --script names", 9, 10, false),
    ("pfc wrong", 9, 1, false),
    ("pfc --make 3", 9, 0, true),
    ("pfc", 9, 2, false),
    ("pfc none", 9, 6, false),
    ("pfc sum", 1, 7, false),
    ("pfc sum", 2, 7, false),
];

fn shelf(alloc: Global) -> Result<MemoryShelf, Memory> {
    let mut files = Vec::new(alloc);
    for (name, text) in &FILES {
        let name = String::from_str(alloc, name)?;
        files.push((name, Vec::from_slice(alloc, text.as_bytes())?))?;
    }
    Ok(MemoryShelf::new(files, Vec::new(alloc)))
}

#[test]
fn runs_to_an_end_have_a_session(rt: HostRuntime) -> Result<(), Fail> {
    for (line, fails, status, session) in &ANSWERS {
        let words = words(rt.alloc(), line)?;
        let mut shelf = shelf(rt.alloc())?;
        let fails = Vec::from_slice(rt.alloc(), &[*fails])?;
        let mut sink = MemorySink::new(rt.alloc(), 500, 500, fails)?;
        let answer = pfc(rt.alloc(), &words, &mut shelf, &mut sink);
        assert!(rt; answer.status == *status && answer.session.is_some() == *session);
    }
    Ok(())
}
