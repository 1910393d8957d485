//! Sinks that take few bytes at a time, or fail.
ghost use Rattle.std.specs.Prelude.{◌<◌};

use crate::words::words;
use pfc_base::Memory;
use pfc_io::{MemoryShelf, MemorySink};
use pfc_top::pfc;
use std::alloc::Global;
use std::test::Fail;

/// The sum of two numbers.
pub(crate) const SUM: &str = "program a; begin writeln(1+2) end.";

/// A shelf that holds one file, of which the load with this number fails.
pub(crate) fn shelf(alloc: Global, text: &[u8], fails: u64) -> Result<MemoryShelf, Memory> {
    let mut files = Vec::new(alloc);
    let name = String::from_str(alloc, "a.pas")?;
    files.push((name, Vec::from_slice(alloc, text)?))?;
    Ok(MemoryShelf::new(files, Vec::from_slice(alloc, &[fails])?))
}

/// The status of a command line over a text, and a sink of this room that takes so many bytes at a time, and fails at the
/// write of this number.
fn run(
    alloc: Global,
    line: &str,
    text: &[u8],
    room: usize,
    most: usize,
    fails: u64,
) -> Result<(u8, MemorySink), Memory>
    requires { 0 < most }
{
    let words = words(alloc, line)?;
    let mut shelf = shelf(alloc, text, 9)?;
    let mut sink = MemorySink::new(alloc, room, most, Vec::from_slice(alloc, &[fails])?)?;
    let answer = pfc(alloc, &words, &mut shelf, &mut sink);
    Ok((answer.status, sink))
}

/// Command lines over a text that ends in a fault, the status, and the bytes that are owed.
static RUNS: [(&str, u8, &str); 3] = [
    (
        "pfc a.pas",
        3,
        "7\n-- fault 2: division by zero in process 0 d at line 1\n",
    ),
    (
        "pfc a.pas --list --code",
        3,
        "    1 program d; begin write(7); writeln(1 div 0) end.
     0     1 LIT 7
     1     1 WRI 0
     2     1 LIT 1
     3     1 LIT 0
     4     1 DIV
     5     1 WRI 0
     6     1 WRNL
     7     1 END
7
-- fault 2: division by zero in process 0 d at line 1
",
    ),
    (
        "pfc a.pas --limit 1 --list",
        5,
        "    1 program d; begin write(7); writeln(1 div 0) end.
7
-- limit of 1 actions reached
process 0 d: ready at line 1
",
    ),
];

/// Each write in turn fails: what was written is a front, and the status is 7 whatever the ending would have been.
#[test]
fn a_sink_fails(rt: HostRuntime) -> Result<(), Fail> {
    let text = b"program d; begin write(7); writeln(1 div 0) end.";
    for (line, ending, whole) in &RUNS {
        let whole = whole.as_bytes();
        for fails in 1..whole.len() as u64 + 2 {
            let (status, sink) = run(rt.alloc(), line, text, 400, 1, fails)?;
            let fits = fails > whole.len() as u64;
            assert!(rt; status == if fits { *ending } else { 7 });
            assert!(rt;
                whole.starts_with(&sink.written) && (fits || sink.written.len() as u64 + 1 == fails)
            );
        }
    }
    Ok(())
}

/// A program that writes 66,666 times the number 0.
fn zeros(alloc: Global) -> Result<Vec<u8>, Memory> {
    let mut text = Vec::from_slice(alloc, b"program a; var i: integer; begin write(i")?;
    for _more in 1..66_666 {
        text.extend_from_slice(b",i")?;
    }
    text.extend_from_slice(b") end.")?;
    Ok(text)
}

/// The run hands over 16 pieces of 4,096 bytes and the rest, and the report is one write more.
#[test]
fn output_goes_by_pieces(rt: HostRuntime) -> Result<(), Fail> {
    let (status, sink) = run(
        rt.alloc(),
        "pfc a.pas",
        &zeros(rt.alloc())?,
        100_000,
        4_096,
        99,
    )?;
    assert!(rt; (status, sink.calls, sink.written.len()) == (0, 17 + 1, 66_666 + 13));
    let report = b"0\n-- finished\n";
    assert!(rt; sink.written.ends_with(report));
    Ok(())
}

/// The tenth write fails: the sink has the nine pieces before it.
#[test]
fn a_piece_fails(rt: HostRuntime) -> Result<(), Fail> {
    let (status, sink) = run(
        rt.alloc(),
        "pfc a.pas",
        &zeros(rt.alloc())?,
        100_000,
        4_096,
        10,
    )?;
    assert!(rt; (status, sink.calls, sink.written.len()) == (7, 10, 9 * 4_096));
    Ok(())
}

/// Ten million bytes, one by one.
#[test]
fn much_output_goes_byte_by_byte(rt: HostRuntime) -> Result<(), Fail> {
    let text = b"program m; var i: integer; begin for i := 1 to 40000 do write('x':250) end.";
    let (status, sink) = run(rt.alloc(), "pfc a.pas", text, 10_000_100, 1, 0)?;
    assert!(rt; (status, sink.written.len()) == (0, 10_000_000 + 13));
    Ok(())
}
