//! Files and sinks in memory, a file of the system, and the standard output.

ghost use Rattle.std.specs.Prelude.{◌<◌};

use pfc_base::Memory;
use pfc_io::{
    Cut, DiskShelf, Failed, LoadFault, MemoryShelf, MemorySink, Shelf, Sink, StdSink, write_all,
};
use std::alloc::Global;
use std::fs;
use std::test::Fail;

/// A shelf with the files `a` of 3 bytes and `b` of none, and a second `a`.
fn shelf(alloc: Global, fails: &[u64]) -> Result<MemoryShelf, Memory> {
    let mut files = Vec::new(alloc);
    for (name, bytes) in [("a", "one"), ("b", ""), ("a", "other")] {
        files.push((
            String::from_str(alloc, name)?,
            Vec::from_slice(alloc, bytes.as_bytes())?,
        ))?;
    }
    Ok(MemoryShelf::new(files, Vec::from_slice(alloc, fails)?))
}

/// A load of a name with the most bytes that are asked for, and the bytes or the fault, with the counts of loads, of
/// failures and of answers that a file is too long.
static LOADS: [(&str, usize, Result<&str, LoadFault>, [u64; 3]); 5] = [
    ("a", 3, Ok("one"), [1, 0, 0]),
    ("a", 100, Ok("one"), [1, 0, 0]),
    ("a", 2, Err(LoadFault::TooLong), [1, 0, 1]),
    ("b", 0, Ok(""), [1, 0, 0]),
    ("c", 100, Err(LoadFault::Failed), [1, 1, 0]),
];

/// Whether a load answers this, of bytes that are owed.
fn is_loaded(loaded: &Result<Vec<u8>, LoadFault>, owed: &Result<&str, LoadFault>) -> bool {
    match (loaded, owed) {
        (Ok(bytes), Ok(text)) => bytes.as_slice() == text.as_bytes(),
        (Err(fault), Err(cause)) => *fault == *cause,
        _ => false,
    }
}

#[test]
fn loads_from_memory(rt: HostRuntime) -> Result<(), Fail> {
    for (at, (name, most, owed, counts)) in LOADS.iter().enumerate() {
        let mut files = shelf(rt.alloc(), &[])?;
        let loaded = files.load(rt.alloc(), name, *most);
        let counted = [files.calls, files.faults, files.longs] == *counts;
        assert!(rt; is_loaded(&loaded, owed) && counted, "case {at}");
    }
    Ok(())
}

#[test]
fn fails_at_the_listed_loads(rt: HostRuntime) -> Result<(), Fail> {
    let mut files = shelf(rt.alloc(), &[2])?;
    for (has_failed, faults) in [(false, 0), (true, 1), (false, 1)] {
        let loaded = files.load(rt.alloc(), "a", 9);
        assert!(rt; loaded.is_err() == has_failed && files.faults == faults);
    }
    Ok(())
}

/// A sink's room, the most bytes of a write and the number of the write that fails; what each of three writes of `abc`
/// answers, what all bytes of `abc` at once answer in a new sink, and what both have written.
static WRITES: [(
    usize,
    usize,
    u64,
    [Result<usize, Failed>; 3],
    &str,
    Result<(), Cut>,
    &str,
); 5] = [
    (
        100,
        100,
        0,
        [Ok(3), Ok(3), Ok(3)],
        "abcabcabc",
        Ok(()),
        "abc",
    ),
    (100, 1, 0, [Ok(1), Ok(1), Ok(1)], "aaa", Ok(()), "abc"),
    (
        100,
        1,
        2,
        [Ok(1), Err(Failed), Ok(1)],
        "aa",
        Err(Cut { written: 1 }),
        "a",
    ),
    (
        100,
        2,
        2,
        [Ok(2), Err(Failed), Ok(2)],
        "abab",
        Err(Cut { written: 2 }),
        "ab",
    ),
    (
        4,
        100,
        0,
        [Ok(3), Ok(1), Err(Failed)],
        "abca",
        Ok(()),
        "abc",
    ),
];

fn sink(alloc: Global, room: usize, most: usize, fail: u64) -> Result<MemorySink, Memory>
    requires { 0 < most }
{
    MemorySink::new(alloc, room, most, Vec::from_slice(alloc, &[fail])?)
}

#[test]
fn writes_to_memory(rt: HostRuntime) -> Result<(), Fail> {
    for (at, (room, most, fail, answers, written, all, written_of_all)) in WRITES
        .iter()
        .enumerate()
    {
        assert!(rt; *most > 0);
        let mut pieces = sink(rt.alloc(), *room, *most, *fail)?;
        for answer in answers {
            assert!(rt; pieces.write(b"abc") == *answer, "case {at}");
        }
        let mut whole = sink(rt.alloc(), *room, *most, *fail)?;
        assert!(rt; write_all(&mut whole, b"abc") == *all, "case {at}");
        assert!(rt; pieces.written.as_slice() == written.as_bytes());
        assert!(rt; whole.written.as_slice() == written_of_all.as_bytes());
    }
    Ok(())
}

/// Loads one behind the other of files of which `a.pas` has five bytes, each with the most bytes that are asked for, the
/// fault that is owed, if any, and the counts of failures and of answers that a file is too long.
static DISK_LOADS: [(&str, usize, Result<(), LoadFault>, u64, u64); 4] = [
    ("a.pas", 100, Ok(()), 0, 0),
    ("a.pas", 5, Ok(()), 0, 0),
    ("a.pas", 4, Err(LoadFault::TooLong), 0, 1),
    ("b.pas", 100, Err(LoadFault::Failed), 1, 1),
];

#[test]
fn loads_from_the_disk(rt: HostRuntime) -> Result<(), Fail> {
    fs::write(&rt, "a.pas", "three")?;
    let mut disk = DiskShelf::new(&rt);
    for (name, most, owed, faults, longs) in DISK_LOADS {
        let loaded = disk.load(rt.alloc(), name, most);
        let is_owed = match (&loaded, owed) {
            (Ok(bytes), Ok(_)) => bytes.as_slice() == b"three".as_slice(),
            (Err(fault), Err(cause)) => *fault == cause,
            _ => false,
        };
        assert!(rt;
            is_owed && disk.faults == faults && disk.longs == longs,
            "{name}, {most}"
        );
    }
    fs::remove_file(&rt, "a.pas")?;
    Ok(())
}

#[test]
fn writes_to_the_standard_output(rt: HostRuntime) {
    let mut sink = StdSink::new(&rt);
    assert!(rt; write_all(&mut sink, b"written\n") == Ok(()) && sink.faults == 0);
}
