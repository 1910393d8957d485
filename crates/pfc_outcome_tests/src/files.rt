//! The files of a run, loaded from memory.

use pfc_base::Memory;
use pfc_io::{LoadFault, MemoryShelf};
use pfc_outcome::load_files;
use std::alloc::Global;
use std::test::Fail;

/// A shelf with a file of each length that matters, `t` and `u` at and above a text's, `i` and `j` at and above an input's.
fn shelf(alloc: Global, fails: &[u64]) -> Result<MemoryShelf, Memory> {
    let mut files = Vec::new(alloc);
    for (name, length) in [
        ("a", 3),
        ("t", 262_144),
        ("u", 262_145),
        ("i", 1_048_576),
        ("j", 1_048_577),
    ] {
        files.push((
            String::from_str(alloc, name)?,
            Vec::from_elem(alloc, b'x', length)?,
        ))?;
    }
    Ok(MemoryShelf::new(files, Vec::from_slice(alloc, fails)?))
}

/// The names of text, input and script, `-` for none; the loads that fail; and the lengths that are loaded, or the fault.
static LOADS: [([&str; 3], &[u64], Result<[usize; 3], LoadFault>); 14] = [
    (["a", "-", "-"], &[], Ok([3, 0, 0])),
    (["-", "-", "-"], &[], Ok([0, 0, 0])),
    (["a", "a", "a"], &[], Ok([3, 3, 3])),
    (["t", "i", "i"], &[], Ok([262_144, 1_048_576, 1_048_576])),
    (["u", "-", "-"], &[], Err(LoadFault::TooLong)),
    (["a", "u", "u"], &[], Ok([3, 262_145, 262_145])),
    (["a", "j", "-"], &[], Err(LoadFault::TooLong)),
    (["a", "-", "j"], &[], Err(LoadFault::TooLong)),
    (["u", "none", "-"], &[], Err(LoadFault::TooLong)),
    (["none", "j", "-"], &[], Err(LoadFault::Failed)),
    (["a", "j", "none"], &[], Err(LoadFault::TooLong)),
    (["a", "i", "i"], &[1], Err(LoadFault::Failed)),
    (["a", "i", "i"], &[2], Err(LoadFault::Failed)),
    (["a", "i", "i"], &[3], Err(LoadFault::Failed)),
];

fn asked<'a>(name: &'a str) -> Option<&'a str> {
    if name == "-" { None } else { Some(name) }
}

/// Whether a case of the table is answered as it is owed.
fn is_answered(
    alloc: Global,
    names: &[&str; 3],
    fails: &[u64],
    owed: &Result<[usize; 3], LoadFault>,
) -> Result<bool, Memory> {
    let mut files = shelf(alloc, fails)?;
    let loaded = load_files(
        alloc,
        asked(names[0]),
        asked(names[1]),
        asked(names[2]),
        &mut files,
    );
    Ok(match (&loaded, owed) {
        (Ok(loaded), Ok(lengths)) => [
            loaded.text.bytes().len(),
            loaded.input.bytes().len(),
            loaded.script.bytes().len(),
        ] == *lengths,
        (Err(fault), Err(cause)) => *fault == *cause,
        _ => false,
    })
}

#[test]
fn files_are_loaded_in_their_order(rt: HostRuntime) -> Result<(), Fail> {
    for (at, (names, fails, owed)) in LOADS.iter().enumerate() {
        assert!(rt; is_answered(rt.alloc(), names, fails, owed)?, "case {at}");
    }
    Ok(())
}
