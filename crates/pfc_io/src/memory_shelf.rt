//! A shelf in memory: it tells its files, and fails where it is told to.
ghost use Rattle.std.specs.Prelude.{◌≡◌, ℕ, ◌+◌, ◌<◌, ◌≤◌, ◌↔◌, ◌⊎◌, min, length, Some, None, IsSomeAnd, IfOk, IsErrOf, IsTrue, Contains, option_copied};
ghost use Rattle.pfc_io.specs.Counts.{greatest};
ghost use Rattle.pfc_io.specs.Files.{bytes_of};
ghost use Rattle.pfc_io.specs.Memory.{files_of, NoneAbove};

use crate::{LoadFault, Shelf};
use std::alloc::Global;

/// Files in memory. A load fails where its number is in `fails`, counted from 1, or where no file has the name.
#[derive(Drop)]
pub struct MemoryShelf {
    /// The files: names and bytes. The first of a name counts.
    pub files: Vec<(String, Vec<u8>)>,
    /// The numbers of the loads that fail.
    pub fails: Vec<u64>,
    /// How many loads there were.
    pub calls: u64,
    /// How many of them failed.
    pub faults: u64,
    /// How many of them were answered `TooLong`.
    pub longs: u64,
}

impl MemoryShelf {
    /// A shelf of these files, of which no load was made. It takes no memory.
    pub fn new(files: Vec<(String, Vec<u8>)>, fails: Vec<u64>) -> MemoryShelf
        ensures { result ≡ record { files = files; fails = fails; calls = 0; faults = 0; longs = 0 } }
    {
        MemoryShelf {
            files,
            fails,
            calls: 0,
            faults: 0,
            longs: 0,
        }
    }
}

impl Shelf for MemoryShelf {
    ghost told = { λ shelf. Some (files_of shelf.files.items) };

    ghost faults = { λ shelf. shelf.faults };

    ghost longs = { λ shelf. shelf.longs };

    // No number is listed that a later call has.
    ghost is_steady = { λ shelf. NoneAbove shelf.fails.items shelf.calls };

    fn load(&mut self, alloc: Global, name: &str, most: usize) -> Result<Vec<u8>, LoadFault>
        ensures given { IfOk result (λ bytes.
            bytes_of name.now (files_of self.old.files.items) ≡ Some bytes.items) }
        ensures bounded { IfOk result (λ bytes. length bytes.items ≤ most) }
        ensures failed { IsErrOf result LoadFault.Failed ↔ (Contains self.old.fails.items (self.old.calls + 1)
            ⊎ (bytes_of name.now (files_of self.old.files.items) ≡ None)) }
        ensures long { IsErrOf result LoadFault.TooLong →
            IsSomeAnd (bytes_of name.now (files_of self.old.files.items)) (λ bytes. most < length bytes) }

        ensures calls { self.new.calls ≡ min (self.old.calls + 1) greatest }
        ensures faults { self.old.faults ≤ self.new.faults }
        ensures counted { IsErrOf result LoadFault.Failed → self.new.faults ≡ min (self.old.faults + 1) greatest }
        ensures uncounted { ¬ IsErrOf result LoadFault.Failed → self.new.faults ≡ self.old.faults }
        ensures longs { self.old.longs ≤ self.new.longs }
        ensures long_counted { IsErrOf result LoadFault.TooLong → self.new.longs ≡ min (self.old.longs + 1) greatest }
        ensures long_uncounted { ¬ IsErrOf result LoadFault.TooLong → self.new.longs ≡ self.old.longs }

        ensures steady { NoneAbove self.old.fails.items self.old.calls → NoneAbove self.new.fails.items self.new.calls }
        ensures files { self.new.files ≡ self.old.files }
        ensures numbers { self.new.fails ≡ self.old.fails }
    {
        let fails = is_next(&self.fails, self.calls);
        self.calls = self.calls.saturating_add(1);
        let held = if fails { None } else { find(&self.files, name) };
        let Some(bytes) = held else {
            self.faults = self.faults.saturating_add(1);
            return Err(LoadFault::Failed);
        };
        if bytes.len() > most {
            self.longs = self.longs.saturating_add(1);
            return Err(LoadFault::TooLong);
        }
        Ok(Vec::from_slice(alloc, bytes)?)
    }
}

/// Whether the call after the first `calls` is among those of these numbers. No call has a number above 2^64 - 1.
pub(crate) fn is_next(numbers: &[u64], calls: u64) -> bool
    ensures { IsTrue result ↔ Contains numbers.now (calls + 1) }
{
    match calls.checked_add(1) {
        Some(next) => numbers.contains(&next),
        None => false,
    }
}

/// The bytes of the first file of this name.
fn find<'a>(files: &'a [(String, Vec<u8>)], name: &str) -> Option<&'a [u8]>
    ensures { option_copied result ≡ bytes_of name.now (files_of files.now) }
{
    for file in files {
        if name == file.0.as_str() {
            return Some(&file.1);
        }
    }
    None
}
