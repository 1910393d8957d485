//! The files of the system.
ghost use Rattle.std.specs.Prelude.{◌≡◌, None};

use crate::{LoadFault, Shelf};
use std::alloc::Global;
use std::io::{ErrorKind, Read};
use std::rt::Files;
use std::{fs, io};

/// The files of the system, by their paths. It tells none of them.
#[derive(Drop)]
pub struct DiskShelf<'a, R: Files> {
    rt: &'a R,
    /// How many loads failed.
    pub faults: u64,
    /// How many loads were answered `TooLong`.
    pub longs: u64,
}

impl<'a, R: Files> DiskShelf<'a, R> {
    /// The files that this runtime reaches.
    pub fn new(rt: &'a R) -> DiskShelf<'a, R>
        ensures faults { result.faults ≡ 0 }
        ensures longs { result.longs ≡ 0 }
    {
        DiskShelf {
            rt,
            faults: 0,
            longs: 0,
        }
    }
}

impl<R: Files> Shelf for DiskShelf<'_, R> {
    ghost told = { λ _. None };

    ghost faults = { λ shelf. shelf.faults };

    ghost longs = { λ shelf. shelf.longs };

    ghost is_steady = { λ _. ⊥ };

    /// A file is read to its end, or up to one byte more than `most`.
    fn load(&mut self, alloc: Global, name: &str, most: usize) -> Result<Vec<u8>, LoadFault> {
        match read_front(self.rt, alloc, name, most) {
            Ok(bytes) => {
                if bytes.len() > most {
                    self.longs = self.longs.saturating_add(1);
                    return Err(LoadFault::TooLong);
                }
                Ok(bytes)
            }
            Err(error) => {
                if error.kind() == ErrorKind::OutOfMemory {
                    return Err(LoadFault::Memory);
                }
                self.faults = self.faults.saturating_add(1);
                Err(LoadFault::Failed)
            }
        }
    }
}

/// The file's bytes, or the first `most + 1` of them.
fn read_front<R: Files>(rt: &R, alloc: Global, name: &str, most: usize) -> io::Result<Vec<u8>> {
    let mut bytes = Vec::new(alloc);
    fs::open(rt, name)?
        .take((most as u64).saturating_add(1))
        .read_to_end(&mut bytes)?;
    Ok(bytes)
}
