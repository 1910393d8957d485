//! Shelves: where files are loaded from.
ghost use Rattle.std.specs.Prelude.{◌≡◌, ℕ, ◌≤◌, List, length, Option, IsSome, IfOk, IsErrOf};
ghost use Rattle.pfc_io.specs.Counts.{Rose};
ghost use Rattle.pfc_io.specs.Files.{File, AreHeld, IsMissing, IsLong};
ghost use Rattle.pfc_io.specs.declared.shelf.LoadFault.TheVariants.{Memory as NoMemory};

use std::alloc::{AllocError, Global};

/// Why a load gave nothing.
#[derive(Clone, Copy, Debug, PartialEq, Eq)]
pub enum LoadFault {
    /// The shelf failed, or it holds no file of the name.
    Failed,
    /// The file has more bytes than were asked for.
    TooLong,
    /// Memory was refused.
    Memory,
}

impl From<AllocError> for LoadFault {
    ghost from_gives = { λ _ fault. fault ≡ NoMemory };

    fn from(_error: AllocError) -> LoadFault {
        LoadFault::Memory
    }
}

/// A place that files are loaded from by their names. A load changes none of them.
///
/// A shelf counts its failures, and the loads that it answered with `TooLong`. Both counts begin at 0, never fall, and
/// stand still at 2^64 - 1.
pub trait Shelf {
    /// The files, where the shelf tells them: names and bytes.
    ghost told: { Self → Option (List File) };

    /// How often it failed.
    ghost faults: { Self → ℕ };

    /// How often it answered `TooLong`.
    ghost longs: { Self → ℕ };

    /// It tells its files, and no later load of a name that it holds fails.
    ghost is_steady: { Self → Type 0 };

    /// The bytes of the first file of this name, at most `most` of them.
    fn load(&mut self, alloc: Global, name: &str, most: usize) -> Result<Vec<u8>, LoadFault>
        ensures bounded { IfOk result (λ bytes. length bytes.items ≤ most) }
        ensures given { IfOk result (λ bytes. AreHeld (told self.old) name.now bytes.items) }
        ensures kept { told self.new ≡ told self.old }

        ensures faults { faults self.old ≤ faults self.new }
        ensures failed { IsErrOf result LoadFault.Failed → Rose (faults self.old) (faults self.new) }
        ensures missing { IsMissing (told self.old) name.now → IsErrOf result LoadFault.Failed }

        ensures longs { longs self.old ≤ longs self.new }
        ensures too_long { IsErrOf result LoadFault.TooLong → Rose (longs self.old) (longs self.new) }

        // With `bounded` and `given`, this is exact, but for a failure and for want of memory.
        ensures long { IsErrOf result LoadFault.TooLong → IsSome (told self.old)
            → IsLong (told self.old) name.now most }

        ensures tells { is_steady self.old → IsSome (told self.old) }
        ensures steady { is_steady self.old → is_steady self.new }
        ensures found { is_steady self.old → IsErrOf result LoadFault.Failed → IsMissing (told self.old) name.now };
}
