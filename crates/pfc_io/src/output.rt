//! The standard output.
ghost use Rattle.std.specs.Prelude.{◌≡◌, None};

use crate::{Failed, Sink};

/// The standard output. It does not tell its bytes.
#[derive(Drop)]
pub struct StdSink<'a, R: Print> {
    rt: &'a R,
    /// How many writes failed.
    pub faults: u64,
}

impl<'a, R: Print> StdSink<'a, R> {
    /// The standard output of this runtime.
    pub fn new(rt: &'a R) -> StdSink<'a, R>
        ensures { result.faults ≡ 0 }
    {
        StdSink { rt, faults: 0 }
    }
}

impl<R: Print> Sink for StdSink<'_, R> {
    ghost written = { λ _. None };

    ghost faults = { λ sink. sink.faults };

    /// A write that takes nothing of a piece that is not empty counts as a failure.
    fn write(&mut self, piece: &[u8]) -> Result<usize, Failed> {
        match self.rt.write_some(piece) {
            Ok(n) if n > 0 || piece.is_empty() => Ok(n),
            Ok(_) | Err(_) => {
                self.faults = self.faults.saturating_add(1);
                Err(Failed)
            }
        }
    }
}
