//! Sinks: where bytes are written to.
ghost use Rattle.std.specs.Prelude.{ℕ, ◌<◌, ◌≤◌, List, length, take, Option, IfOk, IfErr, OnOk, OnErr};
ghost use Rattle.std.specs.Io.{WritesAtMost};
ghost use Rattle.std.specs.Io.KnownBytes.{Appends, WriteAppends};
ghost use Rattle.pfc_io.specs.Counts.{Rose};

/// A write failed.
#[derive(Clone, Copy, Debug, PartialEq, Eq)]
pub struct Failed;

/// A write failed before all bytes were appended.
#[derive(Clone, Copy, Debug, PartialEq, Eq)]
pub struct Cut {
    /// How many of the bytes were appended.
    pub written: usize,
}

/// A place that bytes are appended to.
///
/// A sink counts its failures. The count begins at 0, never falls, and stands still at 2^64 - 1.
pub trait Sink {
    /// The bytes written so far, where the sink tells them.
    ghost written: { Self → Option (List ℕ) };

    /// How often it failed.
    ghost faults: { Self → ℕ };

    /// Appends the first bytes of the piece, at least one of them where it has any, and answers how many.
    /// A failure appends none.
    fn write(&mut self, piece: &[u8]) -> Result<usize, Failed>
        ensures bound { WritesAtMost result piece.now }
        ensures some { 0 < length piece.now → IfOk result (λ n. 0 < n) }
        ensures bytes { WriteAppends (written self.old) (written self.new) result piece.now }
        ensures faults { faults self.old ≤ faults self.new }
        ensures failed { OnErr result (Rose (faults self.old) (faults self.new)) };
}

/// Appends all bytes, by as many writes as the sink needs. The first write that fails cuts it. It takes no memory.
pub fn write_all<O: Sink>(sink: &mut O, bytes: &[u8]) -> Result<(), Cut>
    ensures whole { OnOk result (Appends (O.written sink.old) (O.written sink.new) bytes.now) }
    ensures bound { IfErr result (λ cut. cut.written < length bytes.now) }
    ensures prefix { IfErr result (λ cut.
        Appends (O.written sink.old) (O.written sink.new) (take cut.written bytes.now)) }
    ensures faults { O.faults sink.old ≤ O.faults sink.new }
    ensures failed { OnErr result (Rose (O.faults sink.old) (O.faults sink.new)) }
{
    let mut written = 0;
    while written < bytes.len() {
        match sink.write(&bytes[written..]) {
            Ok(n) => written += n,
            Err(Failed) => return Err(Cut { written }),
        }
    }
    Ok(())
}
