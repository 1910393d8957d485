//! Writing whole pieces.
ghost use Rattle.std.specs.Prelude.{◌≡◌, ◌≤◌, IfOk, IfErr};
ghost use Rattle.std.specs.Io.KnownBytes.{Appends};
ghost use Rattle.pfc_io.specs.Counts.{Rose};
ghost use Rattle.pfc_io.specs.Writes.{AppendsFront};

use crate::replies::Stop;
use pfc_io::{Sink, write_all};

/// Writes all bytes. It stops only where the sink takes no more.
pub(crate) fn say<O: Sink>(sink: &mut O, bytes: &[u8]) -> Result<(), Stop>
    ensures whole { IfOk result (λ done. Appends (O.written sink.old) (O.written sink.new) bytes.now) }
    ensures front { IfErr result (λ stop. AppendsFront (O.written sink.old) (O.written sink.new) bytes.now) }
    ensures cut { IfErr result (λ stop. (stop ≡ Stop.WriteFailed) × Rose (O.faults sink.old) (O.faults sink.new)) }
    ensures faults { O.faults sink.old ≤ O.faults sink.new }
{
    write_all(sink, bytes)?;
    Ok(())
}
