//! Output on its way to the sink.
ghost use Rattle.std.specs.Prelude.{◌≡◌, ◌≢◌, ◌≤◌, OnOk, OnErr};
ghost use Rattle.pfc_io.specs.Counts.{Rose};
ghost use Rattle.pfc_io.specs.Writes.{AppendsFront};
ghost use Rattle.pfc_sessions.specs.Courses.{IsSent, IsHandedOver};

use pfc_io::{Cut, Sink, write_all};
use pfc_values::Output;
use pfc_world::Ending;

/// How many bytes of output are gathered before the sink is handed a piece.
const PIECE: usize = 4_096;

/// All bytes that are held to the sink, where they are enough for a piece.
pub(crate) fn hand_piece<O: Sink>(out: &mut Output, sink: &mut O) -> Result<(), Cut>
    ensures sent { OnOk result (IsSent out.old out.new (O.written sink.old) (O.written sink.new)) }
    ensures cut { OnErr result (AppendsFront (O.written sink.old) (O.written sink.new) out.old) }
    ensures faults { O.faults sink.old ≤ O.faults sink.new }
    ensures failed { OnErr result (Rose (O.faults sink.old) (O.faults sink.new)) }
{
    if out.bytes().len() < PIECE {
        return Ok(());
    }
    write_all(sink, out.bytes())?;
    out.clear();
    Ok(())
}

/// The rest of the output to the sink, behind a run's ending, unless memory was refused. It answers that ending, or that the
/// sink took no more.
pub(crate) fn hand_over<O: Sink>(ending: Ending, out: &Output, sink: &mut O) -> Ending
    requires { ending ≢ Ending.SinkFailed }
    ensures over { IsHandedOver out.now (O.written sink.old) (O.written sink.new) ending result }
    ensures faults { O.faults sink.old ≤ O.faults sink.new }
    ensures failed { result ≡ Ending.SinkFailed → Rose (O.faults sink.old) (O.faults sink.new) }
{
    if let Ending::Memory = ending {
        return ending;
    }
    match write_all(sink, out.bytes()) {
        Ok(()) => ending,
        Err(_cut) => Ending::SinkFailed,
    }
}
