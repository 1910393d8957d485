//! Output on its way to the sink.
ghost use Rattle.std.specs.Prelude.{◌≡◌, ◌≢◌, ◌≤◌, OnOk, OnErr};
ghost use Rattle.pfc_io.specs.Counts.{Rose};
ghost use Rattle.pfc_io.specs.Writes.{AppendsFront};
ghost use Rattle.pfc_walker.specs.Courses.{IsSent, IsHandedOver};
ghost use Rattle.pfc_walker.specs.Lines.{open_behind};

use pfc_io::{Cut, Sink, write_all};
use pfc_values::Output;
use pfc_world::Ending;

/// How many bytes of output are gathered before the sink is handed a piece.
const PIECE: usize = 4_096;

/// Whether an output that ended so ends inside a line behind these further bytes.
fn is_in_line(before: bool, out: &Output) -> bool
    ensures { result ≡ open_behind before out.now }
{
    if out.bytes().is_empty() {
        return before;
    }
    out.ends_inside_line()
}

/// All bytes that are held to the sink.
fn send<O: Sink>(out: &mut Output, in_line: &mut bool, sink: &mut O) -> Result<(), Cut>
    ensures sent { OnOk result (IsSent out.old out.new in_line.old in_line.new (O.written sink.old) (O.written sink.new)) }
    ensures cut { OnErr result (AppendsFront (O.written sink.old) (O.written sink.new) out.old) }
    ensures faults { O.faults sink.old ≤ O.faults sink.new }
    ensures failed { OnErr result (Rose (O.faults sink.old) (O.faults sink.new)) }
{
    write_all(sink, out.bytes())?;
    *in_line = is_in_line(*in_line, out);
    out.clear();
    Ok(())
}

/// The same, where they are enough for a piece.
pub(crate) fn hand_piece<O: Sink>(
    out: &mut Output,
    in_line: &mut bool,
    sink: &mut O,
) -> Result<(), Cut>
    ensures sent { OnOk result (IsSent out.old out.new in_line.old in_line.new (O.written sink.old) (O.written sink.new)) }
    ensures cut { OnErr result (AppendsFront (O.written sink.old) (O.written sink.new) out.old) }
    ensures faults { O.faults sink.old ≤ O.faults sink.new }
    ensures failed { OnErr result (Rose (O.faults sink.old) (O.faults sink.new)) }
{
    if out.bytes().len() < PIECE {
        return Ok(());
    }
    send(out, in_line, sink)
}

/// The rest of the output to the sink, unless memory was refused. It answers the run's ending, or that the sink took no more.
fn hand_rest<O: Sink>(ending: Ending, out: &Output, sink: &mut O) -> Ending
    requires { ending ≢ Ending.SinkFailed }
    ensures over { IsHandedOver out.now (O.written sink.old) (O.written sink.new) ending result }
    ensures faults { O.faults sink.old ≤ O.faults sink.new }
    ensures failed { result ≡ Ending.SinkFailed → Rose (O.faults sink.old) (O.faults sink.new) }
{
    if let Ending::Memory = ending {
        return ending;
    }
    match write_all(sink, out.bytes()) {
        Ok(()) => ending,
        Err(_cut) => Ending::SinkFailed,
    }
}

/// The same, behind a run's ending: it is known then whether the output ends inside a line.
pub(crate) fn hand_over<O: Sink>(
    ending: Ending,
    out: &Output,
    in_line: &mut bool,
    sink: &mut O,
) -> Ending
    requires { ending ≢ Ending.SinkFailed }
    ensures over { IsHandedOver out.now (O.written sink.old) (O.written sink.new) ending result }
    ensures line { in_line.new ≡ open_behind in_line.old out.now }
    ensures faults { O.faults sink.old ≤ O.faults sink.new }
    ensures failed { result ≡ Ending.SinkFailed → Rose (O.faults sink.old) (O.faults sink.new) }
{
    *in_line = is_in_line(*in_line, out);
    hand_rest(ending, out, sink)
}
