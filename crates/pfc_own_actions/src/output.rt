//! Output pieces.
ghost use Rattle.std.specs.Prelude.{◌≡◌, ℕ, ◌++◌, List, length};
ghost use Rattle.pfc_stacks.specs.Stacks.{operands_of};
ghost use Rattle.pfc_machines.specs.Actions.{Acts, IsPrinted};
ghost use Rattle.pfc_own_actions.specs.Writing.{width_of, open_behind, writes_value, writes_text, line_end};

use pfc_machines::{ActionFault, Machine, leave};
use pfc_stacks::Stacks;
use pfc_values::{Output, Simple};
use pfc_world::Running;

/// The width of a piece, which is on top where there is one.
fn width(stacks: &Stacks, p: u32, w: u32) -> Option<i64>
    ensures { result ≡ width_of w (operands_of stacks.now p) }
{
    if w == 0 { None } else { Some(stacks.top(p, 0)) }
}

/// Whether the output ends inside a line, where something was printed behind its first `before` bytes.
fn is_inside_line(was: bool, before: usize, out: &Output) -> bool
    ensures { (old bytes : List ℕ) → length old ≡ before → out.now ≡ old ++ bytes → result ≡ open_behind was bytes }
{
    if before < out.bytes().len() {
        out.ends_inside_line()
    } else {
        was
    }
}

/// `WRI`, `WRB` and `WRC`: the value on top, or below a width where w is not 0, is put behind the bytes as it prints. The fault is that of the
/// width.
pub fn write_value(
    machine: &mut Machine,
    r: Running,
    t: Simple,
    w: u32,
    out: &mut Output,
) -> Result<(), ActionFault>
    requires { Acts r.number machine.old }
    ensures { IsPrinted (writes_value t w r.number machine.old) machine.old out.old result machine.new out.new }
{
    let p = r.number();
    machine.world.rest(r);
    let wide = w.min(1);
    let before = out.bytes().len();
    out.put_value(t, machine.stacks.top(p, wide), width(&machine.stacks, p, w))?;
    leave(&mut machine.stacks, p, 1 + wide);
    machine.in_line = is_inside_line(machine.in_line, before, out);
    Ok(())
}

/// `WRS`: a text is put behind the bytes, in the width on top where w is not 0. The fault is that of the width.
pub fn write_text(
    machine: &mut Machine,
    r: Running,
    text: &[u8],
    w: u32,
    out: &mut Output,
) -> Result<(), ActionFault>
    requires { Acts r.number machine.old }
    ensures { IsPrinted (writes_text text.now w r.number machine.old) machine.old out.old result machine.new out.new }
{
    let p = r.number();
    machine.world.rest(r);
    let before = out.bytes().len();
    out.put(text, width(&machine.stacks, p, w))?;
    leave(&mut machine.stacks, p, w.min(1));
    machine.in_line = is_inside_line(machine.in_line, before, out);
    Ok(())
}

/// `WRNL`: a line end.
pub fn write_line_end(
    machine: &mut Machine,
    r: Running,
    out: &mut Output,
) -> Result<(), ActionFault>
    requires { Acts r.number machine.old }
    ensures { IsPrinted (writes_text line_end 0 r.number machine.old) machine.old out.old result machine.new out.new }
{
    write_text(machine, r, b"\n", 0, out)
}
