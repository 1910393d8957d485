//! Output pieces.
ghost use Rattle.std.specs.Prelude.{◌≡◌, ◌++◌, ℕ, List, IfOk, IfErr, OnOk, OnErr};
ghost use Rattle.pfc_pending.specs.declared.actions.Deed.TheVariants as deed;
ghost use Rattle.pfc_pending.specs.Pieces.{piece_bytes};
ghost use Rattle.pfc_values.specs.Outputs.{Gains, IsRefusedBy};
ghost use Rattle.pfc_values.specs.Pieces.{piece as piece_of};
ghost use Rattle.pfc_activities.specs.Relation.{MayAct, IsPerformed};

use pfc_activities::{Done, State};
use pfc_base::Memory;
use pfc_pending::{At, Piece};
use pfc_values::{Output, PieceFault};

/// The bytes of a piece behind the others.
fn put(out: &mut Output, bytes: Piece, width: Option<i64>) -> Result<(), PieceFault>
    ensures ok { OnOk result (Gains out.old out.new (piece_of width (piece_bytes bytes.entry))) }
    ensures fault { IfErr result (IsRefusedBy (piece_of width (piece_bytes bytes.entry))) }
    ensures err { OnErr result (out.new ≡ out.old) }
{
    match bytes {
        Piece::Text(text) => out.put(text, width),
        Piece::Shown(t, n) => out.put_value(t, n, width),
    }
}

/// A piece is written, with its width where one is given: a width outside 0 to 255 is a fault. Want of memory changes nothing.
pub fn prints<'t>(
    state: &mut State<'t>,
    p: u32,
    bytes: Piece<'t>,
    width: Option<i64>,
    out: &mut Output,
) -> Result<Done, Memory>
    requires { MayAct state.old p }
    ensures ok { IfOk result (λ d. (added : List ℕ) × (out.new ≡ out.old ++ added) ×
        IsPerformed state.old state.new p (deed.Prints bytes.entry width) added d) }
    ensures err { OnErr result (state.new ≡ state.old) }
    ensures kept { OnErr result (out.new ≡ out.old) }
{
    match put(out, bytes, width) {
        Ok(()) => Ok(state.go_on(p, At::Rest)),
        Err(PieceFault::Fault(fault)) => Ok(state.end_in_fault(p, fault)),
        Err(PieceFault::Memory) => Err(Memory),
    }
}
