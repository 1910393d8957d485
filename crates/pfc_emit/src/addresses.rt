//! The address argument of an instruction.
ghost use Rattle.std.specs.Prelude.{◌≡◌};
ghost use Rattle.pfc_emit.specs.Addresses.{retargeted};

use pfc_code::Instr;

/// The instruction with `target` for its address argument. One that has no such argument is as it was.
pub(crate) fn retarget(instr: Instr, target: u32) -> Instr
    ensures { result ≡ retargeted instr target }
{
    match instr {
        Instr::JMP(_) => Instr::JMP(target),
        Instr::JF(_) => Instr::JF(target),
        Instr::TURN(_) => Instr::TURN(target),
        Instr::FORB(d, _) => Instr::FORB(d, target),
        Instr::FORT(d, _) => Instr::FORT(d, target),
        Instr::CEQ(n, _) => Instr::CEQ(n, target),
        Instr::ARMS(z, _) => Instr::ARMS(z, target),
        Instr::ARMR(z, _) => Instr::ARMR(z, target),
        Instr::ARMA(e, d, z, _) => Instr::ARMA(e, d, z, target),
        Instr::ARMT(_) => Instr::ARMT(target),
        Instr::SEL(p, _) => Instr::SEL(p, target),
        _ => instr,
    }
}
