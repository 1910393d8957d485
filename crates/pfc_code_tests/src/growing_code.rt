//! Instructions put behind one another, and their addresses patched.
ghost use Rattle.std.specs.Prelude.{◌≡◌, true};
ghost use Rattle.pfc_emit.specs.Addresses.{has_address};

use pfc_code::Instr;
use pfc_emit::{EmitFault, Emitter};
use std::alloc::Global;
use std::test::Fail;

/// The code of three instructions, of which the middle one is patched to 9.
fn patched(alloc: Global, instr: Instr) -> Result<(Vec<Instr>, Vec<u32>), EmitFault>
    requires { has_address instr ≡ true }
{
    let mut code = Emitter::new(alloc);
    code.put(Instr::JMP(7), 1)?;
    let at = code.put(instr, 2)?;
    code.put(Instr::JMP(8), 3)?;
    code.patch(at, 9);
    Ok(code.finish())
}

/// The same for an instruction whose address is 0, by its name; of others the code is empty.
fn patched_of(alloc: Global, instr: Instr) -> Result<(Vec<Instr>, Vec<u32>), EmitFault> {
    match instr {
        Instr::JMP(a) => patched(alloc, Instr::JMP(a)),
        Instr::JF(a) => patched(alloc, Instr::JF(a)),
        Instr::TURN(a) => patched(alloc, Instr::TURN(a)),
        Instr::FORB(d, a) => patched(alloc, Instr::FORB(d, a)),
        Instr::FORT(d, a) => patched(alloc, Instr::FORT(d, a)),
        Instr::CEQ(n, a) => patched(alloc, Instr::CEQ(n, a)),
        Instr::ARMS(z, a) => patched(alloc, Instr::ARMS(z, a)),
        Instr::ARMR(z, a) => patched(alloc, Instr::ARMR(z, a)),
        Instr::ARMA(e, d, z, a) => patched(alloc, Instr::ARMA(e, d, z, a)),
        Instr::ARMT(a) => patched(alloc, Instr::ARMT(a)),
        Instr::SEL(p, a) => patched(alloc, Instr::SEL(p, a)),
        _ => Ok((Vec::new(alloc), Vec::new(alloc))),
    }
}

static PATCHES: [(Instr, Instr); 11] = [
    (Instr::JMP(0), Instr::JMP(9)),
    (Instr::JF(0), Instr::JF(9)),
    (Instr::TURN(0), Instr::TURN(9)),
    (Instr::FORB(1, 0), Instr::FORB(1, 9)),
    (Instr::FORT(1, 0), Instr::FORT(1, 9)),
    (Instr::CEQ(-1, 0), Instr::CEQ(-1, 9)),
    (Instr::ARMS(2, 0), Instr::ARMS(2, 9)),
    (Instr::ARMR(2, 0), Instr::ARMR(2, 9)),
    (Instr::ARMA(1, 2, 3, 0), Instr::ARMA(1, 2, 3, 9)),
    (Instr::ARMT(0), Instr::ARMT(9)),
    (Instr::SEL(1, 0), Instr::SEL(1, 9)),
];

#[test]
fn each_address_patched(rt: HostRuntime) -> Result<(), Fail> {
    for (at, (instr, owed)) in PATCHES.iter().enumerate() {
        let (code, lines) = patched_of(rt.alloc(), *instr)?;
        let is_owed = code.as_slice() == [Instr::JMP(7), *owed, Instr::JMP(8)].as_slice();
        assert!(rt;
            is_owed && lines.as_slice() == [1, 2, 3].as_slice(),
            "case {at}"
        );
    }
    Ok(())
}

/// Instructions and their lines, in the order in which they are put.
static PUT: [(Instr, u32); 6] = [
    (Instr::CLOCK, 3),
    (Instr::JF(4), 5),
    (Instr::LIT(1), 5),
    (Instr::JMP(5), 5),
    (Instr::LIT(2), 5),
    (Instr::END, 4),
];

#[test]
fn instructions_and_lines_as_put(rt: HostRuntime) -> Result<(), Fail> {
    let mut code = Emitter::new(rt.alloc());
    for (at, (instr, line)) in PUT.iter().enumerate() {
        let here = code.here() as usize;
        assert!(rt;
            here == at && code.put(*instr, *line)? as usize == at,
            "case {at}"
        );
    }
    let (instrs, lines) = code.finish();
    let as_put = PUT.iter().zip(&instrs).zip(&lines);
    for ((owed, instr), line) in as_put {
        assert!(rt; owed.0 == *instr && owed.1 == *line);
    }
    assert!(rt; (instrs.len(), lines.len()) == (6, 6));
    Ok(())
}

#[test]
fn full_at_200_000(rt: HostRuntime) {
    let mut code = Emitter::new(rt.alloc());
    for n in 0..200_000 {
        assert!(rt; code.put(Instr::FLD(n), n + 1) == Ok(n));
    }
    assert!(rt; code.put(Instr::END, 1) == Err(EmitFault::Full) && code.here() == 200_000);
    let (instrs, lines) = code.finish();
    assert!(rt; (instrs.len(), lines.len()) == (200_000, 200_000));
    assert!(rt; (instrs.first(), lines.first()) == (Some(&Instr::FLD(0)), Some(&1)));
    assert!(rt; (instrs.last(), lines.last()) == (Some(&Instr::FLD(199_999)), Some(&200_000)));
}
