//! The quiet instructions that are not of the stacks alone, each once.
ghost use Rattle.std.specs.Prelude.{[], None};
ghost use Rattle.pfc_machines.specs.Quiet.{CanGo};
ghost use Rattle.pfc_machines_tests.specs.Samples.{sample_machine};

use super::machines::{image_of, machine_of};
use pfc_base::{Memory, RunFault};
use pfc_code::Instr;
use pfc_machines::{Machine, Quiet, Scan};
use std::alloc::Global;
use std::test::Fail;

/// What became of an instruction, the next address, two operands from the top, and whose guard is tried.
type After = (Quiet, u32, [i64; 2], Option<u32>);

fn state_of(machine: &Machine, quiet: Quiet) -> After {
    let tops = [machine.stacks.top(0, 0), machine.stacks.top(0, 1)];
    let tried = if machine.descriptors.len() > 0 {
        machine.descriptors.scan(0).and_then(|scan| scan.tried)
    } else {
        None
    };
    (quiet, machine.stacks.at(0), tops, tried)
}

fn after(alloc: Global, i: Instr, scan: Option<Scan>, a: i64, b: i64) -> Result<After, Memory>
    requires { CanGo i 0 (sample_machine a b scan None [] 7) }
{
    let image = image_of(alloc)?;
    let mut machine = machine_of(alloc, &image, a, b, scan, b"", 7)?;
    let quiet = machine.run_quiet(&image.scans, 0, i);
    Ok(state_of(&machine, quiet))
}

/// Main at address 2 with 3 and a top over 50, in a scan where one is given.
fn answer(alloc: Global, i: Instr, scan: Option<Scan>, top: i64) -> Result<After, Memory> {
    match i {
        Instr::ARMS(_, _) => after(alloc, Instr::ARMS(2, 7), scan, 3, top),
        Instr::ARMR(0, _) => after(alloc, Instr::ARMR(0, 7), scan, 3, top),
        Instr::ARMR(_, _) => after(alloc, Instr::ARMR(2, 7), scan, 3, top),
        Instr::ARMA(_, _, _, _) => after(alloc, Instr::ARMA(1, 0, 1, 7), scan, 3, top),
        Instr::ARMT(_) => after(alloc, Instr::ARMT(7), scan, 3, top),
        Instr::ARMX => after(alloc, Instr::ARMX, scan, 3, top),
        Instr::GRD(_) => after(alloc, Instr::GRD(1), scan, 3, top),
        _ => after(alloc, Instr::JMP(7), scan, 3, top),
    }
}

const OWN: Option<Scan> = Some(Scan {
    back: 5,
    after: None,
    tried: None,
    requeued: true,
});

const OTHER: Option<Scan> = Some(Scan {
    back: 5,
    after: None,
    tried: Some(1),
    requeued: false,
});

/// The instruction, a scan, the top, and what is owed.
static INSTRUCTIONS: [(Instr, Option<Scan>, i64, After); 15] = [
    (Instr::ARMS(2, 7), None, 4, (Quiet::Passed, 3, [0, 0], None)),
    (
        Instr::ARMR(0, 7),
        None,
        4,
        (Quiet::Passed, 3, [3, 50], None),
    ),
    (
        Instr::ARMR(2, 7),
        None,
        4,
        (Quiet::Passed, 3, [50, 0], None),
    ),
    (
        Instr::ARMA(1, 0, 1, 7),
        None,
        4,
        (Quiet::Passed, 3, [4, 3], None),
    ),
    (Instr::ARMT(7), None, 4, (Quiet::Passed, 3, [3, 50], None)),
    (Instr::ARMT(7), None, 0, (Quiet::Passed, 3, [3, 50], None)),
    (
        Instr::ARMT(7),
        None,
        -1,
        (Quiet::Faulted(RunFault::Below), 2, [-1, 3], None),
    ),
    (Instr::ARMX, None, 4, (Quiet::Passed, 3, [4, 3], None)),
    (Instr::GRD(1), None, 1, (Quiet::Passed, 3, [3, 50], None)),
    (Instr::GRD(1), None, 0, (Quiet::Acts, 2, [0, 3], None)),
    (Instr::GRD(1), OWN, 1, (Quiet::Passed, 3, [3, 50], None)),
    (Instr::GRD(1), OWN, 0, (Quiet::Acts, 2, [0, 3], None)),
    (Instr::GRD(1), OTHER, 0, (Quiet::Passed, 77, [3, 50], None)),
    (Instr::GRD(1), OTHER, 1, (Quiet::Acts, 2, [1, 3], Some(1))),
    (Instr::JMP(7), None, 4, (Quiet::Acts, 2, [4, 3], None)),
];

#[test]
fn each_quiet_instruction(rt: HostRuntime) -> Result<(), Fail> {
    for (at, (i, scan, top, owed)) in INSTRUCTIONS.iter().enumerate() {
        assert!(rt; answer(rt.alloc(), *i, *scan, *top)? == *owed, "case {at}");
    }
    Ok(())
}
