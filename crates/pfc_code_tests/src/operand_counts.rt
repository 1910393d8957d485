//! The operands of each instruction.

use pfc_code::{Count, Instr};
use std::test::Fail;

/// A count as a number: what depends on block b is told apart as 100, 200 and 300 over b.
fn number(count: Count) -> u64 {
    match count {
        Count::Exactly(n) => n,
        Count::OfParameters(b) => 100 + b as u64,
        Count::OneAndParameters(b) => 200 + b as u64,
        Count::OfResult(b) => 300 + b as u64,
    }
}

/// What the instruction reads, what it takes on its way to the next one and where it jumps, and what it leaves.
fn counts(instr: Instr) -> [u64; 4] {
    let operands = instr.operands();
    [
        number(operands.reads),
        number(operands.takes),
        number(operands.takes_jumping),
        number(operands.leaves),
    ]
}

static COUNTS: [(Instr, [u64; 4]); 89] = [
    (Instr::LIT(7), [0, 0, 0, 1]),
    (Instr::ADDR(1, 2), [0, 0, 0, 1]),
    (Instr::REF(1, 2), [0, 0, 0, 1]),
    (Instr::IDX(1, 9, 4), [2, 2, 2, 1]),
    (Instr::FLD(3), [1, 1, 1, 1]),
    (Instr::LOAD(1), [1, 1, 1, 1]),
    (Instr::LOAD(5), [1, 1, 1, 5]),
    (Instr::STORE(1), [2, 2, 2, 0]),
    (Instr::STORE(5), [6, 6, 6, 0]),
    (Instr::OBJ, [1, 1, 1, 1]),
    (Instr::NEG, [1, 1, 1, 1]),
    (Instr::ADD, [2, 2, 2, 1]),
    (Instr::SUB, [2, 2, 2, 1]),
    (Instr::MUL, [2, 2, 2, 1]),
    (Instr::DIV, [2, 2, 2, 1]),
    (Instr::MOD, [2, 2, 2, 1]),
    (Instr::ABS, [1, 1, 1, 1]),
    (Instr::SQR, [1, 1, 1, 1]),
    (Instr::ODD, [1, 1, 1, 1]),
    (Instr::CHR, [1, 1, 1, 1]),
    (Instr::SUCC(2), [1, 1, 1, 1]),
    (Instr::PRED(2), [1, 1, 1, 1]),
    (Instr::NOT, [1, 1, 1, 1]),
    (Instr::AND, [2, 2, 2, 1]),
    (Instr::OR, [2, 2, 2, 1]),
    (Instr::EQ, [2, 2, 2, 1]),
    (Instr::NE, [2, 2, 2, 1]),
    (Instr::LT, [2, 2, 2, 1]),
    (Instr::LE, [2, 2, 2, 1]),
    (Instr::GT, [2, 2, 2, 1]),
    (Instr::GE, [2, 2, 2, 1]),
    (Instr::JMP(4), [0, 0, 0, 0]),
    (Instr::JF(4), [1, 1, 1, 0]),
    (Instr::TURN(4), [0, 0, 0, 0]),
    (Instr::FORB(1, 4), [3, 0, 3, 0]),
    (Instr::FORW, [3, 0, 0, 0]),
    (Instr::FORT(1, 4), [3, 3, 0, 0]),
    (Instr::CEQ(7, 4), [1, 0, 1, 0]),
    (Instr::CERR, [1, 1, 1, 0]),
    (Instr::CALL(6, 2), [106, 106, 106, 306]),
    (Instr::RET, [0, 0, 0, 0]),
    (Instr::RETF, [0, 0, 0, 0]),
    (Instr::MCALL(2, 6), [106, 106, 106, 0]),
    (Instr::RCALL(2, 6), [106, 106, 106, 0]),
    (Instr::GRD(2), [1, 1, 1, 0]),
    (Instr::SCAN(2), [0, 0, 0, 0]),
    (Instr::REQ(2, 6), [106, 106, 106, 0]),
    (Instr::NEW(6), [206, 206, 206, 0]),
    (Instr::COEND, [0, 0, 0, 0]),
    (Instr::END, [0, 0, 0, 0]),
    (Instr::SINI, [2, 2, 2, 0]),
    (Instr::SWAIT, [1, 1, 1, 0]),
    (Instr::SSIG, [1, 1, 1, 0]),
    (Instr::SEND(0), [1, 1, 1, 0]),
    (Instr::SEND(5), [6, 6, 6, 0]),
    (Instr::RECV(0), [1, 1, 1, 0]),
    (Instr::RECV(5), [2, 2, 2, 0]),
    (Instr::ECALL(3, 0), [1, 1, 1, 0]),
    (Instr::ECALL(3, 5), [6, 6, 6, 0]),
    (Instr::ACC(3, 2, 5), [0, 0, 0, 0]),
    (Instr::EACC, [0, 0, 0, 0]),
    (Instr::ARMS(0, 4), [1, 1, 1, 0]),
    (Instr::ARMS(5, 4), [6, 6, 6, 0]),
    (Instr::ARMR(0, 4), [1, 1, 1, 0]),
    (Instr::ARMR(5, 4), [2, 2, 2, 0]),
    (Instr::ARMA(3, 2, 5, 4), [0, 0, 0, 0]),
    (Instr::ARMT(4), [1, 1, 1, 0]),
    (Instr::ARMX, [0, 0, 0, 0]),
    (Instr::SEL(1, 4), [0, 0, 0, 0]),
    (Instr::DELAY, [2, 2, 2, 0]),
    (Instr::RESUME, [1, 1, 1, 0]),
    (Instr::EMPTY, [1, 1, 1, 1]),
    (Instr::SLEEP, [1, 1, 1, 0]),
    (Instr::CLOCK, [0, 0, 0, 1]),
    (Instr::RAND, [1, 1, 1, 1]),
    (Instr::WRI(0), [1, 1, 1, 0]),
    (Instr::WRI(1), [2, 2, 2, 0]),
    (Instr::WRB(0), [1, 1, 1, 0]),
    (Instr::WRB(1), [2, 2, 2, 0]),
    (Instr::WRC(0), [1, 1, 1, 0]),
    (Instr::WRC(1), [2, 2, 2, 0]),
    (Instr::WRS(7, 0), [0, 0, 0, 0]),
    (Instr::WRS(7, 1), [1, 1, 1, 0]),
    (Instr::WRNL, [0, 0, 0, 0]),
    (Instr::RDI, [1, 1, 1, 0]),
    (Instr::RDC, [1, 1, 1, 0]),
    (Instr::RDNL, [0, 0, 0, 0]),
    (Instr::EOF, [0, 0, 0, 1]),
    (Instr::EOLN, [0, 0, 0, 1]),
];

#[test]
fn operands_of_each_instruction(rt: HostRuntime) -> Result<(), Fail> {
    for (at, (instr, owed)) in COUNTS.iter().enumerate() {
        assert!(rt; counts(*instr) == *owed, "case {at}");
    }
    Ok(())
}
