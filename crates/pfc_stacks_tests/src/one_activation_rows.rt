//! Instructions with their operands, and what is seen of them.

use pfc_base::RunFault;
use pfc_code::Instr;

/// What became of an instruction.
#[derive(Clone, Copy, PartialEq, Eq)]
pub(super) enum Seen {
    Quiet,
    Acted,
    Fault(RunFault),
    Outward(Instr),
    NoMemory,
}

/// Four operands, the last of them on top.
pub(super) type Four = (i64, i64, i64, i64);

/// What is seen, the next address, and five operands from the top.
pub(super) type After = (Seen, u32, [i64; 5]);

const MOST: i64 = 2_147_483_647;

const LEAST: i64 = -2_147_483_648;

pub(super) static INSTRUCTIONS: [(Instr, Four, After); 99] = [
    (
        Instr::LIT(-5),
        (1, 2, 3, 4),
        (Seen::Quiet, 1, [-5, 4, 3, 2, 1]),
    ),
    (
        Instr::ADDR(0, 2),
        (1, 2, 3, 4),
        (Seen::Quiet, 1, [10, 4, 3, 2, 1]),
    ),
    (
        Instr::ADDR(1, 2),
        (1, 2, 3, 4),
        (Seen::Quiet, 1, [10, 4, 3, 2, 1]),
    ),
    (
        Instr::FLD(2),
        (1, 2, 3, 8),
        (Seen::Quiet, 1, [10, 3, 2, 1, 0]),
    ),
    (
        Instr::IDX(1, 3, 2),
        (1, 2, 8, 1),
        (Seen::Quiet, 1, [8, 2, 1, 0, 0]),
    ),
    (
        Instr::IDX(1, 3, 2),
        (1, 2, 8, 3),
        (Seen::Quiet, 1, [12, 2, 1, 0, 0]),
    ),
    (
        Instr::IDX(-2, -1, 1),
        (1, 2, 8, -1),
        (Seen::Quiet, 1, [9, 2, 1, 0, 0]),
    ),
    (
        Instr::IDX(1, 3, 2),
        (1, 2, 8, 0),
        (Seen::Fault(RunFault::Index), 0, [0, 8, 2, 1, 0]),
    ),
    (
        Instr::IDX(1, 3, 2),
        (1, 2, 8, 4),
        (Seen::Fault(RunFault::Index), 0, [4, 8, 2, 1, 0]),
    ),
    (
        Instr::LOAD(1),
        (1, 2, 3, 9),
        (Seen::Acted, 1, [12, 3, 2, 1, 0]),
    ),
    (
        Instr::LOAD(3),
        (1, 2, 3, 8),
        (Seen::Acted, 1, [13, 12, 11, 3, 2]),
    ),
    (
        Instr::LOAD(3),
        (1, 2, 3, 11),
        (Seen::Acted, 1, [0, 0, 0, 3, 2]),
    ),
    (Instr::ADD, (1, 2, 2, 3), (Seen::Quiet, 1, [5, 2, 1, 0, 0])),
    (
        Instr::ADD,
        (1, 2, MOST - 1, 1),
        (Seen::Quiet, 1, [MOST, 2, 1, 0, 0]),
    ),
    (
        Instr::ADD,
        (1, 2, MOST, 1),
        (Seen::Fault(RunFault::Overflow), 0, [1, MOST, 2, 1, 0]),
    ),
    (
        Instr::ADD,
        (1, 2, i64::MAX, 1),
        (Seen::Fault(RunFault::Overflow), 0, [1, i64::MAX, 2, 1, 0]),
    ),
    (Instr::SUB, (1, 2, 2, 3), (Seen::Quiet, 1, [-1, 2, 1, 0, 0])),
    (
        Instr::SUB,
        (1, 2, LEAST + 1, 1),
        (Seen::Quiet, 1, [LEAST, 2, 1, 0, 0]),
    ),
    (
        Instr::SUB,
        (1, 2, LEAST, 1),
        (Seen::Fault(RunFault::Overflow), 0, [1, LEAST, 2, 1, 0]),
    ),
    (
        Instr::MUL,
        (1, 2, -2, 3),
        (Seen::Quiet, 1, [-6, 2, 1, 0, 0]),
    ),
    (
        Instr::MUL,
        (1, 2, 65536, 32768),
        (Seen::Fault(RunFault::Overflow), 0, [32768, 65536, 2, 1, 0]),
    ),
    (
        Instr::MUL,
        (1, 2, i64::MAX, 2),
        (Seen::Fault(RunFault::Overflow), 0, [2, i64::MAX, 2, 1, 0]),
    ),
    (Instr::DIV, (1, 2, 7, 2), (Seen::Quiet, 1, [3, 2, 1, 0, 0])),
    (
        Instr::DIV,
        (1, 2, -7, 2),
        (Seen::Quiet, 1, [-3, 2, 1, 0, 0]),
    ),
    (
        Instr::DIV,
        (1, 2, 1, 0),
        (Seen::Fault(RunFault::Division), 0, [0, 1, 2, 1, 0]),
    ),
    (
        Instr::DIV,
        (1, 2, LEAST, -1),
        (Seen::Fault(RunFault::Overflow), 0, [-1, LEAST, 2, 1, 0]),
    ),
    (
        Instr::MOD,
        (1, 2, -7, 2),
        (Seen::Quiet, 1, [-1, 2, 1, 0, 0]),
    ),
    (Instr::MOD, (1, 2, 7, -2), (Seen::Quiet, 1, [1, 2, 1, 0, 0])),
    (
        Instr::MOD,
        (1, 2, i64::MIN, -1),
        (Seen::Quiet, 1, [0, 2, 1, 0, 0]),
    ),
    (
        Instr::MOD,
        (1, 2, 1, 0),
        (Seen::Fault(RunFault::Division), 0, [0, 1, 2, 1, 0]),
    ),
    (Instr::NEG, (1, 2, 3, 5), (Seen::Quiet, 1, [-5, 3, 2, 1, 0])),
    (
        Instr::NEG,
        (1, 2, 3, LEAST),
        (Seen::Fault(RunFault::Overflow), 0, [LEAST, 3, 2, 1, 0]),
    ),
    (Instr::ABS, (1, 2, 3, -5), (Seen::Quiet, 1, [5, 3, 2, 1, 0])),
    (Instr::ABS, (1, 2, 3, 5), (Seen::Quiet, 1, [5, 3, 2, 1, 0])),
    (
        Instr::ABS,
        (1, 2, 3, LEAST),
        (Seen::Fault(RunFault::Overflow), 0, [LEAST, 3, 2, 1, 0]),
    ),
    (
        Instr::SQR,
        (1, 2, 3, 46340),
        (Seen::Quiet, 1, [2147395600, 3, 2, 1, 0]),
    ),
    (
        Instr::SQR,
        (1, 2, 3, 46341),
        (Seen::Fault(RunFault::Overflow), 0, [46341, 3, 2, 1, 0]),
    ),
    (Instr::ODD, (1, 2, 3, -3), (Seen::Quiet, 1, [1, 3, 2, 1, 0])),
    (Instr::ODD, (1, 2, 3, 4), (Seen::Quiet, 1, [0, 3, 2, 1, 0])),
    (
        Instr::CHR,
        (1, 2, 3, 255),
        (Seen::Quiet, 1, [255, 3, 2, 1, 0]),
    ),
    (
        Instr::CHR,
        (1, 2, 3, 256),
        (Seen::Fault(RunFault::Range), 0, [256, 3, 2, 1, 0]),
    ),
    (
        Instr::CHR,
        (1, 2, 3, -1),
        (Seen::Fault(RunFault::Range), 0, [-1, 3, 2, 1, 0]),
    ),
    (
        Instr::SUCC(0),
        (1, 2, 3, MOST - 1),
        (Seen::Quiet, 1, [MOST, 3, 2, 1, 0]),
    ),
    (
        Instr::SUCC(0),
        (1, 2, 3, MOST),
        (Seen::Fault(RunFault::Range), 0, [MOST, 3, 2, 1, 0]),
    ),
    (
        Instr::SUCC(1),
        (1, 2, 3, 0),
        (Seen::Quiet, 1, [1, 3, 2, 1, 0]),
    ),
    (
        Instr::SUCC(1),
        (1, 2, 3, 1),
        (Seen::Fault(RunFault::Range), 0, [1, 3, 2, 1, 0]),
    ),
    (
        Instr::SUCC(2),
        (1, 2, 3, 254),
        (Seen::Quiet, 1, [255, 3, 2, 1, 0]),
    ),
    (
        Instr::SUCC(2),
        (1, 2, 3, 255),
        (Seen::Fault(RunFault::Range), 0, [255, 3, 2, 1, 0]),
    ),
    (
        Instr::PRED(0),
        (1, 2, 3, LEAST + 1),
        (Seen::Quiet, 1, [LEAST, 3, 2, 1, 0]),
    ),
    (
        Instr::PRED(0),
        (1, 2, 3, LEAST),
        (Seen::Fault(RunFault::Range), 0, [LEAST, 3, 2, 1, 0]),
    ),
    (
        Instr::PRED(1),
        (1, 2, 3, 1),
        (Seen::Quiet, 1, [0, 3, 2, 1, 0]),
    ),
    (
        Instr::PRED(1),
        (1, 2, 3, 0),
        (Seen::Fault(RunFault::Range), 0, [0, 3, 2, 1, 0]),
    ),
    (
        Instr::PRED(2),
        (1, 2, 3, 255),
        (Seen::Quiet, 1, [254, 3, 2, 1, 0]),
    ),
    (
        Instr::PRED(2),
        (1, 2, 3, 0),
        (Seen::Fault(RunFault::Range), 0, [0, 3, 2, 1, 0]),
    ),
    (Instr::NOT, (1, 2, 3, 0), (Seen::Quiet, 1, [1, 3, 2, 1, 0])),
    (Instr::NOT, (1, 2, 3, 2), (Seen::Quiet, 1, [0, 3, 2, 1, 0])),
    (Instr::AND, (1, 2, 2, 3), (Seen::Quiet, 1, [1, 2, 1, 0, 0])),
    (Instr::AND, (1, 2, 2, 0), (Seen::Quiet, 1, [0, 2, 1, 0, 0])),
    (Instr::OR, (1, 2, 0, 2), (Seen::Quiet, 1, [1, 2, 1, 0, 0])),
    (Instr::OR, (1, 2, 0, 0), (Seen::Quiet, 1, [0, 2, 1, 0, 0])),
    (Instr::EQ, (1, 2, 3, 3), (Seen::Quiet, 1, [1, 2, 1, 0, 0])),
    (Instr::EQ, (1, 2, 3, 4), (Seen::Quiet, 1, [0, 2, 1, 0, 0])),
    (Instr::NE, (1, 2, 3, 4), (Seen::Quiet, 1, [1, 2, 1, 0, 0])),
    (Instr::NE, (1, 2, 3, 3), (Seen::Quiet, 1, [0, 2, 1, 0, 0])),
    (Instr::LT, (1, 2, 3, 4), (Seen::Quiet, 1, [1, 2, 1, 0, 0])),
    (Instr::LT, (1, 2, 3, 3), (Seen::Quiet, 1, [0, 2, 1, 0, 0])),
    (Instr::LE, (1, 2, 3, 3), (Seen::Quiet, 1, [1, 2, 1, 0, 0])),
    (Instr::LE, (1, 2, 4, 3), (Seen::Quiet, 1, [0, 2, 1, 0, 0])),
    (Instr::GT, (1, 2, 4, 3), (Seen::Quiet, 1, [1, 2, 1, 0, 0])),
    (Instr::GT, (1, 2, 3, 3), (Seen::Quiet, 1, [0, 2, 1, 0, 0])),
    (Instr::GE, (1, 2, 3, 3), (Seen::Quiet, 1, [1, 2, 1, 0, 0])),
    (Instr::GE, (1, 2, 3, 4), (Seen::Quiet, 1, [0, 2, 1, 0, 0])),
    (
        Instr::JMP(9),
        (1, 2, 3, 4),
        (Seen::Quiet, 9, [4, 3, 2, 1, 0]),
    ),
    (
        Instr::JF(9),
        (1, 2, 3, 0),
        (Seen::Quiet, 9, [3, 2, 1, 0, 0]),
    ),
    (
        Instr::JF(9),
        (1, 2, 3, 7),
        (Seen::Quiet, 1, [3, 2, 1, 0, 0]),
    ),
    (
        Instr::TURN(9),
        (1, 2, 3, 4),
        (Seen::Acted, 9, [4, 3, 2, 1, 0]),
    ),
    (
        Instr::CEQ(4, 9),
        (1, 2, 3, 4),
        (Seen::Quiet, 9, [3, 2, 1, 0, 0]),
    ),
    (
        Instr::CEQ(3, 9),
        (1, 2, 3, 4),
        (Seen::Quiet, 1, [4, 3, 2, 1, 0]),
    ),
    (
        Instr::CERR,
        (1, 2, 3, 4),
        (Seen::Fault(RunFault::Case), 0, [4, 3, 2, 1, 0]),
    ),
    (
        Instr::FORB(0, 9),
        (1, 11, 5, 4),
        (Seen::Quiet, 9, [1, 0, 0, 0, 0]),
    ),
    (
        Instr::FORB(0, 9),
        (1, 11, 4, 4),
        (Seen::Quiet, 1, [4, 4, 11, 1, 0]),
    ),
    (
        Instr::FORB(1, 9),
        (1, 11, 4, 5),
        (Seen::Quiet, 9, [1, 0, 0, 0, 0]),
    ),
    (
        Instr::FORB(1, 9),
        (1, 11, 4, 4),
        (Seen::Quiet, 1, [4, 4, 11, 1, 0]),
    ),
    (
        Instr::FORT(0, 9),
        (1, 11, 3, 4),
        (Seen::Acted, 9, [4, 4, 11, 1, 0]),
    ),
    (
        Instr::FORT(0, 9),
        (1, 11, 4, 4),
        (Seen::Quiet, 1, [1, 0, 0, 0, 0]),
    ),
    (
        Instr::FORT(1, 9),
        (1, 11, 5, 4),
        (Seen::Acted, 9, [4, 4, 11, 1, 0]),
    ),
    (
        Instr::FORT(1, 9),
        (1, 11, 4, 4),
        (Seen::Quiet, 1, [1, 0, 0, 0, 0]),
    ),
    (
        Instr::REF(0, 2),
        (1, 2, 3, 4),
        (Seen::Quiet, 1, [13, 4, 3, 2, 1]),
    ),
    (Instr::OBJ, (1, 2, 3, 9), (Seen::Quiet, 1, [12, 3, 2, 1, 0])),
    (
        Instr::NEW(0),
        (1, 2, 3, 4),
        (Seen::Outward(Instr::NEW(0)), 0, [4, 3, 2, 1, 0]),
    ),
    (
        Instr::END,
        (1, 2, 3, 4),
        (Seen::Outward(Instr::END), 0, [4, 3, 2, 1, 0]),
    ),
    (
        Instr::SWAIT,
        (1, 2, 3, 4),
        (Seen::Outward(Instr::SWAIT), 0, [4, 3, 2, 1, 0]),
    ),
    (
        Instr::SEND(1),
        (1, 2, 3, 4),
        (Seen::Outward(Instr::SEND(1)), 0, [4, 3, 2, 1, 0]),
    ),
    (
        Instr::SEL(0, 0),
        (1, 2, 3, 4),
        (Seen::Outward(Instr::SEL(0, 0)), 0, [4, 3, 2, 1, 0]),
    ),
    (
        Instr::WRI(0),
        (1, 2, 3, 4),
        (Seen::Outward(Instr::WRI(0)), 0, [4, 3, 2, 1, 0]),
    ),
    (
        Instr::EOLN,
        (1, 2, 3, 4),
        (Seen::Outward(Instr::EOLN), 0, [4, 3, 2, 1, 0]),
    ),
    (
        Instr::STORE(1),
        (1, 2, 11, 5),
        (Seen::Acted, 1, [2, 1, 0, 0, 0]),
    ),
    (
        Instr::STORE(3),
        (9, 1, 2, 3),
        (Seen::Acted, 1, [0, 0, 0, 0, 0]),
    ),
    (
        Instr::FORW,
        (1, 11, 4, 9),
        (Seen::Acted, 1, [9, 4, 11, 1, 0]),
    ),
];
