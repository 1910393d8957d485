//! How many operands each instruction reads, takes and leaves.
ghost use Rattle.std.specs.Prelude.{◌≡◌, ◌≤◌, ◌^◌};
ghost use Rattle.pfc_code.specs.Operands as operands;

use crate::Instr;

/// A number of operands. What an instruction does not tell depends on a block of the image, which is named by its number.
#[derive(Clone, Copy, PartialEq, Eq)]
pub enum Count {
    /// So many.
    Exactly(u64),
    /// As many as the parameters of the block have cells.
    OfParameters(u32),
    /// One more than that.
    OneAndParameters(u32),
    /// As many as the result of the block has cells: 1 for a function, else none.
    OfResult(u32),
}

/// How many operands of its activation an instruction reads, takes and leaves. What it reads is on top, and what it takes
/// is of that.
#[derive(Clone, Copy, PartialEq, Eq)]
pub struct Operands {
    /// So many must be there.
    pub reads: Count,
    /// It pops so many where the process goes on at the next instruction.
    pub takes: Count,
    /// It pops so many where the process goes on at the address that the instruction names.
    pub takes_jumping: Count,
    /// It pushes so many; a call does so when it has returned.
    pub leaves: Count,
}

/// It pops what it reads.
fn taking(reads: Count, leaves: Count) -> Operands
    ensures { result ≡ operands.taking reads leaves }
{
    Operands {
        reads,
        takes: reads,
        takes_jumping: reads,
        leaves,
    }
}

fn pops(reads: u64, leaves: u64) -> Operands
    ensures { result ≡ operands.pops reads leaves }
{
    taking(Count::Exactly(reads), Count::Exactly(leaves))
}

/// It may keep what it reads.
fn keeps(reads: u64, takes: u64, takes_jumping: u64) -> Operands
    ensures { result ≡ operands.keeps reads takes takes_jumping }
{
    Operands {
        reads: Count::Exactly(reads),
        takes: Count::Exactly(takes),
        takes_jumping: Count::Exactly(takes_jumping),
        leaves: Count::Exactly(0),
    }
}

/// What a receive has as operands: over a channel of `synchronous` no address.
fn receiving(z: u32) -> u64
    ensures { result ≡ operands.receiving z }
{
    if z == 0 { 1 } else { 2 }
}

impl Instr {
    /// How many operands the instruction reads, takes and leaves. What it tells of them itself is at most 2^32.
    pub fn operands(self) -> Operands
        ensures counts { result ≡ operands.operands_of self }
        ensures few { operands.told result.reads ≤ 2 ^ 32 }
        ensures few_left { operands.told result.leaves ≤ 2 ^ 32 }
    {
        match self {
            Instr::LIT(_)
            | Instr::ADDR(_, _)
            | Instr::REF(_, _)
            | Instr::CLOCK
            | Instr::EOF
            | Instr::EOLN => pops(0, 1),
            Instr::IDX(_, _, _)
            | Instr::ADD
            | Instr::SUB
            | Instr::MUL
            | Instr::DIV
            | Instr::MOD
            | Instr::AND
            | Instr::OR
            | Instr::EQ
            | Instr::NE
            | Instr::LT
            | Instr::LE
            | Instr::GT
            | Instr::GE => pops(2, 1),
            Instr::FLD(_)
            | Instr::OBJ
            | Instr::NEG
            | Instr::ABS
            | Instr::SQR
            | Instr::ODD
            | Instr::CHR
            | Instr::SUCC(_)
            | Instr::PRED(_)
            | Instr::NOT
            | Instr::EMPTY
            | Instr::RAND => pops(1, 1),
            Instr::LOAD(z) => pops(1, z as u64),
            Instr::STORE(z) | Instr::SEND(z) | Instr::ECALL(_, z) | Instr::ARMS(z, _) => pops(
                z as u64 + 1,
                0,
            ),
            Instr::JMP(_)
            | Instr::TURN(_)
            | Instr::RET
            | Instr::RETF
            | Instr::SCAN(_)
            | Instr::COEND
            | Instr::END
            | Instr::ACC(_, _, _)
            | Instr::EACC
            | Instr::ARMA(_, _, _, _)
            | Instr::ARMX
            | Instr::SEL(_, _)
            | Instr::WRNL
            | Instr::RDNL => pops(0, 0),
            Instr::JF(_)
            | Instr::CERR
            | Instr::GRD(_)
            | Instr::SWAIT
            | Instr::SSIG
            | Instr::ARMT(_)
            | Instr::RESUME
            | Instr::SLEEP
            | Instr::RDI
            | Instr::RDC => pops(1, 0),
            Instr::FORB(_, _) => keeps(3, 0, 3),
            Instr::FORW => keeps(3, 0, 0),
            Instr::FORT(_, _) => keeps(3, 3, 0),
            Instr::CEQ(_, _) => keeps(1, 0, 1),
            Instr::CALL(b, _) => taking(Count::OfParameters(b), Count::OfResult(b)),
            Instr::MCALL(_, b) | Instr::RCALL(_, b) | Instr::REQ(_, b) => taking(
                Count::OfParameters(b),
                Count::Exactly(0),
            ),
            Instr::NEW(b) => taking(Count::OneAndParameters(b), Count::Exactly(0)),
            Instr::SINI | Instr::DELAY => pops(2, 0),
            Instr::RECV(z) | Instr::ARMR(z, _) => pops(receiving(z), 0),
            Instr::WRI(w) | Instr::WRB(w) | Instr::WRC(w) => pops(1 + w as u64, 0),
            Instr::WRS(_, w) => pops(w as u64, 0),
        }
    }
}
