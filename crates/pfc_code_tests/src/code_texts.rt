//! The code text of each instruction with the widest arguments, and of a small program.
ghost use Rattle.std.specs.Prelude.{◌≡◌, IfOk, length};

use pfc_base::Memory;
use pfc_code::{Image, Instr, print_code};
use std::alloc::Global;
use std::test::Fail;

const MAX: u32 = u32::MAX;

static EACH: [Instr; 78] = [
    Instr::LIT(i32::MIN),
    Instr::ADDR(MAX, MAX),
    Instr::REF(MAX, MAX),
    Instr::IDX(i32::MIN, i32::MAX, MAX),
    Instr::FLD(MAX),
    Instr::LOAD(MAX),
    Instr::STORE(MAX),
    Instr::OBJ,
    Instr::NEG,
    Instr::ADD,
    Instr::SUB,
    Instr::MUL,
    Instr::DIV,
    Instr::MOD,
    Instr::ABS,
    Instr::SQR,
    Instr::ODD,
    Instr::CHR,
    Instr::SUCC(MAX),
    Instr::PRED(MAX),
    Instr::NOT,
    Instr::AND,
    Instr::OR,
    Instr::EQ,
    Instr::NE,
    Instr::LT,
    Instr::LE,
    Instr::GT,
    Instr::GE,
    Instr::JMP(MAX),
    Instr::JF(MAX),
    Instr::TURN(MAX),
    Instr::FORB(MAX, MAX),
    Instr::FORW,
    Instr::FORT(MAX, MAX),
    Instr::CEQ(i32::MAX, MAX),
    Instr::CERR,
    Instr::CALL(MAX, MAX),
    Instr::RET,
    Instr::RETF,
    Instr::MCALL(MAX, MAX),
    Instr::RCALL(MAX, MAX),
    Instr::GRD(MAX),
    Instr::SCAN(MAX),
    Instr::REQ(MAX, MAX),
    Instr::NEW(MAX),
    Instr::COEND,
    Instr::END,
    Instr::SINI,
    Instr::SWAIT,
    Instr::SSIG,
    Instr::SEND(MAX),
    Instr::RECV(MAX),
    Instr::ECALL(MAX, MAX),
    Instr::ACC(MAX, MAX, MAX),
    Instr::EACC,
    Instr::ARMS(MAX, MAX),
    Instr::ARMR(MAX, MAX),
    Instr::ARMA(MAX, MAX, MAX, MAX),
    Instr::ARMT(MAX),
    Instr::ARMX,
    Instr::SEL(MAX, MAX),
    Instr::DELAY,
    Instr::RESUME,
    Instr::EMPTY,
    Instr::SLEEP,
    Instr::CLOCK,
    Instr::RAND,
    Instr::WRI(MAX),
    Instr::WRB(MAX),
    Instr::WRC(MAX),
    Instr::WRS(MAX, MAX),
    Instr::WRNL,
    Instr::RDI,
    Instr::RDC,
    Instr::RDNL,
    Instr::EOF,
    Instr::EOLN,
];

const EACH_TEXT: &str = "     0 4294967295 LIT -2147483648
     1 4294967295 ADDR 4294967295 4294967295
     2 4294967295 REF 4294967295 4294967295
     3 4294967295 IDX -2147483648 2147483647 4294967295
     4 4294967295 FLD 4294967295
     5 4294967295 LOAD 4294967295
     6 4294967295 STORE 4294967295
     7 4294967295 OBJ
     8 4294967295 NEG
     9 4294967295 ADD
    10 4294967295 SUB
    11 4294967295 MUL
    12 4294967295 DIV
    13 4294967295 MOD
    14 4294967295 ABS
    15 4294967295 SQR
    16 4294967295 ODD
    17 4294967295 CHR
    18 4294967295 SUCC 4294967295
    19 4294967295 PRED 4294967295
    20 4294967295 NOT
    21 4294967295 AND
    22 4294967295 OR
    23 4294967295 EQ
    24 4294967295 NE
    25 4294967295 LT
    26 4294967295 LE
    27 4294967295 GT
    28 4294967295 GE
    29 4294967295 JMP 4294967295
    30 4294967295 JF 4294967295
    31 4294967295 TURN 4294967295
    32 4294967295 FORB 4294967295 4294967295
    33 4294967295 FORW
    34 4294967295 FORT 4294967295 4294967295
    35 4294967295 CEQ 2147483647 4294967295
    36 4294967295 CERR
    37 4294967295 CALL 4294967295 4294967295
    38 4294967295 RET
    39 4294967295 RETF
    40 4294967295 MCALL 4294967295 4294967295
    41 4294967295 RCALL 4294967295 4294967295
    42 4294967295 GRD 4294967295
    43 4294967295 SCAN 4294967295
    44 4294967295 REQ 4294967295 4294967295
    45 4294967295 NEW 4294967295
    46 4294967295 COEND
    47 4294967295 END
    48 4294967295 SINI
    49 4294967295 SWAIT
    50 4294967295 SSIG
    51 4294967295 SEND 4294967295
    52 4294967295 RECV 4294967295
    53 4294967295 ECALL 4294967295 4294967295
    54 4294967295 ACC 4294967295 4294967295 4294967295
    55 4294967295 EACC
    56 4294967295 ARMS 4294967295 4294967295
    57 4294967295 ARMR 4294967295 4294967295
    58 4294967295 ARMA 4294967295 4294967295 4294967295 4294967295
    59 4294967295 ARMT 4294967295
    60 4294967295 ARMX
    61 4294967295 SEL 4294967295 4294967295
    62 4294967295 DELAY
    63 4294967295 RESUME
    64 4294967295 EMPTY
    65 4294967295 SLEEP
    66 4294967295 CLOCK
    67 4294967295 RAND
    68 4294967295 WRI 4294967295
    69 4294967295 WRB 4294967295
    70 4294967295 WRC 4294967295
    71 4294967295 WRS 4294967295 4294967295
    72 4294967295 WRNL
    73 4294967295 RDI
    74 4294967295 RDC
    75 4294967295 RDNL
    76 4294967295 EOF
    77 4294967295 EOLN
";

static SUM: [Instr; 6] = [
    Instr::LIT(1),
    Instr::LIT(2),
    Instr::ADD,
    Instr::WRI(0),
    Instr::WRNL,
    Instr::END,
];

const SUM_TEXT: &str = "     0     1 LIT 1
     1     1 LIT 2
     2     1 ADD
     3     1 WRI 0
     4     1 WRNL
     5     1 END
";

/// An image of this code alone, each instruction at this line.
fn image_of(alloc: Global, code: &[Instr], line: u32) -> Result<Image, Memory>
    ensures { IfOk result (λ image. length image.lines.items ≡ length image.code.items) }
{
    let lines = vec![in alloc; line; code.len()]?;
    Ok(Image {
        code: Vec::from_slice(alloc, code)?,
        lines,
        blocks: Vec::new(alloc),
        processes: Vec::new(alloc),
        objects: Vec::new(alloc),
        texts: Vec::new(alloc),
        semaphores: 0,
        channels: 0,
        conditions: Vec::new(alloc),
        monitors: 0,
        scans: Vec::new(alloc),
        arms: 0,
    })
}

/// Whether this code, each instruction at this line, has this text.
fn is_printed(alloc: Global, code: &[Instr], line: u32, text: &str) -> Result<bool, Memory> {
    let image = image_of(alloc, code, line)?;
    let printed = print_code(alloc, &image)?;
    Ok(printed.as_slice() == text.as_bytes())
}

#[test]
fn each_instruction_and_the_sum(rt: HostRuntime) -> Result<(), Fail> {
    assert!(rt; is_printed(rt.alloc(), &EACH, MAX, EACH_TEXT)?);
    assert!(rt; is_printed(rt.alloc(), &SUM, 1, SUM_TEXT)?);
    assert!(rt; is_printed(rt.alloc(), &[], 1, "")?);
    Ok(())
}
