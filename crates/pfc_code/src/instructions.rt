//! The instructions.
ghost use Rattle.std.specs.Prelude.{◌≡◌};

/// One instruction of the machine.
///
/// A process has a code address, activations with numbered cells, and operands; the last operand is the top.
/// What an instruction reads from the operands it pops, unless its line says otherwise. Addresses of code
/// count instructions from 0. An action is what other processes may see as one step; an instruction that
/// is none of them is one when it faults.
#[derive(Clone, Copy, Debug, PartialEq, Eq)]
#[allow(clippy::upper_case_acronyms)]
pub enum Instr {
    /// pushes the number n
    LIT(i32),
    /// pushes the address of cell d of the activation that lies l static links up
    ADDR(u32, u32),
    /// pushes the reference that cell d of the activation l static links up holds
    REF(u32, u32),
    /// pops an index, which must be from lo to hi, and moves the address on by z cells for each place after lo
    IDX(i32, i32, u32),
    /// moves the address on by k cells
    FLD(u32),
    /// an action: replaces the address by the z cells that stand there
    LOAD(u32),
    /// an action: pops z cells and the address below them, and writes the cells there
    STORE(u32),
    /// replaces the address by the number of the object that lies there
    OBJ,
    /// replaces an integer by its negative
    NEG,
    /// replaces two integers by their sum
    ADD,
    /// replaces two integers by the left less the right
    SUB,
    /// replaces two integers by their product
    MUL,
    /// replaces two integers by their quotient, cut toward zero; the right one must not be 0
    DIV,
    /// replaces two integers by the remainder of `DIV`
    MOD,
    /// replaces an integer by its distance from 0
    ABS,
    /// replaces an integer by its square
    SQR,
    /// replaces an integer by whether it is odd
    ODD,
    /// replaces an integer by the char of that ordinal, which must be from 0 to 255
    CHR,
    /// replaces a value by the next of its type, of integer for k 0, boolean for 1, char for 2
    SUCC(u32),
    /// replaces a value by the one before it, k as for `SUCC`
    PRED(u32),
    /// replaces a boolean by the other one
    NOT,
    /// replaces two booleans by whether both are true
    AND,
    /// replaces two booleans by whether one is true
    OR,
    /// replaces two ordinals by whether they are equal
    EQ,
    /// replaces two ordinals by whether they differ
    NE,
    /// replaces two ordinals by whether the left is below the right
    LT,
    /// replaces two ordinals by whether the left is at most the right
    LE,
    /// replaces two ordinals by whether the left is above the right
    GT,
    /// replaces two ordinals by whether the left is at least the right
    GE,
    /// goes on at address a
    JMP(u32),
    /// pops a boolean, and goes on at address a where it is false
    JF(u32),
    /// an action: a loop's turn back to address a
    TURN(u32),
    /// over an address, a first and a last value: pops the three and goes on at a where the first is past the last;
    /// d is 0 for `to`, 1 for `downto`
    FORB(u32, u32),
    /// an action: writes the value that a `for` keeps to its variable
    FORW,
    /// where the value that a `for` keeps is not before the last, pops the three; else an action: keeps the next
    /// value, and goes back to address a
    FORT(u32, u32),
    /// where the top is n, pops it and goes on at address a
    CEQ(i32, u32),
    /// an action: the fault of a `case` without a label for its value
    CERR,
    /// an action: calls block b, whose static link is l links up, with the arguments on top
    CALL(u32, u32),
    /// an action: ends the activation, and leaves the monitor or begins the scan of the resource that it entered
    RET,
    /// an action: ends the activation of a function and pushes its result
    RETF,
    /// an action: calls block b from outside of its monitor m, and asks to enter
    MCALL(u32, u32),
    /// an action: calls block b from outside of its resource g, and asks to enter
    RCALL(u32, u32),
    /// pops the value of a guard of resource g. On entering, true goes on, and false, an action, bars the caller.
    /// In a scan, false scans further, and true, an action, passes the resource on
    GRD(u32),
    /// an action: one turn of the scan of resource g
    SCAN(u32),
    /// an action: puts an activation of block b of resource g in the place of this one, and begins the scan
    REQ(u32, u32),
    /// an action: pops arguments and the number of a process below them, and creates it with block b
    NEW(u32),
    /// an action: makes the created processes ready and waits for their ends
    COEND,
    /// an action: ends the process
    END,
    /// an action: sets a semaphore to a value
    SINI,
    /// an action: waits on a semaphore
    SWAIT,
    /// an action: signals a semaphore
    SSIG,
    /// an action: sends z cells over a channel
    SEND(u32),
    /// an action: receives z cells over a channel to an address; with z 0 there is no address
    RECV(u32),
    /// an action: calls entry e of a process with z cells of arguments
    ECALL(u32, u32),
    /// an action: accepts entry e, whose z cells of arguments go to cell d of the process's own activation
    ACC(u32, u32, u32),
    /// an action: ends the meeting that began last
    EACC,
    /// makes the operands an alternative of a select that sends z cells and goes on at address a
    ARMS(u32, u32),
    /// makes the operands an alternative that receives z cells and goes on at address a
    ARMR(u32, u32),
    /// makes an alternative that accepts entry e as `ACC` does and goes on at address a
    ARMA(u32, u32, u32, u32),
    /// pops a number of seconds, and makes a `timeout` that goes on at address a
    ARMT(u32),
    /// makes the alternative of `terminate`
    ARMX,
    /// an action: decides among the alternatives made since the last; p is 1 for `pri`, x the address of the else
    /// part, or 0 without one
    SEL(u32, u32),
    /// an action: waits on a condition
    DELAY,
    /// an action: resumes the first process that waits on a condition
    RESUME,
    /// an action: replaces a condition by whether nobody waits on it
    EMPTY,
    /// an action: pops a number of seconds and sleeps
    SLEEP,
    /// an action: pushes the seconds since the start
    CLOCK,
    /// an action: replaces an integer by a drawn number from 0 to it
    RAND,
    /// an action: writes an integer, in the width on top where w is 1, else w is 0
    WRI(u32),
    /// an action: writes a boolean, w as for `WRI`
    WRB(u32),
    /// an action: writes a char, w as for `WRI`
    WRC(u32),
    /// an action: writes text s of the image, w as for `WRI`
    WRS(u32, u32),
    /// an action: writes a line end
    WRNL,
    /// an action: reads an integer into an address
    RDI,
    /// an action: reads a char into an address
    RDC,
    /// an action: reads past the end of the line
    RDNL,
    /// an action: pushes whether the input is at its end
    EOF,
    /// an action: pushes whether the input is at the end of a line
    EOLN,
}

/// The arguments of an instruction, in their order.
#[derive(Clone, Copy, Debug, PartialEq, Eq)]
pub(crate) enum Arguments {
    Zero,
    One(i64),
    Two(i64, i64),
    Three(i64, i64, i64),
    Four(i64, i64, i64, i64),
}

impl Instr {
    ghost use Rattle.pfc_code.specs.Rows.{row_of, list_of};

    /// The name of the instruction and its arguments.
    pub(crate) fn row(self) -> (&'static str, Arguments)
        ensures name { result.0.now ≡ (row_of self).0 }
        ensures arguments { list_of result.1 ≡ (row_of self).1 }
    {
        match self {
            Instr::LIT(n) => ("LIT", Arguments::One(n as i64)),
            Instr::ADDR(l, d) => ("ADDR", Arguments::Two(l as i64, d as i64)),
            Instr::REF(l, d) => ("REF", Arguments::Two(l as i64, d as i64)),
            Instr::IDX(lo, hi, z) => ("IDX", Arguments::Three(lo as i64, hi as i64, z as i64)),
            Instr::FLD(k) => ("FLD", Arguments::One(k as i64)),
            Instr::LOAD(z) => ("LOAD", Arguments::One(z as i64)),
            Instr::STORE(z) => ("STORE", Arguments::One(z as i64)),
            Instr::OBJ => ("OBJ", Arguments::Zero),
            Instr::NEG => ("NEG", Arguments::Zero),
            Instr::ADD => ("ADD", Arguments::Zero),
            Instr::SUB => ("SUB", Arguments::Zero),
            Instr::MUL => ("MUL", Arguments::Zero),
            Instr::DIV => ("DIV", Arguments::Zero),
            Instr::MOD => ("MOD", Arguments::Zero),
            Instr::ABS => ("ABS", Arguments::Zero),
            Instr::SQR => ("SQR", Arguments::Zero),
            Instr::ODD => ("ODD", Arguments::Zero),
            Instr::CHR => ("CHR", Arguments::Zero),
            Instr::SUCC(k) => ("SUCC", Arguments::One(k as i64)),
            Instr::PRED(k) => ("PRED", Arguments::One(k as i64)),
            Instr::NOT => ("NOT", Arguments::Zero),
            Instr::AND => ("AND", Arguments::Zero),
            Instr::OR => ("OR", Arguments::Zero),
            Instr::EQ => ("EQ", Arguments::Zero),
            Instr::NE => ("NE", Arguments::Zero),
            Instr::LT => ("LT", Arguments::Zero),
            Instr::LE => ("LE", Arguments::Zero),
            Instr::GT => ("GT", Arguments::Zero),
            Instr::GE => ("GE", Arguments::Zero),
            Instr::JMP(a) => ("JMP", Arguments::One(a as i64)),
            Instr::JF(a) => ("JF", Arguments::One(a as i64)),
            Instr::TURN(a) => ("TURN", Arguments::One(a as i64)),
            Instr::FORB(d, a) => ("FORB", Arguments::Two(d as i64, a as i64)),
            Instr::FORW => ("FORW", Arguments::Zero),
            Instr::FORT(d, a) => ("FORT", Arguments::Two(d as i64, a as i64)),
            Instr::CEQ(n, a) => ("CEQ", Arguments::Two(n as i64, a as i64)),
            Instr::CERR => ("CERR", Arguments::Zero),
            Instr::CALL(b, l) => ("CALL", Arguments::Two(b as i64, l as i64)),
            Instr::RET => ("RET", Arguments::Zero),
            Instr::RETF => ("RETF", Arguments::Zero),
            Instr::MCALL(m, b) => ("MCALL", Arguments::Two(m as i64, b as i64)),
            Instr::RCALL(g, b) => ("RCALL", Arguments::Two(g as i64, b as i64)),
            Instr::GRD(g) => ("GRD", Arguments::One(g as i64)),
            Instr::SCAN(g) => ("SCAN", Arguments::One(g as i64)),
            Instr::REQ(g, b) => ("REQ", Arguments::Two(g as i64, b as i64)),
            Instr::NEW(b) => ("NEW", Arguments::One(b as i64)),
            Instr::COEND => ("COEND", Arguments::Zero),
            Instr::END => ("END", Arguments::Zero),
            Instr::SINI => ("SINI", Arguments::Zero),
            Instr::SWAIT => ("SWAIT", Arguments::Zero),
            Instr::SSIG => ("SSIG", Arguments::Zero),
            Instr::SEND(z) => ("SEND", Arguments::One(z as i64)),
            Instr::RECV(z) => ("RECV", Arguments::One(z as i64)),
            Instr::ECALL(e, z) => ("ECALL", Arguments::Two(e as i64, z as i64)),
            Instr::ACC(e, d, z) => ("ACC", Arguments::Three(e as i64, d as i64, z as i64)),
            Instr::EACC => ("EACC", Arguments::Zero),
            Instr::ARMS(z, a) => ("ARMS", Arguments::Two(z as i64, a as i64)),
            Instr::ARMR(z, a) => ("ARMR", Arguments::Two(z as i64, a as i64)),
            Instr::ARMA(e, d, z, a) => (
                "ARMA",
                Arguments::Four(e as i64, d as i64, z as i64, a as i64),
            ),
            Instr::ARMT(a) => ("ARMT", Arguments::One(a as i64)),
            Instr::ARMX => ("ARMX", Arguments::Zero),
            Instr::SEL(p, x) => ("SEL", Arguments::Two(p as i64, x as i64)),
            Instr::DELAY => ("DELAY", Arguments::Zero),
            Instr::RESUME => ("RESUME", Arguments::Zero),
            Instr::EMPTY => ("EMPTY", Arguments::Zero),
            Instr::SLEEP => ("SLEEP", Arguments::Zero),
            Instr::CLOCK => ("CLOCK", Arguments::Zero),
            Instr::RAND => ("RAND", Arguments::Zero),
            Instr::WRI(w) => ("WRI", Arguments::One(w as i64)),
            Instr::WRB(w) => ("WRB", Arguments::One(w as i64)),
            Instr::WRC(w) => ("WRC", Arguments::One(w as i64)),
            Instr::WRS(s, w) => ("WRS", Arguments::Two(s as i64, w as i64)),
            Instr::WRNL => ("WRNL", Arguments::Zero),
            Instr::RDI => ("RDI", Arguments::Zero),
            Instr::RDC => ("RDC", Arguments::Zero),
            Instr::RDNL => ("RDNL", Arguments::Zero),
            Instr::EOF => ("EOF", Arguments::Zero),
            Instr::EOLN => ("EOLN", Arguments::Zero),
        }
    }
}
