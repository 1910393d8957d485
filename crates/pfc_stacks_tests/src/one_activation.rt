//! One process in one activation of six cells, with four operands: each instruction that stays in it once, and faults at their edges.
ghost use Rattle.std.specs.Prelude.{◌≡◌, pos, Some, None, [], ◌∷◌, length, replicate, IfOk};
ghost use Rattle.pfc_code.specs.Images.{plain_image};
ghost use Rattle.pfc_stacks.specs.Conditions.{CanPerform};
ghost use Rattle.pfc_stacks.specs.Starts.{start_stacks};
ghost use Rattle.pfc_stacks_tests.specs.Samples.{lone_block, lone_stacks};

use super::one_activation_rows::{After, Four, INSTRUCTIONS, Seen};
use pfc_base::{Memory, Name, RunFault, Text};
use pfc_code::{Block, Image, Instr, ProcessInfo};
use pfc_stacks::{Instructed, Ref, Stacks};
use pfc_state::Running;
use pfc_world::World;
use std::alloc::Global;
use std::test::Fail;

fn lone_block(alloc: Global) -> Result<Block, Memory>
    ensures { IfOk result (λ b. b ≡ lone_block) }
{
    Ok(Block {
        label: Name::new(alloc, b"p")?,
        entry: 0,
        body: 0,
        params: 0,
        cells: 6,
        operands: 8,
        level: 0,
        line: 1,
    })
}

/// An image whose code is one instruction, at line 7.
fn image_of(alloc: Global, instr: Instr) -> Result<Image, Memory>
    ensures code { IfOk result (λ image. image.code.items ≡ instr ∷ []) }
    ensures blocks { IfOk result (λ image. image.blocks.items ≡ lone_block ∷ []) }
    ensures start { IfOk result (λ image. start_stacks (plain_image image) ≡ record {
      at = 0;
      base = 0;
      cells = replicate 14 (pos 0);
      operands = [];
      room = 8;
      spare = 0;
      looks_from = None;
    } ∷ []) }
    ensures few { IfOk result (λ image. length image.processes.items ≡ 1) }
    ensures lines { IfOk result (λ image. image.lines.items ≡ 7 ∷ []) }
{
    Ok(Image {
        code: vec![in alloc; instr]?,
        lines: vec![in alloc; 7]?,
        blocks: vec![in alloc; lone_block(alloc)?]?,
        processes: vec![in alloc;
            ProcessInfo {
                block: 0,
                label: Text::new(alloc, b"p")?
            },
        ]?,
        objects: Vec::new(alloc),
        texts: Vec::new(alloc),
        semaphores: 0,
        channels: 0,
        conditions: Vec::new(alloc),
        monitors: 0,
        scans: Vec::new(alloc),
        arms: 0,
    })
}

/// The stacks of the image with these operands; cells 8, 9 and 10 hold 11, 12 and 13.
fn ready(alloc: Global, image: &Image, held: Four) -> Result<Stacks, Memory>
    requires start { start_stacks (plain_image image.now) ≡ record {
      at = 0;
      base = 0;
      cells = replicate 14 (pos 0);
      operands = [];
      room = 8;
      spare = 0;
      looks_from = None;
    } ∷ [] }
    requires few { length image.now.processes.items ≡ 1 }
    ensures { IfOk result (λ stacks. stacks ≡ lone_stacks held.0 held.1 held.2 held.3) }
{
    let mut stacks = Stacks::start(alloc, image)?;
    stacks.push(0, 11);
    stacks.push(0, 12);
    stacks.push(0, 13);
    let to = Ref {
        process: 0,
        cell: 8,
    };
    stacks.copy_out(0, 0, 3, to);
    stacks.cut(0, 3);
    stacks.push(0, held.0);
    stacks.push(0, held.1);
    stacks.push(0, held.2);
    stacks.push(0, held.3);
    Ok(stacks)
}

fn rested(world: &mut World, r: Running, seen: Seen) -> Seen
    requires { world.old.acting ≡ Some r.number }
{
    world.rest(r);
    seen
}

/// What is seen of an instruction, and the stacks after it.
fn perform(alloc: Global, instr: Instr, held: Four) -> Result<(Seen, Stacks), Memory>
    requires { CanPerform (lone_block ∷ []) instr 0 (lone_stacks held.0 held.1 held.2 held.3) }
{
    let image = image_of(alloc, instr)?;
    let mut stacks = ready(alloc, &image, held)?;
    let mut world = World::with_processes(alloc, 1, 0, 1)?;
    let main = world.begin(0);
    let seen = match stacks.run_instr(&image, main) {
        Instructed::Quiet(r) => rested(&mut world, r, Seen::Quiet),
        Instructed::Acted(r) => rested(&mut world, r, Seen::Acted),
        Instructed::Fault { r, fault } => rested(&mut world, r, Seen::Fault(fault)),
        Instructed::Outward { r, instr } => rested(&mut world, r, Seen::Outward(instr)),
        Instructed::Memory(r) => rested(&mut world, r, Seen::NoMemory),
    };
    Ok((seen, stacks))
}

/// What is seen of an instruction, the next address, and five operands from the top.
fn after(alloc: Global, instr: Instr, held: Four) -> Result<After, Memory>
    requires { CanPerform (lone_block ∷ []) instr 0 (lone_stacks held.0 held.1 held.2 held.3) }
{
    let (seen, stacks) = perform(alloc, instr, held)?;
    let tops = [
        stacks.top(0, 0),
        stacks.top(0, 1),
        stacks.top(0, 2),
        stacks.top(0, 3),
        stacks.top(0, 4),
    ];
    Ok((seen, stacks.at(0), tops))
}

/// Instructions that others perform.
fn outward(alloc: Global, instr: Instr, held: Four) -> Result<After, Memory> {
    match instr {
        Instr::NEW(a) => after(alloc, Instr::NEW(a), held),
        Instr::END => after(alloc, Instr::END, held),
        Instr::SWAIT => after(alloc, Instr::SWAIT, held),
        Instr::SEND(1) => after(alloc, Instr::SEND(1), held),
        Instr::SEL(a, b) => after(alloc, Instr::SEL(a, b), held),
        Instr::WRI(0) => after(alloc, Instr::WRI(0), held),
        Instr::EOLN => after(alloc, Instr::EOLN, held),
        _ => Ok((Seen::Quiet, 0, [0; 5])),
    }
}

/// Operators of two operands.
fn of_two(alloc: Global, instr: Instr, held: Four) -> Result<After, Memory> {
    match instr {
        Instr::ADD => after(alloc, Instr::ADD, held),
        Instr::SUB => after(alloc, Instr::SUB, held),
        Instr::MUL => after(alloc, Instr::MUL, held),
        Instr::DIV => after(alloc, Instr::DIV, held),
        Instr::MOD => after(alloc, Instr::MOD, held),
        Instr::AND => after(alloc, Instr::AND, held),
        Instr::OR => after(alloc, Instr::OR, held),
        Instr::EQ => after(alloc, Instr::EQ, held),
        Instr::NE => after(alloc, Instr::NE, held),
        Instr::LT => after(alloc, Instr::LT, held),
        Instr::LE => after(alloc, Instr::LE, held),
        Instr::GT => after(alloc, Instr::GT, held),
        Instr::GE => after(alloc, Instr::GE, held),
        _ => outward(alloc, instr, held),
    }
}

/// Operators and functions of one operand, and a number.
fn of_one(alloc: Global, instr: Instr, held: Four) -> Result<After, Memory> {
    match instr {
        Instr::LIT(a) => after(alloc, Instr::LIT(a), held),
        Instr::NEG => after(alloc, Instr::NEG, held),
        Instr::ABS => after(alloc, Instr::ABS, held),
        Instr::SQR => after(alloc, Instr::SQR, held),
        Instr::ODD => after(alloc, Instr::ODD, held),
        Instr::CHR => after(alloc, Instr::CHR, held),
        Instr::SUCC(a) => after(alloc, Instr::SUCC(a), held),
        Instr::PRED(a) => after(alloc, Instr::PRED(a), held),
        Instr::NOT => after(alloc, Instr::NOT, held),
        _ => of_two(alloc, instr, held),
    }
}

/// Jumps and loops.
fn jumping(alloc: Global, instr: Instr, held: Four) -> Result<After, Memory> {
    match instr {
        Instr::JMP(a) => after(alloc, Instr::JMP(a), held),
        Instr::JF(a) => after(alloc, Instr::JF(a), held),
        Instr::TURN(a) => after(alloc, Instr::TURN(a), held),
        Instr::FORB(a, b) => after(alloc, Instr::FORB(a, b), held),
        Instr::FORT(a, b) => after(alloc, Instr::FORT(a, b), held),
        Instr::CEQ(a, b) => after(alloc, Instr::CEQ(a, b), held),
        Instr::CERR => after(alloc, Instr::CERR, held),
        _ => of_one(alloc, instr, held),
    }
}

/// The elements of an array of three, of two cells each, by their index.
fn element(alloc: Global, index: i64) -> Result<After, Memory> {
    match index {
        1 => after(alloc, Instr::IDX(1, 3, 2), (1, 2, 8, 1)),
        3 => after(alloc, Instr::IDX(1, 3, 2), (1, 2, 8, 3)),
        0 => after(alloc, Instr::IDX(1, 3, 2), (1, 2, 8, 0)),
        _ => after(alloc, Instr::IDX(1, 3, 2), (1, 2, 8, 4)),
    }
}

/// Instructions that reach cells, each with the operands that it is tried with.
fn reaching(alloc: Global, instr: Instr, held: Four) -> Result<After, Memory> {
    match instr {
        Instr::ADDR(0, _) => after(alloc, Instr::ADDR(0, 2), (1, 2, 3, 4)),
        Instr::ADDR(_, _) => after(alloc, Instr::ADDR(1, 2), (1, 2, 3, 4)),
        Instr::REF(_, _) => after(alloc, Instr::REF(0, 2), (1, 2, 3, 4)),
        Instr::OBJ => after(alloc, Instr::OBJ, (1, 2, 3, 9)),
        Instr::FLD(_) => after(alloc, Instr::FLD(2), (1, 2, 3, 8)),
        Instr::IDX(1, _, _) => element(alloc, held.3),
        Instr::IDX(_, _, _) => after(alloc, Instr::IDX(-2, -1, 1), (1, 2, 8, -1)),
        Instr::LOAD(1) => after(alloc, Instr::LOAD(1), (1, 2, 3, 9)),
        Instr::LOAD(_) if held.3 == 8 => after(alloc, Instr::LOAD(3), (1, 2, 3, 8)),
        Instr::LOAD(_) => after(alloc, Instr::LOAD(3), (1, 2, 3, 11)),
        Instr::STORE(1) => after(alloc, Instr::STORE(1), (1, 2, 11, 5)),
        Instr::STORE(_) => after(alloc, Instr::STORE(3), (9, 1, 2, 3)),
        Instr::FORW => after(alloc, Instr::FORW, (1, 11, 4, 9)),
        _ => jumping(alloc, instr, held),
    }
}

#[test]
fn each_instruction(rt: HostRuntime) -> Result<(), Fail> {
    for (at, (instr, held, owed)) in INSTRUCTIONS.iter().enumerate() {
        assert!(rt; reaching(rt.alloc(), *instr, *held)? == *owed, "case {at}");
    }
    Ok(())
}

/// The process of the stacks that start with this image, its address and its line, and what it has after operands were
/// pushed, cut and pushed again, and the process went on at another address.
fn moved(alloc: Global) -> Result<[[i64; 3]; 4], Memory> {
    let image = image_of(alloc, Instr::END)?;
    let mut stacks = Stacks::start(alloc, &image)?;
    let begun = place_of(&stacks, &image);
    stacks.push(0, 1);
    stacks.push(0, 2);
    stacks.push(0, 3);
    stacks.cut(0, 2);
    stacks.push(0, 7);
    stacks.go(0, 5);
    let tops = [stacks.top(0, 0), stacks.top(0, 1), stacks.top(0, 2)];
    let others = [stacks.top(1, 0), i64::from(stacks.at(1)), 0];
    Ok([begun, tops, place_of(&stacks, &image), others])
}

/// How many processes there are, and the address and the line of the first.
fn place_of(stacks: &Stacks, image: &Image) -> [i64; 3] {
    [
        i64::from(stacks.processes()),
        i64::from(stacks.at(0)),
        i64::from(stacks.line(image, 0)),
    ]
}

#[test]
fn operands_and_addresses(rt: HostRuntime) -> Result<(), Fail> {
    assert!(rt; moved(rt.alloc())? == [[1, 0, 7], [7, 1, 0], [1, 5, 0], [0, 0, 0]]);
    Ok(())
}

#[test]
fn a_word_holds_an_address(rt: HostRuntime) {
    let last = Ref {
        process: 1023,
        cell: u32::MAX,
    };
    let first = Ref {
        process: 0,
        cell: 0,
    };
    assert!(rt; last.word() == 4_398_046_511_103 && Ref::of(last.word()) == last);
    assert!(rt; Ref::of(0) == first);
}
