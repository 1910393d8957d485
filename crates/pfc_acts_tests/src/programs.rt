//! Programs with their actions.
ghost use Rattle.std.specs.Prelude.{◌≡◌, IfOk};
ghost use Rattle.pfc_code.specs.Images.{plain_image};
ghost use Rattle.pfc_acts_tests.specs.Programs.{block_by, process_by, sum_image, reference_image, semaphore_image, message_image, rendezvous_image};
ghost use Rattle.pfc_acts_tests.specs.Programs.{monitor_image, select_image, resource_image, fault_image};

use super::runs::run_of;
use pfc_base::{Memory, Name, Text};
use pfc_code::{Block, Image, Instr, Object, ProcessInfo};
use pfc_values::Output;
use std::alloc::Global;
use std::test::Fail;

/// A block by its entry, body, parameters, cells, operands, level and line.
fn block_of(
    alloc: Global,
    entry: u32,
    body: u32,
    params: u32,
    cells: u32,
    operands: u32,
    level: u32,
    line: u32,
) -> Result<Block, Memory>
    ensures { IfOk result (λ b. b ≡ block_by entry body params cells operands level line) }
{
    Ok(Block {
        label: Name::new(alloc, b"p")?,
        entry,
        body,
        params,
        cells,
        operands,
        level,
        line,
    })
}

fn process_of(alloc: Global, block: u32) -> Result<ProcessInfo, Memory>
    ensures { IfOk result (λ process. process ≡ process_by block) }
{
    let label = Text::new(alloc, b"p")?;
    Ok(ProcessInfo { block, label })
}

/// The image of this text:
///     program a;
///     var i, s: integer;
///     begin
///       for i := 1 to 2 do
///         s := s + i;
///       writeln(s)
///     end.
fn sum_image(alloc: Global) -> Result<Image, Memory>
    ensures { IfOk result (λ image. plain_image image ≡ sum_image) }
{
    Ok(Image {
        code: vec![in alloc;
            Instr::ADDR(0, 0),
            Instr::LIT(1),
            Instr::LIT(2),
            Instr::FORB(0, 13),
            Instr::FORW,
            Instr::ADDR(0, 1),
            Instr::ADDR(0, 1),
            Instr::LOAD(1),
            Instr::ADDR(0, 0),
            Instr::LOAD(1),
            Instr::ADD,
            Instr::STORE(1),
            Instr::FORT(0, 4),
            Instr::ADDR(0, 1),
            Instr::LOAD(1),
            Instr::WRI(0),
            Instr::WRNL,
            Instr::END,
        ]?,
        lines: vec![in alloc; 4, 4, 4, 4, 4, 5, 5, 5, 5, 5, 5, 5, 4, 6, 6, 6, 6, 7]?,
        blocks: vec![in alloc; block_of(alloc, 0, 0, 0, 2, 6, 0, 3)?]?,
        processes: vec![in alloc; process_of(alloc, 0)?]?,
        objects: Vec::new(alloc),
        texts: Vec::new(alloc),
        semaphores: 0,
        channels: 0,
        conditions: Vec::new(alloc),
        monitors: 0,
        scans: Vec::new(alloc),
        arms: 0,
    })
}

fn sum(alloc: Global) -> Result<(Vec<u8>, Output), Memory> {
    let image = sum_image(alloc)?;
    run_of(alloc, &image, &[0, 0, 0, 0, 0, 0, 0, 0, 0, 0, 0, 0, 0])
}

/// The image of this text:
///     program b;
///     var n: integer;
///     procedure p(var v: integer);
///     begin
///       v := v + 4
///     end;
///     begin
///       p(n);
///       write(n)
///     end.
fn reference_image(alloc: Global) -> Result<Image, Memory>
    ensures { IfOk result (λ image. plain_image image ≡ reference_image) }
{
    Ok(Image {
        code: vec![in alloc;
            Instr::REF(0, 0),
            Instr::REF(0, 0),
            Instr::LOAD(1),
            Instr::LIT(4),
            Instr::ADD,
            Instr::STORE(1),
            Instr::RET,
            Instr::ADDR(0, 0),
            Instr::CALL(0, 0),
            Instr::ADDR(0, 0),
            Instr::LOAD(1),
            Instr::WRI(0),
            Instr::END,
        ]?,
        lines: vec![in alloc; 5, 5, 5, 5, 5, 5, 6, 8, 8, 9, 9, 9, 10]?,
        blocks: vec![in alloc;
            block_of(alloc, 0, 0, 1, 1, 3, 1, 4)?,
            block_of(alloc, 7, 7, 0, 1, 1, 0, 7)?,
        ]?,
        processes: vec![in alloc; process_of(alloc, 1)?]?,
        objects: Vec::new(alloc),
        texts: Vec::new(alloc),
        semaphores: 0,
        channels: 0,
        conditions: Vec::new(alloc),
        monitors: 0,
        scans: Vec::new(alloc),
        arms: 0,
    })
}

fn reference(alloc: Global) -> Result<(Vec<u8>, Output), Memory> {
    let image = reference_image(alloc)?;
    run_of(alloc, &image, &[0, 0, 0, 0, 0, 0, 0])
}

/// The image of this text:
///     program c;
///     var s: semaphore;
///     process p; begin wait(s); write('p') end;
///     process q; begin write('q'); signal(s) end;
///     begin
///       initial(s, 0);
///       cobegin p; q coend
///     end.
fn semaphore_image(alloc: Global) -> Result<Image, Memory>
    ensures { IfOk result (λ image. plain_image image ≡ semaphore_image) }
{
    Ok(Image {
        code: vec![in alloc;
            Instr::ADDR(1, 0),
            Instr::OBJ,
            Instr::SWAIT,
            Instr::LIT(112),
            Instr::WRC(0),
            Instr::END,
            Instr::LIT(113),
            Instr::WRC(0),
            Instr::ADDR(1, 0),
            Instr::OBJ,
            Instr::SSIG,
            Instr::END,
            Instr::ADDR(0, 0),
            Instr::OBJ,
            Instr::LIT(0),
            Instr::SINI,
            Instr::ADDR(0, 1),
            Instr::OBJ,
            Instr::NEW(0),
            Instr::ADDR(0, 2),
            Instr::OBJ,
            Instr::NEW(1),
            Instr::COEND,
            Instr::END,
        ]?,
        lines: vec![in alloc;
            3, 3, 3, 3, 3, 3, 4, 4, 4, 4, 4, 4, 6, 6, 6, 6, 7, 7, 7, 7, 7, 7, 7, 8,
        ]?,
        blocks: vec![in alloc;
            block_of(alloc, 0, 0, 0, 0, 1, 1, 3)?,
            block_of(alloc, 6, 6, 0, 0, 1, 1, 4)?,
            block_of(alloc, 12, 12, 0, 3, 2, 0, 5)?,
        ]?,
        processes: vec![in alloc;
            process_of(alloc, 2)?,
            process_of(alloc, 0)?,
            process_of(alloc, 1)?,
        ]?,
        objects: vec![in alloc;
            Object { cell: 0, number: 0 },
            Object { cell: 1, number: 1 },
            Object { cell: 2, number: 2 },
        ]?,
        texts: Vec::new(alloc),
        semaphores: 1,
        channels: 0,
        conditions: Vec::new(alloc),
        monitors: 0,
        scans: Vec::new(alloc),
        arms: 0,
    })
}

fn semaphore(alloc: Global) -> Result<(Vec<u8>, Output), Memory> {
    let image = semaphore_image(alloc)?;
    run_of(alloc, &image, &[0, 0, 0, 0, 1, 2, 2, 2, 1, 1, 0])
}

/// The image of this text:
///     program d;
///     var c: channel of integer;
///     process p; var n: integer;
///     begin
///       c ? n;
///       write(n)
///     end;
///     process q; begin c ! 7 end;
///     begin
///       cobegin p; q coend
///     end.
fn message_image(alloc: Global) -> Result<Image, Memory>
    ensures { IfOk result (λ image. plain_image image ≡ message_image) }
{
    Ok(Image {
        code: vec![in alloc;
            Instr::ADDR(1, 0),
            Instr::OBJ,
            Instr::ADDR(0, 0),
            Instr::RECV(1),
            Instr::ADDR(0, 0),
            Instr::LOAD(1),
            Instr::WRI(0),
            Instr::END,
            Instr::ADDR(1, 0),
            Instr::OBJ,
            Instr::LIT(7),
            Instr::SEND(1),
            Instr::END,
            Instr::ADDR(0, 1),
            Instr::OBJ,
            Instr::NEW(0),
            Instr::ADDR(0, 2),
            Instr::OBJ,
            Instr::NEW(1),
            Instr::COEND,
            Instr::END,
        ]?,
        lines: vec![in alloc;
            5, 5, 5, 5, 6, 6, 6, 7, 8, 8, 8, 8, 8, 10, 10, 10, 10, 10, 10, 10, 11,
        ]?,
        blocks: vec![in alloc;
            block_of(alloc, 0, 0, 0, 1, 2, 1, 4)?,
            block_of(alloc, 8, 8, 0, 0, 2, 1, 8)?,
            block_of(alloc, 13, 13, 0, 3, 1, 0, 9)?,
        ]?,
        processes: vec![in alloc;
            process_of(alloc, 2)?,
            process_of(alloc, 0)?,
            process_of(alloc, 1)?,
        ]?,
        objects: vec![in alloc;
            Object { cell: 0, number: 0 },
            Object { cell: 1, number: 1 },
            Object { cell: 2, number: 2 },
        ]?,
        texts: Vec::new(alloc),
        semaphores: 0,
        channels: 1,
        conditions: Vec::new(alloc),
        monitors: 0,
        scans: Vec::new(alloc),
        arms: 0,
    })
}

fn message(alloc: Global) -> Result<(Vec<u8>, Output), Memory> {
    let image = message_image(alloc)?;
    run_of(alloc, &image, &[0, 0, 0, 1, 2, 2, 1, 1, 1, 0])
}

/// The image of this text:
///     program e;
///     process s; entry e(n: integer; var r: integer);
///     begin
///       accept e(n: integer; var r: integer) do
///         r := n + 1;
///     end;
///     process c; var z: integer;
///     begin
///       s.e(4, z);
///       write(z)
///     end;
///     begin
///       cobegin s; c coend
///     end.
fn rendezvous_image(alloc: Global) -> Result<Image, Memory>
    ensures { IfOk result (λ image. plain_image image ≡ rendezvous_image) }
{
    Ok(Image {
        code: vec![in alloc;
            Instr::ACC(0, 0, 2),
            Instr::REF(0, 1),
            Instr::ADDR(0, 0),
            Instr::LOAD(1),
            Instr::LIT(1),
            Instr::ADD,
            Instr::STORE(1),
            Instr::EACC,
            Instr::END,
            Instr::ADDR(1, 0),
            Instr::OBJ,
            Instr::LIT(4),
            Instr::ADDR(0, 0),
            Instr::ECALL(0, 2),
            Instr::ADDR(0, 0),
            Instr::LOAD(1),
            Instr::WRI(0),
            Instr::END,
            Instr::ADDR(0, 0),
            Instr::OBJ,
            Instr::NEW(0),
            Instr::ADDR(0, 1),
            Instr::OBJ,
            Instr::NEW(1),
            Instr::COEND,
            Instr::END,
        ]?,
        lines: vec![in alloc;
            4, 5, 5, 5, 5, 5, 5, 4, 6, 9, 9, 9, 9, 9, 10, 10, 10, 11, 13, 13, 13, 13, 13, 13, 13,
            14,
        ]?,
        blocks: vec![in alloc;
            block_of(alloc, 0, 0, 0, 2, 3, 1, 3)?,
            block_of(alloc, 9, 9, 0, 1, 3, 1, 8)?,
            block_of(alloc, 18, 18, 0, 2, 1, 0, 12)?,
        ]?,
        processes: vec![in alloc;
            process_of(alloc, 2)?,
            process_of(alloc, 0)?,
            process_of(alloc, 1)?,
        ]?,
        objects: vec![in alloc;
            Object { cell: 0, number: 1 },
            Object { cell: 1, number: 2 },
        ]?,
        texts: Vec::new(alloc),
        semaphores: 0,
        channels: 0,
        conditions: Vec::new(alloc),
        monitors: 0,
        scans: Vec::new(alloc),
        arms: 0,
    })
}

fn rendezvous(alloc: Global) -> Result<(Vec<u8>, Output), Memory> {
    let image = rendezvous_image(alloc)?;
    run_of(alloc, &image, &[0, 0, 0, 1, 2, 1, 1, 1, 1, 2, 2, 2, 0])
}

/// The image of this text:
///     program f;
///     monitor m; export take, give; var c: condition;
///       procedure take; begin delay(c); write('t') end;
///       procedure give; begin resume(c); write('g') end;
///     end;
///     process p; begin m.take end;
///     process q; begin m.give end;
///     begin
///       cobegin p; q coend
///     end.
fn monitor_image(alloc: Global) -> Result<Image, Memory>
    ensures { IfOk result (λ image. plain_image image ≡ monitor_image) }
{
    Ok(Image {
        code: vec![in alloc;
            Instr::ADDR(1, 0),
            Instr::OBJ,
            Instr::LIT(0),
            Instr::DELAY,
            Instr::LIT(116),
            Instr::WRC(0),
            Instr::RET,
            Instr::ADDR(1, 0),
            Instr::OBJ,
            Instr::RESUME,
            Instr::LIT(103),
            Instr::WRC(0),
            Instr::RET,
            Instr::MCALL(0, 0),
            Instr::END,
            Instr::MCALL(0, 1),
            Instr::END,
            Instr::ADDR(0, 1),
            Instr::OBJ,
            Instr::NEW(2),
            Instr::ADDR(0, 2),
            Instr::OBJ,
            Instr::NEW(3),
            Instr::COEND,
            Instr::END,
        ]?,
        lines: vec![in alloc;
            3, 3, 3, 3, 3, 3, 3, 4, 4, 4, 4, 4, 4, 6, 6, 7, 7, 9, 9, 9, 9, 9, 9, 9, 10,
        ]?,
        blocks: vec![in alloc;
            block_of(alloc, 0, 0, 0, 0, 2, 1, 3)?,
            block_of(alloc, 7, 7, 0, 0, 1, 1, 4)?,
            block_of(alloc, 13, 13, 0, 0, 0, 1, 6)?,
            block_of(alloc, 15, 15, 0, 0, 0, 1, 7)?,
            block_of(alloc, 17, 17, 0, 3, 1, 0, 8)?,
        ]?,
        processes: vec![in alloc;
            process_of(alloc, 4)?,
            process_of(alloc, 2)?,
            process_of(alloc, 3)?,
        ]?,
        objects: vec![in alloc;
            Object { cell: 0, number: 0 },
            Object { cell: 1, number: 1 },
            Object { cell: 2, number: 2 },
        ]?,
        texts: Vec::new(alloc),
        semaphores: 0,
        channels: 0,
        conditions: vec![in alloc; 0]?,
        monitors: 1,
        scans: Vec::new(alloc),
        arms: 0,
    })
}

fn monitor(alloc: Global) -> Result<(Vec<u8>, Output), Memory> {
    let image = monitor_image(alloc)?;
    run_of(alloc, &image, &[0, 0, 0, 1, 1, 2, 2, 1, 1, 1, 2, 2, 2, 0])
}

/// The image of this text:
///     program g;
///     var c, d: channel of integer; v: integer;
///     process p; begin c ! 5 end;
///     process q; begin d ! 6 end;
///     process r;
///     begin
///       select
///         c ? v; write('c')
///       or
///         d ? v; write('d')
///       end
///     end;
///     begin
///       cobegin p; q; r coend
///     end.
fn select_image(alloc: Global) -> Result<Image, Memory>
    ensures { IfOk result (λ image. plain_image image ≡ select_image) }
{
    Ok(Image {
        code: vec![in alloc;
            Instr::ADDR(1, 0),
            Instr::OBJ,
            Instr::LIT(5),
            Instr::SEND(1),
            Instr::END,
            Instr::ADDR(1, 1),
            Instr::OBJ,
            Instr::LIT(6),
            Instr::SEND(1),
            Instr::END,
            Instr::ADDR(1, 0),
            Instr::OBJ,
            Instr::ADDR(1, 2),
            Instr::ARMR(1, 19),
            Instr::ADDR(1, 1),
            Instr::OBJ,
            Instr::ADDR(1, 2),
            Instr::ARMR(1, 22),
            Instr::SEL(0, 0),
            Instr::LIT(99),
            Instr::WRC(0),
            Instr::JMP(25),
            Instr::LIT(100),
            Instr::WRC(0),
            Instr::JMP(25),
            Instr::END,
            Instr::ADDR(0, 3),
            Instr::OBJ,
            Instr::NEW(0),
            Instr::ADDR(0, 4),
            Instr::OBJ,
            Instr::NEW(1),
            Instr::ADDR(0, 5),
            Instr::OBJ,
            Instr::NEW(2),
            Instr::COEND,
            Instr::END,
        ]?,
        lines: vec![in alloc;
            3, 3, 3, 3, 3, 4, 4, 4, 4, 4, 7, 7, 7, 7, 7, 7, 7, 7, 7, 8, 8, 7, 10, 10, 7, 12, 14,
            14, 14, 14, 14, 14, 14, 14, 14, 14, 15,
        ]?,
        blocks: vec![in alloc;
            block_of(alloc, 0, 0, 0, 0, 2, 1, 3)?,
            block_of(alloc, 5, 5, 0, 0, 2, 1, 4)?,
            block_of(alloc, 10, 10, 0, 0, 2, 1, 6)?,
            block_of(alloc, 26, 26, 0, 6, 1, 0, 13)?,
        ]?,
        processes: vec![in alloc;
            process_of(alloc, 3)?,
            process_of(alloc, 0)?,
            process_of(alloc, 1)?,
            process_of(alloc, 2)?,
        ]?,
        objects: vec![in alloc;
            Object { cell: 0, number: 0 },
            Object { cell: 1, number: 1 },
            Object { cell: 3, number: 1 },
            Object { cell: 4, number: 2 },
            Object { cell: 5, number: 3 },
        ]?,
        texts: Vec::new(alloc),
        semaphores: 0,
        channels: 2,
        conditions: Vec::new(alloc),
        monitors: 0,
        scans: Vec::new(alloc),
        arms: 2,
    })
}

fn select(alloc: Global) -> Result<(Vec<u8>, Output), Memory> {
    let image = select_image(alloc)?;
    run_of(alloc, &image, &[0, 0, 0, 0, 1, 2, 3, 3, 3, 1])
}

/// The image of this text:
///     program h;
///     resource r; export take, give; var up: boolean;
///       guarded procedure take when up; begin write('t') end;
///       procedure give; begin up := true end;
///     end;
///     process p; begin r.take end;
///     process q; begin r.give end;
///     begin
///       cobegin p; q coend
///     end.
fn resource_image(alloc: Global) -> Result<Image, Memory>
    ensures { IfOk result (λ image. plain_image image ≡ resource_image) }
{
    Ok(Image {
        code: vec![in alloc;
            Instr::ADDR(1, 0),
            Instr::LOAD(1),
            Instr::GRD(0),
            Instr::LIT(116),
            Instr::WRC(0),
            Instr::RET,
            Instr::ADDR(1, 0),
            Instr::LIT(1),
            Instr::STORE(1),
            Instr::RET,
            Instr::SCAN(0),
            Instr::RCALL(0, 0),
            Instr::END,
            Instr::RCALL(0, 1),
            Instr::END,
            Instr::ADDR(0, 1),
            Instr::OBJ,
            Instr::NEW(2),
            Instr::ADDR(0, 2),
            Instr::OBJ,
            Instr::NEW(3),
            Instr::COEND,
            Instr::END,
        ]?,
        lines: vec![in alloc;
            3, 3, 3, 3, 3, 3, 4, 4, 4, 4, 5, 6, 6, 7, 7, 9, 9, 9, 9, 9, 9, 9, 10,
        ]?,
        blocks: vec![in alloc;
            block_of(alloc, 0, 3, 0, 0, 1, 1, 3)?,
            block_of(alloc, 6, 6, 0, 0, 2, 1, 4)?,
            block_of(alloc, 11, 11, 0, 0, 0, 1, 6)?,
            block_of(alloc, 13, 13, 0, 0, 0, 1, 7)?,
            block_of(alloc, 15, 15, 0, 3, 1, 0, 8)?,
        ]?,
        processes: vec![in alloc;
            process_of(alloc, 4)?,
            process_of(alloc, 2)?,
            process_of(alloc, 3)?,
        ]?,
        objects: vec![in alloc;
            Object { cell: 1, number: 1 },
            Object { cell: 2, number: 2 },
        ]?,
        texts: Vec::new(alloc),
        semaphores: 0,
        channels: 0,
        conditions: Vec::new(alloc),
        monitors: 0,
        scans: vec![in alloc; 10]?,
        arms: 0,
    })
}

fn resource(alloc: Global) -> Result<(Vec<u8>, Output), Memory> {
    let image = resource_image(alloc)?;
    run_of(
        alloc,
        &image,
        &[0, 0, 0, 1, 1, 1, 2, 2, 2, 2, 2, 2, 2, 1, 1, 1, 1, 0],
    )
}

/// The image of this text:
///     program i;
///     var n: integer;
///     begin
///       n := 7;
///       n := 1 div (n - 7)
///     end.
fn fault_image(alloc: Global) -> Result<Image, Memory>
    ensures { IfOk result (λ image. plain_image image ≡ fault_image) }
{
    Ok(Image {
        code: vec![in alloc;
            Instr::ADDR(0, 0),
            Instr::LIT(7),
            Instr::STORE(1),
            Instr::ADDR(0, 0),
            Instr::LIT(1),
            Instr::ADDR(0, 0),
            Instr::LOAD(1),
            Instr::LIT(7),
            Instr::SUB,
            Instr::DIV,
            Instr::STORE(1),
            Instr::END,
        ]?,
        lines: vec![in alloc; 4, 4, 4, 5, 5, 5, 5, 5, 5, 5, 5, 6]?,
        blocks: vec![in alloc; block_of(alloc, 0, 0, 0, 1, 4, 0, 3)?]?,
        processes: vec![in alloc; process_of(alloc, 0)?]?,
        objects: Vec::new(alloc),
        texts: Vec::new(alloc),
        semaphores: 0,
        channels: 0,
        conditions: Vec::new(alloc),
        monitors: 0,
        scans: Vec::new(alloc),
        arms: 0,
    })
}

fn fault(alloc: Global) -> Result<(Vec<u8>, Output), Memory> {
    let image = fault_image(alloc)?;
    run_of(alloc, &image, &[0, 0, 0])
}

#[derive(Clone, Copy)]
enum Program {
    Sum,
    Reference,
    Semaphore,
    Message,
    Rendezvous,
    Monitor,
    Select,
    Resource,
    Fault,
}

fn run(alloc: Global, program: Program) -> Result<(Vec<u8>, Output), Memory> {
    match program {
        Program::Sum => sum(alloc),
        Program::Reference => reference(alloc),
        Program::Semaphore => semaphore(alloc),
        Program::Message => message(alloc),
        Program::Rendezvous => rendezvous(alloc),
        Program::Monitor => monitor(alloc),
        Program::Select => select(alloc),
        Program::Resource => resource(alloc),
        Program::Fault => fault(alloc),
    }
}

/// A program, who acts at which line, and what it writes.
type Case = (Program, &'static str, &'static str);

static CASES: [Case; 9] = [
    (
        Program::Sum,
        "0 4;0 5;0 5;0 5;0 4;0 4;0 5;0 5;0 5;0 6;0 6;0 6;0 7;",
        "3\n",
    ),
    (Program::Reference, "0 8;0 5;0 5;0 6;0 9;0 9;0 10;", "4"),
    (
        Program::Semaphore,
        "0 6;0 7;0 7;0 7;1 3;2 4;2 4;2 4;1 3;1 3;0 8;",
        "qp",
    ),
    (
        Program::Message,
        "0 10;0 10;0 10;1 5;2 8;2 8;1 6;1 6;1 7;0 11;",
        "7",
    ),
    (
        Program::Rendezvous,
        "0 13;0 13;0 13;1 4;2 9;1 5;1 5;1 4;1 6;2 10;2 10;2 11;0 14;",
        "5",
    ),
    (
        Program::Monitor,
        "0 9;0 9;0 9;1 6;1 3;2 7;2 4;1 3;1 3;1 6;2 4;2 4;2 7;0 10;",
        "tg",
    ),
    (
        Program::Select,
        "0 14;0 14;0 14;0 14;1 3;2 4;3 7;3 8;3 12;1 3;",
        "c",
    ),
    (
        Program::Resource,
        "0 9;0 9;0 9;1 6;1 3;1 3;2 7;2 4;2 4;2 5;2 3;2 3;2 7;1 3;1 3;1 5;1 6;0 10;",
        "t",
    ),
    (Program::Fault, "0 4;0 5;0 5!", ""),
];

#[test]
fn programs_act(rt: HostRuntime) -> Result<(), Fail> {
    for (at, (program, owed, written)) in CASES.iter().enumerate() {
        let (actions, out) = run(rt.alloc(), *program)?;
        assert!(rt;
            actions.as_slice() == owed.as_bytes() && out.bytes() == written.as_bytes(),
            "case {at}"
        );
    }
    Ok(())
}
