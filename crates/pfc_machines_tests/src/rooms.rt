//! The room that activations of blocks take.
use pfc_base::{Memory, Name};
use pfc_code::{Block, Instr};
use pfc_machines::{Room, Rooms};
use std::alloc::Global;
use std::test::Fail;

/// A body without parameters, at an entry.
fn block_at(alloc: Global, entry: u32) -> Result<Block, Memory> {
    let label = Name::new(alloc, b"p")?;
    Ok(Block {
        label,
        entry,
        body: entry,
        params: 0,
        cells: 0,
        operands: 4,
        level: 0,
        line: 1,
    })
}

/// A select, two accepts of which one stands in a select, and main.
static CODE: [Instr; 14] = [
    Instr::ARMS(3, 4),
    Instr::ARMR(2, 4),
    Instr::ARMX,
    Instr::SEL(0, 0),
    Instr::END,
    Instr::ACC(0, 0, 2),
    Instr::EACC,
    Instr::ARMA(1, 2, 2, 10),
    Instr::ARMT(10),
    Instr::SEL(0, 0),
    Instr::EACC,
    Instr::END,
    Instr::COEND,
    Instr::END,
];

fn rooms(alloc: Global) -> Result<[Room; 4], Memory> {
    let blocks = vec![in alloc;
        block_at(alloc, 0)?,
        block_at(alloc, 5)?,
        block_at(alloc, 12)?,
    ]?;
    let rooms = Rooms::of(alloc, 7, &CODE, &blocks)?;
    Ok([
        rooms.of_block(0),
        rooms.of_block(1),
        rooms.of_block(2),
        rooms.of_block(3),
    ])
}

fn room(alternatives: usize, words: usize, meetings: usize) -> Room {
    Room {
        alternatives,
        words,
        meetings,
    }
}

#[test]
fn rooms_of_blocks(rt: HostRuntime) -> Result<(), Fail> {
    let none = room(0, 0, 0);
    assert!(rt; rooms(rt.alloc())? == [room(3, 3, 0), room(3, 0, 7), none, none]);
    Ok(())
}
