//! Room for what activations have to do with other processes.
ghost use Rattle.std.specs.Prelude.{◌≡◌, ◌+◌, ◌<◌, length, drop, get_or, IfOk};
ghost use Rattle.pfc_machines.specs.Rooms.{room_for, together, room_of_all, no_room, stretch, end_of, rooms_of};

use pfc_base::Memory;
use pfc_code::{Block, Instr};
use std::alloc::Global;
use std::marker::Model;

/// How much room an activation takes: for so many alternatives, of selects and of plain communications, so many words of the messages that they
/// send, and so many meetings that are open at once.
#[derive(Clone, Copy, Debug, PartialEq, Eq)]
pub struct Room {
    pub alternatives: usize,
    pub words: usize,
    pub meetings: usize,
}

/// Room for nothing.
pub(crate) const NO_ROOM: Room = Room {
    alternatives: 0,
    words: 0,
    meetings: 0,
};

/// The room that an activation of each block takes, by the block's number in the image.
#[derive(Drop)]
pub struct Rooms {
    rooms: Vec<Room>,
}

impl Model for Rooms {
    ghost use Rattle.std.specs.Prelude.{List};
    ghost use Rattle.pfc_machines.specs.declared.rooms.Room.{Room};

    ghost Value = { List Room };

    ghost view = { λ r. r.rooms.items };
}

/// The room that one instruction takes, in a program of so many processes.
fn room_for(processes: usize, i: Instr) -> Room
    ensures { result ≡ room_for processes i }
{
    let (alternatives, words, meetings) = match i {
        Instr::SEND(z) => (1, z as usize, 0),
        Instr::RECV(_) => (1, 0, 0),
        Instr::ACC(_, _, _) => (1, 0, processes),
        Instr::ARMS(z, _) => (1, z as usize, 0),
        Instr::ARMR(_, _) => (1, 0, 0),
        Instr::ARMA(_, _, _, _) => (1, 0, processes),
        Instr::ARMT(_) => (1, 0, 0),
        Instr::ARMX => (1, 0, 0),
        _ => (0, 0, 0),
    };
    Room {
        alternatives,
        words,
        meetings,
    }
}

/// Both. There is no memory for 2^64 of a kind.
fn together(a: Room, b: Room) -> Result<Room, Memory>
    ensures { IfOk result (λ room. room ≡ together a b) }
{
    let Some(alternatives) = a.alternatives.checked_add(b.alternatives) else {
        return Err(Memory);
    };
    let Some(words) = a.words.checked_add(b.words) else {
        return Err(Memory);
    };
    let meetings = a.meetings.max(b.meetings);
    Ok(Room {
        alternatives,
        words,
        meetings,
    })
}

/// As much as all of these instructions take, in a program of so many processes.
fn room_of_all(processes: usize, code: &[Instr]) -> Result<Room, Memory>
    ensures { IfOk result (λ room. room ≡ room_of_all processes code.now) }
{
    let mut room = NO_ROOM;
    for i in code {
        room = together(room, room_for(processes, *i))?;
    }
    Ok(room)
}

/// The code from an address on and before another, as far as there is some.
fn stretch(code: &[Instr], from: usize, to: usize) -> &[Instr]
    ensures { result.now ≡ stretch from to code.now }
{
    let end = to.min(code.len());
    let start = from.min(end);
    &code[start..end]
}

/// Where the code of the block of a number ends: at the next block, or with the code.
fn end_of(code: &[Instr], blocks: &[Block], k: usize) -> usize
    requires { k < length blocks.now }
    ensures { result ≡ end_of code.now (drop (k + 1) blocks.now) }
{
    if k + 1 < blocks.len() {
        blocks[k + 1].entry as usize
    } else {
        code.len()
    }
}

impl Rooms {
    /// The room that an activation of each of these blocks takes, in this code of a program of so many processes. Its only refusal is want of
    /// memory.
    pub fn of(
        alloc: Global,
        processes: usize,
        code: &[Instr],
        blocks: &[Block],
    ) -> Result<Rooms, Memory>
        ensures { IfOk result (λ rooms. rooms ≡ rooms_of processes code.now blocks.now) }
    {
        let mut rooms = Vec::with_capacity(alloc, blocks.len())?;
        for k in 0..blocks.len() {
            let to = end_of(code, blocks, k);
            let room = room_of_all(processes, stretch(code, blocks[k].entry as usize, to))?;
            rooms.push(room)?;
        }
        Ok(Rooms { rooms })
    }

    /// The room that an activation of a block takes; none where there is no such block.
    pub fn of_block(&self, k: u32) -> Room
        ensures { result ≡ get_or self.now k no_room }
    {
        match self.rooms.get(k as usize) {
            Some(room) => *room,
            None => NO_ROOM,
        }
    }
}
