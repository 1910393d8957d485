//! What processes have to do with one another.
ghost use Rattle.std.specs.Prelude.{◌≡◌, ◌≤◌, ◌<◌, ◌+◌, ◌^◌, [], length, take, set, IfOk, OnOk, OnErr};
ghost use Rattle.pfc_stacks.specs.Stacks.{operands_of};
ghost use Rattle.pfc_machines.specs.Communications.{IsRoomBetween};
ghost use Rattle.pfc_machines.specs.Descriptors.{descriptor_by, descriptor_of, roomier, entered, left, begun_in, keeping, with_made, offering, withdrawn};
ghost use Rattle.pfc_machines.specs.Descriptors.{forgetting, meeting, met, line_of_block, declared_descriptors, start_descriptors};

use crate::{Alternative, Communications, Room};
use pfc_base::Memory;
use pfc_code::{Block, ProcessInfo};
use pfc_stacks::Stacks;
use std::alloc::Global;
use std::marker::Model;

/// How far a process has come in a scan of a resource that it holds.
#[derive(Clone, Copy, Debug, PartialEq, Eq)]
pub struct Scan {
    /// The address at which the process goes on behind the scan.
    pub back: u32,
    /// The ticket of the barred process that was tried last; None before the first.
    pub after: Option<u64>,
    /// The barred process whose guard is evaluated.
    pub tried: Option<u32>,
    /// The process has requeued: behind the scan it tries its own guard, and keeps the resource.
    pub requeued: bool,
}

/// What a process has to do with the others, beside its standing and its stack.
#[derive(Drop)]
pub struct Descriptor {
    /// The line of its last action, from 1, and before that of its body's `begin`.
    pub line: u32,
    /// How many activations it has.
    pub activations: u32,
    /// The alternatives of selects that its activations have made and that no `SEL` has taken, and, where it waits in a select, those that it
    /// offers; and its meetings.
    pub communications: Communications,
    /// How many of them, those made last, it offers or has offered while it waited, in a plain communication one. They are gone before it
    /// goes on.
    pub offered: u32,
    pub scan: Option<Scan>,
}

/// What all processes have to do with one another, by their numbers from 0, main being 0. Contracts see a list.
#[derive(Drop)]
pub struct Descriptors {
    items: Vec<Descriptor>,
}

impl Model for Descriptors {
    ghost use Rattle.std.specs.Prelude.{List};
    ghost use Rattle.pfc_machines.specs.declared.descriptors.Descriptor.{Descriptor};

    ghost Value = { List Descriptor };

    ghost view = { λ d. d.items.items };
}

/// The line of the `begin` of a block, by its number; 0 where there is no such block.
fn line_of(blocks: &[Block], k: u32) -> u32
    ensures { result ≡ line_of_block blocks.now k }
{
    match blocks.get(k as usize) {
        Some(block) => block.line,
        None => 0,
    }
}

/// Each process with the line of its block.
fn declared_descriptors(
    alloc: Global,
    processes: &[ProcessInfo],
    blocks: &[Block],
) -> Result<Vec<Descriptor>, Memory>
    ensures { IfOk result (λ descriptors. descriptors.items ≡ declared_descriptors blocks.now processes.now) }
{
    let mut items = Vec::with_capacity(alloc, processes.len())?;
    for process in processes {
        items.push(Descriptor::at_line(alloc, line_of(blocks, process.block)))?;
    }
    Ok(items)
}

impl Descriptor {
    /// A process that has begun nothing, with a line.
    fn at_line(alloc: Global, line: u32) -> Descriptor
        ensures { result ≡ descriptor_by line }
    {
        Descriptor {
            line,
            activations: 0,
            communications: Communications::none(alloc),
            offered: 0,
            scan: None,
        }
    }

    /// Takes so much room above what it has. All memory is taken before anything is changed.
    fn make_room(&mut self, room: Room) -> Result<(), Memory>
        ensures ok { OnOk result (self.new ≡ roomier self.old room) }
        ensures err { OnErr result (self.new ≡ self.old) }
    {
        self.communications.make_room(room)
    }
}

impl Descriptors {
    /// Before the first action: each process has the line of its block, and main has entered its own, for whose activation there is room.
    /// Its only refusal is want of memory.
    pub(crate) fn start(
        alloc: Global,
        processes: &[ProcessInfo],
        blocks: &[Block],
        room: Room,
    ) -> Result<Descriptors, Memory>
        ensures { IfOk result (λ descriptors. descriptors ≡ start_descriptors blocks.now processes.now room) }
    {
        let mut descriptors = Descriptors {
            items: declared_descriptors(alloc, processes, blocks)?,
        };
        if !descriptors.items.is_empty() {
            descriptors.enter(0);
            descriptors.make_room(0, room)?;
        }
        Ok(descriptors)
    }

    /// The process has one activation more.
    pub fn enter(&mut self, p: u32)
        requires process { p < length self.old }
        requires few { (descriptor_of self.old p).activations + 1 < 2 ^ 32 }
        ensures { self.new ≡ set self.old p (entered (descriptor_of self.old p)) }
    {
        self.items[p as usize].activations += 1;
    }

    /// How many processes there are.
    pub fn len(&self) -> usize
        ensures { result ≡ length self.now }
    {
        self.items.len()
    }

    /// Takes so much room for a process above what it has. All memory is taken before anything is changed.
    pub fn make_room(&mut self, p: u32, room: Room) -> Result<(), Memory>
        requires { p < length self.old }
        ensures ok { OnOk result (self.new ≡ set self.old p (roomier (descriptor_of self.old p) room)) }
        ensures err { OnErr result (self.new ≡ self.old) }
    {
        let descriptor = &mut self.items[p as usize];
        descriptor.make_room(room)
    }

    /// The last activation of a process ends.
    pub fn leave(&mut self, p: u32)
        requires { p < length self.old }
        ensures { self.new ≡ set self.old p (left (descriptor_of self.old p)) }
    {
        let descriptor = &mut self.items[p as usize];
        descriptor.activations = descriptor.activations.saturating_sub(1);
    }

    /// For how much a process has room: at least for what it has made and begun.
    pub fn room(&self, p: u32) -> Room
        requires { p < length self.now }
        ensures room { result ≡ (descriptor_of self.now p).communications.room }
        ensures between { IsRoomBetween (descriptor_of self.now p).communications result }
    {
        self.items[p as usize].communications.room()
    }

    /// A process has room for so much and no more: what it has made and begun has room in it, and it is no more than there was.
    pub fn set_room(&mut self, p: u32, room: Room)
        requires process { p < length self.old }
        requires between { IsRoomBetween (descriptor_of self.old p).communications room }
        ensures { let d = descriptor_of self.old p in self.new ≡ set self.old p (record d { communications = record d.communications { room = room } }) }
    {
        let descriptor = &mut self.items[p as usize];
        descriptor.communications.set_room(room);
    }

    /// A process begins anew, in its first activation: what it had made and begun is forgotten, and its room and its line stay.
    pub fn begin(&mut self, p: u32)
        requires { p < length self.old }
        ensures { self.new ≡ set self.old p (begun_in (descriptor_of self.old p)) }
    {
        let descriptor = &mut self.items[p as usize];
        descriptor.activations = 1;
        descriptor.communications.clear();
        descriptor.offered = 0;
        descriptor.scan = None;
    }

    /// The line of a process: that of its last action, and before that of its body's `begin`.
    pub fn line(&self, p: u32) -> u32
        requires { p < length self.now }
        ensures { result ≡ (descriptor_of self.now p).line }
    {
        self.items[p as usize].line
    }

    /// An action of the process was done at a line.
    pub fn set_line(&mut self, p: u32, line: u32)
        requires { p < length self.old }
        ensures { self.new ≡ set self.old p (record (descriptor_of self.old p) { line = line }) }
    {
        self.items[p as usize].line = line;
    }

    /// How many activations a process has.
    pub fn activations(&self, p: u32) -> u32
        requires { p < length self.now }
        ensures { result ≡ (descriptor_of self.now p).activations }
    {
        self.items[p as usize].activations
    }

    /// How far a process has come in a scan.
    pub fn scan(&self, p: u32) -> Option<Scan>
        requires { p < length self.now }
        ensures { result ≡ (descriptor_of self.now p).scan }
    {
        self.items[p as usize].scan
    }

    /// The process has come so far in a scan, or scans nothing.
    pub fn set_scan(&mut self, p: u32, scan: Option<Scan>)
        requires { p < length self.old }
        ensures { self.new ≡ set self.old p (record (descriptor_of self.old p) { scan = scan }) }
    {
        self.items[p as usize].scan = scan;
    }

    /// Keeps the z words on top of the operands of a process, as those of the message of the alternative that it makes next.
    pub(crate) fn keep_message(&mut self, stacks: &Stacks, p: u32, z: u32)
        requires process { p < length self.old }
        requires held { z ≤ length (operands_of stacks.now p) }
        requires room { length (descriptor_of self.old p).communications.words + z ≤ (descriptor_of self.old p).communications.room.words }
        ensures { self.new ≡ set self.old p (keeping (descriptor_of self.old p) (take z (operands_of stacks.now p))) }
    {
        let descriptor = &mut self.items[p as usize];
        descriptor.communications.keep_message(stacks, p, z);
    }

    /// The process has made one alternative more.
    pub(crate) fn make(&mut self, p: u32, a: Alternative)
        requires process { p < length self.old }
        requires room { length (descriptor_of self.old p).communications.alternatives < (descriptor_of self.old p).communications.room.alternatives }
        ensures { self.new ≡ set self.old p (with_made (descriptor_of self.old p) a []) }
    {
        let descriptor = &mut self.items[p as usize];
        descriptor.communications.make(a);
    }
}

impl Descriptors {
    /// What a process has made and begun.
    pub fn communications(&self, p: u32) -> &Communications
        requires { p < length self.now }
        ensures { result.now ≡ (descriptor_of self.now p).communications }
    {
        &self.items[p as usize].communications
    }

    /// How many of its last alternatives a process offers.
    pub fn offered(&self, p: u32) -> u32
        requires { p < length self.now }
        ensures { result ≡ (descriptor_of self.now p).offered }
    {
        self.items[p as usize].offered
    }

    /// A process offers its last n alternatives, while it waits.
    pub fn offer(&mut self, p: u32, n: u32)
        requires { p < length self.old }
        ensures { self.new ≡ set self.old p (offering n (descriptor_of self.old p)) }
    {
        self.items[p as usize].offered = n;
    }

    /// What a process offers is gone.
    pub fn withdraw(&mut self, p: u32)
        requires { p < length self.old }
        ensures { self.new ≡ set self.old p (withdrawn (descriptor_of self.old p)) }
    {
        let descriptor = &mut self.items[p as usize];
        descriptor.communications.forget(descriptor.offered);
        descriptor.offered = 0;
    }

    /// The last n alternatives of a process are gone, with their messages.
    pub fn forget(&mut self, p: u32, n: u32)
        requires { p < length self.old }
        ensures { self.new ≡ set self.old p (forgetting n (descriptor_of self.old p)) }
    {
        let descriptor = &mut self.items[p as usize];
        descriptor.communications.forget(n);
    }

    /// A meeting of a process with a caller begins.
    pub fn begin_meeting(&mut self, p: u32, caller: u32)
        requires process { p < length self.old }
        requires room { length (descriptor_of self.old p).communications.callers < (descriptor_of self.old p).communications.room.meetings }
        ensures { self.new ≡ set self.old p (meeting caller (descriptor_of self.old p)) }
    {
        let descriptor = &mut self.items[p as usize];
        descriptor.communications.begin_meeting(caller);
    }

    /// The meeting of a process that was begun last ends.
    pub fn end_meeting(&mut self, p: u32)
        requires { p < length self.old }
        ensures { self.new ≡ set self.old p (met (descriptor_of self.old p)) }
    {
        let descriptor = &mut self.items[p as usize];
        descriptor.communications.end_meeting();
    }
}
