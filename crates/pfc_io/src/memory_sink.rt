//! A sink in memory: it tells its bytes, and fails where it is told to.
ghost use Rattle.std.specs.Prelude.{◌≡◌, ℕ, ◌+◌, ◌-◌, ◌<◌, ◌≤◌, ◌++◌, ◌↔◌, ◌⊎◌, [], min, length, take, Some, IsErr, IfOk, OnErr, is_err, if◌then◌else◌};
ghost use Rattle.std.specs.Prelude.{Contains};
ghost use Rattle.std.specs.Vec.{vec_capacity};
ghost use Rattle.pfc_io.specs.Counts.{greatest};

use crate::memory_shelf::is_next;
use crate::{Failed, Sink};
use pfc_base::Memory;
use std::alloc::Global;

/// Bytes in memory, with room for `room` of them. A write takes at most `most` bytes. One of a piece that is not empty
/// fails where its number is in `fails`, counted from 1, or where `room` bytes are written.
#[derive(Drop)]
pub struct MemorySink {
    /// The bytes written so far.
    pub written: Vec<u8>,
    /// How many bytes there is room for.
    pub room: usize,
    /// The most bytes that one write takes, at least 1.
    pub most: usize,
    /// The numbers of the writes that fail.
    pub fails: Vec<u64>,
    /// How many writes there were.
    pub calls: u64,
    /// How many of them failed.
    pub faults: u64,
    ghost reserved: { room ≤ vec_capacity written },
    ghost some: { 0 < most },
}

impl MemorySink {
    /// An empty sink. It takes the memory for `room` bytes, and no write takes any. Its only refusal is want of memory.
    pub fn new(
        alloc: Global,
        room: usize,
        most: usize,
        fails: Vec<u64>,
    ) -> Result<MemorySink, Memory>
        requires { 0 < most }
        ensures empty { IfOk result (λ sink. sink.written.items ≡ []) }
        ensures given { IfOk result (λ sink. (sink.room ≡ room) × (sink.most ≡ most) × (sink.fails ≡ fails)) }
        ensures counts { IfOk result (λ sink. (sink.calls ≡ 0) × (sink.faults ≡ 0)) }
    {
        let written = Vec::with_capacity(alloc, room)?;
        Ok(MemorySink {
            written,
            room,
            most,
            fails,
            calls: 0,
            faults: 0,
        })
    }
}

impl Sink for MemorySink {
    ghost written = { λ sink. Some sink.written.items };

    ghost faults = { λ sink. sink.faults };

    fn write(&mut self, piece: &[u8]) -> Result<usize, Failed>
        ensures failed { IsErr result ↔ (0 < length piece.now × (Contains self.old.fails.items (self.old.calls + 1)
            ⊎ (self.old.room ≤ length self.old.written.items))) }
        ensures taken { IfOk result (λ n.
            n ≡ min (min (length piece.now) self.old.most) (self.old.room - length self.old.written.items)) }
        ensures appended { IfOk result (λ n.
            self.new.written.items ≡ self.old.written.items ++ take n piece.now) }
        ensures unchanged { OnErr result (self.new.written.items ≡ self.old.written.items) }

        ensures calls { self.new.calls ≡ min (self.old.calls + 1) greatest }
        ensures faults { self.old.faults ≤ self.new.faults }
        ensures counted { self.new.faults ≡
            (if is_err result then min (self.old.faults + 1) greatest else self.old.faults) }

        ensures room { self.new.room ≡ self.old.room }
        ensures most { self.new.most ≡ self.old.most }
        ensures numbers { self.new.fails ≡ self.old.fails }
    {
        let fails = is_next(&self.fails, self.calls);
        self.calls = self.calls.saturating_add(1);
        if piece.is_empty() {
            return Ok(0);
        }
        let left = self.room.saturating_sub(self.written.len());
        if fails || left == 0 {
            self.faults = self.faults.saturating_add(1);
            return Err(Failed);
        }
        let taken = piece.len().min(self.most).min(left);
        self.written.extend_from_slice(&piece[..taken]).unwrap();
        Ok(taken)
    }
}
