//! Events, written in short.

use pfc_base::Memory;
use pfc_hb::{Access, Accesses, Event, Numbers, Path, Spot, Thing, Things};
use std::alloc::Global;
use std::mem;

/// An event that is being read. A digit counts for the letter or sign before it; at first it is the process.
#[derive(Drop)]
struct Draft {
    sign: u8,
    process: u32,
    line: u32,
    joins: bool,
    activation: u64,
    wakes: Vec<u32>,
    things: Vec<Thing>,
    steps: Vec<i32>,
    accesses: Vec<Access>,
}

impl Draft {
    fn new(alloc: Global) -> Draft {
        Draft {
            sign: b'p',
            process: 0,
            line: 1,
            joins: false,
            activation: 0,
            wakes: Vec::new(alloc),
            things: Vec::new(alloc),
            steps: Vec::new(alloc),
            accesses: Vec::new(alloc),
        }
    }

    fn read(&mut self, alloc: Global, byte: u8) -> Result<(), Memory> {
        if byte.is_ascii_digit() {
            return self.number(alloc, u32::from(byte) % 16);
        }
        self.sign = byte;
        if byte == b'j' {
            self.joins = true;
        }
        Ok(())
    }

    fn number(&mut self, alloc: Global, n: u32) -> Result<(), Memory> {
        match self.sign {
            b'p' => self.process = n,
            b'l' => self.line = n,
            b'a' => self.activation = u64::from(n),
            b'>' => self.wakes.push(n)?,
            b'.' => self.steps.push((n % 10) as i32)?,
            b'r' => self.access(alloc, n, false)?,
            b'w' => self.access(alloc, n, true)?,
            other => self.thing(other, n)?,
        }
        Ok(())
    }

    fn thing(&mut self, sign: u8, n: u32) -> Result<(), Memory> {
        let thing = match sign {
            b's' => Thing::Semaphore(n),
            b'c' => Thing::Channel(n),
            b'm' => Thing::Monitor(n),
            b'q' => Thing::Resource(n),
            _ => Thing::Owner(n),
        };
        self.things.push(thing)?;
        Ok(())
    }

    /// An access to a variable, at the steps that were read before.
    fn access(&mut self, alloc: Global, variable: u32, write: bool) -> Result<(), Memory> {
        let steps = mem::replace(&mut self.steps, Vec::new(alloc));
        let spot = Spot {
            activation: self.activation,
            variable,
            path: Path::from_vec(steps),
        };
        self.accesses.push(Access { spot, write })?;
        Ok(())
    }

    fn event(self) -> Event {
        let Draft {
            sign: _,
            process,
            line,
            joins,
            activation: _,
            wakes,
            things,
            steps: _,
            accesses,
        } = self;
        Event {
            process,
            line,
            joins,
            wakes: Numbers::from_vec(wakes),
            things: Things::from_vec(things),
            accesses: Accesses::from_vec(accesses),
        }
    }
}

/// The event of a word: its process; `lN` its line, 1 where there is none; `j` where it joins; `>N` whom it wakes; `sN`, `cN`,
/// `mN`, `qN` and `oN` a semaphore, a channel, a monitor, a resource and an owner; `rN` and `wN` a read and a write of a variable, of
/// the part that steps `.N` before it lead to, in the activation of the last `aN`. Each number is one digit.
fn event_of(alloc: Global, word: &str) -> Result<Event, Memory> {
    let mut draft = Draft::new(alloc);
    for byte in word.as_bytes() {
        draft.read(alloc, *byte)?;
    }
    Ok(draft.event())
}

/// The events of some words.
pub(crate) fn events_of(alloc: Global, text: &str) -> Result<Vec<Event>, Memory> {
    let mut events = Vec::new(alloc);
    for word in text.split_whitespace() {
        events.push(event_of(alloc, word)?)?;
    }
    Ok(events)
}
