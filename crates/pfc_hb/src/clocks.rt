//! Clocks: one count for each process.
ghost use Rattle.std.specs.Prelude.{◌≡◌, ◌<◌, ℕ, IfOk, length, max, replicate, slice_index, slice_set};

use pfc_base::Memory;
use std::alloc::Global;
use std::marker::Model;

/// The clock of an event. Its counts stand in slots, which `Slots` gives to processes. A contract sees the list of the counts.
#[derive(Drop)]
pub(crate) struct Clock {
    counts: Vec<u32>,
}

impl Model for Clock {
    ghost use Rattle.std.specs.Prelude.{ℕ, List};

    ghost Value = { List ℕ };

    ghost view = { λ c. c.counts.items };
}

impl Clock {
    /// A clock of so many slots that counts no event.
    pub(crate) fn new(alloc: Global, width: usize) -> Result<Clock, Memory>
        ensures { IfOk result (λ clock. clock ≡ replicate width 0) }
    {
        let counts = vec![in alloc; 0; width]?;
        Ok(Clock { counts })
    }

    pub(crate) fn count(&self, slot: usize) -> u32
        requires { slot < length self.now }
        ensures { result ≡ slice_index self.now slot }
    {
        self.counts[slot]
    }

    pub(crate) fn set_count(&mut self, slot: usize, count: u32)
        requires { slot < length self.old }
        ensures { self.new ≡ slice_set self.old slot count }
    {
        self.counts[slot] = count;
    }

    /// Counts what another clock counts, too.
    pub(crate) fn join(&mut self, other: &Clock)
        requires { length self.old ≡ length other.now }
        ensures wide { length self.new ≡ length self.old }
        ensures greater { (slot : ℕ) → slice_index self.new slot ≡ max (slice_index self.old slot) (slice_index other.now slot) }
    {
        for (slot, count) in other.counts.iter().enumerate() {
            if self.counts[slot] < *count {
                self.counts[slot] = *count;
            }
        }
    }
}
