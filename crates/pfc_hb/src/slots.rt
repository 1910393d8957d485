//! The slots of processes in clocks.
ghost use Rattle.std.specs.Prelude.{◌≡◌, ◌<◌, ◌≤◌, IfOk, OnOk, length, slice_index, take, vec_len};
ghost use Rattle.pfc_hb.specs.Clocks.{AreSlots};

use crate::Event;
use pfc_base::Memory;
use std::alloc::Global;

/// For each event the slot of its process, and how many slots a clock has.
#[derive(Drop)]
pub(crate) struct Slots {
    pub(crate) of_events: Vec<usize>,
    pub(crate) width: usize,
}

/// The slots of the processes of some events, in the order in which the processes first act. The only refusal is want of memory.
pub(crate) fn slots_of(alloc: Global, events: &[Event]) -> Result<Slots, Memory>
    ensures { IfOk result (λ slots. AreSlots events.now slots.of_events.items slots.width) }
{
    let mut processes = Vec::new(alloc);
    let mut of_events = Vec::new(alloc);
    for event in events {
        let slot = slot_of(&mut processes, event.process)?;
        of_events.push(slot)?;
    }
    Ok(Slots {
        of_events,
        width: processes.len(),
    })
}

/// The place of a process among those that acted so far, at whose end it is put where it is new.
fn slot_of(processes: &mut Vec<u32>, process: u32) -> Result<usize, Memory>
    ensures within { IfOk result (λ slot. slot < length processes.new.items) }
    ensures found { IfOk result (λ slot. slice_index processes.new.items slot ≡ process) }
    ensures more { OnOk result (length processes.old.items ≤ length processes.new.items) }
    ensures kept { OnOk result (take (length processes.old.items) processes.new.items ≡ processes.old.items) }
{
    if let Some(slot) = processes.iter().position(|known| *known == process) {
        return Ok(slot);
    }
    processes.push(process)?;
    Ok(processes.len() - 1)
}
