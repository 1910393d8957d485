//! The lines of races.
ghost use Rattle.std.specs.Prelude.{◌≡◌, ◌++◌, IfOk, OnOk, All};
ghost use Rattle.pfc_hb.specs.Lines.{IsPair, action_text, pair_text, race_lines_text, race_text};
ghost use Rattle.std.specs.Fmt.{decimal};

use crate::comparing::has_write_against;
use crate::{Event, Race};
use itoa::Buffer;
use pfc_base::Memory;
use std::alloc::Global;

/// The lines of some races among these events, one for each, or the line `-- no races`. Each ends with byte 10. The only
/// refusal is want of memory.
pub fn race_lines(alloc: Global, events: &[Event], races: &[Race]) -> Result<Vec<u8>, Memory>
    requires { All (IsPair events.now) races.now }
    ensures { IfOk result (λ text. text.items ≡ race_lines_text events.now races.now) }
{
    let mut text = Vec::new(alloc);
    if races.is_empty() {
        text.extend_from_slice(b"-- no races\n")?;
        return Ok(text);
    }
    for race in races {
        add_race(&mut text, events, *race)?;
    }
    Ok(text)
}

fn add_race(text: &mut Vec<u8>, events: &[Event], race: Race) -> Result<(), Memory>
    requires { IsPair events.now race }
    ensures { OnOk result (text.new.items ≡ text.old.items ++ race_text events.now race) }
{
    let first = &events[race.first as usize - 1];
    let second = &events[race.second as usize - 1];
    add_pair(text, race, first, second)
}

fn add_pair(text: &mut Vec<u8>, race: Race, first: &Event, second: &Event) -> Result<(), Memory>
    ensures { OnOk result (text.new.items ≡ text.old.items ++ pair_text race first.now second.now) }
{
    text.extend_from_slice(b"-- race: ")?;
    add_action(text, race.first, first, second)?;
    text.extend_from_slice(b", ")?;
    add_action(text, race.second, second, first)?;
    text.extend_from_slice(b"\n")?;
    Ok(())
}

/// An action by its number, with the part that it has in its conflict with another.
fn add_action(text: &mut Vec<u8>, number: u32, event: &Event, other: &Event) -> Result<(), Memory>
    ensures { OnOk result (text.new.items ≡ text.old.items ++ action_text number event.now other.now) }
{
    text.extend_from_slice(b"action ")?;
    add_number(text, number)?;
    text.extend_from_slice(b" process ")?;
    add_number(text, event.process)?;
    text.extend_from_slice(if has_write_against(event, other) {
        b" writes at line "
    } else {
        b" reads at line "
    })?;
    add_number(text, event.line)
}

fn add_number(text: &mut Vec<u8>, number: u32) -> Result<(), Memory>
    ensures { OnOk result (text.new.items ≡ text.old.items ++ decimal number) }
{
    let mut buffer = Buffer::new();
    text.extend_from_slice(buffer.format(number).as_bytes())?;
    Ok(())
}
