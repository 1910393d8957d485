//! The text of a script.
ghost use Rattle.std.specs.Prelude.{◌≡◌, ◌++◌, ◌∷◌, [], ◌<◌, length, Ok, Err, IfOk, IfErr, IfNone, IfSome};
ghost use Rattle.pfc_sched.specs.Script.{script, items_of, number_of, is_blank};
ghost use Rattle.std.specs.Prelude.{option_map, ◌≤◌, drop};
ghost use Rattle.pfc_sched.specs.Cut.{IsRefusedScript, IsFirstItem, blanks_before, bytes_before_blank};

use crate::number_list::Picks;
use pfc_base::Memory;
use std::alloc::Global;

/// Why a script gives no list.
#[derive(Clone, Copy, Debug, PartialEq, Eq)]
pub enum ScriptFault {
    /// This item, counted from 1, is no number of at most 32 bits in decimal.
    NotANumber { item: u64 },
    /// Memory was refused.
    Memory,
}

impl From<Memory> for ScriptFault {
    ghost use Rattle.std.specs.Prelude.{◌≡◌};
    ghost use Rattle.pfc_sched.specs.declared.script_text.ScriptFault.TheVariants.{Memory as NoMemory};

    ghost from_gives = { λ _ fault. fault ≡ NoMemory };

    fn from(_memory: Memory) -> ScriptFault {
        ScriptFault::Memory
    }
}

/// The numbers of a script: items of digits, apart by tabs, line ends, carriage returns and spaces.
pub fn read_script(alloc: Global, bytes: &[u8]) -> Result<Picks, ScriptFault>
    ensures ok { IfOk result (λ picks. script bytes.now ≡ Ok picks) }
    ensures refused { IfErr result (IsRefusedScript bytes.now) }
{
    let mut picks = Picks::new(alloc);
    let mut items = 0u64;
    let mut rest = bytes;
    while let Some((item, after)) = first_item(rest) {
        items += 1;
        match number(item) {
            Some(n) => picks.push(n)?,
            None => return Err(ScriptFault::NotANumber { item: items }),
        }
        rest = after;
    }
    Ok(picks)
}

/// The first item and what is left behind it, or nothing where there is no further item.
fn first_item(bytes: &[u8]) -> Option<(&[u8], &[u8])>
    ensures { IsFirstItem bytes.now (option_map (λ p. (p.0.now, p.1.now)) result) }
{
    let items = skip_white(bytes);
    if items.is_empty() {
        return None;
    }
    Some(items.split_at(item_length(items)))
}

/// The bytes behind the blanks that they begin with.
fn skip_white(bytes: &[u8]) -> &[u8]
    ensures { result.now ≡ drop (blanks_before bytes.now) bytes.now }
{
    &bytes[white_length(bytes)..]
}

/// How many blanks the bytes begin with.
fn white_length(bytes: &[u8]) -> usize
    ensures count { result ≡ blanks_before bytes.now }
    ensures within { result ≤ length bytes.now }
{
    for (i, byte) in bytes.iter().enumerate() {
        if !is_white(*byte) {
            return i;
        }
    }
    bytes.len()
}

/// How many bytes come before the first blank.
fn item_length(bytes: &[u8]) -> usize
    ensures count { result ≡ bytes_before_blank bytes.now }
    ensures within { result ≤ length bytes.now }
{
    for (i, byte) in bytes.iter().enumerate() {
        if is_white(*byte) {
            return i;
        }
    }
    bytes.len()
}

fn is_white(byte: u8) -> bool
    ensures { result ≡ is_blank byte }
{
    byte == 9 || byte == 10 || byte == 13 || byte == 32
}

/// The number of an item, if it is one.
fn number(item: &[u8]) -> Option<u32>
    ensures { result ≡ number_of item.now }
{
    let mut value = 0u64;
    for byte in item {
        if !byte.is_ascii_digit() {
            return None;
        }
        value = value * 10 + u64::from(*byte - b'0');
        if value > u64::from(u32::MAX) {
            return None;
        }
    }
    Some(value as u32)
}
