//! The text of a script.

use pfc_base::Memory;
use pfc_sched::{ScriptFault, read_script};
use std::alloc::Global;
use std::test::Fail;

/// A script's text, in which `~` is a line end, `^` a carriage return and `_` a tab, and behind `|` its numbers, or `!` and
/// the number of the item that is no number.
const SCRIPTS: &str = "\
|
 _^~|
00|0
1_2^~3 4294967295|1 2 3 4294967295
4294967296|!1
0 +0|!2
1x|!1
1 2 -3|!3
99999999999999999999999 1|!1
";

/// The bytes that a text of the table stands for.
fn bytes_of(alloc: Global, text: &str) -> Result<Vec<u8>, Memory> {
    let mut bytes = Vec::new(alloc);
    for b in text.as_bytes() {
        bytes.push(match *b {
            b'_' => b'\t',
            b'^' => b'\r',
            b'~' => b'\n',
            other => other,
        })?;
    }
    Ok(bytes)
}

/// The number of the item that is no number.
fn item_of(fault: &ScriptFault) -> u64 {
    match fault {
        ScriptFault::NotANumber { item } => *item,
        ScriptFault::Memory => 0,
    }
}

/// Whether a script is read as its line of the table says.
fn is_read(alloc: Global, line: &str) -> Result<bool, Memory> {
    let Some((text, owed)) = line.split_once('|') else {
        return Ok(false);
    };
    let picks = match read_script(alloc, &bytes_of(alloc, text)?) {
        Ok(picks) => picks,
        Err(fault) => {
            let item = owed
                .strip_prefix('!')
                .and_then(|item| item.parse::<u64>().ok());
            return Ok(item == Some(item_of(&fault)));
        }
    };
    let mut i = 0;
    for number in owed.split_whitespace() {
        if i >= picks.len() || number.parse() != Ok(*picks.at(i)) {
            return Ok(false);
        }
        i += 1;
    }
    Ok(i == picks.len() && picks.is_empty() == (i == 0))
}

#[test]
fn scripts_are_read(rt: HostRuntime) -> Result<(), Fail> {
    for line in SCRIPTS.lines() {
        assert!(rt; is_read(rt.alloc(), line)?, "in {line}");
    }
    Ok(())
}

/// How many numbers a text has that repeats two bytes so that it has the greatest length.
fn count_in_long(alloc: Global, pair: &[u8]) -> Result<Option<u32>, Memory> {
    let mut text = Vec::new(alloc);
    for _ in 0..524_288 {
        text.extend_from_slice(pair)?;
    }
    Ok(match read_script(alloc, &text) {
        Ok(picks) => Some(picks.len()),
        Err(_) => None,
    })
}

#[test]
fn a_long_script_is_read(rt: HostRuntime) -> Result<(), Fail> {
    assert!(rt; count_in_long(rt.alloc(), b"77")?.is_none());
    assert!(rt; count_in_long(rt.alloc(), b"7 ")? == Some(524_288));
    Ok(())
}
