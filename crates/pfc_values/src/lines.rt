//! Lines of bytes: each ends with byte 10.
ghost use Rattle.std.specs.Prelude.{◌≡◌, ◌≤◌, length, drop, IfOk};
ghost use Rattle.pfc_values.specs.Inputs.{ends_lines, behind_line, without_returns};

use pfc_base::Memory;
use std::alloc::Global;

/// The bytes are empty, or they end with byte 10.
pub(crate) fn ends_lines(bytes: &[u8]) -> bool
    ensures { result ≡ ends_lines bytes.now }
{
    match bytes.last() {
        Some(b) => *b == b'\n',
        None => true,
    }
}

/// The bytes up to and with the first byte 10, or all where there is none.
pub(crate) fn line_length(bytes: &[u8]) -> usize
    ensures behind { drop result bytes.now ≡ behind_line bytes.now }
    ensures within { result ≤ length bytes.now }
{
    for (at, b) in bytes.iter().enumerate() {
        if *b == b'\n' {
            return at + 1;
        }
    }
    bytes.len()
}

/// The bytes without each byte 13 that stands directly before a byte 10.
pub(crate) fn without_returns(alloc: Global, bytes: &[u8]) -> Result<Vec<u8>, Memory>
    ensures { IfOk result (λ kept. kept.items ≡ without_returns bytes.now) }
{
    let mut kept = Vec::new(alloc);
    for (at, b) in bytes.iter().enumerate() {
        if !(*b == b'\r' && bytes.get(at + 1) == Some(&b'\n')) {
            kept.push(*b)?;
        }
    }
    Ok(kept)
}
