//! The item at the front of bytes.
ghost use Rattle.std.specs.Prelude.{◌≡◌, ◌≤◌, length, IfOk};
ghost use Rattle.pfc_values.specs.Inputs.{item, integer_item, signed_item, unsigned_item, char_item, digits};
ghost use Rattle.pfc_values.specs.Readings.{read_of};

use crate::Simple;
use crate::digits::{blanks_length, digits_length, number};
use pfc_base::RunFault;

/// A value that was read, and how many bytes were passed.
#[derive(Clone, Copy)]
pub(crate) struct Reading {
    pub(crate) value: i32,
    pub(crate) passed: usize,
}

/// The item for a variable of a type. A boolean is never read.
pub(crate) fn item(t: Simple, bytes: &[u8]) -> Result<Reading, RunFault>
    ensures value { read_of bytes.now result ≡ item t bytes.now }
    ensures within { IfOk result (λ r. r.passed ≤ length bytes.now) }
{
    match t {
        Simple::Integer => integer_item(bytes),
        Simple::Boolean | Simple::Char => char_item(bytes),
    }
}

/// One byte. A line end reads as a space.
fn char_item(bytes: &[u8]) -> Result<Reading, RunFault>
    ensures value { read_of bytes.now result ≡ char_item bytes.now }
    ensures within { IfOk result (λ r. r.passed ≤ length bytes.now) }
{
    if bytes.is_empty() {
        return Err(RunFault::InputEnd);
    }
    let value = if bytes[0] == b'\n' { b' ' } else { bytes[0] };
    Ok(Reading {
        value: i32::from(value),
        passed: 1,
    })
}

/// An integer, with blanks before it.
fn integer_item(bytes: &[u8]) -> Result<Reading, RunFault>
    ensures value { read_of bytes.now result ≡ integer_item bytes.now }
    ensures within { IfOk result (λ r. r.passed ≤ length bytes.now) }
{
    let blanks = blanks_length(bytes);
    let read = signed_item(&bytes[blanks..])?;
    Ok(Reading {
        value: read.value,
        passed: blanks + read.passed,
    })
}

/// An optional sign and digits.
fn signed_item(bytes: &[u8]) -> Result<Reading, RunFault>
    ensures value { read_of bytes.now result ≡ signed_item bytes.now }
    ensures within { IfOk result (λ r. r.passed ≤ length bytes.now) }
{
    if bytes.is_empty() {
        return Err(RunFault::InputEnd);
    }
    let is_negative = bytes[0] == b'-';
    if !is_negative && bytes[0] != b'+' {
        return unsigned_item(false, bytes);
    }
    let read = unsigned_item(is_negative, &bytes[1..])?;
    Ok(Reading {
        value: read.value,
        passed: 1 + read.passed,
    })
}

/// An integer whose sign was read.
fn unsigned_item(is_negative: bool, bytes: &[u8]) -> Result<Reading, RunFault>
    ensures value { read_of bytes.now result ≡ unsigned_item is_negative bytes.now (digits bytes.now) }
    ensures within { IfOk result (λ r. r.passed ≤ length bytes.now) }
{
    let passed = digits_length(bytes);
    if passed == 0 {
        return Err(RunFault::NoInteger);
    }
    let size = number(&bytes[..passed]) as i64;
    match i32::try_from(if is_negative { -size } else { size }) {
        Ok(value) => Ok(Reading { value, passed }),
        Err(_) => Err(RunFault::Overflow),
    }
}
