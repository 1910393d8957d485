//! Numbers and real literals.
ghost use Rattle.std.specs.Prelude.{◌≡◌, ◌≢◌, ◌<◌, ◌≤◌, slice_index, length, true};
ghost use Rattle.std.specs.List.{prefix_len};
ghost use Rattle.std.specs.Char.{is_ascii_digit};
ghost use Rattle.pfc_scan.specs.Pieces.{IsNumber, number_reading};
ghost use Rattle.pfc_scan.specs.Cutting.{BeginsLongest};
ghost use Rattle.pfc_scan.specs.Finding.{IsNextPiece, fraction_len, power_len, scale_len, real_len};

use crate::code;
use crate::piece::{Piece, Reading};
use pfc_base::Kind;

/// The number or the real literal at the front of a text.
pub(crate) fn number(text: &[u8]) -> Piece
    requires { is_ascii_digit (slice_index text.now 0) ≡ true }
    ensures { IsNextPiece text.now result }
{
    let whole = digits_length(text);
    let tail = real_length(&text[whole..]);
    let reading = if tail == 0 {
        number_reading(&text[..whole])
    } else {
        Reading::Refused(code::REAL_NUMBER)
    };
    Piece {
        length: whole + tail,
        reading,
    }
}

fn number_reading(digits: &[u8]) -> Reading
    requires { IsNumber digits.now }
    ensures { result ≡ number_reading digits.now }
{
    let mut value: u64 = 0;
    for b in digits {
        value = value * 10 + (*b - b'0') as u64;
        if value > i32::MAX as u64 {
            return Reading::Refused(code::LARGE_NUMBER);
        }
    }
    Reading::Token(Kind::Number(value as i32))
}

fn digits_length(text: &[u8]) -> usize
    ensures value { result ≡ prefix_len is_ascii_digit text.now }
    ensures within { result ≤ length text.now }
{
    for (at, b) in text.iter().enumerate() {
        if !b.is_ascii_digit() {
            return at;
        }
    }
    text.len()
}

/// The bytes that a real literal has behind its first digits, 0 where it is none.
fn real_length(text: &[u8]) -> usize
    ensures value { result ≡ real_len text.now }
    ensures within { result ≤ length text.now }
{
    let fraction = fraction_length(text);
    fraction + scale_length(&text[fraction..])
}

fn fraction_length(text: &[u8]) -> usize
    ensures value { result ≡ fraction_len text.now }
    ensures within { result ≤ length text.now }
{
    if byte_at(text, 0) == b'.' && byte_at(text, 1).is_ascii_digit() {
        1 + digits_length(&text[1..])
    } else {
        0
    }
}

fn scale_length(text: &[u8]) -> usize
    ensures value { result ≡ scale_len text.now }
    ensures within { result ≤ length text.now }
{
    if byte_at(text, 0) != b'e' && byte_at(text, 0) != b'E' {
        return 0;
    }
    match power_length(&text[1..]) {
        0 => 0,
        power => 1 + power,
    }
}

fn power_length(text: &[u8]) -> usize
    ensures value { result ≡ power_len text.now }
    ensures within { result ≤ length text.now }
{
    let is_signed = byte_at(text, 0) == b'+' || byte_at(text, 0) == b'-';
    if byte_at(text, 0).is_ascii_digit() {
        digits_length(text)
    } else if is_signed && byte_at(text, 1).is_ascii_digit() {
        1 + digits_length(&text[1..])
    } else {
        0
    }
}

/// The byte at a place counted from 0, or 0 past the end.
fn byte_at(text: &[u8], at: usize) -> u8
    ensures value { result ≡ slice_index text.now at }
    ensures within { result ≢ 0 → at < length text.now }
{
    if at < text.len() { text[at] } else { 0 }
}
