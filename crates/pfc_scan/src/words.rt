//! Reserved words and names. The case of a letter does not matter.
ghost use Rattle.std.specs.Prelude.{◌≡◌, ◌∷◌, ◌+◌, ◌≤◌, ℕ, List, length, map, slice_index, IfOk, true, option_map};
ghost use Rattle.std.specs.List.{prefix_len};
ghost use Rattle.std.specs.Char.{to_ascii_lowercase};
ghost use Rattle.std.specs.Str.{bytes_eq, str_to_ascii_lowercase};
ghost use Rattle.pfc_base.specs.Names.{is_name_part, is_letter};
ghost use Rattle.pfc_scan.specs.Pieces.{IsWord, word_reading, word_number, reserved_words};
ghost use Rattle.pfc_scan.specs.Finding.{IsNext, found_from};

use crate::code;
use crate::piece::{Piece, Reading};
use pfc_base::{Kind, Memory, Name, word};
use std::alloc::Global;

/// The word at the front of a text.
pub(crate) fn word_piece(alloc: Global, text: &[u8]) -> Result<Option<Piece>, Memory>
    requires { is_letter (slice_index text.now 0) ≡ true }
    ensures { IfOk result (IsNext text.now) }
{
    let length = word_length(text);
    let reading = word_reading(alloc, &text[..length])?;
    Ok(Some(Piece { length, reading }))
}

fn word_length(text: &[u8]) -> usize
    ensures value { result ≡ prefix_len is_name_part text.now }
    ensures within { result ≤ length text.now }
{
    for (at, b) in text.iter().enumerate() {
        if !(b.is_ascii_alphanumeric() || *b == b'_') {
            return at;
        }
    }
    text.len()
}

fn word_reading(alloc: Global, piece: &[u8]) -> Result<Reading, Memory>
    requires { IsWord piece.now }
    ensures { IfOk result (λ r. r ≡ word_reading piece.now) }
{
    if let Some(number) = word_number(piece) {
        return Ok(Reading::Token(Kind::Word(number)));
    }
    if is_same(b"real", piece) {
        return Ok(Reading::Refused(code::REAL_NUMBER));
    }
    if piece.len() > 63 {
        return Ok(Reading::Refused(code::LONG_NAME));
    }
    let name = Name::new(alloc, piece)?;
    Ok(Reading::Token(Kind::Name(name)))
}

/// The number of the reserved word that a word is, if it is one.
fn word_number(piece: &[u8]) -> Option<u8>
    requires { IsWord piece.now }
    ensures { result ≡ word_number (str_to_ascii_lowercase piece.now) }
{
    let (mut number, mut words) = words_by_letter(piece[0].to_ascii_lowercase());
    while let [word, rest @ ..] = words {
        if is_same(word, piece) {
            return Some(number);
        }
        number += 1;
        words = rest;
    }
    None
}

fn is_same(word: &[u8], piece: &[u8]) -> bool
    ensures { result ≡ bytes_eq (str_to_ascii_lowercase word.now) (str_to_ascii_lowercase piece.now) }
{
    word.eq_ignore_ascii_case(piece)
}

/// The reserved words that begin with a letter, in their order, and the number of the first.
fn words_by_letter(letter: u8) -> (u8, &'static [&'static [u8]])
    ensures all { (rest : List ℕ) → found_from result.0 (map (λ w. str_to_ascii_lowercase w.now) result.1.now)
        (letter ∷ rest) ≡ found_from 0 reserved_words (letter ∷ rest) }
    ensures few { result.0 + length result.1.now ≤ 46 }
{
    match letter {
        b'a' => (word::ACCEPT, &[b"accept", b"and", b"array"]),
        b'b' => (word::BEGIN, &[b"begin"]),
        b'c' => (
            word::CASE,
            &[b"case", b"channel", b"cobegin", b"coend", b"const"],
        ),
        b'd' => (word::DIV, &[b"div", b"do", b"downto"]),
        b'e' => (word::ELSE, &[b"else", b"end", b"entry", b"export"]),
        b'f' => (word::FOR, &[b"for", b"forever", b"function"]),
        b'g' => (word::GUARDED, &[b"guarded"]),
        b'i' => (word::IF, &[b"if"]),
        b'm' => (word::MOD, &[b"mod", b"monitor"]),
        b'n' => (word::NOT, &[b"not", b"null"]),
        b'o' => (word::OF, &[b"of", b"or"]),
        b'p' => (word::PRI, &[b"pri", b"procedure", b"process", b"program"]),
        b'r' => (
            word::RECORD,
            &[b"record", b"repeat", b"replicate", b"requeue", b"resource"],
        ),
        b's' => (word::SELECT, &[b"select"]),
        b't' => (
            word::TERMINATE,
            &[b"terminate", b"then", b"timeout", b"to", b"type"],
        ),
        b'u' => (word::UNTIL, &[b"until"]),
        b'v' => (word::VAR, &[b"var"]),
        b'w' => (word::WHEN, &[b"when", b"while"]),
        _ => (word::COUNT, &[]),
    }
}
