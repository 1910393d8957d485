//! The cutting of a whole text.
ghost use Rattle.std.specs.Prelude.{◌≡◌, ◌<◌, ◌≤◌, ◌+◌, ◌^◌, ◌∷◌, ℕ, length, IfOk, IfErr};
ghost use Rattle.pfc_scan.specs.Cutting.{IsCut, Cutting, tokens, after};
ghost use Rattle.pfc_scan.specs.Scanning.{IsRefused, IsUnlessMemory, HasScanCode};

use crate::next::{cause_of, next_piece};
use crate::piece::Reading;
use crate::{ScanFault, Scanned};
use pfc_base::{Place, Refusal, Token};
use std::alloc::Global;

/// The tokens of a text of at most 262,144 bytes, each with the place of its first byte, and the place after the last
/// byte. A text is cut into the longest pieces, and the first place where no piece begins, or where the piece is
/// refused for itself, refuses the text. The other refusal is want of memory.
pub fn scan(alloc: Global, text: &[u8]) -> Result<Scanned, ScanFault>
    requires { length text.now ≤ 262144 }
    // The tokens are those of the text's cutting, and so is the refusal.
    ensures ok { IfOk result (λ s. IsCut text.now (tokens s.tokens.items s.end)) }
    ensures refused { IfErr result (IsRefused text.now) }
    // Whatever the text is cut to is the answer, unless memory is wanting.
    ensures only { (c : Cutting) → IsCut text.now c → IsUnlessMemory result c }
    ensures codes { IfErr result HasScanCode }
    ensures count { IfOk result (λ s. length s.tokens.items ≤ length text.now) }
{
    let mut tokens = Vec::new(alloc);
    let mut place = Place { line: 1, column: 1 };
    let mut rest = text;
    while !rest.is_empty() {
        let Some(piece) = next_piece(alloc, rest)? else {
            let code = cause_of(rest);
            return Err(ScanFault::Refused(Refusal { code, place }));
        };
        let (bytes, left) = rest.split_at(piece.length);
        match piece.reading {
            Reading::Gap => {}
            Reading::Token(kind) => tokens.push(Token { kind, place })?,
            Reading::Refused(code) => return Err(ScanFault::Refused(Refusal { code, place })),
        }
        place = after(place, bytes);
        rest = left;
    }
    Ok(Scanned { tokens, end: place })
}

/// The place after some bytes.
fn after(place: Place, bytes: &[u8]) -> Place
    requires lines { place.line + length bytes.now < 2 ^ 32 }
    requires columns { place.column + length bytes.now < 2 ^ 32 }
    ensures value { result ≡ after place bytes.now }
    ensures lines { result.line ≤ place.line + length bytes.now }
    ensures columns { result.column ≤ place.column + length bytes.now }
{
    let mut place = place;
    for b in bytes {
        if *b == b'\n' {
            place.line += 1;
            place.column = 1;
        } else {
            place.column += 1;
        }
    }
    place
}
