//! Refusals: of a text, and of the words of the command line.
ghost use Rattle.std.specs.Prelude.{◌≡◌, IfOk, MatchOption, Some, None};
ghost use Rattle.pfc_report.specs.Refusals.{refusal_line_text, words_of_code, words_refused_text};

use pfc_base::{Memory, Refusal};
use pfc_code::Page;
use std::alloc::Global;

/// The line of a refused text: the code of the broken rule, its place and its words, which are none for a code that is
/// not in the table. Its only refusal is want of memory.
pub fn refusal_line(alloc: Global, refusal: &Refusal) -> Result<Vec<u8>, Memory>
    ensures { IfOk result (λ text. text.items ≡ refusal_line_text refusal.now) }
{
    let words = refusal_text(refusal.code).unwrap_or("");
    let mut page = Page::new(alloc);
    page.text(b"-- refused ")?;
    page.number(refusal.code as u64)?;
    page.text(b" at line ")?;
    page.number(refusal.place.line as u64)?;
    page.text(b", column ")?;
    page.number(refusal.place.column as u64)?;
    page.text(b": ")?;
    page.text(words.as_bytes())?;
    page.text(b"\n")?;
    Ok(page.into_bytes())
}

/// The two lines for words of the command line that are refused.
pub fn words_refused() -> &'static [u8]
    ensures { result.now ≡ words_refused_text }
{
    b"-- words refused\nusage: pfc [FILE] [--seed N] [--unfair] [--limit N] [--input FILE] [--script FILE] [--list] [--code] [--make N]\n"
}

/// The words of a refusal's code, None where there is no such code.
pub fn refusal_text(code: u16) -> Option<&'static str>
    ensures { MatchOption result (words_of_code code ≡ None) (λ words. words_of_code code ≡ Some words.now) }
{
    let words = match code {
        101 => "bad byte",
        102 => "open comment",
        103 => "open literal",
        104 => "number too large",
        105 => "real number",
        106 => "name too long",
        201 => "syntax",
        202 => "nested too deeply",
        301 => "unknown name",
        302 => "repeated name",
        303 => "bad bounds",
        304 => "too many cells",
        310 => "wrong kind of name",
        311 => "wrong operand",
        312 => "types differ",
        313 => "condition expected",
        314 => "bad index",
        315 => "no such field",
        316 => "wrong number of arguments",
        317 => "wrong argument",
        318 => "variable expected",
        319 => "wrong label",
        320 => "repeated label",
        321 => "bad for",
        322 => "bad sign",
        323 => "bad result type",
        324 => "bad width",
        325 => "string not allowed",
        326 => "cannot be read or written",
        327 => "not in its body",
        401 => "cobegin not allowed",
        402 => "activation outside cobegin",
        403 => "initial outside main",
        404 => "not in the program's variables",
        405 => "condition outside a monitor",
        406 => "object used as a value",
        407 => "parameter not allowed",
        408 => "not in its monitor",
        409 => "bad export",
        410 => "not exported",
        411 => "synchronous not allowed",
        412 => "any not allowed",
        413 => "no such entry",
        414 => "accept not allowed",
        415 => "accept differs from entry",
        416 => "nothing to select",
        417 => "too many ways out",
        418 => "requeue not allowed",
        419 => "bad requeue",
        420 => "bad guard",
        421 => "terminate not allowed",
        422 => "not a process",
        423 => "guarded procedure called",
        424 => "too many processes",
        425 => "too many alternatives",
        501 => "program too large",
        _ => return None,
    };
    Some(words)
}
