//! What images have beside their code, and how large they can be.
ghost use Rattle.std.specs.Prelude.{◌≤◌, length};

use pfc_base::{Memory, Token};
use pfc_check::check;
use pfc_code::Image;
use pfc_generator::{GenFault, generate};
use pfc_parse::parse;
use pfc_scan::scan;
use std::alloc::Global;
use std::test::Fail;

/// What comes of the tokens of a text, None where they have a fault or memory was refused.
fn image_from(alloc: Global, tokens: &[Token]) -> Option<Result<Image, GenFault>>
    requires { length tokens.now ≤ 262144 }
{
    let Ok(tree) = parse(alloc, tokens) else {
        return None;
    };
    match check(alloc, tree) {
        Ok(checked) => Some(generate(alloc, &checked, tokens)),
        Err(_fault) => None,
    }
}

/// What comes of a text, None where it has a fault or memory was refused.
pub(super) fn image_of(alloc: Global, text: &[u8]) -> Option<Result<Image, GenFault>> {
    if text.len() > 262_144 {
        return None;
    }
    let Ok(scanned) = scan(alloc, text) else {
        return None;
    };
    image_from(alloc, &scanned.tokens)
}

/// Whether these literals of a text are kept, each for itself, and in this order.
fn are_kept(alloc: Global, text: &str, texts: &[&str]) -> bool {
    let Some(Ok(image)) = image_of(alloc, text.as_bytes()) else {
        return false;
    };
    image.texts.len() == texts.len()
        && image
            .texts
            .iter()
            .zip(texts)
            .all(|(kept, text)| kept.bytes() == text.as_bytes())
}

#[test]
fn literals_are_kept(rt: HostRuntime) {
    let text = "program a; begin write('ab', 'c', 'de': 7); writeln; write('ab') end.";
    assert!(rt; are_kept(rt.alloc(), text, &["ab", "de", "ab"]));
}

/// Strings in a guard's sub, in an initialising body, behind `terminate` and in the main body: they are numbered as they stand in the text.
const STRINGS: &str = "program s;
monitor m; export p; var n: integer;
  procedure p; begin write('one') end;
begin write('two') end;
process q; entry e;
begin select accept e or terminate; if true then write('three') else writeln('four') end; write('five') end;
begin cobegin q coend; m.p; write('six') end.";

#[test]
fn literals_of_all_bodies_are_kept(rt: HostRuntime) {
    assert!(rt;
        are_kept(
            rt.alloc(),
            STRINGS,
            &["one", "two", "three", "four", "five", "six"]
        )
    );
}

/// The most alternatives of a select: those behind `terminate` count, each value of a replicated one for itself.
const ALTERNATIVES: &str =
    "program a; var c: array[1..9] of channel of integer; process q; entry e; var i, v: integer;
begin select accept e or terminate; select for i := 2 to 8 replicate c[i] ? v; v := 1; or c[9] ! 3 end end end;
begin cobegin q coend end.";

#[test]
fn alternatives_are_counted(rt: HostRuntime) {
    match image_of(rt.alloc(), ALTERNATIVES.as_bytes()) {
        Some(Ok(image)) => assert!(rt; image.arms == 8),
        Some(Err(_)) | None => panic!(rt; "no image"),
    }
}

const LINES: &str = "program a;
var b: boolean; c: array [0..4] of char;
begin
  while b
  do
    write(1 + (2 + 3));
  b :=
    true
end.";

/// Whether the lines of the instructions, main's block and its process are those of the text.
fn is_laid_out(image: &Image) -> bool {
    let ([block], [process]) = (image.blocks.as_slice(), image.processes.as_slice()) else {
        return false;
    };
    image.lines.as_slice() == [4, 4, 4, 6, 6, 6, 6, 6, 6, 4, 7, 7, 7, 9].as_slice()
        && block.label.bytes() == b"a".as_slice()
        && (block.cells, block.operands, block.line) == (6, 3, 3)
        && process.block == 0
        && process.label.bytes() == b"a".as_slice()
}

#[test]
fn lines_and_blocks(rt: HostRuntime) {
    match image_of(rt.alloc(), LINES.as_bytes()) {
        Some(Ok(image)) => assert!(rt; is_laid_out(&image)),
        Some(Err(_)) | None => panic!(rt; "no image"),
    }
}

/// The number of instructions of a program that writes n integers and so many characters, or the fault. There are three for each integer, two
/// for each character, and the end.
fn length_of_long(
    alloc: Global,
    n: u32,
    characters: u32,
) -> Result<Option<Result<usize, GenFault>>, Memory> {
    let mut text = Vec::from_slice(alloc, b"program a; var i: integer; begin write(i")?;
    for _ in 1..n {
        text.extend_from_slice(b",i")?;
    }
    for _ in 0..characters {
        text.extend_from_slice(b",'c'")?;
    }
    text.extend_from_slice(b") end.")?;
    Ok(match image_of(alloc, &text) {
        Some(Ok(image)) => Some(Ok(image.code.len())),
        Some(Err(fault)) => Some(Err(fault)),
        None => None,
    })
}

#[test]
fn at_most_200_000_instructions(rt: HostRuntime) -> Result<(), Fail> {
    assert!(rt; length_of_long(rt.alloc(), 66_665, 2)? == Some(Ok(200_000)));
    assert!(rt; length_of_long(rt.alloc(), 66_666, 1)? == Some(Err(GenFault::TooLarge)));
    Ok(())
}
