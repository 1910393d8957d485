//! Items and lines of an input, read one behind the other.

use pfc_base::Memory;
use pfc_values::{Input, Simple};
use std::alloc::Global;
use std::test::Fail;

/// An input, and behind `|` what is asked of it, each with its answer. In the input `_` is a tab, `^` a carriage return
/// and `~` a line end. Asked are an integer (i), a char (c), the end of a line skipped (l), and whether the input is at the
/// end of a line (e) or at its end (z). A fault's number stands behind `!`, and 1 is yes.
const INPUTS: &str = "\
 6~-7|i=6
_~ ^~6x|i=6
+5|i=5
-5|i=-5
-0|i=0
0000000000000000000000007|i=7
2147483647|i=2147483647
-2147483648|i=-2147483648
2147483648|i=!1
-2147483649|i=!1
4294967303|i=!1
18446744073709551623|i=!1
|i=!7
 _~^~|i=!7
x|i=!8
-|i=!8
- 5|i=!8
+-5|i=!8
^5|i=!8
 6~-7|i=6 e=1 z=0 c=32 c=45 i=7 e=1 z=1 c=!7
6 x|i=6 i=!8 c=32 c=120 i=!7
^~6^~7^~|e=1 l=0 i=6 e=1 i=7 c=32 z=1
^^~a^|c=13 c=32 c=97 c=13 c=!7
|l=!7 l=!7 l=!7 z=1 e=1
~|l=0 l=!7 l=!7 z=1 e=1
a^~|l=0 l=!7 l=!7 z=1 e=1
a~b~|l=0 l=0 l=!7 z=1 e=1
a~b|l=0 l=0 l=0 z=1 e=1
";

/// The bytes that a text of the table stands for.
fn bytes_of(alloc: Global, text: &str) -> Result<Vec<u8>, Memory> {
    let mut bytes = Vec::new(alloc);
    for b in text.as_bytes() {
        bytes.push(match *b {
            b'_' => b'\t',
            b'^' => b'\r',
            b'~' => b'\n',
            other => other,
        })?;
    }
    Ok(bytes)
}

/// What is given, or the number of a fault.
fn answer(input: &mut Input, asked: &str) -> Result<i32, u8> {
    let given = match asked {
        "i" => input.item(Simple::Integer),
        "c" => input.item(Simple::Char),
        "l" => input.skip_line().map(|_| 0),
        "e" => Ok(input.is_at_line_end() as i32),
        _ => Ok(input.is_at_end() as i32),
    };
    given.map_err(|fault| fault.number())
}

/// What the table says is given.
fn wanted(text: &str) -> Option<Result<i32, u8>> {
    match text.strip_prefix('!') {
        Some(number) => Some(Err(number.parse().ok()?)),
        None => Some(Ok(text.parse().ok()?)),
    }
}

/// Whether an input gives what its line of the table says.
fn is_read(alloc: Global, line: &str) -> Result<bool, Memory> {
    let Some((text, calls)) = line.split_once('|') else {
        return Ok(false);
    };
    let mut input = Input::new(alloc, &bytes_of(alloc, text)?)?;
    for call in calls.split_whitespace() {
        let Some((asked, given)) = call.split_once('=') else {
            return Ok(false);
        };
        if wanted(given) != Some(answer(&mut input, asked)) {
            return Ok(false);
        }
    }
    Ok(true)
}

#[test]
fn items_and_lines(rt: HostRuntime) -> Result<(), Fail> {
    for line in INPUTS.lines() {
        assert!(rt; is_read(rt.alloc(), line)?, "in {line}");
    }
    Ok(())
}
