//! The listing of a text.
ghost use Rattle.std.specs.Prelude.{◌≡◌, ◌==◌, ◌++◌, IfOk, OnOk, position};
ghost use Rattle.pfc_report.specs.Listings.{listed_line, listing_text};

use pfc_base::Memory;
use pfc_code::Page;
use std::alloc::Global;

/// The listing of a text: for each line its number from 1 at the right of 5 places, a blank, and its bytes up
/// to byte 10. A last line without byte 10 is listed where it is not empty. Its only refusal is want of memory.
pub fn listing(alloc: Global, text: &[u8]) -> Result<Vec<u8>, Memory>
    ensures { IfOk result (λ listed. listed.items ≡ listing_text text.now) }
{
    let mut page = Page::new(alloc);
    let mut number = 1;
    let mut rest = text;
    while let Some(end) = line_end(rest) {
        list_line(&mut page, number, &rest[..end])?;
        number += 1;
        rest = &rest[end + 1..];
    }
    if !rest.is_empty() {
        list_line(&mut page, number, rest)?;
    }
    Ok(page.into_bytes())
}

/// The place of the first byte 10, from 0.
fn line_end(text: &[u8]) -> Option<usize>
    ensures { result ≡ position (λ byte. byte == 10) text.now }
{
    text.iter().position(|byte| *byte == b'\n')
}

fn list_line(page: &mut Page, number: u64, line: &[u8]) -> Result<(), Memory>
    ensures { OnOk result (page.new ≡ page.old ++ listed_line number line.now) }
{
    page.column(number, 5)?;
    page.text(b" ")?;
    page.text(line)?;
    page.text(b"\n")
}
