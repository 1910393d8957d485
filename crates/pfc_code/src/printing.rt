//! The code text.
ghost use Rattle.std.specs.Prelude.{◌≡◌, ◌++◌, ◌∷◌, [], IfOk, OnOk, length};
ghost use Rattle.std.specs.List.{flat_map};
ghost use Rattle.pfc_code.specs.Images.{plain_image};
ghost use Rattle.pfc_code.specs.Printing.{argument_text, code_line, code_text, instr_text};
ghost use Rattle.pfc_code.specs.Rows.{list_of};

use crate::instructions::Arguments;
use crate::{Image, Instr, Page};
use pfc_base::Memory;
use std::alloc::Global;

/// The code text of an image: for each instruction its address from 0 at the right of 6 places, a blank, its
/// line at the right of 5 places, a blank, its name, a blank and a number for each argument, and a line end.
/// A number that outgrows its places is written whole. Its only refusal is want of memory.
pub fn print_code(alloc: Global, image: &Image) -> Result<Vec<u8>, Memory>
    requires { length image.now.lines.items ≡ length image.now.code.items }
    ensures { IfOk result (λ text. text.items ≡ code_text (plain_image image.now)) }
{
    let mut page = Page::new(alloc);
    for (address, instr) in image.code.iter().enumerate() {
        print_line(&mut page, address, *instr, image.lines[address])?;
    }
    Ok(page.into_bytes())
}

fn print_line(page: &mut Page, address: usize, instr: Instr, line: u32) -> Result<(), Memory>
    ensures { OnOk result (page.new ≡ page.old ++ code_line address instr line) }
{
    page.column(address as u64, 6)?;
    page.text(b" ")?;
    page.column(line as u64, 5)?;
    page.text(b" ")?;
    print_instr(page, instr)?;
    page.text(b"\n")
}

fn print_instr(page: &mut Page, instr: Instr) -> Result<(), Memory>
    ensures { OnOk result (page.new ≡ page.old ++ instr_text instr) }
{
    let (name, arguments) = instr.row();
    page.text(name.as_bytes())?;
    print_arguments(page, arguments)
}

fn print_arguments(page: &mut Page, arguments: Arguments) -> Result<(), Memory>
    ensures { OnOk result (page.new ≡ page.old ++ flat_map argument_text (list_of arguments)) }
{
    match arguments {
        Arguments::Zero => Ok(()),
        Arguments::One(a) => print_argument(page, a),
        Arguments::Two(a, b) => {
            print_argument(page, a)?;
            print_argument(page, b)
        }
        Arguments::Three(a, b, c) => {
            print_argument(page, a)?;
            print_argument(page, b)?;
            print_argument(page, c)
        }
        Arguments::Four(a, b, c, d) => {
            print_argument(page, a)?;
            print_argument(page, b)?;
            print_argument(page, c)?;
            print_argument(page, d)
        }
    }
}

fn print_argument(page: &mut Page, argument: i64) -> Result<(), Memory>
    ensures { OnOk result (page.new ≡ page.old ++ argument_text argument) }
{
    page.text(b" ")?;
    page.integer(argument)
}
