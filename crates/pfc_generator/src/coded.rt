//! The code of a whole program.
ghost use Rattle.std.specs.Prelude.{◌≡◌, ◌+◌, ◌++◌, max, drop, length, IfOk, OnOk};
ghost use Rattle.pfc_addresses.specs.Sites.{whole_view};
ghost use Rattle.pfc_translation.specs.Images as images;
ghost use Rattle.pfc_generator.specs.Making.{AreOrdered};
ghost use Rattle.pfc_generator.specs.Views.{initials_view, pieces_view};
ghost use Rattle.pfc_generator.specs.Whole.{IsCoded};

use crate::GenFault;
use crate::bodies::{put_body, put_initial};
use crate::making::{Initial, Making, number, put_pieces};
use crate::pieces::Piece;
use pfc_addresses::Addresses;
use pfc_base::{Memory, Text};
use pfc_blocks::Placed;
use pfc_code::Instr;
use pfc_expression_code::Coder;
use pfc_program::Lookups;
use std::alloc::Global;

/// The code of a whole program, at most 200,000 instructions, with what is known of it.
#[derive(Drop)]
pub(crate) struct Coded<'t, 'p> {
    pub code: Vec<Instr>,
    /// The line of each instruction, from 1.
    pub lines: Vec<u32>,
    /// The strings that the program writes, in the order of its text.
    pub texts: Vec<Text>,
    /// The most alternatives of one select.
    pub arms: u32,
    /// The bodies before main's code.
    pub placed: Vec<Placed<'t, 'p>>,
    /// The address of each `SCAN`.
    pub scans: Vec<u32>,
    /// The address of main's first instruction.
    pub main: u32,
}

/// Puts initialising bodies, whose strings keep their numbers in the text. So many strings are before the main body.
fn put_initials<'t, 'p>(
    alloc: Global,
    addresses: &'p Addresses<'t, 'p>,
    initials: &[Initial<'t, 'p>],
    strings: u32,
    coder: &mut Coder,
) -> Result<(), GenFault>
    requires { AreOrdered strings (length coder.old.texts) (initials_view addresses.now.program.now initials.now) }
    ensures code { OnOk result (coder.new.code ≡ coder.old.code
        ++ images.put_from (length coder.old.code) (initials_view addresses.now.program.now initials.now)) }
    ensures size { OnOk result (length coder.new.code ≡ length coder.old.code + images.size_of (initials_view addresses.now.program.now initials.now)) }
    ensures texts { OnOk result (length coder.new.texts ≡ strings) }
    ensures arms { OnOk result (coder.new.arms ≡ max coder.old.arms (images.most_arms (initials_view addresses.now.program.now initials.now))) }
{
    for i in initials {
        coder.pass_strings(i.strings)?;
        put_initial(alloc, addresses, i.block, coder)?;
    }
    coder.pass_strings(strings)?;
    Ok(())
}

/// Adds copies of the strings from a place on.
fn add_copies(
    alloc: Global,
    from: usize,
    more: &[Text],
    texts: &mut Vec<Text>,
) -> Result<(), Memory>
    ensures { OnOk result (texts.new.items ≡ texts.old.items ++ drop from more.now) }
{
    for k in from..more.len() {
        texts.push(more[k].copy(alloc)?)?;
    }
    Ok(())
}

/// The code of a program, of whose text this stands before its main body.
pub(crate) fn put_all<'t, 'p>(
    alloc: Global,
    addresses: &'p Addresses<'t, 'p>,
    lookups: &Lookups<'t>,
    pieces: &[Piece<'t, 'p>],
) -> Result<Coded<'t, 'p>, GenFault>
    requires { lookups.now.scopes.now ≡ addresses.now.program.now.tables.scopes.now }
    ensures { IfOk result (λ c. IsCoded addresses.now.program.now (pieces_view addresses.now.program.now.tables pieces.now) c) }
{
    let Making {
        mut coder,
        placed,
        scans,
        initials,
    } = put_pieces(alloc, addresses, lookups, pieces)?;
    let main = coder.here();
    let mut texts = coder.take_texts();
    let strings = number(texts.len())?;
    put_initials(alloc, addresses, &initials, strings, &mut coder)?;
    let program = addresses.program;
    put_body(alloc, addresses, lookups, &program.main, &mut coder)?;
    let own = coder.take_texts();
    add_copies(alloc, strings as usize, &own, &mut texts)?;
    let (code, lines, arms) = coder.finish();
    Ok(Coded {
        code,
        lines,
        texts,
        arms,
        placed,
        scans,
        main,
    })
}
