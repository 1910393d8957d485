//! The code of a program as it is made, piece by piece.
ghost use Rattle.std.specs.Prelude.{◌≡◌, [], IfOk};
ghost use Rattle.pfc_addresses.specs.Sites.{whole_view};
ghost use Rattle.pfc_translation.specs.Images.{coded};
ghost use Rattle.pfc_generator.specs.Making.{IsComplete};
ghost use Rattle.pfc_generator.specs.Views.{pieces_view, so_far};

use crate::GenFault;
use crate::bodies::{keep_initial, put_body, put_scan};
use crate::pieces::Piece;
use pfc_addresses::{Addresses, Body};
use pfc_base::{Memory, Name};
use pfc_blocks::Placed;
use pfc_expression_code::Coder;
use pfc_program::{Block, Lookups};
use std::alloc::Global;

/// An initialising body that was kept where it stands in the text. So many strings are before it.
#[derive(Clone, Copy)]
pub(crate) struct Initial<'t, 'p> {
    pub block: &'p Block<'t>,
    pub strings: u32,
}

/// The code of a program as it is made. That of an initialising body stands in main's code.
#[derive(Drop)]
pub(crate) struct Making<'t, 'p> {
    pub coder: Coder,
    pub placed: Vec<Placed<'t, 'p>>,
    /// The address of each `SCAN`.
    pub scans: Vec<u32>,
    pub initials: Vec<Initial<'t, 'p>>,
}

/// A number of 32 bits; a greater one counts as want of memory.
pub(crate) fn number(n: usize) -> Result<u32, Memory>
    ensures { IfOk result (λ k. k ≡ n) }
{
    match u32::try_from(n) {
        Ok(k) => Ok(k),
        Err(_) => Err(Memory),
    }
}

impl<'t, 'p> Making<'t, 'p> {
    ghost use Rattle.std.specs.Prelude.{◌≡◌, OnOk};
    ghost use Rattle.pfc_addresses.specs.Sites.{program_of, whole_view};
    ghost use Rattle.pfc_program.specs.Views.{block_view};
    ghost use Rattle.pfc_program.specs.declared.program.Program.{Program};
    ghost use Rattle.pfc_translation.specs.Images.{a_body, an_initial, a_resource};
    ghost use Rattle.pfc_generator.specs.Making.{IsPut, nothing_made};
    ghost use Rattle.pfc_generator.specs.Views.{piece_view, so_far};

    /// No code. It takes no memory.
    pub(crate) fn new(alloc: Global) -> Making<'t, 'p>
        ensures { (program : Program) → so_far program result ≡ nothing_made }
    {
        Making {
            coder: Coder::new(alloc),
            placed: Vec::new(alloc),
            scans: Vec::new(alloc),
            initials: Vec::new(alloc),
        }
    }

    /// Puts the body of a sub, guarded procedure or process, for which this name was declared.
    fn body(
        &mut self,
        alloc: Global,
        addresses: &'p Addresses<'t, 'p>,
        lookups: &Lookups<'t>,
        block: &'p Block<'t>,
        name: &'p Name,
    ) -> Result<(), GenFault>
        requires { lookups.now.scopes.now ≡ addresses.now.program.now.tables.scopes.now }
        ensures { OnOk result (IsPut (whole_view addresses.now.program.now) (a_body (block_view addresses.now.program.now.tables block.now))
            (so_far addresses.now.program.now self.old) (so_far addresses.now.program.now self.new)) }
    {
        let span = put_body(alloc, addresses, lookups, block, &mut self.coder)?;
        self.placed.push(Placed {
            block,
            name,
            entry: span.entry,
            body: span.body,
            end: span.end,
            level: span.level,
        })?;
        Ok(())
    }

    /// Keeps an initialising body, so that its strings and its selects count where it stands in the text.
    fn initial(
        &mut self,
        alloc: Global,
        addresses: &'p Addresses<'t, 'p>,
        block: &'p Block<'t>,
    ) -> Result<(), GenFault>
        ensures { OnOk result (IsPut (whole_view addresses.now.program.now) (an_initial (block_view addresses.now.program.now.tables block.now))
            (so_far addresses.now.program.now self.old) (so_far addresses.now.program.now self.new)) }
    {
        let strings = number(self.coder.strings())?;
        keep_initial(alloc, addresses, block, &mut self.coder)?;
        self.initials.push(Initial { block, strings })?;
        Ok(())
    }

    /// Puts the `SCAN` of a resource, with the line of its final `end`.
    fn scan(&mut self, alloc: Global, main: &Body<'t, 'p>, line: u32) -> Result<(), GenFault>
        requires { main.now.block.now ≡ (program_of main.now).main }
        ensures { OnOk result (IsPut (whole_view (program_of main.now)) (a_resource line)
            (so_far (program_of main.now) self.old) (so_far (program_of main.now) self.new)) }
    {
        let resource = number(self.scans.len())?;
        let at = self.coder.here();
        put_scan(alloc, main, resource, line, &mut self.coder)?;
        self.scans.push(at)?;
        Ok(())
    }

    /// Puts a piece of the text behind those before it.
    fn piece(
        &mut self,
        alloc: Global,
        main: &Body<'t, 'p>,
        lookups: &Lookups<'t>,
        piece: Piece<'t, 'p>,
    ) -> Result<(), GenFault>
        requires main { main.now.block.now ≡ (program_of main.now).main }
        requires looked_up { lookups.now.scopes.now ≡ (program_of main.now).tables.scopes.now }
        ensures { OnOk result (IsPut (whole_view (program_of main.now)) (piece_view (program_of main.now).tables piece.entry)
            (so_far (program_of main.now) self.old) (so_far (program_of main.now) self.new)) }
    {
        let addresses = main.addresses;
        match piece {
            Piece::Body(block, name) => self.body(alloc, addresses, lookups, block, name),
            Piece::Initial(block) => self.initial(alloc, addresses, block),
            Piece::Resource(line) => self.scan(alloc, main, line),
        }
    }
}

/// The code of what stands in a text, but for its main body.
pub(crate) fn put_pieces<'t, 'p>(
    alloc: Global,
    addresses: &'p Addresses<'t, 'p>,
    lookups: &Lookups<'t>,
    pieces: &[Piece<'t, 'p>],
) -> Result<Making<'t, 'p>, GenFault>
    requires { lookups.now.scopes.now ≡ addresses.now.program.now.tables.scopes.now }
    ensures { IfOk result (λ m. IsComplete (whole_view addresses.now.program.now)
        (coded (whole_view addresses.now.program.now) 0 0 (pieces_view addresses.now.program.now.tables pieces.now)) []
        (so_far addresses.now.program.now m)) }
{
    let program = addresses.program;
    let main = Body::new(alloc, addresses, &program.main)?;
    let mut making = Making::new(alloc);
    for piece in pieces {
        making.piece(alloc, &main, lookups, *piece)?;
    }
    Ok(making)
}
