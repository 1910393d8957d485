//! What stands in a program's text, but for its main body, in the order of the text.
ghost use Rattle.std.specs.Prelude.{◌≡◌, ◌+◌, ◌++◌, ◌-◌, map, take, drop, length, IfOk, OnOk};
ghost use Rattle.pfc_tree.specs.views.Parts.{part_view, parts_view};
ghost use Rattle.pfc_translation.specs.Images.{a_body, resource_end};
ghost use Rattle.pfc_program.specs.Views.{blocks_view};
ghost use Rattle.pfc_program.specs.declared.tables.Tables.{Tables};
ghost use Rattle.pfc_generator.specs.Pieces as pieces;
ghost use Rattle.pfc_generator.specs.Views.{pieces_view};

use crate::declared::add_part;
use pfc_base::{Memory, Name};
use pfc_program::{Block, Program};
use pfc_tree::{Part, Tree};
use std::alloc::Global;

/// What stands in a text.
#[derive(Clone, Copy)]
pub(crate) enum Piece<'t, 'p> {
    /// The body of a sub, guarded procedure or process, with the name that was declared for it.
    Body(&'p Block<'t>, &'p Name),
    /// An initialising body.
    Initial(&'p Block<'t>),
    /// The end of a resource, by its line.
    Resource(u32),
}

/// The bodies from a place in the order of `begin` on, as many as there are names for.
fn add_bodies<'t, 'p>(
    program: &'p Program<'t>,
    names: &Vec<&'p Name>,
    from: usize,
    all: &mut Vec<Piece<'t, 'p>>,
) -> Result<(), Memory>
    ensures { OnOk result (pieces_view program.now.tables all.new.items ≡ pieces_view program.now.tables all.old.items
        ++ map a_body (take (length names.now.items - from) (drop from (blocks_view program.now.tables program.now.blocks.items)))) }
{
    for k in from..names.len().min(program.blocks.len()) {
        all.push(Piece::Body(&program.blocks[k], names[k]))?;
    }
    Ok(())
}

/// The end of a part, where it is a resource.
fn add_end<'t, 'p>(p: &Part, all: &mut Vec<Piece<'t, 'p>>) -> Result<(), Memory>
    ensures { OnOk result ((tables : Tables) → pieces_view tables all.new.items ≡ pieces_view tables all.old.items ++ resource_end (part_view p.now)) }
{
    if let Part::Resource(m) = p {
        all.push(Piece::Resource(m.last.line))?;
    }
    Ok(())
}

/// Whether a part of the program has an initialising body.
fn has_initial(p: &Part) -> bool
    ensures { result ≡ pieces.has_initial (part_view p.now) }
{
    match p {
        Part::Monitor(m) => m.body.is_some(),
        Part::Resource(m) => m.body.is_some(),
        Part::Consts(_) | Part::Types(_) | Part::Vars(_) | Part::Sub(_) | Part::Process(_) => false,
    }
}

/// The initialising body of a part, where it has one. So many stand before it; how many stand before those behind it is given.
fn add_initial<'t, 'p>(
    program: &'p Program<'t>,
    p: &Part,
    before: usize,
    all: &mut Vec<Piece<'t, 'p>>,
) -> Result<usize, Memory>
    ensures pieces { OnOk result (pieces_view program.now.tables all.new.items ≡ pieces_view program.now.tables all.old.items
        ++ pieces.initial_of (pieces.has_initial (part_view p.now)) (drop before (blocks_view program.now.tables program.now.modules.items))) }
    ensures behind { IfOk result (λ n. drop n (blocks_view program.now.tables program.now.modules.items)
        ≡ pieces.behind_initial (pieces.has_initial (part_view p.now)) (drop before (blocks_view program.now.tables program.now.modules.items))) }
{
    if !has_initial(p) || before >= program.modules.len() {
        return Ok(before);
    }
    all.push(Piece::Initial(&program.modules[before]))?;
    Ok(before + 1)
}

/// What stands in a part. So many initialising bodies stand before it; how many stand before those behind it is given.
fn add_pieces<'t, 'p>(
    program: &'p Program<'t>,
    p: &'p Part,
    before: usize,
    names: &mut Vec<&'p Name>,
    all: &mut Vec<Piece<'t, 'p>>,
) -> Result<usize, Memory>
    ensures names { OnOk result (length names.new.items ≡ length names.old.items + pieces.part_bodies (part_view p.now)) }
    ensures pieces { OnOk result (pieces_view program.now.tables all.new.items ≡ pieces_view program.now.tables all.old.items
        ++ pieces.part_pieces (drop (length names.old.items) (blocks_view program.now.tables program.now.blocks.items))
        (drop before (blocks_view program.now.tables program.now.modules.items)) (part_view p.now)) }
    ensures behind { IfOk result (λ n. drop n (blocks_view program.now.tables program.now.modules.items)
        ≡ pieces.behind_initial (pieces.has_initial (part_view p.now)) (drop before (blocks_view program.now.tables program.now.modules.items))) }
{
    let from = names.len();
    add_part(p, names)?;
    add_bodies(program, names, from, all)?;
    add_end(p, all)?;
    add_initial(program, p, before, all)
}

/// What stands in a program's text, but for its main body, in the order of the text.
pub(crate) fn pieces<'t, 'p>(
    alloc: Global,
    tree: &'p Tree,
    program: &'p Program<'t>,
) -> Result<Vec<Piece<'t, 'p>>, Memory>
    ensures { IfOk result (λ all. pieces_view program.now.tables all.items
        ≡ pieces.pieces_of (blocks_view program.now.tables program.now.blocks.items) (blocks_view program.now.tables program.now.modules.items)
        (parts_view tree.now.parts.items)) }
{
    let mut all = Vec::new(alloc);
    let mut names = Vec::new(alloc);
    let mut initials = 0;
    for p in &tree.parts {
        initials = add_pieces(program, p, initials, &mut names, &mut all)?;
    }
    Ok(all)
}
