//! Bodies that are pending before the first action.
ghost use Rattle.std.specs.Prelude.{◌≡◌, ◌<◌, length, IfOk, OnOk};
ghost use Rattle.pfc_tree.specs.views.Stmts.{stmts_view};
ghost use Rattle.pfc_program.specs.Views.{names_view, block_view, blocks_view};
ghost use Rattle.pfc_program.specs.declared.tables.Tables.{Tables};
ghost use Rattle.pfc_semantics.specs.Statements.{behind};
ghost use Rattle.pfc_semantics.specs.Remainders.{in_names};
ghost use Rattle.pfc_semantics.specs.Configurations.{body_of, initialising};
ghost use Rattle.pfc_pending.specs.Waiting.{remainder_of, over, waiting};

use pfc_base::Memory;
use pfc_pending::{Pending, Stmts};
use pfc_program::{Block, Names, Program};
use std::alloc::Global;

/// One part more is pending.
#[tactic(auto, using(crate::proofs::Parts::parts))]
fn put_part<'t>(pending: &mut Vec<Pending<'t>>, part: Pending<'t>) -> Result<(), Memory>
    ensures { OnOk result ((t : Tables) → waiting t pending.new.items ≡ over t (waiting t pending.old.items) part.entry) }
{
    let Ok(()) = pending.reserve(1) else {
        drop(part);
        return Err(Memory);
    };
    pending.push_reserved(part);
    Ok(())
}

/// These names are in view from here on.
#[tactic(auto, using(crate::proofs::Parts::parts))]
fn put_names<'t>(pending: &mut Vec<Pending<'t>>, names: Names) -> Result<(), Memory>
    ensures { OnOk result ((t : Tables) → remainder_of (waiting t pending.new.items) ≡ in_names (names_view t names)
        (remainder_of (waiting t pending.old.items))) }
{
    pending.reserve(1)?;
    pending.push_reserved(Pending::InNames(names));
    Ok(())
}

/// The statements of a body that has some.
fn put_some<'t>(block: &Block<'t>, pending: &mut Vec<Pending<'t>>) -> Result<(), Memory>
    requires { 0 < length block.now.stmts.now.items }
    ensures { OnOk result ((t : Tables) → remainder_of (waiting t pending.new.items) ≡ behind block.now.next (stmts_view block.now.stmts.now.items)
        (remainder_of (waiting t pending.old.items))) }
{
    let stmts = Stmts {
        list: block.stmts,
        from: 0,
    };
    put_part(pending, Pending::Perform(block.next, stmts))?;
    Ok(())
}

/// The statements of a body; where there are none, nothing is put.
fn put_statements<'t>(block: &Block<'t>, pending: &mut Vec<Pending<'t>>) -> Result<(), Memory>
    ensures { OnOk result ((t : Tables) → remainder_of (waiting t pending.new.items) ≡ behind block.now.next (stmts_view block.now.stmts.now.items)
        (remainder_of (waiting t pending.old.items))) }
{
    if block.stmts.is_empty() {
        return Ok(());
    }
    put_some(block, pending)
}

/// The names of a body are in view, and its statements come.
fn put_body<'t>(
    alloc: Global,
    block: &Block<'t>,
    pending: &mut Vec<Pending<'t>>,
) -> Result<(), Memory>
    ensures { OnOk result ((t : Tables) → remainder_of (waiting t pending.new.items) ≡ in_names (names_view t block.now.names)
        (behind block.now.next (stmts_view block.now.stmts.now.items) (remainder_of (waiting t pending.old.items)))) }
{
    let names = block.names.copy(alloc)?;
    put_statements(block, pending)?;
    put_names(pending, names)
}

/// The initialising bodies, the first of them outermost.
fn put_modules<'t>(
    alloc: Global,
    modules: &[Block<'t>],
    pending: &mut Vec<Pending<'t>>,
) -> Result<(), Memory>
    ensures { OnOk result ((t : Tables) → remainder_of (waiting t pending.new.items) ≡ initialising (blocks_view t modules.now)
        (remainder_of (waiting t pending.old.items))) }
{
    for i in (0..modules.len()).rev() {
        put_body(alloc, &modules[i], pending)?;
    }
    Ok(())
}

/// All that main has to do: the initialising bodies, and its own. Its only refusal is want of memory.
#[tactic(auto, using(crate::proofs::Parts::parts))]
pub(crate) fn main_pending<'t>(
    alloc: Global,
    program: &Program<'t>,
) -> Result<Vec<Pending<'t>>, Memory>
    ensures { IfOk result (λ pending. (t : Tables) → remainder_of (waiting t pending.items) ≡ initialising (blocks_view t program.now.modules.items)
        (in_names (names_view t program.now.main.names) (body_of (block_view t program.now.main)))) }
{
    let mut pending = Vec::new(alloc);
    pending.reserve(1)?;
    pending.push_reserved(Pending::Ends(program.main.last_line));
    put_body(alloc, &program.main, &mut pending)?;
    put_modules(alloc, &program.modules, &mut pending)?;
    Ok(pending)
}
