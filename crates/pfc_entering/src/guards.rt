//! What a process is at that enters a procedure of a resource.
ghost use Rattle.std.specs.Prelude.{◌≡◌, ◌==◌, position, unwrap_or, IfOk};
ghost use Rattle.pfc_program.specs.Views.{block_view, blocks_view};
ghost use Rattle.pfc_program.specs.declared.tables.Tables.{Tables};
ghost use Rattle.pfc_semantics.specs.Configurations.{body_of};
ghost use Rattle.pfc_semantics.specs.Rewriting.{from_remainder};
ghost use Rattle.pfc_semantics.specs.Remainders.{in_names, scan_on};
ghost use Rattle.pfc_pending.specs.Waiting.{remainder_of, behind as behind_statement, waiting, over, way_view, scan_view};
ghost use Rattle.pfc_activities.specs.Views.{doing_ahead};
ghost use Rattle.pfc_entering.specs.Guards.{way_in, guarded_in};

use pfc_activating::at_body;
use pfc_activities::Doing;
use pfc_base::Memory;
use pfc_pending::{At, Bar, Pending, Scan, Stmts};
use pfc_program::{Block, Program};
use std::alloc::Global;

/// The number by which a procedure of a resource is known, the place of its block; one that does not fit, which never comes, is want of
/// memory.
pub fn procedure_of<'t>(program: &Program<'t>, block: &Block<'t>) -> Result<u32, Memory>
    ensures { IfOk result (λ n. n ≡ unwrap_or (position (λ b. b.scope == block.now.scope) (blocks_view program.now.tables program.now.blocks.items)) 0) }
{
    let number = program.block_number(block.scope);
    if number > 4_294_967_295 {
        return Err(Memory);
    }
    Ok(number as u32)
}

/// The guard of a block of a resource, as the procedure with this number; None where it has none.
pub fn bar_at<'t>(block: &'t Block<'t>, resource: u32, procedure: u32) -> Option<Bar<'t>>
    ensures { (t : Tables) → way_view t result ≡ way_in resource procedure (block_view t block.now).guard }
{
    match &block.guard {
        Some(guard) => Some(Bar {
            resource,
            procedure,
            guard,
        }),
        None => None,
    }
}

/// A body is at hand behind its guard, or where it has none, at once. Its only refusal is want of memory.
pub(crate) fn at_guarded_body<'t>(
    alloc: Global,
    block: &'t Block<'t>,
    resource: u32,
    procedure: u32,
) -> Result<Doing<'t>, Memory>
    ensures { IfOk result (λ d. (t : Tables) →
        doing_ahead t d ≡ from_remainder (block_view t block.now).env (guarded_in resource procedure (block_view t block.now) (block_view t block.now).guard)) }
{
    match bar_at(block, resource, procedure) {
        Some(bar) => at_front(alloc, block, Pending::TryGuard(bar)),
        None => at_body(alloc, block),
    }
}

/// A scan is at hand, and behind it a body. Its only refusal is want of memory.
pub fn at_scan<'t>(alloc: Global, block: &Block<'t>, scan: Scan<'t>) -> Result<Doing<'t>, Memory>
    ensures { IfOk result (λ d. (t : Tables) →
        doing_ahead t d ≡ from_remainder (block_view t block.now).env
        (scan_on (scan_view t scan.entry) (in_names (block_view t block.now).env (body_of (block_view t block.now))))) }
{
    at_front(alloc, block, Pending::ScanOn(scan))
}

/// What is pending in front of a body is at hand. Its only refusal is want of memory.
fn at_front<'t>(alloc: Global, block: &Block<'t>, front: Pending<'t>) -> Result<Doing<'t>, Memory>
    ensures { IfOk result (λ d. (t : Tables) →
        doing_ahead t d ≡ from_remainder (block_view t block.now).env
        (remainder_of (over t (behind_statement (in_names (block_view t block.now).env (body_of (block_view t block.now)))) front.entry))) }
{
    Ok(Doing {
        names: block.names.copy(alloc)?,
        line: block.first_line,
        at: At::Rest,
        pending: in_front(alloc, block, front)?,
    })
}

/// A body is pending, with its names, and this in front of it. Its only refusal is want of memory.
fn in_front<'t>(
    alloc: Global,
    block: &Block<'t>,
    front: Pending<'t>,
) -> Result<Vec<Pending<'t>>, Memory>
    ensures { IfOk result (λ parts. (t : Tables) →
        waiting t parts.items ≡ over t (behind_statement (in_names (block_view t block.now).env (body_of (block_view t block.now)))) front.entry) }
{
    let names = Pending::InNames(block.names.copy(alloc)?);
    let ends = Pending::Ends(block.last_line);
    if block.stmts.is_empty() {
        return Ok(vec![in alloc; ends, names, front]?);
    }
    let stmts = Stmts {
        list: block.stmts,
        from: 0,
    };
    let body = Pending::Perform(block.next, stmts);
    Ok(vec![in alloc; ends, body, names, front]?)
}
