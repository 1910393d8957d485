//! A process before a body.
ghost use Rattle.std.specs.Prelude.{◌≡◌, IfOk};
ghost use Rattle.pfc_program.specs.Views.{block_view};
ghost use Rattle.pfc_program.specs.declared.tables.Tables.{Tables};
ghost use Rattle.pfc_semantics.specs.Configurations.{body_of};
ghost use Rattle.pfc_semantics.specs.Rewriting.{from_remainder};
ghost use Rattle.pfc_activities.specs.Views.{doing_ahead};

use pfc_activities::Doing;
use pfc_base::Memory;
use pfc_pending::{At, Pending, Stmts};
use pfc_program::Block;
use std::alloc::Global;

/// The statements of a body are at hand, and its end is pending. Its only refusal is want of memory.
pub fn at_body<'t>(alloc: Global, block: &Block<'t>) -> Result<Doing<'t>, Memory>
    ensures { IfOk result (λ d. (t : Tables) → doing_ahead t d ≡ from_remainder (block_view t block.now).env (body_of (block_view t block.now))) }
{
    let mut pending = Vec::new(alloc);
    pending.push(Pending::Ends(block.last_line))?;
    let stmts = Stmts {
        list: block.stmts,
        from: 0,
    };
    Ok(Doing {
        names: block.names.copy(alloc)?,
        line: block.first_line,
        at: At::Stmts(block.next, stmts),
        pending,
    })
}
