//! The heads of accepts.
ghost use Rattle.std.specs.Prelude.{◌≡◌, OnOk, IfOk, IfErr};
ghost use Rattle.pfc_tree.specs.views.Stmts.{accept_view};
ghost use Rattle.pfc_translation.specs.Selects as selects;
ghost use Rattle.pfc_emit.specs.declared.emitter.EmitFault.TheVariants.{Full, Memory as NoMemory};
ghost use Rattle.pfc_addresses.specs.Sites.{site_view};
ghost use Rattle.pfc_expression_code.specs.Putting.{IsMade, IsTooLarge};

use crate::cells::{accept_cell, accept_cells};
use pfc_addresses::Site;
use pfc_code::Instr;
use pfc_emit::EmitFault;
use pfc_expression_code::Coder;
use pfc_facts::entry_number;
use pfc_tree::Accept;

/// What the instruction of an accept names: its entry, and the first cell and the number of the cells of its parameters.
#[derive(Clone, Copy)]
pub(crate) struct Head {
    pub entry: u32,
    pub cell: u32,
    pub cells: u32,
}

/// The head of an accept whose parameters have the scope n. Its only refusal is a number of more than 32 bits, which is want of memory.
#[tactic(auto, using(crate::proofs::Nodes::accepts))]
pub(crate) fn head_of(n: u32, a: &Accept, site: Site) -> Result<Head, EmitFault>
    ensures entry { IfOk result (λ h. h.entry ≡ selects.entry_of (site_view site.entry) (accept_view a.now)) }
    ensures cell { IfOk result (λ h. h.cell ≡ selects.accept_cell (site_view site.entry) n) }
    ensures cells { IfOk result (λ h. h.cells ≡ selects.accept_cells (site_view site.entry) n) }
    ensures fault { IfErr result (λ fault. fault ≡ NoMemory) }
{
    let entry = entry_number(pfc_phrases::meaning_of(site.find(&a.name)));
    let cell = accept_cell(n, site)?;
    let cells = accept_cells(n, site)?;
    Ok(Head { entry, cell, cells })
}

/// Puts the head of an accept, whose parameters have the scope n: ACC. Its other refusal is want of memory; a number of more than 32 bits
/// is that too.
pub fn accept(n: u32, a: &Accept, site: Site, made: &mut Coder) -> Result<(), EmitFault>
    ensures code { OnOk result (IsMade (selects.accept_code (site_view site.entry) n (accept_view a.now)) made.old made.new) }
    ensures large { IfErr result (λ fault. fault ≡ Full → IsTooLarge (selects.accept_code (site_view site.entry) n (accept_view a.now)) made.old) }
{
    let head = head_of(n, a, site)?;
    made.put(Instr::ACC(head.entry, head.cell, head.cells), site)
}
