//! The cells of an accept's parameters.
ghost use Rattle.std.specs.Prelude.{◌≡◌, ◌<◌, ◌≤◌, ◌+◌, ◌-◌, ◌^◌, true, length, take, drop, IfOk, IfErr};
ghost use Rattle.pfc_types.specs.Scopes.{scope_at};
ghost use Rattle.pfc_types.specs.rules.Declarations as rules;
ghost use Rattle.pfc_semantics.specs.Layouts as layouts;
ghost use Rattle.pfc_semantics.specs.Programs.{layout_cells};
ghost use Rattle.pfc_program.specs.Laid.{one_laid};
ghost use Rattle.pfc_translation.specs.Sites.{before_accept, forms_of, is_accept};
ghost use Rattle.pfc_translation.specs.Selects as selects;
ghost use Rattle.pfc_emit.specs.declared.emitter.EmitFault.TheVariants.{Memory as NoMemory};
ghost use Rattle.pfc_addresses.specs.Sites.{site_view};
ghost use Rattle.pfc_select_code.specs.Cells.{addressed_cell};

use pfc_addresses::Site;
use pfc_code::Instr;
use pfc_emit::EmitFault;
use pfc_rules::passing::names_in;
use pfc_types::{Meaning, Scopes, TypeTable, cells_of};

/// How many cells a name takes: a variable those of its type, a reference and a single process one.
fn name_cells(types: &TypeTable, m: Meaning) -> u32
    ensures { result ≡ rules.name_cells types.now m }
{
    match m {
        Meaning::Variable { t, reference } => { if reference { 1 } else { cells_of(types, t) } }
        Meaning::Process(_) => 1,
        _ => 0,
    }
}

/// The sum of two numbers. Its only refusal is a number of more than 32 bits, which is want of memory.
fn sum(a: u32, b: u32) -> Result<u32, EmitFault>
    ensures value { IfOk result (λ n. n ≡ a + b) }
    ensures fault { IfErr result (λ fault. fault ≡ NoMemory) }
{
    match a.checked_add(b) {
        Some(n) => Ok(n),
        None => Err(EmitFault::Memory),
    }
}

/// The cells of the parameters of the accept whose parameters have the scope n.
pub(crate) fn accept_cells(n: u32, site: Site) -> Result<u32, EmitFault>
    ensures value { IfOk result (λ cells. cells ≡ selects.accept_cells (site_view site.entry) n) }
    ensures fault { IfErr result (λ fault. fault ≡ NoMemory) }
{
    let tables = site.tables();
    scope_cells(tables.types, tables.scopes, n)
}

/// The cells of the names of the scope i.
fn scope_cells(types: &TypeTable, scopes: &Scopes, i: u32) -> Result<u32, EmitFault>
    ensures value { IfOk result (λ cells. cells ≡ rules.scope_cells types.now (scope_at scopes.now.scopes i)) }
    ensures fault { IfErr result (λ fault. fault ≡ NoMemory) }
{
    let mut cells = 0;
    for k in 0..names_in(scopes, i) {
        cells = sum(cells, name_cells(types, scopes.at(i).meaning_at(k)))?;
    }
    Ok(cells)
}

/// The cell of the first parameter of the accept whose parameters have the scope n; where it has none, the number of cells that are laid
/// out before it.
pub(crate) fn accept_cell(n: u32, site: Site) -> Result<u32, EmitFault>
    ensures value { IfOk result (λ cell. cell ≡ selects.accept_cell (site_view site.entry) n) }
    ensures fault { IfErr result (λ fault. fault ≡ NoMemory) }
{
    let body = site.body;
    if body.is_accept(n) {
        return Ok(own_cell(n, site));
    }
    let block = body.block;
    let variables = variables_before(n, site)?;
    cells_of_first(variables, &block.layout, site.tables().types)
}

/// The same of an accept of the block: it is the cell of its first variable, if there is one.
fn own_cell(n: u32, site: Site) -> u32
    requires { is_accept (site_view site).block n ≡ true }
    ensures { result ≡ selects.accept_cell (site_view site.entry) n }
{
    addressed_cell(site.address(n, 0))
}

/// The cell that an instruction addresses.
fn addressed_cell(instr: Instr) -> u32
    ensures { result ≡ addressed_cell instr }
{
    match instr {
        Instr::ADDR(_, cell) | Instr::REF(_, cell) => cell,
        _ => 0,
    }
}

/// How many variables stand before the parameters of an accept whose scope is none of those of the block's accepts.
fn variables_before(n: u32, site: Site) -> Result<u32, EmitFault>
    ensures value { IfOk result (λ k. k ≡ before_accept (site_view site.entry) n) }
    ensures fault { IfErr result (λ fault. fault ≡ NoMemory) }
{
    let body = site.body;
    let block = body.block;
    variables_up_to(site.tables().scopes, block.scope, block.next, n)
}

/// How many variables a process has in its own scope and in those from number `from` up to `to`; in its own alone where there is none.
fn variables_up_to(scopes: &Scopes, own: u32, from: u32, to: u32) -> Result<u32, EmitFault>
    ensures value { IfOk result (λ k. k ≡ length (layouts.process_layout (scope_at scopes.now.scopes own) (take (to - from) (drop from scopes.now.scopes)))) }
    ensures fault { IfErr result (λ fault. fault ≡ NoMemory) }
{
    let mut count = variables_in(scopes, own)?;
    for i in from..to {
        count = sum(count, variables_in(scopes, i)?)?;
    }
    Ok(count)
}

/// How many names of the scope i are variables or single processes.
fn variables_in(scopes: &Scopes, i: u32) -> Result<u32, EmitFault>
    ensures value { IfOk result (λ n. n ≡ length (layouts.laid_names (scope_at scopes.now.scopes i))) }
    ensures fault { IfErr result (λ fault. fault ≡ NoMemory) }
{
    let mut n = 0;
    for k in 0..names_in(scopes, i) {
        n = sum(n, size(scopes.at(i).meaning_at(k)))?;
    }
    Ok(n)
}

/// How many variables a name brings into a layout: itself, or none.
fn size(m: Meaning) -> u32
    ensures { result ≡ length (one_laid m) }
{
    match m {
        Meaning::Variable { .. } | Meaning::Process(_) => 1,
        _ => 0,
    }
}

/// The cells of the first `count` variables of a layout, of all where it has fewer.
fn cells_of_first(count: u32, layout: &[Meaning], types: &TypeTable) -> Result<u32, EmitFault>
    ensures value { IfOk result (λ cells. cells ≡ layout_cells types.now (take count layout.now)) }
    ensures fault { IfErr result (λ fault. fault ≡ NoMemory) }
{
    let count = count as usize;
    if count < layout.len() {
        cells_in(&layout[..count], types)
    } else {
        cells_in(layout, types)
    }
}

/// The cells of a layout.
fn cells_in(layout: &[Meaning], types: &TypeTable) -> Result<u32, EmitFault>
    ensures value { IfOk result (λ cells. cells ≡ layout_cells types.now layout.now) }
    ensures fault { IfErr result (λ fault. fault ≡ NoMemory) }
{
    let mut cells = 0;
    for m in layout {
        cells = sum(cells, name_cells(types, *m))?;
    }
    Ok(cells)
}
