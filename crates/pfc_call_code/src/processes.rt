//! The code of activations of processes and of calls of their entries.
ghost use Rattle.std.specs.Prelude.{◌≡◌, Some, OnOk, IfOk, IfErr};
ghost use Rattle.pfc_tree.specs.views.Exprs.{selectors_view, actuals_view};
ghost use Rattle.pfc_types.specs.rules.Expressions.{find, selected};
ghost use Rattle.pfc_semantics.specs.Statements.{process_of_type};
ghost use Rattle.pfc_translation.specs.Calls as calls;
ghost use Rattle.pfc_translation.specs.Expressions.{address_code};
ghost use Rattle.pfc_emit.specs.declared.emitter.EmitFault.TheVariants.{Full, Memory as NoMemory};
ghost use Rattle.pfc_addresses.specs.Sites.{site_view};
ghost use Rattle.pfc_expression_code.specs.Putting.{IsMade, IsTooLarge};

use crate::ways::process_in;
use pfc_addresses::Site;
use pfc_base::Name;
use pfc_code::Instr;
use pfc_emit::EmitFault;
use pfc_expression_code::{Coder, type_cells};
use pfc_tree::{Actual, Selector};
use pfc_types::{Formal, Meaning, TypeId, TypeTable};

/// How many cells a parameter takes: a reference takes one.
fn formal_cells(types: &TypeTable, f: Formal) -> u32
    ensures { result ≡ calls.formal_cells types.now f }
{
    if f.reference {
        1
    } else {
        type_cells(types, f.t)
    }
}

/// How many cells parameters take. A number of more than 32 bits is want of memory.
fn formals_cells(types: &TypeTable, formals: &[Formal]) -> Result<u32, EmitFault>
    ensures value { IfOk result (λ z. z ≡ calls.formals_cells types.now formals.now) }
    ensures fault { IfErr result (λ fault. fault ≡ NoMemory) }
{
    let mut sum = 0u32;
    for f in formals {
        match sum.checked_add(formal_cells(types, *f)) {
            Some(more) => sum = more,
            None => return Err(EmitFault::Memory),
        }
    }
    Ok(sum)
}

/// An activation of process n, whose object is the variable with that name and these selectors.
pub(crate) fn activate(
    args: &[Actual],
    n: u32,
    name: &Name,
    ss: &[Selector],
    site: Site,
    coder: &mut Coder,
) -> Result<(), EmitFault>
    ensures code { let s = site_view site.entry in let address = address_code s (find s.env name.now) (selectors_view ss.now) in
        OnOk result (IsMade (calls.activation_code s n address (actuals_view args.now)) coder.old coder.new) }
    ensures large { let s = site_view site.entry in let address = address_code s (find s.env name.now) (selectors_view ss.now) in
        IfErr result (λ fault. fault ≡ Full → IsTooLarge (calls.activation_code s n address (actuals_view args.now)) coder.old) }
{
    let scopes = site.tables().scopes;
    coder.address(name, ss, site)?;
    coder.put(Instr::OBJ, site)?;
    coder.arguments(args, scopes.process_formals(n), site)?;
    let b = site.block_number(scopes.process_scope(n));
    coder.put(Instr::NEW(b), site)
}

/// A call of what a name in process n stands for, where it is an entry. The process is the variable with that name and these selectors.
pub(crate) fn call_entry(
    args: &[Actual],
    n: u32,
    entry: Option<Meaning>,
    name: &Name,
    ss: &[Selector],
    site: Site,
    coder: &mut Coder,
) -> Result<(), EmitFault>
    ensures code { let s = site_view site.entry in let address = address_code s (find s.env name.now) (selectors_view ss.now) in
        OnOk result (IsMade (calls.entry_code s n entry address (actuals_view args.now)) coder.old coder.new) }
    ensures large { let s = site_view site.entry in let address = address_code s (find s.env name.now) (selectors_view ss.now) in
        IfErr result (λ fault. fault ≡ Full → IsTooLarge (calls.entry_code s n entry address (actuals_view args.now)) coder.old) }
{
    let Some(Meaning::Entry(k)) = entry else {
        return Ok(());
    };
    let tables = site.tables();
    let formals = tables.scopes.entry_formals(n, k);
    coder.address(name, ss, site)?;
    coder.put(Instr::OBJ, site)?;
    coder.arguments(args, formals, site)?;
    let z = formals_cells(tables.types, formals)?;
    coder.put(Instr::ECALL(k, z), site)
}

/// An activation of the variable of type t with that name, with these selectors, where it is a process.
pub(crate) fn activate_variable(
    args: &[Actual],
    t: TypeId,
    name: &Name,
    ss: &[Selector],
    site: Site,
    coder: &mut Coder,
) -> Result<(), EmitFault>
    ensures code { let s = site_view site.entry in let trees = selectors_view ss.now in
        OnOk result (IsMade (calls.process_code s (process_of_type s.env (selected s.env (Some t) trees))
        (address_code s (find s.env name.now) trees) (actuals_view args.now)) coder.old coder.new) }
    ensures large { let s = site_view site.entry in let trees = selectors_view ss.now in
        IfErr result (λ fault. fault ≡ Full → IsTooLarge (calls.process_code s (process_of_type s.env (selected s.env (Some t) trees))
        (address_code s (find s.env name.now) trees) (actuals_view args.now)) coder.old) }
{
    match process_in(ss, t, site) {
        Some(n) => activate(args, n, name, ss, site, coder),
        None => Ok(()),
    }
}
