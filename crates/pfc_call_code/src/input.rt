//! The code of `read` and `readln`.
ghost use Rattle.std.specs.Prelude.{◌≡◌, Some, OnOk, IfErr};
ghost use Rattle.pfc_tree.specs.views.Exprs.{desig_view, actual_view, actuals_view};
ghost use Rattle.pfc_tree.specs.trees.Exprs.{no_actuals};
ghost use Rattle.pfc_types.specs.rules.Expressions.{as_desig};
ghost use Rattle.pfc_semantics.specs.Statements.{item_of};
ghost use Rattle.pfc_translation.specs.Calls as calls;
ghost use Rattle.pfc_emit.specs.declared.emitter.EmitFault.TheVariants.{Full};
ghost use Rattle.pfc_addresses.specs.Sites.{site_view};
ghost use Rattle.pfc_expression_code.specs.Putting.{IsMade, IsTooLarge};

use pfc_addresses::Site;
use pfc_code::Instr;
use pfc_emit::EmitFault;
use pfc_expression_code::Coder;
use pfc_facts::simple_of;
use pfc_phrases::as_desig;
use pfc_tree::{Actual, Desig};
use pfc_typing::desig_type;
use pfc_values::Simple;

/// The instruction that reads a value.
fn read_instr(t: Simple) -> Instr
    ensures { result ≡ calls.read_instr t }
{
    match t {
        Simple::Integer => Instr::RDI,
        Simple::Boolean | Simple::Char => Instr::RDC,
    }
}

/// The variables of a `read`; a `readln` skips the line behind them.
pub(crate) fn reads(
    args: &[Actual],
    skip: bool,
    site: Site,
    coder: &mut Coder,
) -> Result<(), EmitFault>
    ensures code { let s = site_view site.entry in
        OnOk result (IsMade (calls.reads_code s (actuals_view args.now) skip) coder.old coder.new) }
    ensures large { let s = site_view site.entry in
        IfErr result (λ fault. fault ≡ Full → IsTooLarge (calls.reads_code s (actuals_view args.now) skip) coder.old) }
{
    for a in args {
        read(a, site, coder)?;
    }
    skip_line(skip, site, coder)
}

/// The end of a `readln`.
fn skip_line(skip: bool, site: Site, coder: &mut Coder) -> Result<(), EmitFault>
    ensures code { let s = site_view site.entry in
        OnOk result (IsMade (calls.reads_code s no_actuals skip) coder.old coder.new) }
    ensures large { let s = site_view site.entry in
        IfErr result (λ fault. fault ≡ Full → IsTooLarge (calls.reads_code s no_actuals skip) coder.old) }
{
    if skip {
        coder.put(Instr::RDNL, site)
    } else {
        Ok(())
    }
}

/// One argument: nothing where it is no variable.
fn read(a: &Actual, site: Site, coder: &mut Coder) -> Result<(), EmitFault>
    ensures code { let s = site_view site.entry in
        OnOk result (IsMade (calls.input_code s (as_desig (item_of (actual_view a.now)))) coder.old coder.new) }
    ensures large { let s = site_view site.entry in
        IfErr result (λ fault. fault ≡ Full → IsTooLarge (calls.input_code s (as_desig (item_of (actual_view a.now)))) coder.old) }
{
    match as_desig(&a.value) {
        Some(d) => read_variable(d, site, coder),
        None => Ok(()),
    }
}

/// One variable.
fn read_variable(d: &Desig, site: Site, coder: &mut Coder) -> Result<(), EmitFault>
    ensures code { let s = site_view site.entry in
        OnOk result (IsMade (calls.input_code s (Some (desig_view d.now))) coder.old coder.new) }
    ensures large { let s = site_view site.entry in
        IfErr result (λ fault. fault ≡ Full → IsTooLarge (calls.input_code s (Some (desig_view d.now))) coder.old) }
{
    coder.desig(d, site)?;
    let t = simple_of(desig_type(d, site.env()));
    coder.put(read_instr(t), site)
}
