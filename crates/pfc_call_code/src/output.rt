//! The code of `write` and `writeln`.
ghost use Rattle.std.specs.Prelude.{◌≡◌, None, OnOk, IfErr};
ghost use Rattle.pfc_tree.specs.views.Exprs.{expr_view, actual_view, actuals_view};
ghost use Rattle.pfc_tree.specs.trees.Exprs.{no_actuals};
ghost use Rattle.pfc_translation.specs.Codes.{◌⨾◌, string};
ghost use Rattle.pfc_translation.specs.Expressions as expressions;
ghost use Rattle.pfc_translation.specs.Calls as calls;
ghost use Rattle.pfc_emit.specs.declared.emitter.EmitFault.TheVariants.{Full};
ghost use Rattle.pfc_addresses.specs.Sites.{site_view};
ghost use Rattle.pfc_expression_code.specs.Putting.{IsMade, IsTooLarge};

use pfc_addresses::Site;
use pfc_base::Text;
use pfc_code::Instr;
use pfc_emit::EmitFault;
use pfc_expression_code::Coder;
use pfc_facts::{as_string, simple_of};
use pfc_tree::{Actual, Expr};
use pfc_typing::expr_type;
use pfc_values::Simple;

/// The instruction that writes a value: w is 1 where the width is the last operand, else 0.
fn write_instr(t: Simple, w: u32) -> Instr
    ensures { result ≡ calls.write_instr t w }
{
    match t {
        Simple::Integer => Instr::WRI(w),
        Simple::Boolean => Instr::WRB(w),
        Simple::Char => Instr::WRC(w),
    }
}

/// The items of a `write`; a `writeln` ends the line behind them.
pub(crate) fn writes(
    args: &[Actual],
    newline: bool,
    site: Site,
    coder: &mut Coder,
) -> Result<(), EmitFault>
    ensures code { let s = site_view site.entry in
        OnOk result (IsMade (calls.writes_code s (actuals_view args.now) newline) coder.old coder.new) }
    ensures large { let s = site_view site.entry in
        IfErr result (λ fault. fault ≡ Full → IsTooLarge (calls.writes_code s (actuals_view args.now) newline) coder.old) }
{
    for a in args {
        item(a, site, coder)?;
    }
    end_line(newline, site, coder)
}

/// The end of a `writeln`.
fn end_line(newline: bool, site: Site, coder: &mut Coder) -> Result<(), EmitFault>
    ensures code { let s = site_view site.entry in
        OnOk result (IsMade (calls.writes_code s no_actuals newline) coder.old coder.new) }
    ensures large { let s = site_view site.entry in
        IfErr result (λ fault. fault ≡ Full → IsTooLarge (calls.writes_code s no_actuals newline) coder.old) }
{
    if newline {
        coder.put(Instr::WRNL, site)
    } else {
        Ok(())
    }
}

/// An item of a `write`: a string, or a value, each with its width if one is given.
fn item(a: &Actual, site: Site, coder: &mut Coder) -> Result<(), EmitFault>
    ensures code { let s = site_view site.entry in
        OnOk result (IsMade (calls.item_code s (actual_view a.now)) coder.old coder.new) }
    ensures large { let s = site_view site.entry in
        IfErr result (λ fault. fault ≡ Full → IsTooLarge (calls.item_code s (actual_view a.now)) coder.old) }
{
    match (as_string(&a.value), &a.width) {
        (Some(text), None) => coder.string(text, 0, site),
        (Some(text), Some(width)) => wide_string(text, width, site, coder),
        (None, None) => value(&a.value, site, coder),
        (None, Some(width)) => wide_value(&a.value, width, site, coder),
    }
}

/// A string with its width.
fn wide_string(text: &Text, width: &Expr, site: Site, coder: &mut Coder) -> Result<(), EmitFault>
    ensures code { let s = site_view site.entry in
        OnOk result (IsMade (expressions.expr_code s (expr_view width.now) ⨾ string s text.now 1) coder.old coder.new) }
    ensures large { let s = site_view site.entry in
        IfErr result (λ fault. fault ≡ Full → IsTooLarge (expressions.expr_code s (expr_view width.now) ⨾ string s text.now 1) coder.old) }
{
    coder.expr(width, site)?;
    coder.string(text, 1, site)
}

/// A value that is no string.
fn value(e: &Expr, site: Site, coder: &mut Coder) -> Result<(), EmitFault>
    ensures code { let s = site_view site.entry in
        OnOk result (IsMade (calls.plain_item s None (expr_view e.now)) coder.old coder.new) }
    ensures large { let s = site_view site.entry in
        IfErr result (λ fault. fault ≡ Full → IsTooLarge (calls.plain_item s None (expr_view e.now)) coder.old) }
{
    coder.expr(e, site)?;
    let t = simple_of(expr_type(e, site.env()));
    coder.put(write_instr(t, 0), site)
}

/// A value that is no string, with its width.
fn wide_value(e: &Expr, width: &Expr, site: Site, coder: &mut Coder) -> Result<(), EmitFault>
    ensures code { let s = site_view site.entry in
        OnOk result (IsMade (calls.wide_item s None (expr_view e.now) (expr_view width.now)) coder.old coder.new) }
    ensures large { let s = site_view site.entry in
        IfErr result (λ fault. fault ≡ Full → IsTooLarge (calls.wide_item s None (expr_view e.now) (expr_view width.now)) coder.old) }
{
    coder.expr(e, site)?;
    coder.expr(width, site)?;
    let t = simple_of(expr_type(e, site.env()));
    coder.put(write_instr(t, 1), site)
}
