//! Statements that have no other in them.
ghost use Rattle.std.specs.Prelude.{◌≡◌, OnOk, IfOk, IfErr};
ghost use Rattle.pfc_tree.specs.views.Exprs.{expr_view, desig_view, actuals_view};
ghost use Rattle.pfc_types.specs.Scopes.{meaning_of};
ghost use Rattle.pfc_types.specs.rules.Expressions.{find};
ghost use Rattle.pfc_translation.specs.Calls.{call_code, requeue_code};
ghost use Rattle.pfc_translation.specs.Selects.{send_code, receive_code};
ghost use Rattle.pfc_translation.specs.Sites.{at_line};
ghost use Rattle.pfc_translation.specs.Statements.{assign_code};
ghost use Rattle.pfc_emit.specs.declared.emitter.EmitFault.TheVariants.{Full};
ghost use Rattle.pfc_addresses.specs.Sites.{site_view};
ghost use Rattle.pfc_expression_code.specs.Putting.{IsMade, IsTooLarge};

use crate::positions::Position;
use pfc_base::{Name, Place};
use pfc_emit::EmitFault;
use pfc_expression_code::Coder;
use pfc_tree::{Actual, Desig, Expr};

/// `d := e`
pub(crate) fn assign(
    d: &Desig,
    e: &Expr,
    place: Place,
    from: Position,
    code: &mut Coder,
) -> Result<u32, EmitFault>
    ensures code { OnOk result (IsMade (assign_code (at_line (site_view from.entry.site) place.line) (desig_view d.now) (expr_view e.now))
        code.old code.new) }
    ensures next { IfOk result (λ n. n ≡ from.entry.next) }
    ensures large { IfErr result (λ fault. fault ≡ Full →
        IsTooLarge (assign_code (at_line (site_view from.entry.site) place.line) (desig_view d.now) (expr_view e.now)) code.old) }
{
    pfc_call_code::assign(d, e, from.site.at(place.line), code)?;
    Ok(from.next)
}

/// `d ! e`
pub(crate) fn send(
    d: &Desig,
    e: &Expr,
    place: Place,
    from: Position,
    code: &mut Coder,
) -> Result<u32, EmitFault>
    ensures code { OnOk result (IsMade (send_code (at_line (site_view from.entry.site) place.line) (desig_view d.now) (expr_view e.now))
        code.old code.new) }
    ensures next { IfOk result (λ n. n ≡ from.entry.next) }
    ensures large { IfErr result (λ fault. fault ≡ Full →
        IsTooLarge (send_code (at_line (site_view from.entry.site) place.line) (desig_view d.now) (expr_view e.now)) code.old) }
{
    pfc_call_code::send(d, e, from.site.at(place.line), code)?;
    Ok(from.next)
}

/// `d ? v`
pub(crate) fn receive(
    d: &Desig,
    v: &Desig,
    place: Place,
    from: Position,
    code: &mut Coder,
) -> Result<u32, EmitFault>
    ensures code { OnOk result (IsMade (receive_code (at_line (site_view from.entry.site) place.line) (desig_view d.now) (desig_view v.now))
        code.old code.new) }
    ensures next { IfOk result (λ n. n ≡ from.entry.next) }
    ensures large { IfErr result (λ fault. fault ≡ Full →
        IsTooLarge (receive_code (at_line (site_view from.entry.site) place.line) (desig_view d.now) (desig_view v.now)) code.old) }
{
    pfc_call_code::receive(d, v, from.site.at(place.line), code)?;
    Ok(from.next)
}

/// `d (args)`
pub(crate) fn call(
    d: &Desig,
    args: &[Actual],
    place: Place,
    from: Position,
    code: &mut Coder,
) -> Result<u32, EmitFault>
    ensures code { OnOk result (IsMade (call_code (at_line (site_view from.entry.site) place.line) (desig_view d.now) (actuals_view args.now))
        code.old code.new) }
    ensures next { IfOk result (λ n. n ≡ from.entry.next) }
    ensures large { IfErr result (λ fault. fault ≡ Full →
        IsTooLarge (call_code (at_line (site_view from.entry.site) place.line) (desig_view d.now) (actuals_view args.now)) code.old) }
{
    pfc_call_code::call(d, args, from.site.at(place.line), code)?;
    Ok(from.next)
}

/// `requeue name (args)`
pub(crate) fn requeue(
    name: &Name,
    args: &[Actual],
    place: Place,
    from: Position,
    code: &mut Coder,
) -> Result<u32, EmitFault>
    ensures code { OnOk result (IsMade (requeue_code (at_line (site_view from.entry.site) place.line)
        (meaning_of (find (site_view from.entry.site).env name.now)) (actuals_view args.now)) code.old code.new) }
    ensures next { IfOk result (λ n. n ≡ from.entry.next) }
    ensures large { IfErr result (λ fault. fault ≡ Full →
        IsTooLarge (requeue_code (at_line (site_view from.entry.site) place.line)
        (meaning_of (find (site_view from.entry.site).env name.now)) (actuals_view args.now)) code.old) }
{
    pfc_call_code::requeue(name, args, from.site.at(place.line), code)?;
    Ok(from.next)
}
