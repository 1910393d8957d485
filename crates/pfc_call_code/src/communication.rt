//! The code of sends and receives.
ghost use Rattle.std.specs.Prelude.{◌≡◌, option_map, OnOk, IfErr};
ghost use Rattle.pfc_tree.specs.views.Exprs.{expr_view, desig_view};
ghost use Rattle.pfc_translation.specs.Selects as selects;
ghost use Rattle.pfc_emit.specs.declared.emitter.EmitFault.TheVariants.{Full};
ghost use Rattle.pfc_addresses.specs.Sites.{site_view};
ghost use Rattle.pfc_expression_code.specs.Putting.{IsMade, IsTooLarge};

use crate::ways::{message_at, receiver_at};
use pfc_addresses::Site;
use pfc_code::Instr;
use pfc_emit::EmitFault;
use pfc_expression_code::{Coder, type_cells};
use pfc_tree::{Desig, Expr};
use pfc_typing::{desig_type, expr_type};

/// Puts a message; nothing for `any`.
pub fn message(m: Option<&Expr>, site: Site, coder: &mut Coder) -> Result<(), EmitFault>
    ensures code { let s = site_view site.entry in
        OnOk result (IsMade (selects.message_code s (option_map (λ e. expr_view e.now) m.entry)) coder.old coder.new) }
    ensures large { let s = site_view site.entry in
        IfErr result (λ fault. fault ≡ Full → IsTooLarge (selects.message_code s (option_map (λ e. expr_view e.now) m.entry)) coder.old) }
{
    match m {
        Some(e) => coder.expr(e, site),
        None => Ok(()),
    }
}

/// How many cells a message has, 0 for `any`.
pub fn message_cells(m: Option<&Expr>, site: Site) -> u32
    ensures { result ≡ selects.message_cells (site_view site.entry) (option_map (λ e. expr_view e.now) m.entry) }
{
    match m {
        Some(e) => type_cells(site.tables().types, expr_type(e, site.env())),
        None => 0,
    }
}

/// Puts the address of the variable that receives a message; nothing for `any`.
pub fn receiver(r: Option<&Desig>, site: Site, coder: &mut Coder) -> Result<(), EmitFault>
    ensures code { let s = site_view site.entry in
        OnOk result (IsMade (selects.receiver_code s (option_map (λ d. desig_view d.now) r.entry)) coder.old coder.new) }
    ensures large { let s = site_view site.entry in
        IfErr result (λ fault. fault ≡ Full → IsTooLarge (selects.receiver_code s (option_map (λ d. desig_view d.now) r.entry)) coder.old) }
{
    match r {
        Some(d) => coder.desig(d, site),
        None => Ok(()),
    }
}

/// How many cells that variable has, 0 for `any`.
pub fn receiver_cells(r: Option<&Desig>, site: Site) -> u32
    ensures { result ≡ selects.receiver_cells (site_view site.entry) (option_map (λ d. desig_view d.now) r.entry) }
{
    match r {
        Some(d) => type_cells(site.tables().types, desig_type(d, site.env())),
        None => 0,
    }
}

/// Puts the code of `d ! e`.
pub fn send(d: &Desig, e: &Expr, site: Site, coder: &mut Coder) -> Result<(), EmitFault>
    ensures code { let s = site_view site.entry in
        OnOk result (IsMade (selects.send_code s (desig_view d.now) (expr_view e.now)) coder.old coder.new) }
    ensures large { let s = site_view site.entry in
        IfErr result (λ fault. fault ≡ Full → IsTooLarge (selects.send_code s (desig_view d.now) (expr_view e.now)) coder.old) }
{
    let m = message_at(e, site);
    coder.object(d, site)?;
    message(m, site, coder)?;
    coder.put(Instr::SEND(message_cells(m, site)), site)
}

/// Puts the code of `d ? v`.
pub fn receive(d: &Desig, v: &Desig, site: Site, coder: &mut Coder) -> Result<(), EmitFault>
    ensures code { let s = site_view site.entry in
        OnOk result (IsMade (selects.receive_code s (desig_view d.now) (desig_view v.now)) coder.old coder.new) }
    ensures large { let s = site_view site.entry in
        IfErr result (λ fault. fault ≡ Full → IsTooLarge (selects.receive_code s (desig_view d.now) (desig_view v.now)) coder.old) }
{
    let r = receiver_at(v, site);
    coder.object(d, site)?;
    receiver(r, site, coder)?;
    coder.put(Instr::RECV(receiver_cells(r, site)), site)
}
