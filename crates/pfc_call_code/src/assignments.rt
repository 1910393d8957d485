//! The code of assignments.
ghost use Rattle.std.specs.Prelude.{◌≡◌, OnOk, IfErr};
ghost use Rattle.pfc_tree.specs.views.Exprs.{expr_view, desig_view};
ghost use Rattle.pfc_translation.specs.Statements as statements;
ghost use Rattle.pfc_emit.specs.declared.emitter.EmitFault.TheVariants.{Full};
ghost use Rattle.pfc_addresses.specs.Sites.{site_view};
ghost use Rattle.pfc_expression_code.specs.Putting.{IsMade, IsTooLarge};

use pfc_addresses::Site;
use pfc_code::Instr;
use pfc_emit::EmitFault;
use pfc_expression_code::{Coder, type_cells};
use pfc_tree::{Desig, Expr};
use pfc_typing::expr_type;

/// Puts the code of `d := e`.
pub fn assign(d: &Desig, e: &Expr, site: Site, coder: &mut Coder) -> Result<(), EmitFault>
    ensures code { let s = site_view site.entry in
        OnOk result (IsMade (statements.assign_code s (desig_view d.now) (expr_view e.now)) coder.old coder.new) }
    ensures large { let s = site_view site.entry in
        IfErr result (λ fault. fault ≡ Full → IsTooLarge (statements.assign_code s (desig_view d.now) (expr_view e.now)) coder.old) }
{
    coder.desig(d, site)?;
    coder.expr(e, site)?;
    let z = type_cells(site.tables().types, expr_type(e, site.env()));
    coder.put(Instr::STORE(z), site)
}
