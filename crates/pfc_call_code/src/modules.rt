//! The code of calls of procedures of monitors and resources.
ghost use Rattle.std.specs.Prelude.{◌≡◌, option_map, OnOk, IfErr};
ghost use Rattle.pfc_tree.specs.views.Exprs.{actuals_view};
ghost use Rattle.pfc_translation.specs.Calls as calls;
ghost use Rattle.pfc_emit.specs.declared.emitter.EmitFault.TheVariants.{Full};
ghost use Rattle.pfc_addresses.specs.Sites.{site_view};
ghost use Rattle.pfc_expression_code.specs.Putting.{IsMade, IsTooLarge};

use crate::ways::enter;
use pfc_addresses::Site;
use pfc_base::{Name, Place};
use pfc_emit::EmitFault;
use pfc_expression_code::Coder;
use pfc_phrases::member;
use pfc_tree::Actual;
use pfc_types::Meaning;

/// A call of what a name in the n-th module stands for, where it is a procedure.
fn call_exported(
    args: &[Actual],
    n: u32,
    m: Option<Meaning>,
    site: Site,
    coder: &mut Coder,
) -> Result<(), EmitFault>
    ensures code { let s = site_view site.entry in
        OnOk result (IsMade (calls.exported_code s n m (actuals_view args.now)) coder.old coder.new) }
    ensures large { let s = site_view site.entry in
        IfErr result (λ fault. fault ≡ Full → IsTooLarge (calls.exported_code s n m (actuals_view args.now)) coder.old) }
{
    let Some(Meaning::Sub(p)) = m else {
        return Ok(());
    };
    coder.arguments(args, site.tables().scopes.sub_formals(p), site)?;
    coder.put(enter(n, p, site), site)
}

/// A call of a procedure of the n-th module, by the name behind `.`.
pub(crate) fn call_module(
    args: &[Actual],
    n: u32,
    field: Option<(&Name, Place)>,
    site: Site,
    coder: &mut Coder,
) -> Result<(), EmitFault>
    ensures code { let s = site_view site.entry in
        OnOk result (IsMade (calls.module_code s n (option_map (λ r. (r.0.now, r.1)) field.entry) (actuals_view args.now)) coder.old coder.new) }
    ensures large { let s = site_view site.entry in
        IfErr result (λ fault. fault ≡ Full →
        IsTooLarge (calls.module_code s n (option_map (λ r. (r.0.now, r.1)) field.entry) (actuals_view args.now)) coder.old) }
{
    let Some((name, _)) = field else {
        return Ok(());
    };
    let scopes = site.tables().scopes;
    let m = member(scopes, scopes.module(n).scope, name);
    call_exported(args, n, m, site, coder)
}
