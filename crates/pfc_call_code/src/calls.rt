//! The code of calls as statements.
ghost use Rattle.std.specs.Prelude.{◌≡◌, Some, option_map, OnOk, IfErr};
ghost use Rattle.pfc_tree.specs.views.Exprs.{desig_view, selectors_view, actuals_view};
ghost use Rattle.pfc_types.specs.Scopes.{meaning_of};
ghost use Rattle.pfc_types.specs.rules.Calls.{last_field};
ghost use Rattle.pfc_types.specs.rules.Expressions.{find};
ghost use Rattle.pfc_translation.specs.Calls as calls;
ghost use Rattle.pfc_emit.specs.declared.emitter.EmitFault.TheVariants.{Full};
ghost use Rattle.pfc_addresses.specs.Sites.{site_view};
ghost use Rattle.pfc_expression_code.specs.Putting.{IsMade, IsTooLarge};

use crate::modules::call_module;
use crate::procedures::procedure;
use crate::processes::{activate, activate_variable, call_entry};
use crate::ways::{entry_in, process_in, requeue_instr};
use pfc_addresses::Site;
use pfc_base::{Name, Place};
use pfc_emit::EmitFault;
use pfc_expression_code::Coder;
use pfc_facts::procedure_of;
use pfc_phrases::{meaning_of, split_field};
use pfc_tree::{Actual, Desig, Selector};
use pfc_types::{Found, Meaning};

/// The last selector, where it is a name behind `.`.
fn last_name(ss: &[Selector]) -> Option<(&Name, Place)>
    ensures { option_map (λ r. (r.0.now, r.1)) result ≡ last_field (selectors_view ss.now) }
{
    let (_, field) = split_field(ss)?;
    Some(field)
}

/// A call of the n-th sub: its arguments, CALL.
fn call_sub(args: &[Actual], n: u32, site: Site, coder: &mut Coder) -> Result<(), EmitFault>
    ensures code { let s = site_view site.entry in
        OnOk result (IsMade (calls.sub_code s n (actuals_view args.now)) coder.old coder.new) }
    ensures large { let s = site_view site.entry in
        IfErr result (λ fault. fault ≡ Full → IsTooLarge (calls.sub_code s n (actuals_view args.now)) coder.old) }
{
    coder.arguments(args, site.tables().scopes.sub_formals(n), site)?;
    coder.put(site.call(n), site)
}

/// A call of a name that was found, with selectors. A variable is activated as a whole, or the last name is an entry of the process
/// before it.
fn called(
    args: &[Actual],
    found: Found,
    name: &Name,
    ss: &[Selector],
    site: Site,
    coder: &mut Coder,
) -> Result<(), EmitFault>
    requires found { find (site_view site).env name.now ≡ Some found }
    ensures code { let s = site_view site.entry in
        OnOk result (IsMade (calls.called_code s found found.meaning (selectors_view ss.now) (actuals_view args.now)) coder.old coder.new) }
    ensures large { let s = site_view site.entry in
        IfErr result (λ fault. fault ≡ Full →
        IsTooLarge (calls.called_code s found found.meaning (selectors_view ss.now) (actuals_view args.now)) coder.old) }
{
    match found.meaning {
        Meaning::Predeclared(k) => procedure(args, procedure_of(k), site, coder),
        Meaning::Sub(n) => call_sub(args, n, site, coder),
        Meaning::Module(n) => call_module(args, n, last_name(ss), site, coder),
        Meaning::Process(n) => match last_name(ss) {
            Some((x, _)) => call_entry(args, n, entry_in(n, x, site), name, &[], site, coder),
            None => activate(args, n, name, &[], site, coder),
        },
        Meaning::Variable { t, reference: _ } => match split_field(ss) {
            Some((before, (x, _))) => match process_in(before, t, site) {
                Some(n) => call_entry(args, n, entry_in(n, x, site), name, before, site, coder),
                None => activate_variable(args, t, name, ss, site, coder),
            },
            None => activate_variable(args, t, name, ss, site, coder),
        },
        Meaning::Constant { t: _, value: _ }
        | Meaning::Named(_)
        | Meaning::Entry(_)
        | Meaning::Faulty => Ok(()),
    }
}

/// Puts the code of a call as a statement: of a procedure, of one of a module, of an entry, or an activation of a process. What is none
/// of these gives no code.
pub fn call(d: &Desig, args: &[Actual], site: Site, coder: &mut Coder) -> Result<(), EmitFault>
    ensures code { let s = site_view site.entry in
        OnOk result (IsMade (calls.call_code s (desig_view d.now) (actuals_view args.now)) coder.old coder.new) }
    ensures large { let s = site_view site.entry in
        IfErr result (λ fault. fault ≡ Full → IsTooLarge (calls.call_code s (desig_view d.now) (actuals_view args.now)) coder.old) }
{
    match site.find(&d.name) {
        Some(found) => called(args, found, &d.name, d.selectors.as_slice(), site, coder),
        None => Ok(()),
    }
}

/// Puts the code of `requeue name(args)`: the arguments, REQ. What is no sub gives no code.
pub fn requeue(name: &Name, args: &[Actual], site: Site, coder: &mut Coder) -> Result<(), EmitFault>
    ensures code { let s = site_view site.entry in
        OnOk result (IsMade (calls.requeue_code s (meaning_of (find s.env name.now)) (actuals_view args.now)) coder.old coder.new) }
    ensures large { let s = site_view site.entry in
        IfErr result (λ fault. fault ≡ Full → IsTooLarge (calls.requeue_code s (meaning_of (find s.env name.now)) (actuals_view args.now)) coder.old) }
{
    let Some(Meaning::Sub(n)) = meaning_of(site.find(name)) else {
        return Ok(());
    };
    coder.arguments(args, site.tables().scopes.sub_formals(n), site)?;
    coder.put(requeue_instr(n, site), site)
}
