//! The code of calls of predeclared procedures.
ghost use Rattle.std.specs.Prelude.{◌≡◌, option_map, OnOk, IfErr};
ghost use Rattle.pfc_tree.specs.views.Exprs.{expr_view, actuals_view};
ghost use Rattle.pfc_facts.specs.Views.{procedure_view};
ghost use Rattle.pfc_semantics.specs.Statements.{expr_of, behind_first};
ghost use Rattle.pfc_semantics.specs.Predeclared.{initial, delay, sleep};
ghost use Rattle.pfc_translation.specs.Codes.{◌⨾◌, one};
ghost use Rattle.pfc_translation.specs.Calls as calls;
ghost use Rattle.pfc_emit.specs.declared.emitter.EmitFault.TheVariants.{Full};
ghost use Rattle.pfc_addresses.specs.Sites.{site_view};
ghost use Rattle.pfc_expression_code.specs.Putting.{IsMade, IsTooLarge};

use crate::input::reads;
use crate::output::writes;
use pfc_addresses::Site;
use pfc_code::Instr;
use pfc_emit::EmitFault;
use pfc_expression_code::Coder;
use pfc_facts::Procedure;
use pfc_tree::{Actual, Expr};

/// The first argument, None where there is none.
fn first(args: &[Actual]) -> Option<&Expr>
    ensures { option_map (λ e. expr_view e.now) result ≡ expr_of (actuals_view args.now) }
{
    match args {
        [first, ..] => Some(&first.value),
        [] => None,
    }
}

/// The second argument, None where there is none.
fn second(args: &[Actual]) -> Option<&Expr>
    ensures { option_map (λ e. expr_view e.now) result ≡ expr_of (behind_first (actuals_view args.now)) }
{
    match args {
        [_first, behind @ ..] => first(behind),
        [] => None,
    }
}

/// The first argument, as an object.
fn first_object(args: &[Actual], site: Site, coder: &mut Coder) -> Result<(), EmitFault>
    ensures code { let s = site_view site.entry in
        OnOk result (IsMade (calls.first_object s (actuals_view args.now)) coder.old coder.new) }
    ensures large { let s = site_view site.entry in
        IfErr result (λ fault. fault ≡ Full → IsTooLarge (calls.first_object s (actuals_view args.now)) coder.old) }
{
    coder.first_address(args, site)?;
    coder.put(Instr::OBJ, site)
}

/// A number where one is given.
fn given(e: Option<&Expr>, site: Site, coder: &mut Coder) -> Result<(), EmitFault>
    ensures code { let s = site_view site.entry in
        OnOk result (IsMade (calls.given_code s (option_map (λ e. expr_view e.now) e.entry)) coder.old coder.new) }
    ensures large { let s = site_view site.entry in
        IfErr result (λ fault. fault ≡ Full → IsTooLarge (calls.given_code s (option_map (λ e. expr_view e.now) e.entry)) coder.old) }
{
    match e {
        Some(e) => coder.expr(e, site),
        None => Ok(()),
    }
}

/// The rank of a `delay`, 0 where none is given.
fn rank(e: Option<&Expr>, site: Site, coder: &mut Coder) -> Result<(), EmitFault>
    ensures code { let s = site_view site.entry in
        OnOk result (IsMade (calls.rank_code s (option_map (λ e. expr_view e.now) e.entry)) coder.old coder.new) }
    ensures large { let s = site_view site.entry in
        IfErr result (λ fault. fault ≡ Full → IsTooLarge (calls.rank_code s (option_map (λ e. expr_view e.now) e.entry)) coder.old) }
{
    match e {
        Some(e) => coder.expr(e, site),
        None => coder.put(Instr::LIT(0), site),
    }
}

/// `initial`: the semaphore, its count, SINI.
fn initial(args: &[Actual], site: Site, coder: &mut Coder) -> Result<(), EmitFault>
    ensures code { let s = site_view site.entry in
        OnOk result (IsMade (calls.procedure_code s initial (actuals_view args.now)) coder.old coder.new) }
    ensures large { let s = site_view site.entry in
        IfErr result (λ fault. fault ≡ Full → IsTooLarge (calls.procedure_code s initial (actuals_view args.now)) coder.old) }
{
    first_object(args, site, coder)?;
    given(second(args), site, coder)?;
    coder.put(Instr::SINI, site)
}

/// `delay`: the condition, its rank, DELAY.
fn delay(args: &[Actual], site: Site, coder: &mut Coder) -> Result<(), EmitFault>
    ensures code { let s = site_view site.entry in
        OnOk result (IsMade (calls.procedure_code s delay (actuals_view args.now)) coder.old coder.new) }
    ensures large { let s = site_view site.entry in
        IfErr result (λ fault. fault ≡ Full → IsTooLarge (calls.procedure_code s delay (actuals_view args.now)) coder.old) }
{
    let ranked = second(args);
    first_object(args, site, coder)?;
    rank(ranked, site, coder)?;
    coder.put(Instr::DELAY, site)
}

/// An object, and an instruction on it.
fn on_object(args: &[Actual], instr: Instr, site: Site, coder: &mut Coder) -> Result<(), EmitFault>
    ensures code { let s = site_view site.entry in
        OnOk result (IsMade (calls.first_object s (actuals_view args.now) ⨾ one s instr) coder.old coder.new) }
    ensures large { let s = site_view site.entry in
        IfErr result (λ fault. fault ≡ Full → IsTooLarge (calls.first_object s (actuals_view args.now) ⨾ one s instr) coder.old) }
{
    first_object(args, site, coder)?;
    coder.put(instr, site)
}

/// `sleep`: the seconds, SLEEP.
fn sleep(args: &[Actual], site: Site, coder: &mut Coder) -> Result<(), EmitFault>
    ensures code { let s = site_view site.entry in
        OnOk result (IsMade (calls.procedure_code s sleep (actuals_view args.now)) coder.old coder.new) }
    ensures large { let s = site_view site.entry in
        IfErr result (λ fault. fault ≡ Full → IsTooLarge (calls.procedure_code s sleep (actuals_view args.now)) coder.old) }
{
    coder.first_value(args, site)?;
    coder.put(Instr::SLEEP, site)
}

/// A call of a predeclared procedure.
pub(crate) fn procedure(
    args: &[Actual],
    p: Procedure,
    site: Site,
    coder: &mut Coder,
) -> Result<(), EmitFault>
    ensures code { let s = site_view site.entry in
        OnOk result (IsMade (calls.procedure_code s (procedure_view p) (actuals_view args.now)) coder.old coder.new) }
    ensures large { let s = site_view site.entry in
        IfErr result (λ fault. fault ≡ Full → IsTooLarge (calls.procedure_code s (procedure_view p) (actuals_view args.now)) coder.old) }
{
    match p {
        Procedure::Reader(skip) => reads(args, skip, site, coder),
        Procedure::Writer(newline) => writes(args, newline, site, coder),
        Procedure::Initial => initial(args, site, coder),
        Procedure::Wait => on_object(args, Instr::SWAIT, site, coder),
        Procedure::Signal => on_object(args, Instr::SSIG, site, coder),
        Procedure::Delay => delay(args, site, coder),
        Procedure::Resume => on_object(args, Instr::RESUME, site, coder),
        Procedure::Sleep => sleep(args, site, coder),
        Procedure::NoProcedure => Ok(()),
    }
}
