//! The strings that calls write.
ghost use Rattle.std.specs.Prelude.{◌≡◌, OnOk, IfErr};
ghost use Rattle.pfc_tree.specs.views.Exprs.{expr_view, desig_view, actual_view, actuals_view};
ghost use Rattle.pfc_semantics.specs.Statements as statements;
ghost use Rattle.pfc_phrases.specs.Views.{env_view};
ghost use Rattle.pfc_facts.specs.Views.{procedure_view};
ghost use Rattle.pfc_emit.specs.declared.emitter.EmitFault.TheVariants.{Memory as NoMemory};
ghost use Rattle.pfc_unseen_code.specs.Calls.{with_string, with_item, with_items, with_procedure, with_called, with_call};

use pfc_emit::EmitFault;
use pfc_expression_code::Coder;
use pfc_facts::{Procedure, as_string, procedure_of};
use pfc_phrases::{Env, find_in, meaning_of};
use pfc_tree::{Actual, Desig, Expr};
use pfc_types::Meaning;

/// Keeps the strings of a call.
pub(crate) fn call(d: &Desig, args: &[Actual], env: Env, code: &mut Coder) -> Result<(), EmitFault>
    ensures code { OnOk result (code.new ≡ with_call (env_view env.entry) (desig_view d.now) (actuals_view args.now) code.old) }
    ensures fault { IfErr result (λ fault. fault ≡ NoMemory) }
{
    called(meaning_of(find_in(env, &d.name)), args, code)
}

/// Keeps the strings of a call of what has this meaning.
fn called(m: Option<Meaning>, args: &[Actual], code: &mut Coder) -> Result<(), EmitFault>
    ensures code { OnOk result (code.new ≡ with_called m (actuals_view args.now) code.old) }
    ensures fault { IfErr result (λ fault. fault ≡ NoMemory) }
{
    match m {
        Some(Meaning::Predeclared(k)) => procedure(procedure_of(k), args, code),
        _ => Ok(()),
    }
}

/// Keeps the strings of a call of a predeclared procedure.
fn procedure(p: Procedure, args: &[Actual], code: &mut Coder) -> Result<(), EmitFault>
    ensures code { OnOk result (code.new ≡ with_procedure (procedure_view p) (actuals_view args.now) code.old) }
    ensures fault { IfErr result (λ fault. fault ≡ NoMemory) }
{
    match p {
        Procedure::Writer(_) => items(args, code),
        Procedure::Reader(_)
        | Procedure::Initial
        | Procedure::Wait
        | Procedure::Signal
        | Procedure::Delay
        | Procedure::Resume
        | Procedure::Sleep
        | Procedure::NoProcedure => Ok(()),
    }
}

/// Keeps the strings among the items of a `write`.
fn items(args: &[Actual], code: &mut Coder) -> Result<(), EmitFault>
    ensures code { OnOk result (code.new ≡ with_items (actuals_view args.now) code.old) }
    ensures fault { IfErr result (λ fault. fault ≡ NoMemory) }
{
    for a in args {
        item(a, code)?;
    }
    Ok(())
}

/// Keeps an item that is a string.
#[tactic(auto, using(crate::proofs::Nodes::items))]
fn item(a: &Actual, code: &mut Coder) -> Result<(), EmitFault>
    ensures code { OnOk result (code.new ≡ with_item (actual_view a.now) code.old) }
    ensures fault { IfErr result (λ fault. fault ≡ NoMemory) }
{
    value(&a.value, code)
}

/// Keeps a value that is a string.
fn value(e: &Expr, code: &mut Coder) -> Result<(), EmitFault>
    ensures code { OnOk result (code.new ≡ with_string (statements.as_string (expr_view e.now)) code.old) }
    ensures fault { IfErr result (λ fault. fault ≡ NoMemory) }
{
    match as_string(e) {
        Some(text) => {
            code.keep(text)?;
            Ok(())
        }
        None => Ok(()),
    }
}
