//! The instructions of calls: of procedures, of exported procedures of modules, of processes and of their entries.
ghost use Rattle.std.specs.Prelude.{◌≡◌, ◌+◌, ◌<◌, Some, IfOk, OnErr};
ghost use Rattle.pfc_tree.specs.views.Exprs.{desig_view, selectors_view, actuals_view};
ghost use Rattle.pfc_types.specs.Blocks.{module_at};
ghost use Rattle.pfc_types.specs.Scopes as scopes;
ghost use Rattle.pfc_types.specs.rules.Calls.{last_field};
ghost use Rattle.pfc_types.specs.rules.Expressions.{find, selected};
ghost use Rattle.pfc_semantics.specs.Statements as statements;
ghost use Rattle.pfc_phrases.specs.Views.{env_view};
ghost use Rattle.pfc_code_size.specs.Calls as sizes;

use crate::adding::{Full, one};
use crate::exprs::{pass, selectors};
use crate::procedures::procedure;
use pfc_base::Name;
use pfc_facts::{name_in_process, procedure_of, process_of_type};
use pfc_phrases::{Env, find_in, meaning_of, member, split_field};
use pfc_tree::{Actual, Desig, Selector};
use pfc_types::{Meaning, TypeId};
use pfc_typing::selected_type;

/// With a call statement.
pub(crate) fn call(d: &Desig, args: &[Actual], env: Env, count: u32) -> Result<u32, Full>
    ensures value { IfOk result (λ total. total ≡ count + sizes.call_size env.entry.scopes.now (env_view env.entry)
        (desig_view d.now) (actuals_view args.now)) }
    ensures large { OnErr result (200000 < count + sizes.call_size env.entry.scopes.now (env_view env.entry) (desig_view d.now) (actuals_view args.now)) }
{
    called(
        meaning_of(find_in(env, &d.name)),
        &d.selectors,
        args,
        env,
        count,
    )
}

/// With a call of a name with this meaning, and its selectors.
fn called(
    m: Option<Meaning>,
    ss: &[Selector],
    args: &[Actual],
    env: Env,
    count: u32,
) -> Result<u32, Full>
    ensures value { IfOk result (λ total. total ≡ count + sizes.called_size env.entry.scopes.now (env_view env.entry) m
        (selectors_view ss.now) (actuals_view args.now)) }
    ensures large { OnErr result (200000 < count + sizes.called_size env.entry.scopes.now (env_view env.entry) m
        (selectors_view ss.now) (actuals_view args.now)) }
{
    match m {
        Some(Meaning::Predeclared(k)) => procedure(procedure_of(k), args, env, count),
        Some(Meaning::Sub(n)) => call_sub(n, args, env, count),
        Some(Meaning::Module(n)) => call_module(n, ss, args, env, count),
        Some(Meaning::Process(n)) => call_process(n, ss, args, env, count),
        Some(Meaning::Variable { t, reference: _ }) => call_variable(t, ss, args, env, count),
        _ => Ok(count),
    }
}

fn call_sub(n: u32, args: &[Actual], env: Env, count: u32) -> Result<u32, Full>
    ensures value { IfOk result (λ total. total ≡ count + sizes.sub_size env.entry.scopes.now (env_view env.entry) n (actuals_view args.now)) }
    ensures large { OnErr result (200000 < count + sizes.sub_size env.entry.scopes.now (env_view env.entry) n (actuals_view args.now)) }
{
    one(pass(args, env.scopes.sub_formals(n), env, count)?)
}

/// `m.p (..)` calls an exported procedure of a module.
fn call_module(n: u32, ss: &[Selector], args: &[Actual], env: Env, count: u32) -> Result<u32, Full>
    ensures value { IfOk result (λ total. total ≡ count + sizes.module_size env.entry.scopes.now (env_view env.entry) n
        (last_field (selectors_view ss.now)) (actuals_view args.now)) }
    ensures large { OnErr result (200000 < count + sizes.module_size env.entry.scopes.now (env_view env.entry) n
        (last_field (selectors_view ss.now)) (actuals_view args.now)) }
{
    match split_field(ss) {
        Some((_before, (name, _place))) => {
            let m = member(env.scopes, env.scopes.module(n).scope, name);
            call_named(m, args, env, count)
        }
        None => Ok(count),
    }
}

/// With a call of what is exported, or of what is requeued, where that has this meaning.
fn call_named(m: Option<Meaning>, args: &[Actual], env: Env, count: u32) -> Result<u32, Full>
    ensures value { IfOk result (λ total. total ≡ count + sizes.exported_size env.entry.scopes.now (env_view env.entry) m (actuals_view args.now)) }
    ensures large { OnErr result (200000 < count + sizes.exported_size env.entry.scopes.now (env_view env.entry) m (actuals_view args.now)) }
    ensures requeued { IfOk result (λ total. total ≡ count + sizes.requeue_size env.entry.scopes.now (env_view env.entry) m (actuals_view args.now)) }
    ensures requeued_large { OnErr result (200000 < count + sizes.requeue_size env.entry.scopes.now (env_view env.entry) m (actuals_view args.now)) }
{
    match m {
        Some(Meaning::Sub(n)) => call_sub(n, args, env, count),
        _ => Ok(count),
    }
}

/// `requeue q (..)`.
pub(crate) fn requeue(name: &Name, args: &[Actual], env: Env, count: u32) -> Result<u32, Full>
    ensures value { IfOk result (λ total. total ≡ count + sizes.requeue_size env.entry.scopes.now (env_view env.entry)
        (scopes.meaning_of (find (env_view env.entry) name.now)) (actuals_view args.now)) }
    ensures large { OnErr result (200000 < count + sizes.requeue_size env.entry.scopes.now (env_view env.entry)
        (scopes.meaning_of (find (env_view env.entry) name.now)) (actuals_view args.now)) }
{
    call_named(meaning_of(find_in(env, name)), args, env, count)
}

/// A single process is activated by its name, and its entry is called behind `.`.
fn call_process(n: u32, ss: &[Selector], args: &[Actual], env: Env, count: u32) -> Result<u32, Full>
    ensures value { IfOk result (λ total. total ≡ count + sizes.called_process_size env.entry.scopes.now (env_view env.entry) n
        (last_field (selectors_view ss.now)) (actuals_view args.now)) }
    ensures large { OnErr result (200000 < count + sizes.called_process_size env.entry.scopes.now (env_view env.entry) n
        (last_field (selectors_view ss.now)) (actuals_view args.now)) }
{
    match split_field(ss) {
        Some((_before, (name, _place))) => {
            call_entry(
                n,
                &[],
                name_in_process(env.scopes, n, name),
                args,
                env,
                count,
            )
        }
        None => activate(n, &[], args, env, count),
    }
}

/// `d.e (..)` calls an entry where d is a process; else the whole is a process that is activated.
fn call_variable(
    t: TypeId,
    ss: &[Selector],
    args: &[Actual],
    env: Env,
    count: u32,
) -> Result<u32, Full>
    ensures value { IfOk result (λ total. total ≡ count + sizes.called_variable_size env.entry.scopes.now (env_view env.entry) (selectors_view ss.now) t
        (last_field (selectors_view ss.now)) (actuals_view args.now)) }
    ensures large { OnErr result (200000 < count + sizes.called_variable_size env.entry.scopes.now (env_view env.entry) (selectors_view ss.now) t
        (last_field (selectors_view ss.now)) (actuals_view args.now)) }
{
    let Some((before, (name, _place))) = split_field(ss) else {
        return activate_part(t, ss, args, env, count)
    };
    match process_of_type(selected_type(before, Some(t), env), env) {
        Some(n) => {
            let m = name_in_process(env.scopes, n, name);
            call_entry(n, before, m, args, env, count)
        }
        None => activate_part(t, ss, args, env, count),
    }
}

/// A part of a variable of type t is activated where it is a process.
fn activate_part(
    t: TypeId,
    ss: &[Selector],
    args: &[Actual],
    env: Env,
    count: u32,
) -> Result<u32, Full>
    ensures value { IfOk result (λ total. total ≡ count + sizes.process_size env.entry.scopes.now (env_view env.entry)
        (statements.process_of_type (env_view env.entry) (selected (env_view env.entry) (Some t) (selectors_view ss.now)))
        (sizes.part_size env.entry.scopes.now (env_view env.entry) (selectors_view ss.now)) (actuals_view args.now)) }
    ensures large { OnErr result (200000 < count + sizes.process_size env.entry.scopes.now (env_view env.entry) (statements.process_of_type (env_view env.entry)
        (selected (env_view env.entry) (Some t) (selectors_view ss.now))) (sizes.part_size env.entry.scopes.now (env_view env.entry)
        (selectors_view ss.now)) (actuals_view args.now)) }
{
    match process_of_type(selected_type(ss, Some(t), env), env) {
        Some(n) => activate(n, ss, args, env, count),
        None => Ok(count),
    }
}

/// A process of the n-th declaration is activated, which is this part of a variable.
fn activate(n: u32, ss: &[Selector], args: &[Actual], env: Env, count: u32) -> Result<u32, Full>
    ensures value { IfOk result (λ total. total ≡ count + sizes.activation_size env.entry.scopes.now (env_view env.entry) n
        (sizes.part_size env.entry.scopes.now (env_view env.entry) (selectors_view ss.now)) (actuals_view args.now)) }
    ensures large { OnErr result (200000 < count + sizes.activation_size env.entry.scopes.now (env_view env.entry) n
        (sizes.part_size env.entry.scopes.now (env_view env.entry) (selectors_view ss.now)) (actuals_view args.now)) }
{
    let process = part(ss, env, count)?;
    one(pass(args, env.scopes.process_formals(n), env, one(process)?)?)
}

/// An entry of a process of the n-th declaration is called, where the entry has this meaning there.
fn call_entry(
    n: u32,
    ss: &[Selector],
    m: Option<Meaning>,
    args: &[Actual],
    env: Env,
    count: u32,
) -> Result<u32, Full>
    ensures value { IfOk result (λ total. total ≡ count + sizes.entry_size env.entry.scopes.now (env_view env.entry) n m
        (sizes.part_size env.entry.scopes.now (env_view env.entry) (selectors_view ss.now)) (actuals_view args.now)) }
    ensures large { OnErr result (200000 < count + sizes.entry_size env.entry.scopes.now (env_view env.entry) n m
        (sizes.part_size env.entry.scopes.now (env_view env.entry) (selectors_view ss.now)) (actuals_view args.now)) }
{
    match m {
        Some(Meaning::Entry(e)) => {
            let process = part(ss, env, count)?;
            one(pass(args, env.scopes.entry_formals(n, e), env, one(process)?)?)
        }
        _ => Ok(count),
    }
}

/// With the address of a part of a variable.
fn part(ss: &[Selector], env: Env, count: u32) -> Result<u32, Full>
    ensures value { IfOk result (λ total. total ≡ count + sizes.part_size env.entry.scopes.now (env_view env.entry) (selectors_view ss.now)) }
    ensures large { OnErr result (200000 < count + sizes.part_size env.entry.scopes.now (env_view env.entry) (selectors_view ss.now)) }
{
    selectors(ss, env, one(count)?)
}
