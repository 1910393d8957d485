//! Calls: of procedures, of exported procedures of modules, of processes and of their entries.
ghost use Rattle.std.specs.Prelude.{◌≡◌, ℕ, None};
ghost use Rattle.pfc_tree.specs.views.Exprs.{desig_view, selectors_view, actuals_view};
ghost use Rattle.pfc_types.specs.Blocks.{module_at, process_at};
ghost use Rattle.pfc_types.specs.rules.Calls.{last_field};
ghost use Rattle.pfc_types.specs.rules.Expressions.{find};
ghost use Rattle.pfc_types.specs.Scopes as scopes;
ghost use Rattle.pfc_semantics.specs.Alternatives.{context};
ghost use Rattle.pfc_semantics.specs.Statements as statements;
ghost use Rattle.pfc_store.specs.Views.{typed_spot_view};
ghost use Rattle.pfc_phrases.specs.Views.{env_view};
ghost use Rattle.pfc_program.specs.declared.tables.Tables.{Tables};
ghost use Rattle.pfc_pending.specs.Ahead.{step_ahead, on_rest};
ghost use Rattle.pfc_pending.specs.Waiting.{Waiting, remainder_of};

use crate::procedures::procedure;
use pfc_base::Name;
use pfc_facts::{name_in_process, procedure_of, process_of_type};
use pfc_pending::{At, Callee, Goal, Step};
use pfc_phrases::{member, split_field};
use pfc_sites::{Site, all, passing, selected};
use pfc_store::TypedSpot;
use pfc_tree::{Actual, Desig, Selector};
use pfc_types::Meaning;
use pfc_typing::selected_type;

/// A call statement.
pub(crate) fn call<'t>(d: &'t Desig, args: &'t Vec<Actual>, site: Site<'t, '_>) -> Step<'t>
    ensures { (t : Tables) (line : ℕ) (w : Waiting) → step_ahead t (context (env_view site.entry.env) line) w result ≡ statements.from_call
        (context (env_view site.entry.env) line) (desig_view d.now) (actuals_view args.now.items) (remainder_of w)
        (on_rest (context (env_view site.entry.env) line) w) }
{
    let meaning = site.meaning(&d.name);
    called(meaning, site.spot(&d.name), &d.selectors, args, site)
}

/// A call of a name with this meaning, of the variable that it stands for, and its selectors.
fn called<'t>(
    m: Option<Meaning>,
    spot: TypedSpot,
    ss: &'t [Selector],
    args: &'t Vec<Actual>,
    site: Site<'t, '_>,
) -> Step<'t>
    ensures { (t : Tables) (line : ℕ) (w : Waiting) → step_ahead t (context (env_view site.entry.env) line) w result ≡ statements.from_called
        (context (env_view site.entry.env) line) m (typed_spot_view spot) (selectors_view ss.now) (actuals_view args.now.items) (remainder_of w)
        (on_rest (context (env_view site.entry.env) line) w) }
{
    match m {
        Some(Meaning::Predeclared(k)) => procedure(procedure_of(k), args, site),
        Some(Meaning::Sub(n)) => {
            let scopes = site.scopes();
            let callee = Callee::Procedure(scopes.sub_scope(n));
            passing(scopes.sub_formals(n), args, callee, site.alloc)
        }
        Some(Meaning::Module(n)) => call_module(n, ss, args, site),
        Some(Meaning::Process(n)) => call_process(n, spot, ss, args, site),
        Some(Meaning::Variable { t: _, reference: _ }) => call_variable(spot, ss, args, site),
        _ => Step::On(At::Rest),
    }
}

/// `m.p (..)` calls an exported procedure of a module.
fn call_module<'t>(
    n: u32,
    ss: &'t [Selector],
    args: &'t Vec<Actual>,
    site: Site<'t, '_>,
) -> Step<'t>
    ensures { (t : Tables) (line : ℕ) (w : Waiting) → step_ahead t (context (env_view site.entry.env) line) w result ≡ statements.from_module
        (context (env_view site.entry.env) line) n (last_field (selectors_view ss.now)) (actuals_view args.now.items) (remainder_of w)
        (on_rest (context (env_view site.entry.env) line) w) }
{
    match split_field(ss) {
        Some((_before, (name, _place))) => call_exported(n, name, args, site),
        None => Step::On(At::Rest),
    }
}

fn call_exported<'t>(n: u32, name: &Name, args: &'t Vec<Actual>, site: Site<'t, '_>) -> Step<'t>
    ensures { (t : Tables) (line : ℕ) (w : Waiting) → step_ahead t (context (env_view site.entry.env) line) w result ≡ statements.from_exported
        (context (env_view site.entry.env) line) n
        (scopes.meaning_in (scopes.scope_at site.entry.env.scopes.now.scopes (module_at site.entry.env.scopes.now n).scope) name.now)
        (actuals_view args.now.items) (remainder_of w) (on_rest (context (env_view site.entry.env) line) w) }
{
    let scopes = site.scopes();
    match member(scopes, scopes.module(n).scope, name) {
        Some(Meaning::Sub(p)) => {
            let callee = Callee::Module(n, scopes.sub_scope(p));
            passing(scopes.sub_formals(p), args, callee, site.alloc)
        }
        _ => Step::On(At::Rest),
    }
}

/// A single process is activated by its name, and its entry is called behind `.`.
fn call_process<'t>(
    n: u32,
    spot: TypedSpot,
    ss: &'t [Selector],
    args: &'t Vec<Actual>,
    site: Site<'t, '_>,
) -> Step<'t>
    ensures { (t : Tables) (line : ℕ) (w : Waiting) → step_ahead t (context (env_view site.entry.env) line) w result ≡ statements.from_called_process
        (context (env_view site.entry.env) line) n (typed_spot_view spot) (last_field (selectors_view ss.now)) (actuals_view args.now.items) (remainder_of w)
        (on_rest (context (env_view site.entry.env) line) w) }
{
    match split_field(ss) {
        Some((_before, (name, _place))) => {
            let m = name_in_process(site.env.scopes, n, name);
            call_entry(n, spot, &[], m, args, site)
        }
        None => activate(n, spot, &[], args, site),
    }
}

/// `d.e (..)` calls an entry where d is a process; else the whole is a process that is activated.
fn call_variable<'t>(
    spot: TypedSpot,
    ss: &'t [Selector],
    args: &'t Vec<Actual>,
    site: Site<'t, '_>,
) -> Step<'t>
    ensures { (t : Tables) (line : ℕ) (w : Waiting) → step_ahead t (context (env_view site.entry.env) line) w result ≡ statements.from_called_variable
        (context (env_view site.entry.env) line) (typed_spot_view spot) (selectors_view ss.now) (last_field (selectors_view ss.now))
        (actuals_view args.now.items) (remainder_of w) (on_rest (context (env_view site.entry.env) line) w) }
{
    let Some((before, (name, _place))) = split_field(ss) else {
        return activate_part(spot, ss, args, site)
    };
    match process_of_type(selected_type(before, spot.t, site.env), site.env) {
        Some(n) => {
            let m = name_in_process(site.env.scopes, n, name);
            call_entry(n, spot, before, m, args, site)
        }
        None => activate_part(spot, ss, args, site),
    }
}

/// A part of a variable is activated where it is a process.
fn activate_part<'t>(
    spot: TypedSpot,
    ss: &'t [Selector],
    args: &'t Vec<Actual>,
    site: Site<'t, '_>,
) -> Step<'t>
    ensures { (t : Tables) (line : ℕ) (w : Waiting) → step_ahead t (context (env_view site.entry.env) line) w result ≡ statements.from_called_variable
        (context (env_view site.entry.env) line) (typed_spot_view spot) (selectors_view ss.now) None (actuals_view args.now.items) (remainder_of w)
        (on_rest (context (env_view site.entry.env) line) w) }
{
    match process_of_type(selected_type(ss, spot.t, site.env), site.env) {
        Some(n) => activate(n, spot, ss, args, site),
        None => Step::On(At::Rest),
    }
}

/// A process of the n-th declaration is activated: the process comes before the arguments.
#[tactic(auto, using(crate::proofs::Rules::calls))]
fn activate<'t>(
    n: u32,
    spot: TypedSpot,
    ss: &'t [Selector],
    args: &'t Vec<Actual>,
    site: Site<'t, '_>,
) -> Step<'t>
    ensures { (t : Tables) (line : ℕ) (w : Waiting) → step_ahead t (context (env_view site.entry.env) line) w result ≡ statements.from_activation
        (context (env_view site.entry.env) line) (typed_spot_view spot) (selectors_view ss.now) (process_at site.entry.env.scopes.now n).formals
        (actuals_view args.now.items) (remainder_of w) }
{
    let formals = site.scopes().process_formals(n);
    Step::On(selected(spot, ss, Goal::ActivateWith(formals, all(args))))
}

/// A process of the n-th declaration, whose entry has this meaning there.
#[tactic(auto, using(crate::proofs::Rules::calls))]
fn call_entry<'t>(
    n: u32,
    spot: TypedSpot,
    ss: &'t [Selector],
    m: Option<Meaning>,
    args: &'t Vec<Actual>,
    site: Site<'t, '_>,
) -> Step<'t>
    ensures { (t : Tables) (line : ℕ) (w : Waiting) → step_ahead t (context (env_view site.entry.env) line) w result ≡ statements.from_entry
        (context (env_view site.entry.env) line) n (typed_spot_view spot) (selectors_view ss.now) m (actuals_view args.now.items) (remainder_of w)
        (on_rest (context (env_view site.entry.env) line) w) }
{
    match m {
        Some(Meaning::Entry(entry)) => {
            let formals = site.scopes().entry_formals(n, entry);
            Step::On(selected(spot, ss, Goal::EnterWith(entry, formals, all(args))))
        }
        _ => Step::On(At::Rest),
    }
}

/// `requeue q (..)`: its arguments are evaluated first.
pub(crate) fn requeue<'t>(name: &Name, args: &'t Vec<Actual>, site: Site<'t, '_>) -> Step<'t>
    ensures { (t : Tables) (line : ℕ) (w : Waiting) → step_ahead t (context (env_view site.entry.env) line) w result ≡ statements.from_requeue
        (context (env_view site.entry.env) line) (scopes.meaning_of (find (env_view site.entry.env) name.now)) (actuals_view args.now.items)
        (on_rest (context (env_view site.entry.env) line) w) }
{
    match site.meaning(name) {
        Some(Meaning::Sub(n)) => {
            let scopes = site.scopes();
            let callee = Callee::Requeue(scopes.sub_scope(n));
            passing(scopes.sub_formals(n), args, callee, site.alloc)
        }
        _ => Step::On(At::Rest),
    }
}
