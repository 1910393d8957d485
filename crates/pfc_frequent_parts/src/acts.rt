//! Statements that are one action at once, without a value that comes before it.
ghost use Rattle.std.specs.Prelude.{◌≡◌, ℕ, [], IfSome};
ghost use Rattle.pfc_tree.specs.views.Exprs.{actuals_view, desig_view};
ghost use Rattle.pfc_tree.specs.views.Stmts.{stmt_view};
ghost use Rattle.pfc_tree.specs.trees.Exprs.{SelectorTrees};
ghost use Rattle.pfc_types.specs.Blocks.{sub_at};
ghost use Rattle.pfc_program.specs.declared.tables.Tables.{Tables};
ghost use Rattle.pfc_semantics.specs.Alternatives.{context};
ghost use Rattle.pfc_semantics.specs.Displays as displays;
ghost use Rattle.pfc_semantics.specs.Expressions.{from_args};
ghost use Rattle.pfc_semantics.specs.Predeclared as predeclared;
ghost use Rattle.pfc_semantics.specs.Remainders.{Action, to_procedure};
ghost use Rattle.pfc_semantics.specs.Rewriting.{from_remainder};
ghost use Rattle.pfc_semantics.specs.Statements.{from_call, from_called, from_procedure, from_receive, from_stmt};
ghost use Rattle.pfc_phrases.specs.Views.{env_view};
ghost use Rattle.pfc_pending.specs.Ahead.{deed_ahead};
ghost use Rattle.pfc_pending.specs.Waiting.{Waiting, remainder_of};

use crate::wholes::{first_whole, whole};
use pfc_facts::receiver_of;
use pfc_pending::{Callee, Deed, Offer};
use pfc_sites::Site;
use pfc_tree::{Actual, Desig, Stmt};
use pfc_types::{Meaning, PredeclaredName};

/// The action that a statement is, with the line of the statement.
#[derive(Drop)]
pub struct Acts<'t> {
    pub line: u32,
    pub deed: Deed<'t>,
}

/// The action that a statement is at once: a call of a procedure of the program without arguments, a `wait`, a `signal` and a `resume` at
/// variables as a whole, and a message that is received into one. None for any other.
pub fn action_of<'t>(s: &'t Stmt, site: Site<'t, '_>) -> Option<Acts<'t>>
    ensures { IfSome result (λ a. (t : Tables) (n : ℕ) (w : Waiting) → let env = env_view site.entry.env in
        deed_ahead t (context env a.line) w a.deed ≡ from_stmt env n (stmt_view s.now) (remainder_of w) (from_remainder env (remainder_of w))) }
{
    match s {
        Stmt::Call(d, args, p) => at_line(p.line, call(d, args, site)?),
        Stmt::Receive(d, v, p, _) => at_line(p.line, receive(d, v, site)?),
        _ => None,
    }
}

/// An action in a statement with this line.
fn at_line<'t>(line: u32, deed: Deed<'t>) -> Option<Acts<'t>>
    ensures { IfSome result (λ a. a ≡ record { line = line; deed = deed.entry }) }
{
    Some(Acts { line, deed })
}

/// A call.
#[tactic(auto, using(crate::proofs::Nodes::names))]
fn call<'t>(d: &Desig, args: &Vec<Actual>, site: Site<'t, '_>) -> Option<Deed<'t>>
    ensures { IfSome result (λ x. (t : Tables) (line : ℕ) (w : Waiting) → let c = context (env_view site.entry.env) line in
        deed_ahead t c w x ≡ from_call c (desig_view d.now) (actuals_view args.now.items) (remainder_of w) (from_remainder c.env (remainder_of w))) }
{
    called(site.meaning(&d.name), args.as_slice(), site)
}

/// A call of a name with this meaning.
fn called<'t>(m: Option<Meaning>, args: &[Actual], site: Site<'t, '_>) -> Option<Deed<'t>>
    ensures { IfSome result (λ x. (t : Tables) (line : ℕ) (s : displays.TypedSpot) (ss : SelectorTrees) (w : Waiting) (go : Action) →
        let c = context (env_view site.entry.env) line in
        deed_ahead t c w x ≡ from_called c m s ss (actuals_view args.now) (remainder_of w) go) }
{
    match m {
        Some(Meaning::Sub(n)) => alone(n, args, site),
        Some(Meaning::Predeclared(name)) => synchronises(name, args, site),
        _ => None,
    }
}

/// A procedure of the program, where it is called without arguments.
fn alone<'t>(n: u32, args: &[Actual], site: Site<'t, '_>) -> Option<Deed<'t>>
    ensures { IfSome result (λ x. (t : Tables) (line : ℕ) (w : Waiting) → let c = context (env_view site.entry.env) line in
        let head = sub_at c.env.state.blocks n in
        deed_ahead t c w x ≡ from_args c head.formals (actuals_view args.now) [] (to_procedure head.scope (remainder_of w))) }
{
    match args {
        [] => {
            let callee = Callee::Procedure(site.scopes().sub_scope(n));
            Some(Deed::Calls(callee, Vec::new(site.alloc)))
        }
        _ => None,
    }
}

/// A predeclared procedure of synchronisation.
fn synchronises<'t>(name: PredeclaredName, args: &[Actual], site: Site<'t, '_>) -> Option<Deed<'t>>
    ensures { IfSome result (λ x. (t : Tables) (line : ℕ) (w : Waiting) (go : Action) → let c = context (env_view site.entry.env) line in
        deed_ahead t c w x ≡ from_procedure c (predeclared.procedure_of name) (actuals_view args.now) (remainder_of w) go) }
{
    match name {
        PredeclaredName::Wait => Some(Deed::Waits(first_whole(args, site)?.spot)),
        PredeclaredName::Signal => Some(Deed::Signals(first_whole(args, site)?.spot)),
        PredeclaredName::Resume => Some(Deed::Resumes(first_whole(args, site)?.spot)),
        _ => None,
    }
}

/// `c ? v`: the channel before the variable.
fn receive<'t>(d: &Desig, v: &Desig, site: Site<'t, '_>) -> Option<Deed<'t>>
    ensures { IfSome result (λ x. (t : Tables) (line : ℕ) (w : Waiting) → let c = context (env_view site.entry.env) line in
        deed_ahead t c w x ≡ from_receive c (desig_view d.now) (desig_view v.now) (remainder_of w)) }
{
    let channel = whole(d, site)?.spot;
    match receiver_of(v, site.env) {
        None => Some(Deed::Meets(Offer::Receive(channel, None))),
        Some(d) => {
            let into = whole(d, site)?.spot;
            Some(Deed::Meets(Offer::Receive(channel, Some(into))))
        }
    }
}
