//! The walk over parts: the broken rules of their guards and bodies are found in the order of the text, and the scopes and
//! the names in view are counted.
ghost use Rattle.std.specs.Prelude.{◌≡◌, ◌+◌, ◌<◌, ◌^◌, ◌∷◌};
ghost use Rattle.pfc_tree.specs.views.Stmts.{body_view};
ghost use Rattle.pfc_tree.specs.views.Parts.{kind_view, part_view, parts_view, sub_view, module_view, process_view};
ghost use Rattle.pfc_types.specs.Scopes.{here};
ghost use Rattle.pfc_types.specs.Views.{levels};
ghost use Rattle.pfc_types.specs.rules.Statements.{body_scopes, broken_body};
ghost use Rattle.pfc_types.specs.rules.Bodies as rules;
ghost use Rattle.pfc_phrases.specs.Found.{noted};
ghost use Rattle.pfc_phrases.specs.Views.{env_view};
ghost use Rattle.pfc_rules.specs.Homes.{finished_in, levels_around};

use crate::around::{NOWHERE, PROCESS, around_guard, around_sub};
use crate::heads::condition;
use crate::passing::{names_in, passed, passed_entries, passed_groups, passed_part};
use crate::statements::body;
use pfc_phrases::{Best, Env};
use pfc_tree::{Body, Module, Part, Process, Sub, SubKind};
use pfc_types::{Around, Scopes, TypeTable, View};

/// The block in which parts stand, over finished declarations.
#[derive(Clone, Copy)]
pub(crate) struct Home<'a> {
    pub types: &'a TypeTable,
    pub scopes: &'a Scopes,
    /// Whether it is a process.
    pub process: bool,
    /// The number of its scope.
    pub scope: u32,
    /// What is in view around it; None for the program's own block.
    pub outer: Option<&'a View<'a>>,
}

/// The first names of a block, and what is in view around it.
fn view_of(home: Home, count: u32) -> View
    ensures { levels result ≡ rules.level home.entry.scope count ∷ levels_around home.entry.outer }
{
    View {
        scope: home.scope,
        count,
        outer: home.outer,
    }
}

/// The block with this scope, in which `outer` is in view around.
fn inner<'a>(home: Home<'a>, process: bool, scope: u32, outer: &'a View<'a>) -> Home<'a>
    ensures finished { finished_in result ≡ finished_in home.entry }
    ensures process { result.process ≡ process }
    ensures scope { result.scope ≡ scope }
    ensures outer { levels_around result.outer ≡ levels outer.now }
{
    Home {
        process,
        scope,
        outer: Some(outer),
        ..home
    }
}

/// What is known at a place of a block.
fn env_at<'a>(home: Home<'a>, view: &'a View<'a>, around: Around) -> Env<'a>
    ensures { env_view result ≡ rules.env_at (finished_in home.entry) (levels view.now) around }
{
    Env {
        types: home.types,
        scopes: home.scopes,
        view,
        around,
    }
}

/// The guard of a sub, where it has one. 313: it is a boolean; at the expression.
fn guard(kind: &SubKind, env: Env, best: &mut Best)
    ensures { best.new ≡ noted best.old (rules.broken_when (env_view env.entry) (kind_view kind.now)) }
{
    match kind {
        SubKind::Guarded(e, _) => condition(e, env, best),
        SubKind::Procedure | SubKind::Function(_, _) => {}
    }
}

/// The guard of a sub, whose own scope is `own` and holds `count` parameters. `outer` is in view around the heading.
fn headed(kind: &SubKind, own: u32, count: u32, outer: &View, home: Home, best: &mut Best)
    ensures { best.new ≡ noted best.old (rules.broken_when (rules.env_at (finished_in home.entry) (rules.level own count ∷ levels outer.now)
        (rules.around_guard home.entry.scope)) (kind_view kind.now)) }
{
    let view = View {
        scope: own,
        count,
        outer: Some(outer),
    };
    guard(kind, env_at(home, &view, around_guard(home.scope)), best);
}

/// The body of a block, in which all its names are in view.
pub(crate) fn block_body(b: &Body, next: u32, around: Around, home: Home, best: &mut Best) -> u32
    requires { next + body_scopes (body_view b.now) < 2 ^ 32 }
    ensures next { result ≡ next + body_scopes (body_view b.now) }
    ensures best { best.new ≡ noted best.old
        (broken_body (rules.env_at (finished_in home.entry) (here home.entry.scopes.now.scopes home.entry.scope (levels_around home.entry.outer)) around) next
        (body_view b.now)) }
{
    let view = view_of(home, names_in(home.scopes, home.scope));
    body(b, next, env_at(home, &view, around), best)
}

/// The rules of a part. `count` names of its block were declared before it, and `next` is the number of the next scope of
/// the text; gives that behind the part.
#[cycle(parts)]
fn part(p: &Part, count: u32, next: u32, home: Home, best: &mut Best) -> u32
    requires { next + rules.part_scopes (part_view p.now) < 2 ^ 32 }
    ensures next { result ≡ next + rules.part_scopes (part_view p.now) }
    ensures best { best.new ≡ noted best.old (rules.broken_part (finished_in home.entry) home.entry.process home.entry.scope count
        (levels_around home.entry.outer) next (part_view p.now)) }
{
    match p {
        Part::Consts(_) | Part::Types(_) | Part::Vars(_) => next,
        Part::Sub(b) => sub(b, count, next, home, best),
        Part::Monitor(m) => module(m, count, next, home, best),
        Part::Resource(m) => module(m, count, next, home, best),
        Part::Process(q) => process(q, count, next, home, best),
    }
}

/// The rules of the parts of a block, of whose names `count` stand before them.
#[cycle(parts)]
pub(crate) fn parts(ps: &[Part], count: u32, next: u32, home: Home, best: &mut Best) -> u32
    requires { next + rules.parts_scopes (parts_view ps.now) < 2 ^ 32 }
    ensures next { result ≡ next + rules.parts_scopes (parts_view ps.now) }
    ensures best { best.new ≡ noted best.old (rules.broken_parts (finished_in home.entry) home.entry.process home.entry.scope count
        (levels_around home.entry.outer) next (parts_view ps.now)) }
{
    let mut before = count;
    let mut after = next;
    for p in ps {
        after = part(p, before, after, home, best);
        before = passed_part(p, home.scopes, home.scope, before);
    }
    after
}

/// A procedure, a function or a guarded procedure. Its own name is in view behind its heading.
#[cycle(parts)]
fn sub(b: &Sub, count: u32, next: u32, home: Home, best: &mut Best) -> u32
    requires { next + rules.sub_scopes (sub_view b.now) < 2 ^ 32 }
    ensures next { result ≡ next + rules.sub_scopes (sub_view b.now) }
    ensures best { best.new ≡ noted best.old (rules.broken_sub (finished_in home.entry) home.entry.process home.entry.scope count
        (levels_around home.entry.outer) next (sub_view b.now)) }
{
    let own = passed_groups(&b.formals, home.scopes, next, 0);
    let before = view_of(home, count);
    headed(&b.kind, next, own, &before, home, best);
    let outer = view_of(home, passed(&b.name, home.scopes, home.scope, count));
    let block = inner(home, home.process, next, &outer);
    let after = parts(&b.parts, own, next + 1, block, best);
    block_body(
        &b.body,
        after,
        around_sub(home.process, &b.kind),
        block,
        best,
    )
}

/// A monitor or a resource. Its own name is not in view in it.
#[cycle(parts)]
fn module(m: &Module, count: u32, next: u32, home: Home, best: &mut Best) -> u32
    requires { next + rules.module_scopes (module_view m.now) < 2 ^ 32 }
    ensures next { result ≡ next + rules.module_scopes (module_view m.now) }
    ensures best { best.new ≡ noted best.old (rules.broken_module (finished_in home.entry) home.entry.scope count
        (levels_around home.entry.outer) next (module_view m.now)) }
{
    let outer = view_of(home, count);
    let block = inner(home, false, next, &outer);
    let after = parts(&m.parts, 0, next + 1, block, best);
    match &m.body {
        Some(b) => block_body(b, after, NOWHERE, block, best),
        None => after,
    }
}

/// A process or a process type. Its own name is in view behind its heading.
#[cycle(parts)]
fn process(q: &Process, count: u32, next: u32, home: Home, best: &mut Best) -> u32
    requires { next + rules.process_scopes (process_view q.now) < 2 ^ 32 }
    ensures next { result ≡ next + rules.process_scopes (process_view q.now) }
    ensures best { best.new ≡ noted best.old (rules.broken_process (finished_in home.entry) home.entry.scope count
        (levels_around home.entry.outer) next (process_view q.now)) }
{
    let own = passed_groups(&q.formals, home.scopes, next, 0);
    let own = passed_entries(&q.entries, home.scopes, next, own);
    let outer = view_of(home, passed(&q.name, home.scopes, home.scope, count));
    let block = inner(home, true, next, &outer);
    let after = parts(&q.parts, own, next + 1, block, best);
    block_body(&q.body, after, PROCESS, block, best)
}
