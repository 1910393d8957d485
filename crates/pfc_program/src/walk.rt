//! The walk over the declarations: each body becomes a block, and the names in view are counted.
ghost use Rattle.std.specs.Prelude.{◌≡◌, ◌++◌, ◌∷◌, [], take, drop, IfOk, OnOk};
ghost use Rattle.pfc_tree.specs.views.Stmts.{body_view};
ghost use Rattle.pfc_tree.specs.views.Parts.{kind_view, part_view, parts_view, sub_view, module_view, process_view};
ghost use Rattle.pfc_types.specs.rules.Bodies as rules;
ghost use Rattle.pfc_types.specs.rules.Statements.{body_scopes};
ghost use Rattle.pfc_types.specs.Scopes as scopes;
ghost use Rattle.pfc_semantics.specs.Layouts as layouts;
ghost use Rattle.pfc_semantics.specs.Programs as programs;
ghost use Rattle.pfc_program.specs.Views.{tables_view, block_view, blocks_view, guard_view, names_view};

use crate::blocks::{Numbers, block_of};
use crate::counts::{behind_body, behind_part, behind_parts, following};
use crate::layouts::{process_layout, sub_layout};
use crate::names::onto;
use crate::{Block, Guard, Level, Names, Tables};
use pfc_base::Memory;
use pfc_rules::around::{PROCESS, around_guard, around_sub};
use pfc_rules::passing::{names_in, passed, passed_entries, passed_groups, passed_part};
use pfc_tree::{Module, Part, Process, Sub, SubKind};
use pfc_types::Around;
use std::alloc::Global;

/// The block in which parts stand, over finished declarations.
#[derive(Clone, Copy)]
pub(crate) struct Home<'h> {
    pub alloc: Global,
    pub tables: Tables<'h>,
    /// Whether it is a process.
    pub process: bool,
    /// The number of its scope.
    pub scope: u32,
    /// What is in view around it, innermost first.
    pub outer: &'h [Level],
}

/// The block with this scope, in which `outer` is in view around.
fn inner<'h>(home: Home<'h>, process: bool, scope: u32, outer: &'h [Level]) -> Home<'h>
    ensures tables { result.tables ≡ home.entry.tables }
    ensures process { result.process ≡ process }
    ensures scope { result.scope ≡ scope }
    ensures outer { result.outer.now ≡ outer.now }
{
    Home {
        process,
        scope,
        outer,
        ..home
    }
}

/// What is in view around a block that stands behind the first names of this one.
fn around_block(home: Home, count: u32) -> Result<Vec<Level>, Memory>
    ensures { IfOk result (λ levels. levels.items ≡ rules.level home.entry.scope count ∷ home.entry.outer.now) }
{
    onto(home.alloc, Level::new(home.scope, count), home.outer)
}

/// What is known in the body of a block, in which all its names are in view.
pub(crate) fn names_here(home: Home, around: Around) -> Result<Names, Memory>
    ensures { IfOk result (λ names. names_view home.entry.tables names ≡ rules.env_at (tables_view home.entry.tables)
        (scopes.here home.entry.tables.scopes.now.scopes home.entry.scope home.entry.outer.now) around) }
{
    let level = Level::new(home.scope, names_in(home.tables.scopes, home.scope));
    Names::new(home.alloc, level, home.outer, around)
}

/// The guard of a sub, where it has one. Its own scope holds `own` parameters, which are in view in it, with the first `count` names
/// of the block around.
fn guard_of<'a>(
    kind: &'a SubKind,
    scope: u32,
    own: u32,
    count: u32,
    home: Home,
) -> Result<Option<Guard<'a>>, Memory>
    ensures { IfOk result (λ guard. guard_view home.entry.tables guard ≡ programs.guard_of (rules.env_at (tables_view home.entry.tables)
        (rules.level scope own ∷ rules.level home.entry.scope count ∷ home.entry.outer.now) (rules.around_guard home.entry.scope)) (kind_view kind.now)) }
{
    match kind {
        SubKind::Procedure | SubKind::Function(_, _) => Ok(None),
        SubKind::Guarded(test, place) => {
            let behind = around_block(home, count)?;
            let names = Names::new(
                home.alloc,
                Level::new(scope, own),
                &behind,
                around_guard(home.scope),
            )?;
            Ok(Some(Guard {
                names,
                test,
                line: place.line,
            }))
        }
    }
}

/// Adds a block behind the others.
pub(crate) fn put<'a>(
    blocks: &mut Vec<Block<'a>>,
    block: Block<'a>,
    tables: Tables,
) -> Result<(), Memory>
    ensures { OnOk result (blocks_view tables.entry blocks.new.items ≡ blocks_view tables.entry blocks.old.items ++ block_view tables.entry block.entry ∷ []) }
{
    blocks.push(block)?;
    Ok(())
}

/// The blocks of a part, behind those before it. `count` names of its block were declared before it, and `next` is the number of the
/// next scope of the text.
#[cycle(parts)]
fn part<'a>(
    p: &'a Part,
    count: u32,
    next: u32,
    home: Home,
    blocks: &mut Vec<Block<'a>>,
) -> Result<(), Memory>
    ensures { OnOk result (blocks_view home.entry.tables blocks.new.items ≡ blocks_view home.entry.tables blocks.old.items ++ programs.part_blocks
        (tables_view home.entry.tables) home.entry.process home.entry.scope count home.entry.outer.now next (part_view p.now)) }
{
    match p {
        Part::Consts(_) | Part::Types(_) | Part::Vars(_) => Ok(()),
        Part::Sub(b) => sub(b, count, next, home, blocks),
        Part::Monitor(m) => module(m, count, next, home, blocks),
        Part::Resource(m) => module(m, count, next, home, blocks),
        Part::Process(q) => process(q, count, next, home, blocks),
    }
}

/// The blocks of the parts of a block, of whose names `count` stand before them.
#[cycle(parts)]
pub(crate) fn parts<'a>(
    ps: &'a [Part],
    count: u32,
    next: u32,
    home: Home,
    blocks: &mut Vec<Block<'a>>,
) -> Result<(), Memory>
    ensures { OnOk result (blocks_view home.entry.tables blocks.new.items ≡ blocks_view home.entry.tables blocks.old.items ++ programs.parts_blocks
        (tables_view home.entry.tables) home.entry.process home.entry.scope count home.entry.outer.now next (parts_view ps.now)) }
{
    let mut before = count;
    let mut after = next;
    for p in ps {
        part(p, before, after, home, blocks)?;
        before = passed_part(p, home.tables.scopes, home.scope, before);
        after = behind_part(p, after)?;
    }
    Ok(())
}

/// A procedure, a function or a guarded procedure. Its own name is in view behind its heading.
#[cycle(parts)]
fn sub<'a>(
    b: &'a Sub,
    count: u32,
    next: u32,
    home: Home,
    blocks: &mut Vec<Block<'a>>,
) -> Result<(), Memory>
    ensures { OnOk result (blocks_view home.entry.tables blocks.new.items ≡ blocks_view home.entry.tables blocks.old.items ++ programs.sub_blocks
        (tables_view home.entry.tables) home.entry.process home.entry.scope count home.entry.outer.now next (sub_view b.now)) }
{
    let own = passed_groups(&b.formals, home.tables.scopes, next, 0);
    let outer = around_block(home, passed(&b.name, home.tables.scopes, home.scope, count))?;
    let block = inner(home, home.process, next, &outer);
    let first = following(next)?;
    parts(&b.parts, own, first, block, blocks)?;
    let guard = guard_of(&b.kind, next, own, count, home)?;
    let made = sub_block(b, home.scope, behind_parts(&b.parts, first)?, guard, block)?;
    put(blocks, made, home.tables)
}

/// The block of a sub, which is declared in the scope `outer`; `next` is the number of the next scope of the text in its body.
fn sub_block<'a>(
    b: &'a Sub,
    outer: u32,
    next: u32,
    guard: Option<Guard<'a>>,
    home: Home,
) -> Result<Block<'a>, Memory>
    ensures { IfOk result (λ block. block_view home.entry.tables block ≡ programs.block_of home.entry.scope outer (rules.env_at (tables_view home.entry.tables)
        (scopes.here home.entry.tables.scopes.now.scopes home.entry.scope home.entry.outer.now) (rules.around_sub home.entry.process (kind_view b.now.kind)))
        next (body_view b.now.body) (layouts.sub_layout_at home.entry.tables.scopes.now home.entry.scope) 0 (guard_view home.entry.tables guard.entry)) }
{
    let names = names_here(home, around_sub(home.process, &b.kind))?;
    let layout = sub_layout(home.alloc, home.tables.scopes, home.scope)?;
    let numbers = Numbers {
        scope: home.scope,
        outer,
        next,
        accepts: 0,
    };
    block_of(numbers, names, &b.body, layout, guard, home.tables)
}

/// A monitor or a resource. Its own name is not in view in it.
#[cycle(parts)]
fn module<'a>(
    m: &'a Module,
    count: u32,
    next: u32,
    home: Home,
    blocks: &mut Vec<Block<'a>>,
) -> Result<(), Memory>
    ensures { OnOk result (blocks_view home.entry.tables blocks.new.items ≡ blocks_view home.entry.tables blocks.old.items ++ programs.module_blocks
        (tables_view home.entry.tables) home.entry.scope count home.entry.outer.now next (module_view m.now)) }
{
    let outer = around_block(home, count)?;
    let block = inner(home, false, next, &outer);
    parts(&m.parts, 0, following(next)?, block, blocks)
}

/// A process or a process type. Its own name is in view behind its heading.
#[cycle(parts)]
fn process<'a>(
    q: &'a Process,
    count: u32,
    next: u32,
    home: Home,
    blocks: &mut Vec<Block<'a>>,
) -> Result<(), Memory>
    ensures { OnOk result (blocks_view home.entry.tables blocks.new.items ≡ blocks_view home.entry.tables blocks.old.items ++ programs.process_blocks
        (tables_view home.entry.tables) home.entry.scope count home.entry.outer.now next (process_view q.now)) }
{
    let own = passed_groups(&q.formals, home.tables.scopes, next, 0);
    let own = passed_entries(&q.entries, home.tables.scopes, next, own);
    let outer = around_block(home, passed(&q.name, home.tables.scopes, home.scope, count))?;
    let block = inner(home, true, next, &outer);
    let first = following(next)?;
    parts(&q.parts, own, first, block, blocks)?;
    let made = process_block(q, home.scope, behind_parts(&q.parts, first)?, block)?;
    put(blocks, made, home.tables)
}

/// The block of a process, which is declared in the scope `outer`; `next` is the number of the next scope of the text in its body.
fn process_block<'a>(q: &'a Process, outer: u32, next: u32, home: Home) -> Result<Block<'a>, Memory>
    ensures { IfOk result (λ block. block_view home.entry.tables block ≡ programs.block_of home.entry.scope outer (rules.env_at (tables_view home.entry.tables)
        (scopes.here home.entry.tables.scopes.now.scopes home.entry.scope home.entry.outer.now) rules.around_process) next (body_view q.now.body)
        (layouts.process_layout (scopes.scope_at home.entry.tables.scopes.now.scopes home.entry.scope) (take (body_scopes (body_view q.now.body))
        (drop next home.entry.tables.scopes.now.scopes))) (body_scopes (body_view q.now.body)) None) }
{
    let names = names_here(home, PROCESS)?;
    let end = behind_body(&q.body, next)?;
    let layout = process_layout(home.alloc, home.tables.scopes, home.scope, next, end)?;
    let numbers = Numbers {
        scope: home.scope,
        outer,
        next,
        accepts: end - next,
    };
    block_of(numbers, names, &q.body, layout, None, home.tables)
}
