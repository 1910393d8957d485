//! The main body, the initialising bodies and the ends of resources.
ghost use Rattle.std.specs.Prelude.{◌≡◌, ◌++◌, ◌∷◌, [], Some, None, IfOk, OnOk};
ghost use Rattle.pfc_tree.specs.views.Stmts.{body_view};
ghost use Rattle.pfc_tree.specs.views.Parts.{part_view, parts_view, module_view};
ghost use Rattle.pfc_types.specs.Scopes.{here, scope_at};
ghost use Rattle.pfc_semantics.specs.Layouts as layouts;
ghost use Rattle.pfc_semantics.specs.Programs as programs;
ghost use Rattle.pfc_program.specs.Views.{tables_view, block_view, blocks_view};

use crate::blocks::{Numbers, block_of};
use crate::counts::{behind_part, behind_parts, following};
use crate::layouts::main_layout;
use crate::walk::{Home, names_here, put};
use crate::{Block, Level, Tables};
use pfc_base::Memory;
use pfc_rules::around::{MAIN, NOWHERE};
use pfc_rules::passing::passed_part;
use pfc_tree::{Body, Module, Part};
use std::alloc::Global;

/// The main block, in whose body `next` is the number of the next scope of the text.
pub(crate) fn main_block<'a>(b: &'a Body, next: u32, home: Home) -> Result<Block<'a>, Memory>
    requires scope { home.scope ≡ 0 }
    requires outer { home.outer.now ≡ [] }
    ensures { IfOk result (λ block. block_view home.entry.tables block ≡ programs.block_of 0 0 (programs.env_of_main (tables_view home.entry.tables)) next
        (body_view b.now) (layouts.main_layout home.entry.tables.scopes.now (scope_at home.entry.tables.scopes.now.scopes 0)) 0 None) }
{
    let names = names_here(home, MAIN)?;
    let layout = main_layout(home.alloc, home.tables.scopes)?;
    let numbers = Numbers {
        scope: 0,
        outer: 0,
        next,
        accepts: 0,
    };
    block_of(numbers, names, b, layout, None, home.tables)
}

/// The initialising body of a module, where it has one. `count` names of the program stand before the module, whose scope is `scope`.
fn init<'a>(
    alloc: Global,
    m: &'a Module,
    count: u32,
    scope: u32,
    tables: Tables,
    modules: &mut Vec<Block<'a>>,
) -> Result<(), Memory>
    ensures { OnOk result (blocks_view tables.entry modules.new.items ≡ blocks_view tables.entry modules.old.items ++ programs.module_inits
        (tables_view tables.entry) count scope (module_view m.now)) }
{
    let Some(b) = &m.body else { return Ok(()) };
    let next = behind_parts(&m.parts, following(scope)?)?;
    let around = [Level::new(0, count)];
    let home = Home {
        alloc,
        tables,
        process: false,
        scope,
        outer: &around,
    };
    let block = init_block(b, next, home)?;
    put(modules, block, tables)
}

/// The block of an initialising body: its variables are main's.
fn init_block<'a>(b: &'a Body, next: u32, home: Home) -> Result<Block<'a>, Memory>
    ensures { IfOk result (λ block. block_view home.entry.tables block ∷ [] ≡ programs.init_block (tables_view home.entry.tables) home.entry.scope
        (here home.entry.tables.scopes.now.scopes home.entry.scope home.entry.outer.now) next (Some (body_view b.now))) }
{
    let names = names_here(home, NOWHERE)?;
    let numbers = Numbers {
        scope: home.scope,
        outer: 0,
        next,
        accepts: 0,
    };
    block_of(numbers, names, b, Vec::new(home.alloc), None, home.tables)
}

/// The initialising body of a part of the program, where it has one.
fn part_init<'a>(
    alloc: Global,
    p: &'a Part,
    count: u32,
    next: u32,
    tables: Tables,
    modules: &mut Vec<Block<'a>>,
) -> Result<(), Memory>
    ensures { OnOk result (blocks_view tables.entry modules.new.items ≡ blocks_view tables.entry modules.old.items ++ programs.part_inits
        (tables_view tables.entry) count next (part_view p.now)) }
{
    match p {
        Part::Monitor(m) => init(alloc, m, count, next, tables, modules),
        Part::Resource(m) => init(alloc, m, count, next, tables, modules),
        Part::Consts(_) | Part::Types(_) | Part::Vars(_) | Part::Sub(_) | Part::Process(_) => Ok(
            (),
        ),
    }
}

/// The initialising bodies of the parts of a program, in the order of the text.
pub(crate) fn inits<'a>(
    alloc: Global,
    ps: &'a [Part],
    tables: Tables,
) -> Result<Vec<Block<'a>>, Memory>
    ensures { IfOk result (λ modules. blocks_view tables.entry modules.items ≡ programs.parts_inits (tables_view tables.entry) 0 1 (parts_view ps.now)) }
{
    let mut modules = Vec::new(alloc);
    let mut before = 0;
    let mut after = 1;
    for p in ps {
        part_init(alloc, p, before, after, tables, &mut modules)?;
        before = passed_part(p, tables.scopes, 0, before);
        after = behind_part(p, after)?;
    }
    Ok(modules)
}

/// The line of each resource's final `end`, in the order of the text.
pub(crate) fn ends_of_resources(alloc: Global, ps: &[Part]) -> Result<Vec<u32>, Memory>
    ensures { IfOk result (λ ends. ends.items ≡ programs.ends_of_resources (parts_view ps.now)) }
{
    let mut ends = Vec::new(alloc);
    for p in ps {
        if let Part::Resource(m) = p {
            ends.push(m.last.line)?;
        }
    }
    Ok(ends)
}
