//! Counting the names of a scope that were declared before a place of the text.
ghost use Rattle.std.specs.Prelude.{◌≡◌, map, length};
ghost use Rattle.pfc_tree.specs.views.Types.{type_item_view, vars_view, group_view};
ghost use Rattle.pfc_tree.specs.views.Parts.{entry_view, part_view};
ghost use Rattle.pfc_types.specs.Scopes.{scope_at};
ghost use Rattle.pfc_types.specs.rules.Bodies as rules;

use pfc_base::{Name, Place};
use pfc_tree::{ConstItem, Entry, Group, Part, TypeItem, VarItem};
use pfc_types::Scopes;

/// How many names a scope holds, 0 where there is no such scope.
pub fn names_in(scopes: &Scopes, scope: u32) -> u32
    ensures { result ≡ length (scope_at scopes.now.scopes scope) }
{
    if scopes.len() <= scope {
        return 0;
    }
    scopes.at(scope).len()
}

/// One name more, unless it is repeated: then the first declaration was counted.
#[tactic(auto, using(crate::proofs::Counts::passed_all))]
pub fn passed(x: &Name, scopes: &Scopes, scope: u32, count: u32) -> u32
    ensures { result ≡ rules.passed (scope_at scopes.now.scopes scope) count x.now }
{
    if scopes.len() <= scope {
        return count;
    }
    let names = scopes.at(scope);
    if names.len() <= count {
        return count; // all of them are counted
    }
    if names.position(x) == Some(count) {
        count + 1
    } else {
        count
    }
}

fn passed_names(xs: &[(Name, Place)], scopes: &Scopes, scope: u32, count: u32) -> u32
    ensures { result ≡ rules.passed_names (scope_at scopes.now.scopes scope) count xs.now }
{
    let mut n = count;
    for x in xs {
        n = passed(&x.0, scopes, scope, n);
    }
    n
}

fn passed_consts(items: &[ConstItem], scopes: &Scopes, scope: u32, count: u32) -> u32
    ensures { result ≡ rules.passed_consts (scope_at scopes.now.scopes scope) count items.now }
{
    let mut n = count;
    for c in items {
        n = passed(&c.name, scopes, scope, n);
    }
    n
}

fn passed_types(items: &[TypeItem], scopes: &Scopes, scope: u32, count: u32) -> u32
    ensures { result ≡ rules.passed_types (scope_at scopes.now.scopes scope) count (map type_item_view items.now) }
{
    let mut n = count;
    for d in items {
        n = passed(&d.name, scopes, scope, n);
    }
    n
}

fn passed_vars(items: &[VarItem], scopes: &Scopes, scope: u32, count: u32) -> u32
    ensures { result ≡ rules.passed_vars (scope_at scopes.now.scopes scope) count (vars_view items.now) }
{
    let mut n = count;
    for v in items {
        n = passed_names(&v.names, scopes, scope, n);
    }
    n
}

/// The parameters of a heading.
pub fn passed_groups(groups: &[Group], scopes: &Scopes, scope: u32, count: u32) -> u32
    ensures { result ≡ rules.passed_groups (scope_at scopes.now.scopes scope) count (map group_view groups.now) }
{
    let mut n = count;
    for g in groups {
        n = passed_names(&g.names, scopes, scope, n);
    }
    n
}

/// The entries of a process.
pub fn passed_entries(entries: &[Entry], scopes: &Scopes, scope: u32, count: u32) -> u32
    ensures { result ≡ rules.passed_entries (scope_at scopes.now.scopes scope) count (map entry_view entries.now) }
{
    let mut n = count;
    for e in entries {
        n = passed(&e.name, scopes, scope, n);
    }
    n
}

/// The names that a part declares in the block in which it stands.
pub fn passed_part(p: &Part, scopes: &Scopes, scope: u32, count: u32) -> u32
    ensures { result ≡ rules.passed_part (scope_at scopes.now.scopes scope) count (part_view p.now) }
{
    match p {
        Part::Consts(items) => passed_consts(items, scopes, scope, count),
        Part::Types(items) => passed_types(items, scopes, scope, count),
        Part::Vars(items) => passed_vars(items, scopes, scope, count),
        Part::Sub(b) => passed(&b.name, scopes, scope, count),
        Part::Monitor(m) => passed(&m.name, scopes, scope, count),
        Part::Resource(m) => passed(&m.name, scopes, scope, count),
        Part::Process(q) => passed(&q.name, scopes, scope, count),
    }
}
