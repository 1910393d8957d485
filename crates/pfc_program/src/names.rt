//! The names in view at a place of a body.
ghost use Rattle.std.specs.Prelude.{◌≡◌, ◌∷◌, IfOk, IfSome};
ghost use Rattle.pfc_types.specs.Scopes.{found_at, predeclared};
ghost use Rattle.pfc_types.specs.rules.Expressions as rules;
ghost use Rattle.pfc_types.specs.rules.Statements.{within_accept};
ghost use Rattle.pfc_program.specs.Held.{IsHeld};
ghost use Rattle.pfc_program.specs.Views.{names_view};

use crate::Tables;
use pfc_base::{Memory, Name};
use pfc_rules::passing::names_in;
use pfc_types::{Around, Found, View};
use std::alloc::Global;
use std::marker::Model;

/// A scope, by its number in the order of the text, and how many of its names are in view.
#[derive(Clone, Copy)]
pub struct Level {
    pub scope: u32,
    pub count: u32,
}

impl Model for Level {
    ghost use Rattle.pfc_types.specs.Scopes as scopes;

    ghost Value = { scopes.Level };

    ghost view = { λ l. record { scope = l.scope; count = l.count } };

    ghost inverse = { λ l. record { scope = l.scope; count = l.count } };
}

impl Level {
    /// The first names of a scope, so many.
    pub(crate) fn new(scope: u32, count: u32) -> Level
        ensures { result ≡ record { scope = scope; count = count } }
    {
        Level { scope, count }
    }
}

/// The names in view at a place, innermost scope first, and what the tree around says of the place. A contract sees these two.
#[derive(Drop)]
pub struct Names {
    levels: Vec<Level>,
    around: Around,
}

impl Model for Names {
    ghost use Rattle.pfc_program.specs.InView.{InView};

    ghost Value = { InView };

    ghost view = { λ n. record { view = n.levels.items; around = n.around } };
}

/// One level, and around it those that are in view outside.
pub(crate) fn onto(alloc: Global, level: Level, outer: &[Level]) -> Result<Vec<Level>, Memory>
    ensures { IfOk result (λ levels. levels.items ≡ level ∷ outer.now) }
{
    let mut levels = Vec::new(alloc);
    levels.push(level)?;
    levels.extend_from_slice(outer)?;
    Ok(levels)
}

impl Names {
    /// What is in view with one level in front of those outside, in such a place.
    pub(crate) fn new(
        alloc: Global,
        level: Level,
        outer: &[Level],
        around: Around,
    ) -> Result<Names, Memory>
        ensures { IfOk result (λ names. names ≡ record { view = level ∷ outer.now; around = around }) }
    {
        let levels = onto(alloc, level, outer)?;
        Ok(Names { levels, around })
    }

    /// The levels, innermost first.
    pub fn levels(&self) -> &[Level]
        ensures { result.now ≡ self.now.view }
    {
        &self.levels
    }

    /// What the tree around says of the place.
    pub fn around(&self) -> Around
        ensures { result ≡ self.now.around }
    {
        self.around
    }

    /// An equal copy.
    pub fn copy(&self, alloc: Global) -> Result<Names, Memory>
        ensures { IfOk result (λ names. names ≡ self.now) }
    {
        let levels = Vec::from_slice(alloc, &self.levels)?;
        Ok(Names {
            levels,
            around: self.around,
        })
    }

    /// The names in view in the statement of an accept, whose parameters have the scope with this number.
    pub fn within_accept(&self, alloc: Global, tables: Tables, scope: u32) -> Result<Names, Memory>
        ensures { IfOk result (λ names. names_view tables.entry names ≡ within_accept (names_view tables.entry self.now) scope) }
    {
        let parameters = Level::new(scope, names_in(tables.scopes, scope));
        Names::new(alloc, parameters, &self.levels, self.around)
    }
}

/// What a name in view is, None exactly where it is not in view. It takes no memory.
pub fn find(tables: Tables, names: &Names, name: &Name) -> Option<Found>
    ensures value { result ≡ rules.find (names_view tables.entry names.now) name.now }
    ensures held { IfSome result (λ f. IsHeld tables.entry.scopes.now.scopes f) }
{
    let levels: &[Level] = names.levels();
    for level in levels {
        let found = find_at(tables, *level, name);
        if found.is_some() {
            return found;
        }
    }
    find_predeclared(tables, name)
}

/// What a name is among the first names of one scope.
fn find_at(tables: Tables, level: Level, name: &Name) -> Option<Found>
    ensures value { result ≡ found_at tables.entry.scopes.now.scopes level name.now }
    ensures held { IfSome result (λ f. IsHeld tables.entry.scopes.now.scopes f) }
{
    if tables.scopes.len() <= level.scope {
        return None;
    }
    let names = tables.scopes.at(level.scope);
    let (place, meaning) = names.look_up(name)?;
    if level.count <= place {
        return None;
    }
    Some(Found {
        scope: Some(level.scope),
        place,
        meaning,
    })
}

/// What a predeclared name is: one in view where no name of a scope is.
fn find_predeclared(tables: Tables, name: &Name) -> Option<Found>
    ensures { result ≡ predeclared name.now }
{
    let nowhere = View {
        scope: 0,
        count: 0,
        outer: None,
    };
    pfc_types::find(tables.scopes, &nowhere, name)
}
