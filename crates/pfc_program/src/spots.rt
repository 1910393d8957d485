//! Variables in view.
use crate::Program;
use pfc_phrases::sort_value;
use pfc_types::{Found, Meaning, TypeId};

/// A variable in view, without selectors: its scope, its place in the layout of its block and its type. A single process has no type.
#[derive(Clone, Copy, Debug, PartialEq, Eq)]
pub struct NamedSpot {
    pub scope: u32,
    pub variable: u32,
    pub t: Option<TypeId>,
}

/// What is no variable.
const NO_SPOT: NamedSpot = NamedSpot {
    scope: 0,
    variable: 0,
    t: None,
};

impl<'a> Program<'a> {
    ghost use Rattle.std.specs.Prelude.{◌≡◌, ◌<◌, length, IfSome};
    ghost use Rattle.pfc_types.specs.Scopes.{scope_at};
    ghost use Rattle.pfc_semantics.specs.Layouts.{variable_place};
    ghost use Rattle.pfc_semantics.specs.Expressions as expressions;
    ghost use Rattle.pfc_program.specs.InView.{InView};
    ghost use Rattle.pfc_program.specs.Held.{IsHeld};
    ghost use Rattle.pfc_program.specs.Views.{names_view, spot_view};

    /// The variable that a name was found to be. The name of a function stands for its result; what is no variable is place 0 of the
    /// program's scope.
    pub fn spot(&self, found: Option<Found>) -> NamedSpot
        requires { IfSome found (IsHeld self.now.tables.scopes.now.scopes) }
        ensures { (names : InView) → spot_view result ≡ expressions.spot_of (names_view self.now.tables names) found }
    {
        match found {
            Some(f) => self.found_spot(f),
            None => NO_SPOT,
        }
    }

    /// The variable that a name is which was found.
    fn found_spot(&self, f: Found) -> NamedSpot
        requires { IsHeld self.now.tables.scopes.now.scopes f }
        ensures { spot_view result ≡ expressions.found_spot self.now.tables.scopes.now f.scope f }
    {
        match f.scope {
            Some(i) => self.named_spot(i, f.place, f.meaning),
            None => NO_SPOT,
        }
    }

    /// The variable that the k-th name of the scope i is, which has this meaning.
    fn named_spot(&self, i: u32, k: u32, m: Meaning) -> NamedSpot
        requires scope { i < length self.now.tables.scopes.now.scopes }
        requires place { k < length (scope_at self.now.tables.scopes.now.scopes i) }
        ensures { spot_view result ≡ expressions.named_spot self.now.tables.scopes.now i k m }
    {
        match m {
            Meaning::Variable { t, reference: _ } => NamedSpot {
                scope: i,
                variable: self.variable_place(i, k),
                t: Some(t),
            },
            Meaning::Process(_) => NamedSpot {
                scope: i,
                variable: self.variable_place(i, k),
                t: None,
            },
            Meaning::Sub(n) => NamedSpot {
                scope: self.tables.scopes.sub_scope(n),
                variable: self.places.result(n),
                t: sort_value(self.tables.scopes.sub_sort(n)),
            },
            _ => NO_SPOT,
        }
    }

    /// The place of the k-th name of the scope i in the layout of its block.
    pub fn variable_place(&self, i: u32, k: u32) -> u32
        requires scope { i < length self.now.tables.scopes.now.scopes }
        requires place { k < length (scope_at self.now.tables.scopes.now.scopes i) }
        ensures { result ≡ variable_place self.now.tables.scopes.now i k }
    {
        self.places.place(i, k)
    }
}
