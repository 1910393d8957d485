//! Where a step is taken: what the names mean there.
ghost use Rattle.std.specs.Prelude.{◌≡◌};

use pfc_base::Name;
use pfc_phrases::{Env, find_in, meaning_of};
use pfc_program::{NamedSpot, Program};
use pfc_store::{Spot, TypedSpot};
use pfc_types::{Found, Meaning, Scopes};
use std::alloc::Global;

/// What a step knows of the place of the text where it is taken: the program, and what is known at that place of a body of it.
#[derive(Clone, Copy)]
pub struct Site<'t, 'e> {
    pub alloc: Global,
    pub program: &'e Program<'t>,
    pub env: Env<'e>,
    ghost same: { env.scopes.now ≡ program.now.tables.scopes.now },
}

impl<'t, 'e> Site<'t, 'e> {
    ghost use Rattle.std.specs.Prelude.{IfSome};
    ghost use Rattle.pfc_types.specs.Scopes as scopes;
    ghost use Rattle.pfc_types.specs.rules.Expressions.{find};
    ghost use Rattle.pfc_semantics.specs.Expressions.{spot_of};
    ghost use Rattle.pfc_phrases.specs.Views.{env_view};
    ghost use Rattle.pfc_program.specs.Held.{IsHeld};
    ghost use Rattle.pfc_program.specs.Views.{spot_view};
    ghost use Rattle.pfc_store.specs.Views.{typed_spot_view};

    /// The scopes of the program.
    pub fn scopes(self) -> &'t Scopes
        ensures { result.now ≡ self.entry.env.scopes.now }
    {
        let program = self.program;
        program.tables.scopes
    }

    /// What a name means here.
    pub fn meaning(self, name: &Name) -> Option<Meaning>
        ensures { result ≡ scopes.meaning_of (find (env_view self.entry.env) name.now) }
    {
        meaning_of(find_in(self.env, name))
    }

    /// What a name is here: it stands in its scope.
    #[tactic(auto, using(crate::proofs::Held::held))]
    fn found(self, name: &Name) -> Option<Found>
        ensures value { result ≡ find (env_view self.entry.env) name.now }
        ensures held { IfSome result (IsHeld self.entry.program.now.tables.scopes.now.scopes) }
    {
        find_in(self.env, name)
    }

    /// The variable that a name stands for here.
    #[tactic(auto, using(crate::proofs::Held::held))]
    pub fn variable(self, name: &Name) -> NamedSpot
        ensures { spot_view result ≡ spot_of (env_view self.entry.env) (find (env_view self.entry.env) name.now) }
    {
        let program = self.program;
        program.spot(self.found(name))
    }

    /// The same, as a part of itself.
    pub fn spot(self, name: &Name) -> TypedSpot
        ensures { typed_spot_view result ≡ spot_of (env_view self.entry.env) (find (env_view self.entry.env) name.now) }
    {
        let variable = self.variable(name);
        TypedSpot {
            spot: Spot {
                scope: variable.scope,
                variable: variable.variable,
                selectors: Vec::new(self.alloc),
            },
            t: variable.t,
        }
    }
}
