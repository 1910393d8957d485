//! What is known at a place of a body.
ghost use Rattle.std.specs.Prelude.{◌≡◌};
ghost use Rattle.pfc_types.specs.rules.Expressions.{find};
ghost use Rattle.pfc_phrases.specs.Views.{env_view};

use pfc_base::Name;
use pfc_types::{Around, Found, Scopes, TypeTable, View, find};

/// What is known at a place of a body: the finished table and scopes, the names in view, and the tree around.
#[derive(Clone, Copy)]
pub struct Env<'a> {
    pub types: &'a TypeTable,
    pub scopes: &'a Scopes,
    pub view: &'a View<'a>,
    pub around: Around,
}

/// What a name is there, None exactly where it is not in view.
pub fn find_in(env: Env, name: &Name) -> Option<Found>
    ensures { result ≡ find (env_view env.entry) name.now }
{
    find(env.scopes, env.view, name)
}
