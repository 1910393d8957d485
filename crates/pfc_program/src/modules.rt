//! The numbers of modules.
ghost use Rattle.std.specs.Prelude.{◌≡◌};
ghost use Rattle.pfc_semantics.specs.Objects as objects;

use pfc_types::Scopes;

/// The number of the n-th module of the text among those of its kind: monitors and resources are numbered apart.
pub fn module_number(scopes: &Scopes, n: u32) -> u32
    ensures { result ≡ objects.module_number scopes.now n }
{
    let resource = scopes.module(n).resource;
    let mut before = 0;
    for k in 0..n.min(scopes.modules()) {
        if scopes.module(k).resource == resource {
            before += 1;
        }
    }
    before
}
