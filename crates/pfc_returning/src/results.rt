//! The results of functions.
ghost use Rattle.std.specs.Prelude.{◌≡◌, IfOk};
ghost use Rattle.pfc_semantics.specs.Calls.{formals_of};
ghost use Rattle.pfc_semantics.specs.Layouts.{sub_with as sub_in};
ghost use Rattle.pfc_semantics.specs.Store.{variable};
ghost use Rattle.pfc_store.specs.Views.{value_view, store_view};
ghost use Rattle.pfc_returning.specs.Ending.{result_place};

use pfc_base::Memory;
use pfc_program::sub_with;
use pfc_store::{Location, Store, Value};
use pfc_types::Scopes;
use std::alloc::Global;

/// How many parameters the sub has whose scope has this number, none where there is no such sub.
fn formals_of(scopes: &Scopes, scope: u32) -> usize
    ensures { result ≡ formals_of (sub_in scopes.now.subs scope) }
{
    match sub_with(scopes, scope) {
        Some(n) => scopes.sub_formals(n).len(),
        None => 0,
    }
}

/// The result of a function, by the number of its activation and that of its scope: a variable behind the parameters. Its only refusal is want
/// of memory; a place past 2^32 counts as one.
pub(crate) fn result_in(
    alloc: Global,
    scopes: &Scopes,
    store: &Store,
    number: u64,
    scope: u32,
) -> Result<Value, Memory>
    ensures { IfOk result (λ v. value_view v ≡ variable (store_view store.now) (result_place scopes.now.subs number scope)) }
{
    let place = formals_of(scopes, scope);
    if place > 4_294_967_295 {
        return Err(Memory);
    }
    let result_at = Location {
        activation: number,
        variable: place as u32,
        selectors: Vec::new(alloc),
    };
    store.value_at(alloc, &result_at)
}
