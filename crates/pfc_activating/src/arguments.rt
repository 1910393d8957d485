//! The arguments of a call, as they are passed.
ghost use Rattle.std.specs.Prelude.{◌≡◌, IfOk, map};
ghost use Rattle.pfc_pending.specs.Waiting.{argument_view, given_view};
ghost use Rattle.pfc_store.specs.Views.{value_view, values_view, store_view};
ghost use Rattle.pfc_activating.specs.Passing.{passed_in};

use pfc_base::Memory;
use pfc_pending::Argument;
use pfc_store::{Display, Store, Value};
use std::alloc::Global;

/// An argument: its value, or where its variable lies. Its only refusal is want of memory.
fn one_passed(
    alloc: Global,
    store: &Store,
    display: &Display,
    arg: &Argument,
) -> Result<Value, Memory>
    ensures { IfOk result (λ v. value_view v ≡ passed_in (store_view store.now) display.now (argument_view arg.now)) }
{
    match arg {
        Argument::Value(v) => v.copy(alloc),
        Argument::Reference(spot) => { Ok(Value::pointing(store.located(alloc, display, spot)?)) }
    }
}

/// All arguments, in their order. Its only refusal is want of memory.
pub fn passed(
    alloc: Global,
    store: &Store,
    display: &Display,
    args: &[Argument],
) -> Result<Vec<Value>, Memory>
    ensures { IfOk result (λ vs. values_view vs.items ≡ map (passed_in (store_view store.now) display.now) (given_view args.now)) }
{
    let mut values = Vec::new(alloc);
    for arg in args {
        values.push(one_passed(alloc, store, display, arg)?)?;
    }
    Ok(values)
}
