//! Main's variables with their objects, and a layout with arguments.
ghost use Rattle.pfc_base.specs.Names.{IsName};

use pfc_base::{Memory, Name};
use pfc_store::{Objects, Value, main_variables, new_values};
use pfc_types::{Meaning, ModuleHead, ScopeFault, Scopes, TypeFault, TypeForm, TypeId, TypeTable};
use std::alloc::Global;

/// A variable of a type.
fn variable(t: TypeId) -> Meaning {
    Meaning::Variable {
        t,
        reference: false,
    }
}

/// `array [1 .. 2] of semaphore` and `channel of integer`, by their places behind the predeclared types.
fn types(alloc: Global) -> Result<TypeTable, Memory> {
    let mut types = TypeTable::new(alloc)?;
    let semaphores = TypeForm::Array {
        index: TypeId::INTEGER,
        low: 1,
        high: 2,
        element: TypeId::SEMAPHORE,
    };
    types.add(semaphores).map_err(|_: TypeFault| Memory)?;
    types
        .add(TypeForm::Channel(TypeId::INTEGER))
        .map_err(|_: TypeFault| Memory)?;
    Ok(types)
}

/// A name of a scope.
fn declare(
    alloc: Global,
    scopes: &mut Scopes,
    i: u32,
    name: &[u8],
    meaning: Meaning,
) -> Result<(), Memory>
    requires { IsName name.now }
{
    scopes
        .declare(i, Name::new(alloc, name)?, meaning)
        .map_err(|_: ScopeFault| Memory)
}

/// A semaphore, a resource with an integer, a monitor with a condition and an integer, two semaphores, a channel and a process.
fn scopes(alloc: Global) -> Result<Scopes, Memory> {
    let mut scopes = Scopes::new(alloc);
    for _ in 0..3 {
        scopes.open(alloc)?;
    }
    for (scope, resource) in [(1, true), (2, false)] {
        scopes.add_module(ModuleHead { scope, resource })?;
    }
    declare(alloc, &mut scopes, 0, b"s", variable(TypeId::SEMAPHORE))?;
    declare(alloc, &mut scopes, 0, b"r", Meaning::Module(0))?;
    declare(alloc, &mut scopes, 0, b"m", Meaning::Module(1))?;
    declare(alloc, &mut scopes, 0, b"a", variable(TypeId { place: 6 }))?;
    declare(alloc, &mut scopes, 0, b"c", variable(TypeId { place: 7 }))?;
    declare(alloc, &mut scopes, 0, b"p", Meaning::Process(4))?;
    declare(alloc, &mut scopes, 1, b"n", variable(TypeId::INTEGER))?;
    declare(alloc, &mut scopes, 2, b"q", variable(TypeId::CONDITION))?;
    declare(alloc, &mut scopes, 2, b"k", variable(TypeId::INTEGER))?;
    Ok(scopes)
}

/// The ordinal of each of main's variables in the order of its layout, 0 for the array.
const ORDINALS: [i64; 7] = [0, 0, 0, 0, 0, 0, 1];

/// Whether these are the objects.
fn are_counted(objects: &Objects) -> bool {
    objects.semaphores == 3
        && objects.channels == 1
        && objects.conditions.as_slice() == [0].as_slice()
        && objects.processes.as_slice() == [4].as_slice()
}

/// Whether the second semaphore of the array is the third of all.
fn is_third(value: Option<&Value>) -> bool {
    match value {
        Some(Value::Compound(parts)) => parts.get(1).map_or(-1, |part| part.ordinal()) == 2,
        Some(_) | None => false,
    }
}

fn are_numbered(alloc: Global) -> Result<bool, Memory> {
    let (values, objects) = main_variables(alloc, &types(alloc)?, &scopes(alloc)?)?;
    let mut ordinals = Vec::new(alloc);
    for value in &values {
        ordinals.push(value.ordinal())?;
    }
    Ok(
        ordinals.as_slice() == ORDINALS.as_slice()
            && are_counted(&objects)
            && is_third(values.get(4)),
    )
}

/// An argument stands in its place, and the first values behind it.
fn are_behind_arguments(alloc: Global) -> Result<bool, Memory> {
    let mut args = Vec::new(alloc);
    args.push(Value::of(9))?;
    let layout = [variable(TypeId::INTEGER), variable(TypeId { place: 6 })];
    let values = new_values(alloc, &types(alloc)?, &layout, args)?;
    Ok(values.len() == 2 && values.get(0).map_or(0, |value| value.ordinal()) == 9)
}

#[test]
fn objects_are_numbered(rt: HostRuntime) {
    assert!(rt; are_numbered(rt.alloc()) == Ok(true));
}

#[test]
fn first_values_are_behind_arguments(rt: HostRuntime) {
    assert!(rt; are_behind_arguments(rt.alloc()) == Ok(true));
}
