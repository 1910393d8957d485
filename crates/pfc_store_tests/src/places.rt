//! Spots in a block that has a reference parameter, and where they lie.

use pfc_base::Memory;
use pfc_store::{Display, Frame, Location, Selector, Spot, Store, Value, first_value};
use pfc_types::{TypeFault, TypeForm, TypeId, TypeTable};
use std::alloc::Global;

/// The scope of the block, and the number of its activation.
const BLOCK: u32 = 3;

const ACTIVATION: u64 = 7;

/// The scope, the variable and the places of a spot, and the ordinal that is put there. Main has an array of two arrays of three, and a
/// number; the block has a reference to the second of these arrays, and a number.
const PUT: [(u32, u32, &[u32], i64); 6] = [
    (0, 0, &[0, 0], 10),
    (0, 0, &[1, 2], 12),
    (0, 1, &[], 20),
    (BLOCK, 0, &[0], 30),
    (BLOCK, 1, &[], 40),
    (BLOCK, 0, &[2], 50),
];

/// What lies at each spot then; where there is no such part it is 0.
const READ: [(u32, u32, &[u32], i64); 9] = [
    (0, 0, &[0, 0], 10),
    (0, 0, &[0, 1], 0),
    (0, 0, &[1, 0], 30),
    (0, 0, &[1, 2], 50),
    (0, 0, &[2, 0], 0),
    (0, 1, &[], 20),
    (BLOCK, 0, &[2], 50),
    (BLOCK, 1, &[], 40),
    (BLOCK, 2, &[], 0),
];

fn steps(alloc: Global, places: &[u32]) -> Result<Vec<Selector>, Memory> {
    let mut selectors = Vec::new(alloc);
    for place in places {
        selectors.push(Selector {
            place: *place,
            index: 0,
        })?;
    }
    Ok(selectors)
}

fn spot(alloc: Global, scope: u32, variable: u32, places: &[u32]) -> Result<Spot, Memory> {
    Ok(Spot {
        scope,
        variable,
        selectors: steps(alloc, places)?,
    })
}

/// An array of integers with these bounds, or of another type.
fn array(types: &mut TypeTable, low: i32, high: i32, element: TypeId) -> Result<TypeId, TypeFault> {
    types.add(TypeForm::Array {
        index: TypeId::INTEGER,
        low,
        high,
        element,
    })
}

/// The first value of an array of two arrays of three.
fn matrix(alloc: Global) -> Result<Value, Memory> {
    let mut types = TypeTable::new(alloc)?;
    let row = array(&mut types, -1, 1, TypeId::INTEGER).map_err(|_| Memory)?;
    let whole = array(&mut types, 5, 6, row).map_err(|_| Memory)?;
    first_value(alloc, &types, whole)
}

/// Main's variables, and those of the block.
fn store(alloc: Global) -> Result<Store, Memory> {
    let mut main = Vec::new(alloc);
    main.push(matrix(alloc)?)?;
    main.push(Value::of(0))?;
    let second = Location {
        activation: 0,
        variable: 0,
        selectors: steps(alloc, &[1])?,
    };
    let mut own = Vec::new(alloc);
    own.push(Value::pointing(second))?;
    own.push(Value::of(0))?;
    let mut store = Store::with_main(alloc, main);
    store.add(ACTIVATION, own)?;
    Ok(store)
}

/// Whether each spot reads as the table says once all are put; none of the block's does when it has ended.
fn reads_what_is_put(alloc: Global) -> Result<bool, Memory> {
    let mut store = store(alloc)?;
    let frame = Frame {
        scope: BLOCK,
        activation: ACTIVATION,
        first: 0,
    };
    let display = Display::new(alloc).inner(alloc, frame, 0)?;
    for (scope, variable, places, n) in &PUT {
        let spot = spot(alloc, *scope, *variable, places)?;
        let location = store.located(alloc, &display, &spot)?;
        store.put(&location, Value::of(*n));
    }
    for (scope, variable, places, n) in &READ {
        let spot = spot(alloc, *scope, *variable, places)?;
        if store.ordinal_in(&display, &spot) != *n {
            return Ok(false);
        }
    }
    store.remove(ACTIVATION);
    let own = spot(alloc, BLOCK, 1, &[])?;
    let outer = spot(alloc, 0, 1, &[])?;
    Ok(store.ordinal_in(&display, &own) == 0 && store.ordinal_in(&display, &outer) == 20)
}

#[test]
fn what_is_put_is_read(rt: HostRuntime) {
    assert!(rt; reads_what_is_put(rt.alloc()) == Ok(true));
}
