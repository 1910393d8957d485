//! Reads and writes of variables.
ghost use Rattle.std.specs.Prelude.{◌≡◌};

use std::marker::Model;

/// The steps to a part of a variable, outermost first: an index, or a field's place in its record, counted from 0. The
/// whole variable has none. A contract sees it as the list of the steps.
#[derive(Drop)]
pub struct Path {
    steps: Vec<i32>,
}

impl Model for Path {
    ghost use Rattle.std.specs.Prelude.{ℤ, List};

    ghost Value = { List ℤ };

    ghost view = { λ p. p.steps.items };
}

impl Path {
    /// The path of these steps.
    pub fn from_vec(steps: Vec<i32>) -> Path
        ensures { result ≡ steps.items }
    {
        Path { steps }
    }

    /// The steps of the path.
    pub fn steps(&self) -> &[i32]
        ensures { result.now ≡ self.now }
    {
        &self.steps
    }
}

/// Where a value lies: an activation by its number, one of its variables by its place in the layout of its block, and
/// a part of that variable.
#[derive(Drop)]
pub struct Spot {
    pub activation: u64,
    pub variable: u32,
    pub path: Path,
}

/// A read or a write of what lies at a spot.
#[derive(Drop)]
pub struct Access {
    pub spot: Spot,
    pub write: bool,
}

/// The accesses of an event, in any order. A contract sees them as a list.
#[derive(Drop)]
pub struct Accesses {
    accesses: Vec<Access>,
}

impl Model for Accesses {
    ghost use Rattle.std.specs.Prelude.{List};
    ghost use Rattle.pfc_hb.specs.declared.accesses.Access.{Access};

    ghost Value = { List Access };

    ghost view = { λ a. a.accesses.items };
}

impl Accesses {
    /// These accesses.
    pub fn from_vec(accesses: Vec<Access>) -> Accesses
        ensures { result ≡ accesses.items }
    {
        Accesses { accesses }
    }

    /// The accesses.
    pub fn as_slice(&self) -> &[Access]
        ensures { result.now ≡ self.now }
    {
        &self.accesses
    }
}
