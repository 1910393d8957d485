//! The join behind a `coend`.
ghost use Rattle.std.specs.Prelude.{◌≡◌, ◌==◌, ◌&&◌, if◌then◌else◌};
ghost use Rattle.pfc_state.specs.Stands.{is_at_coend};
ghost use Rattle.pfc_world.specs.Tables.{at};

use pfc_world::{State as Standing, Why, World};

/// Whether main waits at `coend`.
fn main_waits(world: &World) -> bool
    ensures { result ≡ is_at_coend (at world.now.rows 0) }
{
    // a table has a row for main
    world.processes() > 0 && matches!(world.state(0), Standing::Waiting(Why::Coend))
}

/// Whether the action of process p joins: main's does whose last one began a wait at `coend`.
pub(crate) fn joins(p: u32, waited: bool) -> bool
    ensures { result ≡ ((p == 0) && waited) }
{
    p == 0 && waited
}

/// Whether main's last action began a wait at `coend`, behind an action of process p which left this table.
pub(crate) fn waits_behind(p: u32, waited: bool, world: &World) -> bool
    ensures { result ≡ (if p == 0 then is_at_coend (at world.now.rows 0) else waited) }
{
    if p == 0 {
        return main_waits(world);
    }
    waited
}
