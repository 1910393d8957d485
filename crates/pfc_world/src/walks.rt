//! Walks over the rows of the table.
ghost use Rattle.std.specs.Prelude.{◌≡◌, map};
ghost use Rattle.pfc_state.specs.Stands.{started};
ghost use Rattle.pfc_world.specs.Rows.{seat_by};

use pfc_state::Row;

/// Who is created is ready.
pub(crate) fn start_all(rows: &mut [Row])
    ensures { rows.new ≡ map (seat_by started) rows.old }
{
    for row in rows.iter_mut() {
        row.start_created();
    }
}
