//! The accept at which a process waits for callers of an entry.
ghost use Rattle.std.specs.Prelude.{◌≡◌, Some, IfOk};
ghost use Rattle.pfc_program.specs.declared.tables.Tables.{Tables};
ghost use Rattle.pfc_state.specs.declared.waits.Arm.TheVariants.{Accept as Entry};
ghost use Rattle.pfc_store.specs.Views.{store_view};
ghost use Rattle.pfc_meeting.specs.Meeting.{side_held};
ghost use Rattle.pfc_accepting.specs.Acting.{owner_side};

use pfc_activities::Activity;
use pfc_base::Memory;
use pfc_meeting::{Onward, met_at};
use pfc_pending::{Accepting, Offer};
use pfc_store::Store;
use pfc_world::Arm;

/// The owner of an entry that waits to accept it: at which accept, with the line of the statement in which it waits, and how it goes on
/// behind the accept.
#[derive(Clone, Copy)]
pub(crate) struct Owner<'t> {
    pub(crate) accepting: Accepting<'t>,
    pub(crate) line: u32,
    pub(crate) way: Onward<'t>,
}

/// The accept at which a process is met by a caller of this entry: its first. It is refused where the process offers no such thing, which
/// never comes in a run.
pub(crate) fn owner_of<'t>(
    store: &Store,
    activity: &Activity<'t>,
    entry: u32,
) -> Result<Owner<'t>, Memory>
    ensures { IfOk result (λ o. (t : Tables) → side_held t (store_view store.now) activity.now (Entry entry) ≡ Some (owner_side t activity.now o)) }
{
    let Some(met) = met_at(store, activity, Arm::Accept(entry))? else {
        return Err(Memory);
    };
    let Offer::Accept(accepting) = met.offered.offer else {
        return Err(Memory);
    };
    let way = Onward {
        kept: met.kept,
        replica: met.offered.replica,
        next: met.offered.next,
        stmts: met.offered.stmts,
    };
    Ok(Owner {
        accepting,
        line: met.line,
        way,
    })
}
