//! Whose guard a scan tries next.
ghost use Rattle.std.specs.Prelude.{◌≡◌, ◌<◌, ℕ, Option, length, option_map};
ghost use Rattle.pfc_state.specs.Stands.{ticket_of};
ghost use Rattle.pfc_world.specs.Tables.{at};
ghost use Rattle.pfc_program.specs.declared.tables.Tables.{Tables};
ghost use Rattle.pfc_semantics.specs.Resources as definitions;
ghost use Rattle.pfc_activities.specs.declared.activities.Activity.{Activity};
ghost use Rattle.pfc_activities.specs.declared.activities.Doing.{Doing};
ghost use Rattle.pfc_activities.specs.Relation.{IsIn};
ghost use Rattle.pfc_activities.specs.Views.{hand_view};
ghost use Rattle.pfc_pending.specs.Waiting.{tried_view};
ghost use Rattle.pfc_guarding.specs.Trying.{hand_at, IsNext};

use pfc_activities::{Hand, State};
use pfc_pending::{Bar, Tried};

/// The guard at which a process shows that it is barred; None where it shows none.
fn shown_bar<'t>(hand: &Hand<'t>) -> Option<Bar<'t>>
    ensures { (t : Tables) (d : Doing) (q : ℕ) (ticket : Option ℕ) →
        definitions.tried q (hand_at t result) ticket ≡ definitions.tried q (hand_view t d hand.now) ticket }
{
    match hand {
        Hand::Barred(bar) => Some(*bar),
        Hand::Empty => None,
        Hand::Offering(_) => None,
        Hand::Asking(_) => None,
    }
}

/// The process with the guard at which it is barred, and its ticket; None where it shows no guard.
fn barred_process<'t>(state: &State<'t>, q: u32) -> Option<Tried<'t>>
    requires { q < length state.now.world.rows }
    ensures { (t : Tables) (b : Activity) → IsIn state.now.activities.items q b →
        option_map (tried_view t) result ≡ definitions.tried q (hand_view t b.doing b.hand) (ticket_of (at state.now.world.rows q)) }
{
    let i = q as usize;
    if state.activities.len() <= i {
        return None;
    }
    let bar = shown_bar(&state.activities[i].hand)?;
    let ticket = state.world.ticket(q)?;
    Some(Tried {
        process: q,
        ticket,
        bar,
    })
}

/// The barred process of the resource with the least ticket above this one; None where there is none.
pub(crate) fn next_tried<'t>(state: &State<'t>, r: u32, after: Option<u64>) -> Option<Tried<'t>>
    ensures { IsNext state.now r after result }
{
    match state.world.next_barred(r, after) {
        Some(q) => barred_process(state, q),
        None => None,
    }
}
