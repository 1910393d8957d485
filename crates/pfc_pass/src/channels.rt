//! Channels.
ghost use Rattle.std.specs.Prelude.{◌≡◌, Some, false};
ghost use Rattle.pfc_state.specs.Waits.{is_select};
ghost use Rattle.pfc_world.specs.Channels.{passed_with, sent, received};
ghost use Rattle.pfc_world.specs.Firsts.{first};
ghost use Rattle.pfc_world.specs.Partners.{receiver, sender, ticket_open_to};
ghost use Rattle.pfc_world.specs.Tickets.{IsNew};
ghost use Rattle.pfc_state.specs.declared.waits.Arm.{Arm};
ghost use Rattle.pfc_pass.specs.Messages.{ActsAfter, IsMeeting};

use pfc_world::{Arm, Partner, Running, Why, World};

/// What became of the process that sends or receives.
pub enum Passed {
    /// It goes on. The partner is ready: behind its statement, or, where it waited in a select, at the alternative of
    /// this place, from 0, which is the first that the message meets.
    Met {
        r: Running,
        partner: u32,
        alternative: Option<u32>,
    },
    /// It waits, because nobody waits on the other side.
    Waits,
}

/// `c ! e` by the process that acts: it meets the process that has waited longest to receive from c, in a plain
/// statement or in a select, and that one is ready. It waits exactly where there is none.
pub fn send(world: &mut World, r: Running, c: u32) -> Passed
    requires acts { world.old.acting ≡ Some r.number }
    requires fresh { IsNew world.old.rows world.old.done }
    ensures table { world.new ≡ sent world.old r.number c }
    ensures answer { IsMeeting world.old.rows (receiver world.old.rows c) (Arm.Receive c) r.number result }
    ensures acting { ActsAfter result world.new.acting }
{
    pass(world, r, Arm::Receive(c), Why::Send(c))
}

/// `c ? v` by the process that acts: it meets the process that has waited longest to send to c, in a plain statement or
/// in a select, and that one is ready. It waits exactly where there is none.
pub fn receive(world: &mut World, r: Running, c: u32) -> Passed
    requires acts { world.old.acting ≡ Some r.number }
    requires fresh { IsNew world.old.rows world.old.done }
    ensures table { world.new ≡ received world.old r.number c }
    ensures answer { IsMeeting world.old.rows (sender world.old.rows c) (Arm.Send c) r.number result }
    ensures acting { ActsAfter result world.new.acting }
{
    pass(world, r, Arm::Send(c), Why::Receive(c))
}

/// The process that acts meets the first that is open to this, and else waits for this cause.
fn pass(world: &mut World, r: Running, open_to: Arm, why: Why) -> Passed
    requires acts { world.old.acting ≡ Some r.number }
    requires fresh { IsNew world.old.rows world.old.done }
    requires plain { is_select why ≡ false }
    ensures table { world.new ≡ passed_with (first (ticket_open_to open_to) world.old.rows) world.old r.number why }
    ensures answer { IsMeeting world.old.rows (first (ticket_open_to open_to) world.old.rows) open_to r.number result }
    ensures acting { ActsAfter result world.new.acting }
{
    match world.first_open_to(open_to) {
        Some(
            Partner {
                process,
                alternative,
            },
        ) => {
            world.wake(process);
            Passed::Met {
                r,
                partner: process,
                alternative,
            }
        }
        None => {
            world.block(r, why);
            Passed::Waits
        }
    }
}
