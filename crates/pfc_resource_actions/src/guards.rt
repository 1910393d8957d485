//! Guards by which a resource changes hands.
ghost use Rattle.std.specs.Prelude.{◌≡◌, ◌<◌, ℕ, Some, Ok, length};
ghost use Rattle.std.specs.List.{slice_get};
ghost use Rattle.pfc_code.specs.declared.instructions.Instr.{Instr};
ghost use Rattle.pfc_resource.specs.Scans.{IsBarredAt};
ghost use Rattle.pfc_stacks.specs.Stacks.{stack_of, own_number, block_place};
ghost use Rattle.pfc_world.specs.Tables.{at};
ghost use Rattle.pfc_world.specs.Tickets.{IsNew};
ghost use Rattle.pfc_machines.specs.Actions.{at_rest, Acts};
ghost use Rattle.pfc_machines.specs.Quiet.{acts, quiet_effect, tried_by};
ghost use Rattle.pfc_resource_actions.specs.Guards.{body_in, bars, passes, guards};
ghost use Rattle.pfc_resource_actions.specs.Scans.{Holds};

use crate::scans::end_scan;
use pfc_code::{Block, Image};
use pfc_machines::{Machine, Scan, leave};
use pfc_resource::{bar, pass_to, requeue};
use pfc_world::Running;

/// The address of the body of a block, by its number; 0 where there is no such block.
fn body_of(blocks: &[Block], k: u32) -> u32
    ensures { result ≡ body_in (slice_get blocks.now k) }
{
    match blocks.get(k as usize) {
        Some(block) => block.body,
        None => 0,
    }
}

/// The process's own guard is false.
fn bar_own(machine: &mut Machine, r: Running, g: u32)
    requires acts { Acts r.number machine.old }
    requires fresh { IsNew machine.old.world.rows machine.old.world.done }
    requires holds { Holds g r.number machine.old }
    ensures { machine.new ≡ at_rest (bars g r.number machine.old) }
{
    let p = r.number();
    let procedure = machine.stacks.block(p);
    leave(&mut machine.stacks, p, 1);
    bar(&mut machine.world, &mut machine.resources, r, g, procedure);
}

/// The guard of a barred process is true, which the process tried in a scan.
fn pass(machine: &mut Machine, image: &Image, r: Running, g: u32, scan: Scan, q: u32)
    requires acts { Acts r.number machine.old }
    requires fresh { IsNew machine.old.world.rows machine.old.world.done }
    requires holds { Holds g r.number machine.old }
    requires barred { IsBarredAt g (at machine.old.world.rows q) }
    ensures { machine.new ≡ at_rest (passes image.now.blocks.items scan q g r.number machine.old) }
{
    let p = r.number();
    machine.stacks.cut(p, 1);
    if scan.requeued {
        let procedure = machine.stacks.block(p);
        end_scan(machine, p, body_of(&image.blocks, procedure));
        requeue(
            &mut machine.world,
            &mut machine.resources,
            r,
            g,
            procedure,
            q,
        );
        return;
    }
    end_scan(machine, p, scan.back);
    pass_to(&mut machine.world, &mut machine.resources, g, q);
    machine.world.rest(r);
}

/// `GRD` where it is an action. The process's own guard is false: it waits behind the guard, barred at its procedure, and the resource goes to the
/// first entrant, or else is free. The guard of another is true, tried in a scan: that one has the resource and is ready, at its body; behind a
/// return the process goes on behind its call, and behind a requeue it waits at its body, barred at its new procedure.
pub fn guard(machine: &mut Machine, image: &Image, r: Running, g: u32)
    requires acts { Acts r.number machine.old }
    requires fresh { IsNew machine.old.world.rows machine.old.world.done }
    requires holds { Holds g r.number machine.old }
    requires action { quiet_effect image.now.scans.items (Instr.GRD g) r.number machine.old ≡ acts }
    requires barred { (q : ℕ) → tried_by machine.old r.number ≡ Some q → IsBarredAt g (at machine.old.world.rows q) }
    ensures { guards image.now.blocks.items g r.number machine.old ≡ Ok machine.new }
{
    let p = r.number();
    if let Some(scan) = machine.descriptors.scan(p) {
        if let Some(q) = scan.tried {
            return pass(machine, image, r, g, scan, q);
        }
    }
    bar_own(machine, r, g);
}
