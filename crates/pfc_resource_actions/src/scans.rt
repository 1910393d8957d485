//! Turns of a scan.
ghost use Rattle.std.specs.Prelude.{◌≡◌, ◌≤◌, ◌<◌, Ok, IfSome, length, set};
ghost use Rattle.std.specs.List.{slice_get};
ghost use Rattle.pfc_stacks.specs.Stacks.{stack_of};
ghost use Rattle.pfc_machines.specs.Actions.{Acts};
ghost use Rattle.pfc_resource_actions.specs.Scans.{entry_in, scan_ended, tries, scanned_all, scans, Holds};

use pfc_code::{Block, Image};
use pfc_machines::{Machine, Scan};
use pfc_resource::{Barred, leave, scan_next};
use pfc_stacks::Stacks;
use pfc_world::Running;

/// The entry of a block, by its number; 0 where there is no such block.
fn entry_of(blocks: &[Block], k: u32) -> u32
    ensures { result ≡ entry_in (slice_get blocks.now k) }
{
    match blocks.get(k as usize) {
        Some(block) => block.entry,
        None => 0,
    }
}

/// A process goes on at an address, and counts static links from the last activation of another one where that is given.
fn go_on(stacks: &mut Stacks, p: u32, at: u32, from: Option<u32>)
    requires process { p < length stacks.old }
    requires other { IfSome from (λ q. q < length stacks.old) }
    ensures { stacks.new ≡ set stacks.old p (record (stack_of stacks.old p) { at = at; looks_from = from }) }
{
    stacks.go(p, at);
    stacks.look_from(p, from);
}

/// The process goes on at an address, behind its scan, and counts static links from its own activation.
pub(crate) fn end_scan(machine: &mut Machine, p: u32, at: u32)
    requires stack { p < length machine.old.stacks }
    requires descriptor { p < length machine.old.descriptors }
    ensures { machine.new ≡ scan_ended at p machine.old }
{
    go_on(&mut machine.stacks, p, at, None);
    machine.descriptors.set_scan(p, None);
}

/// The process goes on at the guard of a barred one, and counts static links from that one's activation.
fn try_guard(machine: &mut Machine, image: &Image, p: u32, scan: Scan, barred: Barred)
    requires stack { p < length machine.old.stacks }
    requires descriptor { p < length machine.old.descriptors }
    requires other { barred.process < length machine.old.stacks }
    ensures { machine.new ≡ tries image.now.blocks.items scan barred p machine.old }
{
    let entry = entry_of(&image.blocks, barred.procedure);
    go_on(&mut machine.stacks, p, entry, Some(barred.process));
    let now = Scan {
        after: Some(barred.ticket),
        tried: Some(barred.process),
        ..scan
    };
    machine.descriptors.set_scan(p, Some(now));
}

/// A turn that finds nobody.
fn end_turns(machine: &mut Machine, p: u32, g: u32, scan: Scan)
    requires stack { p < length machine.old.stacks }
    requires descriptor { p < length machine.old.descriptors }
    requires holds { Holds g p machine.old }
    ensures machine { machine.new ≡ scanned_all scan g p machine.old }
    ensures acting { machine.new.world.acting ≡ machine.old.world.acting }
{
    end_scan(machine, p, scan.back);
    if !scan.requeued {
        leave(&mut machine.world, &mut machine.resources, g);
    }
}

/// `SCAN`: the barred process of the least ticket above that of the turn before is next, and the process goes on at that one's guard. Without one
/// the scan is over: behind a return the resource goes to the first entrant, or else is free, and the process goes on behind its call; behind a
/// requeue the process keeps the resource, and goes on at its own guard.
pub fn scan(machine: &mut Machine, image: &Image, r: Running, g: u32)
    requires acts { Acts r.number machine.old }
    requires holds { Holds g r.number machine.old }
    requires processes { length machine.old.world.rows ≤ length machine.old.stacks }
    ensures { scans image.now.blocks.items g r.number machine.old ≡ Ok machine.new }
{
    let p = r.number();
    if let Some(scan) = machine.descriptors.scan(p) {
        match scan_next(&machine.world, g, scan.after) {
            Some(barred) => try_guard(machine, image, p, scan, barred),
            None => end_turns(machine, p, g, scan),
        }
    }
    machine.world.rest(r);
}
