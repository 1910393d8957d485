//! How a scan of a resource begins.
ghost use Rattle.std.specs.Prelude.{◌≡◌, ◌<◌, length, get_or};
ghost use Rattle.pfc_call_actions.specs.Returns.{scans_from};

use pfc_machines::{Machine, Scan};

/// The address of the scan of a resource; 0 where there is none.
pub(crate) fn scan_at(scans: &[u32], g: u32) -> u32
    ensures { result ≡ get_or scans.now g 0 }
{
    scans.get(g as usize).copied().unwrap_or(0)
}

/// The process scans, at an address, and goes on behind that where it stands now; where it has requeued, it keeps the resource.
pub(crate) fn begin_scan(machine: &mut Machine, p: u32, scan: u32, requeued: bool)
    requires { p < length machine.old.descriptors }
    ensures { machine.new ≡ scans_from scan requeued p machine.old }
{
    let back = machine.stacks.at(p);
    machine.stacks.go(p, scan);
    let begun = Scan {
        back,
        after: None,
        tried: None,
        requeued,
    };
    machine.descriptors.set_scan(p, Some(begun));
}
