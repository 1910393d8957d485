//! The quiet instructions that are not of the stacks alone.
ghost use Rattle.std.specs.Prelude.{◌≡◌, ◌≤◌, ◌<◌, ◌+◌, ◌^◌, [], Some, None, length, take, get_or};
ghost use Rattle.pfc_code.specs.declared.instructions.Instr.{Instr};
ghost use Rattle.pfc_stacks.specs.Refs.{number_of};
ghost use Rattle.pfc_stacks.specs.Stacks.{stack_of, operand, operands_of};
ghost use Rattle.pfc_machines.specs.declared.alternatives.Offer.TheVariants as offered;
ghost use Rattle.pfc_values.specs.Numbers.{is_true};
ghost use Rattle.pfc_machines.specs.Descriptors.{descriptor_of};
ghost use Rattle.pfc_machines.specs.Quiet.{quiet_effect, makes, receiving, scans_on, tried_by, tried_in, untried, timing, guarding, CanGo, IsQuiet};

use crate::moving::{leave, number_in};
use crate::{Alternative, Machine, Offer, Scan};
use pfc_base::RunFault;
use pfc_code::Instr;
use pfc_values::is_true;

/// What became of an instruction that is perhaps quiet.
#[derive(Clone, Copy, Debug, PartialEq, Eq)]
pub enum Quiet {
    /// it was performed, and is no action
    Passed,
    /// it ends in a fault, which is an action, and is left undone
    Faulted(RunFault),
    /// it is an action, and is left undone
    Acts,
}

/// Whose guard is tried; None where it is one's own.
fn tried_in(scan: Option<Scan>) -> Option<u32>
    ensures { result ≡ tried_in scan }
{
    match scan {
        Some(scan) => scan.tried,
        None => None,
    }
}

/// Nobody's guard is tried any more.
fn untried(scan: Option<Scan>) -> Option<Scan>
    ensures { result ≡ untried scan }
{
    match scan {
        Some(scan) => Some(Scan {
            tried: None,
            ..scan
        }),
        None => None,
    }
}

impl Machine {
    /// Performs an instruction of a process that makes an alternative of a select or ends a guard, where it is quiet; any other, and a guard by
    /// which a resource changes hands, is left undone. `scans` holds the address of the scan of each resource, by the resource's number. It
    /// takes no memory.
    pub fn run_quiet(&mut self, scans: &[u32], p: u32, i: Instr) -> Quiet
        requires { CanGo i p self.old }
        ensures { IsQuiet (quiet_effect scans.now i p self.old) self.old result self.new }
    {
        match i {
            Instr::ARMS(z, a) => {
                self.make_sending(p, z, a);
                Quiet::Passed
            }
            Instr::ARMR(z, a) => {
                self.make_receiving(p, z, a);
                Quiet::Passed
            }
            Instr::ARMA(entry, cell, size, a) => {
                self.make(p, Offer::Accept { entry, cell, size }, a, 0);
                Quiet::Passed
            }
            Instr::ARMT(a) => self.make_timeout(p, a),
            Instr::ARMX => {
                self.make(p, Offer::Terminate, 0, 0);
                Quiet::Passed
            }
            Instr::GRD(g) => self.guard(p, scan_at(scans, g)),
            _ => Quiet::Acts,
        }
    }

    /// The last activation of a process makes an alternative of so many operands, with a branch, which sends nothing.
    pub fn make(&mut self, p: u32, offer: Offer, branch: u32, n: u32)
        requires stack { p < length self.old.stacks }
        requires descriptor { p < length self.old.descriptors }
        requires place { length (descriptor_of self.old.descriptors p).communications.alternatives <
            (descriptor_of self.old.descriptors p).communications.room.alternatives }
        requires next { (stack_of self.old.stacks p).at + 1 < 2 ^ 32 }
        ensures { self.new ≡ makes self.old p offer branch n [] }
    {
        let activation = self.descriptors.activations(p);
        let alternative = Alternative {
            activation,
            offer,
            branch,
        };
        self.descriptors.make(p, alternative);
        leave(&mut self.stacks, p, n);
    }

    /// One to send a message of z words on top, over the channel's number.
    pub fn make_sending(&mut self, p: u32, z: u32, branch: u32)
        requires { CanGo (Instr.ARMS z branch) p self.old }
        ensures { let ops = operands_of self.old.stacks p in
            self.new ≡ makes self.old p (offered.Send (number_of (operand ops z)) z) branch (z + 1) (take z ops) }
    {
        let channel = number_in(self.stacks.top(p, z));
        self.descriptors.keep_message(&self.stacks, p, z);
        self.stacks.cut(p, z);
        self.make(p, Offer::Send { channel, size: z }, branch, 1);
    }

    /// One to receive a message of z words at the address on top, over the channel's number; without words there is no address.
    pub fn make_receiving(&mut self, p: u32, z: u32, branch: u32)
        requires { CanGo (Instr.ARMR z branch) p self.old }
        ensures { self.new ≡ receiving z branch p self.old }
    {
        if z == 0 {
            let channel = number_in(self.stacks.top(p, 0));
            let offer = Offer::Receive {
                channel,
                size: 0,
                to: 0,
            };
            return self.make(p, offer, branch, 1);
        }
        let channel = number_in(self.stacks.top(p, 1));
        let to = self.stacks.top(p, 0);
        let offer = Offer::Receive {
            channel,
            size: z,
            to,
        };
        self.make(p, offer, branch, 2);
    }

    /// To go on after the number of seconds on top.
    fn make_timeout(&mut self, p: u32, branch: u32) -> Quiet
        requires { CanGo (Instr.ARMT branch) p self.old }
        ensures { IsQuiet (timing (operand (operands_of self.old.stacks p) 0) branch p self.old) self.old result self.new }
    {
        let n = self.stacks.top(p, 0);
        if n < 0 {
            return Quiet::Faulted(RunFault::Below);
        }
        let seconds = n.unsigned_abs();
        self.make(p, Offer::Timeout { seconds }, branch, 1);
        Quiet::Passed
    }

    /// The guard on top: the process's own that is true is passed, and by another's that is false the scan goes on at its address.
    fn guard(&mut self, p: u32, scan: u32) -> Quiet
        requires stack { p < length self.old.stacks }
        requires descriptor { p < length self.old.descriptors }
        requires next { (stack_of self.old.stacks p).at + 1 < 2 ^ 32 }
        ensures { IsQuiet (guarding (tried_by self.old p) (is_true (operand (operands_of self.old.stacks p) 0)) scan p self.old) self.old result self.new }
    {
        let holds = is_true(self.stacks.top(p, 0));
        match (tried_in(self.descriptors.scan(p)), holds) {
            (None, true) => {
                leave(&mut self.stacks, p, 1);
                Quiet::Passed
            }
            (Some(_), false) => {
                self.scan_on(p, scan);
                Quiet::Passed
            }
            _ => Quiet::Acts,
        }
    }

    /// The process goes back to the scan, at its address, and counts static links from its own activation again.
    fn scan_on(&mut self, p: u32, scan: u32)
        requires stack { p < length self.old.stacks }
        requires descriptor { p < length self.old.descriptors }
        ensures { self.new ≡ scans_on scan p self.old }
    {
        self.stacks.cut(p, 1);
        self.stacks.go(p, scan);
        self.stacks.look_from(p, None);
        let left = untried(self.descriptors.scan(p));
        self.descriptors.set_scan(p, left);
    }
}

/// The address of the scan of a resource; 0 where there is none.
fn scan_at(scans: &[u32], g: u32) -> u32
    ensures { result ≡ get_or scans.now g 0 }
{
    scans.get(g as usize).copied().unwrap_or(0)
}
