//! `ECALL`, `ACC` and `EACC`.
ghost use Rattle.std.specs.Prelude.{◌≡◌, ◌≤◌, ◌<◌, ◌+◌, ◌^◌, ℕ, true, Ok, Some, Option, IfSome, length};
ghost use Rattle.pfc_code.specs.declared.instructions.Instr.{Instr};
ghost use Rattle.pfc_meet.specs.Meetings.{IsInMeeting};
ghost use Rattle.pfc_stacks.specs.Conditions.{AreLive};
ghost use Rattle.pfc_stacks.specs.Stacks.{stack_of, operands_of, own_cells};
ghost use Rattle.pfc_world.specs.Partners.{is_accepting, caller};
ghost use Rattle.pfc_world.specs.Tables.{at};
ghost use Rattle.pfc_world.specs.Tickets.{IsNew};
ghost use Rattle.pfc_machines.specs.declared.machine.Machine.{Machine};
ghost use Rattle.pfc_machines.specs.Actions.{Acts, IsActed};
ghost use Rattle.pfc_machines.specs.Descriptors.{descriptor_of};
ghost use Rattle.pfc_machines.specs.Partners.{open_to};
ghost use Rattle.pfc_machines.specs.Quiet.{left_by, CanGo};
ghost use Rattle.pfc_meeting_actions.specs.Meetings.{parameter_cell, arguments_taken, begins_meeting, called_by, cell_of, called_into, calls_entry};
ghost use Rattle.pfc_meeting_actions.specs.Meetings.{accepts, last_caller, parts, CanMeet, CanBeCalled};

use pfc_base::RunFault;
use pfc_machines::{KeptAlternative, Machine, Offer, leave, number_in};
use pfc_meet::{Accepted, Called, Uncalled};
use pfc_stacks::{Ref, Stacks};
use pfc_world::{Arm, Running};

/// The address of cell d of the first activation of a process, behind the eight own cells of the activation.
fn parameter_cell(owner: u32, d: u32) -> Ref
    requires { own_cells + d < 2 ^ 32 }
    ensures { result ≡ parameter_cell owner d }
{
    Ref {
        process: owner,
        cell: 8 + d,
    }
}

/// The z words on top of the operands of a caller go to the cells of an owner from cell d on, and are popped with the number below them.
fn take_arguments(stacks: &mut Stacks, owner: u32, d: u32, z: u32, caller: u32)
    requires caller { caller < length stacks.old }
    requires held { z ≤ length (operands_of stacks.old caller) }
    requires live { AreLive stacks.old (parameter_cell owner d) z }
    requires cell { own_cells + d < 2 ^ 32 }
    ensures { stacks.new ≡ arguments_taken stacks.old owner d z caller }
{
    stacks.copy_out(caller, 0, z, parameter_cell(owner, d));
    stacks.cut(caller, z);
    stacks.cut(caller, 1);
}

/// A meeting of an owner with a caller begins: the z words on top of the operands of the caller go to the owner's cells from cell d on, and are
/// popped with the number below them.
pub fn begin_meeting(machine: &mut Machine, owner: u32, d: u32, z: u32, caller: u32)
    requires { CanMeet machine.old owner d z caller }
    ensures { machine.new ≡ begins_meeting machine.old owner d z caller }
{
    take_arguments(&mut machine.stacks, owner, d, z, caller);
    machine.descriptors.begin_meeting(owner, caller);
}

/// The cell of the first parameter of an alternative that accepts; 0 of any other.
fn cell_of(offer: Offer) -> u32
    ensures { result ≡ cell_of offer }
{
    match offer {
        Offer::Accept { cell, .. } => cell,
        _ => 0,
    }
}

/// The number of the process whose entry is called with z words.
fn called_by(stacks: &Stacks, p: u32, z: u32) -> u32
    ensures { (m : Machine) → m.stacks ≡ stacks.now → result ≡ called_by z p m }
{
    number_in(stacks.top(p, z))
}

/// The meeting of an owner with a caller begins, where that one offers to accept the call, and the owner goes on.
fn call_into(machine: &mut Machine, k: Option<KeptAlternative>, z: u32, p: u32, q: u32)
    requires descriptor { q < length machine.old.descriptors }
    requires meets { IfSome k (λ k. CanMeet machine.old q (cell_of k.alternative.offer) z p) }
    ensures { machine.new ≡ called_into k z p q machine.old }
{
    if let Some(k) = k {
        begin_meeting(machine, q, cell_of(k.alternative.offer), z, p);
        machine.go_behind(q, k.alternative.branch);
    }
}

/// `ECALL e z`: calls entry e of a process, whose number lies below the z words on top. Where that one waits to accept the entry, their meeting
/// begins, and the caller waits in it; else the caller waits for the entry, and keeps its arguments. The fault is that the called process is
/// not active.
pub fn call_entry(machine: &mut Machine, r: Running, e: u32, z: u32) -> Result<(), RunFault>
    requires acts { Acts r.number machine.old }
    requires fresh { IsNew machine.old.world.rows machine.old.world.done }
    requires held { z + 1 ≤ length (operands_of machine.old.stacks r.number) }
    requires known { called_by z r.number machine.old < length machine.old.world.rows }
    requires owner { is_accepting machine.old.world.rows (called_by z r.number machine.old) e ≡ true
        → CanBeCalled (left_by machine.old r.number 0) (called_by z r.number machine.old) e z r.number }
    ensures { IsActed (calls_entry e z r.number machine.old) machine.old result machine.new }
{
    let p = r.number();
    let q = called_by(&machine.stacks, p, z);
    match pfc_meet::call_entry(&mut machine.world, r, q, e) {
        Ok(Called::Met { alternative: _ }) => {
            leave(&mut machine.stacks, p, 0);
            let k = machine.open_to(q, Arm::Accept(e));
            call_into(machine, k, z, p, q);
            Ok(())
        }
        Ok(Called::Waits) => {
            leave(&mut machine.stacks, p, 0);
            Ok(())
        }
        Err(Uncalled { r }) => {
            machine.world.rest(r);
            Err(RunFault::NotActive)
        }
    }
}

/// `ACC e d z`: accepts the call of entry e that has waited longest. The meeting begins: the z words of the caller go to the cells of the
/// process from cell d on. Without a caller the process waits, and offers to accept.
pub fn accept(machine: &mut Machine, r: Running, e: u32, d: u32, z: u32)
    requires acts { Acts r.number machine.old }
    requires room { CanGo (Instr.ACC e d z) r.number machine.old }
    requires fresh { IsNew machine.old.world.rows machine.old.world.done }
    requires caller { (q : ℕ) → caller machine.old.world.rows r.number e ≡ Some q → CanMeet (left_by machine.old r.number 0) r.number d z q }
    ensures { accepts e d z r.number machine.old ≡ Ok machine.new }
{
    let p = r.number();
    match pfc_meet::accept(&mut machine.world, r, e) {
        Accepted::Met { r, caller } => {
            machine.world.rest(r);
            leave(&mut machine.stacks, p, 0);
            begin_meeting(machine, p, d, z, caller);
        }
        Accepted::Waits => {
            let next = machine.stacks.at(p) + 1;
            let offer = Offer::Accept {
                entry: e,
                cell: d,
                size: z,
            };
            machine.make(p, offer, next, 0);
            machine.descriptors.offer(p, 1);
        }
    }
}

/// `EACC`: ends the meeting that the process began last; the caller is ready.
pub fn end_accept(machine: &mut Machine, r: Running)
    requires acts { Acts r.number machine.old }
    requires caller { IfSome (last_caller r.number machine.old) (λ q. IsInMeeting (at machine.old.world.rows q)) }
    ensures { parts r.number machine.old ≡ Ok machine.new }
{
    let p = r.number();
    machine.world.rest(r);
    leave(&mut machine.stacks, p, 0);
    if let Some(caller) = machine.descriptors.communications(p).caller() {
        pfc_meet::end_accept(&mut machine.world, caller);
        machine.descriptors.end_meeting(p);
    }
}
