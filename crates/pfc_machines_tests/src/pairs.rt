//! A machine of two processes that are both ready.
ghost use Rattle.std.specs.Prelude.{◌≡◌, ℕ, List, [], None, pos, IfOk, OnOk};
ghost use Rattle.pfc_code.specs.Images.{plain_image};
ghost use Rattle.pfc_machines.specs.Machines.{start_machine, CanStart};
ghost use Rattle.pfc_machines_tests.specs.Samples.{sample_blocks, machine_with, sample_machine, created_machine, idle_pair, pair_machine};

use super::machines::machine_of;
use pfc_base::Memory;
use pfc_code::Image;
use pfc_machines::Machine;
use pfc_own_actions::{create, join};
use std::alloc::Global;

/// Main creates the other process, and has 50 on top; or memory is wanting.
fn create_other(machine: &mut Machine, image: &Image) -> Result<(), Memory>
    requires blocks { image.now.blocks.items ≡ sample_blocks }
    requires start { machine.old ≡ sample_machine (pos 1) (pos 42) None None [] 7 }
    ensures { OnOk result (machine.new ≡ created_machine) }
{
    let main = machine.world.begin(0);
    match create(machine, image, main, 0) {
        Ok(()) => Ok(()),
        Err(_) => Err(Memory),
    }
}

/// Main has created the other process, and has 50 on top.
fn created_of(alloc: Global, image: &Image) -> Result<Machine, Memory>
    requires blocks { image.now.blocks.items ≡ sample_blocks }
    requires can { CanStart (plain_image image.now) }
    requires start { (input : List ℕ) → (seed : ℕ) → start_machine (plain_image image.now) input seed ≡ machine_with [] None None input seed }
    ensures { IfOk result (λ m. m ≡ created_machine) }
{
    let mut machine = machine_of(alloc, image, 1, 42, None, b"", 7)?;
    create_other(&mut machine, image)?;
    Ok(machine)
}

/// Both are ready.
#[tactic(auto, using(crate::proofs::Starts::new_at_creation))]
fn make_ready(machine: &mut Machine)
    requires { machine.old ≡ created_machine }
    ensures { machine.new ≡ idle_pair }
{
    let main = machine.world.begin(0);
    join(machine, main);
    machine.world.wake(0);
}

/// Main has two operands over 50, the other two, of which the last are the tops.
fn push_all(machine: &mut Machine, a: i64, b: i64, c: i64, d: i64)
    requires { machine.old ≡ idle_pair }
    ensures { machine.new ≡ pair_machine a b c d }
{
    machine.stacks.push(0, a);
    machine.stacks.push(0, b);
    machine.stacks.push(1, c);
    machine.stacks.push(1, d);
}

/// Main has created the other process and goes on beside it, with two operands each.
pub(super) fn pair_of(
    alloc: Global,
    image: &Image,
    a: i64,
    b: i64,
    c: i64,
    d: i64,
) -> Result<Machine, Memory>
    requires blocks { image.now.blocks.items ≡ sample_blocks }
    requires can { CanStart (plain_image image.now) }
    requires start { (input : List ℕ) → (seed : ℕ) → start_machine (plain_image image.now) input seed ≡ machine_with [] None None input seed }
    ensures { IfOk result (λ m. m ≡ pair_machine a b c d) }
{
    let mut machine = created_of(alloc, image)?;
    make_ready(&mut machine);
    push_all(&mut machine, a, b, c, d);
    Ok(machine)
}
