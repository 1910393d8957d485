//! The creation of a process.
ghost use Rattle.std.specs.Prelude.{◌≡◌, ◌≤◌, ◌<◌, ◌+◌, ◌^◌, false, Some, length};
ghost use Rattle.std.specs.List.{slice_get};
ghost use Rattle.pfc_code.specs.declared.images.Block.{Block};
ghost use Rattle.pfc_state.specs.Stands.{is_unfinished as is_unfinished_stand};
ghost use Rattle.pfc_stacks.specs.Activations.{params_of};
ghost use Rattle.pfc_stacks.specs.Stacks.{stack_of, operands_of};
ghost use Rattle.pfc_world.specs.Tables.{at};
ghost use Rattle.pfc_machines.specs.Actions.{of_call, Acts, IsTaken};
ghost use Rattle.pfc_own_actions.specs.Creating.{created_by, creates, IsBegun, IsProcess, is_under_way};

use pfc_base::RunFault;
use pfc_code::Image;
use pfc_machines::{ActionFault, Machine, number_in};
use pfc_stacks::CallFault;
use pfc_world::{Running, State, World};

/// A process was activated and has not finished since.
fn is_unfinished(world: &World, q: u32) -> bool
    requires { q < length world.now.rows }
    ensures { result ≡ is_unfinished_stand (at world.now.rows q) }
{
    is_under_way(world.state(q))
}

/// It is the state of such a process.
fn is_under_way(state: State) -> bool
    ensures { result ≡ is_under_way state }
{
    match state {
        State::Idle => false,
        State::Done => false,
        State::Created => true,
        State::Ready => true,
        State::Waiting(_) => true,
    }
}

/// Process q begins at a block, by its number in the image, with the arguments that process p pops, over the number of q. All memory is taken
/// before anything is changed.
fn begin(machine: &mut Machine, image: &Image, p: u32, q: u32, k: u32) -> Result<(), CallFault>
    requires maker { p < length machine.old.stacks }
    requires stack { q < length machine.old.stacks }
    requires descriptor { q < length machine.old.descriptors }
    requires block { k < length image.now.blocks.items }
    requires arguments { params_of (slice_get image.now.blocks.items k) ≤ length (operands_of machine.old.stacks p) }
    requires next { (stack_of machine.old.stacks p).at + 1 < 2 ^ 32 }
    ensures begun { (b : Block) → slice_get image.now.blocks.items k ≡ Some b → IsBegun k b p q machine.old result machine.new }
    ensures world { machine.new.world ≡ machine.old.world }
{
    let held = machine.descriptors.room(q);
    machine.descriptors.make_room(q, machine.rooms.of_block(k))?;
    match machine.stacks.create(image, q, p, k) {
        Ok(()) => {
            machine.descriptors.begin(q);
            Ok(())
        }
        Err(fault) => {
            machine.descriptors.set_room(q, held);
            Err(fault)
        }
    }
}

/// How many cells the parameters of a block take, by its number in the image.
fn params_in(image: &Image, k: u32) -> u32
    requires { k < length image.now.blocks.items }
    ensures { result ≡ params_of (slice_get image.now.blocks.items k) }
{
    image.blocks[k as usize].params
}

/// Why an action is not performed whose call is refused.
fn fault_of(fault: CallFault) -> ActionFault
    ensures { result ≡ of_call fault }
{
    match fault {
        CallFault::Stack => ActionFault::Fault(RunFault::Stack),
        CallFault::Memory => ActionFault::Memory,
    }
}

/// `NEW`: pops the arguments of a block, by its number in the image, and below them the number of a process, and creates the process at that
/// block. The faults are that it is active, and else that its stack would be full. All memory is taken before anything is changed.
pub fn create(machine: &mut Machine, image: &Image, r: Running, k: u32) -> Result<(), ActionFault>
    requires acts { Acts r.number machine.old }
    requires block { k < length image.now.blocks.items }
    requires arguments { params_of (slice_get image.now.blocks.items k) + 1 ≤ length (operands_of machine.old.stacks r.number) }
    requires process { (b : Block) → slice_get image.now.blocks.items k ≡ Some b → IsProcess machine.old (created_by machine.old r.number b) }
    ensures { (b : Block) → slice_get image.now.blocks.items k ≡ Some b → IsTaken (creates k b r.number machine.old) machine.old result machine.new }
{
    let p = r.number();
    machine.world.rest(r);
    let q = number_in(machine.stacks.top(p, params_in(image, k)));
    if is_unfinished(&machine.world, q) {
        return Err(ActionFault::Fault(RunFault::Active));
    }
    match begin(machine, image, p, q, k) {
        Ok(()) => {
            let _made = machine.world.create(q);
            Ok(())
        }
        Err(fault) => Err(fault_of(fault)),
    }
}
