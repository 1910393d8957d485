//! How an activation begins.
ghost use Rattle.std.specs.Prelude.{◌≡◌, ◌≤◌, ◌<◌, ◌+◌, ◌^◌, Some, get_or, length, true};
ghost use Rattle.std.specs.List.{slice_get};
ghost use Rattle.pfc_code.specs.declared.images.Block.{Block};
ghost use Rattle.pfc_stacks.specs.Activations.{has_place, params_of};
ghost use Rattle.pfc_stacks.specs.Answers.{IsCalled, IsCallBy};
ghost use Rattle.pfc_stacks.specs.Stacks.{stack_of, operands_of};
ghost use Rattle.pfc_machines.specs.Actions.{of_call};
ghost use Rattle.pfc_machines.specs.Descriptors.{descriptor_of};
ghost use Rattle.pfc_machines.specs.Rooms.{no_room};
ghost use Rattle.pfc_call_actions.specs.Calls.{activated, link_by, mark_by, CanCall};

use pfc_base::RunFault;
use pfc_code::Image;
use pfc_machines::{ActionFault, Machine, Room};
use pfc_stacks::{CallFault, Mark, Stacks};

/// From where a block is called: from inside, its static link being so many links up, or from outside its monitor or resource.
#[derive(Clone, Copy, Debug, PartialEq, Eq)]
pub(crate) enum Entry {
    Inside(u32),
    Outside(Mark),
}

/// It is room for nothing.
fn is_nothing(room: Room) -> bool
    ensures nothing { result ≡ true → room ≡ no_room }
    ensures something { room ≡ no_room → result ≡ true }
{
    room.alternatives == 0 && room.words == 0 && room.meetings == 0
}

/// A call on the stacks.
#[inline(always)]
fn call_block(
    stacks: &mut Stacks,
    image: &Image,
    p: u32,
    k: u32,
    entry: Entry,
) -> Result<(), CallFault>
    requires process { p < length stacks.old }
    requires block { k < length image.now.blocks.items }
    requires arguments { params_of (slice_get image.now.blocks.items k) ≤ length (operands_of stacks.old p) }
    ensures { (b : Block) → slice_get image.now.blocks.items k ≡ Some b
        → IsCallBy p k b (link_by entry p stacks.old) (mark_by entry) stacks.old result stacks.new }
{
    match entry {
        Entry::Inside(l) => stacks.call_inside(image, p, k, l),
        Entry::Outside(mark) => stacks.call(image, p, k, mark),
    }
}

/// An activation of a block, by its number in the image, begins over those of a process, with room for what it has to do with others. All memory
/// is taken before anything is changed. Most blocks have nothing to do with others: what the others need stands apart.
#[inline(always)]
pub(crate) fn begin(
    machine: &mut Machine,
    image: &Image,
    p: u32,
    k: u32,
    entry: Entry,
) -> Result<(), CallFault>
    requires stack { p < length machine.old.stacks }
    requires descriptor { p < length machine.old.descriptors }
    requires can { CanCall image.now.blocks.items k p machine.old }
    ensures begun { (b : Block) → slice_get image.now.blocks.items k ≡ Some b
        → IsCalled (has_place p (length (stack_of machine.old.stacks p).cells) b) machine.old
        (activated k b (link_by entry p machine.old.stacks) (mark_by entry) p machine.old) result machine.new }
    ensures world { machine.new.world ≡ machine.old.world }
    ensures monitors { machine.new.monitors ≡ machine.old.monitors }
    ensures resources { machine.new.resources ≡ machine.old.resources }
{
    if is_nothing(machine.rooms.of_block(k)) {
        begin_alone(machine, image, p, k, entry)
    } else {
        begin_beside(machine, image, p, k, entry)
    }
}

/// The same of a block whose activations have nothing to do with others.
#[inline(always)]
fn begin_alone(
    machine: &mut Machine,
    image: &Image,
    p: u32,
    k: u32,
    entry: Entry,
) -> Result<(), CallFault>
    requires none { get_or machine.old.rooms k no_room ≡ no_room }
    requires stack { p < length machine.old.stacks }
    requires descriptor { p < length machine.old.descriptors }
    requires can { CanCall image.now.blocks.items k p machine.old }
    ensures begun { (b : Block) → slice_get image.now.blocks.items k ≡ Some b
        → IsCalled (has_place p (length (stack_of machine.old.stacks p).cells) b) machine.old
        (activated k b (link_by entry p machine.old.stacks) (mark_by entry) p machine.old) result machine.new }
    ensures world { machine.new.world ≡ machine.old.world }
    ensures monitors { machine.new.monitors ≡ machine.old.monitors }
    ensures resources { machine.new.resources ≡ machine.old.resources }
{
    // it has room for what it has made and begun, and needs no more
    let _held = machine.descriptors.room(p);
    match call_block(&mut machine.stacks, image, p, k, entry) {
        Ok(()) => {
            machine.descriptors.enter(p);
            Ok(())
        }
        Err(fault) => Err(fault),
    }
}

/// The same of any block.
#[inline(never)]
fn begin_beside(
    machine: &mut Machine,
    image: &Image,
    p: u32,
    k: u32,
    entry: Entry,
) -> Result<(), CallFault>
    requires stack { p < length machine.old.stacks }
    requires descriptor { p < length machine.old.descriptors }
    requires can { CanCall image.now.blocks.items k p machine.old }
    ensures begun { (b : Block) → slice_get image.now.blocks.items k ≡ Some b
        → IsCalled (has_place p (length (stack_of machine.old.stacks p).cells) b) machine.old
        (activated k b (link_by entry p machine.old.stacks) (mark_by entry) p machine.old) result machine.new }
    ensures world { machine.new.world ≡ machine.old.world }
    ensures monitors { machine.new.monitors ≡ machine.old.monitors }
    ensures resources { machine.new.resources ≡ machine.old.resources }
{
    if !machine.stacks.has_place(p, &image.blocks[k as usize]) {
        return Err(CallFault::Stack);
    }
    let held = machine.descriptors.room(p);
    machine.descriptors.make_room(p, machine.rooms.of_block(k))?;
    match call_block(&mut machine.stacks, image, p, k, entry) {
        Ok(()) => {
            machine.descriptors.enter(p);
            Ok(())
        }
        Err(fault) => {
            machine.descriptors.set_room(p, held);
            Err(fault)
        }
    }
}

/// Why an action is not performed whose call is refused.
pub(crate) fn fault_of(fault: CallFault) -> ActionFault
    ensures { result ≡ of_call fault }
{
    match fault {
        CallFault::Stack => ActionFault::Fault(RunFault::Stack),
        CallFault::Memory => ActionFault::Memory,
    }
}
