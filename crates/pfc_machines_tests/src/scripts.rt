//! What children do in their turns.
ghost use Rattle.std.specs.Prelude.{◌≡◌, ◌<◌, ℕ, true, None, Some, length};
ghost use Rattle.pfc_resource.specs.Scans.{IsBarredAt};
ghost use Rattle.pfc_stacks.specs.Activations.{mark_in};
ghost use Rattle.pfc_stacks.specs.Stacks.{stack_of, operand, operands_of};
ghost use Rattle.pfc_values.specs.declared.simple.Simple.{Simple};
ghost use Rattle.pfc_values.specs.Numbers.{is_of};
ghost use Rattle.pfc_world.specs.Holders.{holder_in};
ghost use Rattle.pfc_world.specs.Tables.{at};
ghost use Rattle.pfc_world.specs.Tickets.{IsNew};
ghost use Rattle.pfc_machines.specs.Actions.{Acts};
ghost use Rattle.pfc_machines.specs.Quiet.{tried_by};
ghost use Rattle.pfc_object_actions.specs.Conditions.{monitor_of, is_inside};
ghost use Rattle.pfc_object_actions.specs.Objects.{object_at};
ghost use Rattle.pfc_call_actions.specs.Calls.{CanCall};
ghost use Rattle.pfc_call_actions.specs.Returns.{HoldsMarked};
ghost use Rattle.pfc_resource_actions.specs.Scans.{Holds};

use crate::stage::{Scene, four_children, next_action};
use pfc_base::{Memory, RunFault};
use pfc_call_actions::{call, call_monitor, call_resource, end_call, end_function, requeue};
use pfc_code::{Image, Instr};
use pfc_machines::{ActionFault, Machine, Quiet, number_in};
use pfc_object_actions::{ask_empty, delay, initialise, resume, signal, wait};
use pfc_resource_actions::{guard, scan};
use pfc_stacks::{Mark, Stacks};
use pfc_state::{Running, State, Why};
use pfc_world::World;
use std::alloc::Global;

/// An action of a child, on object numbers from 0.
#[derive(Clone, Copy)]
pub(super) enum Act {
    /// sets a semaphore to a number
    Initialise(i64, i64),
    Wait(i64),
    Signal(i64),
    /// waits on a condition with a rank
    Delay(i64, i64),
    Resume(i64),
    IsEmpty(i64),
    /// calls a block from inside
    Call(u32),
    /// calls a block from outside of monitor 0
    Enter(u32),
    /// calls a block from outside of resource 0
    Ask(u32),
    /// puts a block in the place of the last activation's
    Requeue(u32),
    Return,
    /// drops an operand, and returns from a function
    ReturnResult,
    /// a turn of the scan of resource 0
    Turn,
    /// ends a guard of it with this value
    Guard(i64),
    /// nothing, to see where it stands
    See,
}

#[derive(Clone, Copy, Debug, PartialEq, Eq)]
pub(super) enum Answer {
    /// the process is not ready, or a condition of the action does not hold
    Unable,
    /// the action was done, or nothing was to be done: the process's next address, what it stands at, its top, and how many activations it has
    Done(u32, State, i64, u32),
    Fault(RunFault),
    Memory,
}

/// An action of a process, and what is owed.
pub(super) type Step = (u32, Act, Answer);

/// What the action finds on top, and below that.
fn operands_for(act: Act) -> Option<(i64, i64)> {
    match act {
        Act::Initialise(s, n) => Some((n, s)),
        Act::Wait(s) => Some((s, 9)),
        Act::Signal(s) => Some((s, 9)),
        Act::Delay(c, rank) => Some((rank, c)),
        Act::Resume(c) => Some((c, 9)),
        Act::IsEmpty(c) => Some((c, 9)),
        Act::Guard(v) => Some((v, 9)),
        _ => None,
    }
}

/// The two operands on top of a process are these.
fn put_two(stacks: &mut Stacks, p: u32, top: i64, below: i64) -> bool {
    if p >= stacks.processes() || stacks.top(p, 0) == 0 || stacks.top(p, 1) == 0 {
        return false;
    }
    stacks.cut(p, 2);
    stacks.push(p, below);
    stacks.push(p, top);
    true
}

/// What an action comes to; None where a condition of it does not hold.
type Outcome = Option<Result<(), ActionFault>>;

/// What an action answers that takes no memory.
fn outcome_of(done: Result<(), RunFault>) -> Outcome {
    match done {
        Ok(()) => Some(Ok(())),
        Err(fault) => Some(Err(ActionFault::Fault(fault))),
    }
}

/// The top is an integer.
fn has_integer(machine: &Machine, p: u32) -> bool
    ensures { result ≡ true → is_of Simple.Integer (operand (operands_of machine.now.stacks p) 0) ≡ true }
{
    let n = machine.stacks.top(p, 0);
    -2_147_483_648 <= n && n <= 2_147_483_647
}

/// The object at a depth is a semaphore.
fn has_semaphore(machine: &Machine, p: u32, k: u32) -> bool
    ensures { result ≡ true → object_at k p machine.now < length machine.now.semaphores }
{
    machine.semaphores.has(number_in(machine.stacks.top(p, k)))
}

/// The object below the top is a condition, and the process holds its monitor where it is inside.
fn may_delay(machine: &Machine, p: u32) -> bool
    requires { p < length machine.now.stacks }
    ensures known { result ≡ true → object_at 1 p machine.now < length machine.now.monitors.owners }
    ensures holds { let m = monitor_of machine.now (object_at 1 p machine.now) in
        result ≡ true → is_inside m p machine.now ≡ true → holder_in machine.now.monitors.holders m ≡ Some p }
{
    let c = number_in(machine.stacks.top(p, 1));
    if !machine.monitors.has_condition(c) {
        return false;
    }
    !machine.stacks.marked(p, machine.monitors.monitor_of(c)) || has_condition(machine, p, 1)
}

/// The object at a depth is a condition whose monitor the process holds.
fn has_condition(machine: &Machine, p: u32, k: u32) -> bool
    ensures known { result ≡ true → object_at k p machine.now < length machine.now.monitors.owners }
    ensures holds { result ≡ true → holder_in machine.now.monitors.holders (monitor_of machine.now (object_at k p machine.now)) ≡ Some p }
{
    let c = number_in(machine.stacks.top(p, k));
    if !machine.monitors.has_condition(c) {
        return false;
    }
    match machine.monitors.holder(machine.monitors.monitor_of(c)) {
        Some(holder) => holder == p,
        None => false,
    }
}

fn initialise_by(machine: &mut Machine, r: Running) -> Outcome
    requires acts { Acts r.number machine.old }
    ensures { machine.new.world.acting ≡ None }
{
    let p = r.number();
    if !has_integer(machine, p) || !has_semaphore(machine, p, 1) {
        machine.world.rest(r);
        return None;
    }
    let done = initialise(machine, r);
    outcome_of(done)
}

fn wait_by(machine: &mut Machine, r: Running) -> Outcome
    requires acts { Acts r.number machine.old }
    requires fresh { IsNew machine.old.world.rows machine.old.world.done }
    ensures { machine.new.world.acting ≡ None }
{
    let p = r.number();
    if !has_semaphore(machine, p, 0) {
        machine.world.rest(r);
        return None;
    }
    wait(machine, r);
    Some(Ok(()))
}

fn signal_by(machine: &mut Machine, r: Running) -> Outcome
    requires acts { Acts r.number machine.old }
    ensures { machine.new.world.acting ≡ None }
{
    let p = r.number();
    if !has_semaphore(machine, p, 0) {
        machine.world.rest(r);
        return None;
    }
    let done = signal(machine, r);
    outcome_of(done)
}

fn delay_by(machine: &mut Machine, r: Running) -> Outcome
    requires acts { Acts r.number machine.old }
    requires fresh { IsNew machine.old.world.rows machine.old.world.done }
    ensures { machine.new.world.acting ≡ None }
{
    let p = r.number();
    if !has_integer(machine, p) || !may_delay(machine, p) {
        machine.world.rest(r);
        return None;
    }
    delay(machine, r);
    Some(Ok(()))
}

fn resume_by(machine: &mut Machine, r: Running) -> Outcome
    requires acts { Acts r.number machine.old }
    requires fresh { IsNew machine.old.world.rows machine.old.world.done }
    ensures { machine.new.world.acting ≡ None }
{
    let p = r.number();
    if !has_condition(machine, p, 0) {
        machine.world.rest(r);
        return None;
    }
    resume(machine, r);
    Some(Ok(()))
}

fn ask_empty_by(machine: &mut Machine, r: Running) -> Outcome
    requires acts { Acts r.number machine.old }
    ensures { machine.new.world.acting ≡ None }
{
    if machine.stacks.top(r.number(), 1) == 0 {
        machine.world.rest(r);
        return None;
    }
    ask_empty(machine, r);
    Some(Ok(()))
}

/// The process may call a block.
fn may_call(machine: &Machine, image: &Image, p: u32, k: u32) -> bool
    requires { p < length machine.now.descriptors }
    ensures { result ≡ true → CanCall image.now.blocks.items k p machine.now }
{
    if k as usize >= image.blocks.len() || machine.descriptors.activations(p) > 100 {
        return false;
    }
    image.blocks[k as usize].params == 0
}

fn call_by(machine: &mut Machine, image: &Image, r: Running, k: u32) -> Outcome
    requires acts { Acts r.number machine.old }
    ensures { machine.new.world.acting ≡ None }
{
    if !may_call(machine, image, r.number(), k) {
        machine.world.rest(r);
        return None;
    }
    Some(call(machine, image, r, k, 0))
}

fn enter_by(machine: &mut Machine, image: &Image, r: Running, k: u32) -> Outcome
    requires acts { Acts r.number machine.old }
    requires fresh { IsNew machine.old.world.rows machine.old.world.done }
    ensures { machine.new.world.acting ≡ None }
{
    if !machine.monitors.has(0) || !may_call(machine, image, r.number(), k) {
        machine.world.rest(r);
        return None;
    }
    Some(call_monitor(machine, image, r, 0, k))
}

fn ask_by(machine: &mut Machine, image: &Image, r: Running, k: u32) -> Outcome
    requires acts { Acts r.number machine.old }
    requires fresh { IsNew machine.old.world.rows machine.old.world.done }
    ensures { machine.new.world.acting ≡ None }
{
    if !machine.resources.has(0) || !may_call(machine, image, r.number(), k) {
        machine.world.rest(r);
        return None;
    }
    Some(call_resource(machine, image, r, 0, k))
}

fn requeue_by(machine: &mut Machine, image: &Image, r: Running, k: u32) -> Outcome
    requires acts { Acts r.number machine.old }
    ensures { machine.new.world.acting ≡ None }
{
    if !may_call(machine, image, r.number(), k) {
        machine.world.rest(r);
        return None;
    }
    Some(requeue(machine, image, r, 0, k))
}

/// The process holds what the mark of its last activation says.
fn holds_marked(machine: &Machine, p: u32) -> bool
    requires { p < length machine.now.stacks }
    ensures { result ≡ true → HoldsMarked (mark_in (stack_of machine.now.stacks p)) p machine.now }
{
    match machine.stacks.mark(p) {
        Mark::Plain => true,
        Mark::Resource(_) => true,
        Mark::Monitor(m) => {
            if !machine.monitors.has(m) {
                return false;
            }
            match machine.monitors.holder(m) {
                Some(holder) => holder == p,
                None => false,
            }
        }
    }
}

fn return_by(machine: &mut Machine, image: &Image, r: Running) -> Outcome
    requires acts { Acts r.number machine.old }
    ensures { machine.new.world.acting ≡ None }
{
    if !holds_marked(machine, r.number()) {
        machine.world.rest(r);
        return None;
    }
    end_call(machine, image, r);
    Some(Ok(()))
}

fn return_result_by(machine: &mut Machine, image: &Image, r: Running) -> Outcome
    requires acts { Acts r.number machine.old }
    ensures { machine.new.world.acting ≡ None }
{
    let p = r.number();
    if machine.stacks.top(p, 0) == 0 {
        machine.world.rest(r);
        return None;
    }
    machine.stacks.cut(p, 1);
    end_function(machine, image, r);
    Some(Ok(()))
}

/// The process holds the resource.
fn holds_resource(machine: &Machine, p: u32) -> bool
    ensures { result ≡ true → Holds 0 p machine.now }
{
    if !machine.resources.has(0) {
        return false;
    }
    match machine.resources.holder(0) {
        Some(holder) => holder == p,
        None => false,
    }
}

fn turn_by(machine: &mut Machine, image: &Image, r: Running) -> Outcome
    requires acts { Acts r.number machine.old }
    ensures { machine.new.world.acting ≡ None }
{
    if !holds_resource(machine, r.number())
        || machine.world.processes() > machine.stacks.processes()
    {
        machine.world.rest(r);
        return None;
    }
    scan(machine, image, r, 0);
    Some(Ok(()))
}

/// The process is barred at the resource.
fn is_barred(world: &World, p: u32) -> bool
    ensures { result ≡ true → IsBarredAt 0 (at world.now.rows p) }
{
    if p >= world.processes() {
        return false;
    }
    match world.state(p) {
        State::Waiting(Why::Barred { resource, .. }) => resource == 0,
        _ => false,
    }
}

/// Whoever's guard the process tries is barred at the resource.
fn tries_barred(machine: &Machine, p: u32) -> bool
    requires { p < length machine.now.descriptors }
    ensures { result ≡ true → (q : ℕ) → tried_by machine.now p ≡ Some q → IsBarredAt 0 (at machine.now.world.rows q) }
{
    match machine.descriptors.scan(p) {
        Some(scan) => match scan.tried {
            Some(q) => is_barred(&machine.world, q),
            None => true,
        },
        None => true,
    }
}

/// A guard that is no action is performed as it is.
fn guard_by(machine: &mut Machine, image: &Image, r: Running) -> Outcome
    requires acts { Acts r.number machine.old }
    requires fresh { IsNew machine.old.world.rows machine.old.world.done }
    ensures { machine.new.world.acting ≡ None }
{
    let p = r.number();
    let _room = machine.descriptors.room(p);
    if machine.stacks.top(p, 1) == 0 || !holds_resource(machine, p) || !tries_barred(machine, p) {
        machine.world.rest(r);
        return None;
    }
    match machine.run_quiet(&image.scans, p, Instr::GRD(0)) {
        Quiet::Acts => guard(machine, image, r, 0),
        _ => machine.world.rest(r),
    }
    Some(Ok(()))
}

fn perform(machine: &mut Machine, image: &Image, r: Running, act: Act) -> Outcome
    requires acts { Acts r.number machine.old }
    requires fresh { IsNew machine.old.world.rows machine.old.world.done }
    ensures { machine.new.world.acting ≡ None }
{
    match act {
        Act::Initialise(_, _) => initialise_by(machine, r),
        Act::Wait(_) => wait_by(machine, r),
        Act::Signal(_) => signal_by(machine, r),
        Act::Delay(_, _) => delay_by(machine, r),
        Act::Resume(_) => resume_by(machine, r),
        Act::IsEmpty(_) => ask_empty_by(machine, r),
        Act::Call(k) => call_by(machine, image, r, k),
        Act::Enter(k) => enter_by(machine, image, r, k),
        Act::Ask(k) => ask_by(machine, image, r, k),
        Act::Requeue(k) => requeue_by(machine, image, r, k),
        Act::Return => return_by(machine, image, r),
        Act::ReturnResult => return_result_by(machine, image, r),
        Act::Turn => turn_by(machine, image, r),
        Act::Guard(_) => guard_by(machine, image, r),
        Act::See => {
            machine.world.rest(r);
            None
        }
    }
}

/// Where a process stands.
fn seen(machine: &Machine, p: u32) -> Answer {
    if p >= machine.world.processes() || p as usize >= machine.descriptors.len() {
        return Answer::Unable;
    }
    let activations = machine.descriptors.activations(p);
    Answer::Done(
        machine.stacks.at(p),
        machine.world.state(p),
        machine.stacks.top(p, 0),
        activations,
    )
}

fn answer_to(scene: &mut Scene, p: u32, act: Act) -> Answer
    requires { scene.old.machine.world.acting ≡ None }
    ensures { scene.new.machine.world.acting ≡ None }
{
    if let Act::See = act {
        return seen(&scene.machine, p);
    }
    if let Some((top, below)) = operands_for(act) {
        if !put_two(&mut scene.machine.stacks, p, top, below) {
            return Answer::Unable;
        }
    }
    let Some(r) = next_action(&mut scene.machine, p) else {
        return Answer::Unable;
    };
    match perform(&mut scene.machine, &scene.image, r, act) {
        None => Answer::Unable,
        Some(Ok(())) => seen(&scene.machine, p),
        Some(Err(ActionFault::Fault(fault))) => Answer::Fault(fault),
        Some(Err(ActionFault::Memory)) => Answer::Memory,
    }
}

/// The place of the first action whose answer is not the one that is owed.
fn first_in(scene: &mut Scene, script: &[Step]) -> Option<usize>
    requires { scene.old.machine.world.acting ≡ None }
{
    for (at, (p, act, owed)) in script.iter().enumerate() {
        if answer_to(scene, *p, *act) != *owed {
            return Some(at);
        }
    }
    None
}

/// The same, from the beginning on.
pub(super) fn first_difference(alloc: Global, script: &[Step]) -> Result<Option<usize>, Memory> {
    let mut scene = four_children(alloc)?;
    Ok(first_in(&mut scene, script))
}
