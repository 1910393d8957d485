//! A session: all that there is between two actions of a run.
ghost use Rattle.std.specs.Prelude.{◌≡◌, true, None, IfOk, OnErr};
ghost use Rattle.pfc_code.specs.Images.{plain_image};
ghost use Rattle.pfc_machines.specs.Actions.{at_rest};
ghost use Rattle.pfc_machines.specs.Descriptors.{descriptor_of};
ghost use Rattle.pfc_machines.specs.Machines.{CanStart, start_machine};
ghost use Rattle.pfc_machine_acts.specs.Acting.{MayAct};
ghost use Rattle.pfc_machine_acts.specs.Quietly.{next_instr};
ghost use Rattle.pfc_state.specs.Stands.{Is_ready};
ghost use Rattle.pfc_world.specs.Tables.{at};
ghost use Rattle.pfc_sessions.specs.Standings.{standings};
ghost use Rattle.pfc_sessions.specs.Steps.{begins, before_action, may_want, step, IsStep};

use pfc_base::Memory;
use pfc_code::Image;
use pfc_machine_acts::{ActionEnd, act};
use pfc_machines::{Descriptors, Machine};
use pfc_sched::Picker;
use pfc_state::Standing;
use pfc_values::Output;
use std::alloc::Global;

/// A run between two actions: its machine.
#[derive(Drop)]
pub struct Session {
    pub(crate) machine: Machine,
}

/// The line of a process, from 1; 0 where there is none of that number.
fn line_of(descriptors: &Descriptors, p: u32) -> u32
    ensures { result ≡ (descriptor_of descriptors.now p).line }
{
    if (p as usize) < descriptors.len() {
        descriptors.line(p)
    } else {
        0
    }
}

impl Session {
    /// The session before the first action of an image, over an input and a seed of `random`. Its only refusal is want of memory.
    pub fn start(alloc: Global, image: &Image, input: &[u8], seed: u64) -> Result<Session, Memory>
        requires { CanStart (plain_image image.now) }
        ensures { IfOk result (λ s. s.machine ≡ start_machine (plain_image image.now) input.now seed) }
    {
        let machine = Machine::start(alloc, image, input, seed)?;
        Ok(Session { machine })
    }

    /// One action of a process that is ready: its quiet instructions, and the action that comes next, which is counted. It does not settle the
    /// session first, as each action of `run` does. What it prints is put behind `out`, and a plain select that has something to choose among
    /// asks the picker. Its only refusal is want of memory, which comes only of a call, a requeue, a creation or output, and leaves the process
    /// before that action, and the output and the picker as they were.
    pub fn act(
        &mut self,
        image: &Image,
        p: u32,
        picker: &mut Picker,
        out: &mut Output,
    ) -> Result<ActionEnd, Memory>
        requires alone { self.old.machine.world.acting ≡ None }
        requires ready { at self.old.machine.world.rows p ≡ Is_ready }
        requires may { MayAct (plain_image image.now) picker.old p (begins p self.old.machine) }
        ensures step { IfOk result (λ end. IsStep (step (plain_image image.now) p picker.old self.old.machine) p self.new.machine picker.new
            out.old out.new end) }
        ensures untried { OnErr result (self.new.machine ≡ at_rest (before_action (plain_image image.now) p self.old.machine)) }
        ensures cause { OnErr result (may_want (next_instr (plain_image image.now) p (before_action (plain_image image.now) p self.old.machine)) ≡ true) }
        ensures kept { OnErr result (out.new ≡ out.old) }
        ensures unchosen { OnErr result (picker.new ≡ picker.old) }
    {
        let r = self.machine.world.begin(p);
        act(&mut self.machine, image, r, picker, out)
    }

    /// How the processes stand, in the order of their numbers. Its only refusal is want of memory.
    pub fn standings(&self, alloc: Global) -> Result<Vec<Standing>, Memory>
        ensures { IfOk result (λ list. list.items ≡ standings self.now.machine) }
    {
        let n = self.machine.world.processes();
        let mut list = Vec::with_capacity(alloc, n as usize)?;
        for p in 0..n {
            list.push(Standing {
                process: p,
                state: self.machine.world.state(p),
                line: line_of(&self.machine.descriptors, p),
            })?;
        }
        Ok(list)
    }

    /// The output is not empty and does not end with a line end.
    pub fn open_line(&self) -> bool
        ensures { result ≡ self.now.machine.in_line }
    {
        self.machine.in_line
    }
}
