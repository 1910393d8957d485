//! Runs: actions one after the other, until an ending.
ghost use Rattle.std.specs.Prelude.{◌≡◌, ◌≤◌, ◌<◌, None, ℕ};
ghost use Rattle.pfc_code.specs.Images.{plain_image};
ghost use Rattle.pfc_io.specs.Counts.{Rose};
ghost use Rattle.pfc_machines.specs.declared.machine.Machine.{Machine};
ghost use Rattle.pfc_sched.specs.Picks.{Picking};
ghost use Rattle.pfc_machine_acts.specs.Acting.{MayAct};
ghost use Rattle.pfc_sessions.specs.Courses.{IsCourse, IsPick, IsTurn};
ghost use Rattle.pfc_sessions.specs.Runs.{MayRun, run_from};
ghost use Rattle.pfc_sessions.specs.Stages.{first_stage};
ghost use Rattle.pfc_sessions.specs.Steps.{begins};

use crate::Session;
use crate::endings::next_actor;
use crate::output::{hand_over, hand_piece};
use pfc_code::Image;
use pfc_io::Sink;
use pfc_machine_acts::{ActionEnd, settle};
use pfc_sched::Picker;
use pfc_values::Output;
use pfc_world::Ending;
use std::alloc::Global;

impl Session {
    /// Performs actions until an ending, each of the process that is picked. What they print is gathered: the sink is handed a piece where 4,096
    /// bytes are held, and the rest before the answer. The ending is that of the run from here on, of which `limit` actions may be done; or the
    /// sink took no more bytes, whatever that ending would have been; or memory was refused, and then the bytes that are held are dropped.
    pub fn run<O: Sink>(
        &mut self,
        alloc: Global,
        image: &Image,
        picker: &mut Picker,
        limit: u64,
        sink: &mut O,
    ) -> Ending
        requires { MayRun (plain_image image.now) limit picker.old self.old.machine }
        ensures run { IsCourse (plain_image image.now) limit (run_from (plain_image image.now) limit limit picker.old self.old.machine)
            (first_stage picker.old self.old.machine) self.new.machine result (O.written sink.old) (O.written sink.new) }
        ensures faults { O.faults sink.old ≤ O.faults sink.new }
        ensures failed { result ≡ Ending.SinkFailed → Rose (O.faults sink.old) (O.faults sink.new) }
    {
        let mut out = Output::new(alloc);
        let mut left = limit;
        loop {
            if let Some(ending) = self.turn(image, picker, limit, left, &mut out) {
                return hand_over(ending, &out, sink);
            }
            let Ok(()) = hand_piece(&mut out, sink) else {
                return Ending::SinkFailed;
            };
            left -= 1;
        }
    }

    /// One turn of a run: its ending, or the action of the process that is picked, which prints to `out`. It answers the ending, or None where the
    /// run goes on.
    fn turn(
        &mut self,
        image: &Image,
        picker: &mut Picker,
        limit: u64,
        left: u64,
        out: &mut Output,
    ) -> Option<Ending>
        requires { MayRun (plain_image image.now) left picker.old self.old.machine }
        ensures turn { IsTurn (plain_image image.now) limit left picker.old picker.new self.old.machine self.new.machine result out.old out.new }
        ensures some { result ≡ None → 0 < left }
    {
        match next_actor(&mut self.machine, picker, limit, left) {
            Ok(p) => self.act_out(image, p, picker, out),
            Err(ending) => Some(ending),
        }
    }

    /// One action of the process that was picked, which prints to `out`. It answers the ending that this is, or None where the run goes on.
    fn act_out(
        &mut self,
        image: &Image,
        p: u32,
        picker: &mut Picker,
        out: &mut Output,
    ) -> Option<Ending>
        requires alone { self.old.machine.world.acting ≡ None }
        requires may { MayAct (plain_image image.now) picker.old p (begins p self.old.machine) }
        requires picked { (picking : Picking) × (m : Machine) × IsPick picking picker.old m self.old.machine p }
        ensures turn { (limit left : ℕ) (picking : Picking) (m : Machine) → 0 < left → IsPick picking picker.old m self.old.machine p
            → IsTurn (plain_image image.now) limit left picking picker.new m self.new.machine result out.old out.new }
    {
        let Ok(end) = self.act(image, p, picker, out) else {
            return Some(Ending::Memory);
        };
        match end {
            ActionEnd::Done => None,
            ActionEnd::Faulted { line, fault } => {
                settle(&mut self.machine);
                Some(Ending::Fault {
                    process: p,
                    line,
                    fault,
                })
            }
        }
    }
}
