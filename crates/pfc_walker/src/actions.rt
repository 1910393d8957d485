//! One action of a process.
ghost use Rattle.std.specs.Prelude.{◌≡◌, ◌<◌, ◌≤◌, ℕ, IfOk, OnErr, length};
ghost use Rattle.pfc_values.specs.Outputs.{is_open_line};
ghost use Rattle.pfc_semantics.specs.Configurations.{Config};
ghost use Rattle.pfc_semantics.specs.Programs.{Program};
ghost use Rattle.pfc_walker.specs.Walks.{IsReadyToAct, IsStep, Walks, WalksBefore};
ghost use Rattle.pfc_walker.specs.declared.walker.Walker.{Walker};

use crate::Walker;
use pfc_base::Memory;
use pfc_sched::Picker;
use pfc_values::Output;
use pfc_watching::{Walked, act_watched};
use std::alloc::Global;

impl<'t> Walker<'t> {
    /// One action of a process that is ready: all that is quiet, and then the action that comes next. What it prints is put behind `out`, and
    /// a select that has something to choose among asks the picker. It answers the event that the action was, or which fault it is, at which
    /// line. Its only refusal is want of memory: then the process is before the same action, which can be tried again, and the output and the
    /// picker are as they were.
    pub fn act(
        &mut self,
        alloc: Global,
        p: u32,
        picker: &mut Picker,
        out: &mut Output,
    ) -> Result<Walked, Memory>
        requires { (g : Program) × (c : Config) × WalksBefore self.old g c p × IsReadyToAct c p }
        ensures ok { IfOk result (λ walked. (g : Program) (c : Config) → WalksBefore self.old g c p →
            IsStep self.old.waited self.new g c p picker.old picker.new out.old out.new walked) }
        ensures err { OnErr result ((g : Program) (c : Config) → WalksBefore self.old g c p → WalksBefore self.new g c p) }
        ensures kept { OnErr result (out.new ≡ out.old) }
        ensures unchosen { OnErr result (picker.new ≡ picker.old) }
        ensures unwatched { OnErr result (self.new.waited ≡ self.old.waited) }
        ensures source { self.new.source.now ≡ self.old.source.now }
    {
        let before = out.bytes().len();
        let walked = act_watched(
            alloc,
            self.source,
            &mut self.state,
            p,
            &mut self.waited,
            picker,
            out,
        )?;
        self.in_line = line_behind(self.in_line, before, out);
        Ok(walked)
    }
}

/// Whether an output ends inside a line, of which so many bytes were held before an action, where it is known whether it did then.
fn line_behind(in_line: bool, before: usize, out: &Output) -> bool
    ensures more { before < length out.now → result ≡ is_open_line out.now }
    ensures none { length out.now ≤ before → result ≡ in_line }
{
    if out.bytes().len() > before {
        return out.ends_inside_line();
    }
    in_line
}

/// A walker that stands for a configuration is before an action of each of its processes.
pub fn a_walker_is_before_its_actions()
    ensures { (w : Walker) (g : Program) (c : Config) (p : ℕ) → p < length c.table.rows → Walks w g c → WalksBefore w g c p }
{}
