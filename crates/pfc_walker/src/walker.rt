//! A program between two actions.
ghost use Rattle.std.specs.Prelude.{◌≡◌, IfOk, false};
ghost use Rattle.pfc_store.specs.Views.{values_view};
ghost use Rattle.pfc_semantics.specs.Configurations.{start};
ghost use Rattle.pfc_beginning.specs.Beginnings.{program_with};
ghost use Rattle.pfc_walker.specs.Walks.{Walks};

use pfc_activities::{Source, State};
use pfc_base::Memory;
use pfc_beginning::at_start;
use pfc_store::Value;
use std::alloc::Global;

/// A program that runs by rewriting: its source, all that there is between two actions, whether the output so far ends inside a line, and whether
/// main's last action began a wait at `coend`, as far as its actions were watched.
#[derive(Drop)]
pub struct Walker<'t> {
    pub(crate) source: &'t Source<'t>,
    pub(crate) state: State<'t>,
    pub(crate) in_line: bool,
    pub(crate) waited: bool,
}

impl<'t> Walker<'t> {
    /// The program before its first action, over the first values of main's variables, an input and a seed of `random`. Its only refusal
    /// is want of memory; more than 1,023 processes beside main count as one.
    pub fn start(
        alloc: Global,
        source: &'t Source<'t>,
        variables: Vec<Value>,
        input: &[u8],
        seed: u64,
    ) -> Result<Walker<'t>, Memory>
        ensures source { IfOk result (λ w. w.source.now ≡ source.now) }
        ensures unwaited { IfOk result (λ w. w.waited ≡ false) }
        ensures walks { IfOk result (λ w. Walks w (program_with source.now (values_view variables.items))
            (start (program_with source.now (values_view variables.items)) input.now seed)) }
    {
        let state = at_start(alloc, source, variables, input, seed)?;
        Ok(Walker {
            source,
            state,
            in_line: false,
            waited: false,
        })
    }

    /// Whether the output is not empty and has no line end at its end. It is known where the output was told and the run not broken off.
    pub fn open_line(&self) -> bool
        ensures { result ≡ self.now.in_line }
    {
        self.in_line
    }
}
