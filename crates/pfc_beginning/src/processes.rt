//! The processes before the first action.
ghost use Rattle.std.specs.Prelude.{◌≡◌, ◌+◌, ◌<◌, List, [], ◌∷◌, ◌++◌, length, get_or, map, IfOk, OnOk};
ghost use Rattle.pfc_program.specs.declared.tables.Tables.{Tables};
ghost use Rattle.pfc_semantics.specs.Values.{Value};
ghost use Rattle.pfc_semantics.specs.Configurations.{plain, of_nobody, main_activity, idle_activity};
ghost use Rattle.pfc_activities.specs.Shown.{shown, activity_shown, activities_shown};
ghost use Rattle.pfc_activities.specs.Views.{activations_view};
ghost use Rattle.pfc_beginning.specs.Beginnings.{program_with};

use crate::bodies::main_pending;
use pfc_activities::{Activation, Activity, Caller, Doing, Hand, Mark, Source};
use pfc_base::Memory;
use pfc_pending::{At, Pending};
use pfc_program::Block;
use pfc_store::Display;
use std::alloc::Global;

/// How many cells each activation has beside its variables.
const OWN_CELLS: u64 = 8;

/// Main's activation alone, which has the number 0.
fn main_activations<'t>(alloc: Global, main: &Block<'t>) -> Result<Vec<Activation<'t>>, Memory>
    ensures { IfOk result (λ made. (t : Tables) → activations_view t made.items ≡ record {
      number = 0;
      scope = 0;
      mark = plain;
      caller = of_nobody;
      display =
          [];
      cells = main.now.cells + 8;
    } ∷ []) }
{
    let activation = Activation {
        number: 0,
        scope: 0,
        mark: Mark::Plain,
        caller: Caller::Nobody,
        display: Display::new(alloc),
        cells: u64::from(main.cells) + OWN_CELLS,
    };
    let mut activations = Vec::new(alloc);
    activations.push(activation)?;
    Ok(activations)
}

/// Main, before the initialising bodies and its own.
fn main_process<'t>(alloc: Global, source: &Source<'t>) -> Result<Activity<'t>, Memory>
    ensures { IfOk result (λ a. (variables : List Value) →
        shown (main_activity (program_with source.now variables)) ≡ activity_shown source.now.program.tables a) }
{
    let main = &source.program.main;
    let names = main.names.copy(alloc)?;
    let activations = main_activations(alloc, main)?;
    let pending = main_pending(alloc, &source.program)?;
    let doing = Doing {
        names,
        line: main.first_line,
        at: At::Rest,
        pending,
    };
    Ok(Activity {
        doing,
        display: Display::new(alloc),
        activations,
        hand: Hand::Empty,
        line: main.first_line,
    })
}

/// A process that was never activated, by the number of its declaration.
fn idle_process<'t>(
    alloc: Global,
    source: &Source<'t>,
    declaration: u32,
) -> Result<Activity<'t>, Memory>
    ensures { IfOk result (λ a. (variables : List Value) →
        shown (idle_activity (program_with source.now variables) declaration) ≡ activity_shown source.now.program.tables a) }
{
    let scope = source.program.tables.scopes.process_scope(declaration);
    let block = source.program.block_at(scope);
    let names = block.names.copy(alloc)?;
    let mut pending = Vec::new(alloc);
    pending.reserve(1)?;
    pending.push_reserved(Pending::Ends(block.last_line));
    let doing = Doing {
        names,
        line: block.first_line,
        at: At::Rest,
        pending,
    };
    Ok(Activity {
        doing,
        display: Display::new(alloc),
        activations: Vec::new(alloc),
        hand: Hand::Empty,
        line: block.first_line,
    })
}

/// One process more.
#[tactic(auto, using(crate::proofs::Parts::shown_ones))]
fn add<'t>(made: &mut Vec<Activity<'t>>, activity: Activity<'t>) -> Result<(), Memory>
    ensures { OnOk result ((t : Tables) → activities_shown t made.new.items ≡ activities_shown t made.old.items ++ activity_shown t activity.entry ∷ []) }
{
    let Ok(()) = made.reserve(1) else {
        drop(activity);
        return Err(Memory);
    };
    made.push_reserved(activity);
    Ok(())
}

/// The number of the declaration of a process, by its place from 0.
fn declaration_at(source: &Source, i: usize) -> u32
    requires { i < length source.now.objects.processes.items }
    ensures { result ≡ get_or source.now.objects.processes.items i 0 }
{
    source.objects.processes[i]
}

/// All processes by their numbers, main first. Its only refusal is want of memory.
pub(crate) fn processes<'t>(alloc: Global, source: &Source<'t>) -> Result<Vec<Activity<'t>>, Memory>
    ensures { IfOk result (λ made. (variables : List Value) →
        map shown (main_activity (program_with source.now variables) ∷ map
        (idle_activity (program_with source.now variables)) source.now.objects.processes.items) ≡ activities_shown source.now.program.tables made.items) }
{
    let mut made = Vec::new(alloc);
    let main = main_process(alloc, source)?;
    add(&mut made, main)?;
    for i in 0..source.objects.processes.len() {
        let process = idle_process(alloc, source, declaration_at(source, i))?;
        add(&mut made, process)?;
    }
    Ok(made)
}
