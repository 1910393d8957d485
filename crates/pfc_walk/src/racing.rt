//! The races of a program's run.
ghost use Rattle.std.specs.Prelude.{◌≡◌, ◌≤◌, IfOk, length};
ghost use Rattle.pfc_tree.specs.views.Parts.{tree_view};
ghost use Rattle.pfc_beginning.specs.Beginnings.{program_with};
ghost use Rattle.pfc_semantics.specs.Programs.{program_of};
ghost use Rattle.pfc_races.specs.Ordered.{lines_of_races as lines_by};
ghost use Rattle.pfc_store.specs.Views.{values_view};
ghost use Rattle.pfc_outcome.specs.Loaded.{asks};
ghost use Rattle.pfc_outcome.specs.Requests.{settings_of};
ghost use Rattle.pfc_outcome.specs.WalkOptions.{most_watched};
ghost use Rattle.pfc_walk.specs.Traces.{races_by};

use crate::reading::Sound;
use crate::running::{Made, make_program};
use pfc_activities::Source;
use pfc_base::Memory;
use pfc_hb::{Event, race_lines, races};
use pfc_outcome::{Loaded, Options};
use pfc_races::events_are_few;
use pfc_sched::{Picker, Policy};
use pfc_store::Value;
use pfc_walker::Walker;
use std::alloc::Global;

/// The lines of the races of a program's run under a policy. A run is determined by what it begins with, so it is made once more for its events
/// alone: a run of which no races are told keeps none. The only refusal is want of memory.
pub(crate) fn lines_of_races(
    alloc: Global,
    sound: &Sound,
    options: &Options<'_>,
    loaded: &Loaded,
    policy: Policy,
) -> Result<Vec<u8>, Memory>
    requires { options.now.limit ≤ most_watched }
    ensures { IfOk result (λ lines. lines.items ≡ races_by (tree_view sound.now.checked.0) (settings_of (asks options.now loaded.now) policy)) }
{
    match make_program(alloc, sound) {
        Ok(Made { source, variables }) => {
            races_of_source(alloc, &source, variables, sound, options, loaded, policy)
        }
        Err(Memory) => Err(Memory),
    }
}

/// The lines of the races of a program's run, as `lines_of_races` has them.
fn races_of_source(
    alloc: Global,
    source: &Source<'_>,
    variables: Vec<Value>,
    sound: &Sound,
    options: &Options<'_>,
    loaded: &Loaded,
    policy: Policy,
) -> Result<Vec<u8>, Memory>
    requires made { program_with source.now (values_view variables.items) ≡ program_of (tree_view sound.now.checked.0) }
    requires few { options.now.limit ≤ most_watched }
    ensures { IfOk result (λ lines. lines.items ≡ races_by (tree_view sound.now.checked.0) (settings_of (asks options.now loaded.now) policy)) }
{
    events_are_few();
    let mut walker = Walker::start(alloc, source, variables, loaded.input.bytes(), options.seed)?;
    let mut picker = Picker::new(policy);
    let events = walker.events(alloc, &mut picker, options.limit)?;
    lines(alloc, &events)
}

/// The lines of the races among events.
fn lines(alloc: Global, events: &[Event]) -> Result<Vec<u8>, Memory>
    requires { length events.now ≤ most_watched }
    ensures { IfOk result (λ lines. lines.items ≡ lines_by events.now) }
{
    let races = races(alloc, events)?;
    race_lines(alloc, events, &races)
}
