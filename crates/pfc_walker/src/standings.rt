//! How the processes stand, for the report.
ghost use Rattle.std.specs.Prelude.{◌≡◌, IfOk};
ghost use Rattle.pfc_semantics.specs.Configurations.{Config};
ghost use Rattle.pfc_semantics.specs.Runs.{standings};
ghost use Rattle.pfc_activities.specs.Relation.{Reports};
ghost use Rattle.pfc_walker.specs.Lines.{lines_of, standings_at};

use crate::Walker;
use pfc_activities::State;
use pfc_base::Memory;
use pfc_state::Standing;
use std::alloc::Global;

impl<'t> Walker<'t> {
    /// How the processes stand, in the order of their numbers. Its only refusal is want of memory.
    pub fn standings(&self, alloc: Global) -> Result<Vec<Standing>, Memory>
        ensures { IfOk result (λ list. (c : Config) → Reports self.now.state c → list.items ≡ standings c) }
    {
        let list = standings_of(alloc, &self.state)?;
        Ok(list)
    }
}

/// The standings of a state.
fn standings_of(alloc: Global, state: &State) -> Result<Vec<Standing>, Memory>
    ensures { IfOk result (λ list. list.items ≡ standings_at 0 state.now.world.rows (lines_of state.now)) }
{
    let mut list = Vec::new(alloc);
    for p in 0..state.world.processes() {
        let Some(activity) = state.activities.get(p as usize) else {
            return Ok(list);
        };
        list.push(Standing {
            process: p,
            state: state.world.state(p),
            line: activity.line,
        })?;
    }
    Ok(list)
}
