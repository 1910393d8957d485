//! Settling whole.
ghost use Rattle.std.specs.Prelude.{◌≡◌, None, true};
ghost use Rattle.pfc_world.specs.Settling.{IsLeftBy, earliest, may_all_end};
ghost use Rattle.pfc_world.specs.Terminating.{terminated};
ghost use Rattle.pfc_semantics.specs.Configurations.{Config};
ghost use Rattle.pfc_semantics.specs.Time.{settled_config};
ghost use Rattle.pfc_activities.specs.declared.source.Source.{Source};
ghost use Rattle.pfc_activities.specs.Relation.{Stands, Reports};

use crate::children::end_children;
use pfc_activities::State;
use pfc_world::{Settled, World};
use std::alloc::Global;

/// Whether somebody is ready, where no due moment is pending.
fn answer(world: &World) -> Settled
    requires { earliest world.now.rows ≡ None }
    ensures { IsLeftBy result world.now.rows }
{
    if world.ready_count() == 0 {
        Settled::NobodyReady
    } else {
        Settled::SomeReady
    }
}

/// The children that wait in a select with an open `terminate` have finished, and main is ready where it waits for them.
fn finish_children(world: &mut World) -> Settled
    requires { may_all_end world.old.rows ≡ true }
    ensures world { world.new ≡ terminated world.old }
    ensures left { IsLeftBy result world.new.rows }
{
    world.terminate();
    answer(world)
}

/// Whoever is due is ready; where nobody is, the clock goes on to the earliest due moment; and where none is pending, the children that
/// wait for nothing but to communicate or to terminate finish. It answers whether somebody is ready. It takes no memory.
pub fn settle<'t>(alloc: Global, state: &mut State<'t>) -> Settled
    requires { state.old.world.acting ≡ None }
    ensures left { IsLeftBy result state.new.world.rows }
    ensures acting { state.new.world.acting ≡ None }
    ensures stands { (source : Source) (c : Config) → Stands source state.old c → Stands source state.new (settled_config c) }
    ensures reports { (c : Config) → Reports state.old c → Reports state.new (settled_config c) }
{
    let settled = state.world.settle();
    if !state.world.may_all_end() {
        return settled;
    }
    end_children(alloc, state);
    finish_children(&mut state.world)
}
