//! The action that comes next for a process.
ghost use Rattle.std.specs.Prelude.{◌≡◌, IfOk, OnErr, MatchOption};
ghost use Rattle.pfc_semantics.specs.Configurations.{Config};
ghost use Rattle.pfc_activities.specs.declared.source.Source.{Source as HeldSource};
ghost use Rattle.pfc_activities.specs.Views.{doing_ahead, deed_of};
ghost use Rattle.pfc_activities.specs.Relation.{MayAct};
ghost use Rattle.pfc_acting.specs.Acting.{StandsBefore, IsBeforeDeed};
ghost use Rattle.pfc_pending.specs.declared.at_hand.At.TheVariants as at;

use pfc_activities::{Doing, Source, State};
use pfc_base::Memory;
use pfc_frequent_steps::step_often;
use pfc_pending::{At, Deed};
use pfc_program::Program;
use pfc_rewriting::{Going, next_deed};
use std::alloc::Global;
use std::mem;

/// This is at hand. Before it there was mostly nothing, which takes no work to let go of.
fn hold<'t>(place: &mut At<'t>, at: At<'t>)
    ensures { place.new ≡ at.entry }
{
    match mem::replace(place, at) {
        At::Rest => {}
        before => let_go(before),
    }
}

/// Lets go of what was at hand.
#[inline(never)]
fn let_go<'t>(_before: At<'t>) {}

/// The one action that comes next for what a process is at. What is left behind it is pending then. Its only refusal is want of memory,
/// which leaves the process before the same action. Frequent steps are taken first, where the process stands.
fn rewrite<'t>(
    alloc: Global,
    program: &Program<'t>,
    doing: &mut Doing<'t>,
) -> Result<Deed<'t>, Memory>
    ensures ok { IfOk result (λ deed. deed_of program.now.tables doing.new deed ≡ doing_ahead program.now.tables doing.old) }
    ensures err { OnErr result (doing_ahead program.now.tables doing.new ≡ doing_ahead program.now.tables doing.old) }
{
    step_often(
        alloc,
        program,
        &doing.names,
        &mut doing.at,
        &mut doing.line,
        &mut doing.pending,
    );
    match deed_at_hand(&mut doing.at) {
        Some(deed) => Ok(deed),
        None => rewrite_any(alloc, program, doing),
    }
}

/// The action that is at hand, taken from there; None where none is, and then all is as it was.
fn deed_at_hand<'t>(place: &mut At<'t>) -> Option<Deed<'t>>
    ensures { MatchOption result (place.new ≡ place.old) (λ deed. place.old ≡ at.Deed deed) }
{
    if !matches!(place, At::Deed(_)) {
        return None;
    }
    match mem::replace(place, At::Rest) {
        At::Deed(deed) => Some(deed),
        other => {
            hold(place, other);
            None
        }
    }
}

/// The same by any steps.
#[inline(never)]
fn rewrite_any<'t>(
    alloc: Global,
    program: &Program<'t>,
    doing: &mut Doing<'t>,
) -> Result<Deed<'t>, Memory>
    ensures ok { IfOk result (λ deed. deed_of program.now.tables doing.new deed ≡ doing_ahead program.now.tables doing.old) }
    ensures err { OnErr result (doing_ahead program.now.tables doing.new ≡ doing_ahead program.now.tables doing.old) }
{
    let mut going = Going {
        line: doing.line,
        at: mem::replace(&mut doing.at, At::Rest),
        pending: mem::replace(&mut doing.pending, Vec::new(alloc)),
    };
    let came = next_deed(alloc, program, &mut doing.names, &mut going);
    let Going { line, at, pending } = going;
    doing.line = line;
    hold(&mut doing.at, at);
    drop(mem::replace(&mut doing.pending, pending));
    came
}

/// The action that comes next for a process that is ready, taken from it. Its only refusal is want of memory, which leaves the process before
/// the same action.
pub fn next<'t>(
    alloc: Global,
    source: &'t Source<'t>,
    state: &mut State<'t>,
    p: u32,
) -> Result<Deed<'t>, Memory>
    requires { MayAct state.old p }
    ensures ok { IfOk result (λ deed. (c : Config) → StandsBefore source.now state.old c p → IsBeforeDeed source.now state.new c p deed) }
    ensures err { OnErr result ((c : Config) → StandsBefore source.now state.old c p → StandsBefore source.now state.new c p) }
    ensures may { MayAct state.new p }
{
    let activity = &mut state.activities[p as usize];
    match rewrite(alloc, &source.program, &mut activity.doing) {
        Ok(deed) => Ok(deed),
        Err(Memory) => Err(Memory),
    }
}

/// The process is before this action again, which was not done. Where there is no such process, nothing changes.
pub fn put_back<'t>(state: &mut State<'t>, p: u32, deed: Deed<'t>)
    ensures { (source : HeldSource) (c : Config) → IsBeforeDeed source state.old c p deed.entry → StandsBefore source state.new c p }
{
    if p as usize >= state.activities.len() {
        return;
    }
    state.activities[p as usize].doing.at = At::Deed(deed);
}
