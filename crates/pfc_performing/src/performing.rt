//! What performs the action of a process.
ghost use Rattle.std.specs.Prelude.{◌≡◌, ℕ, List, IfOk, IfErr, OnErr};
ghost use Rattle.pfc_pending.specs.declared.actions.Deed.TheVariants as deed;
ghost use Rattle.pfc_sched.specs.Picks.{Picking};
ghost use Rattle.pfc_activities.specs.declared.source.Source.{Source as HeldSource};
ghost use Rattle.pfc_activities.specs.Relation.{MayAct, StaysAt};
ghost use Rattle.pfc_performing.specs.Performing.{IsTried, IsDone};

use crate::calls::{call, finish};
use crate::guards::{bar, pass, scan};
use crate::meetings::{meet, part};
use crate::objects::{ask_empty, delay, initial, resume, signal, wait};
use crate::variables::{input, read, write};
use pfc_activities::{Done, Source, State};
use pfc_base::Memory;
use pfc_deciding::decides;
use pfc_deeds::{asks_clock, asks_eof, asks_eoln, draws, faults, prints, skips, turns};
use pfc_pending::{Deed, Piece, Selecting};
use pfc_sched::Picker;
use pfc_values::Output;
use pfc_waiting::{joins, sleeps};
use std::alloc::Global;

/// An action that writes nothing and chooses nothing. Any other is given back.
fn perform_plain<'t>(
    alloc: Global,
    source: &'t Source<'t>,
    state: &mut State<'t>,
    p: u32,
    deed: Deed<'t>,
) -> Result<Done, Deed<'t>>
    requires { MayAct state.old p }
    ensures { IsTried source.now state.old state.new p deed.entry result }
{
    match deed {
        Deed::Reads(spot) => read(alloc, state, p, spot),
        Deed::Writes(spot, value) => write(alloc, state, p, spot, value),
        Deed::Turns => Ok(turns(state, p)),
        Deed::Calls(callee, args) => call(alloc, source, state, p, callee, args),
        Deed::Finishes(line) => finish(alloc, source, state, p, line),
        Deed::Inputs(t, spot) => input(alloc, state, p, t, spot),
        Deed::Skips => Ok(skips(state, p)),
        Deed::AsksEof => Ok(asks_eof(state, p)),
        Deed::AsksEoln => Ok(asks_eoln(state, p)),
        Deed::AsksClock => Ok(asks_clock(state, p)),
        Deed::AsksEmpty(spot) => ask_empty(state, p, spot),
        Deed::Draws(n) => Ok(draws(state, p, n)),
        Deed::Joins => Ok(joins(state, p)),
        Deed::Initials(spot, n) => initial(state, p, spot, n),
        Deed::Waits(spot) => wait(state, p, spot),
        Deed::Signals(spot) => signal(state, p, spot),
        Deed::Delays(spot, rank) => delay(state, p, spot, rank),
        Deed::Resumes(spot) => resume(state, p, spot),
        Deed::Sleeps(n) => Ok(sleeps(state, p, n)),
        Deed::Meets(offer) => meet(alloc, source, state, p, offer),
        Deed::Parts(caller) => part(state, p, caller),
        Deed::Scans(turn) => scan(state, p, turn),
        Deed::Bars(guard) => bar(state, p, guard),
        Deed::Passes(tried, turn) => pass(state, p, tried, turn),
        Deed::Faults(fault) => Ok(faults(state, p, fault)),
        other => Err(other),
    }
}

/// An output piece, whose bytes are put behind `out`.
#[tactic(auto, using(crate::proofs::Performed::stays))]
fn print<'t>(
    state: &mut State<'t>,
    p: u32,
    bytes: Piece<'t>,
    width: Option<i64>,
    out: &mut Output,
) -> Result<Done, Deed<'t>>
    requires { MayAct state.old p }
    ensures ok { (source : HeldSource) (picking : Picking) →
        IfOk result (λ d. IsDone source state.old state.new p (deed.Prints bytes.entry width) picking picking out.old out.new d) }
    ensures err { OnErr result (StaysAt state.old state.new p) }
    ensures given { IfErr result (λ given. given ≡ deed.Prints bytes.entry width) }
    ensures kept { OnErr result (out.new ≡ out.old) }
{
    match prints(state, p, bytes, width, out) {
        Ok(done) => Ok(done),
        Err(Memory) => Err(Deed::Prints(bytes, width)),
    }
}

/// The deciding action of a select.
fn decide<'t>(
    alloc: Global,
    source: &Source<'t>,
    state: &mut State<'t>,
    p: u32,
    select: Selecting<'t>,
    picker: &mut Picker,
) -> Result<Done, Deed<'t>>
    requires { MayAct state.old p }
    ensures ok { (out : List ℕ) → IfOk result (λ d. IsDone source.now state.old state.new p (deed.Decides select.entry) picker.old picker.new out out d) }
    ensures err { OnErr result (StaysAt state.old state.new p) }
    ensures given { IfErr result (λ given. given ≡ deed.Decides select.entry) }
    ensures unchosen { OnErr result (picker.new ≡ picker.old) }
{
    match decides(alloc, source, state, p, select, picker) {
        Ok(done) => Ok(done),
        Err(select) => Err(Deed::Decides(select)),
    }
}

/// Performs the action of a process, a frequent one at once; what it writes is put behind `out`, and a select that has something to choose
/// among asks the picker. Its only refusal is want of memory: then the action is given back, and all is as it was.
#[inline(always)]
pub fn perform<'t>(
    alloc: Global,
    source: &'t Source<'t>,
    state: &mut State<'t>,
    p: u32,
    deed: Deed<'t>,
    picker: &mut Picker,
    out: &mut Output,
) -> Result<Done, Deed<'t>>
    requires { MayAct state.old p }
    ensures ok { IfOk result (λ d. IsDone source.now state.old state.new p deed.entry picker.old picker.new out.old out.new d) }
    ensures err { OnErr result (StaysAt state.old state.new p) }
    ensures given { IfErr result (λ given. given ≡ deed.entry) }
    ensures kept { OnErr result (out.new ≡ out.old) }
    ensures unchosen { OnErr result (picker.new ≡ picker.old) }
{
    match deed {
        Deed::Turns => Ok(turns(state, p)),
        Deed::Reads(spot) => read(alloc, state, p, spot),
        Deed::Writes(spot, value) => write(alloc, state, p, spot, value),
        other => perform_other(alloc, source, state, p, other, picker, out),
    }
}

/// The same of any action.
#[inline(never)]
fn perform_other<'t>(
    alloc: Global,
    source: &'t Source<'t>,
    state: &mut State<'t>,
    p: u32,
    deed: Deed<'t>,
    picker: &mut Picker,
    out: &mut Output,
) -> Result<Done, Deed<'t>>
    requires { MayAct state.old p }
    ensures ok { IfOk result (λ d. IsDone source.now state.old state.new p deed.entry picker.old picker.new out.old out.new d) }
    ensures err { OnErr result (StaysAt state.old state.new p) }
    ensures given { IfErr result (λ given. given ≡ deed.entry) }
    ensures kept { OnErr result (out.new ≡ out.old) }
    ensures unchosen { OnErr result (picker.new ≡ picker.old) }
{
    match deed {
        Deed::Prints(bytes, width) => print(state, p, bytes, width, out),
        Deed::Decides(select) => decide(alloc, source, state, p, select, picker),
        other => perform_plain(alloc, source, state, p, other),
    }
}
