//! How a process goes on with one more that is pending.
ghost use Rattle.std.specs.Prelude.{◌≡◌, [], ◌∷◌, ◌++◌, IfOk, OnOk, OnErr};
ghost use Rattle.pfc_activities.specs.Relation.{MayAct, StaysAt};
ghost use Rattle.pfc_guarding.specs.Under.{IsLike, GoesUnder};

use pfc_activities::{Activity, Done, State};
use pfc_base::Memory;
use pfc_pending::{At, Pending};

/// Puts one more before what is pending. Its only refusal is want of memory; then there is nothing to be seen of it.
fn put_under<'t>(activity: &mut Activity<'t>, part: Pending<'t>) -> Result<(), Memory>
    ensures ok { OnOk result (IsLike activity.old activity.new (activity.old.doing.pending.items ++ part.entry ∷ [])) }
    ensures err { OnErr result (IsLike activity.old activity.new activity.old.doing.pending.items) }
{
    activity.doing.pending.push(part)?;
    Ok(())
}

/// The process goes on with one more before what is pending, which comes next. Its only refusal is want of memory; then there is nothing to be
/// seen of it.
pub(crate) fn go_under<'t>(state: &mut State<'t>, p: u32, part: Pending<'t>) -> Result<Done, Memory>
    requires { MayAct state.old p }
    ensures ok { IfOk result (λ d. GoesUnder state.old state.new p part.entry d) }
    ensures err { OnErr result (StaysAt state.old state.new p) }
{
    put_under(&mut state.activities[p as usize], part)?;
    Ok(state.go_on(p, At::Rest))
}
