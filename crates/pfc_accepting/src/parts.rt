//! Parts that are put on what is pending, in room that was taken before.
ghost use Rattle.std.specs.Prelude.{◌≡◌, ◌+◌, ◌≤◌, option_map};
ghost use Rattle.std.specs.Vec.{vec_len, vec_capacity};
ghost use Rattle.pfc_program.specs.declared.tables.Tables.{Tables};
ghost use Rattle.pfc_semantics.specs.Channels.{behind_replica};
ghost use Rattle.pfc_semantics.specs.Statements.{behind};
ghost use Rattle.pfc_pending.specs.Selects.{replica_view};
ghost use Rattle.pfc_pending.specs.Texts.{stmts_left};
ghost use Rattle.pfc_pending.specs.Waiting.{remainder_of, waiting, over};

use pfc_pending::{Pending, Replica, Stmts};

/// One part more is pending.
#[tactic(auto, using(std::proofs::lemmas::List::Sums::fold_push))]
pub(crate) fn put<'t>(pending: &mut Vec<Pending<'t>>, part: Pending<'t>)
    requires { vec_len pending.old + 1 ≤ vec_capacity pending.old }
    ensures over { (t : Tables) → waiting t pending.new.items ≡ over t (waiting t pending.old.items) part.entry }
    ensures count { vec_len pending.new ≡ vec_len pending.old + 1 }
    ensures room { vec_capacity pending.old ≤ vec_capacity pending.new }
{
    pending.push(part).unwrap();
}

/// Statements are pending, whose next scope has this number, unless there are none.
#[tactic(auto, using(crate::proofs::Statements::behind_none, crate::proofs::Statements::behind_some))]
pub(crate) fn put_statements<'t>(pending: &mut Vec<Pending<'t>>, next: u32, stmts: Stmts<'t>)
    requires { vec_len pending.old + 1 ≤ vec_capacity pending.old }
    ensures over { (t : Tables) → remainder_of (waiting t pending.new.items) ≡ behind next (stmts_left stmts.entry)
        (remainder_of (waiting t pending.old.items)) }
    ensures count { vec_len pending.new ≤ vec_len pending.old + 1 }
    ensures room { vec_capacity pending.old ≤ vec_capacity pending.new }
{
    if stmts.from < stmts.list.len() {
        put(pending, Pending::Perform(next, stmts));
    }
}

/// The write of a replica is pending, where there is one.
pub(crate) fn put_replica<'t>(pending: &mut Vec<Pending<'t>>, replica: Option<Replica>)
    requires { vec_len pending.old + 1 ≤ vec_capacity pending.old }
    ensures { (t : Tables) → remainder_of (waiting t pending.new.items) ≡ behind_replica (option_map replica_view replica)
        (remainder_of (waiting t pending.old.items)) }
{
    if let Some(r) = replica {
        put(pending, Pending::WriteAgain(r));
    }
}
