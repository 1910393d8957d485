//! The reading of statements that hold none, and of what an alternative waits for without holding one.
ghost use Rattle.std.specs.Prelude.{◌≡◌, ◌≤◌, Bool, length, IfOk};
ghost use Rattle.pfc_base.specs.declared.sign.TheConstants.{SEND, RECEIVE};
ghost use Rattle.pfc_tree.specs.views.Exprs.{desig_view};
ghost use Rattle.pfc_tree.specs.views.Stmts.{stmt_view, comm_view};
ghost use Rattle.pfc_tree.specs.trees.Stmts as trees;
ghost use Rattle.pfc_tree.specs.trees.Stmts.{empty};
ghost use Rattle.pfc_grammar.specs.Heads.{as_name, as_sign};
ghost use Rattle.pfc_grammar.specs.placed.Reading.{bind, branch, pure};
ghost use Rattle.pfc_grammar.specs.placed.Exprs.{actuals_with, desig_with, expr_at};
ghost use Rattle.pfc_grammar.specs.placed.Stmts as reader;
ghost use Rattle.pfc_token_parser.specs.Giving.{Gives};

use pfc_base::{Name, Place, Token, sign, word};
use pfc_expression_parser::{actuals, boxed_expr, desig, desig_behind, expr};
use pfc_token_parser::{Halt, expect_name, expect_sign, name, sign, word};
use pfc_tree::{Comm, Desig, Stmt};
use std::alloc::Global;

/// `name [actuals]`, behind `requeue`, which stands at `place`
#[tactic(auto, unfolding(pfc_grammar::specs::placed::Stmts::requeue_behind, pfc_grammar::specs::placed::Reading::bind, pfc_grammar::specs::placed::Reading::pure))]
pub(crate) fn requeue_behind(
    levels: u8,
    place: Place,
    tokens: &[Token],
    alloc: Global,
) -> Result<(Stmt, &[Token]), Halt>
    ensures gives { Gives (λ r. (stmt_view r.0, r.1.now)) result (reader.requeue_behind (expr_at levels) place tokens.now) }
    ensures kept { IfOk result (λ r. length r.1.now ≤ length tokens.now) }
{
    let (name, rest) = expect_name(tokens, alloc)?;
    let (args, rest) = actuals(levels, rest, alloc)?;
    Ok((Stmt::Requeue(name, args, place), rest))
}

/// `desig (":=" expr | "!" expr | "?" desig | [actuals])`, behind its name, which stands at `first`
#[inline(never)]
#[tactic(auto, using(pfc_token_parser::proofs::Branches::branch_taken, pfc_token_parser::proofs::Branches::branch_not_taken), unfolding(pfc_grammar::specs::placed::Stmts::action_behind, pfc_grammar::specs::placed::Reading::bind, pfc_grammar::specs::placed::Reading::pure))]
pub(crate) fn action_behind<'a>(
    levels: u8,
    x: &Name,
    first: Place,
    tokens: &'a [Token],
    alloc: Global,
) -> Result<(Stmt, &'a [Token]), Halt>
    ensures gives { Gives (λ r. (stmt_view r.0, r.1.now)) result (reader.action_behind (expr_at levels) (x.now, first) tokens.now) }
    ensures kept { IfOk result (λ r. length r.1.now ≤ length tokens.now) }
{
    let copy = x.copy(alloc)?;
    let (target, rest) = desig_behind(levels, (copy, first), tokens, alloc)?;
    if let Some((place, behind)) = sign(rest, sign::BECOMES) {
        let (value, rest) = boxed_expr(levels, behind, alloc)?;
        return Ok((Stmt::Assign(target, value, first, place), rest));
    }
    message_or_call(levels, target, first, rest, alloc)
}

/// `"!" expr | "?" desig | [actuals]`, behind its target, which stands at `first`. It stands apart, so that an assignment has no
/// room for it.
#[inline(never)]
#[tactic(auto, using(pfc_token_parser::proofs::Branches::branch_taken, pfc_token_parser::proofs::Branches::branch_not_taken), unfolding(pfc_grammar::specs::placed::Reading::bind, pfc_grammar::specs::placed::Reading::pure))]
fn message_or_call(
    levels: u8,
    target: Desig,
    first: Place,
    tokens: &[Token],
    alloc: Global,
) -> Result<(Stmt, &[Token]), Halt>
    ensures gives { Gives (λ r. (stmt_view r.0, r.1.now)) result
        (branch (as_sign SEND) (λ t. bind (expr_at levels) (λ value. pure (trees.send (desig_view target) value first t.1)))
        (branch (as_sign RECEIVE) (λ t. bind (desig_with (expr_at levels)) (λ v. pure (trees.receive (desig_view target) v first t.1)))
        (bind (actuals_with (expr_at levels)) (λ args. pure (trees.call (desig_view target) args first)))) tokens.now) }
    ensures kept { IfOk result (λ r. length r.1.now ≤ length tokens.now) }
{
    if let Some((place, behind)) = sign(tokens, sign::SEND) {
        let (value, rest) = boxed_expr(levels, behind, alloc)?;
        return Ok((Stmt::Send(target, value, first, place), rest));
    }
    if let Some((place, behind)) = sign(tokens, sign::RECEIVE) {
        let (variable, rest) = desig(levels, behind, alloc)?;
        return Ok((
            Stmt::Receive(target, Box::new(alloc, variable)?, first, place),
            rest,
        ));
    }
    let (args, rest) = actuals(levels, tokens, alloc)?;
    Ok((Stmt::Call(target, args, first), rest))
}

/// A statement that begins with a name, or an empty one, which has no token.
#[tactic(auto, using(pfc_token_parser::proofs::Branches::branch_taken, pfc_token_parser::proofs::Branches::branch_not_taken), unfolding(pfc_grammar::specs::placed::Reading::pure))]
pub(crate) fn action_or_nothing(
    levels: u8,
    tokens: &[Token],
    alloc: Global,
) -> Result<(Stmt, &[Token]), Halt>
    ensures gives { Gives (λ r. (stmt_view r.0, r.1.now)) result (branch as_name (reader.action_behind (expr_at levels)) (pure empty) tokens.now) }
    ensures kept { IfOk result (λ r. length r.1.now ≤ length tokens.now) }
{
    let Some(((x, place), rest)) = name(tokens) else {
        return Ok((Stmt::Empty, tokens));
    };
    action_behind(levels, x, place, rest, alloc)
}

/// `desig "!" expr | desig "?" desig`, behind its name
#[tactic(auto, using(pfc_token_parser::proofs::Branches::branch_taken, pfc_token_parser::proofs::Branches::branch_not_taken), unfolding(pfc_grammar::specs::placed::Stmts::comm_behind, pfc_grammar::specs::placed::Reading::bind, pfc_grammar::specs::placed::Reading::pure))]
fn comm_behind(
    levels: u8,
    name: (Name, Place),
    tokens: &[Token],
    alloc: Global,
) -> Result<(Comm, &[Token]), Halt>
    ensures gives { Gives (λ r. (comm_view r.0, r.1.now)) result (reader.comm_behind (expr_at levels) name tokens.now) }
    ensures kept { IfOk result (λ r. length r.1.now ≤ length tokens.now) }
{
    let (channel, rest) = desig_behind(levels, name, tokens, alloc)?;
    if let Some((place, behind)) = sign(rest, sign::SEND) {
        let (value, rest) = expr(levels, behind, alloc)?;
        return Ok((Comm::Send(channel, value, place), rest));
    }
    let (place, rest) = expect_sign(rest, sign::RECEIVE)?;
    let (variable, rest) = desig(levels, rest, alloc)?;
    Ok((Comm::Receive(channel, variable, place), rest))
}

/// `desig "!" expr | desig "?" desig`
#[tactic(auto, using(pfc_token_parser::proofs::Branches::branch_taken, pfc_token_parser::proofs::Branches::branch_not_taken), unfolding(pfc_grammar::specs::placed::Stmts::message, pfc_grammar::specs::placed::Reading::stop))]
fn message(levels: u8, tokens: &[Token], alloc: Global) -> Result<(Comm, &[Token]), Halt>
    ensures gives { Gives (λ r. (comm_view r.0, r.1.now)) result (reader.message (expr_at levels) tokens.now) }
    ensures kept { IfOk result (λ r. length r.1.now ≤ length tokens.now) }
{
    let Some(((name, place), rest)) = name(tokens) else {
        return Err(Halt::Unexpected(tokens.len()));
    };
    let name = name.copy(alloc)?;
    comm_behind(levels, (name, place), rest, alloc)
}

/// `"timeout" expr | "terminate" | desig "!" expr | desig "?" desig`
#[tactic(auto, using(pfc_token_parser::proofs::Branches::branch_taken, pfc_token_parser::proofs::Branches::branch_not_taken), unfolding(pfc_grammar::specs::placed::Stmts::message_or_wait, pfc_grammar::specs::placed::Reading::bind, pfc_grammar::specs::placed::Reading::pure))]
fn message_or_wait(levels: u8, tokens: &[Token], alloc: Global) -> Result<(Comm, &[Token]), Halt>
    ensures gives { Gives (λ r. (comm_view r.0, r.1.now)) result (reader.message_or_wait (expr_at levels) tokens.now) }
    ensures kept { IfOk result (λ r. length r.1.now ≤ length tokens.now) }
{
    if let Some((place, rest)) = word(tokens, word::TIMEOUT) {
        let (seconds, rest) = expr(levels, rest, alloc)?;
        return Ok((Comm::Timeout(seconds, place), rest));
    }
    if let Some((place, rest)) = word(tokens, word::TERMINATE) {
        return Ok((Comm::Terminate(place), rest));
    }
    message(levels, tokens, alloc)
}

/// What an alternative waits for without holding a statement. Behind a spread no `timeout` and no `terminate` may stand.
#[tactic(auto, unfolding(pfc_grammar::specs::placed::Stmts::comm_plain))]
pub(crate) fn comm_plain(
    levels: u8,
    replicated: bool,
    tokens: &[Token],
    alloc: Global,
) -> Result<(Comm, &[Token]), Halt>
    ensures gives { Gives (λ r. (comm_view r.0, r.1.now)) result (reader.comm_plain (expr_at levels) replicated tokens.now) }
    ensures kept { IfOk result (λ r. length r.1.now ≤ length tokens.now) }
{
    if replicated {
        message(levels, tokens, alloc)
    } else {
        message_or_wait(levels, tokens, alloc)
    }
}
