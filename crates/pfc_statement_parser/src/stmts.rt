//! The reading of statements. An expression and a statement in a statement have one level less.
ghost use Rattle.std.specs.Prelude.{◌≡◌, ◌≤◌, [], ◌∷◌, length, map, IfOk};
ghost use Rattle.pfc_base.specs.declared.word.TheConstants.{END, OR};
ghost use Rattle.pfc_base.specs.declared.sign.TheConstants.{SEMICOLON};
ghost use Rattle.pfc_tree.specs.views.Stmts.{stmt_view, body_view, arm_view, accept_view, alt_view, comm_view};
ghost use Rattle.pfc_grammar.specs.Heads.{as_word, as_sign, is_word};
ghost use Rattle.pfc_grammar.specs.placed.Reading.{many_onto, end_onto};
ghost use Rattle.pfc_grammar.specs.placed.Exprs.{expr_at};
ghost use Rattle.pfc_grammar.specs.placed.Stmts as reader;
ghost use Rattle.pfc_token_parser.specs.Giving.{Gives};

use crate::actions::{action_behind, action_or_nothing, comm_plain, requeue_behind};
use crate::heads::{accept_head, alt_head, for_head, labels, no_stmt, test_before};
use pfc_base::{Place, Token, sign, word};
use pfc_expression_parser::boxed_expr;
use pfc_token_parser::{Halt, expect_word, is_word, name, sign, word};
use pfc_tree::{Accept, Alt, Body, CaseArm, Comm, Stmt};
use std::alloc::Global;

/// A statement. Each statement takes a level, but for an empty one, which has no token. Most begin with a name, which is looked
/// for first.
#[cycle(stmts)]
#[inline(always)]
pub(crate) fn stmt(levels: u8, tokens: &[Token], alloc: Global) -> Result<(Stmt, &[Token]), Halt>
    ensures gives { Gives (λ r. (stmt_view r.0, r.1.now)) result (reader.stmt_at levels tokens.now) }
    ensures kept { IfOk result (λ r. length r.1.now ≤ length tokens.now) }
{
    let Some(below) = levels.checked_sub(1) else {
        return no_stmt(tokens);
    };
    match name(tokens) {
        Some(((x, place), rest)) => action_behind(below, x, place, rest, alloc),
        None => stmt_form(below, tokens, alloc),
    }
}

/// A statement of one of the first forms: `null`, a block, or one with a test or a repetition; or else of the others.
#[cycle(stmts)]
#[inline(never)]
#[tactic(auto, using(pfc_token_parser::proofs::Branches::branch_taken, pfc_token_parser::proofs::Branches::branch_not_taken), unfolding(pfc_grammar::specs::placed::Stmts::stmt_with, pfc_grammar::specs::placed::Reading::pure))]
fn stmt_form(levels: u8, tokens: &[Token], alloc: Global) -> Result<(Stmt, &[Token]), Halt>
    ensures gives { Gives (λ r. (stmt_view r.0, r.1.now)) result (reader.stmt_with (expr_at levels) (reader.stmt_at levels) tokens.now) }
    ensures kept { IfOk result (λ r. length r.1.now ≤ length tokens.now) }
{
    if let Some((place, rest)) = word(tokens, word::NULL) {
        return Ok((Stmt::Null(place), rest));
    }
    if let Some((place, rest)) = word(tokens, word::BEGIN) {
        return block_behind(levels, place, rest, alloc);
    }
    if let Some((place, rest)) = word(tokens, word::IF) {
        return if_behind(levels, place, rest, alloc);
    }
    if let Some((place, rest)) = word(tokens, word::CASE) {
        return case_behind(levels, place, rest, alloc);
    }
    if let Some((place, rest)) = word(tokens, word::WHILE) {
        return while_behind(levels, place, rest, alloc);
    }
    if let Some((place, rest)) = word(tokens, word::REPEAT) {
        return repeat_behind(levels, place, rest, alloc);
    }
    if let Some((place, rest)) = word(tokens, word::FOR) {
        return for_behind(levels, place, rest, alloc);
    }
    other_stmt(levels, tokens, alloc)
}

/// A statement of one of the last forms: of processes, or one that begins with a name; or none.
#[cycle(stmts)]
#[tactic(auto, using(pfc_token_parser::proofs::Branches::branch_taken, pfc_token_parser::proofs::Branches::branch_not_taken), unfolding(pfc_grammar::specs::placed::Stmts::stmt_second))]
fn other_stmt(levels: u8, tokens: &[Token], alloc: Global) -> Result<(Stmt, &[Token]), Halt>
    ensures gives { Gives (λ r. (stmt_view r.0, r.1.now)) result (reader.stmt_second (expr_at levels) (reader.stmt_at levels) tokens.now) }
    ensures kept { IfOk result (λ r. length r.1.now ≤ length tokens.now) }
{
    if let Some((place, rest)) = word(tokens, word::COBEGIN) {
        return cobegin_behind(levels, place, rest, alloc);
    }
    if let Some((place, rest)) = word(tokens, word::ACCEPT) {
        return accepting_behind(levels, place, rest, alloc);
    }
    if let Some((place, rest)) = word(tokens, word::REQUEUE) {
        return requeue_behind(levels, place, rest, alloc);
    }
    if let Some((first, rest)) = word(tokens, word::PRI) {
        return pri_behind(levels, first, rest, alloc);
    }
    if let Some((place, rest)) = word(tokens, word::SELECT) {
        return select_behind(levels, false, place, place, rest, alloc);
    }
    action_or_nothing(levels, tokens, alloc)
}

/// `stmts "end"`, behind `begin`, which stands at `place`, as a statement
#[cycle(stmts)]
#[tactic(auto, unfolding(pfc_grammar::specs::placed::Stmts::block_behind, pfc_grammar::specs::placed::Reading::bind, pfc_grammar::specs::placed::Reading::pure))]
fn block_behind(
    levels: u8,
    place: Place,
    tokens: &[Token],
    alloc: Global,
) -> Result<(Stmt, &[Token]), Halt>
    ensures gives { Gives (λ r. (stmt_view r.0, r.1.now)) result (reader.block_behind (reader.stmt_at levels) place tokens.now) }
    ensures kept { IfOk result (λ r. length r.1.now ≤ length tokens.now) }
{
    let (body, rest) = body_behind(levels, place, tokens, alloc)?;
    Ok((Stmt::Block(body, place), rest))
}

/// A statement in a statement.
#[cycle(stmts)]
fn inner_stmt(levels: u8, tokens: &[Token], alloc: Global) -> Result<(Box<Stmt>, &[Token]), Halt>
    ensures gives { Gives (λ r. (stmt_view r.0.value, r.1.now)) result (reader.stmt_at levels tokens.now) }
    ensures kept { IfOk result (λ r. length r.1.now ≤ length tokens.now) }
{
    let (stmt, rest) = stmt(levels, tokens, alloc)?;
    Ok((Box::new(alloc, stmt)?, rest))
}

/// `stmt {";" stmt}`
#[cycle(stmts)]
#[tactic(auto, unfolding(pfc_grammar::specs::placed::Stmts::stmts_with, pfc_grammar::specs::placed::Reading::list_of, pfc_grammar::specs::placed::Reading::bind))]
fn stmts(levels: u8, tokens: &[Token], alloc: Global) -> Result<(Vec<Stmt>, &[Token]), Halt>
    ensures gives { Gives (λ r. (map stmt_view r.0.items, r.1.now)) result (reader.stmts_with (reader.stmt_at levels) tokens.now) }
    ensures kept { IfOk result (λ r. length r.1.now ≤ length tokens.now) }
{
    let (first, rest) = stmt(levels, tokens, alloc)?;
    let mut stmts = Vec::new(alloc);
    stmts.push(first)?;
    stmts_onto(levels, stmts, rest, alloc)
}

/// `{";" stmt}`, behind the statements that are read
#[cycle(stmts)]
fn stmts_onto(
    levels: u8,
    mut stmts: Vec<Stmt>,
    tokens: &[Token],
    alloc: Global,
) -> Result<(Vec<Stmt>, &[Token]), Halt>
    ensures gives { Gives (λ r. (map stmt_view r.0.items, r.1.now)) result (many_onto (map stmt_view stmts.items) (as_sign SEMICOLON)
        (λ t. reader.stmt_at levels) tokens.now) }
    ensures kept { IfOk result (λ r. length r.1.now ≤ length tokens.now) }
{
    let mut rest = tokens;
    while let Some((_, behind)) = sign(rest, sign::SEMICOLON) {
        let (item, after) = stmt(levels, behind, alloc)?;
        stmts.push(item)?;
        rest = after;
    }
    Ok((stmts, rest))
}

/// `stmts "end"`, behind `begin`, which stands at `first`
#[cycle(stmts)]
#[tactic(auto, unfolding(pfc_grammar::specs::placed::Stmts::body_behind, pfc_grammar::specs::placed::Reading::bind, pfc_grammar::specs::placed::Reading::pure))]
pub fn body_behind(
    levels: u8,
    first: Place,
    tokens: &[Token],
    alloc: Global,
) -> Result<(Body, &[Token]), Halt>
    ensures gives { Gives (λ r. (body_view r.0, r.1.now)) result (reader.body_behind (reader.stmt_at levels) first tokens.now) }
    ensures kept { IfOk result (λ r. length r.1.now ≤ length tokens.now) }
{
    let (stmts, rest) = stmts(levels, tokens, alloc)?;
    let (last, rest) = expect_word(rest, word::END)?;
    let body = Body { stmts, first, last };
    Ok((body, rest))
}

/// `expr "then" stmt ["else" stmt]`, behind `if`, which stands at `place`. The statement before takes the `else` first, if it can.
#[cycle(stmts)]
#[tactic(auto, using(pfc_token_parser::proofs::Branches::branch_taken, pfc_token_parser::proofs::Branches::branch_not_taken), unfolding(pfc_grammar::specs::placed::Stmts::if_behind, pfc_grammar::specs::placed::Reading::bind, pfc_grammar::specs::placed::Reading::pure))]
fn if_behind(
    levels: u8,
    place: Place,
    tokens: &[Token],
    alloc: Global,
) -> Result<(Stmt, &[Token]), Halt>
    ensures gives { Gives (λ r. (stmt_view r.0, r.1.now)) result (reader.if_behind (expr_at levels) (reader.stmt_at levels) place tokens.now) }
    ensures kept { IfOk result (λ r. length r.1.now ≤ length tokens.now) }
{
    let (test, rest) = test_before(levels, word::THEN, tokens, alloc)?;
    let (then, rest) = inner_stmt(levels, rest, alloc)?;
    let Some((_, behind)) = word(rest, word::ELSE) else {
        return Ok((Stmt::If(test, then, None, place), rest));
    };
    let (other, rest) = inner_stmt(levels, behind, alloc)?;
    Ok((Stmt::If(test, then, Some(other), place), rest))
}

/// `constant {"," constant} ":" stmt`
#[cycle(stmts)]
#[tactic(auto, unfolding(pfc_grammar::specs::placed::Stmts::arm_with, pfc_grammar::specs::placed::Reading::bind, pfc_grammar::specs::placed::Reading::pure))]
fn arm(levels: u8, tokens: &[Token], alloc: Global) -> Result<(CaseArm, &[Token]), Halt>
    ensures gives { Gives (λ r. (arm_view r.0, r.1.now)) result (reader.arm_with (reader.stmt_at levels) tokens.now) }
    ensures kept { IfOk result (λ r. length r.1.now ≤ length tokens.now) }
{
    let (labels, rest) = labels(tokens, alloc)?;
    let (stmt, rest) = inner_stmt(levels, rest, alloc)?;
    Ok((CaseArm { labels, stmt }, rest))
}

/// `{";" arm} [";"]`, behind the first arm and before `end`, with whether the last `;` stands
#[cycle(stmts)]
fn arms_behind(
    levels: u8,
    first: CaseArm,
    tokens: &[Token],
    alloc: Global,
) -> Result<((Vec<CaseArm>, bool), &[Token]), Halt>
    ensures gives { Gives (λ r. ((map arm_view r.0.0.items, r.0.1), r.1.now)) result (end_onto (arm_view first ∷ []) (as_sign SEMICOLON) (is_word END)
        (reader.arm_with (reader.stmt_at levels)) tokens.now) }
    ensures kept { IfOk result (λ r. length r.1.now ≤ length tokens.now) }
{
    let mut arms = Vec::new(alloc);
    arms.push(first)?;
    let mut rest = tokens;
    while let Some((_, behind)) = sign(rest, sign::SEMICOLON) {
        if is_word(behind, word::END) {
            return Ok(((arms, true), behind));
        }
        let (item, after) = arm(levels, behind, alloc)?;
        arms.push(item)?;
        rest = after;
    }
    Ok(((arms, false), rest))
}

/// `expr "of" arm {";" arm} [";"] "end"`, behind `case`, which stands at `place`
#[cycle(stmts)]
#[tactic(auto, unfolding(pfc_grammar::specs::placed::Stmts::case_behind, pfc_grammar::specs::placed::Reading::list_end, pfc_grammar::specs::placed::Reading::bind, pfc_grammar::specs::placed::Reading::pure))]
fn case_behind(
    levels: u8,
    place: Place,
    tokens: &[Token],
    alloc: Global,
) -> Result<(Stmt, &[Token]), Halt>
    ensures gives { Gives (λ r. (stmt_view r.0, r.1.now)) result (reader.case_behind (expr_at levels) (reader.stmt_at levels) place tokens.now) }
    ensures kept { IfOk result (λ r. length r.1.now ≤ length tokens.now) }
{
    let (value, rest) = test_before(levels, word::OF, tokens, alloc)?;
    let (first, rest) = arm(levels, rest, alloc)?;
    let ((arms, last), rest) = arms_behind(levels, first, rest, alloc)?;
    let (_, rest) = expect_word(rest, word::END)?;
    Ok((Stmt::Case(value, arms, last, place), rest))
}

/// `expr "do" stmt`, behind `while`, which stands at `place`
#[cycle(stmts)]
#[tactic(auto, unfolding(pfc_grammar::specs::placed::Stmts::while_behind, pfc_grammar::specs::placed::Reading::bind, pfc_grammar::specs::placed::Reading::pure))]
fn while_behind(
    levels: u8,
    place: Place,
    tokens: &[Token],
    alloc: Global,
) -> Result<(Stmt, &[Token]), Halt>
    ensures gives { Gives (λ r. (stmt_view r.0, r.1.now)) result (reader.while_behind (expr_at levels) (reader.stmt_at levels) place tokens.now) }
    ensures kept { IfOk result (λ r. length r.1.now ≤ length tokens.now) }
{
    let (test, rest) = test_before(levels, word::DO, tokens, alloc)?;
    let (repeated, rest) = inner_stmt(levels, rest, alloc)?;
    Ok((Stmt::While(test, repeated, place), rest))
}

/// `stmts ("until" expr | "forever")`, behind `repeat`, which stands at `place`
#[cycle(stmts)]
#[tactic(auto, using(pfc_token_parser::proofs::Branches::branch_taken, pfc_token_parser::proofs::Branches::branch_not_taken), unfolding(pfc_grammar::specs::placed::Stmts::repeat_behind, pfc_grammar::specs::placed::Reading::bind, pfc_grammar::specs::placed::Reading::pure))]
fn repeat_behind(
    levels: u8,
    place: Place,
    tokens: &[Token],
    alloc: Global,
) -> Result<(Stmt, &[Token]), Halt>
    ensures gives { Gives (λ r. (stmt_view r.0, r.1.now)) result (reader.repeat_behind (expr_at levels) (reader.stmt_at levels) place tokens.now) }
    ensures kept { IfOk result (λ r. length r.1.now ≤ length tokens.now) }
{
    let (stmts, rest) = stmts(levels, tokens, alloc)?;
    if let Some((_, behind)) = word(rest, word::UNTIL) {
        let (test, rest) = boxed_expr(levels, behind, alloc)?;
        return Ok((Stmt::Repeat(stmts, Some(test), place), rest));
    }
    let (_, rest) = expect_word(rest, word::FOREVER)?;
    Ok((Stmt::Repeat(stmts, None, place), rest))
}

/// `name ":=" expr ("to" | "downto") expr "do" stmt`, behind `for`, which stands at `place`
#[cycle(stmts)]
#[tactic(auto, unfolding(pfc_grammar::specs::placed::Stmts::for_behind, pfc_grammar::specs::placed::Reading::bind, pfc_grammar::specs::placed::Reading::pure))]
fn for_behind(
    levels: u8,
    place: Place,
    tokens: &[Token],
    alloc: Global,
) -> Result<(Stmt, &[Token]), Halt>
    ensures gives { Gives (λ r. (stmt_view r.0, r.1.now)) result (reader.for_behind (expr_at levels) (reader.stmt_at levels) place tokens.now) }
    ensures kept { IfOk result (λ r. length r.1.now ≤ length tokens.now) }
{
    let (head, rest) = for_head(levels, tokens, alloc)?;
    let (repeated, rest) = inner_stmt(levels, rest, alloc)?;
    Ok((head.repeating(repeated, place), rest))
}

/// `stmts "coend"`, behind `cobegin`, which stands at `place`
#[cycle(stmts)]
#[tactic(auto, unfolding(pfc_grammar::specs::placed::Stmts::cobegin_behind, pfc_grammar::specs::placed::Reading::bind, pfc_grammar::specs::placed::Reading::pure))]
fn cobegin_behind(
    levels: u8,
    place: Place,
    tokens: &[Token],
    alloc: Global,
) -> Result<(Stmt, &[Token]), Halt>
    ensures gives { Gives (λ r. (stmt_view r.0, r.1.now)) result (reader.cobegin_behind (reader.stmt_at levels) place tokens.now) }
    ensures kept { IfOk result (λ r. length r.1.now ≤ length tokens.now) }
{
    let (stmts, rest) = stmts(levels, tokens, alloc)?;
    let (last, rest) = expect_word(rest, word::COEND)?;
    Ok((Stmt::Cobegin(stmts, last, place), rest))
}

/// `name [formals] ["do" stmt]`, behind `accept`
#[cycle(stmts)]
#[tactic(auto, using(pfc_token_parser::proofs::Branches::branch_taken, pfc_token_parser::proofs::Branches::branch_not_taken), unfolding(pfc_grammar::specs::placed::Stmts::accept_behind, pfc_grammar::specs::placed::Reading::bind, pfc_grammar::specs::placed::Reading::pure))]
fn accept_behind(levels: u8, tokens: &[Token], alloc: Global) -> Result<(Accept, &[Token]), Halt>
    ensures gives { Gives (λ r. (accept_view r.0, r.1.now)) result (reader.accept_behind (reader.stmt_at levels) tokens.now) }
    ensures kept { IfOk result (λ r. length r.1.now ≤ length tokens.now) }
{
    let (head, rest) = accept_head(tokens, alloc)?;
    let Some((_, behind)) = word(rest, word::DO) else {
        return Ok((head.alone(), rest));
    };
    let (stmt, rest) = inner_stmt(levels, behind, alloc)?;
    Ok((head.doing(stmt), rest))
}

/// `name [formals] ["do" stmt]`, behind `accept`, which stands at `place`, as a statement
#[cycle(stmts)]
#[tactic(auto, unfolding(pfc_grammar::specs::placed::Stmts::accepting_behind, pfc_grammar::specs::placed::Reading::bind, pfc_grammar::specs::placed::Reading::pure))]
fn accepting_behind(
    levels: u8,
    place: Place,
    tokens: &[Token],
    alloc: Global,
) -> Result<(Stmt, &[Token]), Halt>
    ensures gives { Gives (λ r. (stmt_view r.0, r.1.now)) result (reader.accepting_behind (reader.stmt_at levels) place tokens.now) }
    ensures kept { IfOk result (λ r. length r.1.now ≤ length tokens.now) }
{
    let (accept, rest) = accept_behind(levels, tokens, alloc)?;
    Ok((Stmt::Accept(accept, place), rest))
}

/// `accept ..`, or what holds no statement, where `replicated` says whether a spread stands before
#[cycle(stmts)]
#[tactic(auto, using(pfc_token_parser::proofs::Branches::branch_taken, pfc_token_parser::proofs::Branches::branch_not_taken), unfolding(pfc_grammar::specs::placed::Stmts::comm_with, pfc_grammar::specs::placed::Reading::bind, pfc_grammar::specs::placed::Reading::pure))]
fn comm(
    levels: u8,
    replicated: bool,
    tokens: &[Token],
    alloc: Global,
) -> Result<(Comm, &[Token]), Halt>
    ensures gives { Gives (λ r. (comm_view r.0, r.1.now)) result (reader.comm_with (expr_at levels) (reader.stmt_at levels) replicated tokens.now) }
    ensures kept { IfOk result (λ r. length r.1.now ≤ length tokens.now) }
{
    let Some((place, rest)) = word(tokens, word::ACCEPT) else {
        return comm_plain(levels, replicated, tokens, alloc);
    };
    let (accept, rest) = accept_behind(levels, rest, alloc)?;
    Ok((Comm::Accept(accept, place), rest))
}

/// `[spread] ["when" expr "=>"] comm {";" stmt}`, where behind a spread no `timeout` and no `terminate` stands
#[cycle(stmts)]
#[tactic(auto, unfolding(pfc_grammar::specs::placed::Stmts::alt_with, pfc_grammar::specs::placed::Reading::many, pfc_grammar::specs::placed::Reading::bind, pfc_grammar::specs::placed::Reading::pure))]
fn alt(levels: u8, tokens: &[Token], alloc: Global) -> Result<(Alt, &[Token]), Halt>
    ensures gives { Gives (λ r. (alt_view r.0, r.1.now)) result (reader.alt_with (expr_at levels) (reader.stmt_at levels) tokens.now) }
    ensures kept { IfOk result (λ r. length r.1.now ≤ length tokens.now) }
{
    let (head, rest) = alt_head(levels, tokens, alloc)?;
    let (comm, rest) = comm(levels, head.spread.is_some(), rest, alloc)?;
    let (stmts, rest) = stmts_onto(levels, Vec::new(alloc), rest, alloc)?;
    Ok((head.waiting_for(comm, stmts), rest))
}

/// `{"or" alt}`, behind the first alternative
#[cycle(stmts)]
fn alts_behind(
    levels: u8,
    first: Alt,
    tokens: &[Token],
    alloc: Global,
) -> Result<(Vec<Alt>, &[Token]), Halt>
    ensures gives { Gives (λ r. (map alt_view r.0.items, r.1.now)) result (many_onto (alt_view first ∷ []) (as_word OR)
        (λ t. reader.alt_with (expr_at levels) (reader.stmt_at levels)) tokens.now) }
    ensures kept { IfOk result (λ r. length r.1.now ≤ length tokens.now) }
{
    let mut alts = Vec::new(alloc);
    alts.push(first)?;
    let mut rest = tokens;
    while let Some((_, behind)) = word(rest, word::OR) {
        let (item, after) = alt(levels, behind, alloc)?;
        alts.push(item)?;
        rest = after;
    }
    Ok((alts, rest))
}

/// `"select" ..`, behind `pri`, which stands at `first`
#[cycle(stmts)]
#[tactic(auto, unfolding(pfc_grammar::specs::placed::Stmts::pri_behind, pfc_grammar::specs::placed::Reading::bind))]
fn pri_behind(
    levels: u8,
    first: Place,
    tokens: &[Token],
    alloc: Global,
) -> Result<(Stmt, &[Token]), Halt>
    ensures gives { Gives (λ r. (stmt_view r.0, r.1.now)) result (reader.pri_behind (expr_at levels) (reader.stmt_at levels) first tokens.now) }
    ensures kept { IfOk result (λ r. length r.1.now ≤ length tokens.now) }
{
    let (place, rest) = expect_word(tokens, word::SELECT)?;
    select_behind(levels, true, first, place, rest, alloc)
}

/// `alt {"or" alt} ["else" stmts] "end"`, behind `select`, which stands at `place`, in a statement whose first token stands at `first`
#[cycle(stmts)]
#[tactic(auto, using(pfc_token_parser::proofs::Branches::branch_taken, pfc_token_parser::proofs::Branches::branch_not_taken), unfolding(pfc_grammar::specs::placed::Stmts::select_behind, pfc_grammar::specs::placed::Reading::list_of, pfc_grammar::specs::placed::Reading::bind, pfc_grammar::specs::placed::Reading::pure))]
fn select_behind(
    levels: u8,
    pri: bool,
    first: Place,
    place: Place,
    tokens: &[Token],
    alloc: Global,
) -> Result<(Stmt, &[Token]), Halt>
    ensures gives { Gives (λ r. (stmt_view r.0, r.1.now)) result (reader.select_behind (expr_at levels) (reader.stmt_at levels) pri first place tokens.now) }
    ensures kept { IfOk result (λ r. length r.1.now ≤ length tokens.now) }
{
    let (head, rest) = alt(levels, tokens, alloc)?;
    let (alts, rest) = alts_behind(levels, head, rest, alloc)?;
    if let Some((at, behind)) = word(rest, word::ELSE) {
        let (stmts, rest) = stmts(levels, behind, alloc)?;
        let (_, rest) = expect_word(rest, word::END)?;
        return Ok((
            Stmt::Select(pri, alts, Some((stmts, at)), first, place),
            rest,
        ));
    }
    let (_, rest) = expect_word(rest, word::END)?;
    Ok((Stmt::Select(pri, alts, None, first, place), rest))
}
