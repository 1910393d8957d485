//! The reading of what stands before the first statement of a form.
ghost use Rattle.std.specs.Prelude.{◌≡◌, ◌≤◌, ◌<◌, zero, Bool, List, [], ◌∷◌, length, map, IfOk, option_map};
ghost use Rattle.pfc_base.specs.declared.tokens.Token.{Token};
ghost use Rattle.pfc_tree.specs.views.Exprs.{expr_view};
ghost use Rattle.pfc_tree.specs.views.Types.{group_view};
ghost use Rattle.pfc_tree.specs.trees.Stmts.{for_do, alt, accept, accept_do};
ghost use Rattle.pfc_tree.specs.views.Stmts.{stmt_view, stmts_view, accept_view, alt_view, comm_view};
ghost use Rattle.pfc_statement_parser.specs.Firsts.{begins_with_word};
ghost use Rattle.pfc_grammar.specs.Heads.{as_direction, as_sign};
ghost use Rattle.pfc_base.specs.declared.sign.TheConstants.{COMMA};
ghost use Rattle.pfc_grammar.specs.placed.Types.{constant_reader};
ghost use Rattle.pfc_grammar.specs.placed.Reading.{take_as, many_onto};
ghost use Rattle.pfc_grammar.specs.placed.Exprs.{expr_at};
ghost use Rattle.pfc_grammar.specs.placed.Stmts as reader;
ghost use Rattle.pfc_token_parser.specs.Giving.{Gives, sees};
ghost use Rattle.pfc_grammar.specs.Heads.{begins_stmt};

use pfc_base::{Kind, Name, Place, Token, sign, word};
use pfc_expression_parser::{boxed_expr, expr};
use pfc_token_parser::{Halt, direction, expect_name, expect_sign, expect_word, name, sign, word};
use pfc_tree::{Accept, Alt, Comm, Constant, Expr, Group, Spread, Stmt};
use pfc_type_parser::{constant, formals};
use std::alloc::Global;

/// What stands before the statement of a `for`: its variable, its bounds, and whether it goes down.
#[derive(Drop)]
pub(crate) struct ForHead {
    variable: (Name, Place),
    from: Box<Expr>,
    down: bool,
    to: Box<Expr>,
}

impl ForHead {
    /// The `for` at `place` with the statement that it repeats.
    pub(crate) fn repeating(self, repeated: Box<Stmt>, place: Place) -> Stmt
        ensures { stmt_view result ≡ for_do self.variable.0 (expr_view self.from.value) self.down (expr_view self.to.value)
            (stmt_view repeated.value) place self.variable.1 }
    {
        let (name, at) = self.variable;
        Stmt::For(name, self.from, self.down, self.to, repeated, place, at)
    }
}

/// What stands before what an alternative waits for: its spread and its guard.
#[derive(Drop)]
pub(crate) struct AltHead {
    pub(crate) spread: Option<Spread>,
    guard: Option<Expr>,
}

impl AltHead {
    /// The alternative that waits for `comm`, with the statements behind.
    pub(crate) fn waiting_for(self, comm: Comm, rest: Vec<Stmt>) -> Alt
        ensures { alt_view result ≡ alt self.spread (option_map expr_view self.guard) (comm_view comm) (stmts_view rest.items) }
    {
        Alt {
            spread: self.spread,
            guard: self.guard,
            comm,
            rest,
        }
    }
}

/// What stands before the statement of an `accept`: its entry's name and its parameters.
#[derive(Drop)]
pub(crate) struct AcceptHead {
    name: (Name, Place),
    formals: Vec<Group>,
}

impl AcceptHead {
    /// The `accept` without a statement.
    pub(crate) fn alone(self) -> Accept
        ensures { accept_view result ≡ accept self.name.0 (map group_view self.formals.items) self.name.1 }
    {
        let (name, place) = self.name;
        Accept {
            name,
            formals: self.formals,
            stmt: None,
            place,
        }
    }

    /// The `accept` with its statement.
    pub(crate) fn doing(self, stmt: Box<Stmt>) -> Accept
        ensures { accept_view result ≡ accept_do self.name.0 (map group_view self.formals.items) (stmt_view stmt.value) self.name.1 }
    {
        let (name, place) = self.name;
        Accept {
            name,
            formals: self.formals,
            stmt: Some(stmt),
            place,
        }
    }
}

/// Where no level is left for a statement: only one without a token may stand.
#[tactic(auto, unfolding(pfc_grammar::specs::placed::Stmts::stmt_at, pfc_grammar::specs::placed::Reading::choose, pfc_grammar::specs::placed::Reading::pure, pfc_grammar::specs::placed::Reading::stop_deep))]
pub(crate) fn no_stmt(tokens: &[Token]) -> Result<(Stmt, &[Token]), Halt>
    ensures gives { Gives (λ r. (stmt_view r.0, r.1.now)) result (reader.stmt_at zero tokens.now) }
    ensures kept { IfOk result (λ r. length r.1.now ≤ length tokens.now) }
{
    if begins_stmt(tokens) {
        return Err(Halt::Deep(tokens.len()));
    }
    Ok((Stmt::Empty, tokens))
}

/// Whether the first token begins a statement that has one.
fn begins_stmt(tokens: &[Token]) -> bool
    ensures { result ≡ sees begins_stmt tokens.now }
{
    name(tokens).is_some() || begins_with_word(tokens)
}

fn begins_with_word(tokens: &[Token]) -> bool
    ensures { result ≡ sees begins_with_word tokens.now }
{
    let [
        Token {
            kind: Kind::Word(n),
            ..
        },
        ..
    ] = tokens
    else {
        return false;
    };
    matches!(
        *n,
        word::NULL
            | word::BEGIN
            | word::IF
            | word::CASE
            | word::WHILE
            | word::REPEAT
            | word::FOR
            | word::COBEGIN
            | word::ACCEPT
            | word::REQUEUE
            | word::PRI
            | word::SELECT
    )
}

/// `expr w`
#[tactic(auto, unfolding(pfc_grammar::specs::placed::Stmts::test_before, pfc_grammar::specs::placed::Reading::bind, pfc_grammar::specs::placed::Reading::pure))]
#[inline(always)]
pub(crate) fn test_before(
    levels: u8,
    w: u8,
    tokens: &[Token],
    alloc: Global,
) -> Result<(Box<Expr>, &[Token]), Halt>
    ensures gives { Gives (λ r. (expr_view r.0.value, r.1.now)) result (reader.test_before (expr_at levels) w tokens.now) }
    ensures kept { IfOk result (λ r. length r.1.now ≤ length tokens.now) }
{
    let (test, rest) = boxed_expr(levels, tokens, alloc)?;
    let (_, rest) = expect_word(rest, w)?;
    Ok((test, rest))
}

/// `"to" | "downto"`, of which the second is true
#[tactic(auto, unfolding(pfc_grammar::specs::placed::Reading::take_as, pfc_grammar::specs::placed::Reading::branch, pfc_grammar::specs::placed::Reading::pure, pfc_grammar::specs::placed::Reading::stop))]
fn expect_direction(tokens: &[Token]) -> Result<((bool, Place), &[Token]), Halt>
    ensures gives { Gives (λ r. (r.0, r.1.now)) result (take_as as_direction tokens.now) }
    ensures kept { IfOk result (λ r. length r.1.now < length tokens.now) }
{
    direction(tokens).ok_or(Halt::Unexpected(tokens.len()))
}

/// `name ":=" expr ("to" | "downto") expr "do"`
#[tactic(auto, unfolding(pfc_grammar::specs::placed::Stmts::for_head, pfc_grammar::specs::placed::Reading::bind, pfc_grammar::specs::placed::Reading::pure))]
pub(crate) fn for_head(
    levels: u8,
    tokens: &[Token],
    alloc: Global,
) -> Result<(ForHead, &[Token]), Halt>
    ensures gives { Gives (λ r. ((r.0.variable, expr_view r.0.from.value, r.0.down, expr_view r.0.to.value), r.1.now)) result
        (reader.for_head (expr_at levels) tokens.now) }
    ensures kept { IfOk result (λ r. length r.1.now ≤ length tokens.now) }
{
    let (variable, rest) = expect_name(tokens, alloc)?;
    let (_, rest) = expect_sign(rest, sign::BECOMES)?;
    let (from, rest) = boxed_expr(levels, rest, alloc)?;
    let ((down, _), rest) = expect_direction(rest)?;
    let (to, rest) = boxed_expr(levels, rest, alloc)?;
    let (_, rest) = expect_word(rest, word::DO)?;
    let head = ForHead {
        variable,
        from,
        down,
        to,
    };
    Ok((head, rest))
}

/// `name [formals]`
#[tactic(auto, unfolding(pfc_grammar::specs::placed::Stmts::accept_head, pfc_grammar::specs::placed::Reading::bind, pfc_grammar::specs::placed::Reading::pure))]
pub(crate) fn accept_head(tokens: &[Token], alloc: Global) -> Result<(AcceptHead, &[Token]), Halt>
    ensures gives { Gives (λ r. ((r.0.name, map group_view r.0.formals.items), r.1.now)) result (reader.accept_head tokens.now) }
    ensures kept { IfOk result (λ r. length r.1.now ≤ length tokens.now) }
{
    let (name, rest) = expect_name(tokens, alloc)?;
    let (formals, rest) = formals(rest, alloc)?;
    Ok((AcceptHead { name, formals }, rest))
}

/// `constant {"," constant} ":"`
#[tactic(auto, unfolding(pfc_grammar::specs::placed::Stmts::labels, pfc_grammar::specs::placed::Reading::list_of, pfc_grammar::specs::placed::Reading::bind, pfc_grammar::specs::placed::Reading::pure))]
pub(crate) fn labels(tokens: &[Token], alloc: Global) -> Result<(Vec<Constant>, &[Token]), Halt>
    ensures gives { Gives (λ r. (r.0.items, r.1.now)) result (reader.labels tokens.now) }
    ensures kept { IfOk result (λ r. length r.1.now ≤ length tokens.now) }
{
    let (first, rest) = constant(tokens, alloc)?;
    let (labels, rest) = constants_behind(first, rest, alloc)?;
    let (_, rest) = expect_sign(rest, sign::COLON)?;
    Ok((labels, rest))
}

/// `{"," constant}`, behind the first constant
fn constants_behind(
    first: Constant,
    tokens: &[Token],
    alloc: Global,
) -> Result<(Vec<Constant>, &[Token]), Halt>
    ensures gives { Gives (λ r. (r.0.items, r.1.now)) result (many_onto (first ∷ []) (as_sign COMMA) (λ t. constant_reader) tokens.now) }
    ensures kept { IfOk result (λ r. length r.1.now ≤ length tokens.now) }
{
    let mut constants = Vec::new(alloc);
    constants.push(first)?;
    let mut rest = tokens;
    while let Some((_, behind)) = sign(rest, sign::COMMA) {
        let (item, after) = constant(behind, alloc)?;
        constants.push(item)?;
        rest = after;
    }
    Ok((constants, rest))
}

/// `name ":=" constant "to" constant "replicate"`, behind `for`
#[tactic(auto, unfolding(pfc_grammar::specs::placed::Stmts::spread_behind, pfc_grammar::specs::placed::Reading::bind, pfc_grammar::specs::placed::Reading::pure))]
fn spread_behind(tokens: &[Token], alloc: Global) -> Result<(Spread, &[Token]), Halt>
    ensures gives { Gives (λ r. (r.0, r.1.now)) result (reader.spread_behind tokens.now) }
    ensures kept { IfOk result (λ r. length r.1.now ≤ length tokens.now) }
{
    let (variable, rest) = expect_name(tokens, alloc)?;
    let (_, rest) = expect_sign(rest, sign::BECOMES)?;
    let (low, rest) = constant(rest, alloc)?;
    let (_, rest) = expect_word(rest, word::TO)?;
    let (high, rest) = constant(rest, alloc)?;
    let (_, rest) = expect_word(rest, word::REPLICATE)?;
    let (name, place) = variable;
    let spread = Spread {
        name,
        low,
        high,
        place,
    };
    Ok((spread, rest))
}

/// `["for" name ":=" constant "to" constant "replicate"]`
#[tactic(auto, unfolding(pfc_grammar::specs::placed::Stmts::replication, pfc_grammar::specs::placed::Reading::bind, pfc_grammar::specs::placed::Reading::branch, pfc_grammar::specs::placed::Reading::pure))]
fn replication(tokens: &[Token], alloc: Global) -> Result<(Option<Spread>, &[Token]), Halt>
    ensures gives { Gives (λ r. (r.0, r.1.now)) result (reader.replication tokens.now) }
    ensures kept { IfOk result (λ r. length r.1.now ≤ length tokens.now) }
{
    let Some((_, rest)) = word(tokens, word::FOR) else {
        return Ok((None, tokens));
    };
    let (spread, rest) = spread_behind(rest, alloc)?;
    Ok((Some(spread), rest))
}

/// `[spread] ["when" expr "=>"]`
#[tactic(auto, unfolding(pfc_grammar::specs::placed::Stmts::alt_head, pfc_grammar::specs::placed::Reading::bind, pfc_grammar::specs::placed::Reading::pure))]
pub(crate) fn alt_head(
    levels: u8,
    tokens: &[Token],
    alloc: Global,
) -> Result<(AltHead, &[Token]), Halt>
    ensures gives { Gives (λ r. ((r.0.spread, option_map expr_view r.0.guard), r.1.now)) result (reader.alt_head (expr_at levels) tokens.now) }
    ensures kept { IfOk result (λ r. length r.1.now ≤ length tokens.now) }
{
    let (spread, rest) = replication(tokens, alloc)?;
    let (guard, rest) = guard(levels, rest, alloc)?;
    Ok((AltHead { spread, guard }, rest))
}

/// `["when" expr "=>"]`
#[tactic(auto, unfolding(pfc_grammar::specs::placed::Stmts::guard, pfc_grammar::specs::placed::Reading::bind, pfc_grammar::specs::placed::Reading::branch, pfc_grammar::specs::placed::Reading::pure))]
fn guard(levels: u8, tokens: &[Token], alloc: Global) -> Result<(Option<Expr>, &[Token]), Halt>
    ensures gives { Gives (λ r. (option_map expr_view r.0, r.1.now)) result (reader.guard (expr_at levels) tokens.now) }
    ensures kept { IfOk result (λ r. length r.1.now ≤ length tokens.now) }
{
    let Some((_, rest)) = word(tokens, word::WHEN) else {
        return Ok((None, tokens));
    };
    let (test, rest) = expr(levels, rest, alloc)?;
    let (_, rest) = expect_sign(rest, sign::ARROW)?;
    Ok((Some(test), rest))
}
