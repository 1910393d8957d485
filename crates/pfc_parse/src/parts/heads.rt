//! The reading of what stands before and behind the parts of a block.
ghost use Rattle.std.specs.Prelude.{◌≡◌, ◌<◌, ◌≤◌, Bool, [], ◌∷◌, length, map, option_map, IfOk};
ghost use Rattle.pfc_base.specs.declared.word.TheConstants.{ENTRY, EXPORT};
ghost use Rattle.pfc_tree.specs.views.Types.{group_view};
ghost use Rattle.pfc_tree.specs.views.Stmts.{body_view};
ghost use Rattle.pfc_tree.specs.views.Parts.{kind_view, entry_view};
ghost use Rattle.pfc_grammar.specs.Heads.{as_word};
ghost use Rattle.pfc_grammar.specs.placed.Reading.{many};
ghost use Rattle.pfc_grammar.specs.placed.Exprs.{expr_at};
ghost use Rattle.pfc_grammar.specs.placed.Stmts.{stmt_at, body_with};
ghost use Rattle.pfc_grammar.specs.placed.Parts as reader;
ghost use Rattle.pfc_token_parser.specs.Giving.{Gives};

use pfc_base::{Name, Place, Token, sign, word};
use pfc_expression_parser::expr;
use pfc_statement_parser::body_behind;
use pfc_token_parser::{Halt, expect_name, expect_sign, expect_word, sign, word};
use pfc_tree::{Body, Entry, Group, SubKind};
use pfc_type_parser::{formals, names};
use std::alloc::Global;

/// What stands before the parts of a sub.
#[derive(Drop)]
pub(crate) struct SubHead {
    pub(crate) name: (Name, Place),
    pub(crate) formals: Vec<Group>,
    pub(crate) kind: SubKind,
}

/// `name [formals] ";"`, behind `procedure`
#[tactic(auto, unfolding(pfc_grammar::specs::placed::Parts::procedure_head, pfc_grammar::specs::placed::Reading::bind, pfc_grammar::specs::placed::Reading::pure))]
pub(crate) fn procedure_head(tokens: &[Token], alloc: Global) -> Result<(SubHead, &[Token]), Halt>
    ensures gives { Gives (λ r. ((r.0.name, map group_view r.0.formals.items, kind_view r.0.kind), r.1.now)) result (reader.procedure_head tokens.now) }
    ensures kept { IfOk result (λ r. length r.1.now < length tokens.now) }
{
    let (name, rest) = expect_name(tokens, alloc)?;
    let (formals, rest) = formals(rest, alloc)?;
    let (_, rest) = expect_sign(rest, sign::SEMICOLON)?;
    let kind = SubKind::Procedure;
    let head = SubHead {
        name,
        formals,
        kind,
    };
    Ok((head, rest))
}

/// `name [formals] ":" name ";"`, behind `function`
#[tactic(auto, unfolding(pfc_grammar::specs::placed::Parts::function_head, pfc_grammar::specs::placed::Reading::bind, pfc_grammar::specs::placed::Reading::pure))]
pub(crate) fn function_head(tokens: &[Token], alloc: Global) -> Result<(SubHead, &[Token]), Halt>
    ensures gives { Gives (λ r. ((r.0.name, map group_view r.0.formals.items, kind_view r.0.kind), r.1.now)) result (reader.function_head tokens.now) }
    ensures kept { IfOk result (λ r. length r.1.now < length tokens.now) }
{
    let (name, rest) = expect_name(tokens, alloc)?;
    let (formals, rest) = formals(rest, alloc)?;
    let (_, rest) = expect_sign(rest, sign::COLON)?;
    let ((form, place), rest) = expect_name(rest, alloc)?;
    let (_, rest) = expect_sign(rest, sign::SEMICOLON)?;
    let kind = SubKind::Function(form, place);
    let head = SubHead {
        name,
        formals,
        kind,
    };
    Ok((head, rest))
}

/// `"procedure" name [formals] "when" expr ";"`, behind `guarded`
#[tactic(auto, unfolding(pfc_grammar::specs::placed::Parts::guarded_head, pfc_grammar::specs::placed::Reading::bind, pfc_grammar::specs::placed::Reading::pure))]
pub(crate) fn guarded_head(
    levels: u8,
    tokens: &[Token],
    alloc: Global,
) -> Result<(SubHead, &[Token]), Halt>
    ensures gives { Gives (λ r. ((r.0.name, map group_view r.0.formals.items, kind_view r.0.kind), r.1.now)) result
        (reader.guarded_head (expr_at levels) tokens.now) }
    ensures kept { IfOk result (λ r. length r.1.now < length tokens.now) }
{
    let (_, rest) = expect_word(tokens, word::PROCEDURE)?;
    let (name, rest) = expect_name(rest, alloc)?;
    let (formals, rest) = formals(rest, alloc)?;
    let (place, rest) = expect_word(rest, word::WHEN)?;
    let (guard, rest) = expr(levels, rest, alloc)?;
    let (_, rest) = expect_sign(rest, sign::SEMICOLON)?;
    let kind = SubKind::Guarded(guard, place);
    let head = SubHead {
        name,
        formals,
        kind,
    };
    Ok((head, rest))
}

/// `{"export" name {"," name} ";"}`
pub(crate) fn exports(
    tokens: &[Token],
    alloc: Global,
) -> Result<(Vec<Vec<(Name, Place)>>, &[Token]), Halt>
    ensures gives { Gives (λ r. (map (λ xs. xs.items) r.0.items, r.1.now)) result (many (as_word EXPORT) (λ u. reader.export_behind) tokens.now) }
    ensures kept { IfOk result (λ r. length r.1.now ≤ length tokens.now) }
{
    let mut exports = Vec::new(alloc);
    let mut rest = tokens;
    while let Some((_, behind)) = word(rest, word::EXPORT) {
        let (item, after) = export_behind(behind, alloc)?;
        exports.push(item)?;
        rest = after;
    }
    Ok((exports, rest))
}

/// `name {"," name} ";"`, behind `export`
#[tactic(auto, unfolding(pfc_grammar::specs::placed::Parts::export_behind, pfc_grammar::specs::placed::Reading::bind, pfc_grammar::specs::placed::Reading::pure))]
fn export_behind(tokens: &[Token], alloc: Global) -> Result<(Vec<(Name, Place)>, &[Token]), Halt>
    ensures gives { Gives (λ r. (r.0.items, r.1.now)) result (reader.export_behind tokens.now) }
    ensures kept { IfOk result (λ r. length r.1.now ≤ length tokens.now) }
{
    let (names, rest) = names(tokens, alloc)?;
    let (_, rest) = expect_sign(rest, sign::SEMICOLON)?;
    Ok((names, rest))
}

/// `{"entry" name [formals] ";"}`
pub(crate) fn entries(tokens: &[Token], alloc: Global) -> Result<(Vec<Entry>, &[Token]), Halt>
    ensures gives { Gives (λ r. (map entry_view r.0.items, r.1.now)) result (many (as_word ENTRY) (λ u. reader.entry_behind) tokens.now) }
    ensures kept { IfOk result (λ r. length r.1.now ≤ length tokens.now) }
{
    let mut entries = Vec::new(alloc);
    let mut rest = tokens;
    while let Some((_, behind)) = word(rest, word::ENTRY) {
        let (item, after) = entry_behind(behind, alloc)?;
        entries.push(item)?;
        rest = after;
    }
    Ok((entries, rest))
}

/// `name [formals] ";"`, behind `entry`
#[tactic(auto, unfolding(pfc_grammar::specs::placed::Parts::entry_behind, pfc_grammar::specs::placed::Reading::bind, pfc_grammar::specs::placed::Reading::pure))]
fn entry_behind(tokens: &[Token], alloc: Global) -> Result<(Entry, &[Token]), Halt>
    ensures gives { Gives (λ r. (entry_view r.0, r.1.now)) result (reader.entry_behind tokens.now) }
    ensures kept { IfOk result (λ r. length r.1.now ≤ length tokens.now) }
{
    let ((name, place), rest) = expect_name(tokens, alloc)?;
    let (formals, rest) = formals(rest, alloc)?;
    let (_, rest) = expect_sign(rest, sign::SEMICOLON)?;
    let entry = Entry {
        name,
        formals,
        place,
    };
    Ok((entry, rest))
}

/// `["type"]`
#[tactic(auto, using(pfc_token_parser::proofs::Branches::branch_taken, pfc_token_parser::proofs::Branches::branch_not_taken), unfolding(pfc_grammar::specs::placed::Parts::type_word, pfc_grammar::specs::placed::Reading::pure))]
pub(crate) fn type_word(tokens: &[Token]) -> Result<(bool, &[Token]), Halt>
    ensures gives { Gives (λ r. (r.0, r.1.now)) result (reader.type_word tokens.now) }
    ensures kept { IfOk result (λ r. length r.1.now ≤ length tokens.now) }
{
    match word(tokens, word::TYPE) {
        Some((_, rest)) => Ok((true, rest)),
        None => Ok((false, tokens)),
    }
}

/// `"begin" stmts "end"`
#[tactic(auto, unfolding(pfc_grammar::specs::placed::Stmts::body_with, pfc_grammar::specs::placed::Reading::bind))]
pub(crate) fn body(levels: u8, tokens: &[Token], alloc: Global) -> Result<(Body, &[Token]), Halt>
    ensures gives { Gives (λ r. (body_view r.0, r.1.now)) result (body_with (stmt_at levels) tokens.now) }
    ensures kept { IfOk result (λ r. length r.1.now < length tokens.now) }
{
    let (first, rest) = expect_word(tokens, word::BEGIN)?;
    body_behind(levels, first, rest, alloc)
}

/// `"end" | body`, with the place of the `end`
#[tactic(auto, using(pfc_token_parser::proofs::Branches::branch_taken, pfc_token_parser::proofs::Branches::branch_not_taken), unfolding(pfc_grammar::specs::placed::Parts::ending, pfc_grammar::specs::placed::Reading::bind, pfc_grammar::specs::placed::Reading::pure))]
pub(crate) fn ending(
    levels: u8,
    tokens: &[Token],
    alloc: Global,
) -> Result<((Option<Body>, Place), &[Token]), Halt>
    ensures gives { Gives (λ r. ((option_map body_view r.0.0, r.0.1), r.1.now)) result (reader.ending (stmt_at levels) tokens.now) }
    ensures kept { IfOk result (λ r. length r.1.now < length tokens.now) }
{
    if let Some((last, rest)) = word(tokens, word::END) {
        return Ok(((None, last), rest));
    }
    let (body, rest) = body(levels, tokens, alloc)?;
    let last = body.last;
    Ok(((Some(body), last), rest))
}

/// `["(" name {"," name} ")"]`
#[tactic(auto, using(pfc_token_parser::proofs::Branches::branch_taken, pfc_token_parser::proofs::Branches::branch_not_taken), unfolding(pfc_grammar::specs::placed::Parts::params, pfc_grammar::specs::placed::Reading::bind, pfc_grammar::specs::placed::Reading::pure))]
pub(crate) fn params(
    tokens: &[Token],
    alloc: Global,
) -> Result<(Vec<(Name, Place)>, &[Token]), Halt>
    ensures gives { Gives (λ r. (r.0.items, r.1.now)) result (reader.params tokens.now) }
    ensures kept { IfOk result (λ r. length r.1.now ≤ length tokens.now) }
{
    let Some((_, rest)) = sign(tokens, sign::OPEN_PAREN) else {
        return Ok((Vec::new(alloc), tokens));
    };
    let (names, rest) = names(rest, alloc)?;
    let (_, rest) = expect_sign(rest, sign::CLOSE_PAREN)?;
    Ok((names, rest))
}
