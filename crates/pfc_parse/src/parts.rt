//! The reading of parts. What a part of a home holds is read one level deeper than the home.
ghost use Rattle.std.specs.Prelude.{◌≡◌, ◌<◌, ◌≤◌, length, map, IfOk};
ghost use Rattle.pfc_tree.specs.lawful.Parts.{of_other};
ghost use Rattle.pfc_tree.specs.views.Types.{group_view};
ghost use Rattle.pfc_tree.specs.views.Parts.{kind_view, part_view, sub_view, module_view, process_view};
ghost use Rattle.pfc_grammar.specs.placed.Exprs.{expr_at};
ghost use Rattle.pfc_grammar.specs.placed.Types.{type_at};
ghost use Rattle.pfc_grammar.specs.placed.Stmts.{stmt_at};
ghost use Rattle.pfc_grammar.specs.placed.Parts as reader;
ghost use Rattle.pfc_token_parser.specs.Giving.{Gives};
ghost use Rattle.pfc_parse.specs.Homes.{block_at, home_view, sub_after};

pub(crate) mod heads;
pub(crate) mod homes;

use heads::{
    SubHead, body, ending, entries, exports, function_head, guarded_head, procedure_head, type_word,
};
use homes::{Home, begins_part, no_block, word_of_program, word_of_resource};
use pfc_base::{Token, sign, word};
use pfc_token_parser::{Halt, expect_name, expect_sign, word};
use pfc_tree::{Module, Part, Process, Sub};
use pfc_type_parser::{const_items, formals, type_items, var_items};
use std::alloc::Global;

/// `{part}` of a home, where so many levels are left for what the parts hold
#[cycle(parts)]
pub(crate) fn parts(
    levels: u8,
    home: Home,
    tokens: &[Token],
    alloc: Global,
) -> Result<(Vec<Part>, &[Token]), Halt>
    ensures gives { Gives (λ r. (map part_view r.0.items, r.1.now)) result (reader.parts_at levels (home_view home) tokens.now) }
    ensures kept { IfOk result (λ r. length r.1.now ≤ length tokens.now) }
{
    let mut parts = Vec::new(alloc);
    let mut rest = tokens;
    while begins_part(home, rest) {
        let (item, after) = part(levels, home, rest, alloc)?;
        parts.push(item)?;
        rest = after;
    }
    Ok((parts, rest))
}

/// `consts | types | vars`, or a block
#[cycle(parts)]
#[tactic(auto, using(pfc_token_parser::proofs::Branches::branch_taken, pfc_token_parser::proofs::Branches::branch_not_taken), unfolding(crate::specs::Homes::block_at, pfc_grammar::specs::placed::Parts::part_with, pfc_grammar::specs::placed::Reading::bind, pfc_grammar::specs::placed::Reading::pure))]
fn part(levels: u8, home: Home, tokens: &[Token], alloc: Global) -> Result<(Part, &[Token]), Halt>
    ensures gives { Gives (λ r. (part_view r.0, r.1.now)) result (reader.part_with (type_at levels) (block_at levels (home_view home)) tokens.now) }
    ensures kept { IfOk result (λ r. length r.1.now < length tokens.now) }
{
    if let Some((_, rest)) = word(tokens, word::CONST) {
        let (items, rest) = const_items(rest, alloc)?;
        return Ok((Part::Consts(items), rest));
    }
    if let Some((_, rest)) = word(tokens, word::TYPE) {
        let (items, rest) = type_items(levels, rest, alloc)?;
        return Ok((Part::Types(items), rest));
    }
    if let Some((_, rest)) = word(tokens, word::VAR) {
        let (items, rest) = var_items(levels, rest, alloc)?;
        return Ok((Part::Vars(items), rest));
    }
    match levels.checked_sub(1) {
        Some(below) => block(below, home, tokens, alloc),
        None => Err(no_block(home, tokens)),
    }
}

/// A sub, and in a resource a guarded procedure, and in a program a monitor, a resource or a process.
#[cycle(parts)]
#[tactic(auto, using(pfc_token_parser::proofs::Branches::branch_taken, pfc_token_parser::proofs::Branches::branch_not_taken), unfolding(crate::specs::Homes::sub_after, pfc_grammar::specs::placed::Parts::block_with, pfc_grammar::specs::placed::Parts::sub_behind, pfc_grammar::specs::placed::Reading::bind, pfc_grammar::specs::placed::Reading::pure, pfc_grammar::specs::placed::Reading::stop))]
fn block(levels: u8, home: Home, tokens: &[Token], alloc: Global) -> Result<(Part, &[Token]), Halt>
    ensures gives { Gives (λ r. (part_view r.0, r.1.now)) result (reader.block_with (reader.parts_at levels) (expr_at levels)
        (stmt_at levels) (home_view home) tokens.now) }
    ensures kept { IfOk result (λ r. length r.1.now < length tokens.now) }
{
    if let Some((_, rest)) = word(tokens, word::PROCEDURE) {
        let (head, rest) = procedure_head(rest, alloc)?;
        let (sub, rest) = sub_after(levels, head, rest, alloc)?;
        return Ok((Part::Sub(sub), rest));
    }
    if let Some((_, rest)) = word(tokens, word::FUNCTION) {
        let (head, rest) = function_head(rest, alloc)?;
        let (sub, rest) = sub_after(levels, head, rest, alloc)?;
        return Ok((Part::Sub(sub), rest));
    }
    if let Some((_, rest)) = word_of_resource(home, tokens, word::GUARDED) {
        let (head, rest) = guarded_head(levels, rest, alloc)?;
        let (sub, rest) = sub_after(levels, head, rest, alloc)?;
        return Ok((Part::Sub(sub), rest));
    }
    if let Some((_, rest)) = word_of_program(home, tokens, word::MONITOR) {
        let (monitor, rest) = module_behind(levels, Home::Other, rest, alloc)?;
        return Ok((Part::Monitor(monitor), rest));
    }
    if let Some((_, rest)) = word_of_program(home, tokens, word::RESOURCE) {
        let (resource, rest) = module_behind(levels, Home::Resource, rest, alloc)?;
        return Ok((Part::Resource(resource), rest));
    }
    if let Some((_, rest)) = word_of_program(home, tokens, word::PROCESS) {
        let (process, rest) = process_behind(levels, rest, alloc)?;
        return Ok((Part::Process(process), rest));
    }
    Err(Halt::Unexpected(tokens.len()))
}

/// `{part} body ";"`, behind the head of a sub
#[cycle(parts)]
#[tactic(auto, unfolding(crate::specs::Homes::sub_after, pfc_grammar::specs::placed::Reading::bind, pfc_grammar::specs::placed::Reading::pure))]
fn sub_after(
    levels: u8,
    head: SubHead,
    tokens: &[Token],
    alloc: Global,
) -> Result<(Sub, &[Token]), Halt>
    ensures gives { Gives (λ r. (sub_view r.0, r.1.now)) result
        (sub_after levels (head.name, map group_view head.formals.items, kind_view head.kind) tokens.now) }
    ensures kept { IfOk result (λ r. length r.1.now ≤ length tokens.now) }
{
    let (parts, rest) = parts(levels, Home::Other, tokens, alloc)?;
    let (body, rest) = body(levels, rest, alloc)?;
    let (_, rest) = expect_sign(rest, sign::SEMICOLON)?;
    let SubHead {
        name: (name, place),
        formals,
        kind,
    } = head;
    let sub = Sub {
        name,
        formals,
        kind,
        parts,
        body,
        place,
    };
    Ok((sub, rest))
}

/// `name ";" {export} {part} ("end" | body) ";"`, behind `monitor` or `resource`, where `own` says whose its parts are
#[cycle(parts)]
#[tactic(auto, unfolding(pfc_grammar::specs::placed::Parts::module_behind, pfc_grammar::specs::placed::Reading::bind, pfc_grammar::specs::placed::Reading::pure))]
fn module_behind(
    levels: u8,
    own: Home,
    tokens: &[Token],
    alloc: Global,
) -> Result<(Module, &[Token]), Halt>
    ensures gives { Gives (λ r. (module_view r.0, r.1.now)) result (reader.module_behind (reader.parts_at levels) (stmt_at levels) (home_view own) tokens.now) }
    ensures kept { IfOk result (λ r. length r.1.now ≤ length tokens.now) }
{
    let ((name, place), rest) = expect_name(tokens, alloc)?;
    let (_, rest) = expect_sign(rest, sign::SEMICOLON)?;
    let (exports, rest) = exports(rest, alloc)?;
    let (parts, rest) = parts(levels, own, rest, alloc)?;
    let ((body, last), rest) = ending(levels, rest, alloc)?;
    let (_, rest) = expect_sign(rest, sign::SEMICOLON)?;
    let module = Module {
        name,
        exports,
        parts,
        body,
        last,
        place,
    };
    Ok((module, rest))
}

/// `["type"] name [formals] ";" {entry} {part} body ";"`, behind `process`
#[cycle(parts)]
#[tactic(auto, unfolding(pfc_grammar::specs::placed::Parts::process_behind, pfc_grammar::specs::placed::Reading::bind, pfc_grammar::specs::placed::Reading::pure))]
fn process_behind(levels: u8, tokens: &[Token], alloc: Global) -> Result<(Process, &[Token]), Halt>
    ensures gives { Gives (λ r. (process_view r.0, r.1.now)) result (reader.process_behind (reader.parts_at levels) (stmt_at levels) tokens.now) }
    ensures kept { IfOk result (λ r. length r.1.now ≤ length tokens.now) }
{
    let (many, rest) = type_word(tokens)?;
    let ((name, place), rest) = expect_name(rest, alloc)?;
    let (formals, rest) = formals(rest, alloc)?;
    let (_, rest) = expect_sign(rest, sign::SEMICOLON)?;
    let (entries, rest) = entries(rest, alloc)?;
    let (parts, rest) = parts(levels, Home::Other, rest, alloc)?;
    let (body, rest) = body(levels, rest, alloc)?;
    let (_, rest) = expect_sign(rest, sign::SEMICOLON)?;
    let process = Process {
        many,
        name,
        formals,
        entries,
        parts,
        body,
        place,
    };
    Ok((process, rest))
}
