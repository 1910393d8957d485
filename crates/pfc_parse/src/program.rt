//! The reading of a whole program, and the call that gives its tree or its syntax fault.
ghost use Rattle.std.specs.Prelude.{◌≡◌, ◌≤◌, ◌<◌, [], All, length, IfOk, IfErr};
ghost use Rattle.pfc_tree.specs.Symbols.{symbols};
ghost use Rattle.pfc_tree.specs.shapes.Parts.{ProgramShape};
ghost use Rattle.pfc_tree.specs.tokens.Parts.{tokens_of};
ghost use Rattle.pfc_tree.specs.lawful.Parts.{IsLawful};
ghost use Rattle.pfc_tree.specs.depths.Parts.{depths_of};
ghost use Rattle.pfc_tree.specs.Grammar.{most_depth};
ghost use Rattle.pfc_tree.specs.Readings.{tree_shape};
ghost use Rattle.pfc_tree.specs.views.Parts.{tree_view};
ghost use Rattle.pfc_grammar.specs.Outcomes.{IsTreeOf};
ghost use Rattle.pfc_grammar.specs.placed.Stmts.{stmt_at};
ghost use Rattle.pfc_grammar.specs.placed.Parts as reader;
ghost use Rattle.pfc_token_parser.specs.Giving.{Gives};
ghost use Rattle.pfc_parse.specs.Parsing.{IsFaultOf, IsUnlessMemory, fault_at};

use crate::SyntaxFault;
use crate::parts::heads::{body, params};
use crate::parts::homes::Home;
use crate::parts::parts;
use pfc_base::{Place, Token, sign, word};
use pfc_grammar::a_reading_of_tokens_is_exact;
use pfc_token_parser::{Halt, expect_name, expect_sign, expect_word};
use pfc_tree::Tree;
use std::alloc::Global;

/// How many levels are left for the parts and the statements of a program, of which a token may stand 64 deep.
const LEVELS: u8 = 63;

/// The tree that at most 262,144 tokens write, with their places. Where they write none, or a token stands deeper than
/// 64, the answer is their syntax fault. The other refusal is want of memory.
pub fn parse(alloc: Global, tokens: &[Token]) -> Result<Tree, SyntaxFault>
    requires { length tokens.now ≤ 262144 }
    // The tree is lawful, writes the tokens and keeps their places, and no token of it stands deeper than 64.
    ensures tree { IfOk result (λ tree. IsTreeOf tokens.now (tree_view tree)) }
    ensures level { IfOk result (λ tree. All (λ d. d ≤ most_depth) (depths_of (tree_shape tree))) }
    // Whatever lawful tree of so little depth writes the tokens is the answer, unless memory is wanting.
    ensures only { (shape : ProgramShape) → IsLawful shape → All (λ d. d ≤ most_depth) (depths_of shape) →
        symbols tokens.now ≡ tokens_of shape → IsUnlessMemory result shape }
    // A fault is the syntax fault of the tokens, at its place.
    ensures fault { IfErr result (IsFaultOf (symbols tokens.now)) }
{
    a_reading_of_tokens_is_exact();
    match whole(tokens, alloc) {
        Ok(tree) => Ok(tree),
        Err(halt) => Err(fault_at(tokens.len(), halt)),
    }
}

/// The fault that a halt is, among so many tokens.
fn fault_at(count: usize, halt: Halt) -> SyntaxFault
    requires { count ≤ 262144 }
    ensures { result ≡ fault_at count halt }
{
    match halt {
        Halt::Unexpected(left) => SyntaxFault::Unexpected {
            at: count.saturating_sub(left) as u32,
        },
        Halt::Deep(left) => SyntaxFault::Deep {
            at: count.saturating_sub(left) as u32,
        },
        Halt::Memory => SyntaxFault::Memory,
    }
}

/// A program, and nothing behind it.
fn whole(tokens: &[Token], alloc: Global) -> Result<Tree, Halt>
    ensures { Gives (λ tree. (tree_view tree, [])) result (reader.read_tokens tokens.now) }
{
    let (tree, rest) = program(tokens, alloc)?;
    if rest.is_empty() {
        Ok(tree)
    } else {
        Err(Halt::Unexpected(rest.len()))
    }
}

/// `"program" name ["(" name {"," name} ")"] ";" {progpart} body "."`
fn program(tokens: &[Token], alloc: Global) -> Result<(Tree, &[Token]), Halt>
    ensures { Gives (λ r. (tree_view r.0, r.1.now)) result (reader.program_at most_depth tokens.now) }
{
    let (place, rest) = expect_word(tokens, word::PROGRAM)?;
    program_behind(LEVELS, place, rest, alloc)
}

/// `name ["(" name {"," name} ")"] ";" {progpart} body "."`, behind `program`, which stands at `place`
#[tactic(auto, unfolding(pfc_grammar::specs::placed::Parts::program_behind, pfc_grammar::specs::placed::Reading::bind, pfc_grammar::specs::placed::Reading::pure))]
fn program_behind(
    levels: u8,
    place: Place,
    tokens: &[Token],
    alloc: Global,
) -> Result<(Tree, &[Token]), Halt>
    ensures { Gives (λ r. (tree_view r.0, r.1.now)) result (reader.program_behind (reader.parts_at levels) (stmt_at levels) place tokens.now) }
{
    let (name, rest) = expect_name(tokens, alloc)?;
    let (params, rest) = params(rest, alloc)?;
    let (_, rest) = expect_sign(rest, sign::SEMICOLON)?;
    let (parts, rest) = parts(levels, Home::Program, rest, alloc)?;
    let (body, rest) = body(levels, rest, alloc)?;
    let (_, rest) = expect_sign(rest, sign::DOT)?;
    let tree = Tree {
        name,
        params,
        parts,
        body,
        place,
    };
    Ok((tree, rest))
}
