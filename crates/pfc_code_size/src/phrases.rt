//! The phrases of a body, where the levels of the names in view are known.
ghost use Rattle.std.specs.Prelude.{◌≡◌, ◌+◌, ◌++◌, ◌<◌, IfOk, IfErr};
ghost use Rattle.pfc_types.specs.Views.{levels};
ghost use Rattle.pfc_phrases.specs.Views.{env_view};
ghost use Rattle.pfc_code_size.specs.Phrases.{env_within, levels_of, phrase_size};
ghost use Rattle.pfc_code_size.specs.declared.adding.CountFault.TheVariants.{TooLarge};

use crate::CountFault;
use crate::exprs::expr;
use crate::statements::{Reached, stmts};
use pfc_base::Memory;
use pfc_phrases::Env;
use pfc_program::{Level, Tables};
use pfc_tree::{Expr, Stmt};
use pfc_types::{Around, View};

/// A phrase of a body.
#[derive(Clone, Copy)]
pub(crate) enum Phrase<'a> {
    /// The test of a guard.
    Test(&'a Expr),
    /// Statements, before which the next scope of the text has this number.
    Statements(u32, &'a [Stmt]),
}

/// With a phrase, where these levels are in view, innermost first, and around them an outer view. A body without a level, which never
/// comes, counts as want of memory.
pub(crate) fn within(
    levels: &[Level],
    outer: Option<&View>,
    around: Around,
    tables: Tables,
    p: Phrase,
    count: u32,
) -> Result<u32, CountFault>
    ensures value { IfOk result (λ total. total ≡ count + phrase_size tables.entry.scopes.now
        (env_within tables.entry (levels.now ++ levels_of outer.entry) around) p.entry) }
    ensures large { IfErr result (λ f. f ≡ TooLarge →
        200000 < count + phrase_size tables.entry.scopes.now (env_within tables.entry (levels.now ++ levels_of outer.entry) around) p.entry) }
{
    match levels {
        [inner @ .., last] => {
            let view = View {
                scope: last.scope,
                count: last.count,
                outer,
            };
            within(inner, Some(&view), around, tables, p, count)
        }
        [] => match outer {
            Some(view) => phrase_within(view, around, tables, p, count),
            None => Err(CountFault::Memory),
        },
    }
}

/// With a phrase where this view is in view.
fn phrase_within(
    view: &View,
    around: Around,
    tables: Tables,
    p: Phrase,
    count: u32,
) -> Result<u32, CountFault>
    ensures value { IfOk result (λ total. total ≡ count + phrase_size tables.entry.scopes.now (env_within tables.entry (levels view.now) around) p.entry) }
    ensures large { IfErr result (λ f. f ≡ TooLarge →
        200000 < count + phrase_size tables.entry.scopes.now (env_within tables.entry (levels view.now) around) p.entry) }
{
    let env = Env {
        types: tables.types,
        scopes: tables.scopes,
        view,
        around,
    };
    with_phrase(p, env, count)
}

fn with_phrase(p: Phrase, env: Env, count: u32) -> Result<u32, CountFault>
    ensures value { IfOk result (λ total. total ≡ count + phrase_size env.entry.scopes.now (env_view env.entry) p.entry) }
    ensures large { IfErr result (λ f. f ≡ TooLarge → 200000 < count + phrase_size env.entry.scopes.now (env_view env.entry) p.entry) }
{
    match p {
        Phrase::Test(e) => Ok(expr(e, env, count)?),
        Phrase::Statements(next, ss) => Ok(stmts(ss, env, Reached { count, next })?.count),
    }
}
