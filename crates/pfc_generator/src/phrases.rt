//! The code of a body's phrases, where the levels of the names in view are known.
ghost use Rattle.std.specs.Prelude.{◌≡◌, ◌++◌, OnOk};
ghost use Rattle.pfc_types.specs.Views.{levels};
ghost use Rattle.pfc_addresses.specs.Sites.{site_view};
ghost use Rattle.pfc_code_size.specs.Phrases.{levels_of};
ghost use Rattle.pfc_expression_code.specs.Putting.{IsMade};
ghost use Rattle.pfc_generator.specs.Phrases.{phrase_code, site_within};

use crate::GenFault;
use pfc_addresses::{Body, Site};
use pfc_call_code::resource_of;
use pfc_code::Instr;
use pfc_expression_code::Coder;
use pfc_program::Level;
use pfc_statement_code::stmts;
use pfc_tree::{Expr, Stmt};
use pfc_types::{Around, View};
use pfc_unseen_code::keep_unseen;
use std::alloc::Global;

/// A phrase of a body.
#[derive(Clone, Copy)]
pub(crate) enum Phrase<'a> {
    /// The test of a guard.
    Guard(&'a Expr),
    /// Statements, before which the next scope of the text has this number.
    Statements(u32, &'a [Stmt]),
    /// Statements whose code stands elsewhere, so that their strings and their selects count.
    Unseen(u32, &'a [Stmt]),
    /// An instruction alone.
    Alone(Instr),
}

/// A place in a body, with the line of its instructions.
#[derive(Clone, Copy)]
pub(crate) struct Position<'t, 'e> {
    pub alloc: Global,
    pub body: &'e Body<'t, 'e>,
    pub around: Around,
    pub line: u32,
}

/// Puts the code of a phrase, where these levels are in view, innermost first, and around them an outer view. A body without a level, which
/// never comes, counts as want of memory.
pub(crate) fn within(
    levels: &[Level],
    outer: Option<&View>,
    position: Position,
    p: Phrase,
    coder: &mut Coder,
) -> Result<(), GenFault>
    ensures { OnOk result (IsMade (phrase_code
        (site_within position.entry.body.now (levels.now ++ levels_of outer.entry) position.entry.around position.entry.line) p.entry) coder.old coder.new) }
{
    match levels {
        [inner @ .., last] => {
            let view = View {
                scope: last.scope,
                count: last.count,
                outer,
            };
            within(inner, Some(&view), position, p, coder)
        }
        [] => match outer {
            Some(view) => phrase_within(view, position, p, coder),
            None => Err(GenFault::Memory),
        },
    }
}

/// Puts the code of a phrase where this view is in view.
#[tactic(auto, unfolding(pfc_addresses::specs::Sites::site_view))]
fn phrase_within(
    view: &View,
    position: Position,
    p: Phrase,
    coder: &mut Coder,
) -> Result<(), GenFault>
    ensures { OnOk result (IsMade (phrase_code (site_within position.entry.body.now (levels view.now) position.entry.around position.entry.line) p.entry)
        coder.old coder.new) }
{
    let site = Site {
        body: position.body,
        view,
        around: position.around,
        line: position.line,
    };
    put_phrase(position.alloc, p, site, coder)
}

/// Puts the code of a phrase.
fn put_phrase(alloc: Global, p: Phrase, site: Site, coder: &mut Coder) -> Result<(), GenFault>
    ensures { OnOk result (IsMade (phrase_code (site_view site.entry) p.entry) coder.old coder.new) }
{
    match p {
        Phrase::Guard(test) => {
            coder.expr(test, site)?;
            coder.put(Instr::GRD(resource_of(site)), site)?;
        }
        Phrase::Statements(next, ss) => stmts(alloc, ss, site, next, coder)?,
        Phrase::Unseen(next, ss) => {
            keep_unseen(ss, site, next, coder)?;
        }
        Phrase::Alone(instr) => coder.put(instr, site)?,
    }
    Ok(())
}
