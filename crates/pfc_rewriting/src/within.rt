//! The names in view: rewriting goes on with others where a body or a guard begins or ends.
ghost use Rattle.std.specs.Prelude.{◌≡◌, ◌++◌, IfOk, OnErr};
ghost use Rattle.pfc_types.specs.Views.{levels};
ghost use Rattle.pfc_program.specs.Views.{names_view};
ghost use Rattle.pfc_rewriting.specs.Going.{arrived_ahead, going_ahead};
ghost use Rattle.pfc_pending.specs.Ahead.{deed_ahead};
ghost use Rattle.pfc_pending.specs.Waiting.{waiting};
ghost use Rattle.pfc_semantics.specs.Alternatives.{context};
ghost use Rattle.pfc_rewriting.specs.Within.{env_within, levels_of};

use crate::going::{Came, Going};
use pfc_base::Memory;
use pfc_pending::Deed;
use pfc_phrases::Env;
use pfc_program::{Level, Names, Program};
use pfc_sites::Site;
use pfc_types::{Around, View};
use std::alloc::Global;

/// The one action that comes next for a process, which is at this where these names are in view. What is left behind the action is
/// pending then, and nothing is at hand. Its only refusal is want of memory, which leaves the process before the same action.
pub fn next_deed<'t>(
    alloc: Global,
    program: &Program<'t>,
    names: &mut Names,
    going: &mut Going<'t>,
) -> Result<Deed<'t>, Memory>
    ensures ok { IfOk result (λ deed. deed_ahead program.now.tables (context (names_view program.now.tables names.new) going.new.line)
        (waiting program.now.tables going.new.pending.items) deed
        ≡ going_ahead program.now.tables (names_view program.now.tables names.old) going.old) }
    ensures err { OnErr result (going_ahead program.now.tables (names_view program.now.tables names.new) going.new
        ≡ going_ahead program.now.tables (names_view program.now.tables names.old) going.old) }
{
    for _others in 0..u64::MAX {
        match within(names.levels(), None, names.around(), alloc, program, going)? {
            Came::Deed(deed) => return Ok(deed),
            Came::Names(others) => *names = others,
        }
    }
    Err(Memory)
}

/// Rewriting where these levels are in view, innermost first, and around them an outer view. A body without a level, which never comes,
/// counts as want of memory.
fn within<'t>(
    levels: &[Level],
    outer: Option<&View>,
    around: Around,
    alloc: Global,
    program: &Program<'t>,
    going: &mut Going<'t>,
) -> Result<Came<'t>, Memory>
    ensures { arrived_ahead program.now.tables (env_within program.now.tables (levels.now ++ levels_of outer.entry) around) going.new result
        ≡ going_ahead program.now.tables (env_within program.now.tables (levels.now ++ levels_of outer.entry) around) going.old }
{
    match levels {
        [inner @ .., last] => {
            let view = View {
                scope: last.scope,
                count: last.count,
                outer,
            };
            within(inner, Some(&view), around, alloc, program, going)
        }
        [] => match outer {
            Some(view) => turns_within(view, around, alloc, program, going),
            None => Err(Memory),
        },
    }
}

/// Rewriting where this view is in view.
fn turns_within<'t>(
    view: &View,
    around: Around,
    alloc: Global,
    program: &Program<'t>,
    going: &mut Going<'t>,
) -> Result<Came<'t>, Memory>
    ensures { arrived_ahead program.now.tables (env_within program.now.tables (levels view.now) around) going.new result
        ≡ going_ahead program.now.tables (env_within program.now.tables (levels view.now) around) going.old }
{
    let env = Env {
        types: program.tables.types,
        scopes: program.tables.scopes,
        view,
        around,
    };
    going.turns(Site {
        alloc,
        program,
        env,
    })
}
