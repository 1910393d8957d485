//! The names in view, for the frequent steps.
ghost use Rattle.std.specs.Prelude.{◌≡◌, ◌++◌};
ghost use Rattle.pfc_types.specs.Views.{levels};
ghost use Rattle.pfc_program.specs.Views.{names_view};
ghost use Rattle.pfc_semantics.specs.Alternatives.{context};
ghost use Rattle.pfc_pending.specs.Waiting.{waiting};
ghost use Rattle.pfc_pending.specs.Ahead.{ahead};
ghost use Rattle.pfc_frequent_steps.specs.Within.{env_within, levels_of};

use crate::steps::come;
use pfc_pending::{At, Pending};
use pfc_phrases::Env;
use pfc_program::{Level, Names, Program};
use pfc_sites::Site;
use pfc_types::{Around, View};
use std::alloc::Global;

/// Frequent steps of a process where these names are in view. What they come to is at hand then, and has the same action ahead; where it is
/// that action, its line is that of its statement, and what is left behind it is pending.
pub fn step_often<'t>(
    alloc: Global,
    program: &Program<'t>,
    names: &Names,
    at: &mut At<'t>,
    line: &mut u32,
    pending: &mut Vec<Pending<'t>>,
)
    ensures { ahead program.now.tables (context (names_view program.now.tables names.now) line.new)
        (waiting program.now.tables pending.new.items) at.new
        ≡ ahead program.now.tables (context (names_view program.now.tables names.now) line.old)
        (waiting program.now.tables pending.old.items) at.old }
{
    within(
        names.levels(),
        None,
        names.around(),
        alloc,
        program,
        at,
        line,
        pending,
    )
}

/// Steps where these levels are in view, innermost first, and around them an outer view. A body without a level, which never comes, takes
/// no step.
fn within<'t>(
    levels: &[Level],
    outer: Option<&View>,
    around: Around,
    alloc: Global,
    program: &Program<'t>,
    at: &mut At<'t>,
    line: &mut u32,
    pending: &mut Vec<Pending<'t>>,
)
    ensures { ahead program.now.tables (context (env_within program.now.tables (levels.now ++ levels_of outer.entry) around) line.new)
        (waiting program.now.tables pending.new.items) at.new
        ≡ ahead program.now.tables (context (env_within program.now.tables (levels.now ++ levels_of outer.entry) around) line.old)
        (waiting program.now.tables pending.old.items) at.old }
{
    match levels {
        [inner @ .., last] => {
            let view = View {
                scope: last.scope,
                count: last.count,
                outer,
            };
            within(
                inner,
                Some(&view),
                around,
                alloc,
                program,
                at,
                line,
                pending,
            )
        }
        [] => match outer {
            Some(view) => steps_within(view, around, alloc, program, at, line, pending),
            None => {}
        },
    }
}

/// Steps where this view is in view.
fn steps_within<'t>(
    view: &View,
    around: Around,
    alloc: Global,
    program: &Program<'t>,
    at: &mut At<'t>,
    line: &mut u32,
    pending: &mut Vec<Pending<'t>>,
)
    ensures { ahead program.now.tables (context (env_within program.now.tables (levels view.now) around) line.new)
        (waiting program.now.tables pending.new.items) at.new
        ≡ ahead program.now.tables (context (env_within program.now.tables (levels view.now) around) line.old)
        (waiting program.now.tables pending.old.items) at.old }
{
    let env = Env {
        types: program.tables.types,
        scopes: program.tables.scopes,
        view,
        around,
    };
    let site = Site {
        alloc,
        program,
        env,
    };
    come(at, line, pending, site)
}
