//! The variables of `read` and `readln`.
ghost use Rattle.std.specs.Prelude.{◌≡◌, ℕ};
ghost use Rattle.pfc_semantics.specs.Alternatives.{context};
ghost use Rattle.pfc_phrases.specs.Views.{env_view};
ghost use Rattle.pfc_program.specs.declared.tables.Tables.{Tables};
ghost use Rattle.pfc_pending.specs.Ahead.{ahead, step_ahead};
ghost use Rattle.pfc_pending.specs.Waiting.{Waiting};
ghost use Rattle.pfc_pending.specs.declared.at_hand.At.TheVariants as at;

use pfc_pending::{Actuals, At, Deed, Goal, Pending, Step};
use pfc_phrases::as_desig;
use pfc_sites::{Site, expression, first, part};
use pfc_typing::desig_type;

/// The variables that are left of a `read` with this line; a `readln` skips the line behind them.
#[tactic(auto, using(crate::proofs::Rules::input))]
pub fn reads<'t>(args: Actuals<'t>, skip: bool, line: u32, site: Site<'t, '_>) -> Step<'t>
    ensures { (t : Tables) (w : Waiting) → step_ahead t (context (env_view site.entry.env) line) w result ≡ ahead t
        (context (env_view site.entry.env) line) w (at.Reads args.entry skip) }
{
    match first(args) {
        Some((a, behind)) => match as_desig(expression(a)) {
            Some(d) => {
                let goal = Goal::InputTo(desig_type(d, site.env));
                Step::Under(Pending::ReadOn(line, behind, skip), part(d, goal, site))
            }
            None => Step::On(At::Reads(behind, skip)),
        },
        None => {
            if skip {
                Step::On(At::Deed(Deed::Skips))
            } else {
                Step::On(At::Rest)
            }
        }
    }
}
