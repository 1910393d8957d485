//! Sums that are one factor alone.
ghost use Rattle.std.specs.Prelude.{◌≡◌};
ghost use Rattle.pfc_tree.specs.views.Exprs.{simple_view, term_view, summands_view, multipliers_view};
ghost use Rattle.pfc_expression_code.specs.Lists as lists;

use pfc_base::Place;
use pfc_tree::{AddOp, Factor, MulOp, Simple, Term};

/// Whether a sum is one factor alone, without sign and operators.
#[tactic(auto, using(crate::proofs::Nodes::nodes))]
pub(crate) fn is_lone_simple(s: &Simple) -> bool
    ensures { result ≡ lists.is_lone_simple (simple_view s.now) }
{
    s.sign.is_none() && no_summand(&s.rest) && is_lone_term(&s.first)
}

fn no_summand(us: &[((AddOp, Place), Term)]) -> bool
    ensures { result ≡ lists.no_summand (summands_view us.now) }
{
    match us {
        [] => true,
        [_first, _rest @ ..] => false,
    }
}

#[tactic(auto, using(crate::proofs::Nodes::nodes))]
fn is_lone_term(t: &Term) -> bool
    ensures { result ≡ lists.is_lone_term (term_view t.now) }
{
    no_multiplier(&t.rest)
}

fn no_multiplier(ms: &[((MulOp, Place), Factor)]) -> bool
    ensures { result ≡ lists.no_multiplier (multipliers_view ms.now) }
{
    match ms {
        [] => true,
        [_first, _rest @ ..] => false,
    }
}
