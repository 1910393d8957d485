//! What the alternatives of a `select` wait for, together.
ghost use Rattle.std.specs.Prelude.{◌≡◌, false};
ghost use Rattle.pfc_tree.specs.views.Stmts.{comm_view, alts_view};
ghost use Rattle.pfc_types.specs.Faults.{◌⨾◌};
ghost use Rattle.pfc_types.specs.rules.Statements as rules;
ghost use Rattle.pfc_phrases.specs.Found.{noted};
ghost use Rattle.pfc_phrases.specs.Views.{env_view};

use crate::spreads::number_fault;
use pfc_base::Place;
use pfc_phrases::{Best, Env};
use pfc_tree::{Alt, Comm};

/// Whether an alternative waits for another process.
fn communicates(c: &Comm) -> bool
    ensures { result ≡ rules.communicates (comm_view c.now) }
{
    match c {
        Comm::Accept(_, _) | Comm::Send(_, _, _) | Comm::Receive(_, _, _) => true,
        Comm::Timeout(_, _) | Comm::Terminate(_) => false,
    }
}

/// Whether some alternative waits for another process.
fn any_communicates(alts: &[Alt]) -> bool
    ensures { result ≡ rules.any_communicates (alts_view alts.now) }
{
    for a in alts {
        if communicates(&a.comm) {
            return true;
        }
    }
    false
}

/// 417, of one alternative behind others of which one was a `timeout` or `terminate`, as `had` says.
fn way(c: &Comm, had: bool, best: &mut Best)
    ensures { best.new ≡ noted best.old (rules.way_rule had (comm_view c.now)) }
{
    match c {
        Comm::Timeout(_, place) => best.unless(!had, *place, 417),
        Comm::Terminate(place) => best.unless(!had, *place, 417),
        Comm::Accept(_, _) | Comm::Send(_, _, _) | Comm::Receive(_, _, _) => {}
    }
}

/// 417: at most one of `timeout`, `else` and `terminate`; at the second. Gives whether a `timeout` or `terminate` stands.
fn ways(alts: &[Alt], best: &mut Best) -> bool
    ensures way { result ≡ rules.has_way (alts_view alts.now) }
    ensures best { best.new ≡ noted best.old (rules.ways_rule false (alts_view alts.now)) }
{
    let mut had = false;
    for a in alts {
        way(&a.comm, had, best);
        had = had || !communicates(&a.comm);
    }
    had
}

/// 416: one alternative at least waits for another process; at `select`. 425 and 417 likewise, of all alternatives. Gives
/// whether a `timeout` or `terminate` stands.
pub(crate) fn select_head(alts: &[Alt], place: Place, env: Env, best: &mut Best) -> bool
    ensures way { result ≡ rules.has_way (alts_view alts.now) }
    ensures best { best.new ≡ noted best.old (rules.select_rule (alts_view alts.now) place ⨾ rules.number_rule (env_view env.entry)
        (alts_view alts.now) place ⨾ rules.ways_rule false (alts_view alts.now)) }
{
    best.unless(any_communicates(alts), place, 416);
    best.add(number_fault(alts, place, env));
    ways(alts, best)
}
