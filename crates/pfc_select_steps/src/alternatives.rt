//! All alternatives of a select, and the select that begins.
ghost use Rattle.std.specs.Prelude.{◌≡◌, ◌++◌, ◌∷◌, [], ◌≤◌, ◌^◌, map, option_map, IfOk, OnOk};
ghost use Rattle.pfc_tree.specs.views.Stmts.{alts_view, alt_view};
ghost use Rattle.pfc_semantics.specs.Alternatives as alternatives;
ghost use Rattle.pfc_semantics.specs.Alternatives.{context, from_alternatives, select_begun};
ghost use Rattle.pfc_phrases.specs.Views.{env_view};
ghost use Rattle.pfc_program.specs.declared.tables.Tables.{Tables};
ghost use Rattle.pfc_program.specs.Views.{spot_view};
ghost use Rattle.pfc_pending.specs.Ahead.{ahead};
ghost use Rattle.pfc_pending.specs.Selects.{alternative_view, otherwise_view, replica_view};
ghost use Rattle.pfc_pending.specs.Waiting.{Waiting, remainder_of};
ghost use Rattle.pfc_select_steps.specs.Gone.{alternatives_view, spread_alt, spread_by, with_replica};

use pfc_base::Memory;
use pfc_facts::spread_values;
use pfc_pending::{Alternative, At, Choosing, Deed, Otherwise, Replica, Selecting};
use pfc_program::{NamedSpot, behind_alt};
use pfc_sites::Site;
use pfc_tree::{Alt, Spread};
use pfc_types::value_count;

/// A select begins, before which the next scope of the text has the number n: it goes through its alternatives, or decides where it has
/// none. Its only refusal is want of memory, also for a number of more than 32 bits.
#[tactic(auto, using(crate::proofs::Lists::begun))]
pub fn begin<'t>(
    n: u32,
    pri: bool,
    alts: &'t Vec<Alt>,
    otherwise: Option<Otherwise<'t>>,
    line: u32,
    site: Site<'t, '_>,
) -> Result<At<'t>, Memory>
    ensures { IfOk result (λ a. (t : Tables) (w : Waiting) → ahead t (context (env_view site.entry.env) line) w a ≡ from_alternatives
        (context (env_view site.entry.env) line) (alternatives.alternatives (context (env_view site.entry.env) line) n (alts_view alts.now.items))
        (record (select_begun pri) { otherwise = option_map otherwise_view otherwise.entry }) (remainder_of w)) }
{
    let all = listed(n, alts, line, site)?;
    let select = Selecting {
        pri,
        offered: Vec::new(site.alloc),
        otherwise,
    };
    if all.len() == 0 {
        return Ok(At::Deed(Deed::Decides(select)));
    }
    let choosing = Choosing {
        current: all[0],
        all,
        behind: 0,
        select,
    };
    Ok(At::Alternatives(Box::new(site.alloc, choosing)?))
}

/// All alternatives of a select, in the order of the text.
#[tactic(auto, using(crate::proofs::Lists::listed))]
fn listed<'t>(
    n: u32,
    alts: &'t [Alt],
    line: u32,
    site: Site<'t, '_>,
) -> Result<Vec<Alternative<'t>>, Memory>
    ensures { IfOk result (λ all. alternatives_view all.items ≡ alternatives.alternatives (context (env_view site.entry.env) line) n (alts_view alts.now)) }
{
    let mut all = Vec::new(site.alloc);
    let mut next = n;
    for alt in alts {
        spread(&mut all, alt, next, line, site)?;
        next = behind_alt(alt, next)?;
    }
    Ok(all)
}

/// The alternatives for which one of the text stands: itself, or where it is replicated one for each of its values.
#[tactic(auto, using(crate::proofs::Nodes::nodes))]
fn spread<'t>(
    all: &mut Vec<Alternative<'t>>,
    alt: &'t Alt,
    next: u32,
    line: u32,
    site: Site<'t, '_>,
) -> Result<(), Memory>
    ensures { OnOk result (alternatives_view all.new.items ≡ alternatives_view all.old.items ++ spread_alt
        (context (env_view site.entry.env) line) next (alt_view alt.now)) }
{
    let one = Alternative {
        replica: None,
        alt,
        next,
    };
    spread_one(all, one, &alt.spread, line, site)
}

/// The same of one that has this spread.
#[tactic(auto, using(crate::proofs::Lists::pushed))]
fn spread_one<'t>(
    all: &mut Vec<Alternative<'t>>,
    one: Alternative<'t>,
    spread: &Option<Spread>,
    line: u32,
    site: Site<'t, '_>,
) -> Result<(), Memory>
    ensures { OnOk result (alternatives_view all.new.items ≡ alternatives_view all.old.items ++ spread_by (context (env_view site.entry.env) line)
        (alternative_view one.entry) spread.now) }
{
    match spread {
        Some(s) => replicate(all, one, s, line, site),
        None => {
            all.push(one)?;
            Ok(())
        }
    }
}

/// An alternative for each value of a spread, from low to high; none where a constant is faulty, or the low value above the high one.
fn replicate<'t>(
    all: &mut Vec<Alternative<'t>>,
    one: Alternative<'t>,
    s: &Spread,
    line: u32,
    site: Site<'t, '_>,
) -> Result<(), Memory>
    ensures { OnOk result (alternatives_view all.new.items ≡ alternatives_view all.old.items ++ map (with_replica (alternative_view one.entry))
        (alternatives.replicas (context (env_view site.entry.env) line) s.now)) }
{
    let at = site.variable(&s.name);
    match spread_values(s, site.env) {
        Some((low, high)) => between(all, one, at, line, low, high),
        None => Ok(()),
    }
}

fn between<'t>(
    all: &mut Vec<Alternative<'t>>,
    one: Alternative<'t>,
    at: NamedSpot,
    line: u32,
    low: i32,
    high: i32,
) -> Result<(), Memory>
    ensures { OnOk result (alternatives_view all.new.items ≡ alternatives_view all.old.items ++ map (with_replica (alternative_view one.entry))
        (alternatives.replicas_between (spot_view at).spot line low high)) }
{
    if low <= high {
        repeat(all, one, at, line, low, value_count(low, high))
    } else {
        Ok(())
    }
}

/// An alternative for each of so many values, from a first one on.
fn repeat<'t>(
    all: &mut Vec<Alternative<'t>>,
    one: Alternative<'t>,
    at: NamedSpot,
    line: u32,
    low: i32,
    count: u64,
) -> Result<(), Memory>
    requires { count ≤ 2 ^ 32 }
    ensures { OnOk result (alternatives_view all.new.items ≡ alternatives_view all.old.items ++ map (with_replica (alternative_view one.entry))
        (alternatives.replicas_from (spot_view at).spot line low count)) }
{
    for k in 0..count {
        let replica = Replica {
            scope: at.scope,
            variable: at.variable,
            value: low as i64 + k as i64,
            line,
        };
        add(all, one, replica)?;
    }
    Ok(())
}

/// An alternative at one value of its replica.
#[tactic(auto, using(crate::proofs::Lists::pushed))]
fn add<'t>(
    all: &mut Vec<Alternative<'t>>,
    one: Alternative<'t>,
    replica: Replica,
) -> Result<(), Memory>
    ensures { OnOk result (alternatives_view all.new.items ≡ alternatives_view all.old.items ++ with_replica
        (alternative_view one.entry) (replica_view replica) ∷ []) }
{
    all.push(Alternative {
        replica: Some(replica),
        ..one
    })?;
    Ok(())
}
