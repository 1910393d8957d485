//! An alternative that is open.
ghost use Rattle.std.specs.Prelude.{◌≡◌, IfOk, OnOk};
ghost use Rattle.pfc_semantics.specs.Remainders.{Context};
ghost use Rattle.pfc_program.specs.declared.tables.Tables.{Tables};
ghost use Rattle.pfc_pending.specs.Ahead.{step_ahead};
ghost use Rattle.pfc_pending.specs.Selects.{offer_view, rest_view, select_view};
ghost use Rattle.pfc_pending.specs.Waiting.{Waiting};
ghost use Rattle.pfc_select_steps.specs.Gone.{HasRoom, next_of, open_ahead};

use pfc_base::Memory;
use pfc_pending::{At, Choosing, Offer, Open, Step, Stmts};
use pfc_program::behind_comm;

/// Takes room for one open alternative more, and tells the number of the next scope in the statements of the one at hand. It is refused
/// for want of memory, or where that number has more than 32 bits; the select is the same in any case.
#[tactic(auto, using(crate::proofs::Nodes::nodes))]
pub(crate) fn reserve<'t>(choosing: &mut Choosing<'t>) -> Result<u32, Memory>
    ensures current { choosing.new.current ≡ choosing.old.current }
    ensures rest { rest_view choosing.new ≡ rest_view choosing.old }
    ensures select { select_view choosing.new.select ≡ select_view choosing.old.select }
    ensures number { IfOk result (λ n. n ≡ next_of choosing.old) }
    ensures room { OnOk result (HasRoom choosing.new) }
{
    let next = behind_comm(&choosing.current.alt.comm, choosing.current.next)?;
    choosing.select.offered.reserve(1)?;
    Ok(next)
}

/// The alternative at hand is open, in room that was taken before: on with those behind it. It takes no memory.
#[tactic(auto, using(crate::proofs::Nodes::nodes))]
pub(crate) fn keep_open<'t>(
    mut choosing: Box<Choosing<'t>>,
    next: u32,
    offer: Offer<'t>,
) -> Step<'t>
    requires number { next ≡ next_of choosing.value }
    requires room { HasRoom choosing.value }
    ensures { (t : Tables) (c : Context) (w : Waiting) → step_ahead t c w result ≡ open_ahead c w choosing.entry.value (offer_view offer.entry) }
{
    let alt = choosing.current.alt;
    let found = Open {
        offer,
        replica: choosing.current.replica,
        next,
        stmts: Stmts {
            list: &alt.rest,
            from: 0,
        },
    };
    choosing.select.offered.push(found).unwrap();
    Step::On(At::Alternatives(choosing))
}
