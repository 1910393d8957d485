//! The decision of a select, and the way from its alternatives to their branches.
ghost use Rattle.std.specs.Prelude.{◌≡◌, ◌≤◌, if◌then◌else◌, true, List, [], ◌∷◌, None, length, min, ℕ, OnOk, IfOk, IfErr};
ghost use Rattle.pfc_semantics.specs.Remainders.{Alternative};
ghost use Rattle.pfc_translation.specs.Codes.{Code, ◌⨾◌, with_arms};
ghost use Rattle.pfc_translation.specs.Sites as translation;
ghost use Rattle.pfc_translation.specs.Selects.{alternatives_code};
ghost use Rattle.pfc_translation.specs.Statements.{sel_code};
ghost use Rattle.pfc_emit.specs.declared.emitter.EmitFault.TheVariants.{Full};
ghost use Rattle.pfc_addresses.specs.Sites.{site_view};
ghost use Rattle.pfc_expression_code.specs.Putting.{Made, IsMade, IsTooLarge};
ghost use Rattle.pfc_select_code.specs.Alternatives.{open_alternatives, arm_places};
ghost use Rattle.pfc_select_code.specs.Leading.{can_lead, led, first_branch, branch_addresses};

use pfc_addresses::Site;
use pfc_code::Instr;
use pfc_emit::EmitFault;
use pfc_expression_code::Coder;

/// Puts the decision of a select that has no else part, or whose else part is not put yet: SEL p 0, where p is 1 for `pri` and 0 else. Gives
/// its address, from 0, from which it can be led to the else part.
pub fn decide(pri: bool, site: Site, made: &mut Coder) -> Result<u32, EmitFault>
    ensures code { OnOk result (IsMade (sel_code (site_view site.entry) pri None) made.old made.new) }
    ensures address { IfOk result (λ at. at ≡ length made.old.code) }
    ensures large { IfErr result (λ fault. fault ≡ Full → IsTooLarge (sel_code (site_view site.entry) pri None) made.old) }
{
    made.place(Instr::SEL(rank(pri), 0), site)
}

/// The first argument of SEL: 1 where the order of the text decides, else 0.
fn rank(pri: bool) -> u32
    ensures { result ≡ (if pri then 1 else 0) }
{
    if pri { 1 } else { 0 }
}

/// The alternatives whose ARMs stand at these places lead to these addresses, each to the one in its place of the list; one of `terminate`,
/// which has no place, leads nowhere. Nothing else changes. So the code of open alternatives becomes the code of alternatives whose branches
/// begin at these addresses.
pub fn lead_alternatives(places: &[Option<u32>], branches: &[u32], made: &mut Coder)
    requires { can_lead made.old.code places.now ≡ true }
    ensures led { made.new ≡ record made.old { code = led made.old.code places.now branches.now } }
    ensures alternatives { (s : translation.Site) (alts : List Alternative) (distances : List ℕ) (rest : Code) (before : Made)
        → IsMade (with_arms (length alts) (open_alternatives s alts) ⨾ rest) before made.old
        → places.now ≡ arm_places s (length before.code) alts
        → branches.now ≡ branch_addresses (first_branch s (length before.code) alts) distances → length alts ≤ length distances
        → IsMade (with_arms (length alts) (alternatives_code s alts distances ⨾ rest)) before made.new }
{
    for i in 0..shorter(places, branches) {
        lead_place(places[i], branches[i], made);
    }
}

/// The length of the shorter list.
fn shorter(places: &[Option<u32>], branches: &[u32]) -> usize
    ensures { result ≡ min (length places.now) (length branches.now) }
{
    if places.len() < branches.len() {
        places.len()
    } else {
        branches.len()
    }
}

/// The instruction at this place, if there is one, leads to this address.
fn lead_place(place: Option<u32>, branch: u32, made: &mut Coder)
    requires { can_lead made.old.code (place ∷ []) ≡ true }
    ensures { made.new ≡ record made.old { code = led made.old.code (place ∷ []) (branch ∷ []) } }
{
    if let Some(at) = place {
        made.lead(at, branch);
    }
}
