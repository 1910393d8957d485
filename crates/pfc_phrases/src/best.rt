//! The first broken rule that a walk has found.
ghost use Rattle.std.specs.Prelude.{◌≡◌};
ghost use Rattle.pfc_types.specs.Faults.{unless, is_before, lesser};
ghost use Rattle.pfc_phrases.specs.Found.{noted, refused};

use pfc_base::{Place, Refusal};

/// The first of the broken rules found so far whose codes are not below `from`: the earliest in the text, and at one
/// place that of the lowest code.
#[derive(Clone, Copy, Debug, PartialEq, Eq)]
pub struct Best {
    pub from: u16,
    pub first: Option<Refusal>,
}

impl Best {
    /// Nothing is found.
    pub fn new(from: u16) -> Best
        ensures { result ≡ record { from = from; first = None } }
    {
        Best { from, first: None }
    }

    /// A rule is broken at a place, unless it holds there.
    pub fn unless(&mut self, holds: bool, place: Place, code: u16)
        ensures { self.new ≡ noted self.old (unless holds place code) }
    {
        self.add(fault_unless(holds, place, code));
    }

    /// A rule is broken, where there is one.
    pub fn add(&mut self, fault: Option<Refusal>)
        ensures { self.new ≡ noted self.old (refused fault) }
    {
        if let Some(f) = fault
            && self.from <= f.code
        {
            self.first = Some(lesser(f, self.first));
        }
    }
}

/// The broken rule, unless it holds.
pub fn fault_unless(holds: bool, place: Place, code: u16) -> Option<Refusal>
    ensures { refused result ≡ unless holds place code }
{
    if holds {
        return None;
    }
    Some(Refusal { code, place })
}

/// Whether a refusal comes before another.
fn is_before(f: Refusal, g: Refusal) -> bool
    ensures { result ≡ is_before f g }
{
    f.place.line < g.place.line
        || f.place.line == g.place.line
            && (f.place.column < g.place.column
                || f.place.column == g.place.column && f.code < g.code)
}

/// The first of both.
fn lesser(f: Refusal, best: Option<Refusal>) -> Refusal
    ensures { Some result ≡ lesser f best }
{
    match best {
        None => f,
        Some(best) => { if is_before(f, best) { f } else { best } }
    }
}
