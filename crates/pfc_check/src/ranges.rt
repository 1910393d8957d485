//! The ranges of an array as they are written.
ghost use Rattle.std.specs.Prelude.{◌≡◌, OnOk, IfOk};
ghost use Rattle.pfc_types.specs.Views.{levels};
ghost use Rattle.pfc_types.specs.Blocks.{note};
ghost use Rattle.pfc_types.specs.rules.Constants.{constant_value, constant_place, bounds_rule, broken_range, broken_ranges, range_extents};
ghost use Rattle.pfc_phrases.specs.Found.{refused};
ghost use Rattle.pfc_check.specs.States.{state_of, extents_of};

use crate::state::State;
use pfc_base::{Memory, Refusal};
use pfc_phrases::{Extent, bounds_fault, constant_place, range_extent};
use pfc_tree::Range;
use pfc_types::View;

impl State {
    /// Both bounds of a range have one simple type, and the low one is not above the high one.
    fn bounds_fault(&self, r: &Range, view: &View) -> Option<Refusal>
        ensures { refused result ≡ bounds_rule (constant_value (state_of self.now).blocks.scopes (levels view.now) r.now.low)
            (constant_value (state_of self.now).blocks.scopes (levels view.now) r.now.high) (constant_place r.now.low) }
    {
        bounds_fault(
            self.value(&r.low, view),
            self.value(&r.high, view),
            constant_place(&r.low),
        )
    }

    /// Notes the rules that are broken in a range.
    fn range(&mut self, r: &Range, view: &View) -> Result<(), Memory>
        ensures state { OnOk result (state_of self.new ≡ note (state_of self.old) (broken_range (state_of self.old).blocks.scopes (levels view.now) r.now)) }
        ensures scopes { OnOk result (self.new.scopes.scopes ≡ self.old.scopes.scopes) }
    {
        let low = self.constant_fault(&r.low, view);
        let high = self.constant_fault(&r.high, view);
        let bounds = self.bounds_fault(r, view);
        self.note(low)?;
        self.note(high)?;
        self.note(bounds)
    }

    /// Notes the rules that are broken in the ranges of an array.
    pub(crate) fn ranges(&mut self, ranges: &[Range], view: &View) -> Result<(), Memory>
        ensures state { OnOk result (state_of self.new ≡ note (state_of self.old)
            (broken_ranges (state_of self.old).blocks.scopes (levels view.now) ranges.now)) }
        ensures scopes { OnOk result (self.new.scopes.scopes ≡ self.old.scopes.scopes) }
    {
        for r in ranges {
            self.range(r, view)?;
        }
        Ok(())
    }

    /// The bounds of the ranges of an array, None for each whose bounds are none.
    pub(crate) fn extents(
        &self,
        ranges: &[Range],
        view: &View,
    ) -> Result<Vec<Option<Extent>>, Memory>
        ensures { IfOk result (λ extents. extents_of extents.items ≡ range_extents (state_of self.now).blocks.scopes (levels view.now) ranges.now) }
    {
        let mut extents = Vec::new(self.alloc);
        for r in ranges {
            extents.push(range_extent(r, &self.scopes, view))?;
        }
        Ok(extents)
    }
}
