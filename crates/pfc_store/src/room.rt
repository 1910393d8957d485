//! The variables of one activation.
ghost use Rattle.std.specs.Prelude.{◌<◌};

use crate::parts::{put_among, take_among};
use crate::{Selector, Value};

/// The variables of an activation other than main's, in the order of its block's layout.
#[derive(Drop)]
pub(crate) struct Room {
    pub(crate) activation: u64,
    pub(crate) values: Vec<Value>,
    ghost later: { 0 < activation },
}

impl Room {
    ghost use Rattle.std.specs.Prelude.{◌≡◌, pos, get_or, set};
    ghost use Rattle.pfc_semantics.specs.Values.{ordinal, with_part, path_of};
    ghost use Rattle.pfc_semantics.specs.Rendezvous.{taken_from};
    ghost use Rattle.pfc_store.specs.Views.{selectors_view, value_view, values_view};

    /// Puts another value into a variable, where some steps lead to. Where there is no such part nothing changes.
    pub(crate) fn put(&mut self, place: usize, steps: &[Selector], new: Value)
        ensures same { self.new.activation ≡ self.old.activation }
        ensures put { values_view self.new.values.items ≡ set (values_view self.old.values.items) place (with_part (path_of (selectors_view steps.now))
            (get_or (values_view self.old.values.items) place (ordinal (pos 0))) (value_view new)) }
    {
        put_among(&mut self.values, place, steps, new);
    }

    /// Some of the variables take other values, from one place on, one behind the other.
    pub(crate) fn take(&mut self, first: u32, args: Vec<Value>)
        ensures same { self.new.activation ≡ self.old.activation }
        ensures taken { values_view self.new.values.items ≡ taken_from first (values_view args.items) (values_view self.old.values.items) }
    {
        take_among(&mut self.values, first, args);
    }
}
