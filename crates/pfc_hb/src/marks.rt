//! Marks: one answer for each event of a run.
ghost use Rattle.std.specs.Prelude.{◌≡◌, ◌<◌, ◌≤◌, ◌&&◌, ◌||◌, ℕ, IfOk, false, true, not, nat_lt, length, replicate, slice_index, slice_index_or, slice_set};

use pfc_base::Memory;
use std::alloc::Global;
use std::marker::Model;

/// Which events of a run are marked. A contract sees the list of the answers, one for each event.
#[derive(Drop)]
pub(crate) struct Marks {
    marks: Vec<bool>,
}

impl Model for Marks {
    ghost use Rattle.std.specs.Prelude.{Bool, List};

    ghost Value = { List Bool };

    ghost view = { λ m. m.marks.items };
}

impl Marks {
    /// No marks yet at so many events. The only refusal is want of memory.
    pub(crate) fn new(alloc: Global, events: usize) -> Result<Marks, Memory>
        ensures { IfOk result (λ marks. marks ≡ replicate events false) }
    {
        let marks = vec![in alloc; false; events]?;
        Ok(Marks { marks })
    }

    /// The answers.
    pub(crate) fn as_slice(&self) -> &[bool]
        ensures { result.now ≡ self.now }
    {
        &self.marks
    }

    /// Marks the event at a place.
    pub(crate) fn put(&mut self, event: usize)
        requires { event < length self.old }
        ensures { self.new ≡ slice_set self.old event true }
    {
        self.marks[event] = true;
    }

    /// Marks what is marked in another list from a place on, too.
    pub(crate) fn add(&mut self, other: &Marks, from: usize)
        requires wide { length self.old ≡ length other.now }
        requires from { from ≤ length self.old }
        ensures wide { length self.new ≡ length self.old }
        ensures added { (j : ℕ) → from ≤ j → slice_index_or self.new j false ≡ (slice_index_or self.old j false || slice_index_or other.now j false) }
    {
        add_all(&mut self.marks, &other.marks, from);
    }

    /// Keeps of the marks from a place on those where a number is at most a bound.
    pub(crate) fn keep_at_most(&mut self, numbers: &[u32], bound: u32, from: usize)
        requires wide { length self.old ≤ length numbers.now }
        requires from { from ≤ length self.old }
        ensures wide { length self.new ≡ length self.old }
        ensures kept { (j : ℕ) → from ≤ j → j < length self.old →
            slice_index_or self.new j false ≡ (slice_index_or self.old j false && not (nat_lt bound (slice_index numbers.now j))) }
    {
        keep_all(&mut self.marks, numbers, bound, from);
    }
}

// No test in the loop, so that many answers are joined at once.
fn add_all(marks: &mut [bool], others: &[bool], from: usize)
    requires wide { length marks.old ≡ length others.now }
    requires from { from ≤ length marks.old }
    ensures { (j : ℕ) → from ≤ j → slice_index_or marks.new j false ≡ (slice_index_or marks.old j false || slice_index_or others.now j false) }
{
    for place in from..marks.len() {
        marks[place] = marks[place] | others[place];
    }
}

// No test here either.
fn keep_all(marks: &mut [bool], numbers: &[u32], bound: u32, from: usize)
    requires wide { length marks.old ≤ length numbers.now }
    requires from { from ≤ length marks.old }
    ensures wide { length marks.new ≡ length marks.old }
    ensures kept { (j : ℕ) → from ≤ j → j < length marks.old →
        slice_index_or marks.new j false ≡ (slice_index_or marks.old j false && not (nat_lt bound (slice_index numbers.now j))) }
{
    for place in from..marks.len() {
        marks[place] = marks[place] & !(bound < numbers[place]);
    }
}
