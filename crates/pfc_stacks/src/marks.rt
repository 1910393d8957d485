//! Marks of activations.
ghost use Rattle.std.specs.Prelude.{◌≡◌, ◌<◌, ◌^◌};

/// How an activation was entered: by a plain call, or through a monitor or a resource, by its number from 0.
#[derive(Clone, Copy, Debug, PartialEq, Eq)]
pub enum Mark {
    Plain,
    Monitor(u32),
    Resource(u32),
}

impl Mark {
    ghost use Rattle.pfc_stacks.specs.Marks.{word_of_mark, mark_of};

    /// The word that holds the mark.
    pub(crate) fn word(self) -> i64
        ensures { result ≡ word_of_mark self }
    {
        match self {
            Mark::Plain => 0,
            Mark::Monitor(m) => i64::from(m) + 1,
            Mark::Resource(g) => 0 - (i64::from(g) + 1),
        }
    }

    /// The mark that a word holds.
    pub(crate) fn of(w: i64) -> Mark
        ensures { result ≡ mark_of w }
    {
        if w > 0 {
            Mark::Monitor(((w.unsigned_abs() - 1) % 4_294_967_296) as u32)
        } else if w < 0 {
            Mark::Resource(((w.unsigned_abs() - 1) % 4_294_967_296) as u32)
        } else {
            Mark::Plain
        }
    }
}
