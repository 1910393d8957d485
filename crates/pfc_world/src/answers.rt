//! What the calls of the table answer.
use pfc_state::Running;

/// What became of the process that acted.
pub enum After {
    /// it goes on, and still acts
    Goes(Running),
    /// it waits
    Waits,
}

/// What settling left.
#[derive(Clone, Copy, Debug, PartialEq, Eq)]
pub enum Settled {
    /// some process may act
    SomeReady,
    /// nobody is ready, and no due moment is pending
    NobodyReady,
}

/// An alternative of a waiting `select`: the number of the process, and the place of the alternative
/// among those that it offers, from 0.
#[derive(Clone, Copy, Debug, PartialEq, Eq)]
pub struct Offer {
    pub process: u32,
    pub arm: u32,
}
