//! Refusals of a text, and faults of a run.
ghost use Rattle.std.specs.Prelude.{◌≡◌};
ghost use Rattle.pfc_base.specs.Faults.{number_of, text_of};

use crate::Place;

/// A refused text: the code of the broken rule, and the place where it is broken.
#[derive(Clone, Copy, Debug, PartialEq, Eq)]
pub struct Refusal {
    pub code: u16,
    pub place: Place,
}

/// A fault that ends a run. Its number, from 1, is its place in this list.
#[derive(Clone, Copy, Debug, PartialEq, Eq)]
pub enum RunFault {
    /// integer overflow: a number outside 32 bits
    Overflow,
    /// division by zero: the right operand of `div` or `mod` is 0
    Division,
    /// index out of bounds: an index outside its bounds
    Index,
    /// value out of range: `chr`, `succ` or `pred` past the values of its type
    Range,
    /// no case for the value: no label of a `case` equals the value
    Case,
    /// stack full: a call, a requeue or a creation past the cells that a process may have
    Stack,
    /// input has ended: reading past the end of the input
    InputEnd,
    /// no integer in the input: no digit where an integer is read
    NoInteger,
    /// process already active: a process that is created, ready or waiting is activated
    Active,
    /// negative semaphore: a semaphore is set below 0
    Negative,
    /// semaphore too large: a semaphore at 2147483647 is raised
    Count,
    /// process not active: an entry of a process that is idle or finished is called
    NotActive,
    /// all alternatives closed: a select without an open alternative
    Closed,
    /// negative argument: `sleep`, `timeout` or `random` below 0
    Below,
    /// moment too late: a due moment above 10^15
    Late,
    /// width out of range: a width outside 0 to 255
    Width,
}

impl RunFault {
    /// The number of the fault, from 1 to 16.
    pub fn number(self) -> u8
        ensures { result ≡ number_of self }
    {
        match self {
            RunFault::Overflow => 1,
            RunFault::Division => 2,
            RunFault::Index => 3,
            RunFault::Range => 4,
            RunFault::Case => 5,
            RunFault::Stack => 6,
            RunFault::InputEnd => 7,
            RunFault::NoInteger => 8,
            RunFault::Active => 9,
            RunFault::Negative => 10,
            RunFault::Count => 11,
            RunFault::NotActive => 12,
            RunFault::Closed => 13,
            RunFault::Below => 14,
            RunFault::Late => 15,
            RunFault::Width => 16,
        }
    }

    /// The words that a report has for the fault.
    pub fn text(self) -> &'static str
        ensures { result.now ≡ text_of self }
    {
        match self {
            RunFault::Overflow => "integer overflow",
            RunFault::Division => "division by zero",
            RunFault::Index => "index out of bounds",
            RunFault::Range => "value out of range",
            RunFault::Case => "no case for the value",
            RunFault::Stack => "stack full",
            RunFault::InputEnd => "input has ended",
            RunFault::NoInteger => "no integer in the input",
            RunFault::Active => "process already active",
            RunFault::Negative => "negative semaphore",
            RunFault::Count => "semaphore too large",
            RunFault::NotActive => "process not active",
            RunFault::Closed => "all alternatives closed",
            RunFault::Below => "negative argument",
            RunFault::Late => "moment too late",
            RunFault::Width => "width out of range",
        }
    }
}
