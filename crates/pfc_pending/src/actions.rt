//! The action that comes next.

use crate::pending::{Bar, Scan, Tried};
use crate::{Argument, Callee, Offer, Piece, Selecting};
use pfc_base::RunFault;
use pfc_store::{Spot, Value};
use pfc_types::TypeId;

/// One action, with what it is done to. What is left behind it is pending.
#[derive(Drop)]
pub enum Deed<'a> {
    /// A read and a write of a variable or of a part of one, whole.
    Reads(Spot),
    Writes(Spot, Value),
    /// The way back of a loop.
    Turns,
    /// A call of any kind, with its arguments.
    Calls(Callee, Vec<Argument>),
    /// The end of a body: a return, or the end of the process.
    Finishes(u32),
    /// An output piece, with its width where one is given: a width outside 0 to 255 is a fault.
    Prints(Piece<'a>, Option<i64>),
    /// An input item for a variable of this type; the skip of a `readln`.
    Inputs(Option<TypeId>, Spot),
    Skips,
    AsksEof,
    AsksEoln,
    AsksClock,
    AsksEmpty(Spot),
    Draws(i64),
    /// The wait at `coend`.
    Joins,
    Initials(Spot, i64),
    Waits(Spot),
    Signals(Spot),
    Delays(Spot, i64),
    Resumes(Spot),
    Sleeps(i64),
    /// A plain `!`, `?` or `accept`; the deciding action of a select; the end of an accept.
    Meets(Offer<'a>),
    Decides(Selecting<'a>),
    Parts(u32),
    /// A turn of a scan; a false guard of the own procedure; a true guard of a barred process.
    Scans(Scan<'a>),
    Bars(Bar<'a>),
    Passes(Tried<'a>, Scan<'a>),
    Faults(RunFault),
}
