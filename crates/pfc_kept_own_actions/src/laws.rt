//! The laws. The functions do nothing: their contracts are the laws.
ghost use Rattle.pfc_representation.specs.Actions.{AreKept};
ghost use Rattle.pfc_kept_own_actions.specs.Groups.{IsRead, IsWritten, IsTurned, IsPrinted, IsAsked, IsDrawn, IsTaken, IsFaulted};

/// A read of a variable gives on the machine the value that it gives in the source text, also while the guard of another is tried: then it is one of main's,
/// which is the same for both.
pub fn reads_are_kept()
    ensures { AreKept IsRead }
{}

/// A write of a variable, of a value or of that which a `for` keeps, leaves on the machine what it leaves in the source text.
pub fn writes_are_kept()
    ensures { AreKept IsWritten }
{}

/// The way back of a loop leads on the machine where it leads in the source text.
pub fn turns_are_kept()
    ensures { AreKept IsTurned }
{}

/// An output piece prints on the machine the bytes that it prints in the source text, and the output ends inside a line where it does there.
pub fn pieces_are_kept()
    ensures { AreKept IsPrinted }
{}

/// What is asked of the end of the input and of its line, and of the clock, has the same answer; the clock's may be a fault.
pub fn questions_are_kept()
    ensures { AreKept IsAsked }
{}

/// A draw takes the same word of `random`, or ends in the same fault.
pub fn draws_are_kept()
    ensures { AreKept IsDrawn }
{}

/// An item of the input is written to the same variable, and the skip of a `readln` leaves the same input, or both end in the same fault.
pub fn input_is_kept()
    ensures { AreKept IsTaken }
{}

/// Where the source text ends in a fault of an expression, a bound, a width or a number of seconds, the machine ends in the same fault.
pub fn faults_are_kept()
    ensures { AreKept IsFaulted }
{}
