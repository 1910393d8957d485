//! The laws. The functions do nothing: their contracts are the laws.
ghost use Rattle.pfc_representation.specs.Actions.{AreKept};
ghost use Rattle.pfc_kept_messages.specs.Groups.{IsSent, IsReceived};

/// A send keeps the representation: the message goes to the process that has waited longest to receive it, in a plain statement or in a select, and both go on;
/// or nobody waits for it, and the process offers it.
pub fn sends_are_kept()
    ensures { AreKept IsSent }
{}

/// A receive keeps the representation: the message of the process that has waited longest to send one is written to the variable, and both go on; or nobody
/// sends, and the process offers to receive.
pub fn receives_are_kept()
    ensures { AreKept IsReceived }
{}
