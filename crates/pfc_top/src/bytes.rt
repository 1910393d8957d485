//! What a slice of bytes holds.
ghost use Rattle.pfc_run_invariants.specs.Inputs.{AreBytes};

/// The items of a slice of bytes are bytes. The function does nothing: its contract is the law.
pub(crate) fn are_bytes(bytes: &[u8])
    ensures { AreBytes bytes.now }
{}
