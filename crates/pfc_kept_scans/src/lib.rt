//! Actions on guarded resources keep what it is for the machine to represent a configuration.
//!
//! It promises that a turn of a scan, a false guard of the own procedure and a true guard of a barred process do on the machine what they do in the source
//! text: the same barred process is tried next, or the same process has the resource. It has no code.
#![tactic(auto)]

mod laws;

pub use laws::{bars_are_kept, passes_are_kept, turns_of_scans_are_kept};
