//! The outside: where a program's files are loaded from and its bytes are written to.
//!
//! It promises that a load gives the held bytes of a name, no more than were asked for, that written bytes are
//! appended in order, and that a failure is answered only where the shelf or the sink counted one.
//! It never looks into the bytes.
#![tactic(auto)]

mod disk;
mod memory_shelf;
mod memory_sink;
mod output;
mod shelf;
mod sink;

pub use disk::DiskShelf;
pub use memory_shelf::MemoryShelf;
pub use memory_sink::MemorySink;
pub use output::StdSink;
pub use shelf::{LoadFault, Shelf};
pub use sink::{Cut, Failed, Sink, write_all};
