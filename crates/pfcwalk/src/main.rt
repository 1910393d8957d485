//! The program `pfcwalk`: the top call of the walker with the files and the standard output of the system.
#![tactic(auto)]

use pfc_io::{DiskShelf, StdSink};
use pfc_walk::walk;
use std::env;
use std::io::ErrorKind;
use std::process::ExitCode;

/// The status for want of memory before the top call.
const NO_MEMORY: u8 = 8;
/// The status for words that the system does not hand out.
const NO_WORDS: u8 = 14;

fn main(rt: HostRuntime) -> ExitCode {
    let args = match env::args(&rt) {
        Ok(args) => args,
        Err(error) if error.kind() == ErrorKind::OutOfMemory => return ExitCode::from(NO_MEMORY),
        Err(_) => return ExitCode::from(NO_WORDS),
    };
    let words: Vec<String> = match args.collect(rt.alloc()) {
        Ok(words) => words,
        Err(_) => return ExitCode::from(NO_MEMORY),
    };
    let mut shelf = DiskShelf::new(&rt);
    let mut sink = StdSink::new(&rt);
    ExitCode::from(walk(rt.alloc(), &words, &mut shelf, &mut sink))
}
