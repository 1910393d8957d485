//! The program `pfc_cases`: runs texts through the top calls, and writes the status and the bytes of each.
//!
//! The file `list` has a line for each way in which the texts of a file are run: the name of the file, the number of the load
//! that fails and of the write that fails, each from 1 (0: none), the most bytes that one write takes, and the words of the
//! command line, `pfc` or `pfcwalk` first. A line of that file is the text `a.pas`, and behind a tab each a further file, as
//! `NAME=TEXT`; before it may stand `$`, a blank, further words of the command line, and a tab. What is written
//! of a run is one line: the name of the file of texts, the number of the text's line from 1, the status, and the bytes with
//! `\n` for each line end (of very many their number and the last).
#![tactic(auto)]

mod runs;
mod stop;
mod texts;

use pfc_io::{DiskShelf, StdSink};
use std::process::ExitCode;

fn main(rt: HostRuntime) -> ExitCode {
    let mut shelf = DiskShelf::new(&rt);
    let mut sink = StdSink::new(&rt);
    match runs::all(rt.alloc(), &mut shelf, &mut sink) {
        Ok(()) => ExitCode::from(0),
        Err(_) => ExitCode::from(1),
    }
}
