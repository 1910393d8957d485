//! The input of a program.
ghost use Rattle.std.specs.Prelude.{◌≡◌, MatchResult, IfOk, OnErr, Ok, Err};
ghost use Rattle.pfc_values.specs.Inputs.{opened, item, skipped, at_end, at_line_end};

use crate::Simple;
use crate::items::item;
use crate::lines::{ends_lines, line_length, without_returns};
use pfc_base::{Memory, RunFault};
use std::alloc::Global;
use std::marker::Model;

/// An input. A contract sees what is left of it, and whether the whole is empty or ends with byte 10. No call but `new`
/// takes memory, and each takes time for the bytes that it passes alone.
#[derive(Drop)]
pub struct Input {
    bytes: Vec<u8>,
    at: usize,
    whole_lines: bool,
}

impl Model for Input {
    ghost use Rattle.std.specs.Prelude.{◌≤◌, length, drop};
    ghost use Rattle.pfc_values.specs.Inputs.{Left};

    ghost Value = { Left };

    ghost view = { λ i. record { bytes = drop i.at i.bytes.items; whole_lines = i.whole_lines } };

    ghost invariant = { λ i. i.at ≤ length i.bytes.items };
}

impl Input {
    /// The input of these bytes, before anything is read. A byte 13 directly before a byte 10 is dropped. Its only
    /// refusal is want of memory.
    pub fn new(alloc: Global, bytes: &[u8]) -> Result<Input, Memory>
        ensures { IfOk result (λ input. input ≡ opened bytes.now) }
    {
        let bytes = without_returns(alloc, bytes)?;
        let whole_lines = ends_lines(&bytes);
        Ok(Input {
            bytes,
            at: 0,
            whole_lines,
        })
    }

    /// Reads the item for a variable of a type: an integer behind blanks, or a byte for a char. A fault changes nothing.
    pub fn item(&mut self, t: Simple) -> Result<i32, RunFault>
        ensures item { MatchResult result
            (λ v. item t self.old.bytes ≡ Ok (record { value = v; left = self.new.bytes }))
            (λ f. item t self.old.bytes ≡ Err f) }
        ensures err { OnErr result (self.new ≡ self.old) }
        ensures whole { self.new.whole_lines ≡ self.old.whole_lines }
    {
        let read = item(t, self.left())?;
        self.at += read.passed;
        Ok(read.value)
    }

    /// Passes the rest of the line, with its byte 10. At the end of an input of whole lines the input has ended, and
    /// at the end of any other there is nothing to pass. A fault changes nothing.
    pub fn skip_line(&mut self) -> Result<(), RunFault>
        ensures skipped { MatchResult result
            (λ _. skipped self.old.whole_lines self.old.bytes ≡ Ok self.new.bytes)
            (λ f. skipped self.old.whole_lines self.old.bytes ≡ Err f) }
        ensures err { OnErr result (self.new ≡ self.old) }
        ensures whole { self.new.whole_lines ≡ self.old.whole_lines }
    {
        if self.is_at_end() && self.whole_lines {
            return Err(RunFault::InputEnd);
        }
        self.at += line_length(self.left());
        Ok(())
    }

    /// Nothing is left.
    pub fn is_at_end(&self) -> bool
        ensures { result ≡ at_end self.now.bytes }
    {
        self.left().is_empty()
    }

    /// Nothing is left, or the next byte is a line end.
    pub fn is_at_line_end(&self) -> bool
        ensures { result ≡ at_line_end self.now.bytes }
    {
        match self.left().first() {
            Some(b) => *b == b'\n',
            None => true,
        }
    }

    fn left(&self) -> &[u8]
        ensures { result.now ≡ self.now.bytes }
    {
        &self.bytes[self.at..]
    }
}
