//! The output of a program.
ghost use Rattle.std.specs.Prelude.{◌≡◌, [], OnOk, OnErr, IfErr};
ghost use Rattle.pfc_values.specs.Outputs.{Gains, IsRefusedBy, is_open_line};
ghost use Rattle.pfc_values.specs.Pieces.{piece, shown};

use crate::lines::ends_lines;
use crate::pieces::margin;
use crate::{PieceFault, Simple, is_true};
use itoa::Buffer;
use std::alloc::Global;
use std::marker::Model;

/// A growing list of bytes, which a contract sees as that list.
#[derive(Drop)]
pub struct Output {
    bytes: Vec<u8>,
}

impl Model for Output {
    ghost use Rattle.std.specs.Prelude.{ℕ, List};

    ghost Value = { List ℕ };

    ghost view = { λ o. o.bytes.items };
}

impl Output {
    /// No bytes. It takes no memory.
    pub fn new(alloc: Global) -> Output
        ensures { result ≡ [] }
    {
        Output {
            bytes: Vec::new(alloc),
        }
    }

    /// The bytes, in their order.
    pub fn bytes(&self) -> &[u8]
        ensures { result.now ≡ self.now }
    {
        &self.bytes
    }

    /// Lets go of all bytes, and keeps their memory for later ones.
    pub fn clear(&mut self)
        ensures { self.new ≡ [] }
    {
        self.bytes.clear();
    }

    /// The last line is not empty and has no line end: there are bytes, and the last is not byte 10.
    pub fn ends_inside_line(&self) -> bool
        ensures { result ≡ is_open_line self.now }
    {
        !ends_lines(&self.bytes)
    }

    /// Puts a text behind the bytes, with blanks before it up to the width. It is refused where the width is outside
    /// 0 to 255, and else only for want of memory; then the bytes stay.
    pub fn put(&mut self, text: &[u8], width: Option<i64>) -> Result<(), PieceFault>
        ensures ok { OnOk result (Gains self.old self.new (piece width text.now)) }
        ensures fault { IfErr result (IsRefusedBy (piece width text.now)) }
        ensures err { OnErr result (self.new ≡ self.old) }
    {
        let blanks = margin(width, text.len())?;
        self.bytes.reserve(blanks + text.len())?;
        let filled = self.bytes.len() + blanks;
        self.bytes.resize(filled, b' ').unwrap();
        self.bytes.extend_from_slice(text).unwrap();
        Ok(())
    }

    /// Puts a value of a type behind the bytes as it prints, with blanks before it up to the width. It is refused as a
    /// text is.
    pub fn put_value(&mut self, t: Simple, n: i64, width: Option<i64>) -> Result<(), PieceFault>
        ensures ok { OnOk result (Gains self.old self.new (piece width (shown t n))) }
        ensures fault { IfErr result (IsRefusedBy (piece width (shown t n))) }
        ensures err { OnErr result (self.new ≡ self.old) }
    {
        match t {
            Simple::Integer => self.put(Buffer::new().format(n).as_bytes(), width),
            Simple::Boolean => self.put(if is_true(n) { b"true" } else { b"false" }, width),
            Simple::Char => self.put(&[n.rem_euclid(256) as u8], width),
        }
    }
}
