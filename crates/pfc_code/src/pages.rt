//! Pages: texts that are being written.
ghost use Rattle.std.specs.Prelude.{◌≡◌, ◌++◌, ◌≤◌, [], OnOk};
ghost use Rattle.std.specs.Fmt.{decimal, signed_decimal};
ghost use Rattle.pfc_code.specs.Pages.{at_right};

use itoa::Buffer;
use pfc_base::Memory;
use std::alloc::Global;
use std::marker::Model;

/// Enough blanks for the widest column.
const BLANKS: &[u8] = b"      ";

/// A text that is being written, from its first byte to its last. A contract sees it as its bytes.
/// A call that wants memory leaves a page that no contract speaks of.
#[derive(Drop)]
pub struct Page {
    bytes: Vec<u8>,
}

impl Model for Page {
    ghost use Rattle.std.specs.Prelude.{ℕ, List};

    ghost Value = { List ℕ };

    ghost view = { λ p. p.bytes.items };
}

impl Page {
    /// An empty page.
    pub fn new(alloc: Global) -> Page
        ensures { result ≡ [] }
    {
        Page {
            bytes: Vec::new(alloc),
        }
    }

    /// Adds a text.
    pub fn text(&mut self, text: &[u8]) -> Result<(), Memory>
        ensures { OnOk result (self.new ≡ self.old ++ text.now) }
    {
        self.bytes.extend_from_slice(text)?;
        Ok(())
    }

    /// Adds a number in decimal.
    pub fn number(&mut self, n: u64) -> Result<(), Memory>
        ensures { OnOk result (self.new ≡ self.old ++ decimal n) }
    {
        let mut buffer = Buffer::new();
        self.text(buffer.format(n).as_bytes())
    }

    /// Adds an integer in decimal, with `-` where it is negative.
    pub fn integer(&mut self, n: i64) -> Result<(), Memory>
        ensures { OnOk result (self.new ≡ self.old ++ signed_decimal n) }
    {
        let mut buffer = Buffer::new();
        self.text(buffer.format(n).as_bytes())
    }

    /// Adds a number in decimal, at the right of at most 6 places. A longer number is written whole.
    pub fn column(&mut self, n: u64, places: usize) -> Result<(), Memory>
        requires { places ≤ 6 }
        ensures { OnOk result (self.new ≡ self.old ++ at_right places (decimal n)) }
    {
        let mut buffer = Buffer::new();
        let digits = buffer.format(n).as_bytes();
        let missing = places.saturating_sub(digits.len());
        self.text(&BLANKS[..missing])?;
        self.text(digits)
    }

    /// The bytes of the page.
    pub fn into_bytes(self) -> Vec<u8>
        ensures { result.items ≡ self }
    {
        let Page { bytes } = self;
        bytes
    }
}
