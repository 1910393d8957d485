//! Texts: lists of bytes that a value keeps.
ghost use Rattle.std.specs.Prelude.{◌≡◌, ℕ, List, IfOk, nat_eq};
ghost use Rattle.std.specs.Fmt.{signed_decimal};
ghost use Rattle.std.specs.Cmp.Lexicographic.{pointwise, nat_list_eq_equiv};
ghost use Rattle.std.specs.Cmp.{partial_equiv_from_equiv};

use crate::Memory;
use itoa::Buffer;
use std::alloc::Global;
use std::marker::Model;

/// A text: any bytes. A contract sees it as the list of its bytes.
#[derive(Drop)]
pub struct Text {
    text: Vec<u8>,
}

impl Model for Text {
    ghost use Rattle.std.specs.Prelude.{ℕ, List};

    ghost Value = { List ℕ };

    ghost view = { λ t. t.text.items };
}

impl Text {
    /// A text of these bytes. Its only refusal is want of memory.
    pub fn new(alloc: Global, text: &[u8]) -> Result<Text, Memory>
        ensures { IfOk result (λ t. t ≡ text.now) }
    {
        let text = Vec::from_slice(alloc, text)?;
        Ok(Text { text })
    }

    /// The text of the bytes of a list.
    pub fn from_vec(text: Vec<u8>) -> Text
        ensures { result ≡ text.items }
    {
        Text { text }
    }

    /// The bytes of the text.
    pub fn bytes(&self) -> &[u8]
        ensures { result.now ≡ self.now }
    {
        &self.text
    }

    /// An equal text of its own. Its only refusal is want of memory.
    pub fn copy(&self, alloc: Global) -> Result<Text, Memory>
        ensures { IfOk result (λ t. t ≡ self.now) }
    {
        Text::new(alloc, self.bytes())
    }
}

impl PartialEq for Text {
    ghost eq = { pointwise nat_eq };

    ghost laws = { partial_equiv_from_equiv nat_list_eq_equiv };

    fn eq(&self, other: &Text) -> bool {
        self.bytes() == other.bytes()
    }
}

impl Eq for Text {
    ghost laws = { nat_list_eq_equiv };
}

/// The decimal text of a number: its digits without leading zeros, after `-` where it is negative.
/// Its only refusal is want of memory.
pub fn decimal(alloc: Global, n: i64) -> Result<Text, Memory>
    ensures { IfOk result (λ t. t ≡ signed_decimal n) }
{
    let mut buffer = Buffer::new();
    Text::new(alloc, buffer.format(n).as_bytes())
}
