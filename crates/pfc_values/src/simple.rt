//! The simple types.
ghost use Rattle.std.specs.Prelude.{◌≡◌};
ghost use Rattle.pfc_values.specs.Simples.{simple_of};

/// A simple type.
#[derive(Clone, Copy, Debug, PartialEq, Eq)]
pub enum Simple {
    /// 32 bits, signed
    Integer,
    /// false and true, 0 and 1
    Boolean,
    /// a byte
    Char,
}

impl Simple {
    /// The type with a number: 0 is integer, 1 is boolean, and any other is char.
    pub fn of(k: u32) -> Simple
        ensures { result ≡ simple_of k }
    {
        match k {
            0 => Simple::Integer,
            1 => Simple::Boolean,
            _ => Simple::Char,
        }
    }
}
