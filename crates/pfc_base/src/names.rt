//! Names of a program.
ghost use Rattle.std.specs.Prelude.{◌≡◌, ℕ, List, IfOk, nat_eq};
ghost use Rattle.std.specs.Hash as fed;
ghost use Rattle.std.specs.Cmp.Lexicographic.{pointwise, nat_list_eq_equiv};
ghost use Rattle.std.specs.Cmp.{partial_equiv_from_equiv};
ghost use Rattle.std.specs.Cmp.Rules.{hashing};
ghost use Rattle.std.specs.Str.{str_to_ascii_lowercase};
ghost use Rattle.std.proofs.Common.{rules};
ghost use Rattle.pfc_base.specs.Names.{IsName, IsLowerName};

use crate::Memory;
use smallvec::SmallVec;
use std::alloc::Global;
use std::hash::{Hash, Hasher};
use std::marker::Model;

/// A name: a letter followed by letters, digits and `_`, at most 63 bytes, kept in lower case.
/// A contract sees it as the list of its 1 to 63 bytes.
#[derive(Drop)]
pub struct Name {
    text: SmallVec<u8, 16>,
}

impl Model for Name {
    ghost use Rattle.std.specs.Prelude.{ℕ, List};

    ghost Value = { List ℕ };

    ghost use Rattle.pfc_base.specs.Names.{IsLowerName};

    ghost view = { λ n. n.text.items };

    ghost invariant = { λ n. IsLowerName n.text.items };
}

impl Name {
    /// The name that these bytes write, in lower case. Its only refusal is want of memory.
    pub fn new(alloc: Global, text: &[u8]) -> Result<Name, Memory>
        requires { IsName text.now }
        ensures { IfOk result (λ n. n ≡ str_to_ascii_lowercase text.now) }
    {
        let text = lower_case(alloc, text)?;
        Ok(Name { text })
    }

    /// The bytes of the name, in lower case.
    pub fn bytes(&self) -> &[u8]
        ensures value { result.now ≡ self.now }
        ensures name { IsLowerName result.now }
    {
        self.text.as_slice()
    }

    /// An equal name of its own. Its only refusal is want of memory.
    pub fn copy(&self, alloc: Global) -> Result<Name, Memory>
        ensures { IfOk result (λ n. n ≡ self.now) }
    {
        let text = SmallVec::from_slice(alloc, self.text.as_slice())?;
        Ok(Name { text })
    }
}

fn lower_case(alloc: Global, text: &[u8]) -> Result<SmallVec<u8, 16>, Memory>
    ensures { IfOk result (λ lower. lower.items ≡ str_to_ascii_lowercase text.now) }
{
    let mut lower = SmallVec::from_slice(alloc, text)?;
    lower.as_mut_slice().make_ascii_lowercase();
    Ok(lower)
}

impl PartialEq for Name {
    ghost eq = { pointwise nat_eq };

    ghost laws = { partial_equiv_from_equiv nat_list_eq_equiv };

    fn eq(&self, other: &Name) -> bool {
        self.bytes() == other.bytes()
    }
}

impl Eq for Name {
    ghost laws = { nat_list_eq_equiv };
}

impl Hash for Name {
    ghost hash_input = { fed.slice fed.u8 };

    ghost respects_eq = { Prim.search (hashing, rules) };

    fn hash<H: Hasher>(&self, state: &mut H) {
        self.bytes().hash(state);
    }
}
