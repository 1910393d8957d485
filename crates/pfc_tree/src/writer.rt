//! The writing of a tree: the kinds of its tokens, in order.
//!
//! Each method adds what its part of the grammar writes, and fails only for want of memory.
ghost use Rattle.std.specs.Prelude.{◌≡◌, List, [], ◌∷◌, ◌++◌, OnOk, IfOk};
ghost use Rattle.pfc_tree.specs.Symbols.{Adds};
ghost use Rattle.pfc_tree.specs.tokens.Parts.{tokens_of};
ghost use Rattle.pfc_tree.specs.Readings.{tree_shape};

mod exprs;
mod parts;
mod stmts;
mod types;

use crate::tree::Tree;
use pfc_base::{Kind, Memory, Name, Text};
use std::alloc::Global;

/// The kinds of the tokens that write a tree, in order. Its only refusal is want of memory.
pub fn write_tokens(alloc: Global, tree: &Tree) -> Result<Vec<Kind>, Memory>
    ensures { IfOk result (λ kinds. kinds.items ≡ tokens_of (tree_shape tree.now)) }
{
    let mut writer = Writer {
        alloc,
        kinds: Vec::new(alloc),
    };
    writer.tree(tree)?;
    Ok(writer.kinds)
}

/// The kinds that are written so far.
#[derive(Drop)]
pub(crate) struct Writer {
    alloc: Global,
    kinds: Vec<Kind>,
}

impl Writer {
    fn word(&mut self, n: u8) -> Result<(), Memory>
        ensures { OnOk result (Adds self.old.kinds.items self.new.kinds.items (Kind.Word n ∷ [])) }
    {
        self.kinds.push(Kind::Word(n))?;
        Ok(())
    }

    fn sign(&mut self, n: u8) -> Result<(), Memory>
        ensures { OnOk result (Adds self.old.kinds.items self.new.kinds.items (Kind.Sign n ∷ [])) }
    {
        self.kinds.push(Kind::Sign(n))?;
        Ok(())
    }

    fn name(&mut self, name: &Name) -> Result<(), Memory>
        ensures { OnOk result (Adds self.old.kinds.items self.new.kinds.items (Kind.Name name.now ∷ [])) }
    {
        let copy = name.copy(self.alloc)?;
        self.kinds.push(Kind::Name(copy))?;
        Ok(())
    }

    fn number(&mut self, n: i32) -> Result<(), Memory>
        ensures { OnOk result (Adds self.old.kinds.items self.new.kinds.items (Kind.Number n ∷ [])) }
    {
        self.kinds.push(Kind::Number(n))?;
        Ok(())
    }

    fn literal(&mut self, text: &Text) -> Result<(), Memory>
        ensures { OnOk result (Adds self.old.kinds.items self.new.kinds.items (Kind.Literal text.now ∷ [])) }
    {
        let copy = text.copy(self.alloc)?;
        self.kinds.push(Kind::Literal(copy))?;
        Ok(())
    }
}
