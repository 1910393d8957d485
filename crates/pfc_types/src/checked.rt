//! A checked tree.
ghost use Rattle.std.specs.Prelude.{◌≡◌};
ghost use Rattle.pfc_tree.specs.views.Parts.{tree_view};
ghost use Rattle.pfc_types.specs.Checking.{IsChecked};

use crate::{Scopes, TypeTable};
use pfc_tree::Tree;
use std::marker::Model;

/// A small tree in which no static rule is broken, with the table of types and the scopes that its declarations make.
/// A contract sees these three.
#[derive(Drop)]
pub struct Checked {
    tree: Tree,
    types: TypeTable,
    scopes: Scopes,
}

impl Model for Checked {
    ghost use Rattle.std.specs.Coded.{codes};
    ghost use Rattle.pfc_tree.specs.declared.tree.Tree.{Tree};
    ghost use Rattle.pfc_tree.specs.contracts.tree.Part as part;
    ghost use Rattle.pfc_tree.specs.contracts.tree.Stmt as stmt;
    ghost use Rattle.pfc_types.specs.Types.{Forms};
    ghost use Rattle.pfc_types.specs.Blocks.{Blocks};

    ghost Value = { Tree × Forms × Blocks };

    ghost coded = { Prim.hlevel (codes, part.the_row.coded, stmt.the_row.coded) };

    ghost use Rattle.pfc_tree.specs.views.Parts.{tree_view};
    ghost use Rattle.pfc_types.specs.Checking.{IsChecked};

    ghost view = { λ c. (c.tree, c.types, c.scopes) };

    ghost invariant = { λ c. IsChecked (tree_view c.tree) c.types c.scopes };
}

impl Checked {
    /// The checked tree of these parts.
    pub fn new(tree: Tree, types: TypeTable, scopes: Scopes) -> Checked
        requires { IsChecked (tree_view tree) types scopes }
        ensures { result ≡ (tree, types, scopes) }
    {
        Checked {
            tree,
            types,
            scopes,
        }
    }

    /// The tree.
    pub fn tree(&self) -> &Tree
        ensures value { result.now ≡ self.now.0 }
        ensures checked { IsChecked (tree_view result.now) self.now.1 self.now.2 }
    {
        &self.tree
    }

    /// The table of types of the tree.
    pub fn types(&self) -> &TypeTable
        ensures value { result.now ≡ self.now.1 }
        ensures checked { IsChecked (tree_view self.now.0) result.now self.now.2 }
    {
        &self.types
    }

    /// The scopes of the tree.
    pub fn scopes(&self) -> &Scopes
        ensures value { result.now ≡ self.now.2 }
        ensures checked { IsChecked (tree_view self.now.0) self.now.1 result.now }
    {
        &self.scopes
    }
}
