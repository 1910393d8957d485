//! The first broken rule of a tree.
ghost use Rattle.std.specs.Prelude.{◌≡◌, None};
ghost use Rattle.pfc_tree.specs.views.Parts.{tree_view};
ghost use Rattle.pfc_types.specs.Faults.{all_of, least_from};
ghost use Rattle.pfc_types.specs.rules.Whole.{types_of, scopes_of, faults_of, first_concurrency_fault};
ghost use Rattle.pfc_phrases.specs.Found.{noted};

use crate::around::MAIN;
use crate::bodies::{Home, block_body, parts};
use pfc_base::Refusal;
use pfc_phrases::Best;
use pfc_tree::Tree;
use pfc_types::{Scopes, TypeTable};

/// The first rule that is broken among those whose codes are not below `from`, None exactly where none is broken: the
/// earliest in the text, and at one place that of the lowest code. The table and the scopes are those that the declarations
/// of the tree make. It takes no memory.
pub fn first_broken<'a>(
    tree: &Tree,
    types: &'a TypeTable,
    scopes: &'a Scopes,
    from: u16,
) -> Option<Refusal>
    requires types { types.now ≡ types_of (tree_view tree.now) }
    requires scopes { scopes.now ≡ scopes_of (tree_view tree.now) }
    ensures { result ≡ least_from from None (faults_of (tree_view tree.now)) }
{
    let mut best = Best::new(from);
    add_all(scopes.noted(), &mut best);
    let program = Home {
        types,
        scopes,
        process: false,
        scope: 0,
        outer: None,
    };
    let all = scopes.len(); // the walk counts as many, so each number fits
    let next = parts(&tree.parts, 0, 1, program, &mut best);
    let end = block_body(&tree.body, next, MAIN, program, &mut best);
    prove!(end == all);
    best.first
}

/// The first broken rule among those of concurrency, which are 401 to 425, None exactly where none of them is broken. It takes
/// no memory.
pub fn concurrency_fault(tree: &Tree, types: &TypeTable, scopes: &Scopes) -> Option<Refusal>
    requires types { types.now ≡ types_of (tree_view tree.now) }
    requires scopes { scopes.now ≡ scopes_of (tree_view tree.now) }
    ensures { result ≡ first_concurrency_fault (tree_view tree.now) }
{
    first_broken(tree, types, scopes, 401)
}

/// The rules that were found broken in the declarations.
fn add_all(refusals: &[Refusal], best: &mut Best)
    ensures { best.new ≡ noted best.old (all_of refusals.now) }
{
    for f in refusals {
        best.add(Some(*f));
    }
}
