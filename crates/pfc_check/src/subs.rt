//! The headings of subs.
ghost use Rattle.std.specs.Prelude.{◌≡◌, map, IfOk, OnOk};
ghost use Rattle.pfc_tree.specs.views.Types.{group_view};
ghost use Rattle.pfc_tree.specs.views.Parts.{kind_view};
ghost use Rattle.pfc_types.specs.Views.{levels};
ghost use Rattle.pfc_types.specs.Blocks.{note};
ghost use Rattle.pfc_types.specs.rules.Declarations.{result_type, broken_sort, broken_result, sort_of, whole_sort, sub_meaning, sub_headed};
ghost use Rattle.pfc_check.specs.States.{state_of, around};

use crate::state::{Block, State, inside};
use pfc_base::{Memory, Name, Place};
use pfc_phrases::{fault_unless, is_simple, may_be_simple, named_type, type_name_fault, where_so};
use pfc_tree::{Group, SubKind};
use pfc_types::{Meaning, SubHead, SubSort, TypeId, View};

/// The type of a function's result, None where it is faulty or not simple.
fn result_type(t: Option<TypeId>) -> Option<TypeId>
    ensures { result ≡ result_type t }
{
    let t = t?;
    where_so(is_simple(t), t)
}

/// Whether no rule is broken in the result of a sub.
fn is_whole(sort: SubSort) -> bool
    ensures { result ≡ whole_sort sort }
{
    match sort {
        SubSort::Procedure | SubSort::Guarded => true,
        SubSort::Function(t) => t.is_some(),
    }
}

/// A sub's name, or a faulty one.
fn sub_meaning(whole: bool, n: u32) -> Meaning
    ensures { result ≡ sub_meaning whole n }
{
    if whole {
        Meaning::Sub(n)
    } else {
        Meaning::Faulty
    }
}

impl State {
    /// Notes the rules that are broken in the type of a function's result.
    fn result_rules(&mut self, x: &Name, place: Place, view: &View) -> Result<(), Memory>
        ensures { OnOk result (state_of self.new ≡ note (state_of self.old) (broken_result (state_of self.old) (levels view.now) x.now place)) }
    {
        let meaning = self.look(view, x);
        let simple = may_be_simple(named_type(false, meaning));
        self.note(type_name_fault(false, meaning, place))?;
        self.note(fault_unless(simple, place, 323))
    }

    /// What a sub is. The rules that are broken in the type of a function's result are noted.
    fn sort(&mut self, kind: &SubKind, view: &View) -> Result<SubSort, Memory>
        ensures state { OnOk result (state_of self.new ≡ note (state_of self.old) (broken_sort (state_of self.old) (levels view.now) (kind_view kind.now))) }
        ensures sort { IfOk result (λ sort. sort ≡ sort_of (state_of self.old) (levels view.now) (kind_view kind.now)) }
    {
        match kind {
            SubKind::Procedure => Ok(SubSort::Procedure),
            SubKind::Guarded(..) => Ok(SubSort::Guarded),
            SubKind::Function(x, place) => {
                let t = result_type(named_type(false, self.look(view, x)));
                self.result_rules(x, *place, view)?;
                Ok(SubSort::Function(t))
            }
        }
    }

    /// A sub up to the end of its heading: its own scope is open and holds its parameters, and its name is in view in
    /// the block around.
    pub(crate) fn sub_heading(
        &mut self,
        name: &Name,
        place: Place,
        groups: &[Group],
        kind: &SubKind,
        block: Block,
    ) -> Result<(), Memory>
        ensures { OnOk result (state_of self.new ≡ sub_headed (state_of self.old) block.entry.scope (around block.entry) (name.now, place)
            (map group_view groups.now) (kind_view kind.now)) }
    {
        let own = self.scopes.len();
        let n = self.scopes.subs();
        let around = self.here(block);
        let inner = inside(own, &around);
        self.open()?;
        let heading = self.heading(groups, inner)?;
        let view = self.here(inner);
        let sort = self.sort(kind, &view)?;
        let whole = heading.whole && is_whole(sort);
        self.scopes.add_sub(SubHead {
            formals: heading.formals,
            sort,
            scope: own,
            exported: false,
        })?;
        self.declare(block.scope, name, place, sub_meaning(whole, n))
    }
}
