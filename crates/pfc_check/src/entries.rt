//! The entries of a process.
ghost use Rattle.std.specs.Prelude.{◌≡◌, ◌+◌, ◌<◌, map, OnOk, IfOk};
ghost use Rattle.pfc_tree.specs.views.Types.{group_view};
ghost use Rattle.pfc_tree.specs.views.Parts.{entry_view};
ghost use Rattle.pfc_types.specs.Views.{levels};
ghost use Rattle.pfc_types.specs.rules.Declarations.{entry_formal, entry_formals, entry_group, entry_groups, entry_meaning, entry_state, entries_state};
ghost use Rattle.pfc_check.specs.States.{state_of, around, entry_heading_of, entry_begun};

use crate::state::{Block, State};
use pfc_base::{Memory, Name, Place};
use pfc_phrases::variable_meaning;
use pfc_tree::{Entry, Group};
use pfc_types::{Formal, Formals, Meaning, Scope, ScopeFault, View};

/// The parameters of an entry so far, which are in view nowhere, and whether no rule is broken in them.
#[derive(Drop)]
struct EntryHeading {
    /// Their names.
    own: Scope,
    formals: Formals,
    whole: bool,
}

/// An entry's name, or a faulty one.
fn entry_meaning(whole: bool, k: u32) -> Meaning
    ensures { result ≡ entry_meaning whole k }
{
    if whole {
        Meaning::Entry(k)
    } else {
        Meaning::Faulty
    }
}

impl State {
    /// One parameter of an entry. Where its name is repeated, the entry is faulty.
    fn entry_formal(
        &mut self,
        name: &Name,
        place: Place,
        formal: Formal,
        heading: &mut EntryHeading,
    ) -> Result<(), Memory>
        ensures { OnOk result (entry_heading_of self.new heading.new ≡ entry_formal formal.reference formal.t
            (entry_heading_of self.old heading.old) (name.now, place)) }
    {
        let copy = name.copy(self.alloc)?;
        let fresh = match heading
            .own
            .declare(copy, variable_meaning(formal.reference, formal.t))
        {
            Ok(()) => true,
            Err(ScopeFault::Repeated) => false,
            Err(ScopeFault::Memory) => return Err(Memory),
        };
        self.unless(fresh, place, 302)?;
        heading.formals.push(formal)?;
        heading.whole = heading.whole && fresh;
        Ok(())
    }

    /// Parameters of one type.
    fn entry_formals(
        &mut self,
        names: &[(Name, Place)],
        formal: Formal,
        heading: &mut EntryHeading,
    ) -> Result<(), Memory>
        ensures { OnOk result (entry_heading_of self.new heading.new ≡ entry_formals formal.reference formal.t
            (entry_heading_of self.old heading.old) names.now) }
    {
        for x in names {
            self.entry_formal(&x.0, x.1, formal, heading)?;
        }
        Ok(())
    }

    /// A group of parameters.
    fn entry_group(
        &mut self,
        g: &Group,
        view: &View,
        heading: &mut EntryHeading,
    ) -> Result<(), Memory>
        ensures { OnOk result (entry_heading_of self.new heading.new ≡ entry_group (levels view.now)
            (entry_heading_of self.old heading.old) (group_view g.now)) }
    {
        let t = self.group_type(g, view)?;
        heading.whole = heading.whole && t.is_some();
        let formal = Formal {
            t,
            reference: g.reference,
        };
        self.entry_formals(&g.names, formal, heading)
    }

    /// The parameters of an entry.
    fn entry_heading(&mut self, groups: &[Group], view: &View) -> Result<EntryHeading, Memory>
        ensures { IfOk result (λ h. entry_heading_of self.new h ≡ entry_groups (levels view.now)
            (entry_begun (state_of self.old)) (map group_view groups.now)) }
    {
        let mut heading = EntryHeading {
            own: Scope::new(self.alloc),
            formals: Formals::new(self.alloc),
            whole: true,
        };
        for g in groups {
            self.entry_group(g, view, &mut heading)?;
        }
        Ok(heading)
    }

    /// The k-th entry of a process, whose name is in view behind it.
    fn entry(&mut self, e: &Entry, k: u32, block: Block) -> Result<(), Memory>
        ensures { OnOk result (state_of self.new ≡ entry_state (state_of self.old) block.entry.scope (around block.entry) k (entry_view e.now)) }
    {
        let view = self.here(block);
        let heading = self.entry_heading(&e.formals, &view)?;
        let whole = heading.whole;
        self.scopes.add_entry(heading.formals)?;
        self.declare(block.scope, &e.name, e.place, entry_meaning(whole, k))
    }

    /// The entries of a process, from number 0 on.
    pub(crate) fn entries(&mut self, entries: &[Entry], block: Block) -> Result<(), Memory>
        ensures { OnOk result (state_of self.new ≡ entries_state (state_of self.old) block.entry.scope (around block.entry) 0 (map entry_view entries.now)) }
    {
        for (k, e) in entries.iter().enumerate() {
            if k > u32::MAX as usize {
                return Err(Memory);
            }
            self.entry(e, k as u32, block)?;
        }
        Ok(())
    }
}
