//! The headings of processes.
ghost use Rattle.std.specs.Prelude.{◌≡◌, length, map, OnOk};
ghost use Rattle.pfc_tree.specs.views.Types.{group_view};
ghost use Rattle.pfc_types.specs.Blocks.{declare, add_form};
ghost use Rattle.pfc_types.specs.rules.Declarations.{process_named, process_headed};
ghost use Rattle.pfc_check.specs.States.{state_of, around};

use crate::state::{Block, State, inside};
use pfc_base::{Memory, Name, Place};
use pfc_tree::Group;
use pfc_types::{Meaning, ProcessHead, TypeForm};

impl State {
    /// Declares the type of process n.
    fn process_type(&mut self, i: u32, name: &Name, place: Place, n: u32) -> Result<(), Memory>
        ensures { OnOk result (state_of self.new ≡ declare (add_form (state_of self.old) (TypeForm.Process n)) i (name.now, place)
            (Meaning.Named (record { place = length (state_of self.old).forms }))) }
    {
        let Ok(t) = self.types.add(TypeForm::Process(n)) else {
            return Err(Memory);
        };
        self.declare(i, name, place, Meaning::Named(t))
    }

    /// Declares process n in the scope i. A process type is a type where its heading is whole, and a single process is
    /// one of the program's processes.
    fn process_name(
        &mut self,
        i: u32,
        many: bool,
        whole: bool,
        name: &Name,
        place: Place,
        n: u32,
    ) -> Result<(), Memory>
        ensures { OnOk result (state_of self.new ≡ process_named (state_of self.old) i many whole (name.now, place) n) }
    {
        if !whole {
            return self.declare(i, name, place, Meaning::Faulty);
        }
        if many {
            return self.process_type(i, name, place, n);
        }
        if self.holds(i, name) {
            return self.declare(i, name, place, Meaning::Faulty);
        }
        self.populated(i, 1, name, place, Meaning::Process(n))
    }

    /// A process up to the end of its heading: its own scope is open and holds its parameters, and its name is in view
    /// in the block around.
    pub(crate) fn process_heading(
        &mut self,
        name: &Name,
        place: Place,
        many: bool,
        groups: &[Group],
        block: Block,
    ) -> Result<(), Memory>
        ensures { OnOk result (state_of self.new ≡ process_headed (state_of self.old) block.entry.scope (around block.entry) many
            (name.now, place) (map group_view groups.now)) }
    {
        let own = self.scopes.len();
        let n = self.scopes.processes();
        let entries = self.scopes.entries();
        let around = self.here(block);
        self.open()?;
        let heading = self.heading(groups, inside(own, &around))?;
        let whole = heading.whole;
        self.scopes.add_process(ProcessHead {
            formals: heading.formals,
            entries,
            scope: own,
        })?;
        self.process_name(block.scope, many, whole, name, place, n)
    }
}
