//! Parts: subs, modules and processes.
ghost use Rattle.std.specs.Prelude.{◌≡◌, map, option_map, OnOk};
ghost use Rattle.pfc_tree.specs.views.Types.{group_view};
ghost use Rattle.pfc_tree.specs.views.Stmts.{body_view};
ghost use Rattle.pfc_tree.specs.views.Parts.{kind_view, part_view, parts_view, sub_view, module_view, process_view};
ghost use Rattle.pfc_types.specs.Views.{levels};
ghost use Rattle.pfc_types.specs.rules.Declarations.{init_state, part_state, parts_state, sub_state, module_state, process_state};
ghost use Rattle.pfc_check.specs.States.{state_of, around, owner_of};

use crate::items::Owner;
use crate::modules::module_owner;
use crate::state::{Block, State, inside};
use pfc_base::Memory;
use pfc_tree::{Body, Module, Part, Process, Sub};
use pfc_types::View;

impl State {
    /// The initialising body of a module.
    fn init(&mut self, body: &Option<Body>, view: &View) -> Result<(), Memory>
        ensures { OnOk result (state_of self.new ≡ init_state (state_of self.old) (levels view.now) (option_map body_view body.now)) }
    {
        match body {
            None => Ok(()),
            Some(body) => self.body(body, view),
        }
    }

    /// A part of a block.
    #[cycle(parts)]
    fn part(&mut self, part: &Part, owner: Owner, block: Block) -> Result<(), Memory>
        ensures { OnOk result (state_of self.new ≡ part_state (owner_of owner) (state_of self.old) block.entry.scope
            (around block.entry) (part_view part.now)) }
    {
        match part {
            Part::Consts(items) => self.consts(items, block),
            Part::Types(items) => self.types(items, block),
            Part::Vars(items) => self.vars(items, owner, block),
            Part::Sub(sub) => self.sub(sub, block),
            Part::Monitor(module) => self.module(module, false, block),
            Part::Resource(module) => self.module(module, true, block),
            Part::Process(process) => self.process(process, block),
        }
    }

    /// The parts of a block.
    #[cycle(parts)]
    pub(crate) fn parts(&mut self, parts: &[Part], owner: Owner, block: Block) -> Result<(), Memory>
        ensures { OnOk result (state_of self.new ≡ parts_state (owner_of owner) (state_of self.old) block.entry.scope
            (around block.entry) (parts_view parts.now)) }
    {
        for part in parts {
            self.part(part, owner, block)?;
        }
        Ok(())
    }

    /// A procedure, a function or a guarded procedure. Its own scope is opened before its parameters are declared.
    #[cycle(parts)]
    fn sub(&mut self, sub: &Sub, block: Block) -> Result<(), Memory>
        ensures { OnOk result (state_of self.new ≡ sub_state (state_of self.old) block.entry.scope (around block.entry) (sub_view sub.now)) }
    {
        let own = self.scopes.len();
        self.sub_heading(&sub.name, sub.place, &sub.formals, &sub.kind, block)?;
        let around = self.here(block);
        let inner = inside(own, &around);
        self.parts(&sub.parts, Owner::Elsewhere, inner)?;
        let view = self.here(inner);
        self.body(&sub.body, &view)?;
        self.unless(self.sub_fits(own, &sub.kind), sub.place, 304)?;
        Ok(())
    }

    /// A monitor or a resource. Its name is in view behind it.
    #[cycle(parts)]
    fn module(&mut self, owner: &Module, resource: bool, block: Block) -> Result<(), Memory>
        ensures { OnOk result (state_of self.new ≡ module_state resource (state_of self.old) block.entry.scope (around block.entry) (module_view owner.now)) }
    {
        let own = self.scopes.len();
        let around = self.here(block);
        let inner = inside(own, &around);
        self.open()?;
        self.parts(&owner.parts, module_owner(resource), inner)?;
        let view = self.here(inner);
        self.init(&owner.body, &view)?;
        self.close_module(
            &owner.name,
            owner.place,
            &owner.exports,
            resource,
            own,
            block.scope,
        )
    }

    /// A process or a process type.
    #[cycle(parts)]
    fn process(&mut self, process: &Process, block: Block) -> Result<(), Memory>
        ensures { OnOk result (state_of self.new ≡ process_state (state_of self.old) block.entry.scope (around block.entry) (process_view process.now)) }
    {
        let own = self.scopes.len();
        self.process_heading(
            &process.name,
            process.place,
            process.many,
            &process.formals,
            block,
        )?;
        let around = self.here(block);
        let inner = inside(own, &around);
        self.entries(&process.entries, inner)?;
        self.parts(&process.parts, Owner::Elsewhere, inner)?;
        let accepts = self.scopes.len();
        let view = self.here(inner);
        self.body(&process.body, &view)?;
        self.unless(self.process_fits(own, accepts), process.place, 304)?;
        Ok(())
    }
}
