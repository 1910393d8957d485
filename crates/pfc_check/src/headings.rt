//! Headings: the parameters of subs, processes and accepts.
ghost use Rattle.std.specs.Prelude.{◌≡◌, map, OnOk, IfOk};
ghost use Rattle.pfc_tree.specs.views.Types.{group_view};
ghost use Rattle.pfc_types.specs.Views.{levels};
ghost use Rattle.pfc_types.specs.Blocks.{note};
ghost use Rattle.pfc_types.specs.rules.Declarations.{passed_fits, parameter_fits, parameter_rules, parameter_type, group_type, broken_group, formal_heading};
ghost use Rattle.pfc_types.specs.rules.Declarations.{formals_heading, group_viewed, group_heading, heading, accept_heading};
ghost use Rattle.pfc_check.specs.States.{state_of, around, heading_of};

use crate::state::{Block, State};
use pfc_base::{Memory, Name, Place};
use pfc_phrases::{named_type, type_name_fault, variable_meaning, where_so};
use pfc_tree::Group;
use pfc_types::{Formal, Formals, TypeId, View};

/// A heading so far: the parameters as they are written, and whether no rule is broken in it.
#[derive(Drop)]
pub(crate) struct Heading {
    pub(crate) formals: Formals,
    pub(crate) whole: bool,
}

impl State {
    /// Object types are passed by reference only.
    fn passed_fits(&self, reference: bool, t: TypeId) -> bool
        ensures { result ≡ passed_fits reference (state_of self.now).forms t }
    {
        reference || !self.is_object(t)
    }

    /// No parameter holds a condition or a process.
    fn parameter_fits(&self, t: TypeId) -> bool
        ensures { result ≡ parameter_fits (state_of self.now).forms t }
    {
        let held = self.types.held(t);
        !held.conditions && held.processes == 0
    }

    /// The type of a parameter, None where it is faulty or is not passed so.
    fn parameter_type(&self, reference: bool, t: Option<TypeId>) -> Option<TypeId>
        ensures { result ≡ parameter_type reference (state_of self.now).forms t }
    {
        let t = t?;
        where_so(self.passed_fits(reference, t) && self.parameter_fits(t), t)
    }

    /// Notes where a parameter of a type is not passed so.
    fn parameter_rules(
        &mut self,
        reference: bool,
        t: Option<TypeId>,
        place: Place,
    ) -> Result<(), Memory>
        ensures { OnOk result (state_of self.new ≡ note (state_of self.old) (parameter_rules reference (state_of self.old).forms t place)) }
    {
        let Some(t) = t else {
            return Ok(());
        };
        let passed = self.passed_fits(reference, t);
        let fits = self.parameter_fits(t);
        self.unless(passed, place, 406)?;
        self.unless(fits, place, 407)
    }

    /// The type of a group of parameters, None where a rule is broken in it. The broken rules are noted.
    pub(crate) fn group_type(&mut self, g: &Group, view: &View) -> Result<Option<TypeId>, Memory>
        ensures state { OnOk result (state_of self.new ≡ note (state_of self.old) (broken_group (state_of self.old) (levels view.now) (group_view g.now))) }
        ensures t { IfOk result (λ t. t ≡ group_type (state_of self.old) (levels view.now) (group_view g.now)) }
    {
        let meaning = self.look(view, &g.form.0);
        let named = named_type(false, meaning);
        let t = self.parameter_type(g.reference, named);
        self.note(type_name_fault(false, meaning, g.form.1))?;
        self.parameter_rules(g.reference, named, g.form.1)?;
        Ok(t)
    }

    /// One parameter, declared in the scope i. Where its name is repeated, the heading is faulty.
    fn formal(
        &mut self,
        name: &Name,
        place: Place,
        i: u32,
        formal: Formal,
        heading: &mut Heading,
    ) -> Result<(), Memory>
        ensures { OnOk result (heading_of self.new heading.new ≡ formal_heading i formal.reference formal.t
            (heading_of self.old heading.old) (name.now, place)) }
    {
        let fresh = !self.holds(i, name);
        self.declare(i, name, place, variable_meaning(formal.reference, formal.t))?;
        heading.formals.push(formal)?;
        heading.whole = heading.whole && fresh;
        Ok(())
    }

    /// Parameters of one type.
    fn formals(
        &mut self,
        names: &[(Name, Place)],
        i: u32,
        formal: Formal,
        heading: &mut Heading,
    ) -> Result<(), Memory>
        ensures { OnOk result (heading_of self.new heading.new ≡ formals_heading i formal.reference formal.t (heading_of self.old heading.old) names.now) }
    {
        for x in names {
            self.formal(&x.0, x.1, i, formal, heading)?;
        }
        Ok(())
    }

    /// `var a, b: integer`, declared in the scope i; the name of the type is looked up in this view.
    fn group_viewed(
        &mut self,
        g: &Group,
        i: u32,
        view: &View,
        heading: &mut Heading,
    ) -> Result<(), Memory>
        ensures { OnOk result (heading_of self.new heading.new ≡ group_viewed i (levels view.now) (heading_of self.old heading.old) (group_view g.now)) }
    {
        let t = self.group_type(g, view)?;
        heading.whole = heading.whole && t.is_some();
        let formal = Formal {
            t,
            reference: g.reference,
        };
        self.formals(&g.names, i, formal, heading)
    }

    /// The parameters of earlier groups are in view in the type of a later one.
    fn group(&mut self, g: &Group, block: Block, heading: &mut Heading) -> Result<(), Memory>
        ensures { OnOk result (heading_of self.new heading.new ≡ group_heading block.entry.scope (around block.entry)
            (heading_of self.old heading.old) (group_view g.now)) }
    {
        let view = self.here(block);
        self.group_viewed(g, block.scope, &view, heading)
    }

    /// The parameters of a block, whose scope is open and empty.
    pub(crate) fn heading(&mut self, groups: &[Group], block: Block) -> Result<Heading, Memory>
        ensures { IfOk result (λ h. heading_of self.new h ≡ heading (state_of self.old) block.entry.scope (around block.entry) (map group_view groups.now)) }
    {
        let mut heading = Heading {
            formals: Formals::new(self.alloc),
            whole: true,
        };
        for g in groups {
            self.group(g, block, &mut heading)?;
        }
        Ok(heading)
    }

    /// The parameters of an accept, whose scope i is open and empty. They are in view in no group.
    pub(crate) fn accept_heading(
        &mut self,
        groups: &[Group],
        i: u32,
        view: &View,
    ) -> Result<Heading, Memory>
        ensures { IfOk result (λ h. heading_of self.new h ≡ accept_heading (state_of self.old) i (levels view.now) (map group_view groups.now)) }
    {
        let mut heading = Heading {
            formals: Formals::new(self.alloc),
            whole: true,
        };
        for g in groups {
            self.group_viewed(g, i, view, &mut heading)?;
        }
        Ok(heading)
    }
}
