//! Constants, types and variables: what their declarations make, and the rules that are broken in them.
ghost use Rattle.std.specs.Prelude.{◌≡◌, ◌≤◌, map, option_map, OnOk, IfOk};
ghost use Rattle.pfc_tree.specs.views.Types.{type_item_view, var_view, vars_view};
ghost use Rattle.pfc_types.specs.Blocks.{note};
ghost use Rattle.pfc_types.specs.rules.Declarations.{constant_meaning, const_state, consts_state, type_state, types_state, shared_fits, condition_fits};
ghost use Rattle.pfc_types.specs.rules.Declarations.{owner_rules, owned_type, populated, brought, var_name_state, var_names_state, var_state, vars_state};
ghost use Rattle.pfc_phrases.specs.Views.{ordinal_view};
ghost use Rattle.pfc_check.specs.States.{state_of, around, owner_of};

use crate::state::{Block, State};
use crate::types::type_place;
use pfc_base::{Memory, Name, Place};
use pfc_phrases::{Ordinal, type_meaning, variable_meaning, where_so};
use pfc_tree::{ConstItem, TypeItem, VarItem};
use pfc_types::{Meaning, TypeId};

/// Where a `var` part stands.
#[derive(Clone, Copy)]
pub(crate) enum Owner {
    /// Directly in the program.
    Program,
    /// Directly in a monitor.
    Monitor,
    /// In any other block.
    Elsewhere,
}

/// The most processes that a program may have beside main.
const MOST_PROCESSES: u64 = 1_023;

/// A constant's name, or a faulty one.
fn constant_meaning(value: Option<Ordinal>) -> Meaning
    ensures { result ≡ constant_meaning (option_map ordinal_view value) }
{
    match value {
        None => Meaning::Faulty,
        Some(c) => Meaning::Constant {
            t: c.t,
            value: c.value,
        },
    }
}

impl State {
    /// `a = 1`; its name is in view behind it.
    fn const_item(&mut self, c: &ConstItem, block: Block) -> Result<(), Memory>
        ensures { OnOk result (state_of self.new ≡ const_state (state_of self.old) block.entry.scope (around block.entry) c.now) }
    {
        let view = self.here(block);
        let value = self.value(&c.value, &view);
        self.note(self.constant_fault(&c.value, &view))?;
        self.declare(block.scope, &c.name, c.place, constant_meaning(value))
    }

    /// The constants of a part.
    pub(crate) fn consts(&mut self, items: &[ConstItem], block: Block) -> Result<(), Memory>
        ensures { OnOk result (state_of self.new ≡ consts_state (state_of self.old) block.entry.scope (around block.entry) items.now) }
    {
        for c in items {
            self.const_item(c, block)?;
        }
        Ok(())
    }

    /// `t = integer`; its name stands for the type that is made.
    fn type_item(&mut self, d: &TypeItem, block: Block) -> Result<(), Memory>
        ensures { OnOk result (state_of self.new ≡ type_state (state_of self.old) block.entry.scope (around block.entry) (type_item_view d.now)) }
    {
        let view = self.here(block);
        let t = self.made(&d.form, false, &view)?;
        self.declare(block.scope, &d.name, d.place, type_meaning(t))
    }

    /// The types of a part.
    pub(crate) fn types(&mut self, items: &[TypeItem], block: Block) -> Result<(), Memory>
        ensures { OnOk result (state_of self.new ≡ types_state (state_of self.old) block.entry.scope (around block.entry) (map type_item_view items.now)) }
    {
        for d in items {
            self.type_item(d, block)?;
        }
        Ok(())
    }

    /// Semaphores, channels and processes stand only among the program's variables.
    fn shared_fits(&self, owner: Owner, t: TypeId) -> bool
        ensures { result ≡ shared_fits (owner_of owner) (state_of self.now).forms t }
    {
        let held = self.types.held(t);
        match owner {
            Owner::Program => true,
            Owner::Monitor | Owner::Elsewhere => !(held.shared || held.processes > 0),
        }
    }

    /// Conditions stand only among a monitor's variables.
    fn condition_fits(&self, owner: Owner, t: TypeId) -> bool
        ensures { result ≡ condition_fits (owner_of owner) (state_of self.now).forms t }
    {
        match owner {
            Owner::Monitor => true,
            Owner::Program | Owner::Elsewhere => !self.types.held(t).conditions,
        }
    }

    /// Notes where a variable of a type may not stand.
    fn owner_rules(&mut self, owner: Owner, t: Option<TypeId>, place: Place) -> Result<(), Memory>
        ensures { OnOk result (state_of self.new ≡ note (state_of self.old) (owner_rules (owner_of owner) (state_of self.old).forms t place)) }
    {
        let Some(t) = t else {
            return Ok(());
        };
        let shared = self.shared_fits(owner, t);
        let conditions = self.condition_fits(owner, t);
        self.unless(shared, place, 404)?;
        self.unless(conditions, place, 405)
    }

    /// The type of a variable, None where it is faulty or may not stand there.
    fn owned_type(&self, owner: Owner, t: Option<TypeId>) -> Option<TypeId>
        ensures { result ≡ owned_type (owner_of owner) (state_of self.now).forms t }
    {
        let t = t?;
        where_so(
            self.shared_fits(owner, t) && self.condition_fits(owner, t),
            t,
        )
    }

    /// How many processes a variable brings in, at most 1,024.
    fn brought(&self, t: Option<TypeId>) -> u64
        ensures value { result ≡ brought (state_of self.now).forms t }
        ensures bound { result ≤ 1024 }
    {
        match t {
            None => 0,
            Some(t) => self.types.held(t).processes,
        }
    }

    /// Declares a name that brings in processes. The one that passes the limit is faulty; they are counted up to 1,024.
    pub(crate) fn populated(
        &mut self,
        i: u32,
        more: u64,
        name: &Name,
        place: Place,
        meaning: Meaning,
    ) -> Result<(), Memory>
        requires { more ≤ 1024 }
        ensures { OnOk result (state_of self.new ≡ populated (state_of self.old) i more (name.now, place) meaning) }
    {
        let before = self.scopes.population() as u64;
        let passes = before <= MOST_PROCESSES && before + more > MOST_PROCESSES;
        self.scopes
            .set_population((before + more).min(MOST_PROCESSES + 1) as u32);
        if passes {
            self.unless(false, place, 424)?;
            self.declare(i, name, place, Meaning::Faulty)
        } else {
            self.declare(i, name, place, meaning)
        }
    }

    /// Declares a variable. A repeated name brings in no process.
    fn var_name(
        &mut self,
        i: u32,
        t: Option<TypeId>,
        name: &Name,
        place: Place,
    ) -> Result<(), Memory>
        ensures { OnOk result (state_of self.new ≡ var_name_state (state_of self.old) i t (name.now, place)) }
    {
        if self.holds(i, name) {
            return self.declare(i, name, place, Meaning::Faulty);
        }
        let more = self.brought(t);
        self.populated(i, more, name, place, variable_meaning(false, t))
    }

    /// Declares variables of one type.
    fn var_names(
        &mut self,
        names: &[(Name, Place)],
        i: u32,
        t: Option<TypeId>,
    ) -> Result<(), Memory>
        ensures { OnOk result (state_of self.new ≡ var_names_state (state_of self.old) i t names.now) }
    {
        for x in names {
            self.var_name(i, t, &x.0, x.1)?;
        }
        Ok(())
    }

    /// `a, b: integer`; where a rule is broken in the type, all the names are faulty.
    fn var_item(&mut self, item: &VarItem, owner: Owner, block: Block) -> Result<(), Memory>
        ensures { OnOk result (state_of self.new ≡ var_state (owner_of owner) (state_of self.old) block.entry.scope (around block.entry) (var_view item.now)) }
    {
        let view = self.here(block);
        let t = self.made(&item.form, false, &view)?;
        let owned = self.owned_type(owner, t);
        self.owner_rules(owner, t, type_place(&item.form))?;
        self.var_names(&item.names, block.scope, owned)
    }

    /// The variables of a part.
    pub(crate) fn vars(
        &mut self,
        items: &[VarItem],
        owner: Owner,
        block: Block,
    ) -> Result<(), Memory>
        ensures { OnOk result (state_of self.new ≡ vars_state (owner_of owner) (state_of self.old) block.entry.scope
            (around block.entry) (vars_view items.now)) }
    {
        for item in items {
            self.var_item(item, owner, block)?;
        }
        Ok(())
    }
}
