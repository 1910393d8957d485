//! Monitors and resources, and what they export.
ghost use Rattle.std.specs.Prelude.{◌≡◌, map, OnOk};
ghost use Rattle.pfc_types.specs.Scopes.{scope_at, meaning_in};
ghost use Rattle.pfc_types.specs.Blocks.{sub_at};
ghost use Rattle.pfc_types.specs.rules.Declarations.{may_export, export_state, export_list, exports_state, module_owner, module_closed};
ghost use Rattle.pfc_check.specs.States.{state_of, owner_of};

use crate::items::Owner;
use crate::state::State;
use pfc_base::{Memory, Name, Place};
use pfc_types::{Meaning, ModuleHead, SubSort};

/// A resource's variables are those of any other block: it is no monitor.
pub(crate) fn module_owner(resource: bool) -> Owner
    ensures { owner_of result ≡ module_owner resource }
{
    if resource {
        Owner::Elsewhere
    } else {
        Owner::Monitor
    }
}

impl State {
    /// Whether sub n may be exported: it is a procedure or a guarded procedure, and not exported yet.
    fn may_export(&self, n: u32) -> bool
        ensures { result ≡ may_export (sub_at (state_of self.now).blocks n) }
    {
        let plain = match self.scopes.sub_sort(n) {
            SubSort::Procedure | SubSort::Guarded => true,
            SubSort::Function(_) => false,
        };
        !self.scopes.is_exported(n) && plain
    }

    /// Exports what a name stands for, or notes that it is nothing that is exported.
    fn export(&mut self, meaning: Option<Meaning>, place: Place) -> Result<(), Memory>
        ensures { OnOk result (state_of self.new ≡ export_state (state_of self.old) meaning place) }
    {
        match meaning {
            Some(Meaning::Sub(n)) => {
                if self.may_export(n) {
                    self.scopes.export(n);
                    Ok(())
                } else {
                    self.unless(false, place, 409)
                }
            }
            Some(Meaning::Faulty) => Ok(()),
            _ => self.unless(false, place, 409),
        }
    }

    /// One `export` of the module whose scope is number i.
    fn export_list(&mut self, names: &[(Name, Place)], i: u32) -> Result<(), Memory>
        ensures { OnOk result (state_of self.new ≡ export_list (state_of self.old) i names.now) }
    {
        for x in names {
            self.export(self.meaning(i, &x.0), x.1)?;
        }
        Ok(())
    }

    /// All that the module whose scope is number i exports.
    fn exports(&mut self, lists: &[Vec<(Name, Place)>], i: u32) -> Result<(), Memory>
        ensures { OnOk result (state_of self.new ≡ exports_state (state_of self.old) i (map (λ xs. xs.items) lists.now)) }
    {
        for names in lists {
            self.export_list(names, i)?;
        }
        Ok(())
    }

    /// The end of the module whose scope is `own`: what it exports, and its name in the scope i.
    pub(crate) fn close_module(
        &mut self,
        name: &Name,
        place: Place,
        exports: &[Vec<(Name, Place)>],
        resource: bool,
        own: u32,
        i: u32,
    ) -> Result<(), Memory>
        ensures { OnOk result (state_of self.new ≡ module_closed resource (state_of self.old) i own (name.now, place) (map (λ xs. xs.items) exports.now)) }
    {
        let n = self.scopes.modules();
        self.exports(exports, own)?;
        self.scopes.add_module(ModuleHead {
            scope: own,
            resource,
        })?;
        self.declare(i, name, place, Meaning::Module(n))
    }
}
