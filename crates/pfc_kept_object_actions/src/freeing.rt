//! What freeing keeps. The function does nothing: its contract is the law.
ghost use Rattle.std.specs.Prelude.{ℕ};
ghost use Rattle.pfc_world.specs.Tables.{Table};
ghost use Rattle.pfc_semantics.specs.Configurations.{Activity};
ghost use Rattle.pfc_semantics.specs.Store.{Store};
ghost use Rattle.pfc_stacks.specs.Stacks.{Stacks};
ghost use Rattle.pfc_cells.specs.Homes.{Homes};
ghost use Rattle.pfc_cells.specs.Memory.{Entries};
ghost use Rattle.pfc_machines.specs.declared.descriptors.Descriptor.{Descriptor};
ghost use Rattle.pfc_representation.specs.Levels.{Facts};
ghost use Rattle.pfc_representation.specs.Holding.{Holders};
ghost use Rattle.pfc_representation.specs.Processes.{RepresentsProcess};
ghost use Rattle.pfc_kept_object_actions.specs.Freed.{IsFreed};

/// A process that waited where it shows nothing, and is ready now, keeps its clause.
pub fn who_is_freed_is_kept()
    ensures { (facts : Facts) (q : ℕ) (homes : Homes) (entries : Entries) (store : Store) (stacks : Stacks) (table table' : Table) (h : Holders)
        (a : Activity) (d : Descriptor)
        → IsFreed table table' h q d → RepresentsProcess facts homes entries store stacks table h q a d
        → RepresentsProcess facts homes entries store stacks table' h q a d }
{}
