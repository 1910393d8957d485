//! The laws. The functions do nothing: their contracts are the laws.
ghost use Rattle.std.specs.Prelude.{◌≡◌, ◌≢◌, ℕ, ℤ, List, Option, Some};
ghost use Rattle.pfc_types.specs.declared.types.TypeId.{TypeId};
ghost use Rattle.pfc_world.specs.Tables.{Table};
ghost use Rattle.pfc_semantics.specs.Configurations.{Activity, Config};
ghost use Rattle.pfc_semantics.specs.Values.{Value, Location};
ghost use Rattle.pfc_semantics.specs.Store.{Store, stored};
ghost use Rattle.pfc_stacks.specs.declared.refs.Ref.{Ref};
ghost use Rattle.pfc_stacks.specs.Stacks.{Stacks};
ghost use Rattle.pfc_stacks.specs.Effects.{moved};
ghost use Rattle.pfc_cells.specs.Homes.{Homes, Lies};
ghost use Rattle.pfc_cells.specs.Memory.{Entries};
ghost use Rattle.pfc_machines.specs.declared.descriptors.Descriptor.{Descriptor};
ghost use Rattle.pfc_machines.specs.declared.machine.Machine.{Machine};
ghost use Rattle.pfc_machines.specs.Quiet.{tried_in};
ghost use Rattle.pfc_representation.specs.Levels.{Facts, program_in, LivingLevel};
ghost use Rattle.pfc_representation.specs.Holding.{Holders};
ghost use Rattle.pfc_representation.specs.Processes.{RepresentsProcess};
ghost use Rattle.pfc_representation.specs.Machines.{Represents, Reports};
ghost use Rattle.pfc_representation.specs.Keeping.{IsLeftAlone, OnlyMoves};
ghost use Rattle.pfc_representation.specs.Acting.{IsActing};

/// An action of one process keeps the clause of every other that it leaves alone.
pub fn others_are_kept()
    ensures { (facts : Facts) (q : ℕ) (homes homes' : Homes) (entries entries' : Entries) (store store' : Store) (stacks stacks' : Stacks)
        (table table' : Table) (h h' : Holders) (a : Activity) (d : Descriptor)
        → IsLeftAlone facts q d homes homes' entries entries' store store' stacks stacks' table table' h h'
        → RepresentsProcess facts homes entries store stacks table h q a d → RepresentsProcess facts homes' entries' store' stacks' table' h' q a d }
{}

/// An action by which only one process goes on, and perhaps a variable is written, leaves another alone that is not about to try its guard.
pub fn moves_leave_others_alone()
    ensures moved { (facts : Facts) (p q : ℕ) (d : Descriptor) (homes : Homes) (entries : Entries) (store : Store) (stacks stacks' : Stacks)
        (table table' : Table) (h : Holders)
        → OnlyMoves p stacks stacks' table table' → q ≢ p → ((r : ℕ) → tried_in d.scan ≡ Some r → r ≢ p)
        → IsLeftAlone facts q d homes homes entries entries store store stacks stacks' table table' h h }
    ensures written { (facts : Facts) (p q : ℕ) (d : Descriptor) (homes : Homes) (entries : Entries) (store : Store) (stacks stacks' : Stacks)
        (table table' : Table) (h : Holders) (l : Location) (t : Option TypeId) (place : Ref) (v : Value)
        → OnlyMoves p stacks stacks' table table' → q ≢ p → ((r : ℕ) → tried_in d.scan ≡ Some r → r ≢ p) → Lies (program_in facts) homes l t place
        → IsLeftAlone facts q d homes homes entries entries store (stored store l v) stacks stacks' table table' h h }
{}

/// A machine that represents a configuration reports it.
pub fn represented_configurations_are_reported()
    ensures { (facts : Facts) (m : Machine) (c : Config) → Represents facts m c → Reports facts m c }
{}

/// Where the process that acts goes through a quiet instruction of the stacks alone, it acts still, wherever that leads.
pub fn quiet_moves_keep_all()
    ensures { (facts : Facts) (m : Machine) (c : Config) (p : ℕ) (level : LivingLevel) (to : ℕ) (left : List ℤ)
        → IsActing facts m c p level → IsActing facts (record m { stacks = moved m.stacks p to left }) c p level }
{}
