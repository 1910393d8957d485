//! The laws. The functions do nothing: their contracts are the laws.
ghost use Rattle.std.specs.Prelude.{◌≡◌, ℕ, [], ◌⊎◌, false, List, None};
ghost use Rattle.pfc_semantics.specs.Configurations.{Config, number_for};
ghost use Rattle.pfc_semantics.specs.Remainders.{Context, Selecting, Remainder, decides, Accepting, Argument, Open, to_accept, to_entry, calls, meets};
ghost use Rattle.pfc_semantics.specs.Selects.{choices, matched_places};
ghost use Rattle.pfc_semantics.specs.Programs.{Program};
ghost use Rattle.pfc_machines.specs.declared.machine.Machine.{Machine};
ghost use Rattle.pfc_representation.specs.Levels.{Facts, program_in, LivingLevel, IsProgram};
ghost use Rattle.pfc_representation.specs.Acting.{IsActing, HasArrived};
ghost use Rattle.pfc_representation.specs.Actions.{IsChoice, IsKept, AreKept};
ghost use Rattle.pfc_kept_meetings.specs.selects.Groups.{TakesMessage, TakesEntry};
ghost use Rattle.pfc_kept_meetings.specs.Owners.{HasTypedEntries, HasSingles};
ghost use Rattle.pfc_kept_meetings.specs.Accepts.{HasProcesses, KeepsAccepts};
ghost use Rattle.pfc_kept_meetings.specs.entries.Selects.{StandWithin};
ghost use Rattle.pfc_world.specs.Partners.{caller, is_accepting};
ghost use Rattle.pfc_semantics.specs.Displays.{Spot};
ghost use Rattle.pfc_tree.specs.trees.Parts.{ProgramTree};
ghost use Rattle.pfc_kept_meetings.specs.Groups.{EndsAccept};
ghost use Rattle.pfc_kept_meetings.specs.Waiting.{StandsWithin, KeepsOffers};

/// Where no alternative of a select is matched, its decision keeps the representation: the `else` part or a `timeout 0` is taken and all that was offered is
/// gone, or the process waits with all that is open, or both sides end in the same fault.
pub fn unmatched_selects_are_kept()
    ensures { (facts : Facts) (m : Machine) (c : Config) (p choice : ℕ) (level : LivingLevel) (x : Context) (sel : Selecting) (k : Remainder)
        → matched_places (program_in facts) c p sel ≡ []
        → IsActing facts m c p level → HasArrived facts m c p level (decides x sel k) → IsKept facts m c p choice (decides x sel k) }
{}

/// Where a decision takes an alternative that sends or receives, it keeps the representation: the message passes, and the process and its partner, in a plain
/// communication or in a select of its own, both go on behind their alternatives.
pub fn messages_of_selects_are_kept()
    ensures { (facts : Facts) (m : Machine) (c : Config) (p choice : ℕ) (level : LivingLevel) (x : Context) (sel : Selecting) (k : Remainder)
        → TakesMessage (program_in facts) c p sel choice → IsActing facts m c p level
        → HasArrived facts m c p level (decides x sel k) → IsKept facts m c p choice (decides x sel k) }
{}

/// A decision takes nothing that is matched, or an alternative that sends or receives, or one that accepts an entry.
pub fn decisions_are_divided()
    ensures { (g : Program) (c : Config) (p choice : ℕ) (x : Context) (sel : Selecting) (k : Remainder)
        → IsChoice choice (choices g c p (decides x sel k))
        → (matched_places g c p sel ≡ []) ⊎ (TakesMessage g c p sel choice ⊎ TakesEntry g c p sel choice) }
{}

/// Where a decision takes an alternative that accepts an entry, it keeps the representation: all that the select offered is gone, the meeting begins with the
/// first caller that waits, the accept's parameters have the caller's arguments, in the store and in the cells of the owner, and the owner goes on at the
/// accept's statement.
pub fn entries_of_selects_are_kept()
    ensures { (facts : Facts) (m : Machine) (c : Config) (p choice : ℕ) (level : LivingLevel) (x : Context) (sel : Selecting) (k : Remainder)
        → TakesEntry (program_in facts) c p sel choice → HasProcesses facts.tree → HasTypedEntries facts.tree → KeepsAccepts facts c
        → StandWithin facts c p x sel.offered
        → IsActing facts m c p level → HasArrived facts m c p level (decides x sel k) → IsKept facts m c p choice (decides x sel k) }
{}

/// The end of an accept keeps the representation: the process goes on behind it without the names of the accept, and the caller of the meeting that was begun
/// last is ready.
pub fn ends_of_accepts_are_kept()
    ensures { AreKept EndsAccept }
{}

/// A call of an entry keeps the representation where its owner does not wait to accept it: it is a fault where the owner is not active, and else the process
/// waits and shows its arguments. The owner has the number that its variable has on both sides.
pub fn unmet_calls_are_kept()
    ensures { (facts : Facts) (m : Machine) (c : Config) (p choice : ℕ) (level : LivingLevel) (x : Context) (v : Spot) (entry : ℕ) (k : Remainder)
        (given : List Argument)
        → HasTypedEntries facts.tree → HasSingles facts c → is_accepting c.table.rows (number_for (program_in facts) c p v) entry ≡ false
        → IsActing facts m c p level → HasArrived facts m c p level (calls x (to_entry v entry k) given)
        → IsKept facts m c p choice (calls x (to_entry v entry k) given) }
{}

/// An accept keeps the representation where nobody calls its entry: the process waits, and offers to accept.
pub fn unmet_accepts_are_kept()
    ensures { (facts : Facts) (m : Machine) (c : Config) (p choice : ℕ) (level : LivingLevel) (x : Context) (o : Open) (k : Remainder) (a : Accepting)
        → o.offer ≡ to_accept a → caller c.table.rows p a.entry ≡ None → IsActing facts m c p level → HasArrived facts m c p level (meets x o k)
        → IsKept facts m c p choice (meets x o k) }
{}

/// An accept keeps the representation: with the first caller that waits its meeting begins, in which the accept's parameters have the caller's arguments, in
/// the store and in the cells of the owner, and the caller waits in it; without one the process waits, and offers to accept.
pub fn accepts_are_kept()
    ensures { (facts : Facts) (m : Machine) (c : Config) (p choice : ℕ) (level : LivingLevel) (x : Context) (o : Open) (k : Remainder) (a : Accepting)
        → HasProcesses facts.tree → HasTypedEntries facts.tree → KeepsAccepts facts c → o.offer ≡ to_accept a → StandsWithin facts c p x a
        → IsActing facts m c p level → HasArrived facts m c p level (meets x o k) → IsKept facts m c p choice (meets x o k) }
{}

/// A call of an entry keeps the representation. Where the owner is not active it is a fault. Where the owner waits to accept the entry, in a plain accept or at
/// the first such alternative of a select, the meeting begins: the accept's parameters have the arguments, the owner goes on at the accept's statement
/// without what it offered, and the caller waits in the meeting. Else the caller waits for the entry, and shows its arguments.
pub fn calls_of_entries_are_kept()
    ensures { (facts : Facts) (m : Machine) (c : Config) (p choice : ℕ) (level : LivingLevel) (x : Context) (v : Spot) (entry : ℕ) (k : Remainder)
        (given : List Argument)
        → HasProcesses facts.tree → HasTypedEntries facts.tree → HasSingles facts c → KeepsAccepts facts c → KeepsOffers facts c
        → IsActing facts m c p level → HasArrived facts m c p level (calls x (to_entry v entry k) given)
        → IsKept facts m c p choice (calls x (to_entry v entry k) given) }
{}

/// What rendezvous ask of the processes of a program is so of every checked one: each has a block of its own, which is told by its scope, and each parameter of
/// an entry has a type.
pub fn checked_programs_have_processes()
    ensures processes { (t : ProgramTree) → IsProgram t → HasProcesses t }
    ensures entries { (t : ProgramTree) → IsProgram t → HasTypedEntries t }
{}
