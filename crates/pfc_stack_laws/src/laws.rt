//! The laws. The functions do nothing: their contracts are the laws.
ghost use Rattle.std.specs.Prelude.{◌≡◌, ◌≤◌, ◌+◌, ℕ, ℤ, true, List, ◌∷◌, ◌++◌, length, reverse, Some};
ghost use Rattle.pfc_base.specs.declared.faults.RunFault.{RunFault};
ghost use Rattle.pfc_code.specs.declared.images.Block.{Block as ImageBlock};
ghost use Rattle.pfc_code.specs.declared.instructions.Instr.{Instr};
ghost use Rattle.pfc_code.specs.declared.instructions.Instr.TheVariants.{LOAD, STORE, TURN, FORW, FORT};
ghost use Rattle.pfc_types.specs.Types.{is_simple};
ghost use Rattle.pfc_types.specs.declared.types.TypeId.{TypeId};
ghost use Rattle.pfc_semantics.specs.Values.{Value, ordinal};
ghost use Rattle.pfc_semantics.specs.Store.{Store, value_at};
ghost use Rattle.pfc_semantics.specs.Displays.{Spot, located};
ghost use Rattle.pfc_semantics.specs.Programs.{Block};
ghost use Rattle.pfc_semantics.specs.Remainders.{Context};
ghost use Rattle.pfc_stacks.specs.Stacks.{Stacks};
ghost use Rattle.pfc_stacks.specs.Conditions.{CanPerform as CanPerformOnStacks};
ghost use Rattle.pfc_stacks.specs.Effects.{moved, acts, is_before, value_behind, effect as effect_on_stacks};
ghost use Rattle.pfc_cells.specs.Shapes.{words_of};
ghost use Rattle.pfc_cells.specs.Homes.{Homes};
ghost use Rattle.pfc_cells.specs.Memory.{Entries};
ghost use Rattle.pfc_standing_code.specs.Shapes.{shape_of, shape_cells, IsOf};
ghost use Rattle.pfc_standing_code.specs.Settings.{Setting, site_of};
ghost use Rattle.pfc_standing_code.specs.Effects.{Arm, onward, refuses, effect_of, CanPerform};
ghost use Rattle.pfc_standing_code.specs.Words.{IsWord, IsChecked};
ghost use Rattle.pfc_standing_code.specs.ValueTypes.{IsValueType};
ghost use Rattle.pfc_stack_laws.specs.Standing.{StandsAt, HoldStore, IsAtHand};
ghost use Rattle.pfc_stack_laws.specs.Instructions.{IsOfStacks, Goes, EndsIn, Reads, Writes};

/// A quiet instruction of the stacks alone may be performed where the laws on standing code say so. It leads its process on as they have it, or ends in
/// the fault that they have, and makes no alternative of a select.
pub fn quiet_instructions_lead_on()
    ensures goes { (g : Setting) (homes : Homes) (entries : Entries) (store : Store) (b : Block) (blocks : List ImageBlock) (stacks : Stacks) (p at : ℕ)
        (ops : List ℤ) (arms : List Arm) (w : ℤ) (i : Instr) (to : ℕ) (left : List ℤ) (more : List Arm)
        → HoldStore g homes entries store stacks → IsAtHand g homes entries store b w → StandsAt stacks p at ops g.room w → IsOfStacks i → CanPerform g i ops
        → effect_of g i at ops arms ≡ onward to left more → length left ≤ g.room
        → Goes blocks i p stacks to left × (more ≡ arms) }
    ensures ends { (g : Setting) (homes : Homes) (entries : Entries) (store : Store) (b : Block) (blocks : List ImageBlock) (stacks : Stacks) (p at : ℕ)
        (ops : List ℤ) (arms : List Arm) (w : ℤ) (i : Instr) (f : RunFault)
        → HoldStore g homes entries store stacks → IsAtHand g homes entries store b w → StandsAt stacks p at ops g.room w → IsOfStacks i → CanPerform g i ops
        → effect_of g i at ops arms ≡ refuses f → EndsIn blocks i p stacks f }
{}

/// A read gives the value that the store has where the source text has the variable, and keeps all else; its type is one without objects.
pub fn variables_are_read()
    ensures { (g : Setting) (homes : Homes) (entries : Entries) (store : Store) (b : Block) (blocks : List ImageBlock) (stacks : Stacks) (p at : ℕ) (w : ℤ)
        (x : Context) (v : Spot) (t : TypeId) (word : ℤ) (below : List ℤ) (hand : IsAtHand g homes entries store b w)
        → HoldStore g homes entries store stacks → StandsAt stacks p at (word ∷ below) g.room w → IsChecked g b x.env
        → IsWord g.view (site_of g b x) v (Some t) word → IsValueType g.program.state.forms t
        → length below + shape_cells g.program.state.forms (shape_of t) ≤ g.room
        → Reads g blocks (LOAD (shape_cells g.program.state.forms (shape_of t))) p stacks at below t (value_at store (located store hand.display v)) }
{}

/// A write changes the store where the source text has the variable, whichever process's stack that is on, and keeps all else: from the operands, or of the
/// value that a `for` keeps.
pub fn variables_are_written()
    ensures value { (g : Setting) (homes : Homes) (entries : Entries) (store : Store) (b : Block)
        (blocks : List ImageBlock) (stacks : Stacks) (p at : ℕ) (w : ℤ)
        (x : Context) (v : Spot) (t : TypeId) (word : ℤ) (new : Value) (below : List ℤ) (hand : IsAtHand g homes entries store b w)
        → HoldStore g homes entries store stacks → StandsAt stacks p at (reverse (words_of new) ++ word ∷ below) g.room w → IsChecked g b x.env
        → IsWord g.view (site_of g b x) v (Some t) word → IsOf g.program.state.forms t new
        → Writes g homes entries store blocks (STORE (shape_cells g.program.state.forms (shape_of t))) p stacks at below (located store hand.display v) t new }
    ensures kept { (g : Setting) (homes : Homes) (entries : Entries) (store : Store) (b : Block) (blocks : List ImageBlock) (stacks : Stacks) (p at : ℕ) (w : ℤ)
        (x : Context) (v : Spot) (t : TypeId) (word last kept : ℤ) (below : List ℤ) (hand : IsAtHand g homes entries store b w)
        → HoldStore g homes entries store stacks → StandsAt stacks p at (last ∷ kept ∷ word ∷ below) g.room w → IsChecked g b x.env
        → IsWord g.view (site_of g b x) v (Some t) word → is_simple t ≡ true
        → Writes g homes entries store blocks FORW p stacks at (last ∷ kept ∷ word ∷ below) (located store hand.display v) t (ordinal kept) }
{}

/// The ways back of loops lead on as the laws on standing code have them.
pub fn turns_lead_back()
    ensures turn { (blocks : List ImageBlock) (stacks : Stacks) (p at room : ℕ) (ops : List ℤ) (w : ℤ) (a : ℕ)
        → StandsAt stacks p at ops room w
        → CanPerformOnStacks blocks (TURN a) p stacks × (effect_on_stacks blocks (TURN a) p stacks ≡ acts (moved stacks p a ops)) }
    ensures count { (blocks : List ImageBlock) (stacks : Stacks) (p at room : ℕ) (w : ℤ) (d a : ℕ) (last kept word : ℤ) (below : List ℤ)
        → StandsAt stacks p at (last ∷ kept ∷ word ∷ below) room w → is_before d kept last ≡ true
        → CanPerformOnStacks blocks (FORT d a) p stacks
        × (effect_on_stacks blocks (FORT d a) p stacks ≡ acts (moved stacks p a (last ∷ value_behind d kept ∷ word ∷ below))) }
{}
