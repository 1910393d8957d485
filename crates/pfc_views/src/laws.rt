//! The laws. The functions do nothing: their contracts are the laws.
ghost use Rattle.std.specs.Prelude.{◌≡◌, ℕ, ℤ, Bool, true, false, List, ◌∷◌, Option, Some, None};
ghost use Rattle.std.specs.List.{slice_get};
ghost use Rattle.pfc_types.specs.declared.types.TypeId.{TypeId};
ghost use Rattle.pfc_types.specs.rules.Expressions.{Env};
ghost use Rattle.pfc_semantics.specs.Values.{Value, Location};
ghost use Rattle.pfc_semantics.specs.Store.{Store, stored, with_room, without};
ghost use Rattle.pfc_semantics.specs.Displays.{Spot, Display};
ghost use Rattle.pfc_semantics.specs.Programs.{Block, Program};
ghost use Rattle.pfc_stacks.specs.Stacks.{Stacks, links_up};
ghost use Rattle.pfc_stacks.specs.declared.refs.Ref.{Ref};
ghost use Rattle.pfc_stacks.specs.Refs.{word_of};
ghost use Rattle.pfc_cells.specs.Shapes.{AreCounted};
ghost use Rattle.pfc_cells.specs.Homes.{Home, Homes, Lies};
ghost use Rattle.pfc_cells.specs.Memory.{Entry, Entries, MemoryIs};
ghost use Rattle.pfc_cells.specs.Activations.{with_home, with_entries};
ghost use Rattle.pfc_standing_code.specs.Shapes.{IsSound};
ghost use Rattle.pfc_standing_code.specs.Settings.{View, Setting, IsInTrial, IsBeside};
ghost use Rattle.pfc_standing_code.specs.Words.{AreKnown, IsWord, IsChecked};
ghost use Rattle.pfc_views.specs.Views.{own_place, Sees, LiesAt, AreObjects, AreFew};
ghost use Rattle.pfc_views.specs.Keeping.{IsLike};

/// Where code has a word for a variable, or a part of one, that is in view, the location which the source text has
/// for that spot lies there, and its activation is
/// kept.
pub fn named_variables_lie_in_view()
    ensures { (g : Program) (homes : Homes) (entries : Entries) (store : Store) (keeps : ℕ → Bool) (display : Display) (b : Block) (accepts : List ℕ) (w : ℤ)
        (chain : List ℕ) (view : View) (stacks : Stacks) (env : Env) (line : ℕ) (v : Spot) (t : Option TypeId) (word : ℤ)
        → AreCounted g.state.forms → MemoryIs g homes entries store stacks → Sees g homes entries store keeps display b accepts w chain view
        → AreKnown g b accepts env → IsWord view (record { program = g; block = b; env = env; line = line }) v t word
        → LiesAt g homes store keeps display v t word }
{}

/// Static links that are counted from an activation lead to the activations that it is linked with, as the stacks hold them.
pub fn static_links_lead_along()
    ensures { (g : Program) (homes : Homes) (entries : Entries) (store : Store) (keeps : ℕ → Bool) (display : Display) (b : Block) (accepts : List ℕ) (w : ℤ)
        (chain : List ℕ) (view : View) (stacks : Stacks) (l a : ℕ) (home : Home)
        → Sees g homes entries store keeps display b accepts w chain view → MemoryIs g homes entries store stacks
        → AreFew stacks → slice_get chain l ≡ Some a → homes a ≡ Some home
        → links_up stacks l w ≡ word_of (own_place home) }
{}

/// What an activation sees stays where the activations that it keeps live on, and their reference parameters stand for what they stood for.
pub fn changes_keep_what_is_seen()
    ensures { (g : Program) (keeps : ℕ → Bool) (homes homes' : Homes) (entries entries' : Entries) (store store' : Store) (display : Display) (b : Block)
        (accepts : List ℕ) (w : ℤ) (chain : List ℕ) (view : View)
        → IsLike g keeps homes homes' entries entries' store store' → Sees g homes entries store keeps display b accepts w chain view
        → Sees g homes' entries' store' keeps display b accepts w chain view }
{}

/// A write to a location, the beginning of an activation under a new number, and the end of one that is not kept are such changes.
pub fn actions_keep_what_is_seen()
    ensures written { (g : Program) (keeps : ℕ → Bool) (homes : Homes) (entries : Entries) (store : Store) (l : Location) (t : Option TypeId) (r : Ref)
        (v : Value)
        → Lies g homes l t r → IsLike g keeps homes homes entries entries store (stored store l v) }
    ensures begun { (g : Program) (keeps : ℕ → Bool) (homes : Homes) (entries : Entries) (store : Store) (p a : ℕ) (home : Home) (entry : Entry)
        (values : List Value)
        → homes a ≡ None
        → IsLike g keeps homes (with_home homes a home) entries (with_entries entries p (entry ∷ entries p)) store (with_room store a values) }
    ensures ended { (g : Program) (keeps : ℕ → Bool) (homes : Homes) (entries : Entries) (store : Store) (p : ℕ) (top : Entry) (below : List Entry)
        → entries p ≡ top ∷ below → keeps top.activation ≡ false
        → IsLike g keeps homes homes entries (with_entries entries p below) store (without store top.activation) }
{}

/// The names in view in the block at hand, or in one beside it, are as the laws on standing code ask of them: their cells are in view, their addresses
/// are addresses, and their objects have numbers. In a scan they are those of a guard.
pub fn seen_names_are_checked()
    ensures { (g : Setting) (homes : Homes) (entries : Entries) (store : Store) (keeps : ℕ → Bool) (display : Display) (b : Block) (w : ℤ)
        (chain : List ℕ) (stacks : Stacks) (env : Env)
        → AreCounted g.program.state.forms → IsSound g.program.state.forms → MemoryIs g.program homes entries store stacks → AreFew stacks
        → AreObjects g.program homes entries store g.number → Sees g.program homes entries store keeps display b g.accepts w chain g.view
        → AreKnown g.program b g.accepts env → env.state ≡ g.program.state → IsBeside g g.block b → IsInTrial g.trial env
        → IsChecked g b env }
{}
