//! The laws. The functions do nothing: their contracts are the laws.
ghost use Rattle.std.specs.Prelude.{◌≡◌, ◌<◌, ◌-◌, ℕ, ℤ, pos, true, List, [], ◌∷◌, length, get_or, set, Option, Some, None};
ghost use Rattle.std.specs.List.{slice_get};
ghost use Rattle.pfc_types.specs.declared.types.TypeId.{TypeId};
ghost use Rattle.pfc_types.specs.declared.scope.Meaning.TheVariants.{Variable};
ghost use Rattle.pfc_code.specs.declared.images.Block.{Block};
ghost use Rattle.pfc_semantics.specs.Programs.{Program};
ghost use Rattle.pfc_semantics.specs.Values.{Value, Location, ordinal, points};
ghost use Rattle.pfc_semantics.specs.Store.{Store, values_in, value_at, stored, with_room, without};
ghost use Rattle.pfc_translation.specs.Sites.{type_cells};
ghost use Rattle.pfc_stacks.specs.declared.refs.Ref.{Ref};
ghost use Rattle.pfc_stacks.specs.declared.marks.Mark.{Mark};
ghost use Rattle.pfc_stacks.specs.Activations.{called, called_own, own_words, block_cells, arguments, first_own, created, returned, returned_with};
ghost use Rattle.pfc_stacks.specs.Refs.{word_of};
ghost use Rattle.pfc_stacks.specs.Stacks.{Stacks, stack_of, cells_of, operands_of, cell_at, cells_at, written};
ghost use Rattle.pfc_stacks.specs.Conditions.{AreLive};
ghost use Rattle.pfc_cells.specs.Shapes.{AreCounted, Fits, words_of};
ghost use Rattle.pfc_cells.specs.Homes.{Home, Homes, IsLocation, Lies, AreApart, SharesNone, layout_at, variable_at};
ghost use Rattle.pfc_cells.specs.Memory.{AreCells, Entry, Entries, IsAmong, Lives, MemoryIs};
ghost use Rattle.pfc_cells.specs.Activations.{with_home, with_entries};

/// A living activation has one home, on the stack on which it stands. Each location has exactly one reference, whether its activation lives or
/// not.
pub fn locations_have_one_reference()
    ensures home { (g : Program) (homes : Homes) (entries : Entries) (store : Store) (stacks : Stacks) (q a : ℕ)
        → MemoryIs g homes entries store stacks → IsAmong a (entries q) → (home : Home) × (homes a ≡ Some home) × (home.process ≡ q) }
    ensures one { (g : Program) (homes : Homes) (l : Location) (t : Option TypeId) (home : Home) (behind : ℕ)
        → IsLocation g homes l t home behind → (r : Ref) × Lies g homes l t r }
    ensures same { (g : Program) (homes : Homes) (l : Location) (t u : Option TypeId) (r s : Ref)
        → Lies g homes l t r → Lies g homes l u s → (t ≡ u) × (r ≡ s) }
{}

/// Locations of living activations of which neither begins the other have no cell in common.
pub fn apart_locations_share_no_cell()
    ensures { (g : Program) (homes : Homes) (entries : Entries) (store : Store) (stacks : Stacks) (l m : Location) (t u : Option TypeId) (r s : Ref)
        → AreCounted g.state.forms → MemoryIs g homes entries store stacks → Lives entries l.activation → Lives entries m.activation
        → Lies g homes l t r → Lies g homes m u s → AreApart l m
        → SharesNone r (type_cells g.state.forms t) s (type_cells g.state.forms u) }
{}

/// Where a reference parameter of a living activation stands for a location, its cell holds the word of that location's reference.
pub fn references_are_held()
    ensures { (g : Program) (homes : Homes) (entries : Entries) (store : Store) (stacks : Stacks) (a k q : ℕ) (home : Home) (t : TypeId) (l : Location)
        → AreCounted g.state.forms → MemoryIs g homes entries store stacks → IsAmong a (entries q) → homes a ≡ Some home
        → slice_get (layout_at g home) k ≡ Some (Variable t true) → get_or (values_in store a) k (ordinal (pos 0)) ≡ points l
        → (r : Ref) × Lies g homes l (Some t) r × (cell_at stacks (variable_at g home k) ≡ word_of r) }
{}

/// The cells of a location of a living activation are there, in whichever process's stack, and they give the value that the store has at the
/// location, which is of its type.
pub fn cells_give_the_store()
    ensures live { (g : Program) (homes : Homes) (entries : Entries) (store : Store) (stacks : Stacks) (l : Location) (t : Option TypeId) (r : Ref)
        → AreCounted g.state.forms → MemoryIs g homes entries store stacks → Lives entries l.activation → Lies g homes l t r
        → AreLive stacks r (type_cells g.state.forms t) }
    ensures typed { (g : Program) (homes : Homes) (entries : Entries) (store : Store) (stacks : Stacks) (l : Location) (t : Option TypeId) (r : Ref)
        → AreCounted g.state.forms → MemoryIs g homes entries store stacks → Lives entries l.activation → Lies g homes l t r
        → Fits g.state.forms t (value_at store l) }
    ensures words { (g : Program) (homes : Homes) (entries : Entries) (store : Store) (stacks : Stacks) (l : Location) (t : Option TypeId) (r : Ref)
        → AreCounted g.state.forms → MemoryIs g homes entries store stacks → Lives entries l.activation → Lies g homes l t r
        → cells_at stacks r (type_cells g.state.forms t) ≡ words_of (value_at store l) }
{}

/// A value is written to the cells of a location, in whichever process's stack it lies. Then the cells there give the value, and the stacks of
/// all processes hold the store in which it is at the location. What cells and store give for a location apart from it is
/// what they gave.
pub fn writes_are_stored()
    ensures given { (g : Program) (homes : Homes) (entries : Entries) (store : Store) (stacks : Stacks) (l : Location) (t : Option TypeId) (r : Ref) (v : Value)
        → AreCounted g.state.forms → MemoryIs g homes entries store stacks → Lives entries l.activation → Lies g homes l t r → Fits g.state.forms t v
        → cells_at (written stacks r (words_of v)) r (type_cells g.state.forms t) ≡ words_of v }
    ensures held { (g : Program) (homes : Homes) (entries : Entries) (store : Store) (stacks : Stacks) (l : Location) (t : Option TypeId) (r : Ref) (v : Value)
        → AreCounted g.state.forms → MemoryIs g homes entries store stacks → Lives entries l.activation → Lies g homes l t r → Fits g.state.forms t v
        → MemoryIs g homes entries (stored store l v) (written stacks r (words_of v)) }
    ensures apart { (g : Program) (homes : Homes) (entries : Entries) (store : Store) (stacks : Stacks) (l m : Location) (t u : Option TypeId)
        (r s : Ref) (v : Value)
        → AreCounted g.state.forms → MemoryIs g homes entries store stacks → Lives entries l.activation → Lives entries m.activation
        → Lies g homes l t r → Lies g homes m u s → Fits g.state.forms t v → AreApart l m
        → cells_at (written stacks r (words_of v)) s (type_cells g.state.forms u) ≡ cells_at stacks s (type_cells g.state.forms u) }
    ensures value { (g : Program) (homes : Homes) (entries : Entries) (store : Store) (stacks : Stacks) (l : Location) (t : Option TypeId) (r : Ref) (v : Value)
        → AreCounted g.state.forms → MemoryIs g homes entries store stacks → Lives entries l.activation → Lies g homes l t r
        → value_at (stored store l v) l ≡ v }
    ensures others { (g : Program) (homes : Homes) (entries : Entries) (store : Store) (stacks : Stacks) (l m : Location) (t : Option TypeId)
        (r : Ref) (v : Value)
        → AreCounted g.state.forms → MemoryIs g homes entries store stacks → Lives entries l.activation → Lies g homes l t r → AreApart l m
        → value_at (stored store l v) m ≡ value_at store m }
{}

/// A new activation whose cells hold its values keeps what the stacks hold of all others, whose locations lie where they lay: that of a call, over the
/// cells of its caller, and the first one of a process that has none. Its number is one that no activation has or had.
pub fn activations_begin()
    ensures called { (g : Program) (homes : Homes) (entries : Entries) (store : Store) (stacks : Stacks) (p a scope k : ℕ) (b : Block) (link : ℤ) (mark : Mark)
        (values : List Value) (e : Entry) (below : List Entry)
        → MemoryIs g homes entries store stacks → entries p ≡ e ∷ below → homes a ≡ None
        → (let home : Home = record { process = p; cell = length (cells_of stacks p); scope = scope } in
        AreCells g homes (layout_at g home) values (block_cells (arguments b (operands_of stacks p)) (b.cells - b.params))
        → (let entry : Entry = record { activation = a; own = own_words (called_own k b link mark (stack_of stacks p)) } in
        MemoryIs g (with_home homes a home) (with_entries entries p (entry ∷ entries p)) (with_room store a values)
        (set stacks p (called k b link mark (stack_of stacks p))))) }
    ensures created { (g : Program) (homes : Homes) (entries : Entries) (store : Store) (stacks : Stacks) (from p a scope k : ℕ) (b : Block)
        (values : List Value)
        → MemoryIs g homes entries store stacks → entries p ≡ [] → p < length stacks → homes a ≡ None
        → (let home : Home = record { process = p; cell = 0; scope = scope } in
        AreCells g homes (layout_at g home) values (block_cells (arguments b (operands_of stacks from)) (b.cells - b.params))
        → MemoryIs g (with_home homes a home) (with_entries entries p (record { activation = a; own = own_words (first_own k) } ∷ entries p))
        (with_room store a values) (created k b p from stacks)) }
{}

/// The end of a process's last activation keeps what the stacks hold of all others: where it returns to its caller, with a result or without, the
/// cells from its base on go; where its process ends, they are left.
pub fn activations_end()
    ensures returned { (g : Program) (homes : Homes) (entries : Entries) (store : Store) (stacks : Stacks) (p : ℕ) (e : Entry) (below : List Entry)
        (home : Home)
        → AreCounted g.state.forms → MemoryIs g homes entries store stacks → entries p ≡ e ∷ below → homes e.activation ≡ Some home
        → home.cell ≡ (stack_of stacks p).base
        → MemoryIs g homes (with_entries entries p below) (without store e.activation) (set stacks p (returned (stack_of stacks p))) }
    ensures returned_with { (g : Program) (homes : Homes) (entries : Entries) (store : Store) (stacks : Stacks) (p : ℕ) (e : Entry)
        (below : List Entry) (home : Home) (v : ℤ)
        → AreCounted g.state.forms → MemoryIs g homes entries store stacks → entries p ≡ e ∷ below → homes e.activation ≡ Some home
        → home.cell ≡ (stack_of stacks p).base
        → MemoryIs g homes (with_entries entries p below) (without store e.activation) (set stacks p (returned_with v (stack_of stacks p))) }
    ensures ended { (g : Program) (homes : Homes) (entries : Entries) (store : Store) (stacks : Stacks) (p : ℕ) (e : Entry)
        → AreCounted g.state.forms → MemoryIs g homes entries store stacks → entries p ≡ e ∷ []
        → MemoryIs g homes (with_entries entries p []) (without store e.activation) stacks }
{}
