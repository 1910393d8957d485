//! The laws. The functions do nothing: their contracts are the laws.
ghost use Rattle.std.specs.Prelude.{◌≡◌, ◌≢◌, ℕ, pos, get_or, ◌+◌, ◌-◌, ◌<◌, ◌^◌, ℤ, Bool, true, false, List, [], ◌∷◌, length, drop, set, Option, Some, None};
ghost use Rattle.std.specs.List.{slice_get};
ghost use Rattle.pfc_code.specs.declared.images.Block.{Block as ImageBlock};
ghost use Rattle.pfc_tree.specs.trees.Parts.{ProgramTree};
ghost use Rattle.pfc_types.specs.Types.{is_simple};
ghost use Rattle.pfc_types.specs.declared.types.TypeId.{TypeId};
ghost use Rattle.pfc_types.specs.declared.scope.Meaning.TheVariants.{Variable};
ghost use Rattle.pfc_types.specs.declared.heads.Formal.{Formal};
ghost use Rattle.pfc_semantics.specs.Values.{Value, ordinal};
ghost use Rattle.pfc_semantics.specs.Layouts.{Layout, sub_with};
ghost use Rattle.pfc_semantics.specs.Displays.{Display};
ghost use Rattle.pfc_semantics.specs.Programs.{Block, Program, block_at, program_of};
ghost use Rattle.pfc_semantics.specs.Remainders.{Context, Argument};
ghost use Rattle.pfc_semantics.specs.Configurations.{Activation, Config, activity_of, all_passed};
ghost use Rattle.pfc_semantics.specs.Store.{Store, values_in, with_room, without};
ghost use Rattle.pfc_semantics.specs.Calls.{new_number, new_values, new_display, formals_of, result_in};
ghost use Rattle.pfc_semantics.specs.Processes.{process_display};
ghost use Rattle.pfc_stacks.specs.declared.marks.Mark.{Mark};
ghost use Rattle.pfc_stacks.specs.Refs.{word_of};
ghost use Rattle.pfc_stacks.specs.Stacks.{Stack, Stacks, stack_of, operands_of, cells_of, own_count, in_view, link_place, block_place, under_place};
ghost use Rattle.pfc_stacks.specs.Activations.{
  has_place,
  own_words,
  arguments,
  block_cells,
  called_own,
  called,
  main_link,
  first_own,
  created,
  returned,
  returned_with,
  replaced,
  result_in as result_on_stack,
};
ghost use Rattle.pfc_cells.specs.Shapes.{AreCounted};
ghost use Rattle.pfc_cells.specs.Homes.{Home, Homes, layout_at, cells_before};
ghost use Rattle.pfc_cells.specs.Memory.{AreCells, Entry, Entries, Lives};
ghost use Rattle.pfc_cells.specs.Activations.{with_home, with_entries};
ghost use Rattle.pfc_standing_code.specs.Settings.{View, Setting, site_of};
ghost use Rattle.pfc_standing_code.specs.Words.{AreHeld, AreKnown};
ghost use Rattle.pfc_views.specs.Views.{own_place, first_number, IsLiving, Sees};
ghost use Rattle.pfc_stack_laws.specs.Standing.{StandsAt, HoldStore, IsAtHand};
ghost use Rattle.pfc_call_laws.specs.Blocks.{HasFirstValues, Takes, AreLent};
ghost use Rattle.pfc_call_laws.specs.Around.{HasScopes, IsNested, ShowsAround, IsMainsCode, main_alone, keeps_also, home_over};
ghost use Rattle.pfc_call_laws.specs.Inside.{nothing_seen, view_inside, StandAlike};
ghost use Rattle.pfc_call_laws.specs.Calls.{HasNoObjects, home_at, first_home};

/// The first value of each type of a program is of the type, and all its words are 0.
pub fn first_values_are_zeros()
    ensures { (t : ProgramTree) → HasFirstValues (program_of t) }
{}

/// The arguments of a call, which are the last operands, and zeros behind them hold the values of the new activation. A reference parameter stands for a
/// location in an activation that the caller keeps. Below the arguments is what was held before them.
pub fn arguments_fill_the_block()
    ensures { (g : Setting) (homes : Homes) (entries : Entries) (c : Config) (stacks : Stacks) (b : Block) (w : ℤ) (hand : IsAtHand g homes entries c.store b w)
        (p : ℕ) (x : Context) (callee : Block) (code : ImageBlock) (formals : List Formal) (given : List Argument) (ops below : List ℤ)
        → HoldStore g homes entries c.store stacks → HasFirstValues g.program → hand.display ≡ (activity_of g.program c p).display
        → AreKnown g.program b g.accepts x.env → Takes g.program callee formals code → AreHeld g.view (site_of g b x) formals given ops below
        → (let values = new_values g.program callee (all_passed g.program c p given) in
        AreCells g.program homes callee.layout values (block_cells (arguments code ops) (code.cells - code.params))
        × AreLent g.program hand.keeps callee values × (drop code.params ops ≡ below)) }
{}

/// A call begins an activation of a block that is declared l static links up. It sees its own variables in its cells, and behind one static link what its
/// caller sees from the l-th on; it keeps what the caller keeps, and itself, whom the caller does not keep. The caller sees what it saw. The stacks hold
/// the store with the new variables, and the process stands at the entry of the block, over the operands that are left.
pub fn calls_are_seen()
    ensures seen { (g : Setting) (homes : Homes) (entries : Entries) (c : Config) (stacks : Stacks) (b : Block) (w : ℤ)
        (hand : IsAtHand g homes entries c.store b w) (p at room k l : ℕ) (ops : List ℤ) (callee : Block) (code : ImageBlock) (mark : Mark)
        (values : List Value)
        (e : Entry) (below : List Entry)
        → HoldStore g homes entries c.store stacks → StandsAt stacks p at ops room w → entries p ≡ e ∷ below → homes (new_number c) ≡ None
        → has_place p (length (cells_of stacks p)) code ≡ true → HasScopes g.program callee → IsNested g.program b callee l
        → ShowsAround g.program b hand.display → AreLent g.program hand.keeps callee values
        → (let a = new_number c in let home = home_over stacks p callee.scope in let cells = block_cells (arguments code ops) (code.cells - code.params) in
        let own = own_words (called_own k code (in_view stacks p l) mark (stack_of stacks p)) in
        AreCells g.program homes callee.layout values cells
        → (let homes' = with_home homes a home in let entries' = with_entries entries p (record { activation = a; own = own } ∷ entries p) in
        let store' = with_room c.store a values in let display' = new_display c callee hand.display in
        Sees g.program homes' entries' store' (keeps_also hand.keeps a) display' callee [] (word_of (own_place home)) (a ∷ drop l hand.chain)
        (view_inside g.program.state.forms callee.layout values cells (first_number home) l g.view)
        × ShowsAround g.program callee display'
        × Sees g.program homes' entries' store' hand.keeps hand.display b g.accepts w hand.chain g.view)) }
    ensures held { (g : Setting) (homes : Homes) (entries : Entries) (c : Config) (stacks : Stacks) (w : ℤ) (p at room k l : ℕ) (ops : List ℤ)
        (callee : Block) (code : ImageBlock) (mark : Mark) (values : List Value) (e : Entry) (below : List Entry)
        → HoldStore g homes entries c.store stacks → StandsAt stacks p at ops room w → entries p ≡ e ∷ below → homes (new_number c) ≡ None
        → has_place p (length (cells_of stacks p)) code ≡ true → HasScopes g.program callee → HasNoObjects g.program callee
        → AreCells g.program homes callee.layout values (block_cells (arguments code ops) (code.cells - code.params))
        → (let a = new_number c in let home = home_over stacks p callee.scope in
        let own = own_words (called_own k code (in_view stacks p l) mark (stack_of stacks p)) in
        HoldStore g (with_home homes a home) (with_entries entries p (record { activation = a; own = own } ∷ entries p)) (with_room c.store a values)
        (set stacks p (called k code (in_view stacks p l) mark (stack_of stacks p)))) }
    ensures fresh { (g : Setting) (homes : Homes) (entries : Entries) (store : Store) (stacks : Stacks) (b : Block) (w : ℤ)
        (hand : IsAtHand g homes entries store b w) (a : ℕ)
        → HoldStore g homes entries store stacks → homes a ≡ None → hand.keeps a ≡ false }
    ensures stands { (stacks : Stacks) (w : ℤ) (p at room k l i : ℕ) (ops : List ℤ) (code : ImageBlock) (mark : Mark)
        → StandsAt stacks p at ops room w → (stack_of stacks p).looks_from ≡ None
        → StandsAt (set stacks p (called k code (in_view stacks p l) mark (stack_of stacks p))) p code.entry (drop code.params ops)
        (length (drop code.params ops) + code.operands) (word_of (own_place (home_over stacks p i))) }
{}

/// An activation may keep more than it does, if that lives: it sees the same.
pub fn more_may_be_kept()
    ensures { (g : Program) (homes : Homes) (entries : Entries) (store : Store) (keeps more : ℕ → Bool) (display : Display) (b : Block) (accepts : List ℕ)
        (w : ℤ)
        (chain : List ℕ) (view : View)
        → ((a : ℕ) → keeps a ≡ true → more a ≡ true) → ((a : ℕ) → more a ≡ true → Lives entries a)
        → Sees g homes entries store keeps display b accepts w chain view → Sees g homes entries store more display b accepts w chain view }
{}

/// What an activation sees from inside depends on its values and cells only where they are references: at two moments it is the same of a cell at which
/// the same references begin, and these stand for what they stood for.
pub fn views_from_inside_agree()
    ensures { (g : Program) (homes homes' : Homes) (layout : Layout) (values other : List Value) (cells other_cells : List ℤ) (first l n d : ℕ) (view : View)
        → AreCounted g.state.forms → ((b : ℕ) (home : Home) → homes b ≡ Some home → homes' b ≡ Some home)
        → AreCells g homes layout values cells → AreCells g homes' layout other other_cells → StandAlike g layout values other d
        → (let one = view_inside g.state.forms layout values cells first l view in
        let two = view_inside g.state.forms layout other other_cells first l view in
        (one.reaches n d ≡ two.reaches n d) × (one.refers n d ≡ two.refers n d) × (one.first n ≡ two.first n) × (one.held n d ≡ two.held n d)) }
{}

/// Main's first activation sees main's variables in its cells, in main's own body and in the initialising ones.
pub fn main_sees_its_own()
    ensures { (g : Program) (homes : Homes) (entries : Entries) (store : Store) (b : Block) (e : Entry) (cells : List ℤ)
        → AreCounted g.state.forms → IsMainsCode g b → homes 0 ≡ Some (first_home 0 0) → IsLiving e (entries 0) → e.activation ≡ 0
        → AreCells g homes g.main.layout (values_in store 0) cells → 8 + length cells < 2 ^ 32
        → Sees g homes entries store main_alone [] b [] main_link (0 ∷ [])
        (view_inside g.state.forms g.main.layout (values_in store 0) cells (first_number (first_home 0 0)) 0 nothing_seen)
        × ShowsAround g b [] }
{}

/// A process that is created sees its own variables in its cells, and behind one static link what main's first activation sees. The scopes of its accepts
/// stand behind its own in its display. The stacks hold the store with its variables; it stands at the entry of its block without operands, and the
/// process that made it behind the instruction.
pub fn created_processes_see()
    ensures seen { (g : Setting) (homes : Homes) (entries : Entries) (c : Config) (main : IsAtHand g homes entries c.store g.program.main main_link) (p k : ℕ)
        (ops : List ℤ) (callee : Block) (code : ImageBlock) (values : List Value)
        → AreCounted g.program.state.forms → homes (new_number c) ≡ None → p < 1024 → has_place p 0 code ≡ true → HasScopes g.program callee
        → IsNested g.program g.program.main callee 0 → ShowsAround g.program g.program.main main.display → main.display ≡ []
        → AreLent g.program main.keeps callee values
        → (let a = new_number c in let home = first_home p callee.scope in let cells = block_cells (arguments code ops) (code.cells - code.params) in
        AreCells g.program homes callee.layout values cells
        → Sees g.program (with_home homes a home) (with_entries entries p (record { activation = a; own = own_words (first_own k) } ∷ entries p))
        (with_room c.store a values) (keeps_also main.keeps a) (process_display g.program c callee) callee [] (word_of (own_place home)) (a ∷ main.chain)
        (view_inside g.program.state.forms callee.layout values cells (first_number home) 0 g.view)
        × ShowsAround g.program callee (process_display g.program c callee)) }
    ensures held { (g : Setting) (homes : Homes) (entries : Entries) (c : Config) (stacks : Stacks) (k p from : ℕ) (callee : Block) (code : ImageBlock)
        (values : List Value)
        → HoldStore g homes entries c.store stacks → entries p ≡ [] → p < length stacks → homes (new_number c) ≡ None → has_place p 0 code ≡ true
        → HasScopes g.program callee → HasNoObjects g.program callee
        → AreCells g.program homes callee.layout values (block_cells (arguments code (operands_of stacks from)) (code.cells - code.params))
        → (let a = new_number c in
        HoldStore g (with_home homes a (first_home p callee.scope)) (with_entries entries p
        (record { activation = a; own = own_words (first_own k) } ∷ entries p))
        (with_room c.store a values) (created k code p from stacks)) }
    ensures process { (stacks : Stacks) (k p from i : ℕ) (code : ImageBlock)
        → p < length stacks → StandsAt (created k code p from stacks) p code.entry [] code.operands (word_of (own_place (first_home p i))) }
    ensures maker { (stacks : Stacks) (k p from at room : ℕ) (code : ImageBlock) (ops : List ℤ) (w : ℤ)
        → p < length stacks → from ≢ p → StandsAt stacks from at ops room w → (stack_of stacks from).looks_from ≡ None
        → StandsAt (created k code p from stacks) from (at + 1) (drop (code.params + 1) ops) room w }
{}

/// The end of an activation that nobody keeps leaves what the others see, and the stacks hold what is left. Behind a return the process stands where its
/// caller goes on, with its operands as they are and a function's result over them: the value of the variable behind the parameters.
pub fn returns_keep_the_callers()
    ensures seen { (g : Program) (keeps : ℕ → Bool) (homes : Homes) (entries : Entries) (store : Store) (p : ℕ) (e : Entry) (below : List Entry)
        (display : Display)
        (b : Block) (accepts : List ℕ) (w : ℤ) (chain : List ℕ) (view : View)
        → entries p ≡ e ∷ below → keeps e.activation ≡ false → Sees g homes entries store keeps display b accepts w chain view
        → Sees g homes (with_entries entries p below) (without store e.activation) keeps display b accepts w chain view }
    ensures returned { (g : Setting) (homes : Homes) (entries : Entries) (store : Store) (stacks : Stacks) (p : ℕ) (e : Entry) (below : List Entry)
        (home : Home)
        → HoldStore g homes entries store stacks → p < length stacks → entries p ≡ e ∷ below → homes e.activation ≡ Some home
        → home.cell ≡ (stack_of stacks p).base → HasNoObjects g.program (block_at g.program home.scope)
        → HoldStore g homes (with_entries entries p below) (without store e.activation) (set stacks p (returned (stack_of stacks p))) }
    ensures returned_with { (g : Setting) (homes : Homes) (entries : Entries) (store : Store) (stacks : Stacks) (p : ℕ) (e : Entry) (below : List Entry)
        (home : Home) (v : ℤ)
        → HoldStore g homes entries store stacks → p < length stacks → entries p ≡ e ∷ below → homes e.activation ≡ Some home
        → home.cell ≡ (stack_of stacks p).base → HasNoObjects g.program (block_at g.program home.scope)
        → HoldStore g homes (with_entries entries p below) (without store e.activation) (set stacks p (returned_with v (stack_of stacks p))) }
    ensures ended { (g : Setting) (homes : Homes) (entries : Entries) (store : Store) (stacks : Stacks) (p : ℕ) (e : Entry) (home : Home)
        → HoldStore g homes entries store stacks → entries p ≡ e ∷ [] → homes e.activation ≡ Some home
        → HasNoObjects g.program (block_at g.program home.scope)
        → HoldStore g homes (with_entries entries p []) (without store e.activation) stacks }
    ensures stands { (g : Setting) (homes : Homes) (entries : Entries) (store : Store) (stacks : Stacks) (p : ℕ) (e : Entry) (below : List Entry) (home : Home)
        (k : ℕ) (code : ImageBlock) (link : ℤ) (mark : Mark) (before : Stack) (at room : ℕ) (ops : List ℤ) (w v : ℤ)
        → HoldStore g homes entries store stacks → entries p ≡ e ∷ below → homes e.activation ≡ Some home → home.cell ≡ (stack_of stacks p).base
        → e.own ≡ own_words (called_own k code link mark before) → before.at + 1 < 2 ^ 32 → before.base < 2 ^ 32
        → StandsAt stacks p at ops room w → (stack_of stacks p).looks_from ≡ None
        → (let caller = word_of (record { process = p; cell = before.base }) in
        StandsAt (set stacks p (returned (stack_of stacks p))) p (before.at + 1) ops room caller
        × StandsAt (set stacks p (returned_with v (stack_of stacks p))) p (before.at + 1) (v ∷ ops) room caller) }
    ensures result { (g : Setting) (homes : Homes) (entries : Entries) (c : Config) (stacks : Stacks) (p n : ℕ) (e : Entry) (below : List Entry) (home : Home)
        (a : Activation) (t : TypeId) (code : ImageBlock)
        → HoldStore g homes entries c.store stacks → entries p ≡ e ∷ below → homes e.activation ≡ Some home → home.cell ≡ (stack_of stacks p).base
        → a.number ≡ e.activation → formals_of (sub_with g.program.state.blocks.subs a.scope) ≡ n
        → slice_get (layout_at g.program home) n ≡ Some (Variable t false) → is_simple t ≡ true
        → code.params ≡ cells_before g.program.state.forms (layout_at g.program home) n
        → result_in g.program c a ≡ ordinal (result_on_stack (Some code) (stack_of stacks p)) }
{}

/// A requeue begins an activation in place of one that ends: it has that one's own cells but for the number of the block, and sees its own variables and
/// what main's first activation sees. It is not lent what ends. The stacks hold the store with its variables in place of those that ended, and the
/// process stands at the entry of the block, over the operands that its caller keeps.
pub fn replacements_are_seen()
    ensures seen { (g : Setting) (homes : Homes) (entries : Entries) (c : Config) (main : IsAtHand g homes entries c.store g.program.main main_link)
        (p k base : ℕ) (ops : List ℤ) (b callee : Block) (display : Display) (code : ImageBlock) (values : List Value) (e : Entry) (below : List Entry)
        → AreCounted g.program.state.forms → entries p ≡ e ∷ below → main.keeps e.activation ≡ false → get_or e.own link_place (pos 0) ≡ main_link
        → homes (new_number c) ≡ None → p < 1024 → has_place p base code ≡ true → HasScopes g.program callee → IsNested g.program g.program.main callee 0
        → ShowsAround g.program g.program.main main.display → main.display ≡ [] → ShowsAround g.program b display
        → AreLent g.program main.keeps callee values
        → (let a = new_number c in let home = home_at p base callee.scope in let cells = block_cells (arguments code ops) (code.cells - code.params) in
        AreCells g.program homes callee.layout values cells
        → Sees g.program (with_home homes a home) (with_entries entries p (record { activation = a; own = set e.own block_place (pos k) } ∷ below))
        (with_room (without c.store e.activation) a values) (keeps_also main.keeps a) (new_display c callee display) callee [] (word_of (own_place home))
        (a ∷ main.chain) (view_inside g.program.state.forms callee.layout values cells (first_number home) 0 g.view)
        × ShowsAround g.program callee (new_display c callee display)) }
    ensures held { (g : Setting) (homes : Homes) (entries : Entries) (c : Config) (stacks : Stacks) (p k : ℕ) (callee : Block) (code : ImageBlock)
        (values : List Value) (e caller : Entry) (below : List Entry) (old : Home)
        → HoldStore g homes entries c.store stacks → p < length stacks → entries p ≡ e ∷ (caller ∷ below) → homes e.activation ≡ Some old
        → old.cell ≡ (stack_of stacks p).base → HasNoObjects g.program (block_at g.program old.scope) → homes (new_number c) ≡ None
        → has_place p (stack_of stacks p).base code ≡ true → HasScopes g.program callee → HasNoObjects g.program callee
        → AreCells g.program homes callee.layout values (block_cells (arguments code (operands_of stacks p)) (code.cells - code.params))
        → (let a = new_number c in
        HoldStore g (with_home homes a (home_at p (stack_of stacks p).base callee.scope))
        (with_entries entries p (record { activation = a; own = set e.own block_place (pos k) } ∷ (caller ∷ below)))
        (with_room (without c.store e.activation) a values) (set stacks p (replaced k code (stack_of stacks p)))) }
    ensures stands { (stacks : Stacks) (p k at room i : ℕ) (ops : List ℤ) (w : ℤ) (code : ImageBlock)
        → StandsAt stacks p at ops room w → (stack_of stacks p).looks_from ≡ None
        → (let left = drop (length ops - own_count (stack_of stacks p) under_place) ops in
        StandsAt (set stacks p (replaced k code (stack_of stacks p))) p code.entry left (length left + code.operands)
        (word_of (own_place (home_at p (stack_of stacks p).base i)))) }
{}
