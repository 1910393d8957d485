//! The laws. The functions do nothing: their contracts are the laws.
ghost use Rattle.std.specs.Prelude.{◌≡◌, ℕ, ◌+◌, ◌-◌, ◌<◌, ◌≤◌, ◌^◌, ◌==◌, ℤ, pos, Bool, true, false, List, [], ◌∷◌, length, take, drop, get_or, set};
ghost use Rattle.std.specs.Prelude.{reverse, Some};
ghost use Rattle.std.specs.List.{slice_get, list_any};
ghost use Rattle.pfc_types.specs.Scopes.{scope_at};
ghost use Rattle.pfc_types.specs.declared.types.TypeId.{TypeId};
ghost use Rattle.pfc_types.specs.declared.scope.Meaning.TheVariants.{Variable};
ghost use Rattle.pfc_types.specs.declared.heads.Formal.{Formal};
ghost use Rattle.pfc_semantics.specs.Values.{Value, Location, ordinal, points};
ghost use Rattle.pfc_semantics.specs.Store.{Store, values_in, with_values};
ghost use Rattle.pfc_semantics.specs.Layouts.{Layout, laid_names, process_layout};
ghost use Rattle.pfc_semantics.specs.Displays.{Display};
ghost use Rattle.pfc_semantics.specs.Programs.{Block, Program, block_at, layout_cells};
ghost use Rattle.pfc_semantics.specs.Remainders.{Context, Argument};
ghost use Rattle.pfc_semantics.specs.Configurations.{Config, activity_of, all_passed};
ghost use Rattle.pfc_semantics.specs.Rendezvous.{taken_from};
ghost use Rattle.pfc_translation.specs.Sites.{is_accept, before_accept};
ghost use Rattle.pfc_stacks.specs.Refs.{word_of};
ghost use Rattle.pfc_stacks.specs.Stacks.{Stacks, stack_of, written, own_cells, link_place};
ghost use Rattle.pfc_stacks.specs.Activations.{main_link};
ghost use Rattle.pfc_cells.specs.Shapes.{AreCounted};
ghost use Rattle.pfc_cells.specs.Homes.{Home, Homes, layout_at};
ghost use Rattle.pfc_cells.specs.Memory.{AreCells, Entry, Entries, Lives};
ghost use Rattle.pfc_standing_code.specs.Settings.{View, Setting, site_of};
ghost use Rattle.pfc_standing_code.specs.Words.{AreHeld, AreKnown};
ghost use Rattle.pfc_views.specs.Views.{own_place, first_number, IsLiving, Sees, block_site};
ghost use Rattle.pfc_stack_laws.specs.Standing.{HoldStore, IsAtHand};
ghost use Rattle.pfc_call_laws.specs.Blocks.{AreLaidAs, AreLent, AreLentTo};
ghost use Rattle.pfc_call_laws.specs.Around.{HasScopes, IsNested, ShowsAround, keeps_also};
ghost use Rattle.pfc_call_laws.specs.Inside.{view_inside};
ghost use Rattle.pfc_call_laws.specs.Calls.{HasNoObjects, first_home};
ghost use Rattle.pfc_meeting_laws.specs.Meetings.{display_of, StandIn};

/// A process sees its own variables and the parameters of the accepts that are open in its cells, as these are, and behind one static link what main's
/// first activation sees. What its reference parameters stand for is kept.
pub fn processes_see_open_accepts()
    ensures { (g : Setting) (homes : Homes) (entries : Entries) (store : Store) (main : IsAtHand g homes entries store g.program.main main_link) (p a : ℕ)
        (b : Block) (e : Entry) (accepts : List ℕ) (cells : List ℤ)
        → AreCounted g.program.state.forms → HasScopes g.program b → IsNested g.program g.program.main b 0
        → ShowsAround g.program g.program.main main.display → main.display ≡ [] → homes a ≡ Some (first_home p b.scope) → IsLiving e (entries p)
        → e.activation ≡ a → get_or e.own link_place (pos 0) ≡ main_link → p < 1024
        → AreCells g.program homes b.layout (values_in store a) cells → 8 + length cells < 2 ^ 32 → AreLent g.program main.keeps b (values_in store a)
        → ((i : ℕ) → list_any (λ j. j == i) accepts ≡ true → is_accept b i ≡ true) → AreLentTo g.program main.keeps b accepts (values_in store a)
        → Sees g.program homes entries store (keeps_also main.keeps a) (display_of g.program a b) b accepts (word_of (own_place (first_home p b.scope)))
        (a ∷ main.chain) (view_inside g.program.state.forms b.layout (values_in store a) cells (first_number (first_home p b.scope)) 0 g.view) }
{}

/// Where a meeting begins, the arguments of the caller are the last of its operands. Once their words are written to the cells of the accept's parameters
/// and popped, the stacks hold the store in which the parameters have the values and references that were passed, and other variables what they had. The
/// others, who do not keep the owner's activation, see what they saw.
pub fn meetings_are_held()
    ensures passed { (g : Setting) (homes : Homes) (entries : Entries) (c : Config) (stacks : Stacks) (b : Block) (w : ℤ)
        (hand : IsAtHand g homes entries c.store b w) (p z : ℕ) (x : Context) (formals : List Formal) (parameters : Layout) (given : List Argument)
        (ops below : List ℤ)
        → HoldStore g homes entries c.store stacks → hand.display ≡ (activity_of g.program c p).display → AreKnown g.program b g.accepts x.env
        → AreLaidAs formals parameters → z ≡ layout_cells g.program.state.forms parameters → AreHeld g.view (site_of g b x) formals given ops below
        → (let args = all_passed g.program c p given in
        AreCells g.program homes parameters args (reverse (take z ops)) × (drop z ops ≡ below)
        × ((k : ℕ) (t : TypeId) → slice_get parameters k ≡ Some (Variable t true)
        → (l : Location) × (get_or args k (ordinal (pos 0)) ≡ points l) × (hand.keeps l.activation ≡ true))) }
    ensures held { (g : Setting) (homes : Homes) (entries : Entries) (store : Store) (stacks : Stacks) (caller a first : ℕ) (home : Home) (parameters : Layout)
        (args : List Value) (words left : List ℤ) (there : StandIn (layout_at g.program home) parameters first)
        → HoldStore g homes entries store stacks → Lives entries a → homes a ≡ Some home → HasNoObjects g.program (block_at g.program home.scope)
        → AreCells g.program homes parameters args words
        → (let cell = home.cell + own_cells + layout_cells g.program.state.forms there.before in
        let new = written stacks (record { process = home.process; cell = cell }) words in
        HoldStore g homes entries (with_values store a (taken_from first args (values_in store a)))
        (set new caller (record (stack_of new caller) { operands = left }))) }
    ensures values { (first n : ℕ) (args values : List Value)
        → n < length args → first + length args ≤ length values
        → get_or (taken_from first args values) (first + n) (ordinal (pos 0)) ≡ get_or args n (ordinal (pos 0)) }
    ensures seen { (g : Program) (keeps : ℕ → Bool) (homes : Homes) (entries : Entries) (store : Store) (a : ℕ) (new : List Value) (display : Display)
        (b : Block)
        (accepts : List ℕ) (w : ℤ) (chain : List ℕ) (view : View)
        → keeps a ≡ false → Sees g homes entries store keeps display b accepts w chain view
        → Sees g homes entries (with_values store a new) keeps display b accepts w chain view }
{}

/// The parameters of an accept stand in the layout of its process behind the variables that the code counts before them.
pub fn accepts_stand_in_layouts()
    ensures { (g : Program) (b : Block) (i : ℕ)
        → b.layout ≡ process_layout (scope_at g.state.blocks.scopes b.scope) (take b.accepts (drop b.next g.state.blocks.scopes)) → is_accept b i ≡ true
        → StandIn b.layout (laid_names (scope_at g.state.blocks.scopes i)) (before_accept (block_site g b) i) }
{}
