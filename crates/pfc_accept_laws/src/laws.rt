//! The laws. The functions do nothing: their contracts are the laws.
ghost use Rattle.std.specs.Prelude.{true, ◌≡◌, ◌≢◌, ◌⊎◌, ◌<◌, ℕ, List, [], ◌∷◌};
ghost use Rattle.pfc_semantics.specs.Values.{Value};
ghost use Rattle.pfc_semantics.specs.Programs.{Block, Program};
ghost use Rattle.pfc_semantics.specs.Processes.{process_block};
ghost use Rattle.pfc_semantics.specs.Remainders.{Accepting, Argument, Context, Open, Remainder, to_accept};
ghost use Rattle.pfc_semantics.specs.Configurations.{Activation, Config, activity_of, all_passed, body_of, start};
ghost use Rattle.pfc_types.specs.rules.Statements.{stmts_scopes};
ghost use Rattle.pfc_semantics.specs.Channels.{behind_open};
ghost use Rattle.pfc_semantics.specs.Rendezvous.{meeting_of};
ghost use Rattle.pfc_semantics.specs.Rewriting.{Doing, next};
ghost use Rattle.pfc_semantics.specs.Events.{step};
ghost use Rattle.pfc_semantics.specs.Time.{settled_config};
ghost use Rattle.pfc_accept_laws.specs.Displays.{first_display, AllGoBack, RequeuesInside};
ghost use Rattle.pfc_accept_laws.specs.Places.{IsBefore, IsLow, IsOfBlock, PlacesOpen, PlacesRemainder, PlacesAction, PlacesDoing};
ghost use Rattle.pfc_state.specs.Stands.{is_unfinished};
ghost use Rattle.pfc_world.specs.Tables.{at};
ghost use Rattle.pfc_accept_laws.specs.Placed.{AllPlaced, HasPlaces};
ghost use Rattle.pfc_accept_laws.specs.Shown.{ShowsOpen, IsToOffer, ShowsArguments, IsToAsk, ArePassed, AllPass, Passes, TakesVariables};

/// From the start on, while it settles, and behind each step of a process that has living activations, displays go back to those with which processes began. A
/// process that is in its first activation has that one.
pub fn first_displays_come_back()
    ensures start { (g : Program) (input : List ℕ) (seed : ℕ) → AllGoBack g (start g input seed) }
    ensures settles { (g : Program) (c : Config) → AllGoBack g c → AllGoBack g (settled_config c) }
    ensures steps { (g : Program) (c : Config) (p choice : ℕ) → AllGoBack g c → (activity_of g c p).activations ≢ [] → RequeuesInside g c p
        → AllGoBack g (step g c p choice).config }
    ensures first { (g : Program) (c : Config) (q : ℕ) (a : Activation) → AllGoBack g c → 0 < q → (activity_of g c q).activations ≡ a ∷ []
        → (activity_of g c q).display ≡ first_display g a.number (process_block g q) }
{}

/// Alternatives that a process shows behind a step it showed before, or it has just gone to offer them, in this step.
/// While it settles nobody begins to show any,
/// and nobody shows any at the start.
pub fn hands_show_what_was_offered()
    ensures start { (g : Program) (input : List ℕ) (seed q : ℕ) (x : Context) (os : List Open) (k : Remainder)
        → ShowsOpen g (start g input seed) q x os k → ⊥ }
    ensures settles { (g : Program) (c : Config) (q : ℕ) (x : Context) (os : List Open) (k : Remainder) → ShowsOpen g (settled_config c) q x os k
        → ShowsOpen g c q x os k }
    ensures steps { (g : Program) (c : Config) (p choice q : ℕ) (x : Context) (os : List Open) (k : Remainder)
        → ShowsOpen g (step g c p choice).config q x os k → ShowsOpen g c q x os k ⊎ ((q ≡ p) × IsToOffer g c p x os k) }
{}

/// Arguments that a process shows while it waits for an entry it showed before, waiting for it already, or it has
/// just called the entry with them, in this step.
/// While it settles nobody begins to show any, and nobody shows any at the start.
pub fn hands_show_what_was_asked()
    ensures start { (g : Program) (input : List ℕ) (seed q owner entry ticket : ℕ) (values : List Value)
        → ShowsArguments g (start g input seed) q owner entry ticket values → ⊥ }
    ensures settles { (g : Program) (c : Config) (q owner entry ticket : ℕ) (values : List Value)
        → ShowsArguments g (settled_config c) q owner entry ticket values → ShowsArguments g c q owner entry ticket values }
    ensures steps { (g : Program) (c : Config) (p choice q owner entry ticket : ℕ) (values : List Value)
        → ShowsArguments g (step g c p choice).config q owner entry ticket values
        → ShowsArguments g c q owner entry ticket values ⊎ ((q ≡ p) × IsToAsk g c p owner entry values) }
{}

/// So what callers that wait for an entry pass by reference is a location, where that is so of each call when it is
/// made. It is so where variables are given for
/// what the entry takes by reference.
pub fn callers_pass_locations()
    ensures given { (g : Program) (c : Config) (p q entry : ℕ) (given : List Argument) → TakesVariables g q entry given
        → ArePassed g q entry (all_passed g c p given) }
    ensures start { (g : Program) (input : List ℕ) (seed : ℕ) → AllPass g (start g input seed) }
    ensures settles { (g : Program) (c : Config) → AllPass g c → AllPass g (settled_config c) }
    ensures steps { (g : Program) (c : Config) (p choice : ℕ) → AllPass g c → Passes g c p → AllPass g (step g c p choice).config }
{}

/// What a process has still to do is placed where its statements stand before the scopes that they declare, and all
/// that is left behind them has no such scope in
/// view. So a process begins, so is its next action, and so is what it goes on with behind what it has offered; and
/// an accept that comes is one of the block, and
/// its parameters are in view neither there nor in what is left behind it.
pub fn accepts_stand_once()
    ensures begins { (b : Block) → IsBefore b.next b.env → stmts_scopes b.stmts ≡ b.accepts → PlacesRemainder b b.env (body_of b) }
    ensures next { (b : Block) (doing : Doing) → PlacesDoing b doing → PlacesAction b (next doing) }
    ensures behind { (b : Block) (x : Context) (o : Open) (k : Remainder) → PlacesOpen b x.env k o → PlacesRemainder b x.env k
        → PlacesRemainder b x.env (behind_open o k) }
    ensures meeting { (b : Block) (x : Context) (a : Accepting) (o : Open) (caller : ℕ) (k : Remainder) → o.offer ≡ to_accept a → PlacesOpen b x.env k o
        → PlacesRemainder b x.env k → PlacesRemainder b x.env (meeting_of x a o caller k) }
    ensures stands { (b : Block) (x : Context) (o : Open) (a : Accepting) (k : Remainder) → o.offer ≡ to_accept a → PlacesOpen b x.env k o
        → IsOfBlock b a.scope × IsBefore a.scope x.env × IsLow a.scope k }
{}

/// From the start on, while it settles, and behind each step of a process that has living activations and is not created anew, all processes are placed, where
/// the program has its statements so.
pub fn processes_stay_placed()
    ensures start { (g : Program) (input : List ℕ) (seed : ℕ) → HasPlaces g → AllPlaced g (start g input seed) }
    ensures settles { (g : Program) (c : Config) → HasPlaces g → AllPlaced g c → AllPlaced g (settled_config c) }
    ensures steps { (g : Program) (c : Config) (p choice : ℕ) → HasPlaces g → AllPlaced g c → is_unfinished (at c.table.rows p) ≡ true
        → (activity_of g c p).activations ≢ [] → RequeuesInside g c p → AllPlaced g (step g c p choice).config }
{}
