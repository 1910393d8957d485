//! The law.
ghost use Rattle.std.specs.Prelude.{◌≡◌, ◌≢◌, ℕ, true, List};
ghost use Rattle.pfc_state.specs.Stands.{Is_ready};
ghost use Rattle.pfc_world.specs.Tables.{at};
ghost use Rattle.pfc_semantics.specs.Displays.{Spot};
ghost use Rattle.pfc_semantics.specs.Programs.{Program};
ghost use Rattle.pfc_semantics.specs.Remainders.{Context, Remainder, resumes};
ghost use Rattle.pfc_semantics.specs.Configurations.{Config, start};
ghost use Rattle.pfc_semantics.specs.Events.{step};
ghost use Rattle.pfc_semantics.specs.Monitors.{is_inside};
ghost use Rattle.pfc_semantics.specs.Steps.{next_of};
ghost use Rattle.pfc_semantics.specs.Time.{settled_config};
ghost use Rattle.pfc_run_invariants.specs.Inputs.{AreBytes};
ghost use Rattle.pfc_inside_laws.specs.Inside.{IsMonitor, IsScoped, HasText, AreInside, IsAlive};

/// From the start on, while it settles, and behind each step of a ready process that has living activations, each child is inside each monitor whose text it
/// performs. So it is inside the monitor whose condition it names where it resumes.
pub fn who_performs_is_inside()
    ensures start { (g : Program) (input : List ℕ) (seed : ℕ) → IsScoped g → HasText g → AreBytes input → AreInside g (start g input seed) }
    ensures settles { (g : Program) (c : Config) → IsScoped g → AreInside g c → AreInside g (settled_config c) }
    ensures steps { (g : Program) (c : Config) (p choice : ℕ) → IsScoped g → HasText g → AreInside g c → at c.table.rows p ≡ Is_ready → IsAlive g c p
        → AreInside g (step g c p choice).config }
    ensures resumes { (g : Program) (c : Config) (p n : ℕ) (x : Context) (v : Spot) (k : Remainder) → IsScoped g → HasText g → AreInside g c
        → IsAlive g c p → p ≢ 0 → next_of g c p ≡ resumes x v k → IsMonitor g v.scope n → is_inside g c p n ≡ true }
{}
