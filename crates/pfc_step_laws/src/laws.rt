//! The law. The function does nothing: its contract is the law.
ghost use Rattle.std.specs.Prelude.{◌+◌, ◌*◌, ◌<◌, ◌≤◌, ℕ};
ghost use Rattle.pfc_tree.specs.trees.Parts.{ProgramTree};
ghost use Rattle.pfc_tree.specs.forget.Parts.{forget_program};
ghost use Rattle.pfc_tree.specs.lawful.Parts.{IsLawful};
ghost use Rattle.pfc_sched.specs.Picks.{Picking};
ghost use Rattle.pfc_translation.specs.Images.{image_of};
ghost use Rattle.pfc_machines.specs.declared.machine.Machine.{Machine};
ghost use Rattle.pfc_machine_acts.specs.Acting.{MayAct};
ghost use Rattle.pfc_machine_acts.specs.Running.{QuietRun};
ghost use Rattle.pfc_step_laws.specs.Nodes.{largest_body};

use pfc_image_laws::images_are_laid_out;
use pfc_image_numbers::numbers_are_there;

/// In the image of a lawful program, on any machine, a process goes through at most twice as many quiet instructions, one behind the other, as the largest
/// body of the text has nodes. So an action, with the quiet instructions before it and its own, takes at most 8 more than that. A replicated alternative has
/// one copy of its code for each of its values, but each copy begins with an action; so it counts once.
pub fn actions_take_few_instructions()
    ensures quiet { (t : ProgramTree) (p n : ℕ) (m m' : Machine) → IsLawful (forget_program t) → QuietRun (image_of t) p n m m' → n ≤ 2 * largest_body t }
    ensures actions { (t : ProgramTree) (picking : Picking) (p : ℕ) (m : Machine) → IsLawful (forget_program t) → (may : MayAct (image_of t) picking p m)
        → may.count + 1 ≤ 2 * largest_body t + 8 }
{
    images_are_laid_out();
    numbers_are_there();
}
