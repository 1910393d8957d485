//! The laws. The functions do nothing: their contracts are the laws.
ghost use Rattle.std.specs.Prelude.{◌≡◌, ◌+◌, ◌<◌, ◌≤◌, [], length};
ghost use Rattle.std.specs.List.{All};
ghost use Rattle.pfc_tree.specs.trees.Parts.{ProgramTree};
ghost use Rattle.pfc_tree.specs.forget.Parts.{forget_program};
ghost use Rattle.pfc_tree.specs.lawful.Parts.{IsLawful};
ghost use Rattle.pfc_types.specs.rules.Whole.{finished, broken};
ghost use Rattle.pfc_semantics.specs.Programs.{program_of};
ghost use Rattle.pfc_translation.specs.Images.{image_of};
ghost use Rattle.pfc_object_laws.specs.Mains.{AreOfMain};

/// In a lawful program the variables of the program and of its modules are no references, and those of modules hold no process.
pub fn names_are_of_main()
    ensures { (t : ProgramTree) → IsLawful (forget_program t) → AreOfMain (finished t) }
{}

/// Main's block takes no more cells than the rules allow.
pub fn main_takes_few_cells()
    ensures { (t : ProgramTree) → IsLawful (forget_program t) → broken t ≡ [] → (program_of t).main.cells ≤ 65536 }
{}

/// The image has as many processes as a machine holds, or fewer.
pub fn programs_have_few_processes()
    ensures { (t : ProgramTree) → IsLawful (forget_program t) → broken t ≡ [] → length (image_of t).processes ≤ 1024 }
{}

/// Each condition of the image is one of a monitor, and takes a cell of main's block.
pub fn conditions_are_of_monitors()
    ensures monitors { (t : ProgramTree) → IsLawful (forget_program t) → All (λ m. m < (image_of t).monitors) (image_of t).conditions }
    ensures few { (t : ProgramTree) → IsLawful (forget_program t) → length (image_of t).conditions ≤ (program_of t).main.cells }
{}

/// Semaphores, channels and conditions take cells of main's block, each one of its own.
pub fn objects_take_cells()
    ensures { (t : ProgramTree) → IsLawful (forget_program t)
        → (program_of t).objects.semaphores + (program_of t).objects.channels + length (program_of t).objects.conditions ≤ (program_of t).main.cells }
{}

/// An image has no more resources than instructions.
pub fn scans_are_instructions()
    ensures { (t : ProgramTree) → length (image_of t).scans ≤ length (image_of t).code }
{}
