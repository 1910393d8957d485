//! The laws.
ghost use Rattle.std.specs.Prelude.{◌≡◌, ℕ, ◌+◌, ◌<◌, ◌≤◌, List, [], length, slice_get, Some};
ghost use Rattle.pfc_code.specs.declared.images.Block.{Block as CodeBlock};
ghost use Rattle.pfc_tree.specs.trees.Parts.{ProgramTree};
ghost use Rattle.pfc_tree.specs.forget.Parts.{forget_program};
ghost use Rattle.pfc_tree.specs.lawful.Parts.{IsLawful};
ghost use Rattle.pfc_types.specs.Blocks.{sub_at, process_at};
ghost use Rattle.pfc_types.specs.declared.heads.Formal.{Formal};
ghost use Rattle.pfc_types.specs.rules.Expressions.{Env};
ghost use Rattle.pfc_types.specs.rules.Bodies.{around_guard};
ghost use Rattle.pfc_types.specs.rules.Whole.{finished, broken};
ghost use Rattle.pfc_semantics.specs.Programs.{Block, Guard, block_at, program_of};
ghost use Rattle.pfc_semantics.specs.Resources.{bar_of, scan_of, way_to, guarded_body};
ghost use Rattle.pfc_semantics.specs.Configurations.{body_of, main_remainder};
ghost use Rattle.pfc_translation.specs.Calls.{resource_of};
ghost use Rattle.pfc_translation.specs.Images.{site_in, image_of};
ghost use Rattle.pfc_standing_code.specs.Shapes.{a_number};
ghost use Rattle.pfc_standing_code.specs.Settings.{Setting, of_own, of_turn, IsInTrial, IsMains};
ghost use Rattle.pfc_standing_code.specs.Typed.{HasShape};
ghost use Rattle.pfc_standing_code.specs.TypedStatements.{AreTyped};
ghost use Rattle.pfc_standing_code.specs.Words.{IsChecked};
ghost use Rattle.pfc_standing_code.specs.Performs.{GuardAt, own_again, Performs};
ghost use Rattle.pfc_standing_images.specs.Images.{IsOfImage, IsOfBlock};
ghost use Rattle.pfc_standing_images.specs.Bodies.{requeued_body};
ghost use Rattle.pfc_typed_phrases.specs.Names.{left_behind, AreKnown};
ghost use Rattle.pfc_typed_structures.specs.Inside.{AreMet};
ghost use Rattle.pfc_typed_structures.specs.Accepts.{AllFit};
ghost use Rattle.pfc_typed_programs.specs.Bodies.{IsBody, guard_site, IsCallee, CalleeStands, IsSeen, AreSeen, EachGuardSeen};

/// The scope of each heading of a sub or a process is that of a block, which is called by its number, and whose first variables are the parameters.
pub fn headings_have_blocks()
    ensures subs { (t : ProgramTree) (n : ℕ) → IsLawful (forget_program t) → broken t ≡ [] → n < length (finished t).blocks.subs
        → IsCallee (program_of t) (sub_at (finished t).blocks n).scope (sub_at (finished t).blocks n).formals
        (left_behind (sub_at (finished t).blocks n).sort) }
    ensures processes { (t : ProgramTree) (n : ℕ) → IsLawful (forget_program t) → broken t ≡ [] → n < length (finished t).blocks.processes
        → IsCallee (program_of t) (process_at (finished t).blocks n).scope (process_at (finished t).blocks n).formals 0 }
{}

/// What is in view at each place of a body and in a guard is known, and so all statements of the body have the shapes that their code needs, and the
/// guard is a number.
pub fn bodies_are_typed()
    ensures names { (t : ProgramTree) (b : Block) → IsLawful (forget_program t) → broken t ≡ [] → IsBody t b → AreMet (site_in (program_of t) b) }
    ensures statements { (t : ProgramTree) (b : Block) → IsLawful (forget_program t) → broken t ≡ [] → IsBody t b
        → AreTyped (site_in (program_of t) b) b.next b.stmts }
    ensures guard_names { (t : ProgramTree) (b : Block) (guard : Guard) → IsLawful (forget_program t) → broken t ≡ [] → IsBody t b
        → b.guard ≡ Some guard → AreKnown (guard_site (program_of t) b guard) }
    ensures guards { (t : ProgramTree) (b : Block) (guard : Guard) → IsLawful (forget_program t) → broken t ≡ [] → IsBody t b → b.guard ≡ Some guard
        → HasShape (guard_site (program_of t) b guard) guard.test a_number }
{}

/// The types and blocks that are known in a body and in a guard are the program's, and the rules know a guard as one of the resource around its procedure.
/// Whoever sees the variables and objects in view at such a place, in a scan those in a guard, has all that is asked of the names there.
pub fn names_are_checked()
    ensures bodies { (t : ProgramTree) (b : Block) → IsLawful (forget_program t) → broken t ≡ [] → IsBody t b → b.env.state ≡ finished t }
    ensures guards { (t : ProgramTree) (b : Block) (guard : Guard) → IsLawful (forget_program t) → broken t ≡ [] → IsBody t b → b.guard ≡ Some guard
        → guard.env.state ≡ finished t }
    ensures places { (t : ProgramTree) (b : Block) (guard : Guard) → IsLawful (forget_program t) → broken t ≡ [] → IsBody t b → b.guard ≡ Some guard
        → guard.env.around ≡ around_guard b.outer }
    ensures seen { (t : ProgramTree) (g : Setting) (b : Block) (env : Env) → IsOfImage t g → env.state ≡ finished t → IsInTrial g.trial env
        → IsSeen g b env → IsChecked g b env }
{}

/// In each setting of the image of a lawful program in which no static rule is broken the code of a block performs its body, for whoever sees what is
/// in view there: from the address of the body the body alone, from the entry of its block the guard before it, and from the turn of the resource's
/// scan on, behind a requeue, the scan before both. Main's code performs the initialising bodies before the main body.
pub fn checked_bodies_are_performed()
    ensures bodies { (t : ProgramTree) (g : Setting) (k : ℕ) (b : Block) (c : CodeBlock) → IsLawful (forget_program t) → broken t ≡ []
        → IsOfImage t g → slice_get g.program.blocks k ≡ Some b → slice_get (image_of t).blocks k ≡ Some c → IsOfBlock g b c → g.trial ≡ of_own
        → g.meetings ≡ [] → g.accepts ≡ [] → IsSeen g b b.env → Performs g b b.env c.body g.under [] (body_of b) }
    ensures guards { (t : ProgramTree) (g : Setting) (k held : ℕ) (b : Block) (c : CodeBlock) (guard : Guard) → IsLawful (forget_program t)
        → broken t ≡ [] → IsOfImage t g → slice_get g.program.blocks k ≡ Some b → slice_get (image_of t).blocks k ≡ Some c → b.guard ≡ Some guard
        → held + c.operands ≤ g.room → IsSeen g b guard.env
        → GuardAt g b (bar_of g.program (resource_of (site_in g.program b)) b guard) c.entry held (λ end. end ≡ c.body) }
    ensures trials { (t : ProgramTree) (g : Setting) (k held : ℕ) (b : Block) (c : CodeBlock) (guard : Guard) → IsLawful (forget_program t)
        → broken t ≡ [] → IsOfImage t g → slice_get g.program.blocks k ≡ Some b → slice_get (image_of t).blocks k ≡ Some c → b.guard ≡ Some guard
        → held + c.operands ≤ g.room → IsSeen g b guard.env
        → (turn : ℕ) × (slice_get (image_of t).scans (resource_of (site_in g.program b)) ≡ Some turn)
        × GuardAt g b (bar_of g.program (resource_of (site_in g.program b)) b guard) c.entry held (λ end. end ≤ turn) }
    ensures guarded { (t : ProgramTree) (g : Setting) (k : ℕ) (b : Block) (c : CodeBlock) → IsLawful (forget_program t) → broken t ≡ []
        → IsOfImage t g → slice_get g.program.blocks k ≡ Some b → slice_get (image_of t).blocks k ≡ Some c → IsOfBlock g b c → g.trial ≡ of_own
        → g.meetings ≡ [] → g.accepts ≡ [] → EachGuardSeen g b b.guard → IsSeen g b b.env
        → Performs g b b.env c.entry g.under [] (guarded_body g.program (resource_of (site_in g.program b)) b b.guard) }
    ensures requeues { (t : ProgramTree) (g : Setting) (k at : ℕ) (b : Block) (c : CodeBlock) (env : Env) → IsLawful (forget_program t)
        → broken t ≡ [] → IsOfImage t g → slice_get g.program.blocks k ≡ Some b → slice_get (image_of t).blocks k ≡ Some c → IsOfBlock g b c
        → (let r = resource_of (site_in g.program b) in g.trial ≡ of_turn (scan_of g.program r (way_to g.program r b b.guard)) c.entry)
        → g.block ≡ b → g.meetings ≡ [] → (own_again g).accepts ≡ [] → slice_get (image_of t).scans (resource_of (site_in g.program b)) ≡ Some at
        → EachGuardSeen (own_again g) b b.guard → IsSeen (own_again g) b b.env
        → Performs g b env at g.under [] (requeued_body g.program (resource_of (site_in g.program b)) b) }
    ensures main { (t : ProgramTree) (g : Setting) (b : Block) (c : CodeBlock) (env : Env) → IsLawful (forget_program t) → broken t ≡ []
        → IsOfImage t g → IsMains g b → slice_get (image_of t).blocks (length g.program.blocks) ≡ Some c → g.trial ≡ of_own → g.meetings ≡ []
        → g.accepts ≡ [] → IsOfBlock g g.program.main c → AreSeen g g.program.modules → IsSeen g g.program.main g.program.main.env →
        Performs g b env c.entry g.under [] (main_remainder g.program) }
{}

/// The block that code calls by the number of a heading's scope is in the image, takes the cells of the parameters, and its code performs the body of
/// the block with this scope.
pub fn called_blocks_stand()
    ensures { (t : ProgramTree) (g : Setting) (scope left : ℕ) (formals : List Formal) → IsLawful (forget_program t) → broken t ≡ [] → IsOfImage t g
        → IsCallee (program_of t) scope formals left → (c : CodeBlock) × CalleeStands t g scope formals c }
{}

/// Each accept in the body of a process names an entry of this process, and the names of the accept's own scope are the parameters of that entry: in the
/// same order, of the same types, by value or by reference alike.
pub fn accepts_have_entries()
    ensures { (t : ProgramTree) (n : ℕ) → IsLawful (forget_program t) → broken t ≡ [] → n < length (finished t).blocks.processes
        → (let b = block_at (program_of t) (process_at (finished t).blocks n).scope in AllFit (finished t).blocks n b.env.view b.next b.stmts) }
{}
