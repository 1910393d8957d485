//! The laws. Each function does nothing; its contract is the law.
ghost use Rattle.std.specs.Prelude.{◌≡◌, ℕ, ◌+◌, ◌≤◌, List, [], length, get_or, slice_get, Option, Some};
ghost use Rattle.pfc_code.specs.declared.images.Block.{Block as CodeBlock};
ghost use Rattle.pfc_code.specs.declared.instructions.Instr.TheVariants.{SCAN};
ghost use Rattle.pfc_tree.specs.trees.Parts.{ProgramTree};
ghost use Rattle.pfc_tree.specs.forget.Parts.{forget_program};
ghost use Rattle.pfc_tree.specs.lawful.Parts.{IsLawful};
ghost use Rattle.pfc_types.specs.rules.Expressions.{Env};
ghost use Rattle.pfc_semantics.specs.Programs.{Block, Guard, Program, block_at, block_number, program_of};
ghost use Rattle.pfc_semantics.specs.Resources.{bar_of, scan_of, way_to, guarded_body};
ghost use Rattle.pfc_semantics.specs.Configurations.{body_of, main_remainder};
ghost use Rattle.pfc_translation.specs.Codes.{Code};
ghost use Rattle.pfc_translation.specs.Calls.{resource_of};
ghost use Rattle.pfc_translation.specs.Images.{site_in, image_of};
ghost use Rattle.pfc_standing_code.specs.Settings.{Setting, of_own, of_turn, IsAt, Stands, IsMains};
ghost use Rattle.pfc_standing_code.specs.Performs.{GuardAt, own_again, Performs};
ghost use Rattle.pfc_standing_images.specs.Images.{IsOfImage, IsOfBlock, HasPhrase, BlockStands, MainStands};
ghost use Rattle.pfc_standing_images.specs.Bodies.{requeued_body, IsReady, AreReady, IsGuardReady, EachGuardReady};

/// The blocks of an image are those of its program, in the same order, and main's behind them: each with its code at its addresses. The number
/// by which code names the block of a scope, where there is one, is its place in that order. At the address that the
/// image has for the scan of a resource stands its turn, with the line of the resource's final `end`.
pub fn blocks_stand()
    ensures blocks { (t : ProgramTree) (g : Setting) (k : ℕ) (b : Block) (c : CodeBlock) → IsOfImage t g
        → slice_get g.program.blocks k ≡ Some b → slice_get (image_of t).blocks k ≡ Some c → BlockStands g b c }
    ensures numbers { (p : Program) (i k : ℕ) (b : Block) → slice_get p.blocks k ≡ Some b → b.scope ≡ i
        → slice_get p.blocks (block_number p i) ≡ Some (block_at p i) }
    ensures main { (t : ProgramTree) (g : Setting) (c : CodeBlock) → IsOfImage t g
        → slice_get (image_of t).blocks (length g.program.blocks) ≡ Some c → MainStands g c }
    ensures scans { (t : ProgramTree) (g : Setting) (r at : ℕ) → IsOfImage t g
        → slice_get (image_of t).scans r ≡ Some at → IsAt g at (SCAN r) (get_or g.program.resource_ends r 0) }
    ensures resources { (t : ProgramTree) → length (image_of t).scans ≡ length (program_of t).resource_ends }
{}

/// A phrase of a block holds no more operands over what is held before it than the block has room for.
pub fn operands_have_room()
    ensures { (g : Setting) (c : CodeBlock) (at n held : ℕ) (code : Code) → HasPhrase g c at n code → held + c.operands ≤ g.room
        → Stands g at n held code }
{}

/// Where a body has shapes as the static rules make them, its code performs it: from the address of the body the body alone, from the entry of
/// its block the guard before it, and from the turn of the resource's scan on, behind a requeue, the scan before both. In a lawful program that
/// turn stands behind the guard. Main's code performs the initialising bodies before the main body.
pub fn bodies_are_performed()
    ensures bodies { (t : ProgramTree) (g : Setting) (k : ℕ) (b : Block) (c : CodeBlock) → IsOfImage t g
        → slice_get g.program.blocks k ≡ Some b → slice_get (image_of t).blocks k ≡ Some c → IsOfBlock g b c → g.trial ≡ of_own → g.meetings ≡ [] → IsReady g b
        → Performs g b b.env c.body g.under [] (body_of b) }
    ensures guards { (t : ProgramTree) (g : Setting) (k held : ℕ) (b : Block) (c : CodeBlock) (guard : Guard) → IsOfImage t g
        → slice_get g.program.blocks k ≡ Some b → slice_get (image_of t).blocks k ≡ Some c → b.guard ≡ Some guard
        → held + c.operands ≤ g.room → IsGuardReady g b guard
        → GuardAt g b (bar_of g.program (resource_of (site_in g.program b)) b guard) c.entry held (λ end. end ≡ c.body) }
    ensures trials { (t : ProgramTree) (g : Setting) (k held : ℕ) (b : Block) (c : CodeBlock) (guard : Guard) → IsLawful (forget_program t)
        → IsOfImage t g → slice_get g.program.blocks k ≡ Some b → slice_get (image_of t).blocks k ≡ Some c → b.guard ≡ Some guard
        → held + c.operands ≤ g.room → IsGuardReady g b guard
        → (turn : ℕ) × (slice_get (image_of t).scans (resource_of (site_in g.program b)) ≡ Some turn)
        × GuardAt g b (bar_of g.program (resource_of (site_in g.program b)) b guard) c.entry held (λ end. end ≤ turn) }
    ensures guarded { (t : ProgramTree) (g : Setting) (k : ℕ) (b : Block) (c : CodeBlock) → IsOfImage t g
        → slice_get g.program.blocks k ≡ Some b → slice_get (image_of t).blocks k ≡ Some c → IsOfBlock g b c → g.trial ≡ of_own
        → g.meetings ≡ [] → EachGuardReady g b b.guard → IsReady g b
        → Performs g b b.env c.entry g.under [] (guarded_body g.program (resource_of (site_in g.program b)) b b.guard) }
    ensures requeues { (t : ProgramTree) (g : Setting) (k at : ℕ) (b : Block) (c : CodeBlock) (env : Env) → IsOfImage t g
        → slice_get g.program.blocks k ≡ Some b → slice_get (image_of t).blocks k ≡ Some c → IsOfBlock g b c
        → (let r = resource_of (site_in g.program b) in g.trial ≡ of_turn (scan_of g.program r (way_to g.program r b b.guard)) c.entry)
        → g.block ≡ b → g.meetings ≡ []
        → slice_get (image_of t).scans (resource_of (site_in g.program b)) ≡ Some at
        → EachGuardReady (own_again g) b b.guard → IsReady (own_again g) b
        → Performs g b env at g.under [] (requeued_body g.program (resource_of (site_in g.program b)) b) }
    ensures main { (t : ProgramTree) (g : Setting) (b : Block) (c : CodeBlock) (env : Env) → IsOfImage t g → IsMains g b
        → slice_get (image_of t).blocks (length g.program.blocks) ≡ Some c → g.trial ≡ of_own → g.meetings ≡ []
        → IsOfBlock g g.program.main c
        → AreReady g g.program.modules → IsReady g g.program.main → Performs g b env c.entry g.under [] (main_remainder g.program) }
{}
