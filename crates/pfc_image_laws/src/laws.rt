//! The laws.
ghost use Rattle.std.specs.Prelude.{◌≡◌, ℕ, ◌+◌, ◌-◌, ◌<◌, length, drop, true, false, Some, None};
ghost use Rattle.std.specs.List.{All, last_or};
ghost use Rattle.pfc_tree.specs.trees.Parts.{ProgramTree};
ghost use Rattle.pfc_tree.specs.forget.Parts.{forget_program};
ghost use Rattle.pfc_tree.specs.lawful.Parts.{IsLawful};
ghost use Rattle.pfc_code.specs.declared.images.Block.{Block as CodeBlock};
ghost use Rattle.pfc_code.specs.declared.images.ProcessInfo.{ProcessInfo};
ghost use Rattle.pfc_types.specs.Blocks.{Blocks, module_at};
ghost use Rattle.pfc_semantics.specs.Layouts.{sub_with};
ghost use Rattle.pfc_semantics.specs.Objects.{of_kind, module_number};
ghost use Rattle.pfc_semantics.specs.Programs.{Program, Block, program_of};
ghost use Rattle.pfc_tree.specs.trees.Stmts.{StmtTree};
ghost use Rattle.pfc_translation.specs.Sites.{Site, level_of};
ghost use Rattle.pfc_translation.specs.Statements.{stmt_code};
ghost use Rattle.pfc_translation.specs.Images.{instructions, body_code, end_of, image_of};
ghost use Rattle.pfc_image_laws.specs.Instructions.{Each, Leads, GoesOn, NamesBlock, NamesText, StaysAbove, IsEnded, Opens};
ghost use Rattle.pfc_image_laws.specs.Levels.{IsReached};
ghost use Rattle.pfc_image_laws.specs.Layouts.{LaidOut};
ghost use Rattle.pfc_image_laws.specs.Modules.{modules_from};

/// The code of a statement, wherever it is put, before which so many strings stand in the text: it has as many instructions as it says. Each
/// of its jumps stays in it or leads to its end, and leads ahead, but for the turns of loops. No instruction ends a body. Each names a block
/// of the program, main's counted, or none; a string of the statement, or none; and follows no more static links than its block has.
pub fn statements_stay_within()
    ensures sizes { (s : Site) (n : ℕ) (t : StmtTree) (at strings : ℕ) → length ((stmt_code s n t).put at strings) ≡ (stmt_code s n t).size }
    ensures jumps { (s : Site) (n : ℕ) (t : StmtTree) (at strings : ℕ)
        → Each (Leads at (at + (stmt_code s n t).size)) at (instructions ((stmt_code s n t).put at strings)) }
    ensures ends { (s : Site) (n : ℕ) (t : StmtTree) (at strings : ℕ) → Each GoesOn at (instructions ((stmt_code s n t).put at strings)) }
    ensures blocks { (s : Site) (n : ℕ) (t : StmtTree) (at strings : ℕ)
        → Each (NamesBlock (length s.program.blocks + 1)) at (instructions ((stmt_code s n t).put at strings)) }
    ensures texts { (s : Site) (n : ℕ) (t : StmtTree) (at strings : ℕ)
        → Each (NamesText strings (strings + length (stmt_code s n t).texts)) at (instructions ((stmt_code s n t).put at strings)) }
    ensures levels { (s : Site) (n : ℕ) (t : StmtTree) (at strings : ℕ)
        → Each (StaysAbove (level_of s.program.state.blocks s.block)) at (instructions ((stmt_code s n t).put at strings)) }
    ensures alternatives { (s : Site) (n : ℕ) (t : StmtTree) (at strings : ℕ)
        → Opens (stmt_code s n t).arms 0 0 (instructions ((stmt_code s n t).put at strings)) }
{}

/// The code of a body, wherever it is put, before which so many strings stand in the text: a guard with its `GRD`, the statements, and the end.
/// It has as many instructions as it says. Each of its jumps stays in it. Its last instruction is the end of its block, and no other ends a
/// body. Each names a block of the program, main's counted, or none; a string of the body, or none; and follows no more static links than
/// its block has.
pub fn bodies_end()
    ensures sizes { (g : Program) (b : Block) (at strings : ℕ) → length ((body_code g b).put at strings) ≡ (body_code g b).size }
    ensures jumps { (g : Program) (b : Block) (at strings : ℕ)
        → Each (Leads at (at + (body_code g b).size - 1)) at (instructions ((body_code g b).put at strings)) }
    ensures ends { (g : Program) (b : Block) (at strings : ℕ) → IsEnded (instructions ((body_code g b).put at strings)) }
    ensures last { (g : Program) (b : Block) (at strings : ℕ)
        → last_or None (instructions ((body_code g b).put at strings)) ≡ Some (end_of (sub_with g.state.blocks.subs b.scope)) }
    ensures blocks { (g : Program) (b : Block) (at strings : ℕ) → Each (NamesBlock (length g.blocks + 1)) at (instructions ((body_code g b).put at strings)) }
    ensures texts { (g : Program) (b : Block) (at strings : ℕ)
        → Each (NamesText strings (strings + length (body_code g b).texts)) at (instructions ((body_code g b).put at strings)) }
    ensures levels { (g : Program) (b : Block) (at strings : ℕ)
        → Each (StaysAbove (level_of g.state.blocks b)) at (instructions ((body_code g b).put at strings)) }
{}

/// The code of an image is that of its blocks, one behind the other, with the turn of each resource's scan between blocks, at the address
/// that the image has for it, and main's last; each instruction has its line. There is a block for each body of the program, and one for
/// main; and each process has one of them.
pub fn images_are_laid_out()
    ensures layout { (t : ProgramTree) → LaidOut (image_of t) 0 0 (image_of t).blocks (image_of t).scans (image_of t).code }
    ensures lines { (t : ProgramTree) → length (image_of t).lines ≡ length (image_of t).code }
    ensures blocks { (t : ProgramTree) → length (image_of t).blocks ≡ length (program_of t).blocks + 1 }
    ensures processes { (t : ProgramTree) → All (λ (p : ProcessInfo). p.block < length (image_of t).blocks) (image_of t).processes }
    ensures alternatives { (t : ProgramTree) → Opens (image_of t).arms 0 0 (image_of t).code }
{}

/// Static links lead to the activation that holds the variables of a scope, as many as the image has: in a lawful program from each block, and
/// in any from the main body, for each scope in view in the body, the program's and each module's. In a lawful program initialising bodies
/// have main's level, so main's code in the image stays at the level of its block.
pub fn levels_are_reached()
    ensures blocks { (t : ProgramTree) → IsLawful (forget_program t) → All (λ (b : Block). IsReached (program_of t) b) (program_of t).blocks }
    ensures main { (t : ProgramTree) → IsReached (program_of t) (program_of t).main }
    ensures inits { (t : ProgramTree) → IsLawful (forget_program t)
        → All (λ (b : Block). level_of (program_of t).state.blocks b ≡ 0) (program_of t).modules }
    ensures main_code { (t : ProgramTree) → IsLawful (forget_program t) → (b : CodeBlock) → last_or None (image_of t).blocks ≡ Some b
        → Each (StaysAbove b.level) b.entry (drop b.entry (image_of t).code) }
{}

/// The modules of a lawful program are those among its parts, in the order of the text, each with its scope. The number of each is below the
/// number of all of its kind, which the image has: so many monitors, and as many resources as scans.
pub fn modules_are_numbered()
    ensures headings { (t : ProgramTree) → IsLawful (forget_program t) → (program_of t).state.blocks.modules ≡ modules_from 1 t.parts }
    ensures below { (b : Blocks) (n : ℕ) → n < length b.modules → module_number b n < of_kind (module_at b n).resource b.modules }
    ensures monitors { (t : ProgramTree) → (image_of t).monitors ≡ of_kind false (program_of t).state.blocks.modules }
    ensures resources { (t : ProgramTree) → IsLawful (forget_program t)
        → length (image_of t).scans ≡ of_kind true (program_of t).state.blocks.modules }
{}
