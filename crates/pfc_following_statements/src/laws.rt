//! The laws. Each function does nothing; its contract is the law.
ghost use Rattle.pfc_semantics.specs.Programs.{Block};
ghost use Rattle.pfc_semantics.specs.Remainders.{Context};
ghost use Rattle.pfc_standing_code.specs.Settings.{Setting};
ghost use Rattle.pfc_following_statements.specs.Phrases.{AssignmentFollows, SendFollows, ReceiveFollows, WriteFollows, ReadFollows, CallFollows};
ghost use Rattle.pfc_following_statements.specs.Phrases.{ModuleCallFollows, RequeueFollows, ProcedureFollows, ActivationFollows, EntryCallFollows};
ghost use Rattle.pfc_following_statements.specs.Phrases.{EveryCallFollows};

/// The code of an assignment follows its next action: of a number, or of a whole array or record.
pub fn assignments_follow()
    ensures { (g : Setting) (b : Block) (x : Context) → AssignmentFollows g b x }
{}

/// So does that of a plain `!` and `?`, also over a channel of `synchronous`.
pub fn communication_follows()
    ensures sends { (g : Setting) (b : Block) (x : Context) → SendFollows g b x }
    ensures receives { (g : Setting) (b : Block) (x : Context) → ReceiveFollows g b x }
{}

/// So does that of `write`, `writeln`, `read` and `readln`.
pub fn output_and_input_follow()
    ensures output { (g : Setting) (b : Block) (x : Context) → WriteFollows g b x }
    ensures input { (g : Setting) (b : Block) (x : Context) → ReadFollows g b x }
{}

/// So does that of the call of a procedure, from inside or from outside its monitor or resource, and of a requeue.
pub fn calls_follow()
    ensures calls { (g : Setting) (b : Block) (x : Context) → CallFollows g b x }
    ensures exported { (g : Setting) (b : Block) (x : Context) → ModuleCallFollows g b x }
    ensures requeues { (g : Setting) (b : Block) (x : Context) → RequeueFollows g b x }
{}

/// So does that of every predeclared procedure, those of semaphores and conditions and `sleep` among them.
pub fn procedures_follow()
    ensures { (g : Setting) (b : Block) (x : Context) → ProcedureFollows g b x }
{}

/// So does that of the activation of a process, with its arguments, and of the call of an entry.
pub fn activations_follow()
    ensures activations { (g : Setting) (b : Block) (x : Context) → ActivationFollows g b x }
    ensures entries { (g : Setting) (b : Block) (x : Context) → EntryCallFollows g b x }
{}

/// So does that of every call: whatever the name is, and behind whatever selectors.
pub fn every_call_follows()
    ensures { (g : Setting) (b : Block) (x : Context) → EveryCallFollows g b x }
{}
