//! The laws. The functions do nothing: their contracts are the laws.
ghost use Rattle.pfc_semantics.specs.Programs.{Block};
ghost use Rattle.pfc_semantics.specs.Remainders.{Context};
ghost use Rattle.pfc_standing_code.specs.Settings.{Setting};
ghost use Rattle.pfc_following_source.specs.selects.Phrases.{AlternativesFollow, OpeningFollows, SelectFollows, SelectElseFollows, BranchPerforms};
ghost use Rattle.pfc_following_source.specs.selects.Phrases.{MeetingPerforms};
ghost use Rattle.pfc_types.specs.rules.Expressions.{Env};
ghost use Rattle.pfc_following_source.specs.structures.Left.{UntilFollows, PassFollows, PassEndFollows, ReplicaFollows, RemainderFollows};
ghost use Rattle.pfc_following_source.specs.structures.Structured.{NothingFollows, BlockFollows, ListFollows, IfFollows, IfElseFollows, CaseFollows};
ghost use Rattle.pfc_following_source.specs.structures.Structured.{ArmListFollows, WhileFollows, RepeatFollows, ForeverFollows, ForFollows, CobeginFollows};
ghost use Rattle.pfc_following_source.specs.structures.Structured.{AcceptFollows, AssignFollows, SendsFollow, ReceivesFollow, CallsFollow, RequeuesFollow};
ghost use Rattle.pfc_following_source.specs.structures.Structured.{SelectStatementsFollow, EveryStatementFollows, EveryListFollows};
ghost use Rattle.pfc_following_source.specs.awaits.Awaited.{ValuesFollow, LocationsFollow};
ghost use Rattle.pfc_following_source.specs.Source.{CodeFollowsSource};
ghost use Rattle.pfc_following_source.specs.Behind.{ActionsLeadOn, MeetingsLeadOn};

/// Where alternatives stand, with those before them that were found open, quiet instructions lead to the action that comes next
/// in them: the write of a replicated one, what comes in a guard or in what an open one waits for, the fault of its seconds, or
/// the decision over all that are open. So does the code of one whose variable was written.
pub fn alternatives_follow()
    ensures alternatives { (g : Setting) (b : Block) (x : Context) → AlternativesFollow g b x }
    ensures written { (g : Setting) (b : Block) (x : Context) → OpeningFollows g b x }
{}

/// So does the code of a whole select, with an `else` part or without, `pri` or not.
pub fn selects_follow()
    ensures without_else { (g : Setting) (b : Block) (x : Context) → SelectFollows g b x }
    ensures with_else { (g : Setting) (b : Block) (x : Context) → SelectElseFollows g b x }
{}

/// The branch of an alternative that is taken performs what is left behind it; that of an accept the meeting.
pub fn branches_lead_on()
    ensures branch { (g : Setting) (b : Block) (x : Context) → BranchPerforms g b x }
    ensures meeting { (g : Setting) (b : Block) (x : Context) → MeetingPerforms g b x }
{}

/// Statements one behind the other follow their next action where each of them does; where there is none, on goes what is behind.
pub fn lists_follow()
    ensures nothing { (g : Setting) (b : Block) (env : Env) → NothingFollows g b env }
    ensures list { (g : Setting) (b : Block) (env : Env) → ListFollows g b env }
    ensures compound { (g : Setting) (b : Block) (env : Env) → BlockFollows g b env }
{}

/// So does an `if`, with or without `else`.
pub fn if_statements_follow()
    ensures without_else { (g : Setting) (b : Block) (env : Env) → IfFollows g b env }
    ensures with_else { (g : Setting) (b : Block) (env : Env) → IfElseFollows g b env }
{}

/// So does a `case`: its tests lead to the arm that has the value among its labels, or to the fault of a value that none has.
pub fn case_statements_follow()
    ensures statement { (g : Setting) (b : Block) (env : Env) → CaseFollows g b env }
    ensures arms { (g : Setting) (b : Block) (env : Env) → ArmListFollows g b env }
{}

/// So does a loop with a test or with none.
pub fn loops_follow()
    ensures while_loops { (g : Setting) (b : Block) (env : Env) → WhileFollows g b env }
    ensures repeat_loops { (g : Setting) (b : Block) (env : Env) → RepeatFollows g b env }
    ensures endless_loops { (g : Setting) (b : Block) (env : Env) → ForeverFollows g b env }
{}

/// So does a `for`: its bounds, and its first pass or none.
pub fn for_statements_follow()
    ensures { (g : Setting) (b : Block) (env : Env) → ForFollows g b env }
{}

/// So does a `cobegin`, with its `coend`.
pub fn cobegins_follow()
    ensures { (g : Setting) (b : Block) (env : Env) → CobeginFollows g b env }
{}

/// So does a plain `accept`.
pub fn accepts_follow()
    ensures { (g : Setting) (b : Block) (env : Env) → AcceptFollows g b env }
{}

/// So does each statement that holds none: an assignment, a plain `!` or `?`, a call and a requeue.
pub fn single_statements_follow()
    ensures assignments { (g : Setting) (b : Block) (env : Env) → AssignFollows g b env }
    ensures sends { (g : Setting) (b : Block) (env : Env) → SendsFollow g b env }
    ensures receives { (g : Setting) (b : Block) (env : Env) → ReceivesFollow g b env }
    ensures calls { (g : Setting) (b : Block) (env : Env) → CallsFollow g b env }
    ensures requeues { (g : Setting) (b : Block) (env : Env) → RequeuesFollow g b env }
{}

/// So does a select, with an `else` part or without.
pub fn select_statements_follow()
    ensures { (g : Setting) (b : Block) (env : Env) → SelectStatementsFollow g b env }
{}

/// Every statement follows its next action, and so do statements one behind the other.
pub fn every_statement_follows()
    ensures statement { (g : Setting) (b : Block) (env : Env) → EveryStatementFollows g b env }
    ensures list { (g : Setting) (b : Block) (env : Env) → EveryListFollows g b env }
{}

/// What stands in a loop behind its statements follows its next action, and so does the write of a replicated alternative.
pub fn ends_of_passes_follow()
    ensures until { (g : Setting) (b : Block) (env : Env) → UntilFollows g b env }
    ensures next { (g : Setting) (b : Block) (env : Env) → PassFollows g b env }
    ensures end { (g : Setting) (b : Block) (env : Env) → PassEndFollows g b env }
    ensures replicated { (g : Setting) (b : Block) (env : Env) → ReplicaFollows g b env }
{}

/// What is left behind a statement follows its next action, whatever it is: also while a select is gone through, and while a guard of a
/// resource is tried, the own one or that of another process.
pub fn remainders_follow()
    ensures { (g : Setting) → RemainderFollows g }
{}

/// Where code takes a value, and the value is on top, quiet instructions lead to the action that comes next for what waits for it,
/// whatever that is: an operator, an index, an argument, a statement, an alternative of a select, or a guard of a resource.
pub fn values_follow()
    ensures { (g : Setting) (b : Block) (x : Context) → ValuesFollow g b x }
{}

/// The same of the address of a variable.
pub fn locations_follow()
    ensures { (g : Setting) (b : Block) (x : Context) → LocationsFollow g b x }
{}

/// Where code stands for what a process has still to do, before a statement or with a value for an expression, some quiet
/// instructions lead to the instruction of the action that comes next, whose operands are on top: no more of them than addresses
/// lie between, so fewer than the code has instructions.
pub fn code_follows_source()
    ensures { (g : Setting) → CodeFollowsSource g }
{}

/// Behind the instruction of an action code stands for what is left then.
pub fn actions_lead_on()
    ensures { (g : Setting) → ActionsLeadOn g }
{}

/// So at a meeting, where what it makes seen agrees with what was seen on all names outside the accept: only those in the accept are to be known
/// anew.
pub fn meetings_lead_on()
    ensures { (g : Setting) → MeetingsLeadOn g }
{}
