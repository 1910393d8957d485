//! The laws. Each function does nothing; its contract is the law.
ghost use Rattle.pfc_semantics.specs.Programs.{Block};
ghost use Rattle.pfc_semantics.specs.Remainders.{Context};
ghost use Rattle.pfc_standing_code.specs.Settings.{Setting};
ghost use Rattle.pfc_following_expressions.specs.Phrases.{ExpressionFollows, VariableFollows, ArgumentsFollow};

/// Where the code of an expression stands, and behind it code that takes its value, quiet instructions lead to the action
/// that comes next in the expression, or on with the number that it is.
pub fn expressions_follow()
    ensures { (g : Setting) (b : Block) (x : Context) → ExpressionFollows g b x }
{}

/// The same of a variable with its selectors, and the code that takes its address.
pub fn variables_follow()
    ensures { (g : Setting) (b : Block) (x : Context) → VariableFollows g b x }
{}

/// The same of the arguments of a call of any kind: quiet instructions lead to the action that comes next in them, or to the
/// call, over all arguments.
pub fn arguments_follow()
    ensures { (g : Setting) (b : Block) (x : Context) → ArgumentsFollow g b x }
{}
