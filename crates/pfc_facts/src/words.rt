//! Literals, and simple types.
ghost use Rattle.std.specs.Prelude.{◌≡◌, option_map};
ghost use Rattle.pfc_tree.specs.views.Exprs.{expr_view};
ghost use Rattle.pfc_semantics.specs.Expressions as expressions;
ghost use Rattle.pfc_semantics.specs.Operators as operators;
ghost use Rattle.pfc_semantics.specs.Statements as statements;

use pfc_base::Text;
use pfc_phrases::{as_literal, is_char};
use pfc_tree::Expr;
use pfc_types::TypeId;
use pfc_values::Simple;

/// The char that a literal is, by its ordinal: its first byte.
pub fn char_in(text: &[u8]) -> i32
    ensures { result ≡ expressions.char_in text.now }
{
    match text {
        [first, ..] => *first as i32,
        [] => 0,
    }
}

/// The string that an expression is: a literal of length other than 1.
pub fn as_string(e: &Expr) -> Option<&Text>
    ensures { option_map (λ x. x.now) result ≡ statements.as_string (expr_view e.now) }
{
    let text = as_literal(e)?;
    if is_char(text.bytes()) {
        None
    } else {
        Some(text)
    }
}

/// The simple type that a type is: `integer` and `boolean` by their places, any other counts as `char`, and a faulty one as `integer`.
pub fn simple_of(t: Option<TypeId>) -> Simple
    ensures { result ≡ operators.simple_of t }
{
    match t {
        None => Simple::Integer,
        Some(t) => {
            if t.place == 0 {
                Simple::Integer
            } else if t.place == 1 {
                Simple::Boolean
            } else {
                Simple::Char
            }
        }
    }
}
