//! Operators and selectors: what they make of the types of their parts, and the rules between these.
ghost use Rattle.std.specs.Prelude.{◌≡◌, option_map};
ghost use Rattle.pfc_tree.specs.views.Exprs.{expr_view};
ghost use Rattle.pfc_types.specs.Types as table;
ghost use Rattle.pfc_types.specs.Faults.{◌⨾◌};
ghost use Rattle.pfc_types.specs.rules.Kinds as kinds;
ghost use Rattle.pfc_types.specs.rules.Expressions as expressions;
ghost use Rattle.pfc_phrases.specs.Found.{noted, refused};
ghost use Rattle.pfc_phrases.specs.Views.{env_view};

use crate::{
    Best, agree, fault_unless, has, has_simple, may_agree, may_be_simple, may_have, value_fault,
    where_so,
};
use pfc_base::{Name, Place, Refusal};
use pfc_tree::{AddOp, MulOp, Sign};
use pfc_types::{TypeForm, TypeId, TypeTable};

/// `+` and `-` take integers, and `or` takes booleans.
pub fn add_operand(op: AddOp) -> TypeId
    ensures { result ≡ expressions.add_operand op }
{
    match op {
        AddOp::Add | AddOp::Sub => TypeId::INTEGER,
        AddOp::Or => TypeId::BOOLEAN,
    }
}

/// `*`, `div` and `mod` take integers, and `and` takes booleans.
pub fn mul_operand(op: MulOp) -> TypeId
    ensures { result ≡ expressions.mul_operand op }
{
    match op {
        MulOp::Mul | MulOp::Div | MulOp::Mod => TypeId::INTEGER,
        MulOp::And => TypeId::BOOLEAN,
    }
}

/// 311: an operator's operands have its type; at the operator. It gives a value of that type.
pub(crate) fn operated(
    t: TypeId,
    a: Option<TypeId>,
    b: Option<TypeId>,
    place: Place,
    best: &mut Best,
) -> Option<TypeId>
    ensures t { result ≡ expressions.operated t a b }
    ensures best { best.new ≡ noted best.old (expressions.operator_rule t a b place) }
{
    best.unless(may_have(t, a) && may_have(t, b), place, 311);
    where_so(has(t, a) && has(t, b), t)
}

/// 311: a sign stands before an integer; at the sign.
pub(crate) fn signed(
    sign: Option<(Sign, Place)>,
    t: Option<TypeId>,
    best: &mut Best,
) -> Option<TypeId>
    ensures t { result ≡ expressions.signed_type sign t }
    ensures best { best.new ≡ noted best.old (expressions.signed_rule sign t) }
{
    let Some((_, place)) = sign else { return t };
    best.unless(may_have(TypeId::INTEGER, t), place, 311);
    where_so(has(TypeId::INTEGER, t), TypeId::INTEGER)
}

/// 311: a relation compares two values of one simple type; at the operator. 406: no object type is compared; at the operand.
pub(crate) fn related(
    types: &TypeTable,
    a: (Option<TypeId>, Place),
    b: (Option<TypeId>, Place),
    place: Place,
    best: &mut Best,
) -> Option<TypeId>
    ensures t { result ≡ expressions.related_type a.0 b.0 }
    ensures best { best.new ≡ noted best.old
        (expressions.relation_rule a.0 b.0 place ⨾ kinds.value_rule types.now a.0 a.1 ⨾ kinds.value_rule types.now b.0 b.1) }
{
    let comparable = may_be_simple(a.0) && may_be_simple(b.0) && may_agree(a.0, b.0);
    best.unless(comparable, place, 311);
    best.add(value_fault(types, a.0, a.1));
    best.add(value_fault(types, b.0, b.1));
    where_so(has_simple(a.0) && agree(a.0, b.0), TypeId::BOOLEAN)
}

/// The type of an index and of an element, where a type is an array.
fn array_types(types: &TypeTable, t: TypeId) -> Option<(TypeId, TypeId)>
    ensures { result ≡ table.array_form (table.form_of types.now t) }
{
    match types.form(t)? {
        TypeForm::Array {
            index,
            low: _,
            high: _,
            element,
        } => Some((*index, *element)),
        _ => None,
    }
}

/// The type of an element, whose index has the type i.
pub fn element(types: &TypeTable, t: Option<TypeId>, i: Option<TypeId>) -> Option<TypeId>
    ensures { result ≡ expressions.element_type types.now t i }
{
    let (index, element) = array_types(types, t?)?;
    where_so(has(index, i), element)
}

/// 314: what is indexed is an array, and the index has its bounds' type; at `[`.
pub(crate) fn index_fault(
    types: &TypeTable,
    t: Option<TypeId>,
    i: Option<TypeId>,
    place: Place,
) -> Option<Refusal>
    ensures { refused result ≡ expressions.index_rule types.now t i place }
{
    match array_types(types, t?) {
        Some((index, _)) => fault_unless(may_have(index, i), place, 314),
        None => fault_unless(false, place, 314),
    }
}

/// The type of a field of a record.
pub fn field_type(types: &TypeTable, t: Option<TypeId>, name: &Name) -> Option<TypeId>
    ensures { result ≡ expressions.field_type types.now t name.now }
{
    match types.form(t?)? {
        TypeForm::Record(fields) => fields.find(name),
        _ => None,
    }
}

/// 315: what stands behind `.` is a field of the record; at the name. It gives the field's type.
pub(crate) fn field(
    types: &TypeTable,
    t: Option<TypeId>,
    name: &Name,
    place: Place,
    best: &mut Best,
) -> Option<TypeId>
    ensures t { result ≡ expressions.field_type types.now t name.now }
    ensures best { best.new ≡ noted best.old (expressions.field_rule types.now t name.now place) }
{
    let found = field_type(types, t, name);
    best.unless(t.is_none() || found.is_some(), place, 315);
    found
}
