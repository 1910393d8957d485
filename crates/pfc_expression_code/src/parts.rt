//! The types of parts, and where the fields of a record lie.
ghost use Rattle.std.specs.Prelude.{◌≡◌, ◌≤◌, length, IfOk, IfErr};
ghost use Rattle.pfc_emit.specs.declared.emitter.EmitFault.TheVariants.{Memory as NoMemory};
ghost use Rattle.pfc_tree.specs.views.Exprs.{exprs_view};
ghost use Rattle.pfc_translation.specs.Sites as sites;
ghost use Rattle.pfc_translation.specs.Addresses as addresses;
ghost use Rattle.pfc_semantics.specs.Expressions.{form_in};

use pfc_base::Name;
use pfc_code::Instr;
use pfc_emit::EmitFault;
use pfc_tree::Expr;
use pfc_types::{Fields, TypeForm, TypeId, TypeTable, cells_of};

/// How many cells a value of a type takes.
pub fn type_cells(types: &TypeTable, t: Option<TypeId>) -> u32
    ensures { result ≡ sites.type_cells types.now t }
{
    match t {
        Some(t) => cells_of(types, t),
        None => 1,
    }
}

/// The type of an element.
pub(crate) fn element_in(types: &TypeTable, t: Option<TypeId>) -> Option<TypeId>
    ensures { result ≡ addresses.element_in types.now t }
{
    match types.form(t?)? {
        TypeForm::Array { element, .. } => Some(*element),
        _ => None,
    }
}

/// The type behind some indices.
pub(crate) fn type_behind(types: &TypeTable, t: Option<TypeId>, es: &[Expr]) -> Option<TypeId>
    ensures { result ≡ addresses.type_behind types.now t (exprs_view es.now) }
{
    let mut behind = t;
    for e in es {
        behind = element_in(types, behind);
    }
    behind
}

/// An index of an array; what is no array has none within its bounds.
pub(crate) fn index_instr(types: &TypeTable, t: Option<TypeId>) -> Instr
    ensures { result ≡ addresses.index_instr types.now (form_in types.now t) }
{
    let form = match t {
        Some(t) => types.form(t),
        None => None,
    };
    match form {
        Some(
            TypeForm::Array {
                low,
                high,
                element,
                ..
            },
        ) => Instr::IDX(*low, *high, cells_of(types, *element)),
        _ => Instr::IDX(1, 0, 0),
    }
}

/// How many cells the fields before place k take, where k is at most their number.
fn fields_before(types: &TypeTable, fields: &Fields, k: u32) -> u64
    requires { k ≤ length fields.now }
    ensures { result ≡ addresses.fields_before types.now fields.now k }
{
    let mut sum = 0u64;
    for i in 0..k {
        sum += types.held(fields.type_at(i)).cells;
    }
    sum
}

/// The first cell of a field, counted from that of its record. A number of more than 32 bits is want of memory.
pub(crate) fn field_cell(
    types: &TypeTable,
    t: Option<TypeId>,
    name: &Name,
) -> Result<u32, EmitFault>
    ensures value { IfOk result (λ cell. cell ≡ addresses.field_cell types.now (form_in types.now t) name.now) }
    ensures fault { IfErr result (λ fault. fault ≡ NoMemory) }
{
    let form = match t {
        Some(t) => types.form(t),
        None => None,
    };
    let Some(TypeForm::Record(fields)) = form else {
        return Ok(0);
    };
    let cell = match fields.position(name) {
        Some(k) => fields_before(types, fields, k),
        None => 0,
    };
    match u32::try_from(cell) {
        Ok(cell) => Ok(cell),
        Err(_) => Err(EmitFault::Memory),
    }
}
