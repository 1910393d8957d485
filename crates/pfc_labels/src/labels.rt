//! The labels of processes: that of a variable, with its selectors.
ghost use Rattle.std.specs.Prelude.{◌≡◌, ◌≤◌, ◌<◌, ℕ, pos, ◌+ℤ◌, false, List, [], ◌∷◌, ◌++◌, get_or, length, take, IfOk, OnOk};
ghost use Rattle.std.specs.Fmt.{signed_decimal};
ghost use Rattle.pfc_types.specs.Types.{extent};
ghost use Rattle.pfc_types.specs.declared.scope.Meaning.{Meaning};
ghost use Rattle.pfc_translation.specs.Objects.{all_labelled, elements_labelled, fields_labelled, labelled_before, name_labelled, names_labelled};
ghost use Rattle.pfc_translation.specs.Objects.{with_index as indexed};
ghost use Rattle.pfc_labels.specs.Processes.{infos, processes_in};

use crate::naming::{field_name, variable_name};
use pfc_base::{Memory, Name, Text, Token, decimal};
use pfc_code::ProcessInfo;
use pfc_program::Program;
use pfc_types::{Fields, Meaning, Scope, TypeForm, TypeId};
use std::alloc::Global;

/// The processes of a program, whose name and tokens these are: main, and behind it those of main's variables in the order of the
/// layout, each with its block and its label. Its only refusal is want of memory; a name of a variable that the tokens do not hold, which
/// never comes, counts as one.
pub fn processes(
    alloc: Global,
    program: &Program,
    name: &Name,
    tokens: &[Token],
) -> Result<Vec<ProcessInfo>, Memory>
    ensures { IfOk result (λ list. list.items ≡ processes_in program.now name.now) }
{
    let mut all = Vec::new(alloc);
    let main = place(program.blocks.len() as u64)?;
    all.push(ProcessInfo {
        block: main,
        label: Text::new(alloc, name.bytes())?,
    })?;
    if program.tables.scopes.len() == 0 {
        return Ok(all);
    }
    add_names(
        alloc,
        program,
        program.tables.scopes.at(0),
        tokens,
        &mut all,
    )?;
    Ok(all)
}

/// A place of a block; one past 2^32 counts as want of memory.
fn place(n: u64) -> Result<u32, Memory>
    ensures { IfOk result (λ m. m ≡ n) }
{
    if n > u32::MAX as u64 {
        return Err(Memory);
    }
    Ok(n as u32)
}

/// The processes of variables.
fn add_names(
    alloc: Global,
    program: &Program,
    names: &Scope,
    tokens: &[Token],
    all: &mut Vec<ProcessInfo>,
) -> Result<(), Memory>
    ensures { OnOk result (all.new.items ≡ all.old.items ++ infos program.now (names_labelled (all_labelled program.now.tables.types.now) names.now)) }
{
    let mut from = 0;
    for k in 0..names.len() {
        from = add_variable(alloc, program, names, k, tokens, from, all)?;
    }
    Ok(())
}

/// The processes of the variable at a place of the layout, whose name stands in the tokens from a place on; where those behind it are looked
/// for is given. The names of a scope stand in the order of the text.
fn add_variable(
    alloc: Global,
    program: &Program,
    names: &Scope,
    k: u32,
    tokens: &[Token],
    from: usize,
    all: &mut Vec<ProcessInfo>,
) -> Result<usize, Memory>
    requires { k < length names.now }
    ensures { OnOk result ((d : List ℕ × Meaning) →
        all.new.items ≡ all.old.items ++ infos program.now (name_labelled (all_labelled program.now.tables.types.now)
        (get_or names.now k d).0 (get_or names.now k d).1)) }
{
    let meaning = names.meaning_at(k);
    if !holds_processes(program, meaning) {
        return Ok(from);
    }
    let Some((name, place)) = variable_name(names, k, tokens, from) else {
        return Err(Memory);
    };
    add_name(alloc, program, tokens, meaning, name, all)?;
    Ok(place)
}

/// A variable of this meaning may hold a process.
fn holds_processes(program: &Program, meaning: Meaning) -> bool
    ensures { (x : List ℕ) → result ≡ false → name_labelled (all_labelled program.now.tables.types.now) x meaning ≡ [] }
{
    match meaning {
        Meaning::Variable { t, reference: _ } => program.tables.types.held(t).processes > 0,
        Meaning::Process(_) => true,
        Meaning::Constant { t: _, value: _ } => false,
        Meaning::Named(_) => false,
        Meaning::Sub(_) => false,
        Meaning::Module(_) => false,
        Meaning::Entry(_) => false,
        Meaning::Predeclared(_) => false,
        Meaning::Faulty => false,
    }
}

/// The processes of a name.
fn add_name(
    alloc: Global,
    program: &Program,
    tokens: &[Token],
    meaning: Meaning,
    name: &Name,
    all: &mut Vec<ProcessInfo>,
) -> Result<(), Memory>
    ensures { OnOk result (all.new.items ≡ all.old.items ++ infos program.now (name_labelled (all_labelled program.now.tables.types.now) name.now meaning)) }
{
    match meaning {
        Meaning::Variable { t, reference: _ } => {
            add_type(alloc, program, tokens, t, name.bytes(), all)
        }
        Meaning::Process(n) => add_process(alloc, program, n, name.bytes(), all),
        Meaning::Constant { t: _, value: _ } => Ok(()),
        Meaning::Named(_) => Ok(()),
        Meaning::Sub(_) => Ok(()),
        Meaning::Module(_) => Ok(()),
        Meaning::Entry(_) => Ok(()),
        Meaning::Predeclared(_) => Ok(()),
        Meaning::Faulty => Ok(()),
    }
}

/// One process more, of a declaration.
fn add_process(
    alloc: Global,
    program: &Program,
    declaration: u32,
    label: &[u8],
    all: &mut Vec<ProcessInfo>,
) -> Result<(), Memory>
    ensures { OnOk result (all.new.items ≡ all.old.items ++ infos program.now ((declaration, label.now) ∷ [])) }
{
    let scope = program.tables.scopes.process_scope(declaration);
    let block = place(program.block_number(scope))?;
    all.push(ProcessInfo {
        block,
        label: Text::new(alloc, label)?,
    })?;
    Ok(())
}

/// The processes of a variable of a type, which has this label.
#[cycle(labels)]
fn add_type(
    alloc: Global,
    program: &Program,
    tokens: &[Token],
    t: TypeId,
    label: &[u8],
    all: &mut Vec<ProcessInfo>,
) -> Result<(), Memory>
    ensures { OnOk result (all.new.items ≡ all.old.items ++ infos program.now (labelled_before (all_labelled program.now.tables.types.now) t label.now)) }
{
    if program.tables.types.held(t).processes == 0 {
        return Ok(());
    }
    match program.tables.types.form(t) {
        Some(
            TypeForm::Array {
                index: _,
                low,
                high,
                element,
            },
        ) => {
            let count = element_count(*low, *high);
            add_elements(alloc, program, tokens, t, *element, low, count, label, all)
        }
        Some(TypeForm::Record(fields)) => {
            add_fields(alloc, program, tokens, t, fields, label, all)
        }
        Some(TypeForm::Process(n)) => add_process(alloc, program, *n, label, all),
        Some(TypeForm::Channel(_)) => Ok(()),
        None => Ok(()),
    }
}

/// How many elements an array with these bounds has.
fn element_count(low: i32, high: i32) -> u64
    ensures { result ≡ extent low high }
{
    (high as i64 - low as i64 + 1).unsigned_abs()
}

/// The processes of a part of a type, which has this label. A type stands behind those that it is made of.
#[cycle(labels)]
fn add_part(
    alloc: Global,
    program: &Program,
    tokens: &[Token],
    whole: TypeId,
    t: TypeId,
    label: &[u8],
    all: &mut Vec<ProcessInfo>,
) -> Result<(), Memory>
    requires { whole.place ≤ length program.now.tables.types.now }
    ensures { OnOk result (all.new.items ≡ all.old.items ++ infos program.now
        (labelled_before (all_labelled (take whole.place program.now.tables.types.now)) t label.now)) }
{
    if t.place < whole.place {
        add_type(alloc, program, tokens, t, label, all)
    } else {
        Ok(())
    }
}

/// The processes of so many elements of an array, from an index on.
#[cycle(labels)]
fn add_elements(
    alloc: Global,
    program: &Program,
    tokens: &[Token],
    whole: TypeId,
    element: TypeId,
    low: &i32,
    count: u64,
    label: &[u8],
    all: &mut Vec<ProcessInfo>,
) -> Result<(), Memory>
    requires { whole.place ≤ length program.now.tables.types.now }
    ensures { OnOk result (all.new.items ≡ all.old.items ++ infos program.now
        (elements_labelled count low.now (labelled_before (all_labelled (take whole.place program.now.tables.types.now)) element) label.now)) }
{
    for k in 0..count {
        let own = element_label(alloc, label, low, k)?;
        add_part(alloc, program, tokens, whole, element, &own, all)?;
    }
    Ok(())
}

/// The label of the element that stands so many behind the one with the low index.
fn element_label(alloc: Global, label: &[u8], low: &i32, k: u64) -> Result<Vec<u8>, Memory>
    ensures { IfOk result (λ own. own.items ≡ indexed label.now (low.now +ℤ pos k)) }
{
    let index = index_behind(low, k)?;
    with_index(alloc, label, index)
}

/// The index so many behind the low one; 2^32 and more, which never come, count as want of memory.
fn index_behind(low: &i32, k: u64) -> Result<i64, Memory>
    ensures { IfOk result (λ n. n ≡ low.now +ℤ pos k) }
{
    if k > u32::MAX as u64 {
        return Err(Memory);
    }
    Ok(*low as i64 + k as i64)
}

/// The processes of the fields of a record.
#[cycle(labels)]
fn add_fields(
    alloc: Global,
    program: &Program,
    tokens: &[Token],
    whole: TypeId,
    fields: &Fields,
    label: &[u8],
    all: &mut Vec<ProcessInfo>,
) -> Result<(), Memory>
    requires { whole.place ≤ length program.now.tables.types.now }
    ensures { OnOk result (all.new.items ≡ all.old.items ++ infos program.now
        (fields_labelled (all_labelled (take whole.place program.now.tables.types.now)) fields.now label.now)) }
{
    for i in 0..fields.len() {
        let Some(name) = field_name(fields, i, tokens) else {
            return Err(Memory);
        };
        let own = with_field(alloc, label, name)?;
        add_part(alloc, program, tokens, whole, fields.type_at(i), &own, all)?;
    }
    Ok(())
}

/// A label with an index in brackets.
fn with_index(alloc: Global, label: &[u8], index: i64) -> Result<Vec<u8>, Memory>
    ensures { IfOk result (λ own. own.items ≡ indexed label.now index) }
{
    let mut own = Vec::from_slice(alloc, label)?;
    own.push(b'[')?;
    own.extend_from_slice(decimal(alloc, index)?.bytes())?;
    own.push(b']')?;
    Ok(own)
}

/// A label with a field behind a point.
fn with_field(alloc: Global, label: &[u8], name: &Name) -> Result<Vec<u8>, Memory>
    ensures { IfOk result (λ own. own.items ≡ label.now ++ 46 ∷ name.now) }
{
    let mut own = Vec::from_slice(alloc, label)?;
    own.push(b'.')?;
    own.extend_from_slice(name.bytes())?;
    Ok(own)
}
