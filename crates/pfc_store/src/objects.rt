//! The objects of a program, and the first values of main's variables.
ghost use Rattle.std.specs.Prelude.{◌≡◌, ◌≤◌, [], ◌∷◌, pos, length, take, None, IfOk, OnOk};
ghost use Rattle.pfc_types.specs.Types.{extent, form_of};
ghost use Rattle.pfc_types.specs.Scopes.{scope_at};
ghost use Rattle.pfc_types.specs.Blocks.{module_at};
ghost use Rattle.pfc_state.specs.Waits.{same_truth};
ghost use Rattle.pfc_semantics.specs.Values.{ordinal};
ghost use Rattle.pfc_semantics.specs.Objects.{no_objects, a_semaphore, a_channel, a_condition, a_process, numbering_of, numbered_copies};
ghost use Rattle.pfc_semantics.specs.Objects.{numbered_fields as fields_in_order, all_numberings, numbered_names, module_number as number_of_module, of_main};
ghost use Rattle.pfc_semantics.specs.Objects.{main_objects};
ghost use Rattle.pfc_store.specs.Views.{value_view, values_view};
ghost use Rattle.pfc_store.specs.Numbered.{objects_view, numbered, numbered_parts, numbered_variables, behind};

use crate::Value;
use crate::displays::sum;
use crate::firsts::element_count;
use pfc_base::Memory;
use pfc_types::{Fields, Meaning, ModuleHead, Scope, Scopes, TypeForm, TypeId, TypeTable};
use std::alloc::Global;

/// The objects of a program, numbered in the order of main's layout.
#[derive(Drop)]
pub struct Objects {
    /// How many semaphores there are, numbered from 0.
    pub semaphores: u32,
    /// How many channels there are, numbered from 0.
    pub channels: u32,
    /// The number of the monitor of each condition, which are numbered from 0.
    pub conditions: Vec<u32>,
    /// The number of the declaration of each process, which are numbered from 1.
    pub processes: Vec<u32>,
}

/// A number as a value; one past 2^31 counts as want of memory.
fn number(n: usize) -> Result<Value, Memory>
    ensures { IfOk result (λ v. value_view v ≡ ordinal (pos n)) }
{
    if n > i32::MAX as usize {
        return Err(Memory);
    }
    Ok(Value::of(n as i64))
}

impl Objects {
    /// No object.
    fn new(alloc: Global) -> Objects
        ensures { objects_view result ≡ no_objects }
    {
        Objects {
            semaphores: 0,
            channels: 0,
            conditions: Vec::new(alloc),
            processes: Vec::new(alloc),
        }
    }

    /// One semaphore more.
    fn semaphore(&mut self) -> Result<Value, Memory>
        ensures { IfOk result (λ v. a_semaphore 0 (objects_view self.old) ≡ numbered v self.new) }
    {
        let value = number(self.semaphores as usize)?;
        self.semaphores = sum(self.semaphores, 1)?;
        Ok(value)
    }

    /// One channel more.
    fn channel(&mut self) -> Result<Value, Memory>
        ensures { IfOk result (λ v. a_channel 0 (objects_view self.old) ≡ numbered v self.new) }
    {
        let value = number(self.channels as usize)?;
        self.channels = sum(self.channels, 1)?;
        Ok(value)
    }

    /// One condition more, of a monitor.
    fn condition(&mut self, monitor: u32) -> Result<Value, Memory>
        ensures { IfOk result (λ v. a_condition monitor (objects_view self.old) ≡ numbered v self.new) }
    {
        let value = number(self.conditions.len())?;
        self.conditions.push(monitor)?;
        Ok(value)
    }

    /// One process more, with the number of its declaration.
    fn process(&mut self, declaration: u32) -> Result<Value, Memory>
        ensures { IfOk result (λ v. a_process declaration 0 (objects_view self.old) ≡ numbered v self.new) }
    {
        let value = number(self.processes.len() + 1)?;
        self.processes.push(declaration)?;
        Ok(value)
    }

    /// The first value of a variable of a type that is made of nothing.
    fn simple(&mut self, types: &TypeTable, t: TypeId, monitor: u32) -> Result<Value, Memory>
        requires { form_of types.now t ≡ None }
        ensures { IfOk result (λ v. numbering_of (all_numberings types.now) t monitor (objects_view self.old) ≡ numbered v self.new) }
    {
        let held = types.held(t);
        if held.shared {
            self.semaphore()
        } else if held.conditions {
            self.condition(monitor)
        } else {
            Ok(Value::of(0))
        }
    }
}

/// The first value of a variable of a type, each object with the next number of its kind.
#[cycle(objects)]
fn numbered_value(
    alloc: Global,
    types: &TypeTable,
    t: TypeId,
    monitor: u32,
    objects: &mut Objects,
) -> Result<Value, Memory>
    ensures { IfOk result (λ v. numbering_of (all_numberings types.now) t monitor (objects_view objects.old) ≡ numbered v objects.new) }
{
    match types.form(t) {
        Some(
            TypeForm::Array {
                index: _,
                low,
                high,
                element,
            },
        ) => {
            let count = element_count(*low, *high);
            Ok(Value::Compound(numbered_elements(
                alloc, types, t, *element, count, monitor, objects,
            )?))
        }
        Some(TypeForm::Record(fields)) => Ok(Value::Compound(numbered_fields(
            alloc, types, t, fields, monitor, objects,
        )?)),
        Some(TypeForm::Channel(_)) => objects.channel(),
        Some(TypeForm::Process(n)) => objects.process(*n),
        None => objects.simple(types, t, monitor),
    }
}

/// The first value of a part of a type. A type stands behind those that it is made of.
#[cycle(objects)]
fn numbered_part(
    alloc: Global,
    types: &TypeTable,
    whole: TypeId,
    t: TypeId,
    monitor: u32,
    objects: &mut Objects,
) -> Result<Value, Memory>
    requires { whole.place ≤ length types.now }
    ensures { IfOk result (λ v. numbering_of (all_numberings (take whole.place types.now)) t monitor (objects_view objects.old) ≡ numbered v objects.new) }
{
    if t.place < whole.place {
        numbered_value(alloc, types, t, monitor, objects)
    } else {
        Ok(Value::of(0))
    }
}

/// So many elements of an array.
#[cycle(objects)]
fn numbered_elements(
    alloc: Global,
    types: &TypeTable,
    whole: TypeId,
    element: TypeId,
    count: u64,
    monitor: u32,
    objects: &mut Objects,
) -> Result<Vec<Value>, Memory>
    requires { whole.place ≤ length types.now }
    ensures { IfOk result (λ vs. numbered_copies count (numbering_of (all_numberings (take whole.place types.now)) element) monitor
        (objects_view objects.old) ≡ numbered_parts vs.items objects.new) }
{
    let mut items = Vec::new(alloc);
    for _ in 0..count {
        items.push(numbered_part(alloc, types, whole, element, monitor, objects)?)?;
    }
    Ok(items)
}

/// The fields of a record.
#[cycle(objects)]
fn numbered_fields(
    alloc: Global,
    types: &TypeTable,
    whole: TypeId,
    fields: &Fields,
    monitor: u32,
    objects: &mut Objects,
) -> Result<Vec<Value>, Memory>
    requires { whole.place ≤ length types.now }
    ensures { IfOk result (λ vs. fields_in_order (all_numberings (take whole.place types.now)) fields.now monitor
        (objects_view objects.old) ≡ numbered_parts vs.items objects.new) }
{
    let mut items = Vec::new(alloc);
    for i in 0..fields.len() {
        items.push(numbered_part(alloc, types, whole, fields.type_at(i), monitor, objects)?)?;
    }
    Ok(items)
}

/// What a name of a monitor or a resource brings into main's block.
fn add_name(
    alloc: Global,
    types: &TypeTable,
    meaning: Meaning,
    monitor: u32,
    values: &mut Vec<Value>,
    objects: &mut Objects,
) -> Result<(), Memory>
    ensures { OnOk result (behind (values_view values.old.items) (numbered_names (all_numberings types.now) (([], meaning) ∷ []) monitor
        (objects_view objects.old)) ≡ numbered_variables values.new.items objects.new) }
{
    match meaning {
        Meaning::Variable { t, reference: _ } => {
            values.push(numbered_value(alloc, types, t, monitor, objects)?)?;
            Ok(())
        }
        Meaning::Process(_) => Ok(()),
        Meaning::Constant { t: _, value: _ } => Ok(()),
        Meaning::Named(_) => Ok(()),
        Meaning::Sub(_) => Ok(()),
        Meaning::Module(_) => Ok(()),
        Meaning::Entry(_) => Ok(()),
        Meaning::Predeclared(_) => Ok(()),
        Meaning::Faulty => Ok(()),
    }
}

/// The variables of a monitor or a resource.
fn add_names(
    alloc: Global,
    types: &TypeTable,
    names: &Scope,
    monitor: u32,
    values: &mut Vec<Value>,
    objects: &mut Objects,
) -> Result<(), Memory>
    ensures { OnOk result (behind (values_view values.old.items) (numbered_names (all_numberings types.now) names.now monitor (objects_view objects.old)) ≡
        numbered_variables values.new.items objects.new) }
{
    for k in 0..names.len() {
        add_name(alloc, types, names.meaning_at(k), monitor, values, objects)?;
    }
    Ok(())
}

/// The number of a monitor or a resource among those of its kind, in the order of the text.
fn module_number(scopes: &Scopes, n: u32) -> u32
    ensures { result ≡ number_of_module scopes.now n }
{
    let resource = scopes.module(n).resource;
    let mut count = 0;
    for k in 0..scopes.modules().min(n) {
        if is_of_kind(scopes.module(k), resource) {
            count += 1;
        }
    }
    count
}

/// Whether this is a resource, or whether it is a monitor.
fn is_of_kind(head: ModuleHead, resource: bool) -> bool
    ensures { result ≡ same_truth head.resource resource }
{
    head.resource == resource
}

/// What a monitor or a resource brings into main's block.
fn add_module(
    alloc: Global,
    types: &TypeTable,
    scopes: &Scopes,
    n: u32,
    values: &mut Vec<Value>,
    objects: &mut Objects,
) -> Result<(), Memory>
    ensures { OnOk result (behind (values_view values.old.items) (numbered_names (all_numberings types.now)
        (scope_at scopes.now.scopes (module_at scopes.now n).scope) (number_of_module scopes.now n) (objects_view objects.old)) ≡
        numbered_variables values.new.items objects.new) }
{
    let scope = scopes.module(n).scope;
    if scopes.len() <= scope {
        return Ok(());
    }
    let monitor = module_number(scopes, n);
    add_names(alloc, types, scopes.at(scope), monitor, values, objects)
}

/// What a name of the program's scope brings into main's block.
fn add_of_main(
    alloc: Global,
    types: &TypeTable,
    scopes: &Scopes,
    meaning: Meaning,
    values: &mut Vec<Value>,
    objects: &mut Objects,
) -> Result<(), Memory>
    ensures { OnOk result (behind (values_view values.old.items) (of_main scopes.now (all_numberings types.now) meaning (objects_view objects.old)) ≡
        numbered_variables values.new.items objects.new) }
{
    match meaning {
        Meaning::Variable { t, reference: _ } => {
            values.push(numbered_value(alloc, types, t, 0, objects)?)?;
            Ok(())
        }
        Meaning::Process(n) => {
            values.push(objects.process(n)?)?;
            Ok(())
        }
        Meaning::Module(n) => add_module(alloc, types, scopes, n, values, objects),
        Meaning::Constant { t: _, value: _ } => Ok(()),
        Meaning::Named(_) => Ok(()),
        Meaning::Sub(_) => Ok(()),
        Meaning::Entry(_) => Ok(()),
        Meaning::Predeclared(_) => Ok(()),
        Meaning::Faulty => Ok(()),
    }
}

/// The first values of main's variables, in the order of its layout, and all objects of the program, each numbered in that order. Its
/// only refusal is want of memory; an object past 2^31 counts as one.
pub fn main_variables(
    alloc: Global,
    types: &TypeTable,
    scopes: &Scopes,
) -> Result<(Vec<Value>, Objects), Memory>
    ensures { IfOk result (λ made. main_objects types.now scopes.now ≡ numbered_variables made.0.items made.1) }
{
    let mut values = Vec::new(alloc);
    let mut objects = Objects::new(alloc);
    if scopes.len() == 0 {
        return Ok((values, objects));
    }
    let names = scopes.at(0);
    for k in 0..names.len() {
        add_of_main(
            alloc,
            types,
            scopes,
            names.meaning_at(k),
            &mut values,
            &mut objects,
        )?;
    }
    Ok((values, objects))
}
