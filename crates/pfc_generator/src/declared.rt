//! The names that are declared for bodies, in the order of their `begin`.
ghost use Rattle.std.specs.Prelude.{◌≡◌, ◌+◌, length, OnOk};
ghost use Rattle.pfc_tree.specs.views.Parts.{part_view, parts_view, sub_view, module_view, process_view};
ghost use Rattle.pfc_generator.specs.Pieces as pieces;

use pfc_base::{Memory, Name};
use pfc_tree::{Module, Part, Process, Sub};

/// Those of the bodies in a part, behind those before.
#[cycle(declared)]
pub(crate) fn add_part<'p>(p: &'p Part, names: &mut Vec<&'p Name>) -> Result<(), Memory>
    ensures { OnOk result (length names.new.items ≡ length names.old.items + pieces.part_bodies (part_view p.now)) }
{
    match p {
        Part::Consts(_) | Part::Types(_) | Part::Vars(_) => Ok(()),
        Part::Sub(b) => add_sub(b, names),
        Part::Monitor(m) => add_module(m, names),
        Part::Resource(m) => add_module(m, names),
        Part::Process(q) => add_process(q, names),
    }
}

#[cycle(declared)]
fn add_parts<'p>(ps: &'p [Part], names: &mut Vec<&'p Name>) -> Result<(), Memory>
    ensures { OnOk result (length names.new.items ≡ length names.old.items + pieces.parts_bodies (parts_view ps.now)) }
{
    for p in ps {
        add_part(p, names)?;
    }
    Ok(())
}

#[cycle(declared)]
fn add_sub<'p>(b: &'p Sub, names: &mut Vec<&'p Name>) -> Result<(), Memory>
    ensures { OnOk result (length names.new.items ≡ length names.old.items + pieces.sub_bodies (sub_view b.now)) }
{
    add_parts(&b.parts, names)?;
    add_name(&b.name, names)
}

#[cycle(declared)]
fn add_module<'p>(m: &'p Module, names: &mut Vec<&'p Name>) -> Result<(), Memory>
    ensures { OnOk result (length names.new.items ≡ length names.old.items + pieces.module_bodies (module_view m.now)) }
{
    add_parts(&m.parts, names)
}

#[cycle(declared)]
fn add_process<'p>(q: &'p Process, names: &mut Vec<&'p Name>) -> Result<(), Memory>
    ensures { OnOk result (length names.new.items ≡ length names.old.items + pieces.process_bodies (process_view q.now)) }
{
    add_parts(&q.parts, names)?;
    add_name(&q.name, names)
}

/// One name more.
fn add_name<'p>(name: &'p Name, names: &mut Vec<&'p Name>) -> Result<(), Memory>
    ensures { OnOk result (length names.new.items ≡ length names.old.items + 1) }
{
    names.push(name)?;
    Ok(())
}
