//! The code of bodies.
ghost use Rattle.std.specs.Prelude.{◌≡◌, ◌+◌, ◌≤◌, Some, length, IfOk, OnOk};
ghost use Rattle.pfc_types.specs.declared.heads.SubHead.{SubHead};
ghost use Rattle.pfc_semantics.specs.Layouts as layouts;
ghost use Rattle.pfc_translation.specs.Sites.{level_of};
ghost use Rattle.pfc_translation.specs.Codes.{one, unseen};
ghost use Rattle.pfc_translation.specs.Images as images;
ghost use Rattle.pfc_program.specs.Views.{block_view};
ghost use Rattle.pfc_addresses.specs.Sites.{program_of, tables_of, whole_view};
ghost use Rattle.pfc_expression_code.specs.Putting.{IsMade};

use crate::GenFault;
use crate::phrases::{Phrase, Position, within};
use pfc_addresses::{Addresses, Body};
use pfc_code::Instr;
use pfc_expression_code::Coder;
use pfc_program::{Block, Lookups};
use pfc_types::SubSort;
use std::alloc::Global;

/// Where the code of a body stands: its first address, the first behind its guard and the first behind it; and how deep the body is nested.
#[derive(Clone, Copy)]
pub(crate) struct Span {
    pub entry: u32,
    pub body: u32,
    pub end: u32,
    pub level: u32,
}

/// The instruction that ends the block with the scope i: a function's, another sub's or a process's.
fn end_of(lookups: &Lookups, i: u32) -> Instr
    ensures { result ≡ images.end_of (layouts.sub_with lookups.now.scopes.now.subs i) }
{
    match lookups.sub_with(i) {
        Some(n) => end_of_sort(lookups.scopes.sub_sort(n)),
        None => Instr::END,
    }
}

/// The instruction that ends such a sub.
fn end_of_sort(sort: SubSort) -> Instr
    ensures { (head : SubHead) → head.sort ≡ sort → result ≡ images.end_of (Some head) }
{
    match sort {
        SubSort::Function(_) => Instr::RETF,
        SubSort::Procedure | SubSort::Guarded => Instr::RET,
    }
}

/// Puts the guard of a block, where it has one.
fn put_guard(alloc: Global, body: &Body, coder: &mut Coder) -> Result<(), GenFault>
    ensures { OnOk result (IsMade (images.guard_code (whole_view (program_of body.now)) (block_view (tables_of body.now) body.now.block.now)
        (block_view (tables_of body.now) body.now.block.now).guard) coder.old coder.new) }
{
    let block = body.block;
    let Some(guard) = &block.guard else {
        return Ok(())
    };
    let position = Position {
        alloc,
        body,
        around: guard.names.around(),
        line: guard.line,
    };
    within(
        guard.names.levels(),
        None,
        position,
        Phrase::Guard(guard.test),
        coder,
    )
}

/// Puts the statements of a block.
fn put_statements(alloc: Global, body: &Body, coder: &mut Coder) -> Result<(), GenFault>
    ensures { OnOk result (IsMade (images.statements_code (whole_view (program_of body.now)) (block_view (tables_of body.now) body.now.block.now))
        coder.old coder.new) }
{
    let block = body.block;
    let position = Position {
        alloc,
        body,
        around: block.names.around(),
        line: block.last_line,
    };
    within(
        block.names.levels(),
        None,
        position,
        Phrase::Statements(block.next, block.stmts),
        coder,
    )
}

/// Keeps the strings of the statements of a block, and counts the alternatives of their selects.
fn keep_statements(alloc: Global, body: &Body, coder: &mut Coder) -> Result<(), GenFault>
    ensures { OnOk result (IsMade (unseen (images.statements_code (whole_view (program_of body.now)) (block_view (tables_of body.now) body.now.block.now)))
        coder.old coder.new) }
{
    let block = body.block;
    let position = Position {
        alloc,
        body,
        around: block.names.around(),
        line: block.last_line,
    };
    within(
        block.names.levels(),
        None,
        position,
        Phrase::Unseen(block.next, block.stmts),
        coder,
    )
}

/// Puts an instruction alone, with a line, from 1.
fn put_alone(
    alloc: Global,
    body: &Body,
    instr: Instr,
    line: u32,
    coder: &mut Coder,
) -> Result<(), GenFault>
    ensures { OnOk result (IsMade (one (record (images.site_in (whole_view (program_of body.now))
        (block_view (tables_of body.now) body.now.block.now)) { line = line }) instr) coder.old coder.new) }
{
    let block = body.block;
    let position = Position {
        alloc,
        body,
        around: block.names.around(),
        line,
    };
    within(
        block.names.levels(),
        None,
        position,
        Phrase::Alone(instr),
        coder,
    )
}

/// Puts a body with its guard before it and its end behind it.
pub(crate) fn put_body<'t, 'e>(
    alloc: Global,
    addresses: &'e Addresses<'t, 'e>,
    lookups: &Lookups<'t>,
    block: &'e Block<'t>,
    coder: &mut Coder,
) -> Result<Span, GenFault>
    requires { lookups.now.scopes.now ≡ addresses.now.program.now.tables.scopes.now }
    ensures code { OnOk result (IsMade (images.body_code (whole_view addresses.now.program.now) (block_view addresses.now.program.now.tables block.now))
        coder.old coder.new) }
    ensures entry { IfOk result (λ s. s.entry ≡ length coder.old.code) }
    ensures body { IfOk result (λ s. s.body ≡ length coder.old.code + (images.guard_code (whole_view addresses.now.program.now)
        (block_view addresses.now.program.now.tables block.now) (block_view addresses.now.program.now.tables block.now).guard).size) }
    ensures end { IfOk result (λ s. s.end ≡ length coder.new.code) }
    ensures few { OnOk result (length coder.new.code ≤ 200000) }
    ensures level { IfOk result (λ s. s.level ≡ level_of addresses.now.program.now.tables.scopes.now (block_view addresses.now.program.now.tables block.now)) }
{
    let body = Body::new(alloc, addresses, block)?;
    let entry = coder.here();
    put_guard(alloc, &body, coder)?;
    let first = coder.here();
    put_statements(alloc, &body, coder)?;
    let end = end_of(lookups, block.scope);
    put_alone(alloc, &body, end, block.last_line, coder)?;
    Ok(Span {
        entry,
        body: first,
        end: coder.here(),
        level: body.level(),
    })
}

/// Keeps the strings of an initialising body, and counts the alternatives of its selects. Its code stands in main's.
pub(crate) fn keep_initial<'t, 'e>(
    alloc: Global,
    addresses: &'e Addresses<'t, 'e>,
    block: &'e Block<'t>,
    coder: &mut Coder,
) -> Result<(), GenFault>
    ensures { OnOk result (IsMade (unseen (images.statements_code (whole_view addresses.now.program.now)
        (block_view addresses.now.program.now.tables block.now))) coder.old coder.new) }
{
    let body = Body::new(alloc, addresses, block)?;
    keep_statements(alloc, &body, coder)
}

/// Puts an initialising body.
pub(crate) fn put_initial<'t, 'e>(
    alloc: Global,
    addresses: &'e Addresses<'t, 'e>,
    block: &'e Block<'t>,
    coder: &mut Coder,
) -> Result<(), GenFault>
    ensures { OnOk result (IsMade (images.statements_code (whole_view addresses.now.program.now) (block_view addresses.now.program.now.tables block.now))
        coder.old coder.new) }
{
    let body = Body::new(alloc, addresses, block)?;
    put_statements(alloc, &body, coder)
}

/// Puts the turn of a resource's scan, which has the line of the resource's final `end`, from 1. It stands in no body, and is put as from
/// main's.
pub(crate) fn put_scan(
    alloc: Global,
    main: &Body,
    resource: u32,
    line: u32,
    coder: &mut Coder,
) -> Result<(), GenFault>
    requires { main.now.block.now ≡ (program_of main.now).main }
    ensures { OnOk result (IsMade (images.scan_code (whole_view (program_of main.now)) resource line) coder.old coder.new) }
{
    put_alone(alloc, main, Instr::SCAN(resource), line, coder)
}
