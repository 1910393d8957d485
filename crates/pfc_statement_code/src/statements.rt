//! The walk over statements. Each function puts the code of its statement behind all that is there, and gives the number of the next scope
//! of the text behind it.
ghost use Rattle.std.specs.Prelude.{◌≡◌, ◌++◌, [], ◌∷◌, ◌+◌, true, length, option_map, OnOk, IfOk, IfErr};
ghost use Rattle.pfc_tree.specs.views.Exprs.{expr_view};
ghost use Rattle.pfc_tree.specs.views.Stmts.{stmt_view, stmts_view, arms_view, accept_view, alts_view, alt_view, comm_view};
ghost use Rattle.pfc_tree.specs.trees.Stmts as trees;
ghost use Rattle.pfc_types.specs.Views.{levels};
ghost use Rattle.pfc_types.specs.rules.Statements as rules;
ghost use Rattle.pfc_translation.specs.Codes.{◌⨾◌, one, over};
ghost use Rattle.pfc_translation.specs.Sites.{at_line};
ghost use Rattle.pfc_translation.specs.Statements as statements;
ghost use Rattle.pfc_emit.specs.declared.emitter.EmitFault.TheVariants.{Full};
ghost use Rattle.pfc_addresses.specs.Sites.{site_view};
ghost use Rattle.pfc_expression_code.specs.Putting.{IsMade, IsTooLarge};
ghost use Rattle.pfc_statement_code.specs.Arms as arms;
ghost use Rattle.pfc_statement_code.specs.Branches as branches;
ghost use Rattle.pfc_statement_code.specs.Forms as forms;

use crate::accepts::{view_in, with_view};
use crate::cases::{lead_arms, tests};
use crate::jumps::{begin, direction, lead_all, lead_here, lead_past, test, turn_until};
use crate::leaves::{assign, call, receive, requeue, send};
use crate::marks::{Marks, is_terminate};
use crate::positions::{Position, following};
use pfc_addresses::Site;
use pfc_base::{Name, Place};
use pfc_code::Instr;
use pfc_emit::EmitFault;
use pfc_expression_code::Coder;
use pfc_select_code::{add_branches, choose, decide, lead_alternatives, open_alternatives};
use pfc_tree::{Accept, Alt, CaseArm, Comm, Expr, Stmt};
use pfc_types::View;
use pfc_unseen_code::keep_unseen;
use std::alloc::Global;

/// Puts the code of statements, before which the next scope of the text has the number `next`, from 0. Its refusals are `Full`, where a
/// program would have more than 200,000 instructions, and want of memory; a number of more than 32 bits, which no checked tree reaches,
/// counts as that too.
pub fn stmts(
    alloc: Global,
    ss: &[Stmt],
    site: Site,
    next: u32,
    code: &mut Coder,
) -> Result<(), EmitFault>
    ensures code { OnOk result (IsMade (statements.stmts_code (site_view site.entry) next (stmts_view ss.now)) code.old code.new) }
    ensures large { IfErr result (λ fault. fault ≡ Full → IsTooLarge (statements.stmts_code (site_view site.entry) next (stmts_view ss.now)) code.old) }
{
    all(ss, Position { alloc, site, next }, code)?;
    Ok(())
}

/// Statements, one behind the other.
#[cycle(stmts)]
fn all(ss: &[Stmt], from: Position, code: &mut Coder) -> Result<u32, EmitFault>
    ensures code { OnOk result (IsMade (statements.stmts_code (site_view from.entry.site) from.entry.next (stmts_view ss.now)) code.old code.new) }
    ensures next { IfOk result (λ n. n ≡ from.entry.next + rules.stmts_scopes (stmts_view ss.now)) }
    ensures large { IfErr result (λ fault. fault ≡ Full →
        IsTooLarge (statements.stmts_code (site_view from.entry.site) from.entry.next (stmts_view ss.now)) code.old) }
{
    let mut next = from.next;
    for s in ss {
        next = stmt(s, Position { next, ..from }, code)?;
    }
    Ok(next)
}

/// A statement.
#[cycle(stmts)]
fn stmt(s: &Stmt, from: Position, code: &mut Coder) -> Result<u32, EmitFault>
    ensures code { OnOk result (IsMade (statements.stmt_code (site_view from.entry.site) from.entry.next (stmt_view s.now)) code.old code.new) }
    ensures next { IfOk result (λ n. n ≡ from.entry.next + rules.scopes_in (stmt_view s.now)) }
    ensures large { IfErr result (λ fault. fault ≡ Full →
        IsTooLarge (statements.stmt_code (site_view from.entry.site) from.entry.next (stmt_view s.now)) code.old) }
{
    match s {
        Stmt::Empty | Stmt::Null(_) => Ok(from.next),
        Stmt::Block(body, _) => all(&body.stmts, from, code),
        Stmt::If(e, then, other, place) => match other {
            Some(other) => {
                let from = from.at(place.line);
                let next = first_choice(then, e, from, code)?;
                otherwise(other, Position { next, ..from }, code)
            }
            None => if_then(then, e, from.at(place.line), code),
        },
        Stmt::Case(e, arms, _, place) => case_of(arms, e, from.at(place.line), code),
        Stmt::While(e, repeated, place) => while_do(repeated, e, from.at(place.line), code),
        Stmt::Repeat(ss, until, place) => match until {
            Some(e) => repeat_until(ss, e, from.at(place.line), code),
            None => repeat_forever(ss, from.at(place.line), code),
        },
        Stmt::For(name, low, down, high, repeated, place, _) => {
            for_do(repeated, name, low, *down, high, from.at(place.line), code)
        }
        Stmt::Cobegin(ss, last, _) => cobegin(ss, *last, from, code),
        Stmt::Accept(a, place) => accepting(a, from.at(place.line), code),
        Stmt::Requeue(name, args, place) => requeue(&name.0, args, *place, from, code),
        Stmt::Select(pri, alts, other, place, _) => match other {
            Some(_) => select_else(s, from, code),
            None => select(*pri, alts, from.at(place.line), code),
        },
        Stmt::Assign(d, e, place, _) => assign(d, e, *place, from, code),
        Stmt::Send(d, e, place, _) => send(d, e, *place, from, code),
        Stmt::Receive(d, v, place, _) => receive(d, v, *place, from, code),
        Stmt::Call(d, args, place) => call(d, args, *place, from, code),
    }
}

/// `if e then s`
#[cycle(stmts)]
fn if_then(s: &Stmt, e: &Expr, from: Position, code: &mut Coder) -> Result<u32, EmitFault>
    ensures code { OnOk result (IsMade (forms.if_then (site_view from.entry.site) (expr_view e.now)
        (statements.stmt_code (site_view from.entry.site) from.entry.next (stmt_view s.now))) code.old code.new) }
    ensures next { IfOk result (λ n. n ≡ from.entry.next + rules.scopes_in (stmt_view s.now)) }
    ensures large { IfErr result (λ fault. fault ≡ Full → IsTooLarge (forms.if_then (site_view from.entry.site) (expr_view e.now)
        (statements.stmt_code (site_view from.entry.site) from.entry.next (stmt_view s.now))) code.old) }
{
    let jump = test(e, from.site, code)?;
    let next = stmt(s, from, code)?;
    lead_here(jump, code);
    Ok(next)
}

/// `if e then s`, with one instruction more that is passed where e is false.
#[cycle(stmts)]
fn first_choice(s: &Stmt, e: &Expr, from: Position, code: &mut Coder) -> Result<u32, EmitFault>
    ensures code { OnOk result (IsMade (forms.first_choice (site_view from.entry.site) (expr_view e.now)
        (statements.stmt_code (site_view from.entry.site) from.entry.next (stmt_view s.now))) code.old code.new) }
    ensures next { IfOk result (λ n. n ≡ from.entry.next + rules.scopes_in (stmt_view s.now)) }
    ensures large { IfErr result (λ fault. fault ≡ Full → IsTooLarge (forms.first_choice (site_view from.entry.site) (expr_view e.now)
        (statements.stmt_code (site_view from.entry.site) from.entry.next (stmt_view s.now))) code.old) }
{
    let jump = test(e, from.site, code)?;
    let next = stmt(s, from, code)?;
    lead_past(jump, code);
    Ok(next)
}

/// What stands behind `else`: a jump that passes it, and the statement.
#[cycle(stmts)]
fn otherwise(s: &Stmt, from: Position, code: &mut Coder) -> Result<u32, EmitFault>
    ensures code { OnOk result (IsMade (over (site_view from.entry.site) Instr.JMP
        (statements.stmt_code (site_view from.entry.site) from.entry.next (stmt_view s.now)).size
        ⨾ statements.stmt_code (site_view from.entry.site) from.entry.next (stmt_view s.now)) code.old code.new) }
    ensures next { IfOk result (λ n. n ≡ from.entry.next + rules.scopes_in (stmt_view s.now)) }
    ensures large { IfErr result (λ fault. fault ≡ Full → IsTooLarge (over (site_view from.entry.site) Instr.JMP
        (statements.stmt_code (site_view from.entry.site) from.entry.next (stmt_view s.now)).size
        ⨾ statements.stmt_code (site_view from.entry.site) from.entry.next (stmt_view s.now)) code.old) }
{
    let jump = code.place(Instr::JMP(0), from.site)?;
    let next = stmt(s, from, code)?;
    lead_here(jump, code);
    Ok(next)
}

/// `while e do s`
#[cycle(stmts)]
fn while_do(s: &Stmt, e: &Expr, from: Position, code: &mut Coder) -> Result<u32, EmitFault>
    ensures code { OnOk result (IsMade (forms.while_do (site_view from.entry.site) (expr_view e.now)
        (statements.stmt_code (site_view from.entry.site) from.entry.next (stmt_view s.now))) code.old code.new) }
    ensures next { IfOk result (λ n. n ≡ from.entry.next + rules.scopes_in (stmt_view s.now)) }
    ensures large { IfErr result (λ fault. fault ≡ Full → IsTooLarge (forms.while_do (site_view from.entry.site) (expr_view e.now)
        (statements.stmt_code (site_view from.entry.site) from.entry.next (stmt_view s.now))) code.old) }
{
    let start = code.here();
    let jump = test(e, from.site, code)?;
    let next = stmt(s, from, code)?;
    lead_past(jump, code);
    code.put(Instr::TURN(start), from.site)?;
    Ok(next)
}

/// `repeat ss until e`
#[cycle(stmts)]
fn repeat_until(ss: &[Stmt], e: &Expr, from: Position, code: &mut Coder) -> Result<u32, EmitFault>
    ensures code { OnOk result (IsMade (forms.repeat_until (site_view from.entry.site)
        (statements.stmts_code (site_view from.entry.site) from.entry.next (stmts_view ss.now)) (expr_view e.now)) code.old code.new) }
    ensures next { IfOk result (λ n. n ≡ from.entry.next + rules.stmts_scopes (stmts_view ss.now)) }
    ensures large { IfErr result (λ fault. fault ≡ Full → IsTooLarge (forms.repeat_until (site_view from.entry.site)
        (statements.stmts_code (site_view from.entry.site) from.entry.next (stmts_view ss.now)) (expr_view e.now)) code.old) }
{
    let start = code.here();
    let next = all(ss, from, code)?;
    turn_until(e, start, from.site, code)?;
    Ok(next)
}

/// `repeat ss forever`
#[cycle(stmts)]
fn repeat_forever(ss: &[Stmt], from: Position, code: &mut Coder) -> Result<u32, EmitFault>
    ensures code { OnOk result (IsMade (forms.repeat_forever (site_view from.entry.site)
        (statements.stmts_code (site_view from.entry.site) from.entry.next (stmts_view ss.now))) code.old code.new) }
    ensures next { IfOk result (λ n. n ≡ from.entry.next + rules.stmts_scopes (stmts_view ss.now)) }
    ensures large { IfErr result (λ fault. fault ≡ Full → IsTooLarge (forms.repeat_forever (site_view from.entry.site)
        (statements.stmts_code (site_view from.entry.site) from.entry.next (stmts_view ss.now))) code.old) }
{
    let start = code.here();
    let next = all(ss, from, code)?;
    code.put(Instr::TURN(start), from.site)?;
    Ok(next)
}

/// `for name := low to high do s`, or with `downto`
#[cycle(stmts)]
fn for_do(
    s: &Stmt,
    name: &Name,
    low: &Expr,
    down: bool,
    high: &Expr,
    from: Position,
    code: &mut Coder,
) -> Result<u32, EmitFault>
    ensures code { OnOk result (IsMade (forms.for_do (site_view from.entry.site) name.now (expr_view low.now) down (expr_view high.now)
        (statements.stmt_code (site_view from.entry.site) from.entry.next (stmt_view s.now))) code.old code.new) }
    ensures next { IfOk result (λ n. n ≡ from.entry.next + rules.scopes_in (stmt_view s.now)) }
    ensures large { IfErr result (λ fault. fault ≡ Full → IsTooLarge (forms.for_do (site_view from.entry.site) name.now (expr_view low.now) down
        (expr_view high.now) (statements.stmt_code (site_view from.entry.site) from.entry.next (stmt_view s.now))) code.old) }
{
    let begun = begin(name, low, down, high, from.site, code)?;
    code.put(Instr::FORW, from.site)?;
    let next = stmt(s, from, code)?;
    lead_past(begun, code);
    code.put(Instr::FORT(direction(down), begun + 1), from.site)?;
    Ok(next)
}

/// `cobegin ss coend`
#[cycle(stmts)]
fn cobegin(ss: &[Stmt], last: Place, from: Position, code: &mut Coder) -> Result<u32, EmitFault>
    ensures code { OnOk result (IsMade (statements.stmts_code (site_view from.entry.site) from.entry.next (stmts_view ss.now)
        ⨾ one (at_line (site_view from.entry.site) last.line) Instr.COEND) code.old code.new) }
    ensures next { IfOk result (λ n. n ≡ from.entry.next + rules.stmts_scopes (stmts_view ss.now)) }
    ensures large { IfErr result (λ fault. fault ≡ Full →
        IsTooLarge (statements.stmts_code (site_view from.entry.site) from.entry.next (stmts_view ss.now)
        ⨾ one (at_line (site_view from.entry.site) last.line) Instr.COEND) code.old) }
{
    let next = all(ss, from, code)?;
    code.put(Instr::COEND, from.site.at(last.line))?;
    Ok(next)
}

/// `case e of arms end`
#[cycle(stmts)]
fn case_of(all: &[CaseArm], e: &Expr, from: Position, code: &mut Coder) -> Result<u32, EmitFault>
    ensures code { OnOk result (IsMade (forms.case_of (site_view from.entry.site) from.entry.next (expr_view e.now) (arms_view all.now))
        code.old code.new) }
    ensures next { IfOk result (λ n. n ≡ from.entry.next + rules.arms_scopes (arms_view all.now)) }
    ensures large { IfErr result (λ fault. fault ≡ Full →
        IsTooLarge (forms.case_of (site_view from.entry.site) from.entry.next (expr_view e.now) (arms_view all.now)) code.old) }
{
    let first = tests(e, all, from.site, code)?;
    let mut marks = Marks::new(from.alloc);
    let next = arms(all, &mut marks, from, code)?;
    lead_arms(all, first, &marks, code);
    Ok(next)
}

/// The arms of a `case`, whose jumps behind them lead nowhere yet.
#[cycle(stmts)]
fn arms(
    all: &[CaseArm],
    marks: &mut Marks,
    from: Position,
    code: &mut Coder,
) -> Result<u32, EmitFault>
    ensures code { OnOk result (arms.ArmsMade (site_view from.entry.site) from.entry.next (arms_view all.now) code.old code.new) }
    ensures starts { OnOk result (marks.new.starts.items ≡ marks.old.starts.items
        ++ arms.starts_of (site_view from.entry.site) from.entry.next (arms_view all.now) (length code.old.code)) }
    ensures ends { OnOk result (marks.new.ends.items ≡ marks.old.ends.items
        ++ arms.ends_of (site_view from.entry.site) from.entry.next (arms_view all.now) (length code.old.code)) }
    ensures next { IfOk result (λ n. n ≡ from.entry.next + rules.arms_scopes (arms_view all.now)) }
    ensures large { IfErr result (λ fault. fault ≡ Full →
        IsTooLarge (statements.arms_code (site_view from.entry.site) from.entry.next (arms_view all.now)) code.old) }
{
    let mut next = from.next;
    for a in all {
        next = arm(&a.stmt, marks, Position { next, ..from }, code)?;
    }
    Ok(next)
}

/// The statement of an arm, and the jump behind it.
#[cycle(stmts)]
fn arm(s: &Stmt, marks: &mut Marks, from: Position, code: &mut Coder) -> Result<u32, EmitFault>
    ensures code { OnOk result (IsMade (statements.stmt_code (site_view from.entry.site) from.entry.next (stmt_view s.now)
        ⨾ one (site_view from.entry.site) (Instr.JMP 0)) code.old code.new) }
    ensures starts { OnOk result (marks.new.starts.items ≡ marks.old.starts.items ++ length code.old.code ∷ []) }
    ensures ends { OnOk result (marks.new.ends.items ≡ marks.old.ends.items
        ++ (length code.old.code + (statements.stmt_code (site_view from.entry.site) from.entry.next (stmt_view s.now)).size) ∷ []) }
    ensures next { IfOk result (λ n. n ≡ from.entry.next + rules.scopes_in (stmt_view s.now)) }
    ensures large { IfErr result (λ fault. fault ≡ Full →
        IsTooLarge (statements.stmt_code (site_view from.entry.site) from.entry.next (stmt_view s.now)
        ⨾ one (site_view from.entry.site) (Instr.JMP 0)) code.old) }
{
    marks.begin(code)?;
    let next = stmt(s, from, code)?;
    marks.end(from.site, code)?;
    Ok(next)
}

/// `accept e do s`
#[cycle(stmts)]
fn accepting(a: &Accept, from: Position, code: &mut Coder) -> Result<u32, EmitFault>
    ensures code { OnOk result (IsMade (forms.accepting (site_view from.entry.site) from.entry.next (accept_view a.now)) code.old code.new) }
    ensures next { IfOk result (λ n. n ≡ from.entry.next + rules.accept_scopes (accept_view a.now)) }
    ensures large { IfErr result (λ fault. fault ≡ Full →
        IsTooLarge (forms.accepting (site_view from.entry.site) from.entry.next (accept_view a.now)) code.old) }
{
    pfc_select_code::accept(from.next, a, from.site, code)?;
    meeting(a, from.site, from, code)
}

/// The statement of an accept, and the end of the meeting, which has a line of its own.
#[cycle(stmts)]
fn meeting(a: &Accept, end: Site, from: Position, code: &mut Coder) -> Result<u32, EmitFault>
    ensures code { OnOk result (IsMade (statements.accepted_code (site_view from.entry.site) from.entry.next (accept_view a.now)
        ⨾ one (site_view end.entry) Instr.EACC) code.old code.new) }
    ensures next { IfOk result (λ n. n ≡ from.entry.next + rules.accept_scopes (accept_view a.now)) }
    ensures large { IfErr result (λ fault. fault ≡ Full →
        IsTooLarge (statements.accepted_code (site_view from.entry.site) from.entry.next (accept_view a.now)
        ⨾ one (site_view end.entry) Instr.EACC) code.old) }
{
    let next = accepted(a, from, code)?;
    code.put(Instr::EACC, end)?;
    Ok(next)
}

/// The statement of an accept, whose parameters are the next scope.
#[cycle(stmts)]
fn accepted(a: &Accept, from: Position, code: &mut Coder) -> Result<u32, EmitFault>
    ensures code { OnOk result (IsMade (statements.accepted_code (site_view from.entry.site) from.entry.next (accept_view a.now)) code.old code.new) }
    ensures next { IfOk result (λ n. n ≡ from.entry.next + rules.accept_scopes (accept_view a.now)) }
    ensures large { IfErr result (λ fault. fault ≡ Full →
        IsTooLarge (statements.accepted_code (site_view from.entry.site) from.entry.next (accept_view a.now)) code.old) }
{
    let inner = following(from.next)?;
    match &a.stmt {
        Some(s) => within(
            s,
            &view_in(from),
            Position {
                next: inner,
                ..from
            },
            code,
        ),
        None => Ok(inner),
    }
}

/// A statement, where these names are in view.
#[cycle(stmts)]
fn within<'t, 'a>(
    s: &Stmt,
    view: &'a View<'a>,
    from: Position<'t, 'a>,
    code: &mut Coder,
) -> Result<u32, EmitFault>
    ensures code { OnOk result (IsMade (statements.stmt_code
        (record (site_view from.entry.site) { env = record (site_view from.entry.site).env { view = levels view.now } })
        from.entry.next (stmt_view s.now)) code.old code.new) }
    ensures next { IfOk result (λ n. n ≡ from.entry.next + rules.scopes_in (stmt_view s.now)) }
    ensures large { IfErr result (λ fault. fault ≡ Full → IsTooLarge (statements.stmt_code
        (record (site_view from.entry.site) { env = record (site_view from.entry.site).env { view = levels view.now } })
        from.entry.next (stmt_view s.now)) code.old) }
{
    stmt(s, with_view(view, from), code)
}

/// `select alts end`
#[cycle(stmts)]
fn select(pri: bool, alts: &[Alt], from: Position, code: &mut Coder) -> Result<u32, EmitFault>
    ensures code { OnOk result (IsMade (forms.select (site_view from.entry.site) from.entry.next pri (alts_view alts.now)) code.old code.new) }
    ensures next { IfOk result (λ n. n ≡ from.entry.next + rules.alts_scopes (alts_view alts.now)) }
    ensures large { IfErr result (λ fault. fault ≡ Full →
        IsTooLarge (forms.select (site_view from.entry.site) from.entry.next pri (alts_view alts.now)) code.old) }
{
    let places = open_alternatives(from.alloc, from.next, alts, from.site, code)?;
    decide(pri, from.site, code)?;
    let mut marks = Marks::new(from.alloc);
    let next = branches(alts, &mut marks, from, code)?;
    lead_all(&marks.ends, code);
    lead_alternatives(&places, &marks.starts, code);
    Ok(next)
}

/// `select alts else ss end`; nothing is said of any other statement.
#[cycle(stmts)]
fn select_else(s: &Stmt, from: Position, code: &mut Coder) -> Result<u32, EmitFault>
    ensures code { forms.is_else (stmt_view s.now) ≡ true
        → OnOk result (IsMade (statements.stmt_code (site_view from.entry.site) from.entry.next (stmt_view s.now)) code.old code.new) }
    ensures next { forms.is_else (stmt_view s.now) ≡ true → IfOk result (λ n. n ≡ from.entry.next + rules.scopes_in (stmt_view s.now)) }
    ensures large { IfErr result (λ fault. fault ≡ Full →
        IsTooLarge (statements.stmt_code (site_view from.entry.site) from.entry.next (stmt_view s.now)) code.old) }
{
    match s {
        Stmt::Select(pri, alts, other, place, _) => match other {
            Some(otherwise) => {
                let from = from.at(place.line);
                let alts = alts.as_slice();
                let places = open_alternatives(from.alloc, from.next, alts, from.site, code)?;
                let decided = decide(*pri, from.site, code)?;
                let mut marks = Marks::new(from.alloc);
                let next = branches(alts, &mut marks, from, code)?;
                lead_here(decided, code);
                let next = all(&otherwise.0, Position { next, ..from }, code)?;
                lead_all(&marks.ends, code);
                lead_alternatives(&places, &marks.starts, code);
                Ok(next)
            }
            None => Ok(from.next),
        },
        Stmt::Empty
        | Stmt::Null(_)
        | Stmt::Block(_, _)
        | Stmt::If(_, _, _, _)
        | Stmt::Case(_, _, _, _)
        | Stmt::While(_, _, _)
        | Stmt::Repeat(_, _, _)
        | Stmt::For(_, _, _, _, _, _, _)
        | Stmt::Cobegin(_, _, _)
        | Stmt::Accept(_, _)
        | Stmt::Requeue(_, _, _)
        | Stmt::Assign(_, _, _, _)
        | Stmt::Send(_, _, _, _)
        | Stmt::Receive(_, _, _, _)
        | Stmt::Call(_, _, _) => Ok(from.next),
    }
}

/// The branches of the alternatives of a select, whose jumps behind them lead nowhere yet.
#[cycle(stmts)]
fn branches(
    alts: &[Alt],
    marks: &mut Marks,
    from: Position,
    code: &mut Coder,
) -> Result<u32, EmitFault>
    ensures code { OnOk result (branches.BranchesMade (site_view from.entry.site) from.entry.next (alts_view alts.now) code.old code.new) }
    ensures starts { OnOk result (marks.new.starts.items ≡ marks.old.starts.items
        ++ branches.branch_starts (site_view from.entry.site) from.entry.next (alts_view alts.now) (length code.old.code)) }
    ensures ends { OnOk result (marks.new.ends.items ≡ marks.old.ends.items
        ++ branches.branch_ends (site_view from.entry.site) from.entry.next (alts_view alts.now) (length code.old.code)) }
    ensures next { IfOk result (λ n. n ≡ from.entry.next + rules.alts_scopes (alts_view alts.now)) }
    ensures large { IfErr result (λ fault. fault ≡ Full →
        IsTooLarge (statements.branches_code (site_view from.entry.site) from.entry.next (alts_view alts.now) 0) code.old) }
{
    let mut next = from.next;
    for a in alts {
        next = branch(a, marks, Position { next, ..from }, code)?;
    }
    Ok(next)
}

/// The branch of an alternative, and the jump behind it; statements behind `terminate` give no code.
#[cycle(stmts)]
fn branch(a: &Alt, marks: &mut Marks, from: Position, code: &mut Coder) -> Result<u32, EmitFault>
    ensures code { OnOk result (IsMade (branches.open_branch (site_view from.entry.site) from.entry.next (alt_view a.now)) code.old code.new) }
    ensures starts { OnOk result (marks.new.starts.items ≡ marks.old.starts.items
        ++ statements.branches_from (site_view from.entry.site) (length code.old.code) (statements.spread_of (alt_view a.now))) }
    ensures ends { OnOk result (marks.new.ends.items ≡ marks.old.ends.items
        ++ branches.end_of (site_view from.entry.site) from.entry.next (alt_view a.now) (length code.old.code)) }
    ensures next { IfOk result (λ n. n ≡ from.entry.next + rules.alt_scopes (alt_view a.now)) }
    ensures large { IfErr result (λ fault. fault ≡ Full →
        IsTooLarge (branches.open_branch (site_view from.entry.site) from.entry.next (alt_view a.now)) code.old) }
{
    add_branches(&a.spread, code.here(), from.site, &mut marks.starts)?;
    if is_terminate(&a.comm) {
        return keep_unseen(&a.rest, from.site, from.next, code);
    }
    choose(&a.spread, from.site, code)?;
    let next = met(&a.comm, from, code)?;
    let next = all(&a.rest, Position { next, ..from }, code)?;
    marks.end(from.site, code)?;
    Ok(next)
}

/// Of an accept its statement and the end of the meeting.
#[cycle(stmts)]
fn met(comm: &Comm, from: Position, code: &mut Coder) -> Result<u32, EmitFault>
    ensures code { OnOk result (IsMade (statements.met_code (site_view from.entry.site) from.entry.next (comm_view comm.now)) code.old code.new) }
    ensures next { IfOk result (λ n. n ≡ from.entry.next + rules.comm_scopes (comm_view comm.now)) }
    ensures large { IfErr result (λ fault. fault ≡ Full →
        IsTooLarge (statements.met_code (site_view from.entry.site) from.entry.next (comm_view comm.now)) code.old) }
{
    match comm {
        Comm::Accept(a, place) => meeting(a, from.site.at(place.line), from, code),
        Comm::Send(_, _, _) | Comm::Receive(_, _, _) | Comm::Timeout(_, _) | Comm::Terminate(_) =>
            Ok(from.next),
    }
}
