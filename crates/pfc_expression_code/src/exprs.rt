//! The code of expressions, of variables and of arguments: each phrase is put behind all that is there.
ghost use Rattle.std.specs.Prelude.{◌≡◌, ◌++◌, ◌<◌, length, if◌then◌else◌, true, OnOk, IfOk, IfErr};
ghost use Rattle.pfc_tree.specs.views.Exprs.{expr_view, simple_view, term_view, factor_view, desig_view, summands_view, multipliers_view, selectors_view};
ghost use Rattle.pfc_tree.specs.views.Exprs.{exprs_view, actual_view, actuals_view};
ghost use Rattle.pfc_tree.specs.trees.Exprs.{sum, product};
ghost use Rattle.pfc_types.specs.rules.Expressions as rules;
ghost use Rattle.pfc_emit.specs.declared.emitter.EmitFault.TheVariants.{Full};
ghost use Rattle.pfc_semantics.specs.Expressions.{spot_of};
ghost use Rattle.pfc_code.specs.declared.instructions.Instr.TheVariants.{SUCC, PRED};
ghost use Rattle.pfc_facts.specs.Views.{function_view};
ghost use Rattle.pfc_expression_code.specs.Lists as lists;
ghost use Rattle.pfc_expression_code.specs.Lists.{ways_in};

use crate::coder::put;
use crate::single::is_lone_simple;
use crate::ways::{
    base, call, call_type, element_in, expr_type, field_cell, field_type, first_type, formals,
    index_instr, load, meaning, type_behind, type_number,
};
use crate::words::{add_instr, multiply_instr, relation_instr};
use pfc_addresses::Site;
use pfc_base::{Name, Place};
use pfc_code::Instr;
use pfc_emit::{EmitFault, Emitter};
use pfc_facts::{Function, char_in, function_of};
use pfc_tree::{Actual, AddOp, Desig, Expr, Factor, MulOp, Selector, Sign, Simple, Term};
use pfc_types::{Formal, Meaning, TypeId};
use pfc_typing::{inverse_type, literal_type};

/// Puts the code of an expression.
#[cycle(exprs)]
pub(crate) fn expr(e: &Expr, site: Site, code: &mut Emitter) -> Result<(), EmitFault>
    ensures code { OnOk result (code.new ≡ code.old ++ lists.expr_list (ways_in site.entry) (expr_view e.now)) }
    ensures large { IfErr result (λ fault. fault ≡ Full → 200000 < length (code.old ++ lists.expr_list (ways_in site.entry) (expr_view e.now))) }
{
    simple(&e.left, site, code)?;
    match &e.right {
        Some((op, right)) => {
            simple(right, site, code)?;
            put(relation_instr(op.0), site, code)
        }
        None => Ok(()),
    }
}

#[cycle(exprs)]
#[tactic(auto, using(crate::proofs::Nodes::nodes, std::proofs::lemmas::Grind::common_steps))]
fn simple(s: &Simple, site: Site, code: &mut Emitter) -> Result<(), EmitFault>
    ensures code { OnOk result (code.new ≡ code.old ++ lists.simple_list (ways_in site.entry) (simple_view s.now)) }
    ensures large { IfErr result (λ fault. fault ≡ Full → 200000 < length (code.old ++ lists.simple_list (ways_in site.entry) (simple_view s.now))) }
{
    term(&s.first, site, code)?;
    sign(s.sign, site, code)?;
    summands(&s.rest, site, code)
}

/// The sign before a sum: `-` gives the negative.
fn sign(sign: Option<(Sign, Place)>, site: Site, code: &mut Emitter) -> Result<(), EmitFault>
    ensures code { OnOk result (code.new ≡ code.old ++ lists.sign_list (ways_in site.entry) sign) }
    ensures large { IfErr result (λ fault. fault ≡ Full → 200000 < length (code.old ++ lists.sign_list (ways_in site.entry) sign)) }
{
    match sign {
        Some((Sign::Minus, _)) => put(Instr::NEG, site, code),
        Some((Sign::Plus, _)) | None => Ok(()),
    }
}

#[cycle(exprs)]
fn summands(us: &[((AddOp, Place), Term)], site: Site, code: &mut Emitter) -> Result<(), EmitFault>
    ensures code { OnOk result (code.new ≡ code.old ++ lists.summands_list (ways_in site.entry) (summands_view us.now)) }
    ensures large { IfErr result (λ fault. fault ≡ Full → 200000 < length (code.old ++ lists.summands_list (ways_in site.entry) (summands_view us.now))) }
{
    for (op, u) in us {
        term(u, site, code)?;
        put(add_instr(op.0), site, code)?;
    }
    Ok(())
}

#[cycle(exprs)]
#[tactic(auto, using(crate::proofs::Nodes::nodes, std::proofs::lemmas::Grind::common_steps))]
fn term(t: &Term, site: Site, code: &mut Emitter) -> Result<(), EmitFault>
    ensures code { OnOk result (code.new ≡ code.old ++ lists.term_list (ways_in site.entry) (term_view t.now)) }
    ensures large { IfErr result (λ fault. fault ≡ Full → 200000 < length (code.old ++ lists.term_list (ways_in site.entry) (term_view t.now))) }
{
    factor(&t.first, site, code)?;
    multipliers(&t.rest, site, code)
}

#[cycle(exprs)]
fn multipliers(
    ms: &[((MulOp, Place), Factor)],
    site: Site,
    code: &mut Emitter,
) -> Result<(), EmitFault>
    ensures code { OnOk result (code.new ≡ code.old ++ lists.multipliers_list (ways_in site.entry) (multipliers_view ms.now)) }
    ensures large { IfErr result (λ fault. fault ≡ Full → 200000 < length (code.old ++ lists.multipliers_list (ways_in site.entry) (multipliers_view ms.now))) }
{
    for (op, f) in ms {
        factor(f, site, code)?;
        put(multiply_instr(op.0), site, code)?;
    }
    Ok(())
}

#[cycle(exprs)]
fn factor(f: &Factor, site: Site, code: &mut Emitter) -> Result<(), EmitFault>
    ensures code { OnOk result (code.new ≡ code.old ++ lists.factor_list (ways_in site.entry) (factor_view f.now)) }
    ensures large { IfErr result (λ fault. fault ≡ Full → 200000 < length (code.old ++ lists.factor_list (ways_in site.entry) (factor_view f.now))) }
{
    match f {
        Factor::Number(n, _) => put(Instr::LIT(*n), site, code),
        Factor::Literal(text, _) => put(Instr::LIT(char_in(text.bytes())), site, code),
        Factor::Not(negated, _) => {
            factor(negated, site, code)?;
            put(Instr::NOT, site, code)
        }
        Factor::Paren(e, _) => expr(e, site, code),
        Factor::Use(d, args, _) => match meaning(&d.name, site) {
            Some(Meaning::Constant { t: _, value }) => put(Instr::LIT(value), site, code),
            Some(Meaning::Variable { t, reference: _ }) => loaded(d, t, site, code),
            Some(Meaning::Sub(n)) => called(args, n, site, code),
            Some(Meaning::Predeclared(k)) => function(function_of(k), args, site, code),
            _ => Ok(()),
        },
    }
}

/// The value of a part of a variable of type t.
#[cycle(exprs)]
fn loaded(d: &Desig, t: TypeId, site: Site, code: &mut Emitter) -> Result<(), EmitFault>
    ensures code { OnOk result (code.new ≡ code.old ++ lists.loaded_list (ways_in site.entry) t (desig_view d.now)) }
    ensures large { IfErr result (λ fault. fault ≡ Full → 200000 < length (code.old ++ lists.loaded_list (ways_in site.entry) t (desig_view d.now))) }
{
    desig(d, site, code)?;
    put(load(&d.selectors, t, site), site, code)
}

/// A call of the n-th sub.
#[cycle(exprs)]
fn called(args: &[Actual], n: u32, site: Site, code: &mut Emitter) -> Result<(), EmitFault>
    ensures code { OnOk result (code.new ≡ code.old ++ lists.called_list (ways_in site.entry) n (actuals_view args.now)) }
    ensures large { IfErr result (λ fault. fault ≡ Full → 200000 < length (code.old ++ lists.called_list (ways_in site.entry) n (actuals_view args.now))) }
{
    pass(args, formals(n, site), site, code)?;
    put(call(n, site), site, code)
}

/// A predeclared function behind its argument.
#[cycle(exprs)]
fn function(f: Function, args: &[Actual], site: Site, code: &mut Emitter) -> Result<(), EmitFault>
    ensures code { OnOk result (code.new ≡ code.old
        ++ lists.function_list (ways_in site.entry) (function_view f) (rules.first_type (ways_in site.entry).env (actuals_view args.now))
        (lists.first_value_list (ways_in site.entry) (actuals_view args.now)) (lists.first_address_list (ways_in site.entry) (actuals_view args.now))) }
    ensures large { IfErr result (λ fault. fault ≡ Full → 200000 < length (code.old
        ++ lists.function_list (ways_in site.entry) (function_view f) (rules.first_type (ways_in site.entry).env (actuals_view args.now))
        (lists.first_value_list (ways_in site.entry) (actuals_view args.now)) (lists.first_address_list (ways_in site.entry) (actuals_view args.now)))) }
{
    match f {
        Function::Abs => applied(args, Instr::ABS, site, code),
        Function::Sqr => applied(args, Instr::SQR, site, code),
        Function::Odd => applied(args, Instr::ODD, site, code),
        Function::Ord => first_value(args, site, code),
        Function::Chr => applied(args, Instr::CHR, site, code),
        Function::Succ => {
            succ(args, site, code)?;
            Ok(())
        }
        Function::Pred => {
            pred(args, site, code)?;
            Ok(())
        }
        Function::Eof => put(Instr::EOF, site, code),
        Function::Eoln => put(Instr::EOLN, site, code),
        Function::Empty => {
            first_address(args, site, code)?;
            put(Instr::OBJ, site, code)?;
            put(Instr::EMPTY, site, code)
        }
        Function::Clock => put(Instr::CLOCK, site, code),
        Function::Random => applied(args, Instr::RAND, site, code),
        Function::NoFunction => Ok(()),
    }
}

/// `succ` behind its argument, whose type is given.
#[cycle(exprs)]
fn succ(args: &[Actual], site: Site, code: &mut Emitter) -> Result<Option<TypeId>, EmitFault>
    ensures code { OnOk result (code.new ≡ code.old ++ lists.first_value_list (ways_in site.entry) (actuals_view args.now)
        ++ lists.single (ways_in site.entry) (SUCC (lists.first_number (ways_in site.entry) (actuals_view args.now)))) }
    ensures t { IfOk result (λ t. t ≡ rules.first_type (ways_in site.entry).env (actuals_view args.now)) }
    ensures large { IfErr result (λ fault. fault ≡ Full → 200000 < length (code.old ++ lists.first_value_list (ways_in site.entry) (actuals_view args.now)
        ++ lists.single (ways_in site.entry) (SUCC (lists.first_number (ways_in site.entry) (actuals_view args.now))))) }
{
    let t = typed_first(args, site, code)?;
    put(Instr::SUCC(type_number(t)), site, code)?;
    Ok(t)
}

/// `pred` behind its argument, whose type is given.
#[cycle(exprs)]
fn pred(args: &[Actual], site: Site, code: &mut Emitter) -> Result<Option<TypeId>, EmitFault>
    ensures code { OnOk result (code.new ≡ code.old ++ lists.first_value_list (ways_in site.entry) (actuals_view args.now)
        ++ lists.single (ways_in site.entry) (PRED (lists.first_number (ways_in site.entry) (actuals_view args.now)))) }
    ensures t { IfOk result (λ t. t ≡ rules.first_type (ways_in site.entry).env (actuals_view args.now)) }
    ensures large { IfErr result (λ fault. fault ≡ Full → 200000 < length (code.old ++ lists.first_value_list (ways_in site.entry) (actuals_view args.now)
        ++ lists.single (ways_in site.entry) (PRED (lists.first_number (ways_in site.entry) (actuals_view args.now))))) }
{
    let t = typed_first(args, site, code)?;
    put(Instr::PRED(type_number(t)), site, code)?;
    Ok(t)
}

/// A predeclared function behind its argument, and the type of the argument.
#[cycle(exprs)]
fn typed_function(
    f: Function,
    args: &[Actual],
    site: Site,
    code: &mut Emitter,
) -> Result<Option<TypeId>, EmitFault>
    ensures code { OnOk result (code.new ≡ code.old
        ++ lists.function_list (ways_in site.entry) (function_view f) (rules.first_type (ways_in site.entry).env (actuals_view args.now))
        (lists.first_value_list (ways_in site.entry) (actuals_view args.now)) (lists.first_address_list (ways_in site.entry) (actuals_view args.now))) }
    ensures t { IfOk result (λ t. t ≡ rules.first_type (ways_in site.entry).env (actuals_view args.now)) }
    ensures large { IfErr result (λ fault. fault ≡ Full → 200000 < length (code.old
        ++ lists.function_list (ways_in site.entry) (function_view f) (rules.first_type (ways_in site.entry).env (actuals_view args.now))
        (lists.first_value_list (ways_in site.entry) (actuals_view args.now)) (lists.first_address_list (ways_in site.entry) (actuals_view args.now)))) }
{
    match f {
        Function::Succ => succ(args, site, code),
        Function::Pred => pred(args, site, code),
        _ => {
            function(f, args, site, code)?;
            Ok(first_type(args, site))
        }
    }
}

/// The value of the first argument and its type. Calls of `succ` and `pred` within one another are walked once.
#[cycle(exprs)]
fn typed_first(args: &[Actual], site: Site, code: &mut Emitter) -> Result<Option<TypeId>, EmitFault>
    ensures code { OnOk result (code.new ≡ code.old ++ lists.first_value_list (ways_in site.entry) (actuals_view args.now)) }
    ensures t { IfOk result (λ t. t ≡ rules.first_type (ways_in site.entry).env (actuals_view args.now)) }
    ensures large { IfErr result (λ fault. fault ≡ Full → 200000 < length (code.old ++ lists.first_value_list (ways_in site.entry) (actuals_view args.now))) }
{
    match args {
        [first, ..] => typed_expr(&first.value, site, code),
        [] => Ok(None),
    }
}

/// An expression and its type.
#[cycle(exprs)]
fn typed_expr(e: &Expr, site: Site, code: &mut Emitter) -> Result<Option<TypeId>, EmitFault>
    ensures code { OnOk result (code.new ≡ code.old ++ lists.expr_list (ways_in site.entry) (expr_view e.now)) }
    ensures t { IfOk result (λ t. t ≡ rules.expr_type (ways_in site.entry).env (expr_view e.now)) }
    ensures large { IfErr result (λ fault. fault ≡ Full → 200000 < length (code.old ++ lists.expr_list (ways_in site.entry) (expr_view e.now))) }
{
    if let None = &e.right {
        if is_lone_simple(&e.left) {
            return typed_lone(&e.left, site, code);
        }
    }
    expr(e, site, code)?;
    Ok(expr_type(e, site))
}

/// A sum that is one factor alone, and its type.
#[cycle(exprs)]
#[tactic(auto, using(crate::proofs::Nodes::nodes, crate::proofs::Lone::lone_same))]
fn typed_lone(s: &Simple, site: Site, code: &mut Emitter) -> Result<Option<TypeId>, EmitFault>
    requires { lists.is_lone_simple (simple_view s.now) ≡ true }
    ensures code { OnOk result (code.new ≡ code.old ++ lists.simple_list (ways_in site.entry) (simple_view s.now)) }
    ensures t { IfOk result (λ t. t ≡ rules.simple_type (ways_in site.entry).env (simple_view s.now)) }
    ensures large { IfErr result (λ fault. fault ≡ Full → 200000 < length (code.old ++ lists.simple_list (ways_in site.entry) (simple_view s.now))) }
{
    typed_factor(&s.first.first, site, code)
}

/// A factor and its type.
#[cycle(exprs)]
fn typed_factor(f: &Factor, site: Site, code: &mut Emitter) -> Result<Option<TypeId>, EmitFault>
    ensures code { OnOk result (code.new ≡ code.old ++ lists.factor_list (ways_in site.entry) (factor_view f.now)) }
    ensures t { IfOk result (λ t. t ≡ rules.factor_type (ways_in site.entry).env (factor_view f.now)) }
    ensures large { IfErr result (λ fault. fault ≡ Full → 200000 < length (code.old ++ lists.factor_list (ways_in site.entry) (factor_view f.now))) }
{
    match f {
        Factor::Number(_, _) => {
            factor(f, site, code)?;
            Ok(Some(TypeId::INTEGER))
        }
        Factor::Literal(text, _) => {
            factor(f, site, code)?;
            Ok(literal_type(text.bytes()))
        }
        Factor::Not(negated, _) => {
            let t = typed_factor(negated, site, code)?;
            put(Instr::NOT, site, code)?;
            Ok(inverse_type(t))
        }
        Factor::Paren(e, _) => typed_expr(e, site, code),
        Factor::Use(d, args, _) => match meaning(&d.name, site) {
            Some(Meaning::Predeclared(k)) => {
                let first = typed_function(function_of(k), args, site, code)?;
                Ok(call_type(d, args, first, site))
            }
            _ => {
                factor(f, site, code)?;
                let first = first_type(args, site);
                Ok(call_type(d, args, first, site))
            }
        },
    }
}

/// An instruction behind the value of the first argument.
#[cycle(exprs)]
fn applied(args: &[Actual], instr: Instr, site: Site, code: &mut Emitter) -> Result<(), EmitFault>
    ensures code { OnOk result (code.new ≡ code.old ++ lists.first_value_list (ways_in site.entry) (actuals_view args.now)
        ++ lists.single (ways_in site.entry) instr) }
    ensures large { IfErr result (λ fault. fault ≡ Full → 200000 < length (code.old
        ++ lists.first_value_list (ways_in site.entry) (actuals_view args.now) ++ lists.single (ways_in site.entry) instr)) }
{
    first_value(args, site, code)?;
    put(instr, site, code)
}

/// The value of the first argument; nothing where there is none.
#[cycle(exprs)]
pub(crate) fn first_value(args: &[Actual], site: Site, code: &mut Emitter) -> Result<(), EmitFault>
    ensures code { OnOk result (code.new ≡ code.old ++ lists.first_value_list (ways_in site.entry) (actuals_view args.now)) }
    ensures large { IfErr result (λ fault. fault ≡ Full → 200000 < length (code.old ++ lists.first_value_list (ways_in site.entry) (actuals_view args.now))) }
{
    match args {
        [first, ..] => actual(first, site, code),
        [] => Ok(()),
    }
}

/// The address of the first argument; nothing where there is none or it is no variable.
#[cycle(exprs)]
pub(crate) fn first_address(
    args: &[Actual],
    site: Site,
    code: &mut Emitter,
) -> Result<(), EmitFault>
    ensures code { OnOk result (code.new ≡ code.old ++ lists.first_address_list (ways_in site.entry) (actuals_view args.now)) }
    ensures large { IfErr result (λ fault. fault ≡ Full → 200000 < length (code.old ++ lists.first_address_list (ways_in site.entry) (actuals_view args.now))) }
{
    match args {
        [first, ..] => lent(first, site, code),
        [] => Ok(()),
    }
}

/// The value of an argument.
#[cycle(exprs)]
fn actual(a: &Actual, site: Site, code: &mut Emitter) -> Result<(), EmitFault>
    ensures code { OnOk result (code.new ≡ code.old ++ lists.actual_list (ways_in site.entry) (actual_view a.now)) }
    ensures large { IfErr result (λ fault. fault ≡ Full → 200000 < length (code.old ++ lists.actual_list (ways_in site.entry) (actual_view a.now))) }
{
    expr(&a.value, site, code)
}

/// The address of an argument for a reference.
#[cycle(exprs)]
fn lent(a: &Actual, site: Site, code: &mut Emitter) -> Result<(), EmitFault>
    ensures code { OnOk result (code.new ≡ code.old ++ lists.lent_list (ways_in site.entry) (actual_view a.now)) }
    ensures large { IfErr result (λ fault. fault ≡ Full → 200000 < length (code.old ++ lists.lent_list (ways_in site.entry) (actual_view a.now))) }
{
    variable(&a.value, site, code)
}

/// The address of the variable that an expression is; nothing where it is none.
#[cycle(exprs)]
fn variable(e: &Expr, site: Site, code: &mut Emitter) -> Result<(), EmitFault>
    ensures code { OnOk result (code.new ≡ code.old ++ lists.variable_list (ways_in site.entry) (expr_view e.now)) }
    ensures large { IfErr result (λ fault. fault ≡ Full → 200000 < length (code.old ++ lists.variable_list (ways_in site.entry) (expr_view e.now))) }
{
    match &e.right {
        Some(_) => Ok(()),
        None => lone_simple(&e.left, site, code),
    }
}

/// The same of a sum: one without a sign that is its first term alone.
#[cycle(exprs)]
#[tactic(auto, using(crate::proofs::Nodes::nodes))]
fn lone_simple(s: &Simple, site: Site, code: &mut Emitter) -> Result<(), EmitFault>
    ensures code { OnOk result (code.new ≡ code.old ++ lists.lone_simple_list (ways_in site.entry) (simple_view s.now)) }
    ensures large { IfErr result (λ fault. fault ≡ Full → 200000 < length (code.old ++ lists.lone_simple_list (ways_in site.entry) (simple_view s.now))) }
{
    lone_sum(&s.first, s.sign, &s.rest, site, code)
}

/// The same of a first term with a sign and with others.
#[cycle(exprs)]
fn lone_sum(
    first: &Term,
    sign: Option<(Sign, Place)>,
    rest: &[((AddOp, Place), Term)],
    site: Site,
    code: &mut Emitter,
) -> Result<(), EmitFault>
    ensures code { OnOk result (code.new ≡ code.old ++ lists.lone_simple_list (ways_in site.entry) (sum sign (term_view first.now) (summands_view rest.now))) }
    ensures large { IfErr result (λ fault. fault ≡ Full → 200000 < length (code.old
        ++ lists.lone_simple_list (ways_in site.entry) (sum sign (term_view first.now) (summands_view rest.now)))) }
{
    if sign.is_some() {
        return Ok(());
    }
    match rest {
        [] => lone_term(first, site, code),
        [_next, _more @ ..] => Ok(()),
    }
}

/// The same of a term that is its first factor alone.
#[cycle(exprs)]
#[tactic(auto, using(crate::proofs::Nodes::nodes))]
fn lone_term(t: &Term, site: Site, code: &mut Emitter) -> Result<(), EmitFault>
    ensures code { OnOk result (code.new ≡ code.old ++ lists.lone_term_list (ways_in site.entry) (term_view t.now)) }
    ensures large { IfErr result (λ fault. fault ≡ Full → 200000 < length (code.old ++ lists.lone_term_list (ways_in site.entry) (term_view t.now))) }
{
    lone_product(&t.first, &t.rest, site, code)
}

/// The same of a first factor with others.
#[cycle(exprs)]
fn lone_product(
    first: &Factor,
    rest: &[((MulOp, Place), Factor)],
    site: Site,
    code: &mut Emitter,
) -> Result<(), EmitFault>
    ensures code { OnOk result (code.new ≡ code.old
        ++ lists.lone_term_list (ways_in site.entry) (product (factor_view first.now) (multipliers_view rest.now))) }
    ensures large { IfErr result (λ fault. fault ≡ Full → 200000 < length (code.old
        ++ lists.lone_term_list (ways_in site.entry) (product (factor_view first.now) (multipliers_view rest.now)))) }
{
    match rest {
        [] => lone_factor(first, site, code),
        [_next, _more @ ..] => Ok(()),
    }
}

/// The same of a factor that is a name.
#[cycle(exprs)]
fn lone_factor(f: &Factor, site: Site, code: &mut Emitter) -> Result<(), EmitFault>
    ensures code { OnOk result (code.new ≡ code.old ++ lists.lone_factor_list (ways_in site.entry) (factor_view f.now)) }
    ensures large { IfErr result (λ fault. fault ≡ Full → 200000 < length (code.old ++ lists.lone_factor_list (ways_in site.entry) (factor_view f.now))) }
{
    match f {
        Factor::Use(d, args, _) => lone_name(d, args, site, code),
        Factor::Number(_, _) => Ok(()),
        Factor::Literal(_, _) => Ok(()),
        Factor::Not(_, _) => Ok(()),
        Factor::Paren(_, _) => Ok(()),
    }
}

/// The same of a name, where it has no arguments.
#[cycle(exprs)]
fn lone_name(d: &Desig, args: &[Actual], site: Site, code: &mut Emitter) -> Result<(), EmitFault>
    ensures code { OnOk result (code.new ≡ code.old ++ lists.lone_list (actuals_view args.now) (lists.desig_list (ways_in site.entry) (desig_view d.now))) }
    ensures large { IfErr result (λ fault. fault ≡ Full → 200000 < length (code.old
        ++ lists.lone_list (actuals_view args.now) (lists.desig_list (ways_in site.entry) (desig_view d.now)))) }
{
    match args {
        [] => desig(d, site, code),
        [_first, _rest @ ..] => Ok(()),
    }
}

/// Arguments by their parameters: a value, or an address for a reference.
#[cycle(exprs)]
pub(crate) fn pass(
    args: &[Actual],
    formals: &[Formal],
    site: Site,
    code: &mut Emitter,
) -> Result<(), EmitFault>
    ensures code { OnOk result (code.new ≡ code.old ++ lists.args_list (ways_in site.entry) formals.now (actuals_view args.now)) }
    ensures large { IfErr result (λ fault. fault ≡ Full → 200000 < length (code.old
        ++ lists.args_list (ways_in site.entry) formals.now (actuals_view args.now))) }
{
    let mut left = formals;
    for a in args {
        let [formal, rest @ ..] = left else {
            return Ok(())
        };
        argument(a, formal.reference, site, code)?;
        left = rest;
    }
    Ok(())
}

/// An argument for a reference or for a value.
#[cycle(exprs)]
fn argument(a: &Actual, reference: bool, site: Site, code: &mut Emitter) -> Result<(), EmitFault>
    ensures code { OnOk result (code.new ≡ code.old
        ++ (if reference then lists.lent_list (ways_in site.entry) (actual_view a.now) else lists.actual_list (ways_in site.entry) (actual_view a.now))) }
    ensures large { IfErr result (λ fault. fault ≡ Full → 200000 < length (code.old
        ++ (if reference then lists.lent_list (ways_in site.entry) (actual_view a.now) else lists.actual_list (ways_in site.entry) (actual_view a.now)))) }
{
    if reference {
        lent(a, site, code)
    } else {
        actual(a, site, code)
    }
}

/// The address of a variable with its selectors.
#[cycle(exprs)]
pub(crate) fn desig(d: &Desig, site: Site, code: &mut Emitter) -> Result<(), EmitFault>
    ensures code { OnOk result (code.new ≡ code.old ++ lists.desig_list (ways_in site.entry) (desig_view d.now)) }
    ensures large { IfErr result (λ fault. fault ≡ Full → 200000 < length (code.old ++ lists.desig_list (ways_in site.entry) (desig_view d.now))) }
{
    address(&d.selectors, &d.name, site, code)
}

/// The address of the variable that a name is, with selectors.
#[cycle(exprs)]
pub(crate) fn address(
    ss: &[Selector],
    name: &Name,
    site: Site,
    code: &mut Emitter,
) -> Result<(), EmitFault>
    ensures code { OnOk result (code.new ≡ code.old
        ++ lists.part_list (ways_in site.entry) (spot_of (ways_in site.entry).env (rules.find (ways_in site.entry).env name.now)) (selectors_view ss.now)) }
    ensures large { IfErr result (λ fault. fault ≡ Full → 200000 < length (code.old
        ++ lists.part_list (ways_in site.entry) (spot_of (ways_in site.entry).env (rules.find (ways_in site.entry).env name.now)) (selectors_view ss.now))) }
{
    let found = base(name, site);
    put(found.instr, site, code)?;
    selectors(ss, found.t, site, code)
}

/// An object: its address, OBJ.
pub(crate) fn object(d: &Desig, site: Site, code: &mut Emitter) -> Result<(), EmitFault>
    ensures code { OnOk result (code.new ≡ code.old ++ lists.object_list (ways_in site.entry) (desig_view d.now)) }
    ensures large { IfErr result (λ fault. fault ≡ Full → 200000 < length (code.old ++ lists.object_list (ways_in site.entry) (desig_view d.now))) }
{
    desig(d, site, code)?;
    put(Instr::OBJ, site, code)
}

/// Selectors behind an address of something of type t.
#[cycle(exprs)]
pub(crate) fn selectors(
    ss: &[Selector],
    t: Option<TypeId>,
    site: Site,
    code: &mut Emitter,
) -> Result<(), EmitFault>
    ensures code { OnOk result (code.new ≡ code.old ++ lists.selectors_list (ways_in site.entry) t (selectors_view ss.now)) }
    ensures large { IfErr result (λ fault. fault ≡ Full → 200000 < length (code.old ++ lists.selectors_list (ways_in site.entry) t (selectors_view ss.now))) }
{
    let mut behind = t;
    for s in ss {
        match s {
            Selector::Index(es, _) => {
                indices(es, behind, site, code)?;
                behind = type_behind(behind, es, site);
            }
            Selector::Field(name, _) => {
                let cell = field_cell(name, behind, site)?;
                put(Instr::FLD(cell), site, code)?;
                behind = field_type(name, behind, site);
            }
        }
    }
    Ok(())
}

/// Indices behind an address of something of type t.
#[cycle(exprs)]
fn indices(es: &[Expr], t: Option<TypeId>, site: Site, code: &mut Emitter) -> Result<(), EmitFault>
    ensures code { OnOk result (code.new ≡ code.old ++ lists.indices_list (ways_in site.entry) t (exprs_view es.now)) }
    ensures large { IfErr result (λ fault. fault ≡ Full → 200000 < length (code.old ++ lists.indices_list (ways_in site.entry) t (exprs_view es.now))) }
{
    let mut behind = t;
    for e in es {
        expr(e, site, code)?;
        put(index_instr(behind, site), site, code)?;
        behind = element_in(behind, site);
    }
    Ok(())
}
