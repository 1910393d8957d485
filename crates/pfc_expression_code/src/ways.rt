//! What the code of an expression asks of the place where it stands.
ghost use Rattle.std.specs.Prelude.{◌≡◌, IfOk, IfErr};
ghost use Rattle.pfc_tree.specs.views.Exprs.{expr_view, desig_view, exprs_view, selectors_view, actuals_view};
ghost use Rattle.pfc_base.specs.declared.places.Place.{Place};
ghost use Rattle.pfc_tree.specs.trees.Exprs.{applied};
ghost use Rattle.pfc_types.specs.Scopes.{meaning_of};
ghost use Rattle.pfc_types.specs.Blocks.{sub_at};
ghost use Rattle.pfc_types.specs.rules.Expressions as rules;
ghost use Rattle.pfc_semantics.specs.Expressions.{spot_of, form_in};
ghost use Rattle.pfc_semantics.specs.Operators as operators;
ghost use Rattle.pfc_translation.specs.Addresses as addresses;
ghost use Rattle.pfc_translation.specs.Expressions as expressions;
ghost use Rattle.pfc_emit.specs.declared.emitter.EmitFault.TheVariants.{Memory as NoMemory};
ghost use Rattle.pfc_expression_code.specs.Lists as lists;
ghost use Rattle.pfc_expression_code.specs.Lists.{ways_in};

use crate::parts;
use crate::words::simple_number;
use pfc_addresses::{Base, Site};
use pfc_base::Name;
use pfc_code::Instr;
use pfc_emit::EmitFault;
use pfc_facts::simple_of;
use pfc_phrases::{callee_of, meaning_of, no_actual, no_selector, variable_type};
use pfc_tree::{Actual, Desig, Expr, Selector};
use pfc_types::{Formal, Meaning, TypeId};
use pfc_typing::{arguments_fit, name_type, selected_type};

/// What a name stands for.
#[tactic(auto, unfolding(crate::specs::Lists::ways_in))]
pub(crate) fn meaning(name: &Name, site: Site) -> Option<Meaning>
    ensures { result ≡ meaning_of (rules.find (ways_in site.entry).env name.now) }
{
    meaning_of(site.find(name))
}

/// The address of the variable that a name is, and its type.
#[tactic(auto, unfolding(crate::specs::Lists::ways_in))]
pub(crate) fn base(name: &Name, site: Site) -> Base
    ensures instr { result.instr ≡ (ways_in site.entry).base (spot_of (ways_in site.entry).env (rules.find (ways_in site.entry).env name.now)).spot }
    ensures t { result.t ≡ (spot_of (ways_in site.entry).env (rules.find (ways_in site.entry).env name.now)).t }
{
    site.base(name)
}

/// The parameters of the n-th sub.
#[tactic(auto, unfolding(crate::specs::Lists::ways_in))]
pub(crate) fn formals<'t>(n: u32, site: Site<'t, '_>) -> &'t [Formal]
    ensures { result.now ≡ (sub_at (ways_in site.entry).blocks n).formals }
{
    site.tables().scopes.sub_formals(n)
}

/// The call of the n-th sub.
#[tactic(auto, unfolding(crate::specs::Lists::ways_in))]
pub(crate) fn call(n: u32, site: Site) -> Instr
    ensures { result ≡ (ways_in site.entry).call (sub_at (ways_in site.entry).blocks n) }
{
    site.call(n)
}

/// The instruction that loads a part of a variable of type t.
#[tactic(auto, unfolding(crate::specs::Lists::ways_in))]
pub(crate) fn load(ss: &[Selector], t: TypeId, site: Site) -> Instr
    ensures { result ≡ lists.load_instr (ways_in site.entry) t (selectors_view ss.now) }
{
    let part = selected_type(ss, Some(t), site.env());
    Instr::LOAD(parts::type_cells(site.tables().types, part))
}

/// The number by which an instruction names a type.
pub(crate) fn type_number(t: Option<TypeId>) -> u32
    ensures { result ≡ expressions.simple_number (operators.simple_of t) }
{
    simple_number(simple_of(t))
}

/// The type of an expression, None where it is faulty.
#[tactic(auto, unfolding(crate::specs::Lists::ways_in))]
pub(crate) fn expr_type(e: &Expr, site: Site) -> Option<TypeId>
    ensures { result ≡ rules.expr_type (ways_in site.entry).env (expr_view e.now) }
{
    pfc_typing::expr_type(e, site.env())
}

/// The type of the first argument, None where there is none or it is faulty.
#[tactic(auto, unfolding(crate::specs::Lists::ways_in))]
pub(crate) fn first_type(args: &[Actual], site: Site) -> Option<TypeId>
    ensures { result ≡ rules.first_type (ways_in site.entry).env (actuals_view args.now) }
{
    pfc_typing::first_type(args, site.env())
}

/// The type of a name that is a factor, with selectors and arguments, None where it is faulty. The first argument has the type t: only
/// the others are walked.
#[tactic(auto, unfolding(crate::specs::Lists::ways_in))]
pub(crate) fn call_type(d: &Desig, args: &[Actual], t: Option<TypeId>, site: Site) -> Option<TypeId>
    requires { t ≡ rules.first_type (ways_in site).env (actuals_view args.now) }
    ensures { (p : Place) → result ≡ rules.factor_type (ways_in site.entry).env (applied (desig_view d.now) (actuals_view args.now) p) }
{
    let env = site.env();
    let found = site.find(&d.name);
    let (alone, bare) = (no_selector(&d.selectors), no_actual(args));
    let part = selected_type(&d.selectors, variable_type(meaning_of(found)), env);
    let fit = arguments_fit(args, t, callee_of(found, true, env).wants, env);
    name_type(found, alone, bare, part, fit, t, env)
}

/// The instruction of an index of something of type t.
#[tactic(auto, unfolding(crate::specs::Lists::ways_in))]
pub(crate) fn index_instr(t: Option<TypeId>, site: Site) -> Instr
    ensures { result ≡ addresses.index_instr (ways_in site.entry).forms (form_in (ways_in site.entry).forms t) }
{
    parts::index_instr(site.tables().types, t)
}

/// The type of an element.
#[tactic(auto, unfolding(crate::specs::Lists::ways_in))]
pub(crate) fn element_in(t: Option<TypeId>, site: Site) -> Option<TypeId>
    ensures { result ≡ addresses.element_in (ways_in site.entry).forms t }
{
    parts::element_in(site.tables().types, t)
}

/// The type behind some indices.
#[tactic(auto, unfolding(crate::specs::Lists::ways_in))]
pub(crate) fn type_behind(t: Option<TypeId>, es: &[Expr], site: Site) -> Option<TypeId>
    ensures { result ≡ addresses.type_behind (ways_in site.entry).forms t (exprs_view es.now) }
{
    parts::type_behind(site.tables().types, t, es)
}

/// The first cell of a field, counted from that of its record. A number of more than 32 bits is want of memory.
#[tactic(auto, unfolding(crate::specs::Lists::ways_in))]
pub(crate) fn field_cell(name: &Name, t: Option<TypeId>, site: Site) -> Result<u32, EmitFault>
    ensures value { IfOk result (λ cell. cell ≡ addresses.field_cell (ways_in site.entry).forms (form_in (ways_in site.entry).forms t) name.now) }
    ensures fault { IfErr result (λ fault. fault ≡ NoMemory) }
{
    parts::field_cell(site.tables().types, t, name)
}

/// The type of a field.
#[tactic(auto, unfolding(crate::specs::Lists::ways_in))]
pub(crate) fn field_type(name: &Name, t: Option<TypeId>, site: Site) -> Option<TypeId>
    ensures { result ≡ rules.field_type (ways_in site.entry).forms t name.now }
{
    pfc_phrases::field_type(site.tables().types, t, name)
}
