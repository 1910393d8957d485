//! What is called, and what it wants of its arguments.
ghost use Rattle.std.specs.Prelude.{◌≡◌, ◌∷◌, [], MatchOption, length};
ghost use Rattle.pfc_types.specs.rules.Routines as routines;
ghost use Rattle.pfc_phrases.specs.Found.{noted, refused};
ghost use Rattle.pfc_phrases.specs.Views.{want_view, wants_view, site_view, gives_view, routine_view, callee_view};

use crate::{
    Best, fault_unless, has, has_object, has_simple, may_be_simple, may_have, value_fault,
};
use pfc_base::{Place, Refusal};
use pfc_types::{Around, Formal, Meaning, PredeclaredName, Scopes, SubSort, TypeId, TypeTable};

/// What an argument has to be.
#[derive(Clone, Copy, Debug, PartialEq, Eq)]
pub enum Want {
    /// A value of this type; None for a parameter whose type is faulty, of which nothing is wanted.
    Value(Option<TypeId>),
    /// A value of a simple type.
    SimpleValue,
    /// A variable of this type, for a reference.
    VariableOf(Option<TypeId>),
}

/// What the arguments of a call have to be.
#[derive(Clone, Copy)]
pub enum Wants<'a> {
    /// One value of a simple type.
    OneSimple,
    /// An argument for each of these.
    Formals(&'a [Formal]),
}

/// Where a predeclared name may be called.
#[derive(Clone, Copy, Debug, PartialEq, Eq)]
pub enum Site {
    Anywhere,
    /// In the main body.
    InMain,
    /// In a sub of the condition's monitor.
    InMonitorSub,
}

/// The type of a predeclared function's value.
#[derive(Clone, Copy, Debug, PartialEq, Eq)]
pub(crate) enum Gives {
    Always(TypeId),
    /// The type of the argument.
    Alike,
}

/// A predeclared name that is no type and no constant.
#[derive(Clone, Copy)]
pub(crate) enum Routine<'a> {
    /// `any`, the one value of `synchronous`.
    Signal,
    Function(Wants<'a>, Gives, Site),
    Procedure(Wants<'a>, Site),
    /// `delay`, which takes one argument or two.
    Delay,
    /// `read` and `readln`; whether at least one argument is wanted.
    Reader(bool),
    /// `write` and `writeln`; whether at least one argument is wanted.
    Writer(bool),
}

/// What is called, where it can be asked for its arguments, and where it may stand.
#[derive(Clone, Copy)]
pub struct Callee<'a> {
    pub known: bool,
    pub wants: Wants<'a>,
    pub site: Site,
}

/// What an argument for a parameter has to be.
fn want_of(f: Formal) -> Want
    ensures { want_view result ≡ routines.want_of f }
{
    if f.reference {
        Want::VariableOf(f.t)
    } else {
        Want::Value(f.t)
    }
}

impl<'a> Wants<'a> {
    /// How many arguments are wanted.
    pub fn len(self) -> usize
        ensures { result ≡ length (wants_view self.entry) }
    {
        match self {
            Wants::OneSimple => 1,
            Wants::Formals(formals) => formals.len(),
        }
    }

    /// What the first argument has to be, and what those behind it.
    pub fn split(self) -> Option<(Want, Wants<'a>)>
        ensures { MatchOption result (wants_view self.entry ≡ []) (λ r. wants_view self.entry ≡ want_view r.0 ∷ wants_view r.1) }
    {
        match self {
            Wants::OneSimple => Some((Want::SimpleValue, Wants::Formals(&[]))),
            Wants::Formals([first, rest @ ..]) => Some((want_of(*first), Wants::Formals(rest))),
            Wants::Formals([]) => None,
        }
    }
}

const INTEGER: Formal = Formal {
    t: Some(TypeId::INTEGER),
    reference: false,
};

const SEMAPHORE: Formal = Formal {
    t: Some(TypeId::SEMAPHORE),
    reference: true,
};

const CONDITION: Formal = Formal {
    t: Some(TypeId::CONDITION),
    reference: true,
};

const NO_ARGUMENT: Wants = Wants::Formals(&[]);

const ONE_INTEGER: Wants = Wants::Formals(&[INTEGER]);

const ONE_SEMAPHORE: Wants = Wants::Formals(&[SEMAPHORE]);

const ONE_CONDITION: Wants = Wants::Formals(&[CONDITION]);

const SEMAPHORE_AND_INTEGER: Wants = Wants::Formals(&[SEMAPHORE, INTEGER]);

const RANKED_CONDITION: Wants = Wants::Formals(&[CONDITION, INTEGER]);

const BOOLEAN_VALUE: Gives = Gives::Always(TypeId::BOOLEAN);

const INTEGER_VALUE: Gives = Gives::Always(TypeId::INTEGER);

const CHAR_VALUE: Gives = Gives::Always(TypeId::CHAR);

/// What a predeclared name is called with, what it gives, and where it may be called.
pub(crate) fn routine_of(k: PredeclaredName) -> Routine<'static>
    ensures { routine_view result ≡ routines.routine_of k }
{
    match k {
        PredeclaredName::Any => Routine::Signal,
        PredeclaredName::Abs => Routine::Function(ONE_INTEGER, INTEGER_VALUE, Site::Anywhere),
        PredeclaredName::Sqr => Routine::Function(ONE_INTEGER, INTEGER_VALUE, Site::Anywhere),
        PredeclaredName::Odd => Routine::Function(ONE_INTEGER, BOOLEAN_VALUE, Site::Anywhere),
        PredeclaredName::Ord => Routine::Function(Wants::OneSimple, INTEGER_VALUE, Site::Anywhere),
        PredeclaredName::Chr => Routine::Function(ONE_INTEGER, CHAR_VALUE, Site::Anywhere),
        PredeclaredName::Succ => Routine::Function(Wants::OneSimple, Gives::Alike, Site::Anywhere),
        PredeclaredName::Pred => Routine::Function(Wants::OneSimple, Gives::Alike, Site::Anywhere),
        PredeclaredName::Eof => Routine::Function(NO_ARGUMENT, BOOLEAN_VALUE, Site::Anywhere),
        PredeclaredName::Eoln => Routine::Function(NO_ARGUMENT, BOOLEAN_VALUE, Site::Anywhere),
        PredeclaredName::Empty => Routine::Function(
            ONE_CONDITION,
            BOOLEAN_VALUE,
            Site::InMonitorSub,
        ),
        PredeclaredName::Clock => Routine::Function(NO_ARGUMENT, INTEGER_VALUE, Site::Anywhere),
        PredeclaredName::Random => Routine::Function(ONE_INTEGER, INTEGER_VALUE, Site::Anywhere),
        PredeclaredName::Read => Routine::Reader(true),
        PredeclaredName::Readln => Routine::Reader(false),
        PredeclaredName::Write => Routine::Writer(true),
        PredeclaredName::Writeln => Routine::Writer(false),
        PredeclaredName::Initial => Routine::Procedure(SEMAPHORE_AND_INTEGER, Site::InMain),
        PredeclaredName::Wait => Routine::Procedure(ONE_SEMAPHORE, Site::Anywhere),
        PredeclaredName::Signal => Routine::Procedure(ONE_SEMAPHORE, Site::Anywhere),
        PredeclaredName::Delay => Routine::Delay,
        PredeclaredName::Resume => Routine::Procedure(ONE_CONDITION, Site::InMonitorSub),
        PredeclaredName::Sleep => Routine::Procedure(ONE_INTEGER, Site::Anywhere),
    }
}

/// Whether a predeclared name stands in guards: `abs`, `sqr`, `odd`, `ord`, `chr`, `succ` and `pred`.
pub(crate) fn guard_function(k: PredeclaredName) -> bool
    ensures { result ≡ routines.guard_function k }
{
    matches!(
        k,
        PredeclaredName::Abs
            | PredeclaredName::Sqr
            | PredeclaredName::Odd
            | PredeclaredName::Ord
            | PredeclaredName::Chr
            | PredeclaredName::Succ
            | PredeclaredName::Pred
    )
}

/// What `delay` wants where it has n arguments: a condition, and behind it a rank where there are more than one.
pub(crate) fn delay_wants(n: usize) -> Wants<'static>
    ensures { wants_view result ≡ routines.delay_wants n }
{
    if n > 1 {
        RANKED_CONDITION
    } else {
        ONE_CONDITION
    }
}

/// The argument may have the type that is wanted: one of them may be faulty.
fn may_suit(t: Option<TypeId>, u: Option<TypeId>) -> bool
    ensures { result ≡ routines.may_suit t u }
{
    match t {
        None => true,
        Some(t) => may_have(t, u),
    }
}

/// The argument has the type that is wanted.
fn suits(t: Option<TypeId>, u: Option<TypeId>) -> bool
    ensures { result ≡ routines.suits t u }
{
    match t {
        None => false,
        Some(t) => has(t, u),
    }
}

/// No rule is broken between an argument and what is wanted, and neither is faulty; `lent` says that the argument is a
/// variable.
pub fn fits_want(types: &TypeTable, want: Want, lent: bool, u: Option<TypeId>) -> bool
    ensures { result ≡ routines.fits_want types.now (want_view want) lent u }
{
    match want {
        Want::Value(t) => suits(t, u) && !has_object(types, u),
        Want::SimpleValue => has_simple(u),
        Want::VariableOf(t) => suits(t, u) && lent,
    }
}

/// 317: an argument has the type of its formal. 318: an argument for a reference is a variable. 406: no object type is
/// passed by value. All at the argument.
pub(crate) fn want_rules(
    types: &TypeTable,
    want: Want,
    lent: bool,
    u: Option<TypeId>,
    place: Place,
    best: &mut Best,
)
    ensures { best.new ≡ noted best.old (routines.want_rules types.now (want_view want) lent u place) }
{
    match want {
        Want::Value(t) => {
            best.unless(may_suit(t, u), place, 317);
            best.add(value_fault(types, u, place));
        }
        Want::SimpleValue => {
            best.unless(may_be_simple(u), place, 317);
            best.add(value_fault(types, u, place));
        }
        Want::VariableOf(t) => {
            best.unless(may_suit(t, u), place, 317);
            best.unless(lent, place, 318);
        }
    }
}

/// Whether a predeclared name may be called where it is; `first` is the type of its first argument.
pub fn site_fits(around: Around, site: Site, first: Option<TypeId>) -> bool
    ensures { result ≡ routines.site_fits around (site_view site) first }
{
    match site {
        Site::Anywhere => true,
        Site::InMain => around.main,
        Site::InMonitorSub => around.sub || !has(TypeId::CONDITION, first),
    }
}

/// 403: `initial` stands in the main body. 408: `delay`, `resume` and `empty` stand in a sub of the condition's monitor.
/// At the name.
pub(crate) fn site_fault(
    around: Around,
    site: Site,
    first: Option<TypeId>,
    place: Place,
) -> Option<Refusal>
    ensures { refused result ≡ routines.site_rule around (site_view site) first place }
{
    match site {
        Site::Anywhere => None,
        Site::InMain => fault_unless(around.main, place, 403),
        Site::InMonitorSub => fault_unless(
            around.sub || !has(TypeId::CONDITION, first),
            place,
            408,
        ),
    }
}

impl<'a> Callee<'a> {
    /// What is asked for no argument.
    pub const NOTHING: Callee<'static> = Callee {
        known: false,
        wants: Wants::Formals(&[]),
        site: Site::Anywhere,
    };

    /// What is called with these arguments, at this site.
    pub fn new(wants: Wants<'a>, site: Site) -> Callee<'a>
        ensures { callee_view result ≡ routines.called_with (wants_view wants.entry) (site_view site) }
    {
        Callee {
            known: true,
            wants,
            site,
        }
    }
}

/// A function that is called in an expression.
pub(crate) fn called_function(scopes: &Scopes, m: Option<Meaning>) -> Callee<'_>
    ensures { callee_view result ≡ routines.called_function scopes.now m }
{
    match m {
        Some(Meaning::Sub(n)) => called_sort(scopes.sub_sort(n), scopes.sub_formals(n)),
        Some(Meaning::Predeclared(k)) => called_routine(routine_of(k)),
        _ => Callee::NOTHING,
    }
}

/// A sub that is called in an expression.
fn called_sort(sort: SubSort, formals: &[Formal]) -> Callee<'_>
    ensures { callee_view result ≡ routines.called_sort sort formals.now }
{
    match sort {
        SubSort::Procedure | SubSort::Guarded => Callee::NOTHING,
        SubSort::Function(_) => Callee::new(Wants::Formals(formals), Site::Anywhere),
    }
}

/// A predeclared name that is called in an expression.
fn called_routine<'a>(routine: Routine<'a>) -> Callee<'a>
    ensures { callee_view result ≡ routines.called_routine (routine_view routine.entry) }
{
    match routine {
        Routine::Function(wants, _, site) => Callee::new(wants, site),
        Routine::Signal
        | Routine::Procedure(_, _)
        | Routine::Delay
        | Routine::Reader(_)
        | Routine::Writer(_) => Callee::NOTHING,
    }
}

/// The type of a sub's value.
pub fn sort_value(sort: SubSort) -> Option<TypeId>
    ensures { result ≡ routines.sort_value sort }
{
    match sort {
        SubSort::Function(t) => t,
        SubSort::Procedure | SubSort::Guarded => None,
    }
}

/// The type of a predeclared name's value, whose first argument has this type.
pub(crate) fn routine_value(routine: Routine, first: Option<TypeId>) -> Option<TypeId>
    ensures { result ≡ routines.routine_value (routine_view routine.entry) first }
{
    match routine {
        Routine::Function(_, Gives::Always(t), _) => Some(t),
        Routine::Function(_, Gives::Alike, _) => first,
        Routine::Signal
        | Routine::Procedure(_, _)
        | Routine::Delay
        | Routine::Reader(_)
        | Routine::Writer(_) => None,
    }
}

/// Whether a sub is a function.
pub(crate) fn is_function_sort(sort: SubSort) -> bool
    ensures { result ≡ routines.is_function_sort sort }
{
    matches!(sort, SubSort::Function(_))
}

/// Whether a predeclared name is `any`.
pub(crate) fn is_signal(routine: Routine) -> bool
    ensures { result ≡ routines.is_signal (routine_view routine.entry) }
{
    matches!(routine, Routine::Signal)
}

/// Whether a predeclared name is a function.
pub(crate) fn is_function_routine(routine: Routine) -> bool
    ensures { result ≡ routines.is_function_routine (routine_view routine.entry) }
{
    matches!(routine, Routine::Function(_, _, _))
}

/// Whether a name is `any`, as it is predeclared.
pub fn is_any(m: Option<Meaning>) -> bool
    ensures { result ≡ routines.is_any m }
{
    match m {
        Some(Meaning::Predeclared(k)) => is_signal(routine_of(k)),
        _ => false,
    }
}
