//! The names in view at a place of the text.
ghost use Rattle.std.specs.Prelude.{◌≡◌, map, bytes_eq};
ghost use Rattle.std.specs.Map.{lookup};
ghost use Rattle.pfc_types.specs.Scopes.{found_in, found_at, predeclared, predeclared_names, meaning_in};
ghost use Rattle.pfc_types.specs.Views.{levels};

use crate::{Meaning, PredeclaredName, Scopes, TypeId};
use pfc_base::Name;

/// The names in view at a place: the first `count` names of the scope with this number, and around them those that
/// are in view outside. It lives on the stack and takes no memory.
#[derive(Clone, Copy)]
pub struct View<'a> {
    /// The number of the scope, from 0 in the order of the text.
    pub scope: u32,
    /// How many of its names are in view.
    pub count: u32,
    /// What is in view around it; None for the program's own block.
    pub outer: Option<&'a View<'a>>,
}

/// What a name in view was found to be.
#[derive(Clone, Copy, Debug, PartialEq, Eq)]
pub struct Found {
    /// The number of the scope that declares it; None for a predeclared name.
    pub scope: Option<u32>,
    /// Its place in that scope, from 0, in the order of the layout; 0 for a predeclared name.
    pub place: u32,
    pub meaning: Meaning,
}

/// What the tree around a place says of it.
#[derive(Clone, Copy, Debug, PartialEq, Eq)]
pub struct Around {
    /// It stands in the program's own body.
    pub main: bool,
    /// It stands between `cobegin` and `coend`.
    pub cobegin: bool,
    /// It stands in a process, whose subs count.
    pub process: bool,
    /// It stands in a sub.
    pub sub: bool,
    /// It stands in the body of a guarded procedure, outside its subs.
    pub guarded: bool,
    /// It stands in a guard: the number of the resource's scope.
    pub guard: Option<u32>,
}

/// What a name in view is, None exactly where it is not in view: the innermost declaration counts, and the predeclared
/// names stand around all scopes. It takes no memory.
pub fn find(scopes: &Scopes, view: &View, name: &Name) -> Option<Found>
    ensures { result ≡ found_in scopes.now.scopes (levels view.now) name.now }
{
    let here = find_at(scopes, view.scope, view.count, name);
    if here.is_some() {
        return here;
    }
    match view.outer {
        Some(outer) => find(scopes, outer, name),
        None => find_predeclared(name),
    }
}

/// What a name is among the first names of one scope.
fn find_at(scopes: &Scopes, scope: u32, count: u32, name: &Name) -> Option<Found>
    ensures { result ≡ found_at scopes.now.scopes (record { scope = scope; count = count }) name.now }
{
    if scopes.len() <= scope {
        return None;
    }
    let names = scopes.at(scope);
    let (place, meaning) = names.look_up(name)?;
    if count <= place {
        return None;
    }
    Some(Found {
        scope: Some(scope),
        place,
        meaning,
    })
}

/// What a predeclared name is.
fn find_predeclared(name: &Name) -> Option<Found>
    ensures { result ≡ predeclared name.now }
{
    let meaning = predeclared_meaning(name.bytes())?;
    Some(Found {
        scope: None,
        place: 0,
        meaning,
    })
}

/// What a predeclared name stands for.
fn predeclared_meaning(name: &[u8]) -> Option<Meaning>
    ensures { result ≡ meaning_in predeclared_names name.now }
{
    look_up(&PREDECLARED, name)
}

/// What a name stands for in a table.
fn look_up(table: &[(&[u8], Meaning)], name: &[u8]) -> Option<Meaning>
    ensures { result ≡ lookup (bytes_eq name.now) (map (λ e. (e.0.now, e.1)) table.now) }
{
    for entry in table {
        if is_same(name, entry.0) {
            return Some(entry.1);
        }
    }
    None
}

/// Whether two names are the same: lengths of their own tell most of them apart.
fn is_same(name: &[u8], other: &[u8]) -> bool
    ensures { result ≡ bytes_eq name.now other.now }
{
    name.len() == other.len() && name == other
}

/// The predeclared names with what they stand for.
static PREDECLARED: [(&[u8], Meaning); 32] = [
    (b"integer", Meaning::Named(TypeId::INTEGER)),
    (b"boolean", Meaning::Named(TypeId::BOOLEAN)),
    (b"char", Meaning::Named(TypeId::CHAR)),
    (b"semaphore", Meaning::Named(TypeId::SEMAPHORE)),
    (b"condition", Meaning::Named(TypeId::CONDITION)),
    (b"synchronous", Meaning::Named(TypeId::SYNCHRONOUS)),
    (
        b"true",
        Meaning::Constant {
            t: TypeId::BOOLEAN,
            value: 1,
        },
    ),
    (
        b"false",
        Meaning::Constant {
            t: TypeId::BOOLEAN,
            value: 0,
        },
    ),
    (
        b"maxint",
        Meaning::Constant {
            t: TypeId::INTEGER,
            value: 2147483647,
        },
    ),
    (b"any", Meaning::Predeclared(PredeclaredName::Any)),
    (b"abs", Meaning::Predeclared(PredeclaredName::Abs)),
    (b"sqr", Meaning::Predeclared(PredeclaredName::Sqr)),
    (b"odd", Meaning::Predeclared(PredeclaredName::Odd)),
    (b"ord", Meaning::Predeclared(PredeclaredName::Ord)),
    (b"chr", Meaning::Predeclared(PredeclaredName::Chr)),
    (b"succ", Meaning::Predeclared(PredeclaredName::Succ)),
    (b"pred", Meaning::Predeclared(PredeclaredName::Pred)),
    (b"eof", Meaning::Predeclared(PredeclaredName::Eof)),
    (b"eoln", Meaning::Predeclared(PredeclaredName::Eoln)),
    (b"empty", Meaning::Predeclared(PredeclaredName::Empty)),
    (b"clock", Meaning::Predeclared(PredeclaredName::Clock)),
    (b"random", Meaning::Predeclared(PredeclaredName::Random)),
    (b"read", Meaning::Predeclared(PredeclaredName::Read)),
    (b"readln", Meaning::Predeclared(PredeclaredName::Readln)),
    (b"write", Meaning::Predeclared(PredeclaredName::Write)),
    (b"writeln", Meaning::Predeclared(PredeclaredName::Writeln)),
    (b"initial", Meaning::Predeclared(PredeclaredName::Initial)),
    (b"wait", Meaning::Predeclared(PredeclaredName::Wait)),
    (b"signal", Meaning::Predeclared(PredeclaredName::Signal)),
    (b"delay", Meaning::Predeclared(PredeclaredName::Delay)),
    (b"resume", Meaning::Predeclared(PredeclaredName::Resume)),
    (b"sleep", Meaning::Predeclared(PredeclaredName::Sleep)),
];
