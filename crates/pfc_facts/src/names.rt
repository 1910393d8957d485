//! Entries and processes, by their names and types.
ghost use Rattle.std.specs.Prelude.{◌≡◌};
ghost use Rattle.pfc_semantics.specs.Alternatives as alternatives;
ghost use Rattle.pfc_semantics.specs.Statements as statements;
ghost use Rattle.pfc_phrases.specs.Views.{env_view};

use pfc_base::Name;
use pfc_phrases::{Env, member, process_of};
use pfc_types::{Meaning, Scopes, TypeId};

/// The number of an entry of its process, 0 for what is no entry.
pub fn entry_number(m: Option<Meaning>) -> u32
    ensures { result ≡ alternatives.entry_number m }
{
    match m {
        Some(Meaning::Entry(k)) => k,
        _ => 0,
    }
}

/// What a name stands for in the scope of process n, None exactly where that does not hold it.
pub fn name_in_process(scopes: &Scopes, n: u32, name: &Name) -> Option<Meaning>
    ensures { result ≡ statements.name_in_process scopes.now n name.now }
{
    member(scopes, scopes.process_scope(n), name)
}

/// The process of a process type, None where it is another type or a faulty one.
pub fn process_of_type(t: Option<TypeId>, env: Env) -> Option<u32>
    ensures { result ≡ statements.process_of_type (env_view env.entry) t }
{
    process_of(env.types, t?)
}
