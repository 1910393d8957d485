//! The table of types, the scopes and the static rules of a program.
//!
//! It promises that a type, a scope and a look-up are what the definitions say, and that a `Checked` is a small tree in
//! which no static rule is broken, with the table of types and the scopes that the definitions give it. All static
//! rules are defined here, once; the crates above find the first that is broken. It walks no tree.
#![tactic(auto)]

mod checked;
mod heads;
pub mod laws;
mod predeclared;
mod scope;
mod scopes;
mod table;
mod types;
mod view;

pub use checked::Checked;
pub use heads::{Formal, Formals, ModuleHead, ProcessHead, SubHead, SubSort};
pub use predeclared::PredeclaredName;
pub use scope::{Meaning, Scope, ScopeFault};
pub use scopes::Scopes;
pub use table::{Held, TypeFault, TypeTable, cells_of, value_count};
pub use types::{Fields, TypeForm, TypeId};
pub use view::{Around, Found, View, find};
