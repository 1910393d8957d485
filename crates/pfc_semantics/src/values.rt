//! The values of variables, and where they lie.

/// A value of a variable.
#[derive(Drop)]
pub enum Value {
    /// A value of a simple type, by its ordinal; an object, by its number.
    Number(i32),
    /// An array by its elements, a record by its fields, in their order.
    List(Vec<Value>),
    /// What a reference parameter holds: where its variable lies.
    At(Location),
}

/// Where a value lies.
#[derive(Drop)]
pub struct Location {
    /// The number of the activation: main's is 0, any other is that of the action, from 1, that made it.
    pub activation: u64,
    /// The place, from 0, of the variable in the layout of the activation's block, counted in whole names.
    pub variable: u32,
    /// The steps to a part of it, outermost first: each the ordinal of an index, or the place of a field, from 0.
    pub selectors: Vec<i32>,
}
