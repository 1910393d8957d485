//! The store law: how the stacks of all processes hold the store of a text.
//!
//! It promises where each variable of a living activation lies among the cells, that the cells there give what the store
//! has, and that a write changes nothing else. It performs no instruction, and knows no process's remainder.
#![tactic(auto)]

mod laws;

pub use laws::{
    activations_begin, activations_end, apart_locations_share_no_cell, cells_give_the_store,
    locations_have_one_reference, references_are_held, writes_are_stored,
};
