//! What frequent steps of quiet rewriting come to in elements of arrays, in the arms of a `case` and in statements that are one action, in
//! small values.
//!
//! It promises that an element that is named by one index alone, the arm that has a value among its labels, and a statement that is
//! one action at once are what the definitions of meaning say; where it knows none, it changes nothing. It
//! knows no variable's value.
#![tactic(auto)]

mod acts;
mod arms;
mod elements;
mod indices;
mod wholes;

pub use acts::{Acts, action_of};
pub use arms::{Arm, arm_with};
pub use elements::{Reached, meet_index, put_index};
pub use indices::{Indexed, read, target};
