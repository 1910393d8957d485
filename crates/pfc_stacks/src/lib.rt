//! The stacks of processes, and the instructions that need nothing else.
//!
//! It promises that each instruction does what its effect says, that a fault leaves the instruction undone, and that a
//! call takes all its memory before it changes anything. It runs instructions: it knows no tree, no source text, no
//! standing of a process and no schedule.
#![tactic(auto)]

mod activations;
mod calls;
mod cells;
mod inside;
mod instructed;
mod laws;
mod marks;
mod operands;
mod perform;
mod refs;
mod run;
mod stack;
mod stacks;

pub use instructed::{CallFault, Instructed, Performed};
pub use laws::{
    a_call_marks_its_activation, a_function_leaves_its_result, a_replacement_keeps_its_own_cells,
    a_return_undoes_its_call, an_instruction_takes_and_leaves_its_operands,
};
pub use marks::Mark;
pub use refs::Ref;
pub use stacks::Stacks;
