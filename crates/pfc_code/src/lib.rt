//! The code of a program: instructions, the image that a run starts from, and the code text.
//!
//! It promises that `print_code` writes one line for each instruction: its address, its line in the
//! program, its name and its arguments. It runs nothing, and knows no tree and no process.
#![tactic(auto)]

mod counts;
mod images;
mod instructions;
mod pages;
mod printing;

pub use counts::{Count, Operands};
pub use images::{Block, Image, Object, ProcessInfo};
pub use instructions::Instr;
pub use pages::Page;
pub use printing::print_code;
