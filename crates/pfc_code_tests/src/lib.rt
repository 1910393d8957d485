//! Tests of the floor of code: instructions with their text and their operands, the growing code, and the texts that a
//! user reads.
//!
//! Each is a table of calls with the answers that are owed. The crate has nothing else.
#![tactic(auto)]

#[cfg(test)]
mod code_texts;
#[cfg(test)]
mod growing_code;
#[cfg(test)]
mod operand_counts;
#[cfg(test)]
mod reports;
