//! How many operands an instruction takes and leaves, and how many code may hold.
ghost use Rattle.std.specs.Prelude.{◌≡◌, ◌≤◌, ◌^◌, length, get_or};
ghost use Rattle.pfc_code.specs.Operands.{counted, told};
ghost use Rattle.pfc_translation.specs.Operands as operands;
ghost use Rattle.pfc_operands.specs.Callees.{program_in};

use crate::Callees;
use pfc_code::{Count, Instr};

/// A number of a list, 0 where there is none.
fn number_at(list: &[u32], i: u32) -> u32
    ensures { result ≡ get_or list.now i 0 }
{
    match list.get(i as usize) {
        Some(n) => *n,
        None => 0,
    }
}

/// The number that a count stands for.
fn number_of(count: Count, callees: Callees) -> u64
    requires { told count ≤ 2 ^ 32 }
    ensures value { let g = program_in callees.entry.tree.now callees.entry.types.now callees.entry.scopes.now in
        result ≡ counted (operands.arguments g) (operands.results g) count }
    ensures bound { result ≤ 2 ^ 32 }
{
    match count {
        Count::Exactly(n) => n,
        Count::OfParameters(b) => number_at(callees.params, b) as u64,
        Count::OneAndParameters(b) => 1 + number_at(callees.params, b) as u64,
        Count::OfResult(b) => number_at(callees.results, b) as u64,
    }
}

/// How many operands an instruction takes. A loop's `FORT` takes its three where it goes on behind the loop, and `CERR` the value
/// of its `case`.
pub fn takes(instr: Instr, callees: Callees) -> u64
    ensures { result ≡ operands.takes (program_in callees.entry.tree.now callees.entry.types.now callees.entry.scopes.now) instr }
{
    number_of(instr.operands().takes, callees)
}

/// How many operands an instruction leaves. A function leaves its result.
pub fn leaves(instr: Instr, callees: Callees) -> u64
    ensures value { result ≡ operands.leaves (program_in callees.entry.tree.now callees.entry.types.now callees.entry.scopes.now) instr }
    ensures bound { result ≤ 2 ^ 32 }
{
    number_of(instr.operands().leaves, callees)
}

/// The most operands that code may hold, of which none are held before it.
pub fn most_operands(code: &[Instr], callees: Callees) -> u64
    requires { length code.now ≤ 200000 }
    ensures { result ≡ operands.most_operands (program_in callees.entry.tree.now callees.entry.types.now callees.entry.scopes.now) 0 code.now }
{
    let mut most = 0u64;
    let mut held = 0u64;
    for instr in code {
        most = most.max(held);
        let own = instr.operands();
        held = held.saturating_sub(number_of(own.takes, callees)) + number_of(own.leaves, callees);
    }
    most.max(held)
}
