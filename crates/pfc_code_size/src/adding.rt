//! Numbers of instructions, up to the most that a program may have.
ghost use Rattle.std.specs.Prelude.{◌≡◌, ◌+◌, ◌*◌, ◌<◌, ◌≤◌, IfOk, OnErr};

use pfc_base::Memory;

/// The most instructions that a program may have.
const MOST: u64 = 200_000;

/// There are more than 200,000 instructions.
#[derive(Clone, Copy, Debug, PartialEq, Eq)]
pub(crate) struct Full;

/// Why instructions are not counted.
#[derive(Clone, Copy, Debug, PartialEq, Eq)]
pub enum CountFault {
    /// There are more than 200,000.
    TooLarge,
    /// Memory was refused; or a number has more than 32 bits, as the number of a scope, which no checked tree reaches.
    Memory,
}

impl From<Full> for CountFault {
    ghost use Rattle.pfc_code_size.specs.declared.adding.CountFault.TheVariants as fault;

    ghost from_gives = { λ _ f. f ≡ fault.TooLarge };

    fn from(_full: Full) -> CountFault {
        CountFault::TooLarge
    }
}

impl From<Memory> for CountFault {
    ghost use Rattle.pfc_code_size.specs.declared.adding.CountFault.TheVariants as fault;

    ghost from_gives = { λ _ f. f ≡ fault.Memory };

    fn from(_memory: Memory) -> CountFault {
        CountFault::Memory
    }
}

/// So many instructions more.
pub(crate) fn more(count: u32, n: u64) -> Result<u32, Full>
    ensures value { IfOk result (λ sum. sum ≡ count + n) }
    ensures fits { IfOk result (λ sum. sum ≤ 200000) }
    ensures large { OnErr result (200000 < count + n) }
{
    match n.checked_add(u64::from(count)) {
        Some(sum) if sum <= MOST => Ok(sum as u32),
        _ => Err(Full),
    }
}

/// One instruction more.
pub(crate) fn one(count: u32) -> Result<u32, Full>
    ensures value { IfOk result (λ sum. sum ≡ count + 1) }
    ensures fits { IfOk result (λ sum. sum ≤ 200000) }
    ensures large { OnErr result (200000 < count + 1) }
{
    more(count, 1)
}

/// So many instructions more, so many times.
pub(crate) fn times(count: u32, times: u64, n: u32) -> Result<u32, Full>
    ensures value { IfOk result (λ sum. sum ≡ count + times * n) }
    ensures large { OnErr result (200000 < count + times * n) }
{
    match times.checked_mul(u64::from(n)) {
        Some(all) => more(count, all),
        None => Err(Full),
    }
}
