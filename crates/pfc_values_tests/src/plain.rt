//! Numbers, names, texts and faults of the base.

use pfc_base::{Memory, Name, RunFault, Text, decimal};
use std::alloc::Global;
use std::test::Fail;

static FAULTS: [(RunFault, &str); 16] = [
    (RunFault::Overflow, "integer overflow"),
    (RunFault::Division, "division by zero"),
    (RunFault::Index, "index out of bounds"),
    (RunFault::Range, "value out of range"),
    (RunFault::Case, "no case for the value"),
    (RunFault::Stack, "stack full"),
    (RunFault::InputEnd, "input has ended"),
    (RunFault::NoInteger, "no integer in the input"),
    (RunFault::Active, "process already active"),
    (RunFault::Negative, "negative semaphore"),
    (RunFault::Count, "semaphore too large"),
    (RunFault::NotActive, "process not active"),
    (RunFault::Closed, "all alternatives closed"),
    (RunFault::Below, "negative argument"),
    (RunFault::Late, "moment too late"),
    (RunFault::Width, "width out of range"),
];

#[test]
fn faults_have_numbers_and_words(rt: HostRuntime) {
    for (at, (fault, words)) in FAULTS.iter().enumerate() {
        assert!(rt;
            usize::from(fault.number()) == at + 1 && fault.text() == *words,
            "case {at}"
        );
    }
}

static NUMBERS: [(i64, &str); 5] = [
    (0, "0"),
    (7, "7"),
    (-10, "-10"),
    (i64::MIN, "-9223372036854775808"),
    (i64::MAX, "9223372036854775807"),
];

#[test]
fn numbers_have_decimal_texts(rt: HostRuntime) -> Result<(), Fail> {
    for (n, text) in &NUMBERS {
        assert!(rt; decimal(rt.alloc(), *n)?.bytes() == text.as_bytes());
    }
    Ok(())
}

/// Whether a name is kept in lower case and a text as it is, and both are copied.
fn are_kept(alloc: Global) -> Result<[bool; 4], Memory> {
    let name = Name::new(alloc, b"Producer_2X")?;
    let text = Text::new(alloc, b"Don't")?;
    Ok([
        name.bytes() == b"producer_2x".as_slice(),
        name.copy(alloc)? == name,
        text.bytes() == b"Don't".as_slice(),
        text.copy(alloc)? == text,
    ])
}

#[test]
fn names_and_texts_are_kept(rt: HostRuntime) -> Result<(), Fail> {
    assert!(rt; are_kept(rt.alloc())? == [true; 4]);
    Ok(())
}
