//! Runs, with the pairs of events that are races in them.

use crate::events::events_of;
use pfc_base::{Memory, decimal};
use pfc_hb::{Race, race_lines, races};
use std::alloc::Global;
use std::test::Fail;

/// What a run shows, its events, and its races.
const RUNS: &str = "\
no event||
one event|1w0|
two reads|1r0 2r0|
a read and a write|1r0 2w0|1-2
a write and a read|1w0 2r0|1-2
two writes|1w0 2w0|1-2
one process|1w0 1r0 1w0|
two variables|1w0 2w1|
two activations|1a0w0 2a1w0|
an activation that has ended|1a7w0 2a7w0|1-2
the whole and a part|1r0 2.3w0|1-2
a part and the whole|1.3r0 2w0|1-2
two parts|1.3w0 2.4w0|
a part of a part|1.3w0 2.3.1w0|1-2
other parts of one part|1.3.2w0 2.3.1w0|
the same part of other parts|1.1.3w0 2.2.3w0|
a part of a part of a part|1.3.1w0 2.3.1.2w0 3.3.2.2w0|1-2
parts three steps deep|1.3.1.2w0 2.3.1.2w0 3.3.1.1w0|1-2
a part of the third step|1.3.1.2w0 2.3.1.2.1w0 3.3.1.1.1w0|1-2
several accesses|1r0r1w2 2r1w3w0|1-2
several accesses, none in conflict|1r0r1w2 2r1r0w3|
the lost update|1r0 2r0 1w0 2w0|1-4 2-3 3-4
a semaphore|1w0 1s0 2s0 2w0|
two semaphores|1w0 1s0 2s1 2w0|1-4
a semaphore, too late|1s0 1w0 2s0 2w0|2-4
a channel|1w0 1c0 2c0 2w0|
a channel with the number of a semaphore|1w0 1s0 2c0 2w0|1-4
a monitor|1w0 1m0 2m0 2w0|
a resource|1w0 1q0 2q0 2w0|
a rendezvous|1w0 1o2 2o2 2w0|
two owners|1w0 1o2 2o3 2w0|1-4
a wake|1w0 1>2 2w0|
a wake of another process|1w0 1>3 2w0|1-3
a wake orders later events too|1w0 1>2 2 2w0|
a wake orders nothing before it|1w0 2w0 1>2|1-2
a wake of one's own|1w0 1>1 2w0|1-3
two that are woken|1w0 1>2>3 2w0 3w0|3-4
main before its children|0w0 0>1>2 1w0 2r0|3-4
main behind coend|1w0 2w1 0j 0r0r1|
main without the wait|1w0 2w1 0 0r0r1|1-4 2-4
an event that joins has accesses|1w0 0jr0|
only what joins comes after|1w0 0j 2w0 3w0|1-3 1-4 3-4
by way of a third process|1w0 1s0 3s0 3>2 2w0|
by way of a chain of objects|1w0 1s0 2s0m1 3m1c2 4c2 4w0|
a chain that is broken|1w0 1s0 2s0m1 3m2c2 4c2 4w0|1-6
the second of two objects|1w0 1s0m1 2m1 2w0|
the object before the last event of the process|2s0 1w0 1s0 2 2w0|2-5
other alternatives of a select|1w0 1c0c1 2c1 2w0|
a select without that alternative|1w0 1c0 2c1 2w0|1-4
an object behind which the process acted again|1s0 2s0 2w0 1s0 2 1w0|3-6
an object that is met from further back|1w0 1s0 2 2 2s0 2w0|
a message that is written|1w0c0 2c0r0|
what orders also conflicts|1s0w0 2s0w0|
three writers|1w0 2w0 3w0|1-2 1-3 2-3
two activations in turn|1a0w0 2a1w0 1a0w0 2a1w0 3a0w0 3a1w0|1-5 2-6 3-5 4-6
two parts of one part in turn|1.3.1w0 2.3.2w0 1.3.1w0 2.3.2w0 3.3w0|1-5 2-5 3-5 4-5
the same several accesses again|1r0w1 2r0w1 1r0w1 2r0w1|1-2 1-4 2-3 3-4
in order by the first|2w1 3w1 1w0 3w0 2w0|1-2 3-4 3-5 4-5
";

/// Adds how a race is written: the numbers of its events, behind a blank where it is not the first.
fn add_pair(alloc: Global, text: &mut Vec<u8>, race: Race) -> Result<(), Memory> {
    if !text.is_empty() {
        text.push(b' ')?;
    }
    text.extend_from_slice(decimal(alloc, i64::from(race.first))?.bytes())?;
    text.push(b'-')?;
    text.extend_from_slice(decimal(alloc, i64::from(race.second))?.bytes())?;
    Ok(())
}

fn pairs_of(alloc: Global, run: &str) -> Result<Vec<u8>, Memory> {
    let mut text = Vec::new(alloc);
    let events = events_of(alloc, run)?;
    if events.len() <= 2000 {
        for race in &races(alloc, &events)? {
            add_pair(alloc, &mut text, *race)?;
        }
    }
    Ok(text)
}

/// Whether the run of a line has the races of that line.
fn is_right(alloc: Global, line: &str) -> Result<bool, Memory> {
    let Some((_name, case)) = line.split_once('|') else {
        return Ok(false);
    };
    let Some((run, pairs)) = case.split_once('|') else {
        return Ok(false);
    };
    let found = pairs_of(alloc, run)?;
    Ok(found.as_slice() == pairs.as_bytes())
}

#[test]
fn runs_have_their_races(rt: HostRuntime) -> Result<(), Fail> {
    for (at, line) in RUNS.lines().enumerate() {
        let right = is_right(rt.alloc(), line)?;
        assert!(rt; right, "case {at}");
    }
    Ok(())
}

/// What a run shows, its events, and the lines of its races.
const LINES: [(&str, &str); 4] = [
    ("1w0 2r1", "-- no races\n"),
    (
        "0l8>1>2 1r0 2r0 1w0 2w0",
        "\
-- race: action 2 process 1 reads at line 1, action 5 process 2 writes at line 1
-- race: action 3 process 2 reads at line 1, action 4 process 1 writes at line 1
-- race: action 4 process 1 writes at line 1, action 5 process 2 writes at line 1
",
    ),
    (
        "1l7r0w0 2l9r0r1w1 3l5r1w0",
        "\
-- race: action 1 process 1 writes at line 7, action 2 process 2 reads at line 9
-- race: action 1 process 1 writes at line 7, action 3 process 3 writes at line 5
-- race: action 2 process 2 writes at line 9, action 3 process 3 writes at line 5
",
    ),
    (
        "1l2.1w0w1 2l3.1r0",
        "-- race: action 1 process 1 writes at line 2, action 2 process 2 reads at line 3\n",
    ),
];

fn lines_of(alloc: Global, run: &str) -> Result<Vec<u8>, Memory> {
    let events = events_of(alloc, run)?;
    if events.len() > 2000 {
        return Err(Memory);
    }
    let found = races(alloc, &events)?;
    race_lines(alloc, &events, &found)
}

#[test]
fn races_have_their_lines(rt: HostRuntime) -> Result<(), Fail> {
    for (at, case) in LINES.iter().enumerate() {
        let lines = lines_of(rt.alloc(), case.0)?;
        assert!(rt; lines.as_slice() == case.1.as_bytes(), "case {at}");
    }
    Ok(())
}
