//! Reports of endings, lines of refusals, and listings.
ghost use Rattle.std.specs.Prelude.{◌≡◌, IfOk, length};

use pfc_base::{Memory, Place, Refusal, RunFault, Text};
use pfc_code::{Image, ProcessInfo};
use pfc_report::{listing, refusal_line, refusal_text, report, words_refused};
use pfc_state::{Ending, ScriptWhy, Standing, State, Why};
use std::alloc::Global;
use std::test::Fail;

/// An image whose processes are `a` and `t[2]`.
fn two_processes(alloc: Global) -> Result<Image, Memory>
    ensures { IfOk result (λ image. length image.processes.items ≡ 2) }
{
    let mut processes = Vec::new(alloc);
    processes.push(ProcessInfo {
        block: 1,
        label: Text::new(alloc, b"a")?,
    })?;
    processes.push(ProcessInfo {
        block: 0,
        label: Text::new(alloc, b"t[2]")?,
    })?;
    Ok(Image {
        code: Vec::new(alloc),
        lines: Vec::new(alloc),
        blocks: Vec::new(alloc),
        processes,
        objects: Vec::new(alloc),
        texts: Vec::new(alloc),
        semaphores: 0,
        channels: 0,
        conditions: Vec::new(alloc),
        monitors: 0,
        scans: Vec::new(alloc),
        arms: 0,
    })
}

/// The report of an ending, where main has finished and the other process stands at this; of a fault, in main at line 3.
fn reported(alloc: Global, ending: Ending, state: State, open: bool) -> Result<Vec<u8>, Memory> {
    let image = two_processes(alloc)?;
    let standings = [
        Standing {
            process: 0,
            state: State::Done,
            line: 7,
        },
        Standing {
            process: 1,
            state,
            line: 12,
        },
    ];
    match ending {
        Ending::Finished => report(alloc, &Ending::Finished, &standings, &image, open),
        Ending::Deadlock => report(alloc, &Ending::Deadlock, &standings, &image, open),
        Ending::Limit(n) => report(alloc, &Ending::Limit(n), &standings, &image, open),
        Ending::Script { item, why } => {
            report(
                alloc,
                &Ending::Script { item, why },
                &standings,
                &image,
                open,
            )
        }
        Ending::Fault { fault, .. } => {
            let ending = Ending::Fault {
                process: 0,
                line: 3,
                fault,
            };
            report(alloc, &ending, &standings, &image, open)
        }
        Ending::SinkFailed | Ending::Memory => Ok(Vec::new(alloc)),
    }
}

static ENDINGS: [(Ending, State, bool, &str); 8] = [
    (Ending::Finished, State::Ready, false, "-- finished\n"),
    (Ending::Finished, State::Ready, true, "\n-- finished\n"),
    (Ending::Deadlock, State::Done, false, "-- deadlock\n"),
    (
        Ending::Limit(100_000_000),
        State::Ready,
        false,
        "-- limit of 100000000 actions reached\nprocess 1 t[2]: ready at line 12\n",
    ),
    (
        Ending::Script {
            item: 3,
            why: ScriptWhy::NotReady(1),
        },
        State::Ready,
        false,
        "-- script stopped at item 3: process 1 is not ready\nprocess 1 t[2]: ready at line 12\n",
    ),
    (
        Ending::Script {
            item: 4,
            why: ScriptWhy::NoProcess(64),
        },
        State::Ready,
        false,
        "-- script stopped at item 4: there is no process 64\nprocess 1 t[2]: ready at line 12\n",
    ),
    (
        Ending::Script {
            item: 5,
            why: ScriptWhy::Ended,
        },
        State::Ready,
        false,
        "-- script stopped at item 5: the script has ended\nprocess 1 t[2]: ready at line 12\n",
    ),
    (
        Ending::Script {
            item: 6,
            why: ScriptWhy::NotANumber,
        },
        State::Ready,
        false,
        "-- script stopped at item 6: not a number\n",
    ),
];

#[test]
fn endings(rt: HostRuntime) -> Result<(), Fail> {
    for (at, (ending, state, open, text)) in ENDINGS.iter().enumerate() {
        let written = reported(rt.alloc(), *ending, *state, *open)?;
        assert!(rt; written.as_slice() == text.as_bytes(), "case {at}");
    }
    Ok(())
}

/// Where a process stands, each with its words in a report, which are none for a process that is not shown.
static STATES: [(State, &str); 18] = [
    (State::Idle, ""),
    (State::Created, "created"),
    (State::Ready, "ready"),
    (State::Waiting(Why::Coend), "waiting at coend"),
    (State::Waiting(Why::Semaphore(0)), "waiting on a semaphore"),
    (State::Waiting(Why::Send(0)), "waiting to send"),
    (State::Waiting(Why::Receive(0)), "waiting to receive"),
    (
        State::Waiting(Why::Call { owner: 1, entry: 0 }),
        "waiting for an entry",
    ),
    (State::Waiting(Why::Meeting(1)), "in a rendezvous"),
    (State::Waiting(Why::Accept(0)), "waiting to accept"),
    (
        State::Waiting(Why::Select {
            due: None,
            terminate: true,
        }),
        "waiting in a select",
    ),
    (State::Waiting(Why::Enter(0)), "waiting to enter a monitor"),
    (
        State::Waiting(Why::Condition { number: 0, rank: 0 }),
        "waiting on a condition",
    ),
    (State::Waiting(Why::Resumer(0)), "waiting after resume"),
    (
        State::Waiting(Why::Entrant(0)),
        "waiting to enter a resource",
    ),
    (
        State::Waiting(Why::Barred {
            resource: 0,
            procedure: 0,
        }),
        "waiting at a guard",
    ),
    (State::Waiting(Why::Sleep(9)), "sleeping"),
    (State::Done, ""),
];

/// Whether a report ends with the line of the second process, or has none.
fn is_shown(text: &[u8], words: &str) -> bool {
    let shown = match text.strip_prefix(b"-- deadlock\n".as_slice()) {
        Some(rest) => rest,
        None => text,
    };
    let Some(rest) = shown.strip_prefix(b"process 1 t[2]: ".as_slice()) else {
        return shown.is_empty() && words.is_empty();
    };
    rest.strip_suffix(b" at line 12\n".as_slice()) == Some(words.as_bytes())
}

#[test]
fn standings(rt: HostRuntime) -> Result<(), Fail> {
    for (at, (state, words)) in STATES.iter().enumerate() {
        let written = reported(rt.alloc(), Ending::Deadlock, *state, false)?;
        assert!(rt; is_shown(&written, words), "case {at}");
    }
    Ok(())
}

static FAULTS: [RunFault; 16] = [
    RunFault::Overflow,
    RunFault::Division,
    RunFault::Index,
    RunFault::Range,
    RunFault::Case,
    RunFault::Stack,
    RunFault::InputEnd,
    RunFault::NoInteger,
    RunFault::Active,
    RunFault::Negative,
    RunFault::Count,
    RunFault::NotActive,
    RunFault::Closed,
    RunFault::Below,
    RunFault::Late,
    RunFault::Width,
];

const FAULT_TEXTS: &str = "\
-- fault 1: integer overflow in process 0 a at line 3
-- fault 2: division by zero in process 0 a at line 3
-- fault 3: index out of bounds in process 0 a at line 3
-- fault 4: value out of range in process 0 a at line 3
-- fault 5: no case for the value in process 0 a at line 3
-- fault 6: stack full in process 0 a at line 3
-- fault 7: input has ended in process 0 a at line 3
-- fault 8: no integer in the input in process 0 a at line 3
-- fault 9: process already active in process 0 a at line 3
-- fault 10: negative semaphore in process 0 a at line 3
-- fault 11: semaphore too large in process 0 a at line 3
-- fault 12: process not active in process 0 a at line 3
-- fault 13: all alternatives closed in process 0 a at line 3
-- fault 14: negative argument in process 0 a at line 3
-- fault 15: moment too late in process 0 a at line 3
-- fault 16: width out of range in process 0 a at line 3
";

#[test]
fn faults(rt: HostRuntime) -> Result<(), Fail> {
    let mut written = Vec::new(rt.alloc());
    for fault in FAULTS {
        let ending = Ending::Fault {
            process: 0,
            line: 3,
            fault,
        };
        written.extend_from_slice(&reported(rt.alloc(), ending, State::Ready, false)?)?;
    }
    assert!(rt; written.as_slice() == FAULT_TEXTS.as_bytes());
    Ok(())
}

/// The codes of refusals, each with its words.
const REFUSALS: &str = "\
101 bad byte
102 open comment
103 open literal
104 number too large
105 real number
106 name too long
201 syntax
202 nested too deeply
301 unknown name
302 repeated name
303 bad bounds
304 too many cells
310 wrong kind of name
311 wrong operand
312 types differ
313 condition expected
314 bad index
315 no such field
316 wrong number of arguments
317 wrong argument
318 variable expected
319 wrong label
320 repeated label
321 bad for
322 bad sign
323 bad result type
324 bad width
325 string not allowed
326 cannot be read or written
327 not in its body
401 cobegin not allowed
402 activation outside cobegin
403 initial outside main
404 not in the program's variables
405 condition outside a monitor
406 object used as a value
407 parameter not allowed
408 not in its monitor
409 bad export
410 not exported
411 synchronous not allowed
412 any not allowed
413 no such entry
414 accept not allowed
415 accept differs from entry
416 nothing to select
417 too many ways out
418 requeue not allowed
419 bad requeue
420 bad guard
421 terminate not allowed
422 not a process
423 guarded procedure called
424 too many processes
501 program too large
";

const WORDS_REFUSED: &str = "-- words refused
usage: pfc [FILE] [--seed N] [--unfair] [--limit N] [--input FILE] [--script FILE] [--list] [--code] [--make N]
";

#[test]
fn refusals(rt: HostRuntime) -> Result<(), Fail> {
    for line in REFUSALS.lines() {
        let words = line.split_once(' ').and_then(|(code, words)| Some(
            refusal_text(code.parse().ok()?) == Some(words),
        ));
        assert!(rt; words == Some(true), "in {line}");
    }
    let refusal = Refusal {
        code: 404,
        place: Place {
            line: 12,
            column: 7,
        },
    };
    let line = refusal_line(rt.alloc(), &refusal)?;
    let owed = b"-- refused 404 at line 12, column 7: not in the program's variables\n";
    assert!(rt; line.as_slice() == owed.as_slice() && refusal_text(999).is_none());
    assert!(rt; words_refused() == WORDS_REFUSED.as_bytes());
    Ok(())
}

static LISTINGS: [(&str, &str); 4] = [
    ("", ""),
    ("\n", "    1 \n"),
    ("a\nb\n", "    1 a\n    2 b\n"),
    ("a\r\n\nb", "    1 a\r\n    2 \n    3 b\n"),
];

#[test]
fn listings(rt: HostRuntime) -> Result<(), Fail> {
    for (at, (text, listed)) in LISTINGS.iter().enumerate() {
        let written = listing(rt.alloc(), text.as_bytes())?;
        assert!(rt; written.as_slice() == listed.as_bytes(), "case {at}");
    }
    let many = vec![in rt.alloc(); b'\n'; 100_000]?;
    // 99,999 numbers in 5 places and one in 6, each with a blank and a line end
    assert!(rt; listing(rt.alloc(), &many)?.len() == 99_999 * 7 + 8);
    Ok(())
}
