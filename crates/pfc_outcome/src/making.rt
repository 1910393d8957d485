//! The made text: a bounded buffer with so many producers and as many consumers.
ghost use Rattle.std.specs.Prelude.{◌≡◌, ◌≤◌, IfOk, length};
ghost use Rattle.pfc_outcome.specs.Making.{made_text};

use pfc_base::Memory;
use std::alloc::Global;

/// The program up to the number of producers.
const BUFFER: &str = "program buffer;
const size = 8;
monitor b;
  export put, take;
  var slot: array[0..7] of integer;
      head, count: integer;
      full, none: condition;
  procedure put(x: integer);
  begin
    if count = size then delay(full);
    slot[(head + count) mod size] := x;
    count := count + 1;
    resume(none)
  end;
  procedure take(var x: integer);
  begin
    if count = 0 then delay(none);
    x := slot[head];
    head := (head + 1) mod size;
    count := count - 1;
    resume(full)
  end;
end;
var m: semaphore; total, k: integer;
process type producer;
  var i: integer;
begin
  for i := 1 to 500 do b.put(i)
end;
process type consumer;
  var i, v, sum: integer;
begin
  for i := 1 to 500 do begin b.take(v); sum := sum + v end;
  wait(m); total := total + sum; signal(m)
end;
var p: array[1..";

/// Behind the number of producers, up to that of consumers.
const CONSUMERS: &str = "] of producer; c: array[1..";

/// Behind the number of consumers, up to that of the producers that are started.
const PRODUCERS_LOOP: &str = "] of consumer;
begin
  initial(m, 1);
  cobegin
    for k := 1 to ";

/// Up to the number of the consumers that are started.
const CONSUMERS_LOOP: &str = " do p[k];
    for k := 1 to ";

/// The end of the program.
const TOTAL: &str = " do c[k]
  coend;
  writeln('total  ', total)
end.
";

/// The program of a monitor's bounded buffer of eight items with `size` producers and as many consumers, each of 500 items.
/// It has at most 262,144 bytes. What it writes is `total` and `size` times 125,250.
pub fn make_text(alloc: Global, size: u64) -> Result<Vec<u8>, Memory>
    ensures text { IfOk result (λ text. text.items ≡ made_text size) }
    ensures short { IfOk result (λ text. length text.items ≤ 262144) }
{
    let text = format!(in alloc;
        "{BUFFER}{size}{CONSUMERS}{size}{PRODUCERS_LOOP}{size}{CONSUMERS_LOOP}{size}{TOTAL}"
    )?;
    Ok(text.into_bytes())
}
