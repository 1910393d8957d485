//! Putting a process into a list and taking it out.
ghost use Rattle.std.specs.Prelude.{◌≡◌, ◌<◌, ◌≤◌, length};
ghost use Rattle.std.specs.List.{insert, remove};
ghost use Rattle.std.specs.VecDeque.{deque_capacity};

use std::collections::VecDeque;

/// The process comes to stand at a place, counted from 0. There is room, so no memory is taken.
pub fn put_in(sorted: &mut VecDeque<u16>, place: usize, process: u16)
    requires place { place ≤ length sorted.old.items }
    requires room { length sorted.old.items < deque_capacity sorted.old }
    ensures items { sorted.new.items ≡ insert sorted.old.items place process }
    ensures capacity { deque_capacity sorted.old ≤ deque_capacity sorted.new }
{
    if place == sorted.len() {
        sorted.push_back_reserved(process);
    } else {
        sorted.insert(place, process).unwrap();
    }
}

/// Who stands at a place, counted from 0, is taken out.
pub fn take_out(sorted: &mut VecDeque<u16>, place: usize)
    requires { place < length sorted.old.items }
    ensures items { sorted.new.items ≡ remove sorted.old.items place }
    ensures capacity { deque_capacity sorted.new ≡ deque_capacity sorted.old }
{
    if place == 0 {
        sorted.pop_front();
    } else {
        sorted.remove(place);
    }
}
