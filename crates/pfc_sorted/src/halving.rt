//! Searching a sorted list.
ghost use Rattle.std.specs.Prelude.{◌≡◌, ◌≤◌, ℕ, Bool, length};
ghost use Rattle.std.specs.Fn.{ComputesKey};
ghost use Rattle.std.specs.List.Sorted.{IsPartitionedBy};
ghost use Rattle.pfc_sorted.specs.Sorted.{IsParted};

use std::collections::VecDeque;

/// How many pass a test which those that stand first pass and no others.
pub fn count_passing<P: FnMut(&u16) -> bool>(sorted: &VecDeque<u16>, mut passes: P) -> usize
    requires { (state : P) (x : _) → P.pre state x }
    ensures { (p : ℕ → Bool) → ComputesKey P.FnMut p passes → IsPartitionedBy p sorted.now.items → IsParted p sorted.now.items result }
{
    // The list lies in two pieces, and the first of the second tells which of them is searched. So no step of the search
    // asks in which piece it looks.
    let (front, back) = sorted.as_slices();
    match back.first() {
        Some(first) if passes(first) => {
            let among = back.partition_point(passes);
            front.len() + among
        }
        _ => front.partition_point(passes),
    }
}
