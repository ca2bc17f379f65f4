//! Numbers that ascend, each once.

ghost use Rattle.std.specs.Prelude.{◌↔◌, ◌≤◌, ℕ, length};
ghost use Rattle.std.specs.List.{Contains};
ghost use Rattle.dwarf_asked_addresses.specs.Rising.{IsCountBelow, AreRising};

use heap_memory::Heap;

/// These numbers in ascending order, each once.
pub fn sorted_once(mut all: Vec<u64, Heap>) -> Vec<u64, Heap>
    ensures rising { AreRising result.items }
    ensures same { (a : ℕ) → Contains result.items a ↔ Contains all.items a }
{
    all.sort_unstable();
    all.dedup();
    all
}

/// The number of starts, which ascend, below an address.
pub fn count_below(starts: &[u64], address: u64) -> usize
    ensures bound { result ≤ length starts.now }
    ensures is { AreRising starts.now → IsCountBelow starts.now address result }
{
    starts.partition_point(|start| *start < address)
}
