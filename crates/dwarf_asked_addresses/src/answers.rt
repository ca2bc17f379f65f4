//! The answers for many addresses.

ghost use Rattle.std.specs.Prelude.{◌≡◌, ◌<◌, ℕ, None, IfOk, length, slice_index, slice_index_or};
ghost use Rattle.std.specs.Ordering.{nat_cmp};
ghost use Rattle.std.specs.BTreeMap as tree_map;

use heap_memory::{Heap, NoMemory};
use std::collections::BTreeMap;

/// The answer for each address, in the order of the addresses; `None` for one without an answer. The error is
/// `NoMemory`.
pub fn answers_for<T: Copy + Drop>(
    heap: Heap,
    found: &BTreeMap<u64, T, Heap>,
    addresses: &[u64],
) -> Result<Vec<Option<T>, Heap>, NoMemory>
    ensures len { IfOk result (λ answers. length answers.items ≡ length addresses.now) }
    ensures each { IfOk result (λ answers. (i : ℕ) → i < length addresses.now →
        slice_index_or answers.items i None ≡ tree_map.get nat_cmp found.now (slice_index addresses.now i)) }
{
    let mut answers = Vec::new(heap);
    for address in addresses {
        answers.push(found.get(address).copied())?;
    }
    Ok(answers)
}
