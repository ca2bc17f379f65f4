//! The set of pending addresses.

ghost use Rattle.std.specs.Prelude.{◌≡◌, ◌≤◌, ◌<◌, ◌+◌, ℕ, true, false, OnOk, IfOk, IfSome, IfNone, slice_index};
ghost use Rattle.std.specs.Prelude.{EachIndex};
ghost use Rattle.std.specs.Ordering.{nat_cmp};
ghost use Rattle.std.specs.BTreeSet as tree_set;
ghost use Rattle.dwarf_asked_addresses.specs.Assigned.{Assigns};

use heap_memory::{Heap, NoMemory};
use std::collections::{BTreeMap, BTreeSet};

/// The addresses, as a set.
pub fn pending_addresses(heap: Heap, addresses: &[u64]) -> Result<BTreeSet<u64, Heap>, NoMemory>
    ensures { IfOk result (λ all. EachIndex addresses.now
        (λ i. tree_set.contains nat_cmp all (slice_index addresses.now i) ≡ true)) }
{
    let mut all = BTreeSet::new(heap);
    for address in addresses {
        all.insert(*address)?;
    }
    Ok(all)
}

/// Removes one of the pending addresses from `from` on, below `end`, and returns it; `None` if there is none. It costs
/// one search.
fn take_within(pending: &mut BTreeSet<u64, Heap>, from: u64, end: u128) -> Option<u64>
    ensures within { IfSome result (λ a. (from ≤ a) × (a < end)) }
    ensures member { IfSome result (λ a. tree_set.contains nat_cmp pending.old a ≡ true) }
    ensures updates { IfSome result (λ a. tree_set.Updates nat_cmp pending.old pending.new a false) }
    ensures len { IfSome result (λ a. tree_set.btree_set_len pending.new + 1 ≡ tree_set.btree_set_len pending.old) }
    ensures none { IfNone result ((a : ℕ) → from ≤ a → a < end → tree_set.contains nat_cmp pending.old a ≡ false) }
    ensures unchanged { IfNone result (tree_set.IsUnchanged pending.old pending.new) }
{
    let found = *pending.range(from..).next()?;
    if u128::from(found) >= end {
        return None;
    }
    pending.remove(&found);
    Some(found)
}

/// Assigns a value to each pending address from `from` on, below `end`, which is then no longer pending.
pub fn assign_within<T: Copy + Drop>(
    pending: &mut BTreeSet<u64, Heap>,
    found: &mut BTreeMap<u64, T, Heap>,
    from: u64,
    end: u128,
    value: T,
) -> Result<(), NoMemory>
    ensures { OnOk result (Assigns from end value pending.old found.old pending.new found.new) }
{
    'addresses: while let Some(address) = take_within(pending, from, end) {
        found.insert(address, value)?;
    }
    Ok(())
}
