//! The first tuple of `__debug_aranges` for each of many addresses.

ghost use Rattle.std.specs.Prelude.{◌≡◌, ℕ, true, IfOk};
ghost use Rattle.std.specs.Ordering.{nat_cmp};
ghost use Rattle.std.specs.BTreeSet as tree_set;
ghost use Rattle.std.specs.BTreeMap as tree_map;
ghost use Rattle.dwarf_ranges.specs.Aranges.{AreFirstTuples};
ghost use Rattle.dwarf_ranges.specs.Inner.{first_tuple};

use crate::arange::Arange;
use crate::aranges::Aranges;
use dwarf_asked_addresses::{assign_within, pending_addresses};
use heap_memory::{Heap, NoMemory};
use std::collections::{BTreeMap, BTreeSet};

/// The first tuple that contains each pending address.
fn assign_all(
    heap: Heap,
    tuples: Aranges<'_>,
    mut pending: BTreeSet<u64, Heap>,
) -> Result<BTreeMap<u64, Arange, Heap>, NoMemory>
    ensures { IfOk result (λ found. (a : ℕ) → tree_set.contains nat_cmp pending a ≡ true →
        tree_map.get nat_cmp found a ≡ first_tuple a tuples.entry) }
{
    let mut found = BTreeMap::new(heap);
    for tuple in tuples {
        let end = u128::from(tuple.address) + u128::from(tuple.length);
        assign_within(&mut pending, &mut found, tuple.address, end, tuple)?;
    }
    Ok(found)
}

/// The first tuple that contains each address, by the address; no tuple if none does. The time is that of reading the
/// tuples, and of a search for each address among those that have none yet; the memory is that of the addresses.
pub fn first_tuples(
    heap: Heap,
    tuples: Aranges<'_>,
    addresses: &[u64],
) -> Result<BTreeMap<u64, Arange, Heap>, NoMemory>
    ensures { IfOk result (λ found. AreFirstTuples tuples.entry addresses.now found) }
{
    let pending = pending_addresses(heap.share(), addresses)?;
    assign_all(heap, tuples, pending)
}
