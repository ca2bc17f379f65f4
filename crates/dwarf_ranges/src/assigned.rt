//! Pending addresses in ranges.

ghost use Rattle.std.specs.Prelude.{OnOk};
ghost use Rattle.dwarf_ranges.specs.Assigned.{AssignsRanges};

use crate::range_lists::Ranges;
use dwarf_asked_addresses::assign_within;
use heap_memory::{Heap, NoMemory};
use std::collections::{BTreeMap, BTreeSet};

/// Assigns a value to each pending address in the ranges, which is then no longer pending. The time is that of the
/// ranges, and of a search for each of these addresses.
pub fn assign_ranges(
    pending: &mut BTreeSet<u64, Heap>,
    found: &mut BTreeMap<u64, u64, Heap>,
    ranges: Ranges<'_>,
    value: u64,
) -> Result<(), NoMemory>
    ensures { OnOk result (AssignsRanges ranges.entry value pending.old found.old pending.new found.new) }
{
    for range in ranges {
        assign_within(pending, found, range.low, u128::from(range.high), value)?;
    }
    Ok(())
}
