//! The units that `__debug_aranges` names.

ghost use Rattle.std.specs.Prelude.{◌≡◌, ◌||◌, ℕ, IfOk, OnOk};
ghost use Rattle.std.specs.Ordering.{nat_cmp};
ghost use Rattle.std.specs.BTreeSet as tree_set;
ghost use Rattle.dwarf_ranges.specs.Aranges.{is_named, names_unit};

use crate::aranges::header_of;
use dwarf_encoding::split_unit;
use heap_memory::{Heap, NoMemory};
use std::collections::BTreeSet;

/// Adds the offset of the unit of a set, if the set can be read.
fn add_unit(named: &mut BTreeSet<u64, Heap>, set: &[u8]) -> Result<(), NoMemory>
    ensures { OnOk result ((offset : ℕ) → tree_set.contains nat_cmp named.new offset
        ≡ (names_unit offset set.now || tree_set.contains nat_cmp named.old offset)) }
{
    if let Some((debug_info_offset, _)) = header_of(set) {
        named.insert(debug_info_offset)?;
    }
    Ok(())
}

/// The offsets of the units that sets of the section name, also by sets without tuples. A set that cannot be read names
/// none. Time and memory are proportional to the sets.
pub fn named_units(heap: Heap, debug_aranges: &[u8]) -> Result<BTreeSet<u64, Heap>, NoMemory>
    ensures { IfOk result (λ named. (offset : ℕ) →
        tree_set.contains nat_cmp named offset ≡ is_named debug_aranges.now offset) }
{
    let mut named = BTreeSet::new(heap);
    let mut rest = debug_aranges;
    'sets: while let Some((set, after)) = split_unit(rest) {
        add_unit(&mut named, set)?;
        rest = after;
    }
    Ok(named)
}
