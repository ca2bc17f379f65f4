//! The boundaries of units: the addresses at which the unit may change.

ghost use Rattle.std.specs.Prelude.{◌≡◌, ◌<◌, ◌++◌, ◌↔◌, ℕ, IfOk, OnOk, flat_map};
ghost use Rattle.std.specs.List.{Contains};
ghost use Rattle.std.specs.Ordering.{nat_cmp};
ghost use Rattle.std.specs.BTreeSet as tree_set;
ghost use Rattle.dwarf_ranges.specs.Aranges.{is_named};
ghost use Rattle.dwarf_encoding.specs.Sequences.{placed};
ghost use Rattle.dwarf_encoding.specs.Units.{unit_at};
ghost use Rattle.dwarf_frame_changes.specs.Turns.{boundaries, ends_of, ends_of_tuple};
ghost use Rattle.dwarf_asked_addresses.specs.Rising.{AreRising};
ghost use Rattle.dwarf_source_frames.specs.SectionsViews.{sections_view};
ghost use Rattle.dwarf_source_frames.specs.UnitAddresses.{own_ranges};

use dwarf_asked_addresses::sorted_once;
use dwarf_encoding::split_unit;
use dwarf_ranges::{Arange, Aranges, Ranges, named_units};
use dwarf_source_frames::DebugInfo;
use heap_memory::{Heap, NoMemory};
use std::collections::BTreeSet;

/// Adds the addresses at which ranges begin and end.
fn push_ranges(starts: &mut Vec<u64, Heap>, ranges: Ranges<'_>) -> Result<(), NoMemory>
    ensures { OnOk result (starts.new.items ≡ starts.old.items ++ ends_of ranges.entry) }
{
    for range in ranges {
        starts.push(range.low)?;
        starts.push(range.high)?;
    }
    Ok(())
}

/// Adds the first address of a tuple, and its end, if that is an address.
fn push_tuple(starts: &mut Vec<u64, Heap>, tuple: &Arange) -> Result<(), NoMemory>
    ensures { OnOk result (starts.new.items ≡ starts.old.items ++ ends_of_tuple tuple.now) }
{
    starts.push(tuple.address)?;
    if let Some(end) = tuple.address.checked_add(tuple.length) {
        starts.push(end)?;
    }
    Ok(())
}

/// Adds the first addresses and the ends of tuples.
fn push_tuples(starts: &mut Vec<u64, Heap>, tuples: Aranges<'_>) -> Result<(), NoMemory>
    ensures { OnOk result (starts.new.items ≡ starts.old.items ++ flat_map ends_of_tuple tuples.entry) }
{
    for tuple in tuples {
        push_tuple(starts, &tuple)?;
    }
    Ok(())
}

/// Adds the addresses at which the ranges of those units begin and end that no set names.
fn push_units(
    starts: &mut Vec<u64, Heap>,
    info: &DebugInfo<'_>,
    named: &BTreeSet<u64, Heap>,
) -> Result<(), NoMemory>
    requires { (unit : ℕ) → tree_set.contains nat_cmp named.now unit
        ≡ is_named info.now.sections.debug_aranges.now unit }
    ensures { OnOk result (starts.new.items ≡ starts.old.items
        ++ flat_map (λ u. ends_of (own_ranges (sections_view info.now.sections) u.0 u.1))
        (placed unit_at info.now.sections.debug_info.now)) }
{
    let section = info.sections.debug_info;
    let mut rest = section;
    'units: while let Some((bytes, after)) = split_unit(rest) {
        let offset = (section.len() - rest.len()) as u64;
        push_ranges(starts, info.own_ranges(named, offset, bytes))?;
        rest = after;
    }
    Ok(())
}

/// The boundaries of units, ascending, each once. The time is that of reading `__debug_aranges` and the first entries
/// of the units, and of a sort of the boundaries; the memory is that of the boundaries.
pub(crate) fn boundaries(heap: Heap, info: &DebugInfo<'_>) -> Result<Vec<u64, Heap>, NoMemory>
    ensures rising { IfOk result (λ starts. AreRising starts.items) }
    ensures same { IfOk result (λ starts. (a : ℕ) → Contains starts.items a
        ↔ Contains (boundaries (sections_view info.now.sections)) a) }
{
    let mut starts = Vec::new(heap.share());
    push_tuples(&mut starts, Aranges::of(info.sections.debug_aranges))?;
    let named = named_units(heap, info.sections.debug_aranges)?;
    push_units(&mut starts, info, &named)?;
    Ok(sorted_once(starts))
}
