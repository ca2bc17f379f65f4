//! The frames of the addresses of a unit.

ghost use Rattle.std.specs.Prelude.{◌≡◌, ◌≤◌, ◌<◌, ℕ, IfSome, OnOk, EachIndex, length, slice_index};
ghost use Rattle.dwarf_asked_frames.specs.FoundFrames.{AreRight, IsFound};
ghost use Rattle.dwarf_asked_addresses.specs.Rising.{AreRising};
ghost use Rattle.dwarf_source_frames.specs.FoundUnits.{AreOfUnit, IsInUnit};
ghost use Rattle.dwarf_source_frames.specs.FrameViews.{lines_view};
ghost use Rattle.dwarf_source_frames.specs.SectionsViews.{sections_view};
ghost use Rattle.dwarf_source_frames.specs.UnitLines.{lines_of};
ghost use Rattle.dwarf_source_frames.specs.UnitViews.{unit_view};

use crate::found::{Found, put_frames};
use crate::link_frames::frames_at;
use dwarf_encoding::Units;
use dwarf_functions::{Links, RowSteps};
use dwarf_source_frames::{DebugInfo, DebugUnit, UnitLines};
use heap_memory::{Heap, NoMemory};

/// Finds the frames of addresses of a unit, which ascend. The unit is read once, and its program is run once.
fn find_in<'a>(
    heap: Heap,
    info: &DebugInfo<'a>,
    lines: &UnitLines<'a>,
    unit: &DebugUnit<'a>,
    addresses: &[u64],
    found: &mut Found<'a>,
) -> Result<(), NoMemory>
    requires within { unit.now.header.entries_offset ≤ length unit.now.bytes.now }
    requires range { IfSome lines.now.program (λ p. 0 < p.header.line_range) }
    requires lines_are { lines_view lines.now ≡ lines_of (sections_view info.now.sections) (unit_view unit.now) }
    requires rising { AreRising addresses.now }
    requires unit_is { (i : ℕ) → i < length addresses.now →
        IsInUnit (sections_view info.now.sections) (unit_view unit.now) (slice_index addresses.now i) }
    requires right { AreRight (sections_view info.now.sections) found.old }
    ensures right { OnOk result (AreRight (sections_view info.now.sections) found.new) }
    ensures each { OnOk result (EachIndex addresses.now
        (λ i. IsFound (sections_view info.now.sections) found.new (slice_index addresses.now i))) }
    ensures kept { OnOk result ((a : ℕ) → IsFound (sections_view info.now.sections) found.old a →
        IsFound (sections_view info.now.sections) found.new a) }
{
    let links = Links::at(heap.share(), info, unit, addresses)?;
    let steps = RowSteps::at(heap.share(), lines, addresses)?;
    for (i, address) in addresses.iter().enumerate() {
        let list = frames_at(heap.share(), lines, &links, steps.rows[i], links.numbers[i])?;
        put_frames(found, *address, list)?;
    }
    Ok(())
}

/// Finds the frames of the addresses of the unit at an offset, which ascend; `line_units` are the units of
/// `__debug_line`.
pub(crate) fn find_unit<'a>(
    heap: Heap,
    info: &DebugInfo<'a>,
    line_units: &Units<'a>,
    place: u64,
    addresses: &[u64],
    found: &mut Found<'a>,
) -> Result<(), NoMemory>
    requires lines { line_units.now ≡ info.now.sections.debug_line.now }
    requires rising { AreRising addresses.now }
    requires unit { AreOfUnit (sections_view info.now.sections) place addresses.now }
    requires right { AreRight (sections_view info.now.sections) found.old }
    ensures right { OnOk result (AreRight (sections_view info.now.sections) found.new) }
    ensures each { OnOk result (EachIndex addresses.now
        (λ i. IsFound (sections_view info.now.sections) found.new (slice_index addresses.now i))) }
    ensures kept { OnOk result ((a : ℕ) → IsFound (sections_view info.now.sections) found.old a →
        IsFound (sections_view info.now.sections) found.new a) }
{
    let Some(unit) = info.unit_at(place) else {
        return Ok(());
    };
    let lines = UnitLines::read(heap.share(), &info.sections, line_units, &unit)?;
    find_in(heap, info, &lines, &unit, addresses, found)
}
