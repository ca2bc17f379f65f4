//! The frames of addresses of an image.

ghost use Rattle.std.specs.Prelude.{◌≡◌, [], ℕ, IfOk, EachIndex, map, slice_index};
ghost use Rattle.std.specs.Option.{option_map_or};
ghost use Rattle.dwarf_asked_frames.specs.FoundFrames.{AreRight, IsFound, frames_under};
ghost use Rattle.dwarf_source_frames.specs.AddressFrames.{AreFramesOf};
ghost use Rattle.dwarf_source_frames.specs.ByUnit.{addresses_under};
ghost use Rattle.dwarf_source_frames.specs.FoundUnits.{AreOfUnit};
ghost use Rattle.dwarf_source_frames.specs.FrameViews.{frame_view};
ghost use Rattle.dwarf_source_frames.specs.SectionsViews.{sections_view};

use crate::found::Found;
use crate::unit_frames::find_unit;
use dwarf_asked_addresses::sorted_once;
use dwarf_encoding::Units;
use dwarf_source_frames::{ByUnit, DebugInfo, SourceFrame, by_unit, take_unit};
use heap_memory::{Heap, NoMemory};
use macho_image::Image;
use std::collections::BTreeMap;

/// The frames of addresses of an image.
#[derive(Drop)]
pub struct AddressFrames<'a> {
    found: Found<'a>,
}

/// The frames of addresses that are grouped by the offsets of their units, one unit after another; `line_units` are the
/// units of `__debug_line`.
fn find_all<'a>(
    heap: Heap,
    info: &DebugInfo<'a>,
    line_units: &Units<'a>,
    mut by_unit: ByUnit,
) -> Result<Found<'a>, NoMemory>
    requires lines { line_units.now ≡ info.now.sections.debug_line.now }
    requires units { (place : ℕ) →
        AreOfUnit (sections_view info.now.sections) place (addresses_under by_unit place) }
    ensures right { IfOk result (λ found. AreRight (sections_view info.now.sections) found) }
    ensures each { IfOk result (λ found. (place : ℕ) → EachIndex (addresses_under by_unit place)
        (λ i. IsFound (sections_view info.now.sections) found (slice_index (addresses_under by_unit place) i))) }
{
    let mut found = BTreeMap::new(heap.share());
    'units: while let Some((place, list)) = take_unit(&mut by_unit) {
        let addresses = sorted_once(list.addresses);
        find_unit(
            heap.share(),
            info,
            line_units,
            place,
            &addresses,
            &mut found,
        )?;
    }
    Ok(found)
}

/// The frames of addresses, from the DWARF of their image.
fn find<'a>(heap: Heap, info: &DebugInfo<'a>, addresses: &[u64]) -> Result<Found<'a>, NoMemory>
    ensures { IfOk result (λ found. EachIndex addresses.now
        (λ i. IsFound (sections_view info.now.sections) found (slice_index addresses.now i))) }
{
    let line_units = Units::read(heap.share(), info.sections.debug_line)?;
    let places = info.units_of(heap.share(), addresses)?;
    let (_, by_unit) = by_unit(heap.share(), addresses, &places)?;
    let found = find_all(heap, info, &line_units, by_unit)?;
    Ok(found)
}

impl<'a> AddressFrames<'a> {
    /// The frames of an address, the innermost first. `None` and an empty slice both mean that it has none.
    pub fn get(&self, address: u64) -> Option<&[SourceFrame<'a>]>
        ensures { option_map_or (λ frames. map (λ f. frame_view f) frames.now) result []
            ≡ frames_under self.now address }
    {
        let list = self.found.get(&address)?;
        Some(&list.frames)
    }
}

/// The frames of these addresses of an image. The time is that of reading `__debug_aranges` and the declarations, of
/// reading each unit with one of the addresses once and running its program once, and of the frames. The memory is that
/// of the frames, and of the functions that contain an address, for one unit after another.
pub fn frames_of<'a>(
    heap: Heap,
    image: &Image<'a>,
    addresses: &[u64],
) -> Result<AddressFrames<'a>, NoMemory>
    ensures { IfOk result (λ frames. EachIndex addresses.now (λ i.
        AreFramesOf image.now (slice_index addresses.now i) (frames_under frames (slice_index addresses.now i)))) }
{
    let info = DebugInfo::read(heap.share(), image)?;
    let found = find(heap, &info, addresses)?;
    Ok(AddressFrames { found })
}
