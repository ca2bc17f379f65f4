//! The source frames for addresses in the slices that answer under a key.
ghost use Rattle.std.specs.Prelude.{◌≡◌, [], Contains, IfOk, filter_map, map, true};
ghost use Rattle.std.specs.Option.{option_map_or};
ghost use Rattle.archive_core.specs.Lookup.{file_address};
ghost use Rattle.archive_core.specs.declared.lookup.Where.{Where};
ghost use Rattle.command_queries.specs.InnerSourceFrames.{AreSourceFramesOf, frames_in};
ghost use Rattle.command_queries.specs.SourceFrames.{AreFramesAt};
ghost use Rattle.text_reports.specs.FrameLists.{list_view, lists_view};

use archive_core::{Archive, Slice, SliceKey, Where};
use archive_index::file_address;
use dwarf_asked_frames::{AddressFrames, frames_of};
use dwarf_source_frames::SourceFrame;
use heap_memory::{Heap, NoMemory};

/// A slice that answers, and the frames found in it.
#[derive(Drop)]
struct SlicedFrames<'s> {
    slice: &'s Slice,
    frames: AddressFrames<'s>,
}

/// The frames found in the slices that answer under a key, in the order of their records; none if no lines are wanted.
#[derive(Drop)]
pub(crate) struct SourceFrames<'s> {
    found: Vec<SlicedFrames<'s>, Heap>,
}

/// The addresses in a slice's file for these addresses.
fn addresses_in(heap: Heap, slice: &Slice, places: &[Where]) -> Result<Vec<u64, Heap>, NoMemory>
    ensures { IfOk result (λ addresses. addresses.items ≡ filter_map (file_address slice.now) places.now) }
{
    places
        .iter()
        .filter_map(|place| file_address(slice, *place))
        .collect(heap)
}

impl<'s> SlicedFrames<'s> {
    /// The frames for addresses in a slice, found in one pass.
    fn of(heap: Heap, slice: &'s Slice, places: &[Where]) -> Result<SlicedFrames<'s>, NoMemory>
        ensures slice { IfOk result (λ it. it.slice.now ≡ slice.now) }
        ensures frames { IfOk result (λ it. (place : Where) → Contains places.now place
            → AreFramesAt place slice.now (frames_in place it)) }
    {
        let addresses = addresses_in(heap.share(), slice, places)?;
        let frames = frames_of(heap, &slice.image(), &addresses)?;
        Ok(SlicedFrames { slice, frames })
    }

    fn at(&self, place: Where) -> Option<&[SourceFrame<'_>]>
        ensures { option_map_or (λ frames. list_view frames.now) result [] ≡ frames_in place self.now }
    {
        let address = file_address(self.slice, place)?;
        self.frames.get(address)
    }
}

impl<'s> SourceFrames<'s> {
    /// No frames: no lines are wanted.
    pub(crate) fn none(heap: Heap) -> SourceFrames<'s>
        ensures { result.found.items ≡ [] }
    {
        SourceFrames {
            found: Vec::new(heap),
        }
    }

    /// The frames for addresses in the slices that answer under a key.
    pub(crate) fn of<A: Archive>(
        heap: &Heap,
        archive: &'s A,
        key: &SliceKey,
        places: &[Where],
    ) -> Result<SourceFrames<'s>, NoMemory>
        ensures { IfOk result (λ sources. (place : Where) → Contains places.now place
            → AreSourceFramesOf (A.content archive.now) key.now true place sources.found.items) }
    {
        let slices = archive.answering_slices(key)?;
        let mut found = Vec::new(heap.share());
        'slices: for slice in &slices {
            found.push(SlicedFrames::of(heap.share(), slice, places)?)?;
        }
        Ok(SourceFrames { found })
    }

    /// The same if `lines`; else none.
    pub(crate) fn if_wanted<A: Archive>(
        heap: &Heap,
        archive: &'s A,
        key: &SliceKey,
        lines: bool,
        places: &[Where],
    ) -> Result<SourceFrames<'s>, NoMemory>
        ensures { IfOk result (λ sources. (place : Where) → Contains places.now place
            → AreSourceFramesOf (A.content archive.now) key.now lines place sources.found.items) }
    {
        if lines {
            SourceFrames::of(heap, archive, key, places)
        } else {
            Ok(SourceFrames::none(heap.share()))
        }
    }

    /// The source frames of an address in each slice, in the order of `found`; an empty list if a slice has none.
    pub(crate) fn at(
        &self,
        heap: Heap,
        place: Where,
    ) -> Result<Vec<&[SourceFrame<'_>], Heap>, NoMemory>
        ensures { IfOk result (λ lists. lists_view lists.items ≡ map (frames_in place) self.now.found.items) }
    {
        let mut lists = Vec::new(heap);
        'slices: for it in &self.found {
            match it.at(place) {
                Some(frames) => lists.push(frames)?,
                None => lists.push(&[])?,
            }
        }
        Ok(lists)
    }
}
