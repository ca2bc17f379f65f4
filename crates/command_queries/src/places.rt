//! The answers of an archive for addresses under a key, each with its lines.
ghost use Rattle.std.specs.Prelude.{◌≡◌, Bool, IfOk};
ghost use Rattle.std.specs.List.{AllZip};
ghost use Rattle.command_queries.specs.InnerSourceFrames.{AreSourceFramesOf};
ghost use Rattle.command_queries.specs.Places.{IsPlaceTold, address_in};
ghost use Rattle.command_queries.specs.SourceFrames.{IsAnswerWithFrames};

use crate::addresses::status_after;
use crate::source_frames::SourceFrames;
use archive_core::{Archive, SliceKey, Where};
use command_common::Status;
use heap_memory::{Heap, NoMemory};
use text_reports::push_answer;

/// The answer for an address: the status of a command that prints only it, and its lines.
#[derive(Drop)]
pub struct PlaceAnswer {
    pub status: Status,
    pub text: String<Heap>,
}

/// The address itself.
pub fn address_in(place: Where) -> u64
    ensures { result ≡ address_in place }
{
    match place {
        Where::File(address) => address,
        Where::Loaded { address, .. } => address,
    }
}

/// The answer of an archive for an address, whose source frames were found.
fn answer_place<A: Archive>(
    heap: &Heap,
    archive: &A,
    key: &SliceKey,
    sources: &SourceFrames<'_>,
    place: Where,
) -> Result<PlaceAnswer, NoMemory>
    ensures { IfOk result (λ told. (lines : Bool)
        → AreSourceFramesOf (A.content archive.now) key.now lines place sources.now.found.items
        → IsPlaceTold (IsAnswerWithFrames (A.content archive.now) key.now lines) place told) }
{
    let answer = archive.lookup(key, place)?;
    let frames = sources.at(heap.share(), place)?;
    let mut text = String::new(heap.share());
    push_answer(heap, &mut text, address_in(place), &answer, &frames)?;
    let status = status_after(Status::Done, &answer);
    Ok(PlaceAnswer { status, text })
}

/// The answers of an archive for addresses under a key, in order. If `lines`, the lines of the source frames follow
/// that of each slice; the DWARF of a slice is read once for all addresses.
pub fn answer_places<A: Archive>(
    heap: &Heap,
    archive: &A,
    key: &SliceKey,
    lines: bool,
    places: &[Where],
) -> Result<Vec<PlaceAnswer, Heap>, NoMemory>
    ensures { IfOk result (λ told.
        AllZip (IsPlaceTold (IsAnswerWithFrames (A.content archive.now) key.now lines)) places.now told.items) }
{
    let sources = SourceFrames::if_wanted(heap, archive, key, lines, places)?;
    let mut told = Vec::with_capacity(heap.share(), places.len())?;
    'places: for place in places {
        told.push(answer_place(heap, archive, key, &sources, *place)?)?;
    }
    Ok(told)
}
