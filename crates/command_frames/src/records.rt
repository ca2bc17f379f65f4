//! The answers of archives to frames, by their records.
ghost use Rattle.std.specs.Prelude.{◌<◌, All, Contains, IfOk, length};
ghost use Rattle.archive_core.specs.Key.{IsKey};
ghost use Rattle.command_common.specs.Archives.{ReadsTogether};
ghost use Rattle.command_queries.specs.Frames.{TellsFrames, frames_by_records};
ghost use Rattle.command_frames.specs.InnerSlices.{TellsRowsAfter};
ghost use Rattle.command_queries.specs.Slices.{IsAnsweringRow, TellsSlicesAfter, WithSlices};
ghost use Rattle.command_common.specs.Inputs.{ReadsInputs, reader, readers};
ghost use Rattle.text_input_files.specs.declared.frame.Frame.{Frame};

use crate::named::uuids_of;
use crate::places::asked_keys;
use crate::questions::{AskedKeys, KeyQuestions};
use crate::record_slices::{UnderUuids, slices_under};
use crate::replies::answer_frames_by_keys;
use archive_core::{Archive, SliceKey};
use byte_device::Source;
use command_common::{
    CommandFault, Status, answer_all, answer_archives, first_and_rest, read_parts,
};
use heap_memory::{Heap, NoMemory};
use text_input_files::Frame;
use uuid::Uuid;

/// The status, and the lines of the answers to frames, in order. Each key is asked once; if `lines`, the DWARF of each
/// slice is read once for all frames of its key.
fn answer_frames<A: Archive>(
    heap: &Heap,
    archive: &A,
    frames: &[Frame],
    lines: bool,
) -> Result<(Status, Vec<u8, Heap>), NoMemory>
    ensures { IfOk result (λ told. TellsFrames lines (A.content archive.now) frames.now told.0 told.1.items) }
{
    let asked = asked_keys(heap, frames)?;
    let mut questions = KeyQuestions::of(heap, lines, &asked);
    answer_all(&mut questions, archive)?;
    let text = answer_frames_by_keys(heap.share(), &questions.told, frames)?;
    Ok(text)
}

/// Reads the archives, and returns the status, and the lines of the answers of their join to the frames, in order.
fn read_and_answer<A: Archive + Drop, R: Source>(
    heap: &Heap,
    lines: bool,
    frames: &[Frame],
    archive: &mut R,
    others: &mut [R],
) -> Result<(Status, Vec<u8, Heap>), CommandFault>
    ensures { ReadsTogether (reader R.left R.failures archive.old archive.new)
        (readers R.left R.failures others.old others.new) result
        (λ told o. TellsFrames lines o frames.now told.0 told.1.items) }
{
    let asked = asked_keys(heap, frames)?;
    let questions = KeyQuestions::of(heap, lines, &asked);
    let keys = AskedKeys { asked: &asked };
    let told = answer_archives::<A, KeyQuestions<'_>, AskedKeys<'_>, R>(
        heap.share(),
        questions,
        &keys,
        archive,
        others,
    )?;
    let text = answer_frames_by_keys(heap.share(), &told.told, frames)?;
    Ok(text)
}

/// The status, and the lines of the answers of an archive to frames, followed by those of the slices that answer under
/// UUIDs.
fn answers_then_slices<A: Archive>(
    heap: &Heap,
    archive: &A,
    uuids: &[Uuid],
    keys: &[SliceKey],
    frames: &[Frame],
    lines: bool,
) -> Result<(Status, Vec<u8, Heap>), NoMemory>
    ensures { IfOk result (λ told. TellsRowsAfter (TellsFrames lines (A.content archive.now) frames.now)
        (A.content archive.now) uuids.now keys.now told.0 told.1.items) }
{
    let (status, answers) = answer_frames(heap, archive, frames, lines)?;
    let slices = slices_under(heap.share(), archive, uuids, keys)?;
    let mut text = answers;
    text.extend_from_slice(slices.as_bytes())?;
    Ok((status, text))
}

/// Reads the archives, and returns the status, and the lines of the answers of their join to the frames, followed by
/// those of the slices that answer under the UUIDs of keys.
fn read_and_answer_with_slices<A: Archive + Drop, R: Source>(
    heap: &Heap,
    lines: bool,
    frames: &[Frame],
    keys: &[SliceKey],
    archive: &mut R,
    others: &mut [R],
) -> Result<(Status, Vec<u8, Heap>), CommandFault>
    requires keyed { All IsKey keys.now }
    requires under { (frame : Frame) → Contains frames.now frame → Contains keys.now frame.key }
    ensures { ReadsTogether (reader R.left R.failures archive.old archive.new)
        (readers R.left R.failures others.old others.new) result
        (λ told o. TellsSlicesAfter (TellsFrames lines o frames.now) (IsAnsweringRow o keys.now) keys.now
        told.0 told.1.items) }
{
    let uuids = uuids_of(heap.share(), keys)?;
    let kept: A = read_parts(heap.share(), &UnderUuids { uuids: &uuids }, archive, others)?;
    let told = answers_then_slices(heap, &kept, &uuids, keys, frames, lines)?;
    Ok(told)
}

/// The status, and the lines of the answers to frames; if `slices`, followed by those of the slices that answer under
/// the UUIDs of keys.
fn frames_text<A: Archive + Drop, R: Source>(
    heap: &Heap,
    lines: bool,
    slices: bool,
    frames: &[Frame],
    keys: &[SliceKey],
    archive: &mut R,
    others: &mut [R],
) -> Result<(Status, Vec<u8, Heap>), CommandFault>
    requires keyed { All IsKey keys.now }
    requires under { (frame : Frame) → Contains frames.now frame → Contains keys.now frame.key }
    ensures { ReadsTogether (reader R.left R.failures archive.old archive.new)
        (readers R.left R.failures others.old others.new) result
        (λ told o. WithSlices slices (TellsFrames lines o frames.now) (IsAnsweringRow o keys.now) keys.now
        told.0 told.1.items) }
{
    if slices {
        read_and_answer_with_slices::<A, R>(heap, lines, frames, keys, archive, others)
    } else {
        read_and_answer::<A, R>(heap, lines, frames, archive, others)
    }
}

/// The status, and the lines of the answers of the join of archives to frames, in order; if `slices`, followed by those
/// of the slices that answer under the UUIDs of keys. The archives are read one after another, each in one pass. With
/// one archive, the slices of one key are in memory at a time, and with `slices` all slices under these UUIDs; with
/// several archives, all slices under the keys of the frames. If `lines`, the answer of each slice is followed by the
/// source frames of the address in it.
///
/// The status is `Done` if each answer is one symbol, and else `Partial`.
///
/// # Errors
///
/// `Input` for the first archive that is refused; `OutOfMemory`.
pub(crate) fn answer_by_records<A: Archive + Drop, R: Source>(
    heap: &Heap,
    lines: bool,
    slices: bool,
    keys: &[SliceKey],
    frames: &[Frame],
    archives: &mut [R],
) -> Result<(Status, Vec<u8, Heap>), CommandFault>
    requires some { 0 < length archives.old }
    requires keyed { All IsKey keys.now }
    requires under { (frame : Frame) → Contains frames.now frame → Contains keys.now frame.key }
    ensures { let asked = frames_by_records lines slices (readers R.left R.failures archives.old archives.new) in
        ReadsInputs result (λ told. asked.Tells keys.now frames.now told.0 told.1.items)
        (asked.Refuses frames.now) asked.Unfailed }
{
    let (archive, others) = first_and_rest(archives);
    frames_text::<A, R>(heap, lines, slices, frames, keys, archive, others)
}
