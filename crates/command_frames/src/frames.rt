//! `frames FRAMES [--lines] [--slices] ARCHIVE... [--index INDEX]...`, over any evidence; and the answers of indexes to
//! frames.
ghost use Rattle.std.specs.Prelude.{◌≡◌, IfOk, length};
ghost use Rattle.command_common.specs.Ends.{EndsReport};
ghost use Rattle.command_common.specs.Inputs.{ReadsInputs, reader, readers};
ghost use Rattle.command_common.specs.Outputs.{writer};
ghost use Rattle.command_queries.specs.Frames.{prints_frames};
ghost use Rattle.command_given_indexes.specs.Several.{AreUnfailedTogether};
ghost use Rattle.command_frames.specs.Asking.{AreRefusedAsking};
ghost use Rattle.command_frames.specs.Frames.{AreToldAt};
ghost use Rattle.command_frames.specs.InnerReplies.{PrintsFrames};
ghost use Rattle.command_frames.specs.InnerPlaces.{AreKeysOf};
ghost use Rattle.command_frames.specs.InnerKeyReplies.{HaveEachTold, asked_in};

use crate::evidence::FrameEvidence;
use crate::key_answers::{KeyAnswers, answer_keys};
use crate::named::{asked_uuids, frame_keys};
use crate::places::asked_keys;
use crate::replies::{answer_frames_by_keys, refused_lines};
use crate::slices::with_slices;
use archive_core::{Archive, SliceKey};
use byte_device::{Placed, Sink, Source};
use command_common::{CommandFault, Status, read_frames_input, write_report_bytes};
use command_given_indexes::read_indexes;
use heap_memory::{Heap, NoMemory};
use index_format::IndexPart;
use text_input_files::Frame;

/// The lines of the replies to the frames; if `slices`, followed by those of the slices that answer under these keys,
/// and those of the refused keys. Also returns the status of a command that prints them.
fn print_frames(
    heap: &Heap,
    slices: bool,
    keys: &[SliceKey],
    read: &[IndexPart],
    told: &[KeyAnswers<'_>],
    frames: &[Frame],
) -> Result<(Status, Vec<u8, Heap>), NoMemory>
    requires asked { AreKeysOf frames.now (asked_in told.now) }
    requires even { HaveEachTold told.now }
    ensures { IfOk result (λ shown.
        PrintsFrames told.now slices read.now keys.now frames.now shown.0 shown.1.items) }
{
    let (status, answers) = answer_frames_by_keys(heap.share(), told, frames)?;
    let refused = refused_lines(heap.share(), told)?;
    let text = with_slices(heap, slices, keys, read, answers, &refused)?;
    Ok((status, text))
}

/// The status of the command and its lines for the frames: the answers of the indexes key by key, in the order of the
/// keys' bytes; and if `slices`, the slices that answer under these keys.
///
/// The entries under the UUIDs of the keys and of the frames are read of the indexes, and the lengths that these tell
/// are compared with those of their archives. Then each key is answered: by tables, page by page, where those under one
/// key are open at a time; or, if two slices of one length answer under the key in two archives, by the slices that the
/// indexes name under this key, which are read at their offsets, tested and hashed. The lines of the slices follow,
/// made from the entries of the indexes.
///
/// With `slices`, a key is refused alone if a table of it was changed or has no lines, or a slice of it that is read
/// was changed: its frames have a mark in place of an answer, a line after all others has the key and the fault, and
/// the status is `SomeRefused`.
pub(crate) fn answer_by_indexes<A: Archive + Drop, I: Placed, P: Placed>(
    heap: &Heap,
    lines: bool,
    slices: bool,
    keys: &[SliceKey],
    frames: &[Frame],
    indexes: &mut [I],
    archives: &mut [P],
) -> Result<(Status, Vec<u8, Heap>), CommandFault>
    requires { length indexes.old ≡ length archives.old }
    ensures { let named = readers I.whole I.failures indexes.old indexes.new in
        let known = readers P.whole P.failures archives.old archives.new in
        ReadsInputs result
        (λ told. AreToldAt lines slices named known keys.now frames.now told.0 told.1.items)
        (AreRefusedAsking lines slices frames.now named known) (AreUnfailedTogether named known) }
{
    let uuids = asked_uuids(heap, keys, frames)?;
    let (read, sizes) = read_indexes(heap, &uuids, indexes, archives)?;
    let asked = asked_keys(heap, frames)?;
    let told = answer_keys::<A, I, P>(
        heap, &read, &sizes, indexes, archives, lines, slices, &asked,
    )?;
    let shown = print_frames(heap, slices, keys, &read, &told, frames)?;
    Ok(shown)
}

/// Writes to the report, for each frame of FRAMES in order, the lines that `symbolicate` writes for its address. FRAMES
/// is read to its end first, and then the evidence is asked. If FRAMES has no frame, the inputs are still read and
/// tested. If `lines`, the answer of each slice is followed by the source frames of the address in it. If `slices`, the
/// lines of the slices that answer under the UUIDs of the frames follow, and those of the keys without such a slice.
///
/// The status is `Done` if each answer is one symbol, `SomeRefused` if a key is refused alone, else `Partial`.
///
/// # Errors
///
/// `Input` for FRAMES, or for the first other input that is refused; `Report` if the report failed; `OutOfMemory`.
pub fn run_frames<A: Archive + Drop, C: Source, E: FrameEvidence, P: Sink>(
    heap: Heap,
    lines: bool,
    slices: bool,
    crash: &mut C,
    evidence: &mut E,
    report: &mut P,
) -> Result<Status, CommandFault>
    requires { E.can_find evidence.old }
    ensures keeps { E.keeps evidence.old evidence.new }
    ensures ends { EndsReport
        (prints_frames (reader C.left C.failures crash.old crash.new)
        (E.answered evidence.old evidence.new lines slices))
        (writer P.held P.failures report.old report.new) result }
{
    let frames = read_frames_input(heap.share(), crash)?;
    let keys = frame_keys(heap.share(), &frames)?;
    let (status, text) = evidence.answer::<A>(&heap, lines, slices, &keys, &frames)?;
    write_report_bytes(status, &text, report)
}
