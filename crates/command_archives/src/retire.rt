//! `retire IN OUT UUID ARCH DIGEST`.
ghost use Rattle.std.specs.Prelude.{OnOk};
ghost use Rattle.byte_device.specs.Devices.{stream};
ghost use Rattle.command_common.specs.Ends.{EndsStreamed};
ghost use Rattle.command_common.specs.Inputs.{reader};
ghost use Rattle.command_common.specs.Outputs.{out_of, outs, writer};
ghost use Rattle.command_archives.specs.InnerArrivalJoins.{IsRetired};
ghost use Rattle.command_archives.specs.Joining.{WritesAmidst};
ghost use Rattle.command_archives.specs.Notes.{NotesMissing};
ghost use Rattle.command_archives.specs.Retire.{retire, retire_as_it_comes};

use crate::merging::merge_operations;
use crate::notes::note_missing;
use archive_core::{Digest, SliceKey, retirement};
use archive_records::Sizes;
use byte_device::{Output, Sink, Source, Target};
use command_common::{CommandFault, Note, Status, publish_draft};
use heap_memory::Heap;
use text_reports::retire_line;

/// IN's archive with a retirement, as it was written.
#[derive(Clone, Copy)]
struct Written {
    sizes: Sizes,
    /// Whether the retirement is new.
    changed: bool,
    /// Whether IN had such a slice.
    had: bool,
}

/// Merges IN's archive with the retirement into the draft, and returns whether that changed it, and whether it had such
/// a slice.
fn retire_input<R: Source, W: Sink>(
    heap: &Heap,
    input: &mut R,
    key: &SliceKey,
    digest: &Digest,
    draft: &mut W,
) -> Result<Written, CommandFault>
    ensures { WritesAmidst (λ input. retire input key.now digest.now) (λ input draft written.
        IsRetired input key.now digest.now draft written.sizes written.changed written.had)
        (reader R.left R.failures input.old input.new) (stream W.held W.failures draft.old draft.new) result }
{
    let retirements = [retirement(*key, *digest)];
    let (sizes, told) = merge_operations(heap, input, &retirements, draft)?;
    Ok(Written {
        sizes,
        changed: told.arrivals[0].is_new(),
        had: told.withdraws,
    })
}

/// Writes IN's archive with the retirement of the slices under the key that have the digest to OUT, and to the report
/// whether it is new, and the sizes. IN is merged as it is read with the retirement, in the memory of one record and of
/// 57 bytes for each retirement. If IN has no such slice, a note that says so is added.
///
/// # Errors
///
/// `Input` if the archive is refused; `Output` and `Report` if that writer failed; `OutOfMemory`.
pub fn run_retire<R: Source, T: Target, P: Sink>(
    heap: Heap,
    input: &mut R,
    key: SliceKey,
    digest: Digest,
    notes: &mut Vec<Note, Heap>,
    out: &mut Output<T::Draft, T>,
    report: &mut P,
) -> Result<Status, CommandFault>
    ensures ends { let known = out_of (outs T.Draft.held T.Draft.failures T.published T.failures out.old out.new) in
        EndsStreamed (retire_as_it_comes (reader R.left R.failures input.old input.new) key digest known.draft) known
        (writer P.held P.failures report.old report.new) result }
    ensures noted { OnOk result (NotesMissing (reader R.left R.failures input.old input.new) key digest
        notes.old.items notes.new.items) }
{
    let written = retire_input(&heap, input, &key, &digest, &mut out.draft)?;
    note_missing(notes, written.had, key, digest)?;
    let lines = retire_line(heap, written.changed, key, digest)?;
    publish_draft(lines, written.sizes, out, report)
}
