//! The records of an archive that a summary does not name, copied as they are read.

ghost use Rattle.std.specs.Prelude.{◌≡◌, ◌+◌, ◌<◌, ◌≤◌, ◌^◌, [], ℕ, List, Option, length, OnOk, IfOk, IfErr};
ghost use Rattle.std.specs.Prelude.{MatchResult};
ghost use Rattle.std.specs.Io.KnownBytes.{Appends, Consumes, IsAtEnd};
ghost use Rattle.archive_records.specs.Kind.{kind_of, magic};
ghost use Rattle.archive_core.specs.Summary.{Entries};
ghost use Rattle.archive_records.specs.Reader.{GathersAll, HasRead};
ghost use Rattle.archive_records.specs.Text.{end_record};
ghost use Rattle.archive_records.specs.declared.kind.TextKind.TheVariants.{Archive};
ghost use Rattle.byte_device.specs.Devices.{stream};
ghost use Rattle.command_archives.specs.Copying.{BlamesDevices, CopiesUnnamed, HasDraft, IsCause, IsCopied};
ghost use Rattle.command_archives.specs.Copying.{IsCopiedUpTo, StopsCopy, StopsEnd, StopsRecords};

use archive_records::{
    Format, MergeCause, MergeFault, NextRecord, RecordReader, Sizes, Summary, TextKind, put_end,
    put_missing_record,
};
use byte_device::{Sink, Source, put};
use heap_memory::Heap;

/// Copies the records after the magic up to the end record, after the `begun` bytes that were written.
fn copy_records<R: Source, W: Sink>(
    reader: &mut RecordReader,
    r: &mut R,
    summary: &Summary,
    w: &mut W,
    begun: u128,
) -> Result<Sizes, MergeFault>
    requires archive { kind_of reader.old.file ≡ Archive }
    requires fits { begun ≤ 8 }
    ensures copied { IfOk result (λ sizes. (a w0 : Option (List ℕ))
        → HasRead reader.old.file a (R.left r.old) [] reader.old
        → IsCopied summary.now w0 (W.held w.old) [] (record { records = 0; bytes = begun })
        → GathersAll reader.old.file (IsCopied summary.now w0 (W.held w.new)) a (R.left r.new) sizes reader.new) }
    ensures stopped { IfErr result (λ e. (a w0 : Option (List ℕ))
        → HasRead reader.old.file a (R.left r.old) [] reader.old
        → IsCopied summary.now w0 (W.held w.old) [] (record { records = 0; bytes = begun })
        → StopsRecords reader.old.file a (R.left r.new) e.cause
        × IsCopiedUpTo reader.old.file summary.now a (R.left r.new) w0 (W.held w.new) e.written) }
    ensures devices { BlamesDevices R.left R.failures r.old r.new (W.failures w.old) (W.failures w.new) result }
    ensures short { IfOk result (λ sizes. sizes.bytes + 9 < 2 ^ 128) }
{
    let mut written = Sizes {
        records: 0,
        bytes: begun,
    };
    'copying: loop {
        match reader.advance(r) {
            Ok(NextRecord::End) => return Ok(written),
            Ok(NextRecord::Item(_)) => {}
            Err(fault) => {
                return Err(MergeFault {
                    cause: MergeCause::Left(fault),
                    written: written.bytes,
                });
            }
        }
        if reader.dropped() {
            continue 'copying;
        }
        match put_missing_record(w, written, summary, &reader.record()) {
            Ok(more) => written = more,
            Err(fault) => {
                return Err(MergeFault {
                    cause: MergeCause::Write,
                    written: fault.written,
                });
            }
        }
    }
}

/// Reads the magic, writes that of version 2, and returns the reader and the number of bytes written.
fn begin_copy<R: Source, W: Sink>(
    heap: Heap,
    r: &mut R,
    w: &mut W,
) -> Result<(RecordReader, u128), MergeFault>
    ensures read { IfOk result (λ begun. (kind_of begun.0.file ≡ Archive)
        × HasRead begun.0.file (R.left r.old) (R.left r.new) [] begun.0) }
    ensures written { IfOk result (λ begun. (begun.1 ≡ 8) × Appends (W.held w.old) (W.held w.new) magic) }
    ensures cause { IfErr result (λ e. IsCause (R.left r.old) (R.left r.new) e.cause) }
    ensures stopped { (s : Entries) → IfErr result (λ e.
        HasDraft s (R.left r.old) (R.left r.new) (W.held w.old) (W.held w.new) e.written) }
    ensures devices { BlamesDevices R.left R.failures r.old r.new (W.failures w.old) (W.failures w.new) result }
{
    let reader = match RecordReader::begin(heap, TextKind::Archive, r) {
        Ok(reader) => reader,
        Err(fault) => {
            return Err(MergeFault {
                cause: MergeCause::Left(fault),
                written: 0,
            });
        }
    };
    match put(w, 0, &Format::Archive.magic()) {
        Ok(bytes) => Ok((reader, bytes)),
        Err(fault) => Err(MergeFault {
            cause: MergeCause::Write,
            written: fault.written,
        }),
    }
}

/// Tests that the archive ends after its end record, and writes an end record after the copy, which has these sizes.
fn end_copy<R: Source, W: Sink>(
    reader: &RecordReader,
    r: &mut R,
    w: &mut W,
    sizes: Sizes,
) -> Result<Sizes, MergeFault>
    requires { sizes.bytes + 9 < 2 ^ 128 }
    ensures at_end { OnOk result (IsAtEnd (R.left r.new) × Consumes (R.left r.old) (R.left r.new) []) }
    ensures ended { IfOk result (λ all. (all.bytes ≡ sizes.bytes + length (end_record sizes.records))
        × (all.records ≡ sizes.records) × Appends (W.held w.old) (W.held w.new) (end_record sizes.records)) }
    ensures stopped { IfErr result (λ e. StopsEnd reader.now (R.left r.old) (R.left r.new) (W.held w.old)
        (W.held w.new) sizes e.cause e.written) }
    ensures devices { BlamesDevices R.left R.failures r.old r.new (W.failures w.old) (W.failures w.new) result }
{
    if let Err(fault) = reader.finish(r) {
        return Err(MergeFault {
            cause: MergeCause::Left(fault),
            written: sizes.bytes,
        });
    }
    match put_end(w, sizes.bytes, sizes.records) {
        Ok(all) => Ok(all),
        Err(fault) => Err(MergeFault {
            cause: MergeCause::Write,
            written: fault.written,
        }),
    }
}

/// Writes the archive of those operations of the input whose entries the summary does not have, in the memory of one
/// record and of 57 bytes for each retirement, and returns its sizes. Each slice is checked and hashed once, and none
/// is copied.
/// # Errors `Left` with the fault of `read_archive` of `archive_from_records`; `Write` if the writer failed. The
///written bytes are then a beginning of an archive.
pub fn copy_unnamed<R: Source, W: Sink>(
    heap: Heap,
    summary: &Summary,
    r: &mut R,
    w: &mut W,
) -> Result<Sizes, MergeFault>
    ensures { MatchResult result
        (CopiesUnnamed (stream R.left R.failures r.old r.new) (stream W.held W.failures w.old w.new) summary.now)
        (StopsCopy (stream R.left R.failures r.old r.new) (stream W.held W.failures w.old w.new) summary.now) }
{
    let (mut reader, begun) = begin_copy(heap, r, w)?;
    let sizes = copy_records(&mut reader, r, summary, w, begun)?;
    end_copy(&reader, r, w, sizes)
}
