//! Makes the index of an archive while it is read.

ghost use Rattle.std.specs.Prelude.{◌≡◌, ◌<◌, ◌^◌, IfErr, IfOk, OnOk};
ghost use Rattle.std.specs.Io.KnownBytes.{IsAtEnd};
ghost use Rattle.byte_device.specs.Devices.{stream};
ghost use Rattle.archive_records.specs.Reader.{Position};
ghost use Rattle.index_build.specs.InnerMaking.{BlamesMaking, HasPutAll, HasStoppedMaking, TellsVersionMaking};
ghost use Rattle.index_build.specs.Making.{Makes};

use crate::entries::{ending, sorted};
use crate::fault::MakingFault;
use crate::records::{put_tables, refused};
use archive_records::{END_LEN, RecordFault, Sizes};
use byte_device::{Sink, Source, put};
use heap_memory::Heap;
use index_format::{IndexEntry, IndexingFault, begin_archive, magic};
use table_source_frames::laws::one_slice_table;

/// Reads an archive of version 2 to its end, and writes the magic of its index and the tables of its records. Returns
/// their entries, the number of bytes of the index so far, and the offset of the archive's end record.
fn put_front<R: Source, W: Sink>(
    heap: Heap,
    r: &mut R,
    w: &mut W,
) -> Result<(Vec<IndexEntry, Heap>, u128, u128), MakingFault>
    ensures all { IfOk result (λ put. (position : Position) × (put.2 ≡ position.offset)
        × HasPutAll (R.left r.old) (R.left r.new) W.held W.failures w.old w.new put.0.items position put.1) }
    ensures at_end { OnOk result (IsAtEnd (R.left r.new)) }
    ensures unfailed { OnOk result (R.failures r.new ≡ R.failures r.old) }
    ensures stopped { IfErr result (HasStoppedMaking (R.left r.old) (R.left r.new) W.held W.failures w.old w.new) }
    ensures version { IfErr result (TellsVersionMaking (R.left r.old)) }
    ensures blames { IfErr result (BlamesMaking R.left R.failures r.old r.new) }
    ensures short { IfOk result (λ put. (put.1 < 2 ^ 80) × (put.2 < 2 ^ 65)) }
{
    let mut reader = match begin_archive(heap.share(), r) {
        Ok(reader) => reader,
        Err(fault) => return Err(MakingFault::Archive(fault)),
    };
    let done = match put(w, 0, &magic()) {
        Ok(done) => done,
        Err(fault) => return Err(MakingFault::Write(fault)),
    };
    let (entries, done) = put_tables(heap, &mut reader, r, w, done)?;
    match reader.finish(r) {
        Ok(()) => Ok((entries, done, reader.offset())),
        Err(fault) => Err(MakingFault::Archive(IndexingFault::Archive(fault))),
    }
}

/// Makes the index of an archive of version 2 while it is read: each table is written after its record was read and
/// tested, and the entries last. It needs the memory of a record, of its table and of making the table's lines
/// (`table_source_frames_build::line_table`), of 57 bytes for each retirement, and three times that of the entries.
///
/// # Errors
///
/// Those of `archive_from_records::read_archive`, in the same order and with the same offsets; `OutOfMemory` at the end
/// record if the entries do not fit into memory as they are stored; for an archive of version 1 `OldArchive`, after
/// only its magic was read; `TooLong` if the offset of a record of the archive, or of a table of the index, would be
/// more than 2^64 - 1. `Write` if the writer failed before the archive was refused.
pub fn index_into<R: Source, W: Sink>(
    heap: Heap,
    r: &mut R,
    w: &mut W,
) -> Result<Sizes, MakingFault>
    ensures { Makes (stream R.left R.failures r.old r.new) (stream W.held W.failures w.old w.new) result }
{
    one_slice_table();
    let (entries, done, end) = put_front(heap.share(), r, w)?;
    let entries = sorted(entries);
    let Ok(rest) = ending(&heap, &entries, end + END_LEN as u128) else {
        return Err(refused(RecordFault::out_of_memory(end)));
    };
    match put(w, done, &rest) {
        Ok(bytes) => Ok(Sizes {
            records: entries.len() as u64,
            bytes,
        }),
        Err(fault) => Err(MakingFault::Write(fault)),
    }
}
