//! The tables of all records of an archive, one after another.

ghost use Rattle.std.specs.Prelude.{◌≡◌, ◌<◌, ◌^◌, ℕ, List, Option, [], IfErr, IfOk, OnOk, length};
ghost use Rattle.byte_device.specs.Writes.{IsPut};
ghost use Rattle.table_checked_pages.specs.Pages.{stored};
ghost use Rattle.table_symbols.specs.Steps.{AreBytes};
ghost use Rattle.archive_core.specs.Record.{IsRecord};
ghost use Rattle.archive_records.specs.Reader.{HasRead};
ghost use Rattle.archive_records.specs.declared.format.Format.TheVariants.{Archive};
ghost use Rattle.index_format.specs.declared.fault.IndexingFault.TheVariants.{Archive as Archive_fault};
ghost use Rattle.index_format.specs.Entry.{entry_bytes};
ghost use Rattle.index_build.specs.Content.{IsTableOf, front_of, table_entry};
ghost use Rattle.index_build.specs.InnerMaking.{BlamesMaking, HasPutAll, HasStoppedMaking, StopsRecord};
ghost use Rattle.index_build.specs.declared.fault.MakingFault.TheVariants.{Archive as Refused};

use crate::fault::{MakingFault, TableFault};
use crate::tables::put_table;
use archive_records::{NextRecord, RecordFault, RecordReader};
use byte_device::{Sink, Source};
use heap_memory::Heap;
use index_format::{IndexEntry, IndexingFault};

/// The fault of the archive, as one of making.
pub(crate) fn refused(fault: RecordFault) -> MakingFault
    ensures { result ≡ Refused (Archive_fault fault) }
{
    MakingFault::Archive(IndexingFault::Archive(fault))
}

/// Writes the table of the last record after the first `done` bytes of an index. `before` is the offset of the record
/// in the archive. Returns its entry, and the number of bytes of the index so far.
fn put_record<W: Sink>(
    heap: &Heap,
    reader: &RecordReader,
    before: u128,
    w: &mut W,
    done: u128,
) -> Result<(IndexEntry, u128), MakingFault>
    requires { IsRecord reader.now.last }
    ensures near { OnOk result ((before < 2 ^ 64) × (done < 2 ^ 64)) }
    ensures bytes { OnOk result (AreBytes reader.now.last) }
    ensures long { OnOk result (length reader.now.last < 2 ^ 64) }
    ensures short { IfOk result (λ put. put.1 < 2 ^ 80) }
    ensures put { IfOk result (λ put. (table : List ℕ) × IsTableOf reader.now.last table
        × (entry_bytes put.0 ≡ table_entry before done reader.now.last table)
        × IsPut W.held W.failures w.old w.new done (stored table) put.1) }
    ensures stopped { IfErr result (StopsRecord W.held W.failures w.old w.new before done reader.now.last) }
{
    let Ok(offset) = u64::try_from(before) else {
        return Err(MakingFault::Archive(IndexingFault::TooLong));
    };
    let Ok(at) = u64::try_from(done) else {
        return Err(MakingFault::Archive(IndexingFault::TooLong));
    };
    let item = reader.record();
    let last = reader.last();
    let size = last.len() as u64;
    match put_table(heap, &item, w, at) {
        Ok((claim, done)) => Ok((IndexEntry::of_record(&item, offset, size, claim), done)),
        Err(TableFault::OutOfMemory) => Err(refused(RecordFault::out_of_memory(before))),
        Err(TableFault::Write(fault)) => Err(MakingFault::Write(fault)),
    }
}

/// Reads the records up to the end record, writes their tables after the first `done` bytes of an index, and keeps
/// their entries.
pub(crate) fn put_tables<R: Source, W: Sink>(
    heap: Heap,
    reader: &mut RecordReader,
    r: &mut R,
    w: &mut W,
    done: u128,
) -> Result<(Vec<IndexEntry, Heap>, u128), MakingFault>
    requires file { reader.old.file ≡ Archive }
    requires fits { done < 2 ^ 80 }
    requires near { reader.old.offset < 2 ^ 65 }
    ensures all { IfOk result (λ put. (a : Option (List ℕ)) (first : W)
        → HasRead Archive a (R.left r.old) [] reader.old → IsPut W.held W.failures first w.old 0 (front_of []) done
        → HasPutAll a (R.left r.new) W.held W.failures first w.new put.0.items reader.new put.1) }
    ensures stopped { IfErr result (λ fault. (a : Option (List ℕ)) (first : W)
        → HasRead Archive a (R.left r.old) [] reader.old → IsPut W.held W.failures first w.old 0 (front_of []) done
        → HasStoppedMaking a (R.left r.new) W.held W.failures first w.new fault) }
    ensures unfailed { OnOk result (R.failures r.new ≡ R.failures r.old) }
    ensures blames { IfErr result (BlamesMaking R.left R.failures r.old r.new) }
    ensures short { IfOk result (λ put. put.1 < 2 ^ 80) }
    ensures near { OnOk result (reader.new.offset < 2 ^ 65) }
{
    let mut entries = Vec::new(heap.share());
    let mut done = done;
    'taking: loop {
        let before = reader.offset();
        match reader.advance(r) {
            Ok(NextRecord::End) => return Ok((entries, done)),
            Ok(NextRecord::Item(_)) => {}
            Err(fault) => return Err(refused(fault)),
        }
        let (entry, end) = put_record(&heap, reader, before, w, done)?;
        if let Err(_) = entries.push(entry) {
            return Err(refused(RecordFault::out_of_memory(before)));
        }
        done = end;
    }
}
