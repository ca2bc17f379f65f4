//! Reads the first bytes of an archive from which an index is made.

ghost use Rattle.std.specs.Prelude.{◌≡◌, ◌≢◌, ◌<◌, ◌≤◌, ℕ, List, [], length, take, IfOk, IfErr, OnOk, OnErr};
ghost use Rattle.std.specs.Io.KnownBytes.{Consumes, IsAtEnd};
ghost use Rattle.byte_device.specs.Devices.{FailedIn};
ghost use Rattle.archive_records.specs.declared.format.Format.TheVariants.{Archive};
ghost use Rattle.archive_records.specs.Reader.{HasRead};
ghost use Rattle.index_format.specs.declared.fault.IndexingFault.TheVariants.{TooLong};
ghost use Rattle.index_format.specs.InnerMaking.{BlamesIndexing, HasStoppedIndexing, MagicTested};
ghost use Rattle.index_format.specs.Making.{TellsVersion};

use crate::fault::IndexingFault;
use archive_records::{Format, RecordFault, RecordFaultKind, RecordReader, TextKind};
use byte_device::{Bytes, Failed, Source};
use heap_memory::Heap;

/// The length of a magic in bytes.
const MAGIC_LEN: usize = archive_records::MAGIC_LEN as usize;

/// Reads the first eight bytes, fewer if the input ends, and returns their number.
fn take_magic<R: Source>(r: &mut R, magic: &mut [u8]) -> Result<usize, Failed>
    requires { length magic.old ≡ 8 }
    ensures within { IfOk result (λ came. came ≤ 8) }
    ensures taken { IfOk result (λ came. Consumes (R.left r.old) (R.left r.new) (take came magic.new)) }
    ensures at_end { IfOk result (λ came. came < 8 → IsAtEnd (R.left r.new)) }
    ensures lost { OnErr result ((bytes : List ℕ) × Consumes (R.left r.old) (R.left r.new) bytes × (length bytes < 8)) }
    ensures long { length magic.new ≡ 8 }
    ensures unfailed { OnOk result (R.failures r.new ≡ R.failures r.old) }
    ensures failed { OnErr result (FailedIn (R.failures r.old) (R.failures r.new)) }
{
    let mut came = 0;
    'taking: while came < MAGIC_LEN {
        match r.pull(&mut magic[came..]) {
            Ok(0) => return Ok(came),
            Ok(n) => came += n,
            Err(Failed) => return Err(Failed),
        }
    }
    Ok(came)
}

/// Tests the bytes of an archive's magic that were read; only that of version 2 passes.
fn test_magic(came: &[u8]) -> Result<(), IndexingFault>
    requires { length came.now ≤ 8 }
    ensures { MagicTested came.now result }
{
    if came.len() < MAGIC_LEN {
        let kind = if TextKind::Archive.magic_begins_with(came) {
            RecordFaultKind::Truncated
        } else {
            RecordFaultKind::BadMagic
        };
        return Err(IndexingFault::Archive(RecordFault { kind, offset: 0 }));
    }
    match TextKind::Archive.format_of(came) {
        Some(Format::Archive) => Ok(()),
        Some(_) => Err(IndexingFault::OldArchive),
        None => Err(IndexingFault::Archive(RecordFault {
            kind: RecordFaultKind::BadMagic,
            offset: 0,
        })),
    }
}

/// Reads the magic of an archive of version 2, and returns a reader of the records. At most eight bytes are consumed.
///
/// # Errors
///
/// `OldArchive` for an archive of version 1, whatever follows its magic; otherwise those of `RecordReader::begin`, and
/// `OutOfMemory` at offset 8 after the magic was read.
pub fn begin_archive<R: Source>(heap: Heap, r: &mut R) -> Result<RecordReader, IndexingFault>
    ensures read { IfOk result (λ reader. HasRead Archive (R.left r.old) (R.left r.new) [] reader) }
    ensures stopped { IfErr result (λ fault. HasStoppedIndexing (R.left r.old) (R.left r.new) fault) }
    ensures version { IfErr result (TellsVersion (R.left r.old)) }
    ensures near { IfErr result (λ fault. fault ≢ TooLong) }
    ensures unfailed { OnOk result (R.failures r.new ≡ R.failures r.old) }
    ensures blames { IfErr result (λ fault. BlamesIndexing R.left R.failures r.old r.new fault) }
{
    let mut magic = [0; MAGIC_LEN];
    let came = match take_magic(r, &mut magic) {
        Ok(came) => came,
        Err(Failed) => {
            return Err(IndexingFault::Archive(RecordFault {
                kind: RecordFaultKind::Device,
                offset: 0,
            }));
        }
    };
    test_magic(&magic[..came])?;
    match RecordReader::begin(heap, TextKind::Archive, &mut Bytes::new(&magic)) {
        Ok(reader) => Ok(reader),
        Err(_) => Err(IndexingFault::Archive(RecordFault::out_of_memory(8))),
    }
}
