//! Why no index is made, and why no record is read by an index.

use archive_records::RecordFault;

/// Why no index is made from an archive.
#[derive(Clone, Copy, Debug, PartialEq, Eq)]
pub enum IndexingFault {
    /// The archive is refused, as by every reader of archives.
    Archive(RecordFault),
    /// The archive's text has version 1: it must be migrated first.
    OldArchive,
    /// The offset of a record in the archive, or of its table in the index, is more than 2^64 - 1.
    TooLong,
}

/// Why a part of an archive is not read at the offsets in an index.
#[derive(Clone, Copy, Debug, PartialEq, Eq)]
pub enum PlaceFault {
    /// The index is stale: the archive has another length, or this entry, counted from 0, names no record at its
    /// offset.
    Stale(Option<u64>),
    /// The archive's device failed while the record at this offset was read, or, with 0, when its length was read.
    Device(u64),
    /// Memory ran out.
    OutOfMemory,
}
