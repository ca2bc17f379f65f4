//! Why a text is refused.

use archive_core::SliceFault;

/// Why bytes are not a text of an archive, of operations or of a summary, or why they were not read to their end.
#[derive(Clone, Copy, Debug, PartialEq, Eq)]
pub enum RecordFaultKind {
    /// One of the first eight bytes differs from the file's magic: `MSYMARC2` or, in version 1, `MSYMARC1` for an
    /// archive, `MSYMOPS1` for operations, `MSYMSUM1` for a summary.
    BadMagic,
    /// The input ends inside the magic, inside a record, or where a record must begin.
    Truncated,
    /// The tag is not that of a retirement, an admission or, in an archive or a summary, an end record.
    BadTag,
    /// The length of an admission's slice is more than 4,294,967,295 bytes.
    TooLarge,
    /// The record or entry is not above the one before it, in byte order.
    NotAscending,
    /// The bytes of an admission's slice are no slice.
    BadSlice(SliceFault),
    /// The key of an admission is not that of its slice.
    KeyMismatch,
    /// The end record's number is not the number of the records; dropped records count.
    BadCount,
    /// Bytes follow the end record.
    Trailing,
    /// The reader failed.
    Device,
    /// Memory ran out, or there are more than 9,223,372,036,854,775,807 records.
    OutOfMemory,
    /// An admission in an archive's text of version 2 has the key and the digest of a retirement of the same text.
    /// Retirements come first.
    Covered,
}

/// The fault of a text, and its offset.
#[derive(Clone, Copy, Debug, PartialEq, Eq)]
pub struct RecordFault {
    pub kind: RecordFaultKind,
    /// The number of bytes before the first byte of the faulty record; for `Trailing`, before the first byte after the
    /// end record. It is 0 for the magic.
    pub offset: u128,
}

/// Why a merge stopped.
#[derive(Clone, Copy, Debug, PartialEq, Eq)]
pub enum MergeCause {
    /// The left input is refused, with the fault that reading it alone returns.
    Left(RecordFault),
    /// The right input is refused, in the same way.
    Right(RecordFault),
    /// The writer failed.
    Write,
}

/// Why a merge stopped, and the length of the output.
#[derive(Clone, Copy, Debug, PartialEq, Eq)]
pub struct MergeFault {
    pub cause: MergeCause,
    /// The number of bytes that the writer accepted.
    pub written: u128,
}

impl RecordFault {
    ghost use Rattle.std.specs.Prelude.{◌≡◌};
    ghost use Rattle.archive_records.specs.declared.fault.RecordFaultKind.TheVariants.{OutOfMemory};

    /// The fault `OutOfMemory` at this offset.
    pub fn out_of_memory(offset: u128) -> RecordFault
        ensures { result ≡ record { kind = OutOfMemory; offset = offset } }
    {
        RecordFault {
            kind: RecordFaultKind::OutOfMemory,
            offset,
        }
    }
}
