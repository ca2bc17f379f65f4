//! Why bytes are no index.

ghost use Rattle.std.specs.Prelude.{◌≡◌};
ghost use Rattle.index_format.specs.declared.index_fault.IndexFaultKind.TheVariants.{OutOfMemory};

/// Why bytes are no index, or why they were not read to their end.
#[derive(Clone, Copy, Debug, PartialEq, Eq)]
pub enum IndexFaultKind {
    /// It begins with `MSYMIDX1`, the magic of indexes of releases before 2.4.
    OldIndex,
    /// One of the first eight bytes differs from `MSYMIDX2`.
    BadMagic,
    /// There is no room for an end record, or there is none at the end.
    Truncated,
    /// The number of entries in the end record does not fit into the text.
    BadCount,
    /// The SHA-256 of the entries is not the one in the end record.
    BadDigest,
    /// The tag is neither that of a retirement nor that of an admission.
    BadTag,
    /// The kind is neither 0 nor, for an admission, 1.
    BadKind,
    /// The length is not 57 for a retirement, or for an admission not 33 plus the length of a slice.
    BadLength,
    /// The entry is not above the one before it, in byte order.
    NotAscending,
    /// A retirement has a table, or the table of an admission does not end before the entries.
    BadTable,
    /// The records do not follow one another in the archive, or the tables in the index.
    BadPlace,
    /// The device failed.
    Device,
    /// Memory ran out.
    OutOfMemory,
}

/// The fault of an index, and its offset.
#[derive(Clone, Copy, Debug, PartialEq, Eq)]
pub struct IndexFault {
    pub kind: IndexFaultKind,
    /// The number of bytes before the faulty part: 0 for the magic, otherwise before the end record, the entries or the
    /// faulty entry. For `Device` and `OutOfMemory` it is the offset of the part that was being read.
    pub offset: u64,
}

impl IndexFault {
    /// The fault `OutOfMemory` at the offset of this part.
    pub fn out_of_memory(offset: u64) -> IndexFault
        ensures { result ≡ record { kind = OutOfMemory; offset = offset } }
    {
        IndexFault {
            kind: IndexFaultKind::OutOfMemory,
            offset,
        }
    }
}
