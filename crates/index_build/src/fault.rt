//! Why no index is made.

use byte_device::WriteFault;
use index_format::IndexingFault;

/// Why no index is made from an archive.
#[derive(Clone, Copy, Debug, PartialEq, Eq)]
pub enum MakingFault {
    /// The archive is refused, or it has no index.
    Archive(IndexingFault),
    /// The writer failed, after it had accepted this number of first bytes of the index.
    Write(WriteFault),
}

/// Why the table of a record is not written.
#[derive(Clone, Copy, Debug, PartialEq, Eq)]
pub(crate) enum TableFault {
    /// Memory ran out, and nothing was written.
    OutOfMemory,
    /// The writer failed.
    Write(WriteFault),
}
