//! Why there is no answer.

/// Why indexes have no answer. An index is named by its number among those that were asked, and an entry by its number
/// among the entries of its index, each from 0.
#[derive(Clone, Copy, Debug, PartialEq, Eq)]
pub enum AnswerFault {
    /// The bytes stored for the table of this entry do not match the entry's claim.
    Damaged { input: u64, entry: u64 },
    /// The table of this entry has no lines, though lines are asked for.
    NoLines { input: u64, entry: u64 },
    /// The device of this index failed while the table stored at this offset was read.
    Device { input: u64, offset: u64 },
    /// Memory ran out.
    OutOfMemory,
}
