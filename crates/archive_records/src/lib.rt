//! Reads the records of a text one by one from any device, and writes them, and the texts of archives, deltas and
//! summaries.
//!
//! The text of an archive is the magic `MSYMARC2`, the records of its operations strictly ascending in byte order, and
//! an end record with their number; all numbers are big-endian. A record is a tag, a key, and for a retirement (tag 1)
//! the digest, for an admission (tag 2) the length of the slice in eight bytes and the slice. Such a text contains no
//! retired slice. So each content is written as one text, and a text has one content.
//!
//! A text of version 1 begins with `MSYMARC1` and has the same form, but may contain slices that its own retirements
//! cover. When it is read, covered slices are dropped; the result is the content of its operations. It is never
//! written.
//!
//! An operations file is the magic `MSYMOPS1` and such records in any order, with repeats, up to the end of the input.
//!
//! A summary is the magic `MSYMSUM1`, an entry of 57 bytes for each operation, strictly ascending, and the end record.
//! A delta is the text of the archive of those operations whose entries are not in a summary.
//!
//! - `head`: the offsets of the fields of a record;
//! - `entry`: [`Entry`], one operation in a summary;
//! - `summary`: [`Summary`] and [`read_summary`];
//! - `writing`: [`write_archive`], [`write_summary`] and [`write_delta`];
//! - `fault`: why a text is refused;
//! - `kind`: the kind of a file; `format`: its magic, the order of its records and its end;
//! - `buffer`, `frame`, `next`, `retired`, `reader`: one record after another, each read over the last and compared
//!   with it, and with the retirements before it;
//! - `records`: one pass over the records, and an answer from those that are not dropped.
//!
//! # Why it is so
//!
//! - Bytes go through a chunk of 64 KiB while they equal those of the last record, and are read in place once they
//!   differ. The buffer for a large record grows as its bytes arrive, so a length that is only claimed uses no memory.
//! - A reader lends its record. OUT has no buffer: records are written from where they are.
//! - A slice that is kept is moved out of the reader, so there is one copy of it. The caller lends it to the reader,
//!   which compares the next record with it.
//! - A definition by kinds of text has one clause for all other kinds.
#![tactic(auto)]

mod buffer;
mod entry;
mod fault;
mod format;
mod frame;
mod head;
mod kind;
mod next;
mod reader;
mod records;
mod retired;
mod summary;
mod writing;

pub use archive_core::{RETIREMENT, RETIREMENT_LEN, key_prefix, retirement_bytes};
pub use entry::Entry;
pub use fault::{MergeCause, MergeFault, RecordFault, RecordFaultKind};
pub use format::Format;
pub use head::{
    ADMISSION, ADMISSION_HEAD_LEN, END_LEN, ENTRY_LEN, LARGEST_SLICE, MAGIC_LEN, admission_head,
    digest_in, end_bytes, has_key, key_in, number_at,
};
pub use kind::TextKind;
pub use next::NextRecord;
pub use reader::{MOST, RecordReader};
pub use records::{FromRecords, read_answer, read_text};
pub use summary::{Summary, read_summary};
pub use writing::{
    Sizes, put_end, put_missing_record, put_record, write_archive, write_delta, write_summary,
};
