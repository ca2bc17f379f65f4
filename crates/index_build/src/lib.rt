//! Makes the index of an archive: its tables and entries while the archive is read, and the command.
//!
//! - `tables`: the table of a record, made and written; `records`: those of all records, one after another;
//! - `entries`: the entries in byte order, as they are stored, and the end record; `making`: the index, into any sink;
//! - `fault`: why no index is made;
//! - [`laws`]: laws about an index and the content from which it was made;
//! - `index`: [`run_index`], the command; `indexing`: ARCHIVE's index, made in OUT's draft; `publishing`: publishes
//!   OUT, and writes the report.
//!
//! # Why it is so
//!
//! - A table is made from its record while the reader holds it, and written before the next record is read. Entries are
//!   kept in memory, and written last, after the digests of their pages. So a question reads only the pages of the
//!   entries that it needs.
//! - OUT is written while ARCHIVE is read, so only the entries of the index are in memory. An ARCHIVE that is refused
//!   leaves the first bytes of an index in the draft, which is not published.
#![tactic(auto)]

mod entries;
mod fault;
mod index;
mod indexing;
pub mod laws;
mod making;
mod publishing;
mod records;
mod tables;

pub use index::run_index;
