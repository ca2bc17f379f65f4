//! The index of an archive with the tables of its slices: its entries, how it is read from its end, and how records are
//! read at the offsets in it.
//!
//! An index is the magic `MSYMIDX2`, the stored tables of the slices in the order of their records in the archive, the
//! stored entries, one of 122 bytes for each record, strictly ascending in byte order, and the end record: `03`, the
//! number of entries, the number of retirements among them, the length of the archive, and the root of the entries.
//! They are stored as a table is, with more than one page after the digests of their pages (`table_checked_pages`). An
//! entry is that of a summary, whether the slice is a companion, the offset and the length of the record in the
//! archive's text of version 2, and the claim of its table: its offset in the index, its size, and its root.
//! `index_build` makes an index.
//!
//! - `entry`: [`IndexEntry`], the kind of a record, its offset, and the offset of its table;
//! - `index`: [`Index`], the entries of an index that was read whole; `runs`: [`run_under`], those with one tag and a
//!   prefix, which are adjacent; `index_part`: [`IndexPart`], some of the entries, with their numbers;
//! - `ends`: the magic and the end record; `numbers`: the numbers in it, [`retired_in`]; `checking`: the checks of an
//!   entry; `places`: whether records and tables follow one another; `reading`: [`read_index`];
//! - `paged_runs`: the entries of one tag under a UUID, found by binary search in the pages of all; `paged_entry` and
//!   `paged_entries`: those under several UUIDs, read; `part_checking`: their checks; `part_reading`:
//!   [`read_index_under`];
//! - `index_fault`: why bytes are no index of an archive, and `index_fault_text`, how that is printed;
//! - `fault`: why no index is made, and why no record is read by an index;
//! - `beginning`: [`begin_archive`], which reads the first bytes of an archive from which an index is made;
//! - `records`: the record at the offset of an entry, tested and hashed;
//! - `gathering`: [`gather_at`], the records with a UUID or a key;
//! - `parts`: [`archive_of`], an archive of these records; [`indexed_size`], the size of the archive, if the index
//!   implies the same; [`is_under`], whether an entry has a prefix;
//! - [`laws`]: the entries and the content from which they were made; a text is an index with one list of entries, or
//!   has one fault.
//!
//! # What is proved
//!
//! - [`gather_at`] returns, for any bytes, the records of the entries with a UUID or a key, each whole at its offset,
//!   in the order of their entries; otherwise it reports the first entry that names no record, or that a device failed
//!   or memory ran out. The length of the archive was compared before, by [`indexed_size`]. [`archive_of`] returns the
//!   archive of the records.
//! - [`read_index_under`] returns, for any bytes, those entries under the UUIDs that the bytes may have, as far as
//!   SHA-256 tells, each with its number among all; otherwise it reports a fault because of which they have none, or
//!   that a device failed or memory ran out. An index may have its entries ([`laws::index_may_have`]), so of an index
//!   nothing is assumed about SHA-256. [`IndexPart::run_under`] returns those with a tag and a prefix, of a part.
//!
//! # Why it is so
//!
//! - The entries are last, so an index is written while its archive is read. They are stored as a table is, so a
//!   question reads only those of their pages that its search passes, and compares them with the root. Of the tables
//!   too, only the pages are read that an answer needs.
//! - The magic of an archive is read before anything else, so version 1 is recognised by eight bytes.
//! - Entries are sorted, so a key is found by binary search. An entry is compared as a whole.
//! - The entries with a UUID or a key are two runs, retirements and admissions, each found by binary search. So a query
//!   costs only the records that it finds. The length is compared once for all keys, before any byte is read.
//! - The records of entries are gathered, sorted and then added: entries have the order of digests, records that of
//!   slices, and unsorted each one would shift those that are there.
//! - If a retirement among the records covers another of them, that one is not kept, as in every content. An index
//!   whose own entries cover one another belongs to no archive, and is answered in this way.
//! - A prefix has at most 24 bytes: after them an entry has the digest, and an admission its length.
//! - An entry that reaches past the end of the archive is `Stale` before memory is allocated.
#![tactic(auto)]

mod beginning;
mod checking;
mod ends;
mod entry;
mod fault;
mod gathering;
mod index;
mod index_fault;
mod index_fault_text;
mod index_part;
pub mod laws;
mod numbers;
mod paged_entries;
mod paged_entry;
mod paged_runs;
mod part_checking;
mod part_reading;
mod parts;
mod places;
mod reading;
mod records;
mod runs;

pub use beginning::begin_archive;
pub use ends::magic;
pub use entry::{IndexEntry, no_claim};
pub use fault::{IndexingFault, PlaceFault};
pub use gathering::gather_at;
pub use index::Index;
pub use index_fault::{IndexFault, IndexFaultKind};
pub use index_part::IndexPart;
pub use numbers::retired_in;
pub use part_reading::read_index_under;
pub use parts::{archive_of, indexed_size, is_under};
pub use reading::read_index;
pub use runs::run_under;
