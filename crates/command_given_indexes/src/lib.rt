//! Indexes of archives as inputs of a command, each read, and compared with the length of its archive; and as the
//! evidence by which `find`, `list` and `summary` answer with `--index`, over any devices.
//!
//! - `inputs`: reading an index, and comparing it with its archive;
//! - `prefixes`: [`KeyPrefix`], the first bytes of a key; `parts`: the records that an index names there, read and
//!   joined;
//! - `together`: indexes of several archives, read ([`read_indexes`]), and the slices that they name
//!   ([`read_prefixes`]);
//! - `rows`: the rows of an index, and those of a UUID alone ([`rows_with_uuid`]); `summaries`: the summary of an
//!   index;
//! - `indexes`: [`Indexes`], archives with their indexes as `Evidence`.
//!
//! # Why it is so
//!
//! - All indexes are read, and compared with the lengths of their archives, before any slice is read; the length of an
//!   archive is compared again before its slices are read. Of an index a question reads the entries under the UUIDs
//!   that it asks for, and the digests over their pages; `list` and `summary` read all entries.
//! - With one archive, only entries and the archive's length are read. A search of several archives reads the slices of
//!   the UUID, since the rows of several archives are in the order of the bytes of their slices.
//! - `Stale` is reported for INDEX, not for the archive.
#![tactic(auto)]

mod indexes;
mod inputs;
mod parts;
mod prefixes;
mod rows;
mod summaries;
mod together;

pub use indexes::Indexes;
pub use prefixes::KeyPrefix;
pub use rows::rows_with_uuid;
pub use together::{read_indexes, read_prefixes};
