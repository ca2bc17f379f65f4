//! The command that writes a slice of archives to OUT, over any evidence and outputs.
//!
//! - `extract`: the command; `evidence`: [`SliceEvidence`], by which it chooses a slice and sends it; `choice`: the
//!   choice; `lines`: the lines of the report;
//! - `records`: the records of archives as such evidence; `choosing`: the slice that is wanted under a key, among those
//!   of an archive; `kept`: a slice that was read, sent from memory;
//! - `indexes`: archives with their indexes as such evidence; `place`: where a chosen slice is; `entries`: the slice
//!   that is wanted by their entries; `sending`: sending it from its archive to a draft;
//! - `copying`, `hashing`: bytes at an offset in a device, read piece by piece; `tested_copy`: bytes with a known
//!   SHA-256, sent after a test of it.
//!
//! # What is proved
//!
//! - [`run_extract`], if it ends with `Done`, publishes at OUT the bytes of the slice that its evidence chose, and then
//!   its line is in the report. If there is no such slice, or several answer, OUT is unchanged, and the report has a
//!   line for each that answers (`Extracts`). The first refused input in the order of the command line is refused
//!   before OUT is created; but the slice of an entry may change while it is sent.
//! - By the records of archives, that slice is the one that answers under the key in their join, or a held one with the
//!   digest argument (`extract`).
//! - By indexes, which are read first, it is the same by their entries. The published bytes are at the offset in the
//!   entry, and have its length and its SHA-256; otherwise the index is `Stale` at that entry, and nothing is published
//!   (`extract_at`).
//!
//! # Why it is so
//!
//! - A digest argument also finds a slice that does not answer, for instance an image whose companion does.
//! - The line of the slice is made before OUT is created, so if memory runs out for it nothing was written.
//! - A kept slice is complete and tested before OUT is created. By an entry, a slice is read twice, in the memory of
//!   one piece: if the first reading finds a change, a pipe receives no byte of it; if it changes between the two
//!   readings, a pipe receives its beginning.
//! - A slice that was read is kept with its archive, and identified by the number of its record, so there is one copy.
//! - A pass over bytes at an offset uses one piece of memory, which is the caller's, so that several passes share it. A
//!   copy is hashed as it is written, so a caller that compared a hash before knows whether the same bytes were
//!   written.
//! - For two slices of one length in two archives no entry decides which comes first: these are read and then ordered.
#![tactic(auto)]

mod choice;
mod choosing;
mod copying;
mod entries;
mod evidence;
mod extract;
mod hashing;
mod indexes;
mod kept;
mod lines;
mod place;
mod records;
mod sending;
mod tested_copy;

pub use choice::{Choice, Chosen};
pub use evidence::SliceEvidence;
pub use extract::run_extract;
pub use kept::Kept;
pub use place::Place;
