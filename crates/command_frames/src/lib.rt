//! The commands that answer addresses, over any evidence. The answers of indexes are here too.
//!
//! - `named`, `places`: the keys of frames, and the addresses of the frames under these, each once;
//! - `tables`, `tied`: the answers under a key by the tables of indexes, or by the slices that these name under it;
//! - `key_answers`: the answers under keys, in order; `replies`: their lines, for records too;
//! - `slices`: the lines of the slices that answer under keys, by entries; `record_slices`: by records;
//! - `questions`: keys, as questions to records; `records`: the answers of records to frames;
//! - `frames`: the command that answers frames, and the answers of indexes to them; `symbolicate`: the command that
//!   answers addresses under one key, which are its frames;
//! - `evidence`: [`FrameEvidence`], by which both answer, so that they are written once: `Records` or `Indexes`.
//!
//! # Why it is so
//!
//! - Records are read in one pass. It holds the slices of one key at a time, which answer all addresses of that key.
//! - Tables answer, with lines too, and no slice is read, unless two slices of one key and one length are in two
//!   archives: then no entry decides which comes first. Then only the slices of this key are read, so a key whose slice
//!   was changed is refused alone, as one whose table was changed is.
//! - Keys are answered one by one, and the lines of each are made at once: so only the tables and the slices of one key
//!   are open at a time, and a fault of a key comes before any fault of a later one.
//! - The lines of slices are made from entries alone, so no table and no slice is read for them.
//! - An `impl` has to be in the crate of its trait or of its type, so this is the lowest crate for `FrameEvidence`.
#![tactic(auto)]

mod evidence;
mod frames;
mod key_answers;
mod named;
mod places;
mod questions;
mod record_slices;
mod records;
mod replies;
mod slices;
mod symbolicate;
mod tables;
mod tied;

pub use evidence::FrameEvidence;
pub use frames::run_frames;
pub use symbolicate::run_symbolicate;
