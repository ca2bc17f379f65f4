//! Files from which an archive admits slices: thin images and universal files.
//!
//! Either all slices of a file are admitted or none. The parts of a thin file are the file itself, those of a universal
//! file the slices of its table; a part that does not begin like a 64-bit little-endian image is skipped, and each
//! other part must be a slice:
//!
//! - `fault`: why no slice of a file is admitted;
//! - `checking`: whether a file is accepted;
//! - `slicing`: the slices of an accepted file, each with its own bytes;
//! - `taken`: the result of a slice;
//! - `taking`: admits a file's slices to an archive;
//! - [`laws`]: laws about files, and about the results of admitting them.
//!
//! # Why it is so
//!
//! - A file is checked whole before any of it is admitted, and the facts from the check are passed on, so each slice is
//!   checked and hashed once. They are in an array of 32 items, the largest number of parts: memory is allocated only
//!   after the check, so `OutOfMemory` is reported only for an accepted file.
//! - A FILE that is neither thin nor universal is `Unrecognised`, and a part that does not begin like an image is
//!   skipped, so `NotMachO64` is never the fault of a FILE.
//! - The fault of a file (`TakeFault`) is here, since this is the lowest crate that can have it.
#![tactic(auto)]

mod checking;
mod fault;
pub mod laws;
mod slicing;
mod taken;
mod taking;

pub use checking::{AcceptedFile, check_file};
pub use fault::TakeFault;
pub use slicing::slice_file;
pub use taken::Taken;
pub use taking::take_accepted;
