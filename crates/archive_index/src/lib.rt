//! An archive as one sorted list of operations, lookups in it, and changes by many operations at once.
//!
//! - `covered`: slices that retirements cover;
//! - `parting`: the admissions of a list, and after them its retirements;
//! - `taking`: many operations at once;
//! - `hashed`: an operation with its row for a search;
//! - `asked`: slices that answer for a key, and their answers;
//! - `name_rows`: the rows of a name in slices;
//! - `range`: the operations of one kind with one key;
//! - `plain`: an archive as a sorted list;
//! - `indexed`: the same, with tables of addresses for its slices.
//!
//! # Why it is so
//!
//! - An archive is one ascending list, retirements first, and no map.
//! - `absorb` merges both sorted lists in one pass, or inserts up to eight operations one by one. [`take_each`] adds
//!   admissions, then retirements.
//! - Seven lines are executed only for a fact in their contracts. Names are scanned: only `symbolicate` and `frames`
//!   use [`IndexedArchive`].
#![tactic(auto)]

mod asked;
mod covered;
mod hashed;
mod indexed;
mod name_rows;
mod parting;
mod plain;
mod range;
mod taking;

pub use asked::file_address;
pub use indexed::IndexedArchive;
pub use plain::PlainArchive;
pub use taking::{sort_with_same_effect, take_each};
