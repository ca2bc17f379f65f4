//! The results that are built from the records of a text: an archive, a part of one, answers, rows, names, a summary.
//!
//! - `keeping`: one pass over an archive that keeps slices;
//! - `reading`, `part`: [`read_archive`], [`read_front`], and [`read_part`], which keeps a part;
//! - `keyed`: [`answer_by_key`], which answers queries by key, in the memory of the slices with one key;
//! - `names`: [`read_names`], the rows of two names, and [`gather_names`], the same for several archives; no slice is
//!   kept;
//! - `operations`: [`read_ops`];
//! - `rows`, `summarizing`: [`list_rows`] and [`summarize`], record by record; no slice is kept;
//! - `checking`: [`test_archive`], which keeps nothing.
//!
//! # Why it is so
//!
//! - Each reads an input and tests it like [`read_archive`], whatever the sizes of the reader's pieces, and refuses it
//!   for the same faults, in the same order and with the same offsets. After a fault there is no result, and it is not
//!   specified how much of the input was read.
//! - Queries are answered key by key, as the records with each key are read.
//! - [`read_names`] hashes a slice only if it has the name.
//! - A slice that is kept is moved out of the reader without a copy, and the last one is set aside until the next
//!   record was compared with it.
#![tactic(auto)]

mod checking;
mod keeping;
mod keyed;
mod names;
mod operations;
mod part;
mod reading;
mod rows;
mod summarizing;

pub use checking::test_archive;
pub use keyed::{Questions, answer_by_key};
pub use names::{NamesFound, NamesTold, SoughtNames, gather_names, live_names, read_names};
pub use operations::read_ops;
pub use part::{Selects, Under, read_part};
pub use reading::{read_archive, read_front};
pub use rows::list_rows;
pub use summarizing::summarize;
