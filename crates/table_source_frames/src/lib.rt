//! The source lines and inlined frames of each address of a slice, step by step, as a table stores them.
//!
//! At each address whose frames differ from those of the address before, a step has the scope of the innermost frame,
//! with its line and column. A scope has its function and file, and its caller, whose number is smaller, with the line
//! and the column of the call. So a lookup is a binary search in one list, one group of steps, and a chain of falling
//! numbers.
//!
//! - `row`: a step, and the rows of a table, of 20, 12 or 8 bytes; `table`: [`LineTable`], a table whose head was read,
//!   and the offsets of its parts;
//! - `opening`: [`LineTable::open`]; `steps`: the steps of a group; `search`: the step of an address;
//! - `frame`: [`OwnedFrame`]; `texts`, `files`: the texts and paths of a table by their numbers;
//! - `address_frames`: [`LineTable::frames_at`], the frames of an address;
//! - `laws`: relations between the definitions, also those of the table of a slice, as an index stores it: its symbols
//!   (`table_symbols`), and its lines after them (`SliceTable`).
//!
//! Decided:
//!
//! - The definition names no turn, unit or program. So a table has the fewest steps, and an image has one table.
//! - A scope is a chain of frames without the line and column of the innermost one: two addresses share it, and all its
//!   callers, only if their frames differ in no more than these.
//! - A text that is a string of the slice, or is after a `_` in one, is stored there alone. Each other is stored once,
//!   with its length and its offset: none is searched for its end.
//! - Steps are stored as differences, in groups of 128. Differences are modulo 2^64, so no number of a group can be too
//!   large.
#![tactic(auto)]

mod address_frames;
mod files;
mod frame;
pub mod laws;
mod opening;
mod row;
mod search;
mod steps;
mod table;
mod texts;

pub use frame::{OwnedFrame, OwnedPath};
pub use table::{HEAD_LEN, LineTable};
