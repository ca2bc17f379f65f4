//! The line table of an image, built from the image.
//!
//! The frames of an image change at its turns alone (`dwarf_frame_changes`). A store accepts them in any order, and
//! writes the one table of the image (`table_source_frames`).
//!
//! The modules in reading order: `numbers`, numbers in the order of arrival; `keys` and `kept`, the texts, files,
//! scopes and locations of frames, each stored once and named by its number, and `lookups`, from a number to its key;
//! `step` and `store`, `LineStore`, which accepts the frames of addresses; `changes`, the steps at which frames change;
//! `first_uses`, new numbers by first use, `places`, the places of texts among the strings of the slice, and `parts`,
//! the numbers of a table; `steps`, `rows` and `texts`, its bytes part by part; `finish`, `LineStore::finish`; `sink`,
//! a store as a sink of turns; `making`, [`line_table`]; `laws`: relations between the definitions, by which the turns
//! suffice.
//!
//! Decided:
//!
//! - Texts are borrowed, and compared by their marks first, then by their addresses in memory. Each text, file, scope
//!   and location gets its number on arrival, so that an address needs 16 bytes.
//! - A location is a scope with a line and a column, and a scope has the number of the location that it is inlined
//!   into. So two numbers are equal exactly if their chains of frames are, and frames are not compared again after
//!   their arrival.
//! - A table numbers its parts in the order of first use, which is known at the end: there each number is replaced.
//! - Each string of the slice is searched for among the kept texts, not each text among the strings: the strings are
//!   read once, and need no map.
#![tactic(auto)]

mod changes;
mod finish;
mod first_uses;
mod kept;
mod keys;
pub mod laws;
mod lookups;
mod making;
mod numbers;
mod parts;
mod places;
mod rows;
mod sink;
mod step;
mod steps;
mod store;
mod texts;

pub use making::line_table;
