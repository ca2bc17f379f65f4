//! The nearest symbol of each address of a slice, step by step, as a table stores it.
//!
//! At each address at which the nearest symbol may change a row has the nearest symbol from there on. So a lookup is
//! one binary search in one list, without sections, ties or orders of names.
//!
//! The rows are those that `macho_symbols` builds from an image, each 21 bytes here. To build a table:
//!
//! - `text`, `making`: [`TableText`], the table of an image, with the digests of its pages, and its writing.
//!
//! To look up an address:
//!
//! - `row`: a row of 21 bytes;
//! - `search`: the row for an address;
//! - `names`: a name among the strings of a table;
//! - `head`, `table`: [`Table`], a table whose head was read; `opening`: [`Table::open`];
//! - `nearest`: [`NearestSymbol`], and [`Table::nearest`], the nearest symbol of an address;
//! - `found`: [`OwnedFound`], a symbol with the names of its section; [`Table::found`];
//! - `lines`: [`Table::into_lines`], the offset of the lines of a table;
//! - `laws`: relations between the definitions.
//!
//! Decided:
//!
//! - A table in memory is its own bytes (head, sections, rows), its strings, which are borrowed, and its lines, which
//!   another crate builds: a page is hashed in these three parts, and none is copied.
//! - This crate does not define the lines of a table: its results for symbols hold with any lines.
#![tactic(auto)]

mod found;
mod head;
pub mod laws;
mod lines;
mod making;
mod names;
mod nearest;
mod opening;
mod row;
mod search;
mod table;
mod text;

pub use found::OwnedFound;
pub use making::TableText;
pub use names::name_from;
pub use nearest::NearestSymbol;
pub use table::Table;
