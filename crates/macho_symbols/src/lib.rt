//! The symbols of a thin 64-bit Mach-O image, as mach-o/nlist.h describes them, and the nearest symbol of an address.
//!
//! `Symbols::read` tests that the symbol table and the string table are within the image. Their contents are no fault:
//! an entry is skipped if its address is not in its section, or if it has no name. Names are borrowed from the image.
//! An address is looked up by a plain scan, which allocates no memory, or by binary search in the rows of a table,
//! which is built once; both find the same symbol.
//!
//! - `fault`: why symbols cannot be read;
//! - `nlist`: the layout of an entry;
//! - `entries`: the entries, as an iterator;
//! - `name`, `section_numbers`: the names and sections that entries refer to by number;
//! - `symbols`: the two tables;
//! - `found`: the result of a search;
//! - `candidate`, `compared`: an entry that a search can find, the order of those entries, and the comparison of their
//!   names;
//! - `scan`, `nearest`, `named`: the plain searches, by address and by name;
//! - `turns`, `sweep`: [`steps`], a row for each address at which the nearest symbol may change;
//! - `row`: [`Row`], and the row for an address;
//! - `section_places`, `nul_places`, `table`: [`AddressTable`], these rows in memory;
//! - [`laws`]: relations between the definitions.
//!
//! The order of the names that begin at any two offsets of strings, where one name may be the end of another. A
//! comparison reads at most 1,024 bytes and two ranks:
//!
//! - `name_order`: compares the names at two offsets;
//! - `name_ranks`: the ranks of samples, a sixteenth of the offsets: by the first 1,024 bytes of their names, and then
//!   by four times as many in each round, by the ranks of three samples after them (after Karp, Miller and Rosenberg,
//!   1972, who double);
//! - `samples`: the offsets that are samples, such that from any two offsets two samples are at the same distance, less
//!   than 1,024 bytes: a difference cover (Burkhardt and Kärkkäinen, 2003);
//! - `ranking`, `keys`: ranks from sorted keys; `spans`, `bytes`: names, their lengths and first bytes.
//!
//! Decided:
//!
//! - A sweep over the candidates by value keeps the first one of each section. An address at which candidates begin has
//!   the first of them; so names are compared once for each candidate, and once more for each begin and end of a
//!   section. No candidate is looked for among those of other addresses.
//! - Names are compared piece by piece. If the names of the candidates with one value have more bytes than the strings,
//!   they overlap, and are compared by their order.
//! - The last criterion in the order of candidates is `n_strx`, so the first candidate has the least offset of its
//!   name.
//! - A key of a sample begins with its first bytes as a number, so keys of names that differ early are sorted without
//!   reading the strings, which do not fit into the cache.
//! - Keys with equal bytes mostly point to the same bytes, by a table with a sixteenth as many slots: if names repeat,
//!   few bytes are compared again and again, and these are in the cache. The contents of the table change no rank,
//!   since bytes are replaced only by equal bytes.
#![tactic(auto)]

mod bytes;
mod candidate;
mod compared;
mod entries;
mod fault;
mod found;
mod keys;
pub mod laws;
mod name;
mod name_order;
mod name_ranks;
mod named;
mod nearest;
mod nlist;
mod nul_places;
mod ranking;
mod row;
mod samples;
mod scan;
mod section_numbers;
mod section_places;
mod spans;
mod sweep;
mod symbols;
mod table;
mod turns;

pub use fault::SymbolFault;
pub use found::Found;
pub use named::Named;
pub use row::Row;
pub use section_numbers::collect_sections;
pub use sweep::steps;
pub use symbols::{Symbols, strings_of};
pub use table::AddressTable;
