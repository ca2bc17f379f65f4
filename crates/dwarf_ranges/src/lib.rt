//! The code of an entry or of a unit of DWARF (DWARF 5, sections 2.17, 6.1.2 and 7.25), in the 32-bit format, with
//! addresses of eight bytes.
//!
//! Damage is no error: a list ends before the first item that cannot be read, and the items before it count. Sums of
//! addresses are modulo 2^64.
//!
//! - `range`: [`CodeRange`]; `range_entry`: [`RangeEntry`], an entry of a range list;
//! - `addresses`: [`AddressTable`], addresses by index;
//! - `list_entries`: the encoding of the entries of `__debug_ranges` and `__debug_rnglists`; `dw_rle`: their kinds;
//! - `range_lists`: [`Ranges`], the ranges of a list, as an iterator;
//! - `unit_ranges`: [`UnitRanges`], the sections and bases for the ranges of a unit's entries; `entry_ranges`: the
//!   ranges of an entry; `assigned`: [`assign_ranges`], a value for pending addresses in ranges;
//! - `arange`: [`Arange`], a tuple of `__debug_aranges`; `aranges`: [`Aranges`], all tuples, as an iterator;
//!   `one_pass`: [`first_tuples`], the first tuple that contains each of many addresses; `named_sets`: [`named_units`],
//!   the units of all sets;
//! - `laws`: relations between the definitions.
#![tactic(auto)]

mod addresses;
mod arange;
mod aranges;
mod assigned;
pub mod dw_rle;
mod entry_ranges;
pub mod laws;
mod list_entries;
mod list_format;
mod named_sets;
mod one_pass;
mod range;
mod range_entry;
mod range_lists;
mod unit_ranges;

pub use addresses::AddressTable;
pub use arange::Arange;
pub use aranges::Aranges;
pub use assigned::assign_ranges;
pub use named_sets::named_units;
pub use one_pass::first_tuples;
pub use range::CodeRange;
pub use range_lists::Ranges;
pub use unit_ranges::{RangeAttributes, UnitRanges};
