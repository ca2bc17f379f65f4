//! Debugging information entries (DWARF 5, sections 2 and 7.5), of the versions 2 to 5 in the 32-bit format, with
//! addresses of eight bytes: the abbreviations, the headers of units, and the entries of a unit. Damage is never an
//! error: the entries before it count.
//!
//! The modules in reading order: `dw`, the constants; `attributes`, those that are read here; `specification`,
//! `declaration`, `reading`, `declarations` and `abbreviations`, the tables of `__debug_abbrev`; `unit_header`;
//! `entry`, an entry with its values, `unread_entry`, one whose values are read on demand, and `one_entry`, the one at
//! an offset; `entries`, those of a unit with their depths.
#![tactic(auto)]

mod abbreviations;
mod attributes;
mod declaration;
mod declarations;
pub mod dw;
mod entries;
mod entry;
mod one_entry;
mod reading;
mod specification;
mod unit_header;
mod unread_entry;

pub use abbreviations::Abbreviations;
pub use attributes::{Attribute, Attributes};
pub use declaration::Declaration;
pub use entries::{Entries, PlacedEntry};
pub use entry::Entry;
pub use one_entry::entry_within;
pub use specification::{Shape, Specification};
pub use unit_header::UnitHeader;
pub use unread_entry::UnreadEntry;
