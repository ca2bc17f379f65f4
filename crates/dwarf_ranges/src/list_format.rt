//! The encoding of the entries of a range list.

use crate::addresses::AddressTable;

/// The encoding of the entries of a list.
#[derive(Clone, Copy)]
pub enum ListFormat<'a> {
    /// As in `__debug_ranges` (versions 2 to 4).
    DebugRanges,
    /// As in `__debug_rnglists` (version 5), with the addresses of the unit.
    Rnglists(AddressTable<'a>),
}
