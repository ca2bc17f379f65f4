//! The sections and bases from which the ranges of a unit's entries are read.

use crate::addresses::AddressTable;
use dwarf_encoding::Value;

/// The sections and bases from which the ranges of a unit's entries are read.
#[derive(Clone, Copy)]
pub struct UnitRanges<'a> {
    /// The version of the unit, 2 to 5.
    pub version: u16,
    pub debug_ranges: &'a [u8],
    pub debug_rnglists: &'a [u8],
    /// DW_AT_rnglists_base of the unit, or 12 if it has none.
    pub rnglists_base: u64,
    pub addresses: AddressTable<'a>,
    /// DW_AT_low_pc of the unit's first entry, or 0 if it has none.
    pub base: u64,
}

/// The attributes of an entry that state its ranges.
#[derive(Clone, Copy)]
pub struct RangeAttributes<'a> {
    /// DW_AT_low_pc.
    pub low_pc: Option<Value<'a>>,
    /// DW_AT_high_pc.
    pub high_pc: Option<Value<'a>>,
    /// DW_AT_ranges.
    pub ranges: Option<Value<'a>>,
}
