//! The header of a unit of `__debug_info` (DWARF 5, section 7.5.1).

ghost use Rattle.std.specs.Prelude.{◌≡◌, ◌≤◌, length, IfSome};
ghost use Rattle.dwarf_entries.specs.UnitHeaders.{header_of, header_of_version_5, header_to_version_4};

use crate::dw::{DW_UT_COMPILE, DW_UT_PARTIAL};
use dwarf_encoding::{is_64_bit, u16_le_at, u32_le_at};

/// The fields of a unit's header that its entries need.
#[derive(Clone, Copy)]
pub struct UnitHeader {
    pub version: u16,
    /// The offset of the unit's table in `__debug_abbrev`.
    pub debug_abbrev_offset: u32,
    /// The size of the header with its initial length: the offset of the first entry in the unit.
    pub entries_offset: usize,
}

/// The header of version 5.
fn header_of_version_5(unit: &[u8]) -> Option<UnitHeader>
    ensures { result ≡ header_of_version_5 unit.now }
{
    if unit.len() < 12 || unit[7] != 8 || (unit[6] != DW_UT_COMPILE && unit[6] != DW_UT_PARTIAL) {
        return None;
    }
    Some(UnitHeader {
        version: 5,
        debug_abbrev_offset: u32_le_at(unit, 8),
        entries_offset: 12,
    })
}

/// The header of the versions 2 to 4.
fn header_to_version_4(version: u16, unit: &[u8]) -> Option<UnitHeader>
    ensures { result ≡ header_to_version_4 version unit.now }
{
    if unit.len() < 11 || unit[10] != 8 || version < 2 || 4 < version {
        return None;
    }
    Some(UnitHeader {
        version,
        debug_abbrev_offset: u32_le_at(unit, 6),
        entries_offset: 11,
    })
}

impl UnitHeader {
    /// The header of a unit, with its initial length; `None` if it is in the 64-bit format, its version is not 2 to 5,
    /// its address size is not 8, it passes the end, or the unit is no full or partial compilation unit.
    pub fn of(unit: &[u8]) -> Option<UnitHeader>
        ensures value { result ≡ header_of unit.now }
        ensures within { IfSome result (λ h. h.entries_offset ≤ length unit.now) }
        ensures first { IfSome result (λ h. 11 ≤ h.entries_offset) }
    {
        if unit.len() < 6 || is_64_bit(unit) {
            return None;
        }
        let version = u16_le_at(unit, 4);
        if version == 5 {
            header_of_version_5(unit)
        } else {
            header_to_version_4(version, unit)
        }
    }
}
