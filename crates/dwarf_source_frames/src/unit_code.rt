//! The ranges of a unit's entries.

ghost use Rattle.std.specs.Prelude.{◌≡◌, ◌<◌, ◌^◌};
ghost use Rattle.dwarf_ranges.specs.UnitViews.{attributes_view, unit_view as ranges_view};
ghost use Rattle.dwarf_ranges.specs.Views.{addresses_view};
ghost use Rattle.dwarf_entries.specs.EntryViews.{entry_view};
ghost use Rattle.dwarf_source_frames.specs.SectionsViews.{sections_view};
ghost use Rattle.dwarf_source_frames.specs.UnitCode.{addresses_of, base_address, entries_of_lists, first_ranges};
ghost use Rattle.dwarf_source_frames.specs.UnitCode.{range_attributes, unit_ranges_of};
ghost use Rattle.dwarf_source_frames.specs.UnitViews.{unit_view};

use crate::debug_sections::DebugSections;
use crate::debug_unit::{DebugUnit, offset_or};
use dwarf_entries::{Attribute, Entry};
use dwarf_ranges::{AddressTable, RangeAttributes, Ranges, UnitRanges};

/// The attributes of an entry that state its ranges.
pub fn range_attributes<'a>(entry: &Entry<'a>) -> RangeAttributes<'a>
    ensures { attributes_view result ≡ range_attributes (entry_view entry.now) }
{
    RangeAttributes {
        low_pc: entry.attributes.get(Attribute::LowPc),
        high_pc: entry.attributes.get(Attribute::HighPc),
        ranges: entry.attributes.get(Attribute::Ranges),
    }
}

impl<'a> DebugUnit<'a> {
    /// The unit's addresses by index.
    fn addresses(&self, sections: &DebugSections<'a>) -> AddressTable<'a>
        ensures { addresses_view result ≡ addresses_of (sections_view sections.now) (unit_view self.now) }
    {
        AddressTable {
            debug_addr: sections.debug_addr,
            addr_base: offset_or(self.first.attributes.get(Attribute::AddrBase), 8),
        }
    }

    /// The base address of the unit: DW_AT_low_pc of its first entry, or 0.
    fn base_address(&self, addresses: &AddressTable<'a>) -> u64
        ensures { result ≡ base_address (addresses_view addresses.now) (unit_view self.now) }
    {
        match self.first.attributes.get(Attribute::LowPc) {
            Some(value) => addresses.address_of(&value).unwrap_or(0),
            None => 0,
        }
    }

    /// The sections and bases from which the ranges of the unit's entries are read.
    pub fn unit_ranges(&self, sections: &DebugSections<'a>) -> UnitRanges<'a>
        ensures { ranges_view result ≡ unit_ranges_of (sections_view sections.now) (unit_view self.now) }
    {
        let addresses = self.addresses(sections);
        UnitRanges {
            version: self.header.version,
            debug_ranges: sections.debug_ranges,
            debug_rnglists: sections.debug_rnglists,
            rnglists_base: offset_or(self.first.attributes.get(Attribute::RnglistsBase), 12),
            addresses,
            base: self.base_address(&addresses),
        }
    }

    /// The largest number of entries of range lists that count for the unit's entries: four for each byte of the unit.
    pub fn entries_of_lists(&self) -> u128
        ensures is { result ≡ entries_of_lists (unit_view self.now) }
        ensures fits { result < 2 ^ 66 }
    {
        4 * self.bytes.len() as u128
    }

    /// The ranges of the first entry of the unit.
    #[tactic(auto, unfolding(crate::specs::UnitCode::first_ranges))]
    pub fn first_ranges(&self, sections: &DebugSections<'a>) -> Ranges<'a>
        ensures { result ≡ first_ranges (sections_view sections.now) (unit_view self.now) }
    {
        let mut left = self.entries_of_lists();
        self.unit_ranges(sections)
            .ranges_of(&range_attributes(&self.first), &mut left)
    }
}
