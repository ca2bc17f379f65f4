//! The ranges of an entry.

ghost use Rattle.std.specs.Prelude.{◌≡◌, drop, Some};
ghost use Rattle.dwarf_encoding.specs.Views.{value_view};
ghost use Rattle.dwarf_ranges.specs.EntryRanges.{address_of, end_of, entry_ranges, left_after_entry, left_after_list};
ghost use Rattle.dwarf_ranges.specs.EntryRanges.{list_at, list_offset, listed_offset, listed_ranges, low_to_high};
ghost use Rattle.dwarf_ranges.specs.UnitViews.{attributes_view, unit_view};
ghost use Rattle.dwarf_ranges.specs.Views.{addresses_view, entry_at};

use crate::addresses::AddressTable;
use crate::list_format::ListFormat;
use crate::range::CodeRange;
use crate::range_lists::Ranges;
use crate::unit_ranges::{RangeAttributes, UnitRanges};
use dwarf_encoding::{Value, u32_le_at};

impl<'a> AddressTable<'a> {
    /// The address that a value names; `None` for a value of another class, and for an index past the end.
    pub fn address_of(&self, value: &Value<'a>) -> Option<u64>
        ensures { result ≡ address_of (addresses_view self.now) (value_view value.now) }
    {
        match *value {
            Value::Address(address) => Some(address),
            Value::AddressIndex(index) => self.get(index),
            _ => None,
        }
    }

    /// The end of a range that begins at `low`: an address, or `low` plus a constant; `None` for other values.
    fn end_of(&self, low: u64, value: &Value<'a>) -> Option<u64>
        ensures { result ≡ end_of (addresses_view self.now) low (value_view value.now) }
    {
        match *value {
            Value::Constant(size) => Some(low.wrapping_add(size)),
            Value::Address(address) => Some(address),
            Value::AddressIndex(index) => self.get(index),
            _ => None,
        }
    }
}

/// The offset of the list at an index: `base`, plus the four-byte number at this index of the part of
/// `__debug_rnglists` that begins at `base`; `None` if it passes the end.
fn listed_offset(debug_rnglists: &[u8], base: u64, index: u64) -> Option<u64>
    ensures { result ≡ listed_offset debug_rnglists.now base index }
{
    let offset = index.checked_mul(4)?.checked_add(base)?;
    let size = debug_rnglists.len() as u64;
    if size < 4 || size - 4 < offset {
        return None;
    }
    Some(base + u64::from(u32_le_at(debug_rnglists, offset as usize)))
}

/// The bytes from an offset on; none past the end.
fn from_offset(bytes: &[u8], offset: u64) -> &[u8]
    ensures { result.now ≡ drop offset bytes.now }
{
    if bytes.len() as u64 <= offset {
        return &[];
    }
    &bytes[offset as usize..]
}

impl<'a> UnitRanges<'a> {
    /// The offset of the range list that a value names; `None` if it names none.
    fn list_offset(&self, value: &Value<'a>) -> Option<u64>
        ensures { result ≡ list_offset (unit_view self.now) (value_view value.now) }
    {
        match *value {
            Value::SectionOffset(offset) => Some(offset),
            Value::Constant(offset) if self.version < 4 => Some(offset),
            Value::RangeListIndex(index) => listed_offset(
                self.debug_rnglists,
                self.rnglists_base,
                index,
            ),
            _ => None,
        }
    }

    /// The range list at an offset: the encoding of its entries, and the bytes from its first entry on.
    fn list_at(&self, offset: u64) -> (ListFormat<'a>, &'a [u8])
        ensures { (entry_at result.0, result.1.now) ≡ list_at (unit_view self.now) offset }
    {
        if self.version < 5 {
            let bytes = from_offset(self.debug_ranges, offset);
            return (ListFormat::DebugRanges, bytes);
        }
        let bytes = from_offset(self.debug_rnglists, offset);
        (ListFormat::Rnglists(self.addresses), bytes)
    }

    /// The ranges of the range list at an offset. At most `left` of its entries are read; `left` is reduced by those
    /// that were used.
    fn listed_ranges(&self, offset: u64, left: &mut u128) -> Ranges<'a>
        ensures ranges { result ≡ listed_ranges (unit_view self.now) left.old (Some offset) }
        ensures left { left.new ≡ left_after_list (unit_view self.now) left.old (Some offset) }
    {
        let (format, bytes) = self.list_at(offset);
        let ranges = Ranges::of(format, self.base, bytes, *left);
        *left = format.left_after(*left, bytes);
        ranges
    }

    /// The range from DW_AT_low_pc to DW_AT_high_pc, if the entry has both.
    fn low_to_high(&self, entry: &RangeAttributes<'a>) -> Option<CodeRange>
        ensures { result ≡ low_to_high (unit_view self.now) (attributes_view entry.now) }
    {
        let low = self.addresses.address_of(&entry.low_pc?)?;
        let high = self.addresses.end_of(low, &entry.high_pc?)?;
        Some(CodeRange { low, high })
    }

    /// The ranges of an entry: from DW_AT_low_pc to DW_AT_high_pc if it has both, else those of the range list that
    /// DW_AT_ranges names. At most `left` entries of that list count; `left` is reduced by those that were used. So the
    /// entries of a unit read at most twice as many entries of range lists, whatever lists they name.
    pub fn ranges_of(&self, entry: &RangeAttributes<'a>, left: &mut u128) -> Ranges<'a>
        ensures ranges { result ≡ entry_ranges (unit_view self.now) left.old (attributes_view entry.now) }
        ensures left { left.new ≡ left_after_entry (unit_view self.now) left.old (attributes_view entry.now) }
    {
        if let Some(range) = self.low_to_high(entry) {
            return Ranges::one(range);
        }
        let Some(value) = entry.ranges else {
            return Ranges::none();
        };
        match self.list_offset(&value) {
            Some(offset) => self.listed_ranges(offset, left),
            None => Ranges::none(),
        }
    }
}
