//! The units that are read, and the entries at their offsets.

ghost use Rattle.std.specs.Prelude.{◌≡◌, ◌≤◌, IfSome, length};
ghost use Rattle.std.specs.Option.{option_map};
ghost use Rattle.dwarf_encoding.specs.TextViews.{text_sections_view};
ghost use Rattle.dwarf_encoding.specs.Views.{value_view};
ghost use Rattle.dwarf_source_frames.specs.DebugUnits.{unit_of_bytes, unit_within, offset_or, texts_of};
ghost use Rattle.dwarf_source_frames.specs.SectionsViews.{sections_view};
ghost use Rattle.dwarf_source_frames.specs.UnitViews.{unit_view};

use crate::debug_sections::DebugSections;
use dwarf_encoding::{TextSections, Value};
use dwarf_entries::{Abbreviations, Attribute, Entry, UnitHeader, entry_within};

/// The largest number of bytes to read for the first entry of a unit.
const FIRST_ENTRY_MAX: usize = 16 * 1024;

/// A unit whose header and first entry can be read.
#[derive(Clone, Copy)]
pub struct DebugUnit<'a> {
    /// The offset of the unit in `__debug_info`.
    pub offset: u64,
    /// The bytes of the unit, with its `unit_length`.
    pub bytes: &'a [u8],
    pub header: UnitHeader,
    /// The first entry, which has the attributes of the whole unit.
    pub first: Entry<'a>,
}

/// An entry and its unit.
#[derive(Clone, Copy)]
pub struct UnitEntry<'a> {
    pub unit: DebugUnit<'a>,
    pub entry: Entry<'a>,
}

/// The offset in another section that an attribute names; `default` if it names none.
pub(crate) fn offset_or(value: Option<Value<'_>>, default: u64) -> u64
    ensures { result ≡ offset_or (option_map value_view value.entry) default }
{
    match value {
        Some(Value::SectionOffset(offset)) => offset,
        _ => default,
    }
}

impl<'a> DebugUnit<'a> {
    /// The unit with these bytes at an offset, and the number of bytes left of `room`, the most bytes to read for its
    /// first entry; `None` if its header or its first entry cannot be read.
    #[tactic(auto, unfolding(crate::specs::DebugUnits::unit_within))]
    pub(crate) fn read_within(
        abbreviations: &Abbreviations<'a>,
        offset: u64,
        bytes: &'a [u8],
        room: usize,
    ) -> Option<(DebugUnit<'a>, usize)>
        ensures value { option_map (λ x. (unit_view x.0, x.1)) result
            ≡ unit_within room abbreviations.now offset bytes.now }
        ensures within { IfSome result (λ x. x.0.header.entries_offset ≤ length x.0.bytes.now) }
    {
        let header = UnitHeader::of(bytes)?;
        let start = header.entries_offset as u64;
        let (first, left) = entry_within(abbreviations, &header, bytes, start, room)?;
        let unit = DebugUnit {
            offset,
            bytes,
            header,
            first,
        };
        Some((unit, left))
    }

    /// The unit with these bytes at an offset; `None` if its header or its first entry cannot be read.
    #[tactic(auto, unfolding(crate::specs::DebugUnits::unit_of_bytes))]
    pub fn read(
        abbreviations: &Abbreviations<'a>,
        offset: u64,
        bytes: &'a [u8],
    ) -> Option<DebugUnit<'a>>
        ensures value { option_map unit_view result ≡ unit_of_bytes abbreviations.now offset bytes.now }
        ensures within { IfSome result (λ u. u.header.entries_offset ≤ length u.bytes.now) }
    {
        let (unit, _) = DebugUnit::read_within(abbreviations, offset, bytes, FIRST_ENTRY_MAX)?;
        Some(unit)
    }

    /// The sections of texts, as this unit reads them.
    pub fn texts(&self, sections: &DebugSections<'a>) -> TextSections<'a>
        ensures { text_sections_view result ≡ texts_of (sections_view sections.now) (unit_view self.now) }
    {
        TextSections {
            debug_str: sections.debug_str,
            debug_line_str: sections.debug_line_str,
            debug_str_offs: sections.debug_str_offs,
            str_offsets_base: offset_or(self.first.attributes.get(Attribute::StrOffsetsBase), 8),
        }
    }
}
