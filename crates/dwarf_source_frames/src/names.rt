//! The name of the function of an entry.

ghost use Rattle.std.specs.Prelude.{◌≡◌};
ghost use Rattle.std.specs.Option.{option_map};
ghost use Rattle.dwarf_encoding.specs.Views.{value_view};
ghost use Rattle.dwarf_source_frames.specs.Names.{some_text, text_in, linkage_name, origin_place, IsOrigin};
ghost use Rattle.dwarf_source_frames.specs.Names.{IsNameWithin};
ghost use Rattle.dwarf_source_frames.specs.Names.{IsName};
ghost use Rattle.dwarf_source_frames.specs.SectionsViews.{sections_view};
ghost use Rattle.dwarf_source_frames.specs.UnitViews.{unit_entry_view};

use crate::debug_info::DebugInfo;
use crate::debug_sections::DebugSections;
use crate::debug_unit::UnitEntry;
use dwarf_encoding::Value;
use dwarf_entries::Attribute;

/// The largest number of entries to read for a name.
const NAME_STEPS_MAX: u8 = 16;

/// The largest number of bytes of entries to read for a name, after the frame's own entry.
const NAME_BYTES_MAX: usize = 16 * 1024;

/// The text; `None` if it is empty.
fn some_text(text: &[u8]) -> Option<&[u8]>
    ensures { option_map (λ t. t.now) result ≡ some_text text.now }
{
    if text.is_empty() { None } else { Some(text) }
}

/// The text of an attribute of an entry; `None` if it is empty or there is none.
#[tactic(auto, unfolding(crate::specs::Names::text_in))]
fn text_in<'a>(
    sections: &DebugSections<'a>,
    of: &UnitEntry<'a>,
    value: Option<Value<'a>>,
) -> Option<&'a [u8]>
    ensures { option_map (λ t. t.now) result
        ≡ text_in (sections_view sections.now) (unit_entry_view of.now) (option_map value_view value.entry) }
{
    let value = value?;
    let text = of.unit.texts(sections).text_of(&value)?;
    some_text(text)
}

/// The text of DW_AT_linkage_name, else of DW_AT_MIPS_linkage_name.
#[tactic(auto, unfolding(crate::specs::Names::linkage_name))]
fn linkage_name<'a>(sections: &DebugSections<'a>, of: &UnitEntry<'a>) -> Option<&'a [u8]>
    ensures { option_map (λ t. t.now) result ≡ linkage_name (sections_view sections.now) (unit_entry_view of.now) }
{
    let attributes = &of.entry.attributes;
    match text_in(sections, of, attributes.get(Attribute::LinkageName)) {
        Some(name) => Some(name),
        None => text_in(sections, of, attributes.get(Attribute::MipsLinkageName)),
    }
}

/// The offset that DW_AT_abstract_origin names, else that of DW_AT_specification.
#[tactic(auto, unfolding(crate::specs::Names::origin_place))]
fn origin_place(of: &UnitEntry<'_>) -> Option<u64>
    ensures { result ≡ origin_place (unit_entry_view of.now) }
{
    let attributes = &of.entry.attributes;
    let value = attributes
        .get(Attribute::AbstractOrigin)
        .or(attributes.get(Attribute::Specification))?;
    of.unit.place_of(&value)
}

impl<'a> DebugInfo<'a> {
    /// The entry that an entry refers to, and the number of bytes left of `room` after it.
    fn origin(&self, of: &UnitEntry<'a>, room: usize) -> Option<(UnitEntry<'a>, usize)>
        ensures { IsOrigin room (sections_view self.now.sections) (unit_entry_view of.now)
            (option_map (λ x. (unit_entry_view x.0, x.1)) result) }
    {
        match origin_place(of) {
            Some(place) => self.entry_at(place, room),
            None => None,
        }
    }

    /// The name of an entry from at most `count` entries: itself and those that it refers to. `room` is the most bytes
    /// to read for the others; `before` is a name that is known already.
    fn name_within(
        &self,
        count: u8,
        room: usize,
        of: &UnitEntry<'a>,
        before: Option<&'a [u8]>,
    ) -> Option<&'a [u8]>
        ensures { IsNameWithin count room (sections_view self.now.sections) (unit_entry_view of.now)
            (option_map (λ t. t.now) before.entry) (option_map (λ t. t.now) result) }
    {
        if count == 0 {
            return before;
        }
        if let Some(linkage) = linkage_name(&self.sections, of) {
            return Some(linkage);
        }
        let own = text_in(&self.sections, of, of.entry.attributes.get(Attribute::Name));
        let name = before.or(own);
        match self.origin(of, room) {
            Some((origin, left)) => self.name_within(count - 1, left, &origin, name),
            None => name,
        }
    }

    /// The name of an entry's function: the first linkage name of the entry and of those that it refers to by
    /// DW_AT_abstract_origin or DW_AT_specification, else their first DW_AT_name. At most 16 entries count; those after
    /// the first, and the first entries of their units, have at most 16,384 bytes together.
    pub fn name_of(&self, of: &UnitEntry<'a>) -> Option<&'a [u8]>
        ensures { IsName (sections_view self.now.sections) (unit_entry_view of.now) (option_map (λ t. t.now) result) }
    {
        self.name_within(NAME_STEPS_MAX, NAME_BYTES_MAX, of, None)
    }
}
