//! The entries of `__debug_info` by their offsets.

ghost use Rattle.std.specs.Prelude.{◌≡◌, ◌≤◌, IfOk, IfSome};
ghost use Rattle.std.specs.Option.{option_map};
ghost use Rattle.dwarf_source_frames.specs.DebugSections.{debug_sections};
ghost use Rattle.dwarf_source_frames.specs.DebugUnits.{entry_with, place_of, IsEntryAt};
ghost use Rattle.dwarf_encoding.specs.Views.{value_view};
ghost use Rattle.dwarf_source_frames.specs.SectionsViews.{sections_view};
ghost use Rattle.dwarf_source_frames.specs.UnitViews.{unit_view, unit_entry_view};

use crate::debug_sections::DebugSections;
use crate::debug_unit::{DebugUnit, UnitEntry};
use dwarf_encoding::{Units, Value};
use dwarf_entries::{Abbreviations, entry_within};
use heap_memory::{Heap, NoMemory};
use macho_image::Image;

/// The DWARF of an image: its sections, with the tables of the units of `__debug_info` and of the declarations of
/// `__debug_abbrev`.
#[derive(Drop)]
pub struct DebugInfo<'a> {
    pub sections: DebugSections<'a>,
    pub units: Units<'a>,
    pub abbreviations: Abbreviations<'a>,
    ghost units_are: { units ≡ sections.debug_info.now },
    ghost abbreviations_are: { abbreviations ≡ sections.debug_abbrev.now },
}

/// The entry at an offset of `__debug_info`, in the unit that contains the offset, and the number of bytes left of
/// `room`, the most bytes to read for the unit's first entry and this one; `None` if no unit contains the offset, or
/// these entries cannot be read or have more bytes.
#[tactic(auto, unfolding(crate::specs::DebugUnits::entry_with))]
fn entry_with<'a>(
    abbreviations: &Abbreviations<'a>,
    place: u64,
    found: Option<(u64, &'a [u8])>,
    room: usize,
) -> Option<(UnitEntry<'a>, usize)>
    requires { IfSome found (λ u. u.0 ≤ place) }
    ensures { option_map (λ x. (unit_entry_view x.0, x.1)) result
        ≡ entry_with room abbreviations.now place (option_map (λ u. (u.0, u.1.now)) found.entry) }
{
    let (offset, bytes) = found?;
    let (unit, room) = DebugUnit::read_within(abbreviations, offset, bytes, room)?;
    let (entry, left) = entry_within(
        abbreviations,
        &unit.header,
        unit.bytes,
        place - offset,
        room,
    )?;
    Some((UnitEntry { unit, entry }, left))
}

impl<'a> DebugUnit<'a> {
    /// The offset in `__debug_info` that a reference of this unit names; `None` for a value of another class.
    pub fn place_of(&self, value: &Value<'a>) -> Option<u64>
        ensures { result ≡ place_of (unit_view self.now) (value_view value.now) }
    {
        match *value {
            Value::UnitReference(offset) => Some(self.offset.wrapping_add(offset)),
            Value::SectionReference(offset) => Some(offset),
            _ => None,
        }
    }
}

impl<'a> DebugInfo<'a> {
    /// The DWARF of an image. Time and memory are proportional to its units and declarations.
    pub fn read(heap: Heap, image: &Image<'a>) -> Result<DebugInfo<'a>, NoMemory>
        ensures { IfOk result (λ info. sections_view info.sections ≡ debug_sections image.now) }
    {
        let sections = DebugSections::of(image);
        let units = Units::read(heap.share(), sections.debug_info)?;
        let abbreviations = Abbreviations::read(heap, sections.debug_abbrev)?;
        Ok(DebugInfo {
            sections,
            units,
            abbreviations,
        })
    }

    /// The entry at an offset of `__debug_info`, and the number of bytes left of `room` after this entry and the first
    /// entry of its unit; `None` if no unit contains the offset, or these entries cannot be read or have more bytes.
    pub fn entry_at(&self, place: u64, room: usize) -> Option<(UnitEntry<'a>, usize)>
        ensures { IsEntryAt room (sections_view self.now.sections) place
            (option_map (λ x. (unit_entry_view x.0, x.1)) result) }
    {
        let found = self.units.containing(place);
        entry_with(&self.abbreviations, place, found, room)
    }
}
