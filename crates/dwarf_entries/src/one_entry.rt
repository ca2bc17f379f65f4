//! One entry of a unit, at its offset.

ghost use Rattle.std.specs.Prelude.{◌≡◌, take, drop};
ghost use Rattle.std.specs.Option.{option_map};
ghost use Rattle.dwarf_entries.specs.Entries.{entry_within};
ghost use Rattle.dwarf_entries.specs.EntryViews.{entry_view};

use crate::abbreviations::Abbreviations;
use crate::entry::Entry;
use crate::unit_header::UnitHeader;
use crate::unread_entry::skip_entry;

/// The bytes from an offset on, at most `room` of them.
fn bytes_at(unit: &[u8], offset: usize, room: usize) -> &[u8]
    ensures { result.now ≡ take room (drop offset unit.now) }
{
    let (_, from) = unit.split_at(offset.min(unit.len()));
    from.split_at(room.min(from.len())).0
}

/// The entry at an offset of its unit, and the number of bytes left of `room`, the most bytes to read; `None` if the
/// offset is before the first entry, the entry cannot be read, or it is a null entry.
pub fn entry_within<'a>(
    abbreviations: &Abbreviations<'a>,
    header: &UnitHeader,
    unit: &'a [u8],
    offset: u64,
    room: usize,
) -> Option<(Entry<'a>, usize)>
    ensures { option_map (λ x. (entry_view x.0, x.1)) result
        ≡ entry_within room abbreviations.now header.now unit.now offset }
{
    if offset < header.entries_offset as u64 {
        return None;
    }
    let table = abbreviations.table(u64::from(header.debug_abbrev_offset));
    let bytes = bytes_at(unit, offset as usize, room);
    let (entry, rest) = skip_entry(&table, header, bytes)?;
    match entry {
        Some(entry) => Some((entry.read(), room - (bytes.len() - rest.len()))),
        None => None,
    }
}
