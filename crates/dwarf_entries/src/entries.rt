//! The entries of a unit, as an iterator (DWARF 5, section 2.3).

ghost use Rattle.std.specs.Prelude.{◌≡◌, ◌≤◌, ◌<◌, ◌+◌, ◌^◌, length, IfSome};
ghost use Rattle.std.specs.Option.{option_map, option_map_or};
ghost use Rattle.dwarf_entries.specs.Entries.{depth_after, entries_of};
ghost use Rattle.dwarf_entries.specs.EntryViews.{placed_view, unread_view};

use crate::abbreviations::{Abbreviations, Table};
use crate::unit_header::UnitHeader;
use crate::unread_entry::{UnreadEntry, skip_entry};
use std::marker::Model;

/// An entry in its unit.
#[derive(Clone, Copy)]
pub struct PlacedEntry<'t, 'a> {
    /// The offset of the entry from the beginning of the unit.
    pub offset: usize,
    /// The number of entries around it; 0 for the first entry.
    pub depth: usize,
    pub entry: UnreadEntry<'t, 'a>,
}

/// The entries of a unit, in order, without null entries. They end before the null entry that closes the first entry,
/// at the end of the unit, or before the first entry that cannot be read. It allocates no memory. A contract sees the
/// list of the entries that are left.
#[derive(Drop)]
pub struct Entries<'t, 'a> {
    table: Table<'t, 'a>,
    header: UnitHeader,
    size: usize,
    /// The depth of the next entry; `None` after the last.
    depth: Option<usize>,
    rest: &'a [u8],
}

impl<'t, 'a> Model for Entries<'t, 'a> {
    ghost use Rattle.std.specs.Prelude.{List, [], ◌≡◌, ◌≤◌, ◌<◌, ◌+◌, ◌^◌, length, IfSome};
    ghost use Rattle.std.specs.Option.{option_map_or};
    ghost use Rattle.dwarf_entries.specs.Entries.{PlacedRecord, entries_from};

    ghost Value = { List PlacedRecord };

    ghost view = { λ e. option_map_or (λ d. entries_from e.table.section.now e.header e.size d e.rest.now) e.depth [] };

    ghost invariant = { λ e. (length e.rest.now ≤ e.size) × IfSome e.depth (λ d. d + length e.rest.now ≤ e.size)
        × (e.size < 2 ^ 64) × (e.table.offset ≡ e.header.debug_abbrev_offset) };
}

/// The depth after an entry or a null entry; `None` if the first entry is closed.
fn depth_after(depth: usize, found: &Option<UnreadEntry<'_, '_>>) -> Option<usize>
    requires { depth + 1 < 2 ^ 64 }
    ensures { result ≡ depth_after depth (option_map unread_view found.now) }
{
    match found {
        None if depth <= 1 => None,
        None => Some(depth - 1),
        Some(entry) if entry.has_children() => Some(depth + 1),
        Some(_) if depth == 0 => None,
        Some(_) => Some(depth),
    }
}

impl<'t, 'a> Entries<'t, 'a> {
    /// The entries of a unit with this header.
    pub fn of(
        abbreviations: &'t Abbreviations<'a>,
        header: UnitHeader,
        unit: &'a [u8],
    ) -> Entries<'t, 'a>
        requires { header.entries_offset ≤ length unit.now }
        ensures { result ≡ entries_of abbreviations.now header unit.now }
    {
        Entries {
            table: abbreviations.table(u64::from(header.debug_abbrev_offset)),
            header,
            size: unit.len(),
            depth: Some(0),
            rest: unit.split_at(header.entries_offset).1,
        }
    }
}

impl<'t, 'a> Iterator for Entries<'t, 'a> {
    type Item = PlacedEntry<'t, 'a>;

    ghost use Rattle.std.specs.Iterator.{YieldsFirstBy, item_count};
    ghost use Rattle.dwarf_entries.specs.EntryViews.{placed_view};

    ghost next_gives = { YieldsFirstBy placed_view (λ s. s) };

    ghost remaining = { item_count (λ s. s) };

    fn next(&mut self) -> Option<PlacedEntry<'t, 'a>> {
        'entries: loop {
            let depth = self.depth?;
            let (found, rest) = skip_entry(&self.table, &self.header, self.rest)?;
            let offset = self.size - self.rest.len();
            self.rest = rest;
            self.depth = depth_after(depth, &found);
            if let Some(entry) = found {
                return Some(PlacedEntry {
                    offset,
                    depth,
                    entry,
                });
            }
        }
    }
}
