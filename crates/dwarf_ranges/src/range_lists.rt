//! The ranges of a list, as an iterator.

ghost use Rattle.std.specs.Prelude.{◌≡◌, ◌++◌, [], ◌∷◌};
ghost use Rattle.std.specs.Option.{option_map, option_to_list};
ghost use Rattle.dwarf_ranges.specs.Lists.{base_after, is_end, left_after, range_of, ranges_within};
ghost use Rattle.dwarf_ranges.specs.Views.{entry_at};

use crate::list_entries::{debug_ranges_entry, rnglists_entry};
use crate::list_format::ListFormat;
use crate::range::CodeRange;
use crate::range_entry::RangeEntry;
use std::marker::Model;

/// Ranges of addresses, as an iterator: one known range, if there is one, and those of a list. It allocates no memory.
/// A contract sees the list of the ranges that are left.
#[derive(Drop)]
pub struct Ranges<'a> {
    first: Option<CodeRange>,
    format: ListFormat<'a>,
    base: u64,
    rest: &'a [u8],
    /// The number of entries of the list that may still be read.
    left: u128,
}

impl<'a> Model for Ranges<'a> {
    ghost use Rattle.std.specs.Prelude.{List, ◌++◌};
    ghost use Rattle.std.specs.Option.{option_to_list};
    ghost use Rattle.dwarf_ranges.specs.declared.range.CodeRange.{CodeRange};
    ghost use Rattle.dwarf_ranges.specs.Lists.{ranges_within};
    ghost use Rattle.dwarf_ranges.specs.Views.{entry_at};

    ghost Value = { List CodeRange };

    ghost view = { λ r. option_to_list r.first ++ ranges_within (entry_at r.format) r.left r.base r.rest.now };
}

impl<'a> ListFormat<'a> {
    /// The entry that begins the bytes, and the bytes after it; `None` if it cannot be read.
    fn entry(&self, bytes: &'a [u8]) -> Option<(RangeEntry, &'a [u8])>
        ensures { option_map (λ x. (x.0, x.1.now)) result ≡ entry_at self.now bytes.now }
    {
        match self {
            ListFormat::DebugRanges => debug_ranges_entry(bytes),
            ListFormat::Rnglists(addresses) => rnglists_entry(addresses, bytes),
        }
    }

    /// The number of entries that are left of `left` after the list that begins the bytes.
    pub fn left_after(&self, mut left: u128, bytes: &'a [u8]) -> u128
        ensures { result ≡ left_after (entry_at self.now) left bytes.now }
    {
        let mut rest = bytes;
        'entries: while left > 0 {
            let Some((entry, after)) = self.entry(rest) else {
                return left;
            };
            if is_end(entry) {
                return left;
            }
            rest = after;
            left -= 1;
        }
        left
    }
}

/// The range of an entry; `None` if it has none.
fn range_of(base: u64, entry: RangeEntry) -> Option<CodeRange>
    ensures { option_to_list result ≡ range_of base entry }
{
    match entry {
        RangeEntry::OffsetPair(begin, end) => Some(CodeRange {
            low: base.wrapping_add(begin),
            high: base.wrapping_add(end),
        }),
        RangeEntry::StartEnd(low, high) => Some(CodeRange { low, high }),
        _ => None,
    }
}

/// Whether an entry ends the list.
fn is_end(entry: RangeEntry) -> bool
    ensures { result ≡ is_end entry }
{
    matches!(entry, RangeEntry::EndOfList)
}

/// The base address after an entry.
fn base_after(base: u64, entry: RangeEntry) -> u64
    ensures { result ≡ base_after base entry }
{
    match entry {
        RangeEntry::BaseAddress(address) => address,
        _ => base,
    }
}

impl<'a> Ranges<'a> {
    /// No range.
    #[tactic(auto, unfolding(crate::specs::Lists::ranges_within))]
    pub fn none() -> Ranges<'a>
        ensures { result ≡ [] }
    {
        Ranges::of(ListFormat::DebugRanges, 0, &[], 0)
    }

    /// One range.
    #[tactic(auto, unfolding(crate::specs::Lists::ranges_within))]
    pub fn one(range: CodeRange) -> Ranges<'a>
        ensures { result ≡ range ∷ [] }
    {
        Ranges {
            first: Some(range),
            format: ListFormat::DebugRanges,
            base: 0,
            rest: &[],
            left: 0,
        }
    }

    /// The ranges of the list that begins the bytes; `base` is the base address of its unit, and at most `left` entries
    /// are read.
    pub fn of(format: ListFormat<'a>, base: u64, bytes: &'a [u8], left: u128) -> Ranges<'a>
        ensures { result ≡ ranges_within (entry_at format.entry) left base bytes.now }
    {
        Ranges {
            first: None,
            format,
            base,
            rest: bytes,
            left,
        }
    }
}

impl<'a> Iterator for Ranges<'a> {
    type Item = CodeRange;

    ghost use Rattle.std.specs.Iterator.{YieldsFirst, item_count};

    ghost next_gives = { YieldsFirst (λ r. r) };

    ghost remaining = { item_count (λ r. r) };

    fn next(&mut self) -> Option<CodeRange> {
        if let Some(range) = self.first {
            self.first = None;
            return Some(range);
        }
        'entries: while self.left > 0 {
            let (entry, rest) = self.format.entry(self.rest)?;
            if is_end(entry) {
                self.left = 0;
                return None;
            }
            let range = range_of(self.base, entry);
            self.base = base_after(self.base, entry);
            self.rest = rest;
            self.left -= 1;
            if let Some(range) = range {
                return Some(range);
            }
        }
        None
    }
}
