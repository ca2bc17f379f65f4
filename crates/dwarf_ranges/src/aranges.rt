//! The tuples of `__debug_aranges`, as an iterator.

ghost use Rattle.std.specs.Prelude.{◌≡◌, ◌++◌, ◌≤◌, IsTrue, length};
ghost use Rattle.std.specs.Option.{option_map};
ghost use Rattle.dwarf_ranges.specs.Aranges.{aranges_of, header_of, is_read, tuple_at, tuples_from, tuples_of};

use crate::arange::Arange;
use dwarf_encoding::{is_64_bit, split_unit, u16_le_at, u32_le_at, u64_le_at};
use std::marker::Model;

/// The tuples of all sets of `__debug_aranges`, in their order. It allocates no memory. A contract sees the list of the
/// tuples that are left.
#[derive(Drop)]
pub struct Aranges<'a> {
    debug_info_offset: u64,
    tuples: &'a [u8],
    sets: &'a [u8],
}

impl<'a> Model for Aranges<'a> {
    ghost use Rattle.std.specs.Prelude.{List, ◌++◌};
    ghost use Rattle.dwarf_ranges.specs.declared.arange.Arange.{Arange};
    ghost use Rattle.dwarf_ranges.specs.Aranges.{aranges_of, tuples_from};

    ghost Value = { List Arange };

    ghost view = { λ a. tuples_from a.debug_info_offset a.tuples.now ++ aranges_of a.sets.now };
}

/// Whether a set can be read: the 32-bit format, version 2, addresses of eight bytes, and no segments.
#[tactic(auto, unfolding(crate::specs::Aranges::is_read))]
fn is_read(set: &[u8]) -> bool
    ensures is { result ≡ is_read set.now }
    ensures long { IsTrue result → 16 ≤ length set.now }
{
    set.len() >= 16 && !is_64_bit(set) && u16_le_at(set, 4) == 2 && set[10] == 8 && set[11] == 0
}

/// The offset of a set's unit, and its tuples; `None` if the set cannot be read.
#[tactic(auto, unfolding(crate::specs::Aranges::header_of))]
pub(crate) fn header_of(set: &[u8]) -> Option<(u64, &[u8])>
    ensures { option_map (λ x. (x.0, x.1.now)) result ≡ header_of set.now }
{
    if !is_read(set) {
        return None;
    }
    Some((u64::from(u32_le_at(set, 6)), set.split_at(16).1))
}

/// The offset of a set's unit, and its tuples; no tuples if the set cannot be read.
fn tuples_of(set: &[u8]) -> (u64, &[u8])
    ensures { tuples_from result.0 result.1.now ≡ tuples_of set.now }
{
    match header_of(set) {
        Some((debug_info_offset, tuples)) => (debug_info_offset, tuples),
        None => (0, &[]),
    }
}

/// The address and the length that begin the bytes, and the bytes after them; `None` if there are fewer than 16 bytes,
/// or both numbers are 0.
#[tactic(auto, unfolding(crate::specs::Aranges::tuple_at))]
fn tuple_at(bytes: &[u8]) -> Option<((u64, u64), &[u8])>
    ensures { option_map (λ x. (x.0, x.1.now)) result ≡ tuple_at bytes.now }
{
    if bytes.len() < 16 {
        return None;
    }
    let (address, length) = (u64_le_at(bytes, 0), u64_le_at(bytes, 8));
    if address == 0 && length == 0 {
        return None;
    }
    Some(((address, length), bytes.split_at(16).1))
}

impl<'a> Aranges<'a> {
    /// All tuples of the section.
    pub fn of(debug_aranges: &'a [u8]) -> Aranges<'a>
        ensures { result ≡ aranges_of debug_aranges.now }
    {
        Aranges {
            debug_info_offset: 0,
            tuples: &[],
            sets: debug_aranges,
        }
    }
}

impl<'a> Iterator for Aranges<'a> {
    type Item = Arange;

    ghost use Rattle.std.specs.Iterator.{YieldsFirst, item_count};

    ghost next_gives = { YieldsFirst (λ r. r) };

    ghost remaining = { item_count (λ r. r) };

    fn next(&mut self) -> Option<Arange> {
        'sets: loop {
            if let Some(((address, length), rest)) = tuple_at(self.tuples) {
                self.tuples = rest;
                return Some(Arange {
                    debug_info_offset: self.debug_info_offset,
                    address,
                    length,
                });
            }
            let (set, rest) = split_unit(self.sets)?;
            (self.debug_info_offset, self.tuples) = tuples_of(set);
            self.sets = rest;
        }
    }
}
