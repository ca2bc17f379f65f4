//! The encoding of the entries of range lists.

ghost use Rattle.std.specs.Prelude.{◌≡◌};
ghost use Rattle.std.specs.Option.{option_map};
ghost use Rattle.dwarf_ranges.specs.ListEntries.{address_here, debug_ranges_entry_at, operands_at, pair_entry};
ghost use Rattle.dwarf_ranges.specs.ListEntries.{rnglists_entry_at, start_end, start_size};
ghost use Rattle.dwarf_ranges.specs.Views.{addresses_view};

use crate::addresses::AddressTable;
use crate::dw_rle::*;
use crate::range_entry::RangeEntry;
use dwarf_encoding::{u64_le_at, unsigned_leb128};

/// The entry of two numbers of `__debug_ranges`.
fn pair_entry(begin: u64, end: u64) -> RangeEntry
    ensures { result ≡ pair_entry begin end }
{
    if begin == 0 && end == 0 {
        RangeEntry::EndOfList
    } else if begin == u64::MAX {
        RangeEntry::BaseAddress(end)
    } else {
        RangeEntry::OffsetPair(begin, end)
    }
}

/// The entry of `__debug_ranges` that begins the bytes, and the bytes after it; `None` if there are fewer than 16
/// bytes.
#[tactic(auto, unfolding(crate::specs::ListEntries::debug_ranges_entry_at))]
pub fn debug_ranges_entry(bytes: &[u8]) -> Option<(RangeEntry, &[u8])>
    ensures { option_map (λ x. (x.0, x.1.now)) result ≡ debug_ranges_entry_at bytes.now }
{
    if bytes.len() < 16 {
        return None;
    }
    Some((
        pair_entry(u64_le_at(bytes, 0), u64_le_at(bytes, 8)),
        bytes.split_at(16).1,
    ))
}

/// The eight-byte address that begins the bytes, and the bytes after it; `None` if there are fewer.
#[tactic(auto, unfolding(crate::specs::ListEntries::address_here))]
fn address_here(bytes: &[u8]) -> Option<(u64, &[u8])>
    ensures { option_map (λ x. (x.0, x.1.now)) result ≡ address_here bytes.now }
{
    if bytes.len() < 8 {
        return None;
    }
    Some((u64_le_at(bytes, 0), bytes.split_at(8).1))
}

/// A range between two addresses; no range if one of them is missing.
fn start_end(start: Option<u64>, end: Option<u64>) -> RangeEntry
    ensures { result ≡ start_end start end }
{
    match (start, end) {
        (Some(start), Some(end)) => RangeEntry::StartEnd(start, end),
        _ => RangeEntry::NoRange,
    }
}

/// A range of `size` addresses from `start` on; no range if `start` is missing.
fn start_size(start: Option<u64>, size: u64) -> RangeEntry
    ensures { result ≡ start_size start size }
{
    match start {
        Some(start) => RangeEntry::StartEnd(start, start.wrapping_add(size)),
        None => RangeEntry::NoRange,
    }
}

/// The entry of a kind, whose operands begin the bytes, and the bytes after it.
#[tactic(auto, unfolding(crate::specs::ListEntries::operands_at))]
fn operands<'a>(
    addresses: &AddressTable<'a>,
    kind: u8,
    bytes: &'a [u8],
) -> Option<(RangeEntry, &'a [u8])>
    ensures { option_map (λ x. (x.0, x.1.now)) result ≡ operands_at (addresses_view addresses.now) kind bytes.now }
{
    match kind {
        DW_RLE_END_OF_LIST => Some((RangeEntry::EndOfList, bytes)),
        DW_RLE_BASE_ADDRESSX => {
            let (index, rest) = unsigned_leb128(bytes)?;
            Some((
                RangeEntry::BaseAddress(addresses.get(index).unwrap_or(0)),
                rest,
            ))
        }
        DW_RLE_STARTX_ENDX => {
            let (start, rest) = unsigned_leb128(bytes)?;
            let (end, rest) = unsigned_leb128(rest)?;
            Some((start_end(addresses.get(start), addresses.get(end)), rest))
        }
        DW_RLE_STARTX_LENGTH => {
            let (start, rest) = unsigned_leb128(bytes)?;
            let (size, rest) = unsigned_leb128(rest)?;
            Some((start_size(addresses.get(start), size), rest))
        }
        DW_RLE_OFFSET_PAIR => {
            let (start, rest) = unsigned_leb128(bytes)?;
            let (end, rest) = unsigned_leb128(rest)?;
            Some((RangeEntry::OffsetPair(start, end), rest))
        }
        DW_RLE_BASE_ADDRESS => {
            let (base, rest) = address_here(bytes)?;
            Some((RangeEntry::BaseAddress(base), rest))
        }
        DW_RLE_START_END => {
            let (start, rest) = address_here(bytes)?;
            let (end, rest) = address_here(rest)?;
            Some((RangeEntry::StartEnd(start, end), rest))
        }
        DW_RLE_START_LENGTH => {
            let (start, rest) = address_here(bytes)?;
            let (size, rest) = unsigned_leb128(rest)?;
            Some((RangeEntry::StartEnd(start, start.wrapping_add(size)), rest))
        }
        _ => None,
    }
}

/// The entry of `__debug_rnglists` that begins the bytes, and the bytes after it; `None` if its kind is unknown, or it
/// passes the end.
#[tactic(auto, unfolding(crate::specs::ListEntries::rnglists_entry_at))]
pub fn rnglists_entry<'a>(
    addresses: &AddressTable<'a>,
    bytes: &'a [u8],
) -> Option<(RangeEntry, &'a [u8])>
    ensures { option_map (λ x. (x.0, x.1.now)) result ≡ rnglists_entry_at (addresses_view addresses.now) bytes.now }
{
    let (kind, rest) = bytes.split_first()?;
    operands(addresses, *kind, rest)
}
