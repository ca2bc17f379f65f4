//! The units of a section, one after another (DWARF 5, sections 7.2.2 and 7.4).

ghost use Rattle.std.specs.Prelude.{◌≡◌, ◌<◌, ◌≤◌, ◌==◌, ℕ, length, IfOk, IfSome, IfNone, OnOk, Some, None};
ghost use Rattle.std.specs.Prelude.{if◌then◌else◌};
ghost use Rattle.std.specs.Option.{option_map, option_or};
ghost use Rattle.std.specs.Ordering.{nat_cmp};
ghost use Rattle.std.specs.BTreeMap as tree_map;
ghost use Rattle.dwarf_encoding.specs.Units.{initial_length, is_64_bit, unit_at, unit_of, IsUnitWith};

use crate::little_endian::{u32_le_at, u64_le_at};
use heap_memory::{Heap, NoMemory};
use std::collections::BTreeMap;
use std::marker::Model;

/// Whether a unit is in the 64-bit format. No such unit is read here.
pub fn is_64_bit(unit: &[u8]) -> bool
    requires { 4 ≤ length unit.now }
    ensures { result ≡ is_64_bit unit.now }
{
    u32_le_at(unit, 0) == 0xffff_ffff
}

/// The size of the initial length that begins the bytes, and the number of bytes of the unit after it; `None` if there
/// are too few bytes or the number is reserved.
#[tactic(auto, unfolding(crate::specs::Units::initial_length))]
fn initial_length(bytes: &[u8]) -> Option<(usize, u64)>
    ensures value { result ≡ initial_length bytes.now }
    ensures within { IfSome result (λ x. (4 ≤ x.0) × (x.0 ≤ length bytes.now)) }
{
    if bytes.len() < 4 {
        return None;
    }
    let size = u32_le_at(bytes, 0);
    if size < 0xffff_fff0 {
        return Some((4, u64::from(size)));
    }
    if !is_64_bit(bytes) || bytes.len() < 12 {
        return None;
    }
    Some((12, u64_le_at(bytes, 4)))
}

/// The unit that begins the bytes, in either format, with its initial length, and the bytes after the unit; `None` if
/// no initial length can be read or the unit passes the end.
#[tactic(auto, unfolding(crate::specs::Units::unit_at))]
pub fn split_unit(bytes: &[u8]) -> Option<(&[u8], &[u8])>
    ensures value { option_map (λ x. (x.0.now, x.1.now)) result ≡ unit_at bytes.now }
    ensures shorter { IfSome result (λ x. length x.1.now < length bytes.now) }
{
    let (before, size) = initial_length(bytes)?;
    if ((bytes.len() - before) as u64) < size {
        return None;
    }
    Some(bytes.split_at(before + size as usize))
}

/// The units of a section, up to the first that passes the end. They borrow the section, and a contract sees the
/// section.
#[derive(Drop)]
pub struct Units<'a> {
    section: &'a [u8],
    by_offset: BTreeMap<u64, &'a [u8], Heap>,
}

impl<'a> Model for Units<'a> {
    ghost use Rattle.std.specs.Prelude.{ℕ, List};
    ghost use Rattle.dwarf_encoding.specs.UnitTable.{AreUnits};

    ghost Value = { List ℕ };

    ghost view = { λ u. u.section.now };

    ghost invariant = { λ u. AreUnits u.section.now u.by_offset };
}

/// Adds a unit to the table, unless the table has a unit at its offset.
fn keep_first<'a>(
    by_offset: &mut BTreeMap<u64, &'a [u8], Heap>,
    offset: u64,
    unit: &'a [u8],
) -> Result<(), NoMemory>
    ensures { OnOk result ((q : ℕ) → option_map (λ u. u.now) (tree_map.get nat_cmp by_offset.new q)
        ≡ (if q == offset
        then option_or (option_map (λ u. u.now) (tree_map.get nat_cmp by_offset.old q)) (Some unit.now)
        else option_map (λ u. u.now) (tree_map.get nat_cmp by_offset.old q))) }
{
    if !by_offset.contains_key(&offset) {
        by_offset.insert(offset, unit)?;
    }
    Ok(())
}

/// The table of the units of a section.
fn table<'a>(heap: Heap, section: &'a [u8]) -> Result<BTreeMap<u64, &'a [u8], Heap>, NoMemory>
    ensures { IfOk result (λ by_offset. (q : ℕ) →
        option_map (λ u. u.now) (tree_map.get nat_cmp by_offset q) ≡ unit_of section.now q) }
{
    let mut by_offset = BTreeMap::new(heap);
    let mut rest = section;
    'units: while let Some((unit, after)) = split_unit(rest) {
        let offset = section.len() - rest.len();
        keep_first(&mut by_offset, offset as u64, unit)?;
        rest = after;
    }
    Ok(by_offset)
}

/// The last unit of the table that begins at or before an offset, with its own offset.
fn last_before<'a>(
    by_offset: &BTreeMap<u64, &'a [u8], Heap>,
    offset: u64,
) -> Option<(u64, &'a [u8])>
    ensures found { IfSome result (λ x. tree_map.get nat_cmp by_offset.now x.0 ≡ Some x.1) }
    ensures before { IfSome result (λ x. x.0 ≤ offset) }
    ensures last { IfSome result (λ x. (q : ℕ) → x.0 < q → q ≤ offset → tree_map.get nat_cmp by_offset.now q ≡ None) }
    ensures none { IfNone result ((q : ℕ) → q ≤ offset → tree_map.get nat_cmp by_offset.now q ≡ None) }
{
    let (place, unit) = by_offset.range(..=offset).next_back()?;
    Some((*place, *unit))
}

impl<'a> Units<'a> {
    /// The units of a section. Time and memory are proportional to their number.
    pub fn read(heap: Heap, section: &'a [u8]) -> Result<Units<'a>, NoMemory>
        ensures { IfOk result (λ units. units ≡ section.now) }
    {
        let by_offset = table(heap, section)?;
        Ok(Units { section, by_offset })
    }

    /// The section.
    pub fn section(&self) -> &'a [u8]
        ensures { result.now ≡ self.now }
    {
        self.section
    }

    /// The unit at an offset; `None` if none begins there.
    pub fn at(&self, offset: u64) -> Option<&'a [u8]>
        ensures { option_map (λ u. u.now) result ≡ unit_of self.now offset }
    {
        self.by_offset.get(&offset).copied()
    }

    /// The unit that contains the byte at an offset, with its own offset; `None` if no unit does.
    pub fn containing(&self, offset: u64) -> Option<(u64, &'a [u8])>
        ensures { IsUnitWith self.now offset (option_map (λ x. (x.0, x.1.now)) result) }
    {
        let (place, unit) = last_before(&self.by_offset, offset)?;
        if unit.len() as u64 <= offset - place {
            return None;
        }
        Some((place, unit))
    }
}
