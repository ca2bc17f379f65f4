//! The units of many addresses.

ghost use Rattle.std.specs.Prelude.{◌≡◌, ◌≤◌, ◌==◌, ◌&&◌, ◌||◌, ℕ, IfOk, IfSome, OnOk, None, length, true, false};
ghost use Rattle.std.specs.Prelude.{if◌then◌else◌};
ghost use Rattle.std.specs.Option.{is_none, option_map, option_or};
ghost use Rattle.std.specs.Ordering.{nat_cmp};
ghost use Rattle.std.specs.BTreeMap as tree_map;
ghost use Rattle.std.specs.BTreeSet as tree_set;
ghost use Rattle.dwarf_ranges.specs.Aranges.{is_named};
ghost use Rattle.dwarf_ranges.specs.Assigned.{AssignsRanges};
ghost use Rattle.dwarf_source_frames.specs.SectionsViews.{sections_view};
ghost use Rattle.dwarf_source_frames.specs.Inner.{AreNamedUnits, ArePlacesByTuples};
ghost use Rattle.dwarf_source_frames.specs.UnitAddresses.{AreUnitsOf, own_ranges, place_by_ranges, place_by_tuple};
ghost use Rattle.dwarf_source_frames.specs.UnitAddresses.{read_unit};
ghost use Rattle.dwarf_source_frames.specs.UnitViews.{unit_view};

use crate::debug_info::DebugInfo;
use crate::debug_unit::DebugUnit;
use dwarf_asked_addresses::answers_for;
use dwarf_encoding::split_unit;
use dwarf_ranges::{Arange, Aranges, Ranges, assign_ranges, first_tuples, named_units};
use heap_memory::{Heap, NoMemory};
use std::collections::{BTreeMap, BTreeSet};

/// Adds an address to `places` with the offset of its unit, or to `pending` if it has none.
fn add_address(
    places: &mut BTreeMap<u64, u64, Heap>,
    pending: &mut BTreeSet<u64, Heap>,
    address: u64,
    place: Option<u64>,
) -> Result<(), NoMemory>
    ensures places { OnOk result ((a : ℕ) → tree_map.get nat_cmp places.new a
        ≡ (if a == address then option_or place (tree_map.get nat_cmp places.old a)
        else tree_map.get nat_cmp places.old a)) }
    ensures pending { OnOk result ((a : ℕ) → tree_set.contains nat_cmp pending.new a
        ≡ ((a == address && is_none place) || tree_set.contains nat_cmp pending.old a)) }
{
    match place {
        Some(place) => {
            places.insert(address, place)?;
        }
        None => {
            pending.insert(address)?;
        }
    }
    Ok(())
}

impl<'a> DebugInfo<'a> {
    /// The unit at an offset; `None` if no unit begins there, or it cannot be read.
    #[tactic(auto, unfolding(crate::specs::UnitAddresses::read_unit))]
    pub fn unit_at(&self, offset: u64) -> Option<DebugUnit<'a>>
        ensures value { option_map unit_view result ≡ read_unit (sections_view self.now.sections) offset }
        ensures within { IfSome result (λ u. u.header.entries_offset ≤ length u.bytes.now) }
    {
        DebugUnit::read(&self.abbreviations, offset, self.units.at(offset)?)
    }

    /// The offset of the unit that a tuple names; `None` if there is no tuple, or the unit cannot be read.
    fn place_by_tuple(&self, tuple: Option<&Arange>) -> Option<u64>
        ensures { result ≡ place_by_tuple (sections_view self.now.sections) (option_map (λ t. t.now) tuple.entry) }
    {
        let unit = self.unit_at(tuple?.debug_info_offset)?;
        Some(unit.offset)
    }

    /// The addresses whose tuples name units that can be read, with the offsets of these units; and the other
    /// addresses, which are pending.
    fn places_by_tuples(
        &self,
        heap: Heap,
        tuples: &BTreeMap<u64, Arange, Heap>,
        addresses: &[u64],
    ) -> Result<(BTreeMap<u64, u64, Heap>, BTreeSet<u64, Heap>), NoMemory>
        ensures { IfOk result (λ x.
            ArePlacesByTuples (sections_view self.now.sections) tuples.now addresses.now x.0 x.1) }
    {
        let mut places = BTreeMap::new(heap.share());
        let mut pending = BTreeSet::new(heap);
        for address in addresses {
            let place = self.place_by_tuple(tuples.get(address));
            add_address(&mut places, &mut pending, *address, place)?;
        }
        Ok((places, pending))
    }

    /// Assigns a unit's offset to each pending address in the unit's own ranges, if no set of `__debug_aranges` names
    /// the unit.
    #[tactic(auto, unfolding(crate::specs::UnitAddresses::own_ranges))]
    fn assign_unit(
        &self,
        named: &BTreeSet<u64, Heap>,
        places: &mut BTreeMap<u64, u64, Heap>,
        pending: &mut BTreeSet<u64, Heap>,
        offset: u64,
        bytes: &'a [u8],
    ) -> Result<(), NoMemory>
        requires { AreNamedUnits self.now.sections.debug_aranges.now named.now }
        ensures { OnOk result (AssignsRanges (own_ranges (sections_view self.now.sections) offset bytes.now) offset
            pending.old places.old pending.new places.new) }
    {
        let ranges = self.own_ranges(named, offset, bytes);
        assign_ranges(pending, places, ranges, offset)
    }

    /// The ranges of a unit's first entry; none if a set of `__debug_aranges` names the unit. `named` are the offsets
    /// of the units that sets name.
    #[tactic(auto, unfolding(crate::specs::UnitAddresses::own_ranges))]
    pub fn own_ranges(
        &self,
        named: &BTreeSet<u64, Heap>,
        offset: u64,
        bytes: &'a [u8],
    ) -> Ranges<'a>
        requires { (unit : ℕ) → tree_set.contains nat_cmp named.now unit
            ≡ is_named self.now.sections.debug_aranges.now unit }
        ensures { result ≡ own_ranges (sections_view self.now.sections) offset bytes.now }
    {
        if named.contains(&offset) {
            return Ranges::none();
        }
        match DebugUnit::read(&self.abbreviations, offset, bytes) {
            Some(unit) => unit.first_ranges(&self.sections),
            None => Ranges::none(),
        }
    }

    /// Assigns to each pending address the offset of the first unit whose own ranges contain it.
    fn assign_units(
        &self,
        named: &BTreeSet<u64, Heap>,
        places: &mut BTreeMap<u64, u64, Heap>,
        mut pending: BTreeSet<u64, Heap>,
    ) -> Result<(), NoMemory>
        requires named { AreNamedUnits self.now.sections.debug_aranges.now named.now }
        requires blank { (a : ℕ) → tree_set.contains nat_cmp pending a ≡ true →
            tree_map.get nat_cmp places.now a ≡ None }
        ensures found { OnOk result ((a : ℕ) → tree_set.contains nat_cmp pending a ≡ true →
            tree_map.get nat_cmp places.new a ≡ place_by_ranges (sections_view self.now.sections) a) }
        ensures others { OnOk result ((a : ℕ) → tree_set.contains nat_cmp pending a ≡ false →
            tree_map.get nat_cmp places.new a ≡ tree_map.get nat_cmp places.old a) }
    {
        let section = self.sections.debug_info;
        let mut rest = section;
        'units: while let Some((bytes, after)) = split_unit(rest) {
            let offset = (section.len() - rest.len()) as u64;
            self.assign_unit(named, places, &mut pending, offset, bytes)?;
            rest = after;
        }
        Ok(())
    }

    /// Assigns to each pending address the offset of the first unit that no set of `__debug_aranges` names and whose
    /// ranges contain it.
    fn assign_pending(
        &self,
        heap: Heap,
        places: &mut BTreeMap<u64, u64, Heap>,
        pending: BTreeSet<u64, Heap>,
    ) -> Result<(), NoMemory>
        requires { (a : ℕ) → tree_set.contains nat_cmp pending a ≡ true →
            tree_map.get nat_cmp places.now a ≡ None }
        ensures found { OnOk result ((a : ℕ) → tree_set.contains nat_cmp pending a ≡ true →
            tree_map.get nat_cmp places.new a ≡ place_by_ranges (sections_view self.now.sections) a) }
        ensures others { OnOk result ((a : ℕ) → tree_set.contains nat_cmp pending a ≡ false →
            tree_map.get nat_cmp places.new a ≡ tree_map.get nat_cmp places.old a) }
    {
        if pending.is_empty() {
            return Ok(());
        }
        let named = named_units(heap, self.sections.debug_aranges)?;
        self.assign_units(&named, places, pending)
    }

    /// For each address, the offset of its unit in `__debug_info`, or `None`. The time is that of reading
    /// `__debug_aranges`, of reading the units if an address has no tuple, and of a search for each address among the
    /// others.
    pub fn units_of(
        &self,
        heap: Heap,
        addresses: &[u64],
    ) -> Result<Vec<Option<u64>, Heap>, NoMemory>
        ensures { IfOk result (λ places. AreUnitsOf (sections_view self.now.sections) addresses.now places.items) }
    {
        let tuples = first_tuples(
            heap.share(),
            Aranges::of(self.sections.debug_aranges),
            addresses,
        )?;
        let (mut places, pending) = self.places_by_tuples(heap.share(), &tuples, addresses)?;
        self.assign_pending(heap.share(), &mut places, pending)?;
        answers_for(heap, &places, addresses)
    }
}
