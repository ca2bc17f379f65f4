//! Functions with the names of entries that other entries refer to, kept by offset.

ghost use Rattle.std.specs.Prelude.{◌≡◌, ◌⊎◌, IfOk, IfSome, Some};
ghost use Rattle.dwarf_entries.specs.EntryViews.{entry_view};
ghost use Rattle.dwarf_source_frames.specs.Names.{origin_place};
ghost use Rattle.dwarf_source_frames.specs.UnitViews.{unit_view};
ghost use Rattle.dwarf_functions.specs.Origins.{IsKept, IsNamedAt};
ghost use Rattle.dwarf_functions.specs.declared.origins.Origin.{Origin};

use dwarf_entries::{Attribute, Entry};
use dwarf_source_frames::DebugUnit;
use heap_memory::{Heap, NoMemory};

/// The largest number of offsets to keep.
const PLACES_MAX: u64 = 1024;

/// The offset of an entry, and the index of a function with its name.
#[derive(Clone, Copy)]
pub(crate) struct Origin {
    pub place: u64,
    pub function: usize,
}

/// Functions with the names of entries, each in the slot of the remainder of the entry's offset.
#[derive(Drop)]
pub(crate) struct Origins {
    slots: Vec<Option<Origin>, Heap>,
}

/// The offset of the entry that an entry refers to by DW_AT_abstract_origin, else by DW_AT_specification.
#[tactic(auto, unfolding(dwarf_source_frames::specs::Names::origin_place))]
fn origin_place<'a>(unit: &DebugUnit<'a>, entry: &Entry<'a>) -> Option<u64>
    ensures { result ≡ origin_place (record { unit = unit_view unit.now; entry = entry_view entry.now }) }
{
    let attributes = &entry.attributes;
    let value = attributes
        .get(Attribute::AbstractOrigin)
        .or(attributes.get(Attribute::Specification))?;
    unit.place_of(&value)
}

/// The offset of the entry that this one refers to, if this one has no name itself and so has the name of that entry.
pub(crate) fn nameless_origin<'a>(unit: &DebugUnit<'a>, entry: &Entry<'a>) -> Option<u64>
    ensures { IfSome result (IsNamedAt (record { unit = unit_view unit.now; entry = entry_view entry.now })) }
{
    let attributes = &entry.attributes;
    if attributes.get(Attribute::Name).is_some() {
        return None;
    }
    if attributes.get(Attribute::LinkageName).is_some()
        || attributes.get(Attribute::MipsLinkageName).is_some()
    {
        return None;
    }
    origin_place(unit, entry)
}

/// The slot of an offset.
fn slot_of(place: u64) -> usize {
    (place % PLACES_MAX) as usize
}

impl Origins {
    /// No functions. The error is `NoMemory`.
    pub fn new(heap: Heap) -> Result<Origins, NoMemory>
        ensures { IfOk result (λ all. (o : Origin) → IsKept all o → ⊥) }
    {
        Ok(Origins {
            slots: vec![in heap; None; PLACES_MAX as usize]?,
        })
    }

    /// The index of a function with the name of the entry at an offset; `None` if none is kept.
    pub fn get(&self, place: Option<u64>) -> Option<usize>
        ensures { IfSome result (λ function. (o : Origin) × IsKept self.now o × (place ≡ Some o.place)
            × (o.function ≡ function)) }
    {
        let place = place?;
        match self.slots.get(slot_of(place)) {
            Some(Some(origin)) if origin.place == place => Some(origin.function),
            _ => None,
        }
    }

    /// Keeps the index of a function with the name of the entry at an offset, if there is an offset.
    pub fn keep(&mut self, place: Option<u64>, function: usize)
        ensures { (o : Origin) → IsKept self.new o
            → IsKept self.old o ⊎ ((place ≡ Some o.place) × (o.function ≡ function)) }
    {
        let Some(place) = place else {
            return;
        };
        let slot = slot_of(place);
        if slot < self.slots.len() {
            self.slots[slot] = Some(Origin { place, function });
        }
    }
}
