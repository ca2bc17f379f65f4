//! The units of addresses, from one boundary to the next.

ghost use Rattle.std.specs.Prelude.{◌≡◌, ◌↔◌, ℕ, IfOk, None, Some, length};
ghost use Rattle.std.specs.List.{Contains};
ghost use Rattle.dwarf_frame_changes.specs.Between.{IsCountTo, IsNextAbove};
ghost use Rattle.dwarf_asked_addresses.specs.Rising.{AreRising};
ghost use Rattle.dwarf_frame_changes.specs.UnitSteps.{AreUnitSteps};
ghost use Rattle.dwarf_source_frames.specs.ByUnit.{IsPlaced, addresses_under};
ghost use Rattle.dwarf_source_frames.specs.SectionsViews.{sections_view};

use crate::next_start::start_at;
use crate::unit_boundaries::boundaries;
use dwarf_source_frames::{ByUnit, DebugInfo, by_unit};
use heap_memory::{Heap, NoMemory};

/// The boundaries of units, ascending, each with the offset of the unit from there on.
#[derive(Drop)]
pub(crate) struct UnitSteps {
    pub starts: Vec<u64, Heap>,
    pub places: Vec<Option<u64>, Heap>,
}

/// The number of starts, which ascend, at or below an address.
fn count_to(starts: &[u64], address: u64) -> usize
    ensures { AreRising starts.now → IsCountTo starts.now address result }
{
    starts.partition_point(|start| *start <= address)
}

impl UnitSteps {
    /// All boundaries of an image. The time is that of reading `__debug_aranges` and the first entries of the units,
    /// and the memory is that of the boundaries.
    pub fn read(heap: Heap, info: &DebugInfo<'_>) -> Result<UnitSteps, NoMemory>
        ensures { IfOk result (λ steps.
            AreUnitSteps (sections_view info.now.sections) steps.starts.items steps.places.items) }
    {
        let starts = boundaries(heap.share(), info)?;
        let places = info.units_of(heap, &starts)?;
        Ok(UnitSteps { starts, places })
    }

    /// The boundaries without a unit, and the others grouped by the offsets of their units.
    pub fn by_unit(&self, heap: Heap) -> Result<(Vec<u64, Heap>, ByUnit), NoMemory>
        requires { length self.now.places.items ≡ length self.now.starts.items }
        ensures without { IfOk result (λ x. (a : ℕ) → Contains x.0.items a
            ↔ IsPlaced self.now.starts.items self.now.places.items a None) }
        ensures under { IfOk result (λ x. (place a : ℕ) → Contains (addresses_under x.1 place) a
            ↔ IsPlaced self.now.starts.items self.now.places.items a (Some place)) }
    {
        by_unit(heap, &self.starts, &self.places)
    }

    /// The first boundary after an address.
    pub fn after(&self, address: u64) -> Option<u64>
        ensures { AreRising self.now.starts.items → IsNextAbove self.now.starts.items address result }
    {
        start_at(&self.starts, count_to(&self.starts, address))
    }
}
