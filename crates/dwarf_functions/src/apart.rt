//! The disjoint ranges of a function: each address is in one of them.

ghost use Rattle.std.specs.Prelude.{◌≡◌, ℕ, IfOk};
ghost use Rattle.std.specs.List.Sorted.{IsNonDecreasingBy};
ghost use Rattle.dwarf_ranges.specs.Lists.{in_ranges};
ghost use Rattle.dwarf_functions.specs.Apart.{AreApart};

use dwarf_ranges::CodeRange;
use heap_memory::{Heap, NoMemory};

/// These ranges, in the order of their first addresses.
fn in_order(heap: Heap, ranges: &[CodeRange]) -> Result<Vec<CodeRange, Heap>, NoMemory>
    ensures order { IfOk result (λ sorted. IsNonDecreasingBy (λ range. range.low) sorted.items) }
    ensures same { IfOk result (λ sorted. (a : ℕ) → in_ranges a sorted.items ≡ in_ranges a ranges.now) }
{
    let mut sorted = ranges.to_vec(heap)?;
    sorted.sort_unstable_by_key(|range| range.low);
    Ok(sorted)
}

/// Disjoint ranges with the same addresses as these ranges. The time is that of a sort of them, and the memory is up to
/// 64 bytes for each.
pub fn apart_of(heap: &Heap, ranges: &[CodeRange]) -> Result<Vec<CodeRange, Heap>, NoMemory>
    ensures same { IfOk result (λ apart. (a : ℕ) → in_ranges a apart.items ≡ in_ranges a ranges.now) }
    ensures apart { IfOk result (λ apart. AreApart apart.items) }
{
    let sorted = in_order(heap.share(), ranges)?;
    let mut apart = Vec::new(heap.share());
    let mut reached = 0;
    for range in &sorted {
        apart.push(CodeRange {
            low: range.low.max(reached),
            high: range.high,
        })?;
        reached = range.high.max(reached);
    }
    Ok(apart)
}
