//! A common walk over the steps of a unit's rows and of its links.

ghost use Rattle.std.specs.Prelude.{◌≡◌, ◌≤◌, ◌<◌, ℕ, IfNone, IfSome, None, Some, length, slice_get, slice_index};
ghost use Rattle.dwarf_frame_changes.specs.Between.{IsBelow, IsCountTo, IsNextStart, least};
ghost use Rattle.dwarf_functions.specs.AddressSteps.{at_step};
ghost use Rattle.dwarf_asked_addresses.specs.Rising.{AreRising, IsCountBelow};

use dwarf_functions::{Links, RowSteps};
use dwarf_lines::Row;

/// The number of starts at or below an address, if `below` starts are below it.
pub(crate) fn count_to(starts: &[u64], below: usize, address: u64) -> usize
    requires rising { AreRising starts.now }
    requires count { IsCountBelow starts.now address below }
    ensures { IsCountTo starts.now address result }
{
    if below < starts.len() && starts[below] == address {
        return below + 1;
    }
    below
}

/// The row of an address, if `count` steps start at or below it.
pub(crate) fn row_of(rows: &RowSteps, count: usize) -> Option<Row>
    requires within { count ≤ length rows.now.rows.items }
    requires same { length rows.now.rows.items ≡ length rows.now.starts.items }
    ensures { (address : ℕ) → IsCountTo rows.now.starts.items address count
        → result ≡ at_step None rows.now.starts.items rows.now.rows.items address }
{
    if count == 0 {
        return None;
    }
    rows.rows[count - 1]
}

/// The number of the link of an address, if `count` steps start at or below it.
pub(crate) fn number_of(links: &Links<'_>, count: usize) -> usize
    requires within { count ≤ length links.now.numbers.items }
    requires same { length links.now.numbers.items ≡ length links.now.starts.items }
    ensures is { (address : ℕ) → IsCountTo links.now.starts.items address count
        → result ≡ at_step 0 links.now.starts.items links.now.numbers.items address }
    ensures most { (most : ℕ) → ((i : ℕ) → i < length links.now.numbers.items
        → slice_index links.now.numbers.items i ≤ most) → result ≤ most }
{
    if count == 0 {
        return 0;
    }
    links.numbers[count - 1]
}

/// The start at an index; `None` if there is none.
pub(crate) fn start_at(starts: &[u64], index: usize) -> Option<u64>
    ensures { result ≡ slice_get starts.now index }
{
    if starts.len() <= index {
        return None;
    }
    Some(starts[index])
}

/// The lesser of two addresses; the other one if one is missing.
fn least(a: Option<u64>, b: Option<u64>) -> Option<u64>
    ensures { result ≡ least a b }
{
    match (a, b) {
        (Some(a), Some(b)) => Some(if a <= b { a } else { b }),
        (Some(a), None) => Some(a),
        (None, b) => b,
    }
}

/// The first start above an address, if `row` steps of rows and `link` steps of links start at or below it.
pub(crate) fn next_start(rows: &[u64], links: &[u64], row: usize, link: usize) -> Option<u64>
    requires rows { AreRising rows.now }
    requires links { AreRising links.now }
    ensures { (address : ℕ) → IsCountTo rows.now address row → IsCountTo links.now address link
        → IsNextStart rows.now links.now address row link result }
{
    least(start_at(rows, row), start_at(links, link))
}

/// The address, if it is below another one.
pub(crate) fn below(address: Option<u64>, end: Option<u64>) -> Option<u64>
    ensures some { IfSome result (λ a. (address ≡ Some a) × IsBelow a end) }
    ensures none { IfNone result (IfSome address (λ a. (e : ℕ) × (end ≡ Some e) × (e ≤ a))) }
{
    match (address, end) {
        (Some(a), Some(end)) => { if a < end { Some(a) } else { None } }
        (a, _) => a,
    }
}
