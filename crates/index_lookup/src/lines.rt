//! The source frames for addresses, from the line table of an entry.

ghost use Rattle.std.specs.Prelude.{◌≡◌, ℕ, List, IfOk, IsOk, MatchOption, None, Some, false, map, true};
ghost use Rattle.std.specs.List.{AllZip};
ghost use Rattle.table_checked_pages.specs.Pages.{AreStored};
ghost use Rattle.table_checked_pages.specs.Views.{KeepsPages, claim_view};
ghost use Rattle.table_checked_pages.specs.Reading.{ReadsStored};
ghost use Rattle.table_source_frames.specs.FrameViews.{owned_frames};
ghost use Rattle.table_source_frames.specs.Opened.{IsOpened};
ghost use Rattle.table_source_frames.specs.Steps.{AreFrameSteps, StepRecord};
ghost use Rattle.table_source_frames.specs.SliceTable.{IsSliceTable};
ghost use Rattle.index_lookup.specs.InnerAnswering.{AreFramesBased, AreFramesOpened, IsTableBy};
ghost use Rattle.index_lookup.specs.Told.{HasNoLinesBy};
ghost use Rattle.index_lookup.specs.Views.{list_in};

use archive_core::Where;
use byte_device::Placed;
use heap_memory::Heap;
use table_checked_pages::{CheckFault, Pages};
use table_source_frames::{LineTable, OwnedFrame};
use table_symbols::Table;

/// The frames for an address, from an opened line table, for a slice whose `__TEXT` has this `vmaddr`.
fn frames_of<P: Placed>(
    heap: Heap,
    device: &mut P,
    pages: &mut Pages,
    table: &LineTable,
    base: Option<u64>,
    asked: Where,
) -> Result<Vec<OwnedFrame, Heap>, CheckFault>
    ensures claim { pages.new.claim ≡ pages.old.claim }
    ensures keeps { KeepsPages P.whole device.old pages.old pages.new }
    ensures read { ReadsStored P.whole P.failures device.old device.new result
        (λ text frames. AreFramesOpened table.now pages.old base text asked (owned_frames frames.items))
        (λ text. (slice all strings : List ℕ) (steps : List StepRecord)
        → AreStored text (claim_view pages.old.claim) all → AreFrameSteps slice steps
        → IsOpened table.now pages.old text all strings steps → ⊥) }
{
    match asked.address_by(base) {
        Some(address) => table.frames_at(heap, device, pages, address),
        None => Ok(Vec::new(heap)),
    }
}

/// The frames for several addresses, one list each, in order.
fn frames_of_each<P: Placed>(
    heap: &Heap,
    device: &mut P,
    pages: &mut Pages,
    table: &LineTable,
    base: Option<u64>,
    asked: &[Where],
) -> Result<Vec<Vec<OwnedFrame, Heap>, Heap>, CheckFault>
    ensures { ReadsStored P.whole P.failures device.old device.new result
        (λ text lists. AllZip (AreFramesOpened table.now pages.old base text) asked.now
        (map list_in lists.items))
        (λ text. (slice all strings : List ℕ) (steps : List StepRecord)
        → AreStored text (claim_view pages.old.claim) all → AreFrameSteps slice steps
        → IsOpened table.now pages.old text all strings steps → ⊥) }
{
    let mut lists = Vec::new(heap.share());
    'asked: for place in asked {
        let frames = frames_of(heap.share(), device, pages, table, base, *place)?;
        if let Err(_) = lists.push(frames) {
            return Err(CheckFault::OutOfMemory);
        }
    }
    Ok(lists)
}

/// The frames for several addresses, from an opened table, for a slice whose `__TEXT` has this `vmaddr`; none if the
/// slice has no lines.
fn frames_by_table<P: Placed>(
    heap: &Heap,
    device: &mut P,
    table: Table,
    base: Option<u64>,
    asked: &[Where],
) -> Result<Option<Vec<Vec<OwnedFrame, Heap>, Heap>>, CheckFault>
    ensures { ReadsStored P.whole P.failures device.old device.new result
        (λ text found. IsTableBy text (claim_view table.pages.claim) table
        → MatchOption found (HasNoLinesBy text (claim_view table.pages.claim))
        (λ lists. AllZip (AreFramesBased base text (claim_view table.pages.claim)) asked.now
        (map list_in lists.items)))
        (λ text. IsTableBy text (claim_view table.pages.claim) table → (slice all : List ℕ) → IsSliceTable slice all
        → AreStored text (claim_view table.pages.claim) all → ⊥) }
{
    let (mut pages, strings, first) = table.into_lines();
    let Some(lines) = LineTable::open(device, &mut pages, strings, first)? else {
        return Ok(None);
    };
    let lists = frames_of_each(heap, device, &mut pages, &lines, base, asked)?;
    Ok(Some(lists))
}

/// The same if lines are asked for, otherwise no list.
pub(crate) fn frames_if<P: Placed>(
    heap: &Heap,
    device: &mut P,
    table: Table,
    lines: bool,
    base: Option<u64>,
    asked: &[Where],
) -> Result<Option<Vec<Vec<OwnedFrame, Heap>, Heap>>, CheckFault>
    ensures wanted { IfOk result (λ found. found ≡ None → lines ≡ true) }
    ensures unasked { lines ≡ false → IsOk result }
    ensures read { ReadsStored P.whole P.failures device.old device.new result
        (λ text found. IsTableBy text (claim_view table.pages.claim) table
        → MatchOption found (HasNoLinesBy text (claim_view table.pages.claim))
        (λ lists. lines ≡ true → AllZip (AreFramesBased base text (claim_view table.pages.claim)) asked.now
        (map list_in lists.items)))
        (λ text. IsTableBy text (claim_view table.pages.claim) table → (slice all : List ℕ) → IsSliceTable slice all
        → AreStored text (claim_view table.pages.claim) all → ⊥) }
{
    if lines {
        return frames_by_table(heap, device, table, base, asked);
    }
    Ok(Some(Vec::new(heap.share())))
}
