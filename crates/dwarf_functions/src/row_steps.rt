//! The rows that cover each address, step by step.

ghost use Rattle.std.specs.Prelude.{◌≡◌, ◌<◌, ◌≤◌, ◌+◌, ◌++◌, [], IfOk, IfSome, None, OnOk, Option, length, map};
ghost use Rattle.std.specs.Prelude.{true, false};
ghost use Rattle.dwarf_source_frames.specs.AddressFrames.{rows_of};
ghost use Rattle.dwarf_source_frames.specs.FrameViews.{lines_view};
ghost use Rattle.dwarf_lines.specs.Covering.{AreCovering};
ghost use Rattle.dwarf_lines.specs.declared.registers.Row.{Row};
ghost use Rattle.dwarf_functions.specs.RowCover.{AreCovered, AreKnown, Covers};
ghost use Rattle.dwarf_asked_addresses.specs.Rising.{IsCountBelow, AreRising};
ghost use Rattle.dwarf_functions.specs.RowSteps.{AreRowSteps};

use dwarf_asked_addresses::{Waiting, count_below, sorted_once};
use dwarf_lines::{Row, Rows};
use dwarf_source_frames::UnitLines;
use heap_memory::{Heap, NoMemory};

/// The addresses from each start on, up to the next start, have a row, or none.
#[derive(Drop)]
pub struct RowSteps {
    pub starts: Vec<u64, Heap>,
    pub rows: Vec<Option<Row>, Heap>,
}

/// Adds the addresses of rows.
fn push_addresses(starts: &mut Vec<u64, Heap>, rows: Rows<'_>) -> Result<(), NoMemory>
    ensures { OnOk result (starts.new.items
        ≡ starts.old.items ++ map (λ row. row.registers.address) rows.entry) }
{
    for row in rows {
        starts.push(row.registers.address)?;
    }
    Ok(())
}

impl RowSteps {
    /// Whether the start at an index is an address; then all starts before it are below the address.
    #[tactic(auto, using(dwarf_asked_addresses::proofs::RisingLemmas::count_at))]
    fn is_at(&self, near: usize, address: u64) -> bool
        requires { AreRising self.now.starts.items }
        ensures { result ≡ true → IsCountBelow self.now.starts.items address near }
    {
        near < self.starts.len() && self.starts[near] == address
    }

    /// The number of starts below an address. It is mostly `near`, or one more.
    fn count_below(&self, address: u64, near: usize) -> usize
        requires { AreRising self.now.starts.items }
        ensures { IsCountBelow self.now.starts.items address result }
    {
        if self.is_at(near, address) {
            return near;
        }
        if near < self.starts.len() && self.is_at(near + 1, address) {
            return near + 1;
        }
        count_below(&self.starts, address)
    }

    /// Assigns a row to the waiting starts from index `first` on, before index `end`.
    fn cover(&mut self, waiting: &mut Waiting, first: usize, end: usize, row: Row)
        requires count { length waiting.old.next.items ≡ length self.old.rows.items + 1 }
        requires first { first ≤ end }
        requires end { end ≤ length self.old.rows.items }
        ensures starts { self.new.starts ≡ self.old.starts }
        ensures covers { Covers first end row waiting.old.next.items waiting.new.next.items self.old.rows.items
            self.new.rows.items }
    {
        let mut at = waiting.first_from(first);
        'starts: while at < end {
            self.rows[at] = Some(row);
            waiting.end(at);
            at = waiting.first_from(at + 1);
        }
    }

    /// Assigns a row to the waiting starts from index `first` on, before index `end`, unless the row ends a sequence.
    fn cover_unless(&mut self, waiting: &mut Waiting, first: usize, end: usize, row: Row)
        requires count { length waiting.old.next.items ≡ length self.old.rows.items + 1 }
        requires end { end ≤ length self.old.rows.items }
        ensures starts { self.new.starts ≡ self.old.starts }
        ensures covers { row.end_sequence ≡ false → first ≤ end → Covers first end row waiting.old.next.items
            waiting.new.next.items self.old.rows.items self.new.rows.items }
        ensures backwards { end < first → self.new.rows.items ≡ self.old.rows.items }
        ensures still { end < first → waiting.new.next.items ≡ waiting.old.next.items }
        ensures none { row.end_sequence ≡ true → self.new.rows.items ≡ self.old.rows.items }
        ensures waits { row.end_sequence ≡ true → waiting.new.next.items ≡ waiting.old.next.items }
    {
        if !row.end_sequence && first <= end {
            self.cover(waiting, first, end, row);
        }
    }

    /// Assigns each row to the starts that it is the first to cover.
    fn cover_all(&mut self, waiting: &mut Waiting, rows: Rows<'_>)
        requires rising { AreRising self.old.starts.items }
        requires known { AreKnown self.old.starts.items waiting.old.next.items self.old.rows.items None rows rows }
        ensures starts { self.new.starts ≡ self.old.starts }
        ensures known { (before : Option Row) × AreKnown self.new.starts.items waiting.new.next.items
            self.new.rows.items before [] rows.entry }
    {
        let mut before: Option<Row> = None;
        let mut first = 0;
        for row in rows {
            let end = self.count_below(row.registers.address, first);
            if let Some(last) = before {
                self.cover_unless(waiting, first, end, last);
            }
            before = Some(row);
            first = end;
        }
    }

    /// The rows that cover these starts, which ascend.
    fn covering(heap: Heap, starts: Vec<u64, Heap>, rows: Rows<'_>) -> Result<RowSteps, NoMemory>
        requires { AreRising starts.items }
        ensures starts { IfOk result (λ steps. steps.starts.items ≡ starts.items) }
        ensures rows { IfOk result (λ steps. AreCovered rows.entry starts.items steps.rows.items) }
    {
        let count = starts.len();
        let mut waiting = Waiting::new(heap.share(), count)?;
        let mut steps = RowSteps {
            starts,
            rows: vec![in heap; None; count]?,
        };
        steps.cover_all(&mut waiting, rows);
        Ok(steps)
    }

    /// The steps of rows, which are passed twice.
    fn of_rows(heap: Heap, rows: Rows<'_>, again: Rows<'_>) -> Result<RowSteps, NoMemory>
        requires { again ≡ rows }
        ensures { IfOk result (λ steps. AreRowSteps rows.entry steps.starts.items steps.rows.items) }
    {
        let mut starts = Vec::new(heap.share());
        push_addresses(&mut starts, rows)?;
        let starts = sorted_once(starts);
        let steps = RowSteps::covering(heap, starts, again)?;
        Ok(steps)
    }

    /// The steps of no rows.
    pub fn none(heap: Heap) -> RowSteps
        ensures { AreRowSteps [] result.starts.items result.rows.items }
    {
        RowSteps {
            starts: Vec::new(heap.share()),
            rows: Vec::new(heap),
        }
    }

    /// The steps of a unit's program, which is run twice. The time is that of a sort of its addresses, and the memory
    /// is 64 bytes for each of these.
    #[tactic(auto, unfolding(dwarf_source_frames::specs::AddressFrames::rows_of))]
    pub fn of(heap: Heap, lines: &UnitLines<'_>) -> Result<RowSteps, NoMemory>
        requires { IfSome lines.now.program (λ p. 0 < p.header.line_range) }
        ensures { IfOk result (λ steps.
            AreRowSteps (rows_of (lines_view lines.now)) steps.starts.items steps.rows.items) }
    {
        match &lines.program {
            Some(program) => RowSteps::of_rows(heap, Rows::of(program), Rows::of(program)),
            None => Ok(RowSteps::none(heap)),
        }
    }

    /// The steps of rows at some addresses, which ascend.
    fn of_rows_at(heap: Heap, rows: Rows<'_>, addresses: &[u64]) -> Result<RowSteps, NoMemory>
        requires { AreRising addresses.now }
        ensures { IfOk result (λ steps. AreCovering rows.entry addresses.now steps.rows.items) }
    {
        let starts = addresses.to_vec(heap.share())?;
        let steps = RowSteps::covering(heap, starts, rows)?;
        Ok(steps)
    }

    /// The steps of no rows at some addresses.
    fn none_at(heap: Heap, addresses: &[u64]) -> Result<RowSteps, NoMemory>
        ensures { IfOk result (λ steps. AreCovering [] addresses.now steps.rows.items) }
    {
        let starts = addresses.to_vec(heap.share())?;
        let rows = vec![in heap; None; addresses.len()]?;
        Ok(RowSteps { starts, rows })
    }

    /// The steps of a unit's program at some addresses, which ascend: they are the starts, and nothing is stated about
    /// addresses between them. The program is run once, and the memory is that of the addresses.
    #[tactic(auto, unfolding(dwarf_source_frames::specs::AddressFrames::rows_of))]
    pub fn at(heap: Heap, lines: &UnitLines<'_>, addresses: &[u64]) -> Result<RowSteps, NoMemory>
        requires range { IfSome lines.now.program (λ p. 0 < p.header.line_range) }
        requires rising { AreRising addresses.now }
        ensures { IfOk result (λ steps. AreCovering (rows_of (lines_view lines.now)) addresses.now steps.rows.items) }
    {
        match &lines.program {
            Some(program) => RowSteps::of_rows_at(heap, Rows::of(program), addresses),
            None => RowSteps::none_at(heap, addresses),
        }
    }
}
