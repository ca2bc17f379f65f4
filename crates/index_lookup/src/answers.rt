//! The answers of indexes for several addresses under a key.

ghost use Rattle.std.specs.Prelude.{◌≡◌, IfOk, map, slice_index_or, None};
ghost use Rattle.archive_core.specs.Lookup.{Alone, answer_view, own_row, own_view};
ghost use Rattle.table_source_frames.specs.FrameViews.{owned_frames};
ghost use Rattle.index_lookup.specs.Views.{answer_of, frames_at, borrowed_in, row_at, shown_of, told_view};

use archive_core::{Answer, Digest, Own};
use dwarf_source_frames::SourceFrame;
use heap_memory::{Heap, NoMemory};
use table_source_frames::OwnedFrame;
use table_symbols::OwnedFound;

/// The answers of an entry's table.
#[derive(Drop)]
pub struct EntryAnswers {
    /// The SHA-256 of the entry's slice.
    pub digest: Digest,
    /// The answer for each address, in the order in which they were asked for.
    pub owns: Vec<Option<OwnedFound>, Heap>,
    /// The frames for each address in the slice; no list if no lines are asked for.
    pub frames: Vec<Vec<OwnedFrame, Heap>, Heap>,
}

/// The answers of indexes for several addresses under a key: those of each entry that answers, in the order of their
/// records.
#[derive(Drop)]
pub struct Answers {
    pub(crate) columns: Vec<EntryAnswers, Heap>,
}

impl EntryAnswers {
    /// The answer for the address with this number.
    fn own(&self, number: usize) -> Own<'_>
        ensures { own_view result ≡ slice_index_or (map told_view self.now.owns.items) number None }
    {
        match self.owns.get(number) {
            Some(Some(found)) => Own::Symbol(found.borrowed()),
            _ => Own::NoSymbol,
        }
    }

    /// The frames for the address with this number, borrowed. Fails only if memory runs out.
    fn frames(&self, heap: Heap, number: usize) -> Result<Vec<SourceFrame<'_>, Heap>, NoMemory>
        ensures { IfOk result (λ frames. borrowed_in frames ≡ frames_at number self.now) }
    {
        match self.frames.get(number) {
            Some(frames) => borrowed_each(heap, frames),
            None => Ok(Vec::new(heap)),
        }
    }
}

/// Frames, borrowed.
fn borrowed_each(heap: Heap, frames: &[OwnedFrame]) -> Result<Vec<SourceFrame<'_>, Heap>, NoMemory>
    ensures { IfOk result (λ borrowed. borrowed_in borrowed ≡ owned_frames frames.now) }
{
    let mut borrowed = Vec::with_capacity(heap, frames.len())?;
    'frames: for frame in frames {
        borrowed.push(frame.borrowed())?;
    }
    Ok(borrowed)
}

/// The answer if only one slice answers.
fn answer_of_one(own: Own<'_>) -> Answer<'_>
    ensures { answer_view result ≡ Alone (own_view own.entry) }
{
    match own {
        Own::NoSymbol => Answer::NoSymbol,
        Own::Symbol(found) => Answer::Symbol(found),
    }
}

/// The rows of several entries for the address with this number.
fn rows_at(
    heap: Heap,
    columns: &[EntryAnswers],
    number: usize,
) -> Result<Vec<(Digest, Own<'_>), Heap>, NoMemory>
    ensures { IfOk result (λ rows. map own_row rows.items ≡ map (row_at number) columns.now) }
{
    let mut rows = Vec::new(heap);
    'columns: for column in columns {
        rows.push((column.digest, column.own(number)))?;
    }
    Ok(rows)
}

/// The frames for the address with this number in the slice of each entry.
fn frames_of_each<'c>(
    heap: &Heap,
    columns: &'c [EntryAnswers],
    number: usize,
) -> Result<Vec<Vec<SourceFrame<'c>, Heap>, Heap>, NoMemory>
    ensures { IfOk result (λ lists. map borrowed_in lists.items
        ≡ map (frames_at number) columns.now) }
{
    let mut lists = Vec::new(heap.share());
    'columns: for column in columns {
        let frames = column.frames(heap.share(), number)?;
        lists.push(frames)?;
    }
    Ok(lists)
}

impl Answers {
    /// The answer for the address with this number, from 0, among those that were asked for. Fails only if memory runs
    /// out: memory is needed only if several entries answer.
    pub fn answer(&self, heap: Heap, number: usize) -> Result<Answer<'_>, NoMemory>
        ensures { IfOk result (λ answer. answer_view answer ≡ answer_of (map (row_at number) self.now.columns.items)) }
    {
        match self.columns.as_slice() {
            [] => Ok(Answer::Unknown),
            [column] => Ok(answer_of_one(column.own(number))),
            columns => Ok(Answer::Conflict(rows_at(heap, columns, number)?)),
        }
    }

    /// The frames that are shown for the address with this number: those in the slice of each entry, in the order of
    /// the answer, or no list if no lines are asked for. Fails only if memory runs out.
    pub fn frames(
        &self,
        heap: &Heap,
        lines: bool,
        number: usize,
    ) -> Result<Vec<Vec<SourceFrame<'_>, Heap>, Heap>, NoMemory>
        ensures { IfOk result (λ lists. map borrowed_in lists.items
            ≡ shown_of lines number self.now.columns.items) }
    {
        if lines {
            frames_of_each(heap, &self.columns, number)
        } else {
            Ok(Vec::new(heap.share()))
        }
    }
}
