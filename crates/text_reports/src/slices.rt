//! The lines of the slices that answer for keys.
ghost use Rattle.std.specs.Prelude.{◌≡◌, ◌↔◌, ◌++◌, All, Contains, IfOk, IsTrue, OnOk, string_bytes};
ghost use Rattle.std.specs.List.{flat_map};
ghost use Rattle.std.specs.List.Sorted.{IsSorted, IsStrictlySortedBy};
ghost use Rattle.archive_core.specs.Key.{IsKey};
ghost use Rattle.text_reports.specs.Report.{line};
ghost use Rattle.text_reports.specs.Slices.{AnswersAmong, LivesAmong, TellsSlices};
ghost use Rattle.text_reports.specs.Slices.{absent_text, slice_key_cmp, slice_row_cmp};
ghost use Rattle.text_reports.specs.InnerSlices.{AnswersBeside, AnswersIn, AreExactly, HasKey, HasSlice, LivesBeside};
ghost use Rattle.text_reports.specs.InnerSlices.{own_key, row_key};

use crate::Text;
use crate::finds::{KeyForm, push_rows};
use archive_core::{FindRow, FindState, SliceKey, compare_keys};
use heap_memory::{Heap, NoMemory};
use std::cmp::Ordering;
use std::fmt;

// A key for which no slice answers.
#[derive(Clone, Copy)]
struct Absent(SliceKey);

impl fmt::Display for Absent {
    ghost use Rattle.std.specs.Prelude.{Some};
    ghost use Rattle.text_reports.specs.Slices.{absent_text};

    ghost output = { λ absent. Some (absent_text absent.0) };

    fn fmt<W: fmt::Write>(&self, f: &mut fmt::Formatter<W>) -> fmt::Result {
        let key = Text(self.0);
        write!(f, "{key} absent")
    }
}

// Compares two rows by their keys, and for one key by their digests.
fn compare_rows(a: &FindRow, b: &FindRow) -> Ordering
    ensures { result ≡ slice_row_cmp a.now b.now }
{
    compare_keys(&a.key, &b.key).then(a.digest.0[..].cmp(&b.digest.0[..]))
}

// Whether a row has this state.
fn is_in(state: FindState, row: FindRow) -> bool
    ensures is { IsTrue result ↔ (row.state ≡ state) }
    ensures key { IsKey row.key }
{
    row.state == state
}

// Whether one of these rows is for the slice of this one. It is found by binary search.
fn has_slice(rows: &[FindRow], row: FindRow) -> bool
    requires sorted { IsSorted slice_row_cmp rows.now }
    requires keyed { All (λ other. IsKey other.key) rows.now }
    ensures is { IsTrue result ↔ HasSlice rows.now row }
    ensures key { IsKey row.key }
{
    rows.binary_search_by(|other| compare_rows(other, &row))
        .is_ok()
}

// Whether one of these rows has the key. It is found by binary search.
fn has_key(rows: &[FindRow], key: SliceKey) -> bool
    requires sorted { IsSorted slice_row_cmp rows.now }
    requires keyed { All (λ row. IsKey row.key) rows.now }
    ensures is { IsTrue result ↔ HasKey rows.now key }
    ensures key { IsKey key }
{
    rows.binary_search_by(|row| compare_keys(&row.key, &key))
        .is_ok()
}

// The rows with a state, in the order of their slices.
fn rows_in(heap: Heap, state: FindState, rows: &[FindRow]) -> Result<Vec<FindRow, Heap>, NoMemory>
    ensures exactly { IfOk result (λ kept.
        AreExactly row_key (λ row. Contains rows.now row × (row.state ≡ state)) kept.items) }
    ensures sorted { IfOk result (λ kept. IsSorted slice_row_cmp kept.items) }
{
    let mut kept = Vec::new(heap);
    'rows: for row in rows {
        if is_in(state, *row) {
            kept.push(*row)?;
        }
    }
    kept.sort_unstable_by(|a, b| compare_rows(a, b));
    Ok(kept)
}

// Whether a row is for a slice that none of these retirements covers.
fn lives_beside(retired: &[FindRow], row: FindRow) -> bool
    requires sorted { IsSorted slice_row_cmp retired.now }
    requires keyed { All (λ other. IsKey other.key) retired.now }
    ensures is { IsTrue result ↔ LivesBeside retired.now row }
    ensures key { IsKey row.key }
{
    row.state != FindState::Retired && !has_slice(retired, row)
}

// The rows of slices that no row retires.
fn live_rows(heap: Heap, pool: &[FindRow]) -> Result<Vec<FindRow, Heap>, NoMemory>
    ensures { IfOk result (λ live. AreExactly row_key (LivesAmong pool.now) live.items) }
{
    let retired = rows_in(heap.share(), FindState::Retired, pool)?;
    let mut live = Vec::new(heap);
    'rows: for row in pool {
        if lives_beside(&retired, *row) {
            live.push(*row)?;
        }
    }
    Ok(live)
}

// Whether a row is for a companion, or none of these companions has its key.
fn answers_beside(companions: &[FindRow], row: FindRow) -> bool
    requires sorted { IsSorted slice_row_cmp companions.now }
    requires keyed { All (λ other. IsKey other.key) companions.now }
    ensures is { IsTrue result ↔ AnswersBeside companions.now row }
    ensures key { IsKey row.key }
{
    row.state == FindState::Dsym || !has_key(companions, row.key)
}

// The live rows of slices that answer.
fn answering_live_rows(heap: Heap, live: &[FindRow]) -> Result<Vec<FindRow, Heap>, NoMemory>
    ensures { IfOk result (λ rows. AreExactly row_key (λ row. Contains live.now row
        × AnswersIn live.now row) rows.items) }
{
    let companions = rows_in(heap.share(), FindState::Dsym, live)?;
    let mut rows = Vec::new(heap);
    'rows: for row in live {
        if answers_beside(&companions, *row) {
            rows.push(*row)?;
        }
    }
    Ok(rows)
}

// The rows of the slices that answer, each once, in the order of their slices.
fn answering_rows(heap: Heap, pool: &[FindRow]) -> Result<Vec<FindRow, Heap>, NoMemory>
    ensures exactly { IfOk result (λ rows. AreExactly row_key (AnswersAmong pool.now) rows.items) }
    ensures ascending { IfOk result (λ rows. IsStrictlySortedBy slice_row_cmp rows.items) }
{
    let live = live_rows(heap.share(), pool)?;
    let mut rows = answering_live_rows(heap, &live)?;
    rows.sort_unstable_by(|a, b| compare_rows(a, b));
    rows.dedup_by(|a, b| compare_rows(a, b).is_eq());
    Ok(rows)
}

// The keys that no row has.
fn keys_without(
    heap: Heap,
    rows: &[FindRow],
    keys: &[SliceKey],
) -> Result<Vec<SliceKey, Heap>, NoMemory>
    requires sorted { IsSorted slice_row_cmp rows.now }
    requires keyed { All (λ row. IsKey row.key) rows.now }
    ensures { IfOk result (λ absent. AreExactly own_key
        (λ key. Contains keys.now key × (HasKey rows.now key → ⊥)) absent.items) }
{
    let mut absent = Vec::new(heap);
    'keys: for key in keys {
        if !has_key(rows, *key) {
            absent.push(*key)?;
        }
    }
    Ok(absent)
}

// The keys that no row has, each once, in the order of their bytes.
fn absent_keys(
    heap: Heap,
    rows: &[FindRow],
    keys: &[SliceKey],
) -> Result<Vec<SliceKey, Heap>, NoMemory>
    requires sorted { IsSorted slice_row_cmp rows.now }
    requires keyed { All (λ row. IsKey row.key) rows.now }
    ensures exactly { IfOk result (λ absent. AreExactly own_key
        (λ key. Contains keys.now key × (HasKey rows.now key → ⊥)) absent.items) }
    ensures ascending { IfOk result (λ absent. IsStrictlySortedBy slice_key_cmp absent.items) }
{
    let mut absent = keys_without(heap, rows, keys)?;
    absent.sort_unstable_by(|a, b| compare_keys(a, b));
    absent.dedup_by(|a, b| compare_keys(a, b).is_eq());
    Ok(absent)
}

// Writes a line for each key for which no slice answers.
fn push_absent(text: &mut String<Heap>, keys: &[SliceKey]) -> Result<(), NoMemory>
    ensures { OnOk result (string_bytes text.new
        ≡ string_bytes text.old ++ flat_map (λ key. line (absent_text key)) keys.now) }
{
    'keys: for key in keys {
        let absent = Absent(*key);
        writeln!(text, "{absent}")?;
    }
    Ok(())
}

/// The lines of the slices that answer, by the rows of one or several archives, and after them of the keys for which
/// none does. The rows may be in any order, and may be repeated. Fails only if memory runs out.
pub fn slices_lines(
    heap: Heap,
    pool: &[FindRow],
    keys: &[SliceKey],
) -> Result<String<Heap>, NoMemory>
    ensures { IfOk result (λ text. TellsSlices (AnswersAmong pool.now) keys.now (string_bytes text)) }
{
    let rows = answering_rows(heap.share(), pool)?;
    let absent = absent_keys(heap.share(), &rows, keys)?;
    let mut text = String::new(heap);
    push_rows(&mut text, KeyForm::Whole, &rows)?;
    push_absent(&mut text, &absent)?;
    Ok(text)
}
