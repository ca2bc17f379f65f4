//! The answers of an entry's table for several addresses, and those of several entries.

ghost use Rattle.std.specs.Prelude.{◌≡◌, ◌<◌, ◌^◌, ℕ, List, Contains, IfErr, IfOk, IsOk, MatchOption, None, OnOk, Some};
ghost use Rattle.std.specs.Prelude.{length, map, true};
ghost use Rattle.std.specs.List.{AllZip};
ghost use Rattle.table_checked_pages.specs.Pages.{AreStored};
ghost use Rattle.table_checked_pages.specs.Views.{claim_view};
ghost use Rattle.table_checked_pages.specs.Reading.{ReadsStored};
ghost use Rattle.table_symbols.specs.Opened.{IsOpened, IsOpenedIn};
ghost use Rattle.table_symbols.specs.Table.{TableParts, table_bytes};
ghost use Rattle.table_source_frames.specs.SliceTable.{IsSliceTable};
ghost use Rattle.index_lookup.specs.Among.{EntryAt};
ghost use Rattle.index_lookup.specs.AmongAsked.{AreThere, AsksAmong, HasNoTable, HaveTexts, IsFirstAmong};
ghost use Rattle.index_lookup.specs.Told.{HasNoLinesBy, IsToldBy};
ghost use Rattle.index_lookup.specs.Views.{IsColumnAt, told_view};
ghost use Rattle.index_lookup.specs.InnerAnswering.{AsksOne, IsBaseBy, IsColumnOf, IsOwnOpened, IsTableBy, entry_at};

use crate::AnswerFault;
use crate::answering::Answering;
use crate::answers::{Answers, EntryAnswers};
use crate::lines::frames_if;
use crate::numbered::Numbered;
use crate::own::own_of;
use archive_core::Where;
use archive_records::digest_in;
use byte_device::Placed;
use heap_memory::Heap;
use table_checked_pages::{CheckFault, Claim};
use table_symbols::{OwnedFound, Table};

/// The answers of an opened table for several addresses.
fn owns_of<P: Placed>(
    heap: &Heap,
    device: &mut P,
    table: &mut Table,
    asked: &[Where],
) -> Result<Vec<Option<OwnedFound>, Heap>, CheckFault>
    ensures claim { OnOk result (table.new.pages.claim ≡ table.old.pages.claim) }
    ensures keeps { OnOk result ((text : List ℕ) (t : TableParts) → P.whole device.old ≡ Some text
        → IsOpened table.old text t → IsOpened table.new text t) }
    ensures bytes { OnOk result ((text all : List ℕ) → P.whole device.old ≡ Some text
        → IsOpenedIn table.old text all → IsOpenedIn table.new text all) }
    ensures read { ReadsStored P.whole P.failures device.old device.new result
        (λ text owns. AllZip (IsOwnOpened table.old text) asked.now (map told_view owns.items))
        (λ text. (t : TableParts) → IsOpened table.old text t
        → AreStored text (claim_view table.old.pages.claim) (table_bytes t) → ⊥) }
{
    let mut owns = Vec::new(heap.share());
    'asked: for place in asked {
        let found = own_of(heap.share(), device, table, *place)?;
        if let Err(_) = owns.push(found) {
            return Err(CheckFault::OutOfMemory);
        }
    }
    Ok(owns)
}

/// The answers for several addresses of the table of a claim, after the opened table and the `vmaddr` of the first
/// segment named `__TEXT`.
fn owns_by_claim<P: Placed>(
    heap: &Heap,
    device: &mut P,
    claim: Claim,
    asked: &[Where],
) -> Result<(Table, Option<u64>, Vec<Option<OwnedFound>, Heap>), CheckFault>
    ensures claim { IfOk result (λ told. told.0.pages.claim ≡ claim) }
    ensures read { ReadsStored P.whole P.failures device.old device.new result
        (λ text told. IsTableBy text (claim_view claim) told.0 × IsBaseBy text (claim_view claim) told.1
        × AllZip (IsToldBy text (claim_view claim)) asked.now (map told_view told.2.items))
        (λ text. length text < 2 ^ 64 → (slice all : List ℕ) → IsSliceTable slice all
        → AreStored text (claim_view claim) all → ⊥) }
{
    let mut table = Table::open(heap.share(), device, claim)?;
    let base = table.text_base();
    let owns = owns_of(heap, device, &mut table, asked)?;
    Ok((table, base, owns))
}

/// The answers of an entry's table for several addresses, and if lines are asked for their frames; none if lines are
/// asked for and it has none. The symbols are looked up before the frames.
fn column_of<P: Placed>(
    heap: &Heap,
    device: &mut P,
    numbered: &Numbered,
    lines: bool,
    asked: &[Where],
) -> Result<Option<EntryAnswers>, CheckFault>
    ensures wanted { IfOk result (λ found. found ≡ None → lines ≡ true) }
    ensures read { ReadsStored P.whole P.failures device.old device.new result
        (λ text found. MatchOption found (HasNoLinesBy text (claim_view numbered.now.entry.claim))
        (λ column. IsColumnOf text lines asked.now (entry_at numbered.now) column))
        (λ text. HasNoTable text (entry_at numbered.now).entry) }
{
    let claim = numbered.entry.claim;
    let (table, base, owns) = owns_by_claim(heap, device, claim, asked)?;
    let Some(frames) = frames_if(heap, device, table, lines, base, asked)? else {
        return Ok(None);
    };
    let digest = digest_in(&numbered.entry.bytes());
    Ok(Some(EntryAnswers {
        digest,
        owns,
        frames,
    }))
}

/// The answers of an entry's table for several addresses. The device is that of its index.
fn told_by<P: Placed>(
    heap: &Heap,
    device: &mut P,
    numbered: &Numbered,
    lines: bool,
    asked: &[Where],
) -> Result<EntryAnswers, AnswerFault>
    ensures { AsksOne P.whole P.failures lines (entry_at numbered.now) device.old device.new result
        (λ text column. IsColumnOf text lines asked.now (entry_at numbered.now) column) }
{
    let input = numbered.input;
    let entry = numbered.number;
    let offset = numbered.entry.claim.offset;
    match column_of(heap, device, numbered, lines, asked) {
        Ok(Some(column)) => Ok(column),
        Ok(None) => Err(AnswerFault::NoLines { input, entry }),
        Err(CheckFault::Changed) => Err(AnswerFault::Damaged { input, entry }),
        Err(CheckFault::Device) => Err(AnswerFault::Device { input, offset }),
        Err(CheckFault::OutOfMemory) => Err(AnswerFault::OutOfMemory),
    }
}

/// The same, with the device of its index among several.
fn told_at<P: Placed>(
    heap: &Heap,
    devices: &mut [P],
    numbered: &Numbered,
    lines: bool,
    asked: &[Where],
) -> Result<EntryAnswers, AnswerFault>
    requires { numbered.now.input < length devices.old }
    ensures { (answering : List EntryAt) → Contains answering (entry_at numbered.now)
        → AsksAmong P.whole P.failures lines answering devices.old devices.new result
        (λ texts column. IsColumnAt texts lines asked.now (entry_at numbered.now) column) }
{
    told_by(
        heap,
        &mut devices[numbered.input as usize],
        numbered,
        lines,
        asked,
    )
}

/// The answers of entries' tables for several addresses, a column for each entry. One table is open at a time.
fn told_by_each<P: Placed>(
    heap: &Heap,
    devices: &mut [P],
    answering: &[Numbered],
    lines: bool,
    asked: &[Where],
) -> Result<Vec<EntryAnswers, Heap>, AnswerFault>
    requires { AreThere devices.old (map entry_at answering.now) }
    ensures asks { AsksAmong P.whole P.failures lines (map entry_at answering.now) devices.old devices.new result
        (λ texts columns. AllZip (IsColumnAt texts lines asked.now) (map entry_at answering.now) columns.items) }
    ensures first { IfErr result (λ fault. (texts : List (List ℕ)) → HaveTexts P.whole devices.old texts
        → IsFirstAmong texts lines asked.now (map entry_at answering.now) fault) }
{
    let mut columns = Vec::new(heap.share());
    'answering: for numbered in answering {
        let column = told_at(heap, devices, numbered, lines, asked)?;
        if let Err(_) = columns.push(column) {
            return Err(AnswerFault::OutOfMemory);
        }
    }
    Ok(columns)
}

/// The answers for several addresses of the tables of the entries that answer, and if lines are asked for the frames in
/// each slice. The devices are those of the indexes, in their order. One may be missing if none of these entries is in
/// its index. One table is open at a time.
///
/// # Errors
///
/// `Damaged` for the first entry whose table does not match the entry's claim, or `NoLines` for the first whose table
/// has no lines, if they are asked for. The entries are asked in their order, each for its symbols before its lines.
pub fn answer_among<P: Placed>(
    heap: &Heap,
    devices: &mut [P],
    answering: &Answering,
    lines: bool,
    asked: &[Where],
) -> Result<Answers, AnswerFault>
    requires { AreThere devices.old answering.now }
    ensures asks { AsksAmong P.whole P.failures lines answering.now devices.old devices.new result
        (λ texts answers. AllZip (IsColumnAt texts lines asked.now) answering.now answers.columns.items) }
    ensures first { IfErr result (λ fault. (texts : List (List ℕ)) → HaveTexts P.whole devices.old texts
        → IsFirstAmong texts lines asked.now answering.now fault) }
{
    let columns = told_by_each(heap, devices, answering.entries(), lines, asked)?;
    Ok(Answers { columns })
}
