//! The lines of the slices that answer under keys, made from the entries of indexes.

ghost use Rattle.std.specs.Prelude.{◌≡◌, All, IfOk, length, string_bytes};
ghost use Rattle.archive_core.specs.Part.{is_under};
ghost use Rattle.text_reports.specs.Slices.{TellsSlices};
ghost use Rattle.index_lookup.specs.Among.{all_of};
ghost use Rattle.command_given_indexes.specs.Rows.{AreRowsAmong};
ghost use Rattle.index_format.specs.Tree.{is_under_one};
ghost use Rattle.command_frames.specs.InnerSlices.{AreFollowed};
ghost use Rattle.command_frames.specs.Slices.{IsAnsweringEntryRow};

use crate::named::uuids_of;
use archive_core::{FindRow, SliceKey};
use command_common::uuid_bytes;
use command_given_indexes::rows_with_uuid;
use heap_memory::{Heap, NoMemory};
use index_format::IndexPart;
use text_reports::slices_lines;
use uuid::Uuid;

/// The rows of the entries under a UUID, index by index.
fn rows_in_each(heap: &Heap, uuid: Uuid, read: &[IndexPart]) -> Result<Vec<FindRow, Heap>, NoMemory>
    ensures rows { IfOk result (λ rows. AreRowsAmong (is_under uuid) (all_of read.now) rows.items) }
    ensures long { length uuid ≡ 16 }
{
    let _bytes = uuid_bytes(uuid);
    let mut rows = Vec::new(heap.share());
    'indexes: for index in read {
        let mut more = rows_with_uuid(heap, uuid, index)?;
        rows.append(&mut more)?;
    }
    Ok(rows)
}

/// The rows of the entries under UUIDs.
fn rows_under(
    heap: &Heap,
    uuids: &[Uuid],
    read: &[IndexPart],
) -> Result<Vec<FindRow, Heap>, NoMemory>
    ensures rows { IfOk result (λ rows. AreRowsAmong (is_under_one uuids.now) (all_of read.now) rows.items) }
    ensures long { IfOk result (λ _. All (λ uuid. length uuid ≡ 16) uuids.now) }
{
    let mut rows = Vec::new(heap.share());
    'uuids: for uuid in uuids {
        let mut more = rows_in_each(heap, *uuid, read)?;
        rows.append(&mut more)?;
    }
    Ok(rows)
}

/// The lines of the slices that answer under these keys, and of the keys without such a slice.
fn slices_text(heap: &Heap, keys: &[SliceKey], read: &[IndexPart]) -> Result<String<Heap>, NoMemory>
    ensures { IfOk result (λ text.
        TellsSlices (IsAnsweringEntryRow read.now keys.now) keys.now (string_bytes text)) }
{
    let uuids = uuids_of(heap.share(), keys)?;
    let pool = rows_under(heap, &uuids, read)?;
    slices_lines(heap.share(), &pool, keys)
}

/// The lines of answers; if they are wanted, followed by those of the slices and of refusals.
pub(crate) fn with_slices(
    heap: &Heap,
    slices: bool,
    keys: &[SliceKey],
    read: &[IndexPart],
    answers: Vec<u8, Heap>,
    refused: &str,
) -> Result<Vec<u8, Heap>, NoMemory>
    ensures { IfOk result (λ text. AreFollowed slices read.now keys.now answers.items refused.now text.items) }
{
    if !slices {
        return Ok(answers);
    }
    let mut lines = slices_text(heap, keys, read)?;
    lines.push_str(refused)?;
    let mut text = answers;
    text.extend_from_slice(lines.as_bytes())?;
    Ok(text)
}
