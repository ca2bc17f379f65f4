//! The summary of an index.

ghost use Rattle.std.specs.Prelude.{◌≡◌, ◌++◌, ◌∷◌, IfOk, length, map, take};
ghost use Rattle.archive_core.specs.Key.{IsKey, key_bytes};
ghost use Rattle.index_format.specs.Entry.{placed_bytes, tag_byte};
ghost use Rattle.index_format.specs.Text.{placed_of};
ghost use Rattle.archive_records.specs.Entry.{entry_bytes};
ghost use Rattle.command_given_indexes.specs.Answered.{summary_in};

use archive_core::{Digest, FindState, SliceKey};
use archive_records::{Entry, Summary};
use heap_memory::{Heap, NoMemory};
use index_format::{Index, IndexEntry};

/// The entry of a summary with these parts.
fn entry_with(key: SliceKey, digest: Digest, state: FindState) -> Entry
    ensures entry { entry_bytes result ≡ tag_byte state ∷ (key_bytes key ++ digest.0) }
    ensures key { IsKey key }
    ensures digest { length digest.0 ≡ 32 }
{
    match state {
        FindState::Retired => Entry::Retirement(key, digest),
        FindState::Image | FindState::Dsym => Entry::Admission(key, digest),
    }
}

/// The entry of a summary for an entry of an index.
fn entry_of(entry: &IndexEntry) -> Entry
    ensures { entry_bytes result ≡ take 57 (placed_bytes entry.now) }
{
    entry_with(entry.row.key, entry.row.digest, entry.row.state)
}

/// The entries of a summary for entries of an index, in order.
fn entries_of(heap: Heap, entries: &[IndexEntry]) -> Result<Vec<Entry, Heap>, NoMemory>
    ensures { IfOk result (λ made. map entry_bytes made.items ≡ map (take 57) (map placed_bytes entries.now)) }
{
    let mut made = Vec::new(heap);
    'entries: for entry in entries {
        made.push(entry_of(entry))?;
    }
    Ok(made)
}

/// The summary of an index. Fails only if memory runs out.
pub(crate) fn summary_of(heap: Heap, index: &Index) -> Result<Summary, NoMemory>
    ensures { IfOk result (λ summary. summary ≡ summary_in (placed_of index.now)) }
{
    let entries = entries_of(heap, index.entries())?;
    Ok(Summary::of_entries(entries))
}
