//! The entries of several indexes that answer for a key.

ghost use Rattle.std.specs.Prelude.{IfOk, MatchOption, map};
ghost use Rattle.archive_core.specs.Key.{key_bytes};
ghost use Rattle.index_lookup.specs.Among.{AreAnsweringAmong, AreTied};

use crate::live::answering_entries_under;
use crate::numbered::Numbered;
use crate::order::{are_tied, keep_first_index, sort_by_rank};
use archive_core::{SliceKey, key_prefix};
use heap_memory::{Heap, NoMemory};
use index_format::IndexPart;
use std::marker::Model;

/// Entries of several indexes that answer together, in the order of their records. A contract sees each with the number
/// of its index, its own number in the index, both from 0, and its bytes.
#[derive(Drop)]
pub struct Answering {
    entries: Vec<Numbered, Heap>,
}

impl Model for Answering {
    ghost use Rattle.std.specs.Prelude.{List, map};
    ghost use Rattle.index_lookup.specs.Among.{EntryAt};
    ghost use Rattle.index_lookup.specs.InnerAnswering.{entry_at};

    ghost Value = { List EntryAt };

    ghost view = { λ answering. map entry_at answering.entries.items };
}

impl Answering {
    ghost use Rattle.std.specs.Prelude.{◌≡◌, map};
    ghost use Rattle.index_lookup.specs.InnerAnswering.{entry_at};

    /// Creates a value with these entries.
    fn of_entries(entries: Vec<Numbered, Heap>) -> Answering
        ensures { result ≡ map entry_at entries.items }
    {
        Answering { entries }
    }

    /// The entries in their order.
    pub(crate) fn entries(&self) -> &[Numbered]
        ensures { map entry_at result.now ≡ self.now }
    {
        &self.entries
    }
}

/// The entries of these indexes that answer for a key, in the order of their records. Among the admissions with the key
/// that no retirement of any index covers, the companions answer; if there are none, all of them do. Each slice answers
/// once, with its entry in the first index.
///
/// `None` if the entries do not determine the order: two slices of one length answer that are in two archives. Fails
/// only if memory runs out.
pub fn answering_entries(
    heap: &Heap,
    key: &SliceKey,
    indexes: &[IndexPart],
) -> Result<Option<Answering>, NoMemory>
    ensures { IfOk result (λ found. MatchOption found (AreTied (key_bytes key.now) indexes.now)
        (λ answering. AreAnsweringAmong (key_bytes key.now) indexes.now answering)) }
{
    let mut entries = answering_entries_under(heap, &key_prefix(key), indexes)?;
    sort_by_rank(&mut entries);
    if are_tied(&entries) {
        return Ok(None);
    }
    keep_first_index(&mut entries);
    Ok(Some(Answering::of_entries(entries)))
}
