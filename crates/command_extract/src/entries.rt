//! Which slice is wanted under a key, by the entries of indexes alone.

ghost use Rattle.std.specs.Prelude.{◌≡◌, ◌∷◌, ◌≢◌, [], IfOk, IfSome, IfNone, length, map};
ghost use Rattle.command_extract.specs.InnerEntries.{IsEntryChoice};

use archive_core::{Digest, FindRow, SliceKey};
use heap_memory::{Heap, NoMemory};
use index_format::IndexPart;
use index_lookup::{NamedSlice, named_among, named_with};

/// The choice of a wanted slice by the entries of indexes.
#[derive(Drop)]
pub(crate) enum EntryChoice {
    /// The slice.
    One(NamedSlice),
    /// None, or several with no preference: the rows of those that answer.
    Undecided(Vec<FindRow, Heap>),
    /// Several that no entry puts in order.
    Tied,
}

/// The only slice, if there is exactly one.
fn only(named: &[NamedSlice]) -> Option<NamedSlice>
    ensures one { IfSome result (λ one. named.now ≡ one ∷ []) }
    ensures other { IfNone result (length named.now ≢ 1) }
{
    if named.len() == 1 {
        Some(named[0])
    } else {
        None
    }
}

/// The rows of slices, in order.
fn rows_of(heap: Heap, named: &[NamedSlice]) -> Result<Vec<FindRow, Heap>, NoMemory>
    ensures { IfOk result (λ rows. rows.items ≡ map (λ one. one.row) named.now) }
{
    named.iter().map(|one| one.row).collect(heap)
}

/// The one slice that answers under a key, or the rows of all that do.
fn answering(heap: &Heap, key: &SliceKey, read: &[IndexPart]) -> Result<EntryChoice, NoMemory>
    ensures { IfOk result (IsEntryChoice key.now None read.now) }
{
    let Some(named) = named_among(heap, key, read)? else {
        return Ok(EntryChoice::Tied);
    };
    match only(&named) {
        Some(one) => Ok(EntryChoice::One(one)),
        None => Ok(EntryChoice::Undecided(rows_of(heap.share(), &named)?)),
    }
}

/// The slice that is wanted under a key, by the entries of these indexes: the one that answers, or one with the digest.
pub(crate) fn choose_entry(
    heap: &Heap,
    key: &SliceKey,
    digest: &Option<Digest>,
    read: &[IndexPart],
) -> Result<EntryChoice, NoMemory>
    ensures { IfOk result (IsEntryChoice key.now digest.now read.now) }
{
    let Some(digest) = digest else {
        return answering(heap, key, read);
    };
    match named_with(heap, key, digest, read)? {
        Some(one) => Ok(EntryChoice::One(one)),
        None => Ok(EntryChoice::Undecided(Vec::new(heap.share()))),
    }
}
