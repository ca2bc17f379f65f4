//! Whether the records of entries follow one another, and their tables do.

ghost use Rattle.std.specs.Prelude.{◌≡◌, ◌↔◌, ◌<◌, ◌^◌, All, IfOk, IsTrue, [], length, map, true};
ghost use Rattle.archive_core.specs.Content.{is_admission};
ghost use Rattle.index_format.specs.Entry.{offset_in};
ghost use Rattle.index_format.specs.Entry.{HasItsFields, claim_in, entry_bytes};
ghost use Rattle.index_format.specs.Text.{AreLaid, FollowOn, PassChecks};

use crate::IndexEntry;
use crate::checking::stored_size;
use crate::ends::MAGIC_LEN;
use crate::numbers::is_admission;
use heap_memory::{Heap, NoMemory};

/// Whether a record is at this offset of the archive, and its table, if it has one, at that offset of the index.
fn follows(entry: &IndexEntry, offset: u128, at: u128) -> bool
    requires { HasItsFields entry.now }
    ensures { let e = entry_bytes entry.now in
        IsTrue result ↔ ((offset_in e ≡ offset) × (is_admission e ≡ true → (claim_in e).offset ≡ at)) }
{
    u128::from(entry.offset) == offset
        && (!is_admission(entry) || u128::from(entry.claim.offset) == at)
}

/// Whether in this order the records follow one another from the magic of their archive, and the tables from that of
/// the index up to this offset.
fn follow_on(order: &[&IndexEntry], end: u64) -> bool
    requires fields { All HasItsFields (map (λ entry. entry.now) order.now) }
    requires few { length order.now < 2 ^ 58 }
    ensures { IsTrue result ↔ FollowOn 8 8 end (map entry_bytes (map (λ entry. entry.now) order.now)) }
{
    let mut offset = u128::from(MAGIC_LEN);
    let mut at = u128::from(MAGIC_LEN);
    'following: for entry in order {
        if !follows(*entry, offset, at) {
            return false;
        }
        offset += u128::from(entry.length);
        at += stored_size(&entry.claim);
    }
    at == u128::from(end)
}

/// The number of entries in memory is less than 2^58.
fn fit_memory(entries: &[IndexEntry])
    ensures { length entries.now < 2 ^ 58 }
{
    let _count = entries.len();
}

/// References to the entries, which are sorted in place of the entries. Fails only if memory runs out.
fn borrowed(heap: Heap, entries: &[IndexEntry]) -> Result<Vec<&IndexEntry, Heap>, NoMemory>
    ensures { IfOk result (λ borrowed. map (λ entry. entry.now) borrowed.items ≡ entries.now) }
{
    entries.iter().collect(heap)
}

/// Whether they follow one another in some order. References are sorted by offset: no entry is copied. Fails only if
/// memory runs out.
pub(crate) fn are_laid(heap: Heap, entries: &[IndexEntry], end: u64) -> Result<bool, NoMemory>
    requires fields { All HasItsFields entries.now }
    requires checked { PassChecks end [] (map entry_bytes entries.now) }
    ensures { IfOk result (λ laid. IsTrue laid ↔ AreLaid end (map entry_bytes entries.now)) }
{
    fit_memory(entries);
    let mut order = borrowed(heap, entries)?;
    order.sort_unstable_by_key(|entry| entry.offset);
    Ok(follow_on(&order, end))
}
