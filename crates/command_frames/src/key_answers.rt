//! The answers of indexes for the addresses of frames, key by key.

ghost use Rattle.std.specs.Prelude.{◌≡◌, ◌∷◌, [], length};
ghost use Rattle.archive_core.specs.Key.{key_bytes};
ghost use Rattle.command_common.specs.Inputs.{readers};
ghost use Rattle.index_lookup.specs.AmongAsked.{HaveTexts};
ghost use Rattle.command_frames.specs.Asking.{IsAnsweredAt};
ghost use Rattle.command_frames.specs.InnerAsking.{AsksBy, AsksKeys, IsRefusedUnder};
ghost use Rattle.command_frames.specs.InnerKeyReplies.{AreTold, IsKeyReply, IsRefusedAfter, IsRefusedAt};

use crate::places::AskedKey;
use crate::tables::{KeyReply, answer_by_tables};
use crate::tied::answer_by_slices;
use archive_core::{Archive, SliceKey, Where};
use byte_device::Placed;
use command_common::CommandFault;
use heap_memory::Heap;
use index_format::IndexPart;

/// A key that was asked for, and the answers for its addresses, or its refusal.
#[derive(Drop)]
pub(crate) struct KeyAnswers<'k> {
    pub(crate) asked: &'k AskedKey,
    pub(crate) told: KeyReply,
}

/// The answers for addresses under a key: by the tables of the indexes, or by the slices that these name under it, if
/// two are tied.
fn answer_key<A: Archive + Drop, I: Placed, P: Placed>(
    heap: &Heap,
    read: &[IndexPart],
    sizes: &[u64],
    indexes: &mut [I],
    archives: &mut [P],
    key: &SliceKey,
    lines: bool,
    slices: bool,
    places: &[Where],
) -> Result<KeyReply, CommandFault>
    requires same { length read.now ≡ length indexes.old }
    requires many { length read.now ≡ length archives.old }
    requires sizes { length sizes.now ≡ length archives.old }
    ensures { let known = readers P.whole P.failures archives.old archives.old in
        AsksKeys I.whole I.failures P.whole P.failures lines slices (key_bytes key.now ∷ []) places.now read.now
        sizes.now indexes.old indexes.new archives.old archives.new result
        (IsKeyReply (IsAnsweredAt (HaveTexts I.whole indexes.old) known read.now lines key.now)
        (IsRefusedAt (HaveTexts I.whole indexes.old) known read.now lines key.now places.now) slices places.now) }
{
    match answer_by_tables(heap, read, indexes, key, lines, slices, places)? {
        Some(told) => Ok(told),
        None => answer_by_slices::<A, P>(heap, read, sizes, archives, key, lines, slices, places),
    }
}

/// The answers under keys, in order; the fault is that of the first key that has one. If slices are wanted, a table
/// that was changed or has no lines, and a slice that was changed, refuse their key alone.
pub(crate) fn answer_keys<'k, A: Archive + Drop, I: Placed, P: Placed>(
    heap: &Heap,
    read: &[IndexPart],
    sizes: &[u64],
    indexes: &mut [I],
    archives: &mut [P],
    lines: bool,
    slices: bool,
    asked: &'k [AskedKey],
) -> Result<Vec<KeyAnswers<'k>, Heap>, CommandFault>
    requires same { length read.now ≡ length indexes.old }
    requires many { length read.now ≡ length archives.old }
    requires sizes { length sizes.now ≡ length archives.old }
    ensures { let known = readers P.whole P.failures archives.old archives.old in
        let IsSaid = IsAnsweredAt (HaveTexts I.whole indexes.old) known read.now lines in
        let IsRefused = IsRefusedAt (HaveTexts I.whole indexes.old) known read.now lines in
        AsksBy I.whole I.failures P.whole P.failures indexes.old indexes.new archives.old archives.new result
        (λ told. AreTold IsSaid IsRefused slices asked.now told.items)
        (λ at why. IsRefusedAfter IsSaid IsRefused slices asked.now
        (λ keys places. IsRefusedUnder I.whole I.failures P.whole P.failures lines slices read.now sizes.now
        indexes.old indexes.new archives.old archives.new keys places at why)) }
{
    let mut told = Vec::new(heap.share());
    'keys: for one in asked {
        let answers = answer_key::<A, I, P>(
            heap,
            read,
            sizes,
            indexes,
            archives,
            &one.key,
            lines,
            slices,
            &one.places,
        )?;
        told.push(KeyAnswers {
            asked: one,
            told: answers,
        })?;
    }
    Ok(told)
}
