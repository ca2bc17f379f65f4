//! A slice that is chosen by the indexes of archives, and sent from its archive.

ghost use Rattle.std.specs.Prelude.{◌≡◌, length};
ghost use Rattle.command_common.specs.Inputs.{readers};
ghost use Rattle.command_extract.specs.Evidence.{Chooses};
ghost use Rattle.command_extract.specs.Indexed.{IsFoundAt, extract_at};
ghost use Rattle.command_extract.specs.InnerSteps.{ChoosesTied};
ghost use Rattle.command_extract.specs.declared.place.Place.TheVariants.{Named};

use crate::choice::{Choice, Chosen};
use crate::choosing::choose_in;
use crate::entries::{EntryChoice, choose_entry};
use crate::evidence::SliceEvidence;
use crate::kept::{Kept, send_kept};
use crate::place::Place;
use crate::sending::send_from;
use archive_core::{Archive, Digest, SliceKey};
use byte_device::{Placed, Sink};
use command_common::{CommandFault, bytes_of, uuid_bytes};
use command_given_indexes::{Indexes, KeyPrefix, read_indexes, read_prefixes};
use heap_memory::Heap;
use index_format::IndexPart;
use index_lookup::NamedSlice;

/// Chooses among the slices that the indexes, which were read before with the lengths of their archives, name under a
/// key. The slices are read at their offsets, tested and hashed, and kept.
fn choose_tied<A: Archive + Drop, P: Placed>(
    heap: Heap,
    key: &SliceKey,
    read: &[IndexPart],
    sizes: &[u64],
    archives: &mut [P],
) -> Result<Choice<Place<A>>, CommandFault>
    requires many { length read.now ≡ length archives.old }
    requires sizes { length sizes.now ≡ length archives.old }
    ensures { ChoosesTied A.content key.now read.now sizes.now
        (readers P.whole P.failures archives.old archives.new) result }
{
    let _front = bytes_of(key);
    let kept: A = read_prefixes(&heap, &[KeyPrefix::Key(*key)], read, sizes, archives)?;
    match choose_in(heap, &kept, key, &None)? {
        Choice::One(chosen) => Ok(Choice::One(Chosen {
            place: Place::Kept(Kept {
                archive: kept,
                number: chosen.place,
            }),
            digest: chosen.digest,
            size: chosen.size,
        })),
        Choice::Undecided(rows) => Ok(Choice::Undecided(rows)),
    }
}

/// The choice of a slice that an entry names.
fn choose_named<A>(named: NamedSlice) -> Chosen<Place<A>>
    ensures place { result.place ≡ Named named }
    ensures digest { result.digest ≡ named.row.digest }
    ensures size { result.size ≡ named.size }
{
    let digest = named.row.digest;
    let size = named.size;
    Chosen {
        place: Place::Named(named),
        digest,
        size,
    }
}

/// Chooses a slice by the entries of indexes, of which those under its UUID are read. No slice is read, unless two that
/// answer have one length and are in two archives.
fn choose_by<A: Archive + Drop, I: Placed, P: Placed>(
    heap: Heap,
    indexes: &mut [I],
    archives: &mut [P],
    key: &SliceKey,
    digest: &Option<Digest>,
) -> Result<Choice<Place<A>>, CommandFault>
    requires { length indexes.old ≡ length archives.old }
    ensures { let named = readers I.whole I.failures indexes.old indexes.new in
        Chooses (extract_at named (readers P.whole P.failures archives.old archives.new) key.now digest.now)
        (λ chosen. IsFoundAt A.content named P.whole P.failures archives.old archives.new key.now digest.now
        chosen.place chosen.digest chosen.size) result }
{
    let (read, sizes) = read_indexes(&heap, &[uuid_bytes(key.uuid)], indexes, archives)?;
    match choose_entry(&heap, key, digest, &read)? {
        EntryChoice::One(named) => Ok(Choice::One(choose_named(named))),
        EntryChoice::Undecided(rows) => Ok(Choice::Undecided(rows)),
        EntryChoice::Tied => choose_tied::<A, _>(heap, key, &read, &sizes, archives),
    }
}

impl<'a, A: Archive + Drop, I: Placed, P: Placed> SliceEvidence<A> for Indexes<'a, I, P> {
    type Place = Place<A>;

    ghost extraction = { λ old new key digest.
        extract_at (readers I.whole I.failures old.indexes.now new.indexes.now)
        (readers P.whole P.failures old.archives.now new.archives.now) key digest };

    ghost placed = { λ old new key digest chosen.
        IsFoundAt A.content (readers I.whole I.failures old.indexes.now new.indexes.now) P.whole P.failures
        old.archives.now new.archives.now key digest chosen.place chosen.digest chosen.size };

    fn choose(
        &mut self,
        heap: Heap,
        key: &SliceKey,
        digest: &Option<Digest>,
    ) -> Result<Choice<Place<A>>, CommandFault> {
        choose_by::<A, _, _>(heap, self.indexes, self.archives, key, digest)
    }

    fn send<W: Sink>(
        &mut self,
        heap: Heap,
        chosen: &Chosen<Place<A>>,
        draft: &mut W,
    ) -> Result<(), CommandFault> {
        match &chosen.place {
            Place::Named(named) => send_from(heap, named, self.archives, draft),
            Place::Kept(kept) => send_kept(kept, draft),
        }
    }
}
