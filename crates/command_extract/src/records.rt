//! A slice that is chosen and sent by the records of archives.

ghost use Rattle.std.specs.Prelude.{◌<◌, length};
ghost use Rattle.command_common.specs.Inputs.{reader, readers};
ghost use Rattle.command_extract.specs.Evidence.{Chooses};
ghost use Rattle.command_extract.specs.Extract.{extract, extract_first};
ghost use Rattle.command_extract.specs.Kept.{KeepsWanted};

use crate::choice::{Choice, Chosen};
use crate::choosing::choose_in;
use crate::evidence::SliceEvidence;
use crate::kept::{Kept, send_kept};
use archive_core::{Archive, Digest, SliceKey};
use archive_from_records::Under;
use byte_device::{Sink, Source};
use command_common::{CommandFault, Records, bytes_of, first_and_rest, read_parts};
use heap_memory::Heap;

/// Chooses a slice from an archive and others, which are read one after another, each to its end. Their records under
/// the key are kept.
fn choose_together<A: Archive + Drop, S: Source>(
    heap: Heap,
    archive: &mut S,
    others: &mut [S],
    key: &SliceKey,
    digest: &Option<Digest>,
) -> Result<Choice<Kept<A>>, CommandFault>
    ensures { let command = extract (reader S.left S.failures archive.old archive.new)
        (readers S.left S.failures others.old others.new) key.now digest.now in
        Chooses command (λ chosen. KeepsWanted command key.now (A.content chosen.place.archive) chosen.place.number
        chosen.digest chosen.size) result }
{
    let prefix = bytes_of(key);
    let kept: A = read_parts(heap.share(), &Under(&prefix), archive, others)?;
    match choose_in(heap, &kept, key, digest)? {
        Choice::One(chosen) => Ok(Choice::One(Chosen {
            place: Kept {
                archive: kept,
                number: chosen.place,
            },
            digest: chosen.digest,
            size: chosen.size,
        })),
        Choice::Undecided(rows) => Ok(Choice::Undecided(rows)),
    }
}

/// Chooses a slice from archives.
fn choose_first<A: Archive + Drop, S: Source>(
    heap: Heap,
    archives: &mut [S],
    key: &SliceKey,
    digest: &Option<Digest>,
) -> Result<Choice<Kept<A>>, CommandFault>
    requires { 0 < length archives.old }
    ensures { let command = extract_first (readers S.left S.failures archives.old archives.new) key.now digest.now in
        Chooses command (λ chosen. KeepsWanted command key.now (A.content chosen.place.archive) chosen.place.number
        chosen.digest chosen.size) result }
{
    let (archive, others) = first_and_rest(archives);
    choose_together::<A, _>(heap, archive, others, key, digest)
}

impl<'a, A: Archive + Drop, S: Source> SliceEvidence<A> for Records<'a, S> {
    type Place = Kept<A>;

    ghost extraction = { λ old new key digest.
        extract_first (readers S.left S.failures old.archives.now new.archives.now) key digest };

    ghost placed = { λ old new key digest chosen.
        KeepsWanted (extract_first (readers S.left S.failures old.archives.now new.archives.now) key digest) key
        (A.content chosen.place.archive) chosen.place.number chosen.digest chosen.size };

    fn choose(
        &mut self,
        heap: Heap,
        key: &SliceKey,
        digest: &Option<Digest>,
    ) -> Result<Choice<Kept<A>>, CommandFault> {
        choose_first::<A, _>(heap, self.archives, key, digest)
    }

    fn send<W: Sink>(
        &mut self,
        _heap: Heap,
        chosen: &Chosen<Kept<A>>,
        draft: &mut W,
    ) -> Result<(), CommandFault> {
        send_kept(&chosen.place, draft)
    }
}
