//! The answers of the slices that indexes name under a key, if two of these are tied.

ghost use Rattle.std.specs.Prelude.{◌≡◌, ◌∷◌, [], length};
ghost use Rattle.archive_core.specs.Key.{key_bytes};
ghost use Rattle.command_common.specs.Inputs.{readers};
ghost use Rattle.index_lookup.specs.Among.{AreTied};
ghost use Rattle.command_frames.specs.Asking.{IsAnsweredBySlices, is_stale_entry};
ghost use Rattle.command_frames.specs.InnerAsking.{AsksSlices};
ghost use Rattle.command_frames.specs.InnerKeyReplies.{IsKeyStale, IsKeyReply, reply_to_unread};

use crate::tables::KeyReply;
use archive_core::{Archive, SliceKey, Where};
use byte_device::Placed;
use command_common::{CommandFault, Why};
use command_given_indexes::{KeyPrefix, read_prefixes};
use command_queries::answer_places;
use heap_memory::Heap;
use index_format::IndexPart;

/// Whether an index is stale at an entry.
fn is_stale_entry(why: Why) -> bool
    ensures { result ≡ is_stale_entry why }
{
    match why {
        Why::Stale(entry) => entry.is_some(),
        _ => false,
    }
}

/// The result after a fault of reading slices. If slices are wanted, a changed slice refuses the key alone.
fn reply_to_unread(slices: bool, fault: CommandFault) -> Result<KeyReply, CommandFault>
    ensures { result ≡ reply_to_unread slices fault }
{
    match fault {
        CommandFault::Input(at, why) => {
            if slices && is_stale_entry(why) {
                Ok(KeyReply::Refused(at, why))
            } else {
                Err(CommandFault::Input(at, why))
            }
        }
        CommandFault::Output(written) => Err(CommandFault::Output(written)),
        CommandFault::Report(written) => Err(CommandFault::Report(written)),
        CommandFault::OutOfMemory => Err(CommandFault::OutOfMemory),
    }
}

/// The answers for addresses by the slices that indexes name under a key, with frames if lines are wanted. No slice of
/// another key is read. If slices are wanted, a changed slice refuses the key alone; an archive of another length, and
/// a failed device, refuse all keys.
pub(crate) fn answer_by_slices<A: Archive + Drop, P: Placed>(
    heap: &Heap,
    read: &[IndexPart],
    sizes: &[u64],
    archives: &mut [P],
    key: &SliceKey,
    lines: bool,
    slices: bool,
    places: &[Where],
) -> Result<KeyReply, CommandFault>
    requires many { length read.now ≡ length archives.old }
    requires sizes { length sizes.now ≡ length archives.old }
    requires tied { AreTied (key_bytes key.now) read.now }
    ensures { let known = readers P.whole P.failures archives.old archives.old in
        AsksSlices P.whole P.failures slices (key_bytes key.now ∷ []) read.now sizes.now archives.old archives.new
        result (IsKeyReply (IsAnsweredBySlices known read.now lines key.now) (IsKeyStale known read.now key.now) slices
        places.now) }
{
    match read_prefixes::<A, P>(heap, &[KeyPrefix::Key(*key)], read, sizes, archives) {
        Ok(kept) => {
            let told = answer_places(heap, &kept, key, lines, places)?;
            Ok(KeyReply::Told(told))
        }
        Err(fault) => reply_to_unread(slices, fault),
    }
}
