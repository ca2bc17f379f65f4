//! The records that an index names in its archive, read and joined.

ghost use Rattle.std.specs.Prelude.{◌≡◌, IfErr, IfSome, OnOk, length, map};
ghost use Rattle.std.specs.FinSet as set;
ghost use Rattle.archive_core.specs.Content.{content_of, joined};
ghost use Rattle.archive_core.specs.Record.{record_bytes};
ghost use Rattle.byte_device.specs.Devices.{FailsWithin};
ghost use Rattle.byte_device.specs.Places.{HasSize};
ghost use Rattle.index_format.specs.Places.{FailsUnder};
ghost use Rattle.index_format.specs.Text.{placed_in};
ghost use Rattle.command_common.specs.Inputs.{ReadsInput, reader};
ghost use Rattle.index_format.specs.Gathering.{AreGatheredUnder, IsEntryFault, ReadsPlaces};
ghost use Rattle.command_given_indexes.specs.Prefixes.{FailsFor, FailsUnderOne, HasLength, TellsPlace, prefix_bytes};
ghost use Rattle.command_given_indexes.specs.InnerParts.{HasJoinedNamed, HaveGathered, IsFaultAmong, IsFaultUnder};
ghost use Rattle.command_given_indexes.specs.InnerParts.{IsNamedIn};
ghost use Rattle.command_given_indexes.specs.InnerParts.{told_fault};
ghost use Rattle.command_given_indexes.specs.Together.{IsRefusedAtPlaces};

use crate::inputs::unread;
use crate::prefixes::{KeyPrefix, key_of};
use archive_core::{Archive, Operation, take_all};
use byte_device::Placed;
use command_common::{CommandFault, InputName, Why, uuid_bytes};
use heap_memory::{Heap, NoMemory};
use index_format::{IndexPart, PlaceFault, archive_of, gather_at, indexed_size};

/// Gathers the records under a prefix, at the offsets in an index, after those that were gathered before.
fn gather_prefix<P: Placed>(
    heap: &Heap,
    gathered: &mut Vec<Operation, Heap>,
    prefix: &KeyPrefix,
    index: &IndexPart,
    device: &mut P,
    size: u64,
) -> Result<(), PlaceFault>
    requires { HasSize (P.whole device.old) size }
    ensures { ReadsPlaces P.whole P.failures device.old device.new result
        (λ _. AreGatheredUnder (P.whole device.old) (prefix_bytes prefix.now) (placed_in index.now)
        (map record_bytes gathered.old.items) (map record_bytes gathered.new.items))
        (IsEntryFault (prefix_bytes prefix.now) (placed_in index.now))
        (FailsUnder (FailsWithin P.whole P.failures P.unread device.old device.new) (prefix_bytes prefix.now)
        (placed_in index.now)) }
{
    match prefix {
        KeyPrefix::Uuid(uuid) => {
            gather_at(heap, gathered, &uuid_bytes(*uuid), index, device, size)
        }
        KeyPrefix::Key(key) => gather_at(heap, gathered, &key_of(*key), index, device, size),
    }
}

/// Gathers the records under each of these prefixes, at the offsets in an index.
fn gather_prefixes<P: Placed>(
    heap: &Heap,
    gathered: &mut Vec<Operation, Heap>,
    prefixes: &[KeyPrefix],
    index: &IndexPart,
    device: &mut P,
    size: u64,
) -> Result<(), PlaceFault>
    requires { HasSize (P.whole device.old) size }
    ensures { ReadsPlaces P.whole P.failures device.old device.new result
        (λ _. HaveGathered (P.whole device.old) (map prefix_bytes prefixes.now) (placed_in index.now)
        (map record_bytes gathered.old.items) (map record_bytes gathered.new.items))
        (IsFaultAmong (map prefix_bytes prefixes.now) (placed_in index.now))
        (FailsUnderOne (FailsWithin P.whole P.failures P.unread device.old device.new) (map prefix_bytes prefixes.now)
        (placed_in index.now)) }
{
    'prefixes: for prefix in prefixes {
        gather_prefix(heap, gathered, prefix, index, device, size)?;
    }
    Ok(())
}

/// Joins all gathered operations at once: a join for each prefix would traverse the kept archive each time.
fn join_gathered<A: Archive + Drop>(
    heap: &Heap,
    kept: &mut A,
    gathered: Vec<Operation, Heap>,
) -> Result<(), NoMemory>
    ensures { OnOk result (A.content kept.new
        ≡ joined (A.content kept.old) (content_of (set.from_list (map record_bytes gathered.items)))) }
{
    let part: A = archive_of(heap.share(), gathered)?;
    take_all(kept, part)?;
    Ok(())
}

/// Joins the records under these prefixes, at the offsets in an index of an archive, which has this length.
fn join_prefixes<A: Archive + Drop, P: Placed>(
    heap: &Heap,
    kept: &mut A,
    prefixes: &[KeyPrefix],
    index: &IndexPart,
    size: u64,
    device: &mut P,
) -> Result<(), PlaceFault>
    ensures { ReadsPlaces P.whole P.failures device.old device.new result
        (λ _. IfSome (P.whole device.old) (λ text. length text ≡ size) × HasJoinedNamed (P.whole device.old)
        (map prefix_bytes prefixes.now) (placed_in index.now) (A.content kept.old) (A.content kept.new))
        (IsFaultUnder (map prefix_bytes prefixes.now) (placed_in index.now) size)
        (FailsFor (P.unmeasured device.old device.new)
        (FailsWithin P.whole P.failures P.unread device.old device.new) (map prefix_bytes prefixes.now)
        (placed_in index.now)) }
{
    let _held = kept.len();
    let found = indexed_size(u128::from(size), device)?;
    let mut gathered = Vec::new(heap.share());
    gather_prefixes(heap, &mut gathered, prefixes, index, device, found)?;
    match join_gathered(heap, kept, gathered) {
        Ok(()) => Ok(()),
        Err(NoMemory) => Err(PlaceFault::OutOfMemory),
    }
}

/// The fault that a command reports for a fault of the archive with this number.
fn told(number: u64, fault: PlaceFault) -> CommandFault
    ensures { result ≡ told_fault number fault }
{
    match fault {
        PlaceFault::Stale(entry) => CommandFault::Input(
            InputName::Index(number),
            Why::Stale(entry),
        ),
        PlaceFault::Device(offset) => unread(number, offset),
        PlaceFault::OutOfMemory => CommandFault::OutOfMemory,
    }
}

/// Joins the records that an index names in its archive under each of these prefixes, if the archive has this length.
/// Both have this number on the command line.
pub(crate) fn join_archive<A: Archive + Drop, P: Placed>(
    heap: &Heap,
    kept: &mut A,
    number: u64,
    prefixes: &[KeyPrefix],
    tables: &IndexPart,
    size: u64,
    archive: &mut P,
) -> Result<(), CommandFault>
    ensures read { let sought = map prefix_bytes prefixes.now in
        ReadsInput (reader P.whole P.failures archive.old archive.new) result
        (λ archive _. IsNamedIn archive sought (placed_in tables.now) (A.content kept.old) (A.content kept.new))
        (λ archive. IsRefusedAtPlaces sought number archive tables.now size) }
    ensures length { OnOk result (HasLength (reader P.whole P.failures archive.old archive.new) size) }
    ensures place { IfErr result (TellsPlace (λ named offset. (named ≡ number)
        × FailsFor (P.unmeasured archive.old archive.new)
        (FailsWithin P.whole P.failures P.unread archive.old archive.new) (map prefix_bytes prefixes.now)
        (placed_in tables.now) offset)) }
    ensures kept { P.whole archive.new ≡ P.whole archive.old }
{
    match join_prefixes(heap, kept, prefixes, tables, size, archive) {
        Ok(()) => Ok(()),
        Err(fault) => Err(told(number, fault)),
    }
}
