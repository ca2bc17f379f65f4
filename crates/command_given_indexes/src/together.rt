//! Several archives that are read by their indexes.

ghost use Rattle.std.specs.Prelude.{◌≡◌, IfErr, IfOk, OnOk, length, map};
ghost use Rattle.std.specs.List.Sorted.{IsStrictlySortedBy};
ghost use Rattle.std.specs.Ordering.{nat_cmp};
ghost use Rattle.std.specs.Cmp.Lexicographic.{slice_cmp};
ghost use Rattle.command_common.specs.Inputs.{EachUnfailed, ReadsInputs, readers};
ghost use Rattle.command_given_indexes.specs.Prefixes.{FailsAt, TellsPlace, prefix_bytes};
ghost use Rattle.command_given_indexes.specs.InnerParts.{HaveJoinedGroups};
ghost use Rattle.command_given_indexes.specs.Several.{AreRefusedTogether, AreUnfailedTogether, HoldTogether};
ghost use Rattle.command_given_indexes.specs.Together.{AreAllKept, AreReadWith, HaveLengths, HaveSameBytes, HoldNamed};
ghost use Rattle.command_given_indexes.specs.Together.{IsFirstRefusedAtPlaces, IsFirstRefusedByIndex};

use crate::inputs::read_matching_part;
use crate::parts::join_archive;
use crate::prefixes::KeyPrefix;
use archive_core::Archive;
use byte_device::Placed;
use command_common::CommandFault;
use heap_memory::Heap;
use index_format::IndexPart;

/// Reads the entries under these UUIDs of the indexes of archives, and tests that the archives have the lengths stated
/// there, in the order of the command line: each index, and then the length of its archive. These entries are kept in
/// memory, and the lengths are returned beside them.
///
/// # Errors
///
/// `Input` for the first index or archive that is refused; `OutOfMemory`.
pub fn read_indexes<I: Placed, P: Placed>(
    heap: &Heap,
    uuids: &[[u8; 16]],
    indexes: &mut [I],
    archives: &mut [P],
) -> Result<(Vec<IndexPart, Heap>, Vec<u64, Heap>), CommandFault>
    requires ascending { IsStrictlySortedBy (slice_cmp nat_cmp) uuids.now }
    requires many { length indexes.old ≡ length archives.old }
    ensures read { let named = readers I.whole I.failures indexes.old indexes.new in
        let known = readers P.whole P.failures archives.old archives.new in
        ReadsInputs result (λ read. AreReadWith uuids.now named known read.0.items)
        (IsFirstRefusedByIndex uuids.now named known)
        (EachUnfailed named × EachUnfailed known) }
    ensures lengths { IfOk result (λ read. HaveLengths (readers P.whole P.failures archives.old archives.new)
        read.1.items) }
    ensures kept { OnOk result (AreAllKept I.whole I.failures indexes.old indexes.new
        × AreAllKept P.whole P.failures archives.old archives.new) }
{
    let mut read = Vec::new(heap.share());
    let mut sizes = Vec::new(heap.share());
    'indexes: for number in 0..indexes.len() {
        let (tables, size) = read_matching_part(
            heap,
            number as u64,
            uuids,
            &mut indexes[number],
            &mut archives[number],
        )?;
        read.push(tables)?;
        sizes.push(size)?;
    }
    Ok((read, sizes))
}

/// Joins the records under these prefixes in each of these archives, in order, if it has this length: the slices that
/// the entries of its index name are read at their offsets, tested and hashed.
fn join_archives<A: Archive + Drop, P: Placed>(
    heap: &Heap,
    kept: &mut A,
    prefixes: &[KeyPrefix],
    read: &[IndexPart],
    sizes: &[u64],
    archives: &mut [P],
) -> Result<(), CommandFault>
    requires many { length read.now ≡ length archives.old }
    requires sizes { length sizes.now ≡ length archives.old }
    ensures read { let sought = map prefix_bytes prefixes.now in
        let known = readers P.whole P.failures archives.old archives.new in
        ReadsInputs result
        (λ _. HaveJoinedGroups sought known read.now (A.content kept.old) (A.content kept.new))
        (IsFirstRefusedAtPlaces sought known read.now sizes.now) (EachUnfailed known) }
    ensures lengths { OnOk result (HaveLengths (readers P.whole P.failures archives.old archives.new) sizes.now) }
    ensures place { IfErr result (TellsPlace (FailsAt P.whole P.failures P.unread P.unmeasured
        (map prefix_bytes prefixes.now) archives.old archives.new read.now)) }
    ensures kept { HaveSameBytes P.whole archives.old archives.new }
{
    'archives: for number in 0..read.len() {
        join_archive(
            heap,
            kept,
            number as u64,
            prefixes,
            &read[number],
            sizes[number],
            &mut archives[number],
        )?;
    }
    Ok(())
}

/// Reads the records of archives under these prefixes, after their indexes were read: the slices that these name, at
/// their offsets, in the order of the command line. Before that, the length of each archive is compared again with the
/// one that its index tells. An archive keeps its bytes even if one is refused, so that others may be read after that.
///
/// # Errors
///
/// `Input` for the first archive that is refused, or whose index names another; `OutOfMemory`.
pub fn read_prefixes<A: Archive + Drop, P: Placed>(
    heap: &Heap,
    prefixes: &[KeyPrefix],
    read: &[IndexPart],
    sizes: &[u64],
    archives: &mut [P],
) -> Result<A, CommandFault>
    requires many { length read.now ≡ length archives.old }
    requires sizes { length sizes.now ≡ length archives.old }
    ensures read { let sought = map prefix_bytes prefixes.now in
        let known = readers P.whole P.failures archives.old archives.new in
        ReadsInputs result (λ kept. HoldNamed sought known read.now (A.content kept))
        (IsFirstRefusedAtPlaces sought known read.now sizes.now) (EachUnfailed known) }
    ensures lengths { OnOk result (HaveLengths (readers P.whole P.failures archives.old archives.new) sizes.now) }
    ensures place { IfErr result (TellsPlace (FailsAt P.whole P.failures P.unread P.unmeasured
        (map prefix_bytes prefixes.now) archives.old archives.new read.now)) }
    ensures kept { HaveSameBytes P.whole archives.old archives.new }
{
    let mut kept = A::empty(heap.share());
    join_archives(heap, &mut kept, prefixes, read, sizes, archives)?;
    Ok(kept)
}

/// Reads the records of archives under these prefixes: first the entries under these UUIDs of all their indexes, as
/// [`read_indexes`] does, and then the slices that these name, as [`read_prefixes`] does.
///
/// # Errors
///
/// Those of the two, in this order.
pub(crate) fn read_archives_by_indexes<A: Archive + Drop, I: Placed, P: Placed>(
    heap: &Heap,
    uuids: &[[u8; 16]],
    prefixes: &[KeyPrefix],
    indexes: &mut [I],
    archives: &mut [P],
) -> Result<A, CommandFault>
    requires ascending { IsStrictlySortedBy (slice_cmp nat_cmp) uuids.now }
    requires many { length indexes.old ≡ length archives.old }
    ensures { let sought = map prefix_bytes prefixes.now in
        let named = readers I.whole I.failures indexes.old indexes.new in
        let known = readers P.whole P.failures archives.old archives.new in
        ReadsInputs result (λ kept. HoldTogether uuids.now sought named known (A.content kept))
        (AreRefusedTogether uuids.now sought named known) (AreUnfailedTogether named known) }
{
    let (read, sizes) = read_indexes(heap, uuids, indexes, archives)?;
    read_prefixes(heap, prefixes, &read, &sizes, archives)
}
