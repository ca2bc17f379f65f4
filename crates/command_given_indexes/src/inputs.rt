//! Reading an index, and comparing it with its archive.

ghost use Rattle.std.specs.Prelude.{◌≡◌, ◌≢◌, IfOk, OnOk, length};
ghost use Rattle.std.specs.List.Sorted.{IsStrictlySortedBy};
ghost use Rattle.std.specs.Ordering.{nat_cmp};
ghost use Rattle.std.specs.Cmp.Lexicographic.{slice_cmp};
ghost use Rattle.index_format.specs.declared.index_fault.IndexFaultKind.TheVariants.{OutOfMemory as IndexOutOfMemory};
ghost use Rattle.index_format.specs.Text.{placed_of};
ghost use Rattle.command_common.specs.Inputs.{Gives, IsRefusal, ReadsInput, ReadsInputs, Unfailed, reader};
ghost use Rattle.archive_records.specs.declared.fault.RecordFaultKind.TheVariants.{Device as DeviceFailed};
ghost use Rattle.command_common.specs.declared.faults.CommandFault.TheVariants.{Input};
ghost use Rattle.command_common.specs.declared.faults.InputName.TheVariants.{Archive as ArchivePlace};
ghost use Rattle.command_common.specs.declared.faults.InputName.TheVariants.{Index as IndexPlace};
ghost use Rattle.command_common.specs.declared.faults.Why.TheVariants.{Index as IndexFaulty, Record};
ghost use Rattle.command_given_indexes.specs.Indexes.{HoldsPart, HoldsTables, IsIndexOf, IsOfOtherLength};
ghost use Rattle.command_given_indexes.specs.Indexes.{IsRefusedByIndex, IsRefusedByPart, IsUnreadIndex, IsUnreadPart};
ghost use Rattle.command_given_indexes.specs.Prefixes.{HasLength};
ghost use Rattle.command_given_indexes.specs.Together.{IsKept, IsReadWith};

use archive_records::{RecordFault, RecordFaultKind};
use byte_device::Placed;
use command_common::{CommandFault, InputName, Why};
use heap_memory::Heap;
use index_format::{
    Index, IndexFault, IndexFaultKind, IndexPart, PlaceFault, indexed_size, read_index,
    read_index_under,
};

/// The refusal of an index whose text has this fault, or whose device failed.
fn refusal(number: u64, fault: IndexFault) -> CommandFault
    ensures { IsRefusal (λ at why. (at ≡ IndexPlace number) × (why ≡ IndexFaulty fault)
        × (fault.kind ≢ IndexOutOfMemory)) (fault.kind ≡ IndexOutOfMemory) result }
{
    match fault.kind {
        IndexFaultKind::OutOfMemory => CommandFault::OutOfMemory,
        _ => CommandFault::Input(InputName::Index(number), Why::Index(fault)),
    }
}

/// The refusal of the archive with this number, whose device failed in the read that begins at this offset.
pub(crate) fn unread(number: u64, offset: u64) -> CommandFault
    ensures { result ≡ Input (ArchivePlace number) (Record (record { kind = DeviceFailed; offset = offset })) }
{
    let fault = RecordFault {
        kind: RecordFaultKind::Device,
        offset: u128::from(offset),
    };
    CommandFault::Input(InputName::Archive(number), Why::Record(fault))
}

/// Reads the index with this number on the command line.
fn read_index_input<I: Placed>(
    heap: Heap,
    number: u64,
    index: &mut I,
) -> Result<Index, CommandFault>
    ensures read { ReadsInput (reader I.whole I.failures index.old index.new) result HoldsTables
        (λ index at why. (at ≡ IndexPlace number) × IsUnreadIndex index why) }
    ensures kept { OnOk result (IsKept I.whole I.failures index.old index.new) }
{
    match read_index(heap, index) {
        Ok(tables) => Ok(tables),
        Err(fault) => Err(refusal(number, fault)),
    }
}

/// Reads the entries under these UUIDs of the index with this number on the command line, and how long its archive is.
fn read_part_input<I: Placed>(
    heap: Heap,
    number: u64,
    index: &mut I,
    uuids: &[[u8; 16]],
) -> Result<(IndexPart, u64), CommandFault>
    requires { IsStrictlySortedBy (slice_cmp nat_cmp) uuids.now }
    ensures read { ReadsInput (reader I.whole I.failures index.old index.new) result
        (λ index read. HoldsPart uuids.now index read.0 read.1)
        (λ index at why. (at ≡ IndexPlace number) × IsUnreadPart index why) }
    ensures kept { OnOk result (IsKept I.whole I.failures index.old index.new) }
{
    match read_index_under(heap, index, uuids) {
        Ok(read) => Ok(read),
        Err(fault) => Err(refusal(number, fault)),
    }
}

/// Tests that the archive with this number on the command line has the length that its index states.
fn check_length<P: Placed>(number: u64, size: u128, archive: &mut P) -> Result<(), CommandFault>
    ensures tests { ReadsInput (reader P.whole P.failures archive.old archive.new) result
        (λ archive _. HasLength archive size) (λ archive. IsOfOtherLength number archive size) }
    ensures kept { OnOk result (IsKept P.whole P.failures archive.old archive.new) }
{
    match indexed_size(size, archive) {
        Ok(_) => Ok(()),
        Err(PlaceFault::Stale(_)) => Err(CommandFault::Input(
            InputName::Index(number),
            Why::Stale(None),
        )),
        Err(PlaceFault::Device(_)) => Err(unread(number, 0)),
        Err(PlaceFault::OutOfMemory) => Err(CommandFault::OutOfMemory),
    }
}

/// Reads the entries under these UUIDs of the index of an archive, and tests that the archive has the length that the
/// index states, which is returned. Both have this number on the command line.
pub(crate) fn read_matching_part<I: Placed, P: Placed>(
    heap: &Heap,
    number: u64,
    uuids: &[[u8; 16]],
    index: &mut I,
    archive: &mut P,
) -> Result<(IndexPart, u64), CommandFault>
    requires { IsStrictlySortedBy (slice_cmp nat_cmp) uuids.now }
    ensures read { let named = reader I.whole I.failures index.old index.new in
        let known = reader P.whole P.failures archive.old archive.new in
        ReadsInputs result (λ read. IsReadWith uuids.now named known read.0)
        (IsRefusedByPart uuids.now number named known) (Unfailed named × Unfailed known) }
    ensures size { IfOk result (λ read. HasLength (reader P.whole P.failures archive.old archive.new) read.1) }
    ensures kept { OnOk result (IsKept I.whole I.failures index.old index.new
        × IsKept P.whole P.failures archive.old archive.new) }
{
    let (part, size) = read_part_input(heap.share(), number, index, uuids)?;
    check_length(number, u128::from(size), archive)?;
    Ok((part, size))
}

/// Reads the index of the first archive, and tests that the archive has the length that it states.
pub(crate) fn read_first_index<I: Placed, P: Placed>(
    heap: &Heap,
    index: &mut I,
    archive: &mut P,
) -> Result<Index, CommandFault>
    ensures { let named = reader I.whole I.failures index.old index.new in
        let known = reader P.whole P.failures archive.old archive.new in
        ReadsInputs result (λ index. IsIndexOf named known (placed_of index)) (IsRefusedByIndex 0 named known)
        (Unfailed named × Unfailed known) }
{
    let tables = read_index_input(heap.share(), 0, index)?;
    let _count = tables.len();
    check_length(0, tables.archive_size(), archive)?;
    Ok(tables)
}
