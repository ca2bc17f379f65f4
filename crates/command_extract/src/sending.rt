//! A slice that an entry names, sent from its archive to a draft.

ghost use Rattle.std.specs.Prelude.{◌≡◌, ◌+◌, ◌<◌, IfOk, length};
ghost use Rattle.byte_device.specs.Devices.{stream};
ghost use Rattle.command_extract.specs.Sending.{SendsAt};
ghost use Rattle.command_common.specs.Inputs.{reader};
ghost use Rattle.command_common.specs.Outputs.{writer};
ghost use Rattle.index_lookup.specs.Among.{EntryAt};
ghost use Rattle.index_lookup.specs.Named.{Names};
ghost use Rattle.command_extract.specs.InnerEntries.{SendsFrom, SendsSlice, told_fault, unread_record};

use crate::tested_copy::{SendFault, send_at};
use archive_records::{ADMISSION_HEAD_LEN, RecordFault, RecordFaultKind};
use byte_device::{PIECE_LEN, Placed, Sink};
use command_common::{CommandFault, InputName, Why};
use heap_memory::{Heap, NoMemory};
use index_lookup::NamedSlice;

/// A buffer for one piece.
fn room_for_piece(heap: Heap) -> Result<Vec<u8, Heap>, NoMemory>
    ensures { IfOk result (λ piece. 0 < length piece.items) }
{
    let mut piece = Vec::new(heap);
    piece.resize(PIECE_LEN, 0)?;
    Ok(piece)
}

/// Why a record was not read, if its device failed.
fn unread(offset: u64) -> Why
    ensures { result ≡ unread_record offset }
{
    Why::Record(RecordFault {
        kind: RecordFaultKind::Device,
        offset: u128::from(offset),
    })
}

/// The fault that a command reports if a slice was not sent.
fn told(named: &NamedSlice, fault: SendFault) -> CommandFault
    ensures { result ≡ told_fault named.now.input named.now.number named.now.offset fault }
{
    match fault {
        SendFault::Other => {
            CommandFault::Input(
                InputName::Index(named.input),
                Why::Stale(Some(named.number)),
            )
        }
        SendFault::Device => {
            CommandFault::Input(InputName::Archive(named.input), unread(named.offset))
        }
        SendFault::Sink(written) => CommandFault::Output(written),
    }
}

/// Sends the slice of the record at this offset, as [`send_at`] does.
fn send_slice_at<P: Placed, W: Sink>(
    device: &mut P,
    offset: u64,
    size: u64,
    digest: &[u8; 32],
    buffer: &mut [u8],
    w: &mut W,
) -> Result<(), SendFault>
    requires { 0 < length buffer.old }
    ensures { SendsAt (stream P.whole P.failures device.old device.new) (stream W.held W.failures w.old w.new)
        (offset + 33) size digest.now result }
{
    let start = u128::from(offset);
    send_at(
        device,
        start + ADMISSION_HEAD_LEN as u128,
        size,
        digest,
        buffer,
        w,
    )
}

/// Sends the slice that an entry names from its archive to a draft.
fn send_named<P: Placed, W: Sink>(
    heap: Heap,
    named: &NamedSlice,
    archive: &mut P,
    draft: &mut W,
) -> Result<(), CommandFault>
    ensures { (x : EntryAt) → Names x named.now → SendsSlice (reader P.whole P.failures archive.old archive.new) x
        (writer W.held W.failures draft.old draft.new) result }
{
    let mut piece = room_for_piece(heap)?;
    match send_slice_at(
        archive,
        named.offset,
        named.size,
        &named.row.digest.0,
        &mut piece,
        draft,
    ) {
        Ok(()) => Ok(()),
        Err(fault) => Err(told(named, fault)),
    }
}

/// Sends the slice that an entry names from its archive, one of these, to a draft.
pub(crate) fn send_from<P: Placed, W: Sink>(
    heap: Heap,
    named: &NamedSlice,
    archives: &mut [P],
    draft: &mut W,
) -> Result<(), CommandFault>
    requires { named.now.input < length archives.old }
    ensures { (x : EntryAt) → Names x named.now → SendsFrom P.whole P.failures archives.old archives.new x
        (writer W.held W.failures draft.old draft.new) result }
{
    send_named(heap, named, &mut archives[named.input as usize], draft)
}
