//! `symbolicate ARCHIVE UUID ARCH [--load HEX] [--lines] [--slices] ADDRESS... [--with OTHER]... [--index INDEX]...`:
//! `frames` for the addresses under one key.
ghost use Rattle.std.specs.Prelude.{◌≡◌, IfOk};
ghost use Rattle.archive_core.specs.Key.{IsKey};
ghost use Rattle.command_common.specs.Ends.{EndsReport};
ghost use Rattle.command_common.specs.Outputs.{writer};
ghost use Rattle.command_queries.specs.Frames.{frames_under_key, prints_addresses};

use crate::evidence::FrameEvidence;
use crate::named::whole_key;
use archive_core::{Archive, SliceKey};
use byte_device::Sink;
use command_common::{CommandFault, Status, write_report_bytes};
use heap_memory::{Heap, NoMemory};
use text_input_files::Frame;

/// The frames of address arguments, in order.
fn frames_under_key(
    heap: Heap,
    key: SliceKey,
    load: Option<u64>,
    addresses: &[u64],
) -> Result<Vec<Frame, Heap>, NoMemory>
    ensures { IfOk result (λ frames. frames.items ≡ frames_under_key key load addresses.now) }
{
    addresses
        .iter()
        .map(|address| Frame {
            key,
            load,
            address: *address,
        })
        .collect(heap)
}

/// Writes to the report the answer of the evidence for each address, in order. They are addresses of the image as
/// loaded at `load`, if given, and else of its file. If `lines`, the answer of each slice is followed by the source
/// frames of the address in it. If `slices`, the lines of the slices that answer under the UUID follow, and the line of
/// the key if none answers under it.
///
/// The status is `Done` if each answer is one symbol, `SomeRefused` if a key is refused alone, and else `Partial`.
///
/// # Errors
///
/// `Input` for the first input that is refused; `Report` if the report failed; `OutOfMemory`.
pub fn run_symbolicate<A: Archive + Drop, E: FrameEvidence, P: Sink>(
    heap: Heap,
    evidence: &mut E,
    key: &SliceKey,
    load: Option<u64>,
    lines: bool,
    slices: bool,
    addresses: &[u64],
    report: &mut P,
) -> Result<Status, CommandFault>
    requires { E.can_find evidence.old }
    ensures keyed { IsKey key.now }
    ensures keeps { E.keeps evidence.old evidence.new }
    ensures ends { EndsReport
        (prints_addresses (E.answered evidence.old evidence.new lines slices) key.now load addresses.now)
        (writer P.held P.failures report.old report.new) result }
{
    let keys = [whole_key(*key)];
    let frames = frames_under_key(heap.share(), *key, load, addresses)?;
    let (status, text) = evidence.answer::<A>(&heap, lines, slices, &keys, &frames)?;
    write_report_bytes(status, &text, report)
}
