//! A slice in an archive that was read, from which it is sent.

ghost use Rattle.std.specs.Prelude.{ℕ, List};
ghost use Rattle.command_common.specs.Outputs.{writer};
ghost use Rattle.command_extract.specs.InnerSteps.{SendsBytes};
ghost use Rattle.command_extract.specs.Kept.{IsAdmittedAt};

use archive_core::{Archive, Record};
use byte_device::{Sink, push_all};
use command_common::CommandFault;

/// Where a slice is that was read from an archive.
#[derive(Drop)]
pub struct Kept<A> {
    /// The kept records of the archives.
    pub archive: A,
    /// The number of the slice's record there.
    pub number: u64,
}

/// Sends these bytes to a draft.
fn send_bytes<W: Sink>(bytes: &[u8], draft: &mut W) -> Result<(), CommandFault>
    ensures { SendsBytes bytes.now (writer W.held W.failures draft.old draft.new) result }
{
    match push_all(draft, bytes) {
        Ok(()) => Ok(()),
        Err(fault) => Err(CommandFault::Output(fault.written)),
    }
}

/// Sends a slice that was read to a draft.
pub(crate) fn send_kept<A: Archive, W: Sink>(
    kept: &Kept<A>,
    draft: &mut W,
) -> Result<(), CommandFault>
    requires { (slice : List ℕ) × IsAdmittedAt (A.content kept.now.archive) kept.now.number slice }
    ensures { (slice : List ℕ) → IsAdmittedAt (A.content kept.now.archive) kept.now.number slice
        → SendsBytes slice (writer W.held W.failures draft.old draft.new) result }
{
    match kept.archive.record_at(kept.number) {
        Record::Admit(slice) => send_bytes(slice.bytes(), draft),
        Record::Retire(_, _) => unreachable!(),
    }
}
