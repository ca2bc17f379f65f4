//! `extract ARCHIVE UUID ARCH OUT [--digest DIGEST]`, over one archive or several.

ghost use Rattle.std.specs.Prelude.{Option};
ghost use Rattle.archive_core.specs.declared.keys.Digest.{Digest as Given};
ghost use Rattle.command_common.specs.declared.faults.CommandFault.TheVariants.{OutOfMemory};
ghost use Rattle.command_common.specs.Outputs.{out_of, outs, writer};
ghost use Rattle.command_extract.specs.Evidence.{StopsBefore};
ghost use Rattle.command_extract.specs.Extract.{Extracts};

use crate::choice::{Choice, Chosen};
use crate::evidence::SliceEvidence;
use crate::lines::{line_of, report_rows};
use archive_core::{Digest, SliceKey};
use byte_device::{Output, Sink, Target};
use command_common::{CommandFault, Status, publish_output, write_report};
use heap_memory::Heap;

/// Writes the bytes of the one slice that answers under the key in the join of the archives to OUT, or of a held one
/// with the digest, and its line to the report. The inputs are read, and a slice is chosen, before OUT is created.
///
/// If there is no such slice, OUT is kept, and the report has a line for each slice that answers; the status is
/// `Partial`.
///
/// # Errors
///
/// `Input` for the first input that is refused; `Output` and `Report` if that writer failed; `OutOfMemory`.
pub fn run_extract<A, E: SliceEvidence<A>, T: Target, P: Sink>(
    heap: Heap,
    evidence: &mut E,
    key: &SliceKey,
    digest: &Option<Digest>,
    out: &mut Output<T::Draft, T>,
    report: &mut P,
) -> Result<Status, CommandFault>
    requires { E.can_find evidence.old }
    ensures keeps { E.keeps evidence.old evidence.new }
    ensures ends { let known = outs T.Draft.held T.Draft.failures T.published T.failures out.old out.new in
        Extracts (E.extraction evidence.old evidence.new key.now digest.now (out_of known).draft) known
        (writer P.held P.failures report.old report.new) result }
{
    match evidence.choose(heap.share(), key, digest)? {
        Choice::One(chosen) => publish_chosen(heap, evidence, key, &chosen, out, report),
        Choice::Undecided(rows) => report_rows(heap, &rows, report),
    }
}

/// Sends a slice that was chosen under a key to OUT, publishes it, and then writes its line to the report. The line is
/// made before OUT is created.
fn publish_chosen<A, E: SliceEvidence<A>, T: Target, P: Sink>(
    heap: Heap,
    evidence: &mut E,
    key: &SliceKey,
    chosen: &Chosen<E::Place>,
    out: &mut Output<T::Draft, T>,
    report: &mut P,
) -> Result<Status, CommandFault>
    requires { (first : E) × (digest : Option Given) × E.placed first evidence.old key.now digest chosen.now }
    ensures keeps { (first : E) → E.keeps first evidence.old → E.keeps first evidence.new }
    ensures ends { (first : E) (digest : Option Given) → E.placed first evidence.old key.now digest chosen.now
        → StopsBefore (E.extraction first evidence.old key.now digest) OutOfMemory
        → let known = outs T.Draft.held T.Draft.failures T.published T.failures out.old out.new in
        Extracts (E.extraction first evidence.new key.now digest (out_of known).draft) known
        (writer P.held P.failures report.old report.new) result }
{
    let text = line_of(heap.share(), *key, chosen.digest, chosen.size)?;
    evidence.send(heap, chosen, &mut out.draft)?;
    publish_output(out, chosen.size as u128)?;
    write_report(Status::Done, &text, report)
}
