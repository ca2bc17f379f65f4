//! `migrate IN OUT`.
ghost use Rattle.std.specs.Prelude.{◌≡◌};
ghost use Rattle.std.specs.FinSet as set;
ghost use Rattle.archive_records.specs.Text.{written};
ghost use Rattle.command_common.specs.Ends.{EndsStreamed};
ghost use Rattle.command_common.specs.Inputs.{reader};
ghost use Rattle.command_archives.specs.Migrate.{migrate_as_it_comes};
ghost use Rattle.command_common.specs.Outputs.{out_of, outs, writer};

use crate::joining::join_input;
use byte_device::{Bytes, Output, Sink, Source, Target};
use command_common::{CommandFault, Status, publish_draft};
use heap_memory::Heap;

fn empty_text() -> [u8; 17]
    ensures { result ≡ written set.empty }
{
    *b"MSYMARC2\x03\0\0\0\0\0\0\0\0"
}

/// Writes the content of IN's archive to OUT, and its sizes to the report: an archive of version 1 becomes one of
/// version 2, and one of version 2 keeps its bytes. IN is merged as it is read with the empty archive, in the memory of
/// one record and of 57 bytes for each retirement.
///
/// # Errors
///
/// `Input` if the archive is refused; `Output` and `Report` if that writer failed; `OutOfMemory`.
pub fn run_migrate<R: Source, T: Target, P: Sink>(
    heap: Heap,
    input: &mut R,
    out: &mut Output<T::Draft, T>,
    report: &mut P,
) -> Result<Status, CommandFault>
    ensures { let known = out_of (outs T.Draft.held T.Draft.failures T.published T.failures out.old out.new) in
        EndsStreamed (migrate_as_it_comes (reader R.left R.failures input.old input.new) known.draft) known
        (writer P.held P.failures report.old report.new) result }
{
    let empty = empty_text();
    let mut nothing = Bytes::new(&empty);
    let sizes = join_input(&heap, input, &mut nothing, &mut out.draft)?;
    publish_draft(String::new(heap), sizes, out, report)
}
