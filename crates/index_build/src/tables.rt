//! The table of a record, made and written.

ghost use Rattle.std.specs.Prelude.{◌≡◌, ◌<◌, ◌^◌, ◌++◌, ℕ, List, IfOk, IfErr};
ghost use Rattle.byte_device.specs.Writes.{IsPut};
ghost use Rattle.table_checked_pages.specs.Pages.{root_of, stored};
ghost use Rattle.table_checked_pages.specs.Views.{claim_view};
ghost use Rattle.table_source_frames.specs.SliceTable.{IsSliceTable};
ghost use Rattle.archive_core.specs.Record.{IsOperation, borrowed_bytes, operation_borrowed};
ghost use Rattle.archive_core.specs.Valid.{IsValid};
ghost use Rattle.index_format.specs.Entry.{claim_at};
ghost use Rattle.index_build.specs.Content.{IsTableOf, claim_of};
ghost use Rattle.index_build.specs.InnerMaking.{StopsTable};

use crate::fault::TableFault;
use archive_core::{CheckedSlice, Record};
use byte_device::Sink;
use heap_memory::{Heap, NoMemory};
use index_format::no_claim;
use table_checked_pages::{Claim, Stored};
use table_source_frames_build::line_table;
use table_symbols::TableText;

/// The table of a slice, and the bytes that are stored before it. Fails only if memory runs out.
fn table_of<'a>(heap: &Heap, slice: &CheckedSlice<'a>) -> Result<(TableText<'a>, Stored), NoMemory>
    requires { IsValid slice.now }
    ensures table { IfOk result (λ made. IsSliceTable slice.now made.0) }
    ensures stored { IfOk result (λ made. made.1.bytes.items ++ made.0 ≡ stored made.0) }
    ensures root { IfOk result (λ made. made.1.root ≡ root_of made.0) }
{
    let image = slice.image();
    let lines = line_table(heap.share(), &image)?;
    let table = TableText::new(heap.share(), &image, lines)?;
    let above = table.above(heap)?;
    Ok((table, above))
}

/// Writes the table of a slice after the first `done` bytes of an index, as it is stored. Returns its claim, and the
/// new number of bytes.
fn put_slice_table<W: Sink>(
    heap: &Heap,
    slice: &CheckedSlice<'_>,
    w: &mut W,
    done: u64,
) -> Result<(Claim, u128), TableFault>
    requires { IsValid slice.now }
    ensures short { IfOk result (λ put. put.1 < 2 ^ 80) }
    ensures put { IfOk result (λ put. (table : List ℕ) × IsSliceTable slice.now table
        × (claim_view put.0 ≡ claim_at done table)
        × IsPut W.held W.failures w.old w.new done (stored table) put.1) }
    ensures stopped { IfErr result (StopsTable W.held W.failures w.old w.new done (IsSliceTable slice.now)) }
{
    let Ok((table, above)) = table_of(heap, slice) else {
        return Err(TableFault::OutOfMemory);
    };
    let claim = Claim {
        offset: done,
        size: table.size(),
        root: above.root,
    };
    match table.write(&above.bytes, w, u128::from(done)) {
        Ok(end) => Ok((claim, end)),
        Err(fault) => Err(TableFault::Write(fault)),
    }
}

/// Writes the table of a record, if it is an admission.
pub(crate) fn put_table<W: Sink>(
    heap: &Heap,
    item: &Record<'_>,
    w: &mut W,
    done: u64,
) -> Result<(Claim, u128), TableFault>
    requires { IsOperation (operation_borrowed item.now) }
    ensures short { IfOk result (λ put. put.1 < 2 ^ 80) }
    ensures put { IfOk result (λ put. (table : List ℕ) × IsTableOf (borrowed_bytes item.now) table
        × (claim_view put.0 ≡ claim_of done (borrowed_bytes item.now) table)
        × IsPut W.held W.failures w.old w.new done (stored table) put.1) }
    ensures stopped { IfErr result (StopsTable W.held W.failures w.old w.new done
        (IsTableOf (borrowed_bytes item.now))) }
{
    match item {
        Record::Admit(slice) => put_slice_table(heap, slice, w, done),
        Record::Retire(_, _) => Ok((no_claim(), u128::from(done))),
    }
}
