//! A line, carried out over files in memory.

use archive_core::Archive;
use byte_device::Output;
use cli_arguments::{Line, Plan};
use cli_run::execute_on;
use heap_memory::{Heap, NoMemory};
use test_calls::{Desk, make_inputs};
use test_parts::{End, Left, Shelf, StrictSink};

/// Carries out a line.
pub fn run_line<A: Archive + Drop>(desk: Desk<'_>, line: &Line) -> Result<Left, NoMemory> {
    let mut out = Output {
        draft: StrictSink::new(Heap::new(desk.alloc)?, desk.limits.out),
        target: Shelf::new(Heap::new(desk.alloc)?, desk.limits.places),
    };
    let mut report = StrictSink::new(Heap::new(desk.alloc)?, desk.limits.report);
    let mut waiting = Vec::new(desk.alloc);
    make_inputs(desk, &line.inputs(desk.alloc)?, &mut waiting)?;
    let mut inputs = line.by_kind(desk.alloc, waiting)?;
    let heap = desk.heap()?;
    let mut notes = Vec::new(heap.share());
    let ended = execute_on::<A, A, _, _, _>(
        heap,
        &mut inputs,
        &Plan::of(line),
        &mut notes,
        &mut out,
        &mut report,
    );
    let published = out.target.published();
    Ok(Left {
        end: End::of_command(ended),
        is_draft: published.is_none(),
        out: published
            .unwrap_or(out.draft.as_slice())
            .to_vec(desk.alloc)?,
        report: report.as_slice().to_vec(desk.alloc)?,
    })
}
