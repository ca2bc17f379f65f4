//! The plans that write OUT from archives, over their inputs.

ghost use Rattle.std.specs.Prelude.{◌≡◌, ◌<◌, OnOk, length, true};
ghost use Rattle.command_common.specs.Inputs.{readers};
ghost use Rattle.command_common.specs.Outputs.{out_of, outs, writer};
ghost use Rattle.cli_arguments.specs.Inputs.{inputs_view};
ghost use Rattle.cli_arguments.specs.Plan.{HasInputs};
ghost use Rattle.cli_run.specs.Disks.{AreAsMany};
ghost use Rattle.cli_run.specs.Plans.{EndsDeed, Executes, Notes, merged_of, readers_by, summarized_of};
ghost use Rattle.cli_run.specs.Plans.{writes_archive};
ghost use Rattle.cli_run.specs.Queries.{extract_of};
ghost use Rattle.command_extract.specs.Extract.{Extracts};

use crate::queries::check_pairs;
use archive_core::{Archive, Digest, SliceKey};
use byte_device::{Output, Placed, Sink, Source, Target};
use byte_lazy_inputs::Opens;
use cli_arguments::{Inputs, Plan};
use command_archives::{
    run_admit, run_apply, run_delta, run_merge, run_migrate, run_retire, run_summary,
};
use command_common::{CommandFault, Note, Records, Status, first_and_rest};
use command_extract::run_extract;
use command_given_indexes::Indexes;
use heap_memory::Heap;
use index_build::run_index;

/// `extract` over archives, which are read by these indexes, if there are any.
pub fn extract<A: Archive + Drop, S: Source + Placed, T: Target, P: Sink>(
    heap: Heap,
    archives: &mut [S],
    indexes: &mut [S],
    key: &SliceKey,
    digest: &Option<Digest>,
    out: &mut Output<T::Draft, T>,
    report: &mut P,
) -> Result<Status, CommandFault>
    requires { 0 < length archives.old }
    ensures { let known = outs T.Draft.held T.Draft.failures T.published T.failures out.old out.new in
        Extracts (extract_of
        (readers ⟦<S as Source>⟧.left ⟦<S as Source>⟧.failures archives.old archives.new)
        (readers ⟦<S as Placed>⟧.whole ⟦<S as Placed>⟧.failures archives.old archives.new)
        (readers ⟦<S as Placed>⟧.whole ⟦<S as Placed>⟧.failures indexes.old indexes.new) key.now digest.now
        (out_of known).draft) known (writer P.held P.failures report.old report.new) result }
{
    if indexes.is_empty() {
        return run_extract::<A, _, _, _>(heap, &mut Records { archives }, key, digest, out, report);
    }
    check_pairs(archives.len(), indexes.len())?;
    run_extract::<A, _, _, _>(
        heap,
        &mut Indexes { indexes, archives },
        key,
        digest,
        out,
        report,
    )
}

/// `merge` of archives.
pub fn merge<A: Archive + Drop, S: Source, T: Target, P: Sink>(
    heap: Heap,
    archives: &mut [S],
    out: &mut Output<T::Draft, T>,
    report: &mut P,
) -> Result<Status, CommandFault>
    requires { 0 < length archives.old }
    ensures { let known = outs T.Draft.held T.Draft.failures T.published T.failures out.old out.new in
        EndsDeed (merged_of (readers S.left S.failures archives.old archives.new) known) known
        (writer P.held P.failures report.old report.new) result }
{
    let (archive, others) = first_and_rest(archives);
    run_merge::<A, _, _, _, _>(heap, archive, others, out, report)
}

/// `summary` of the first archive, which is read by the first index, if there is one.
pub fn summary<S: Source + Placed, T: Target, P: Sink>(
    heap: Heap,
    archives: &mut [S],
    indexes: &mut [S],
    out: &mut Output<T::Draft, T>,
    report: &mut P,
) -> Result<Status, CommandFault>
    requires { 0 < length archives.old }
    ensures { let known = outs T.Draft.held T.Draft.failures T.published T.failures out.old out.new in
        EndsDeed (summarized_of
        (readers ⟦<S as Source>⟧.left ⟦<S as Source>⟧.failures archives.old archives.new)
        (readers ⟦<S as Placed>⟧.whole ⟦<S as Placed>⟧.failures archives.old archives.new)
        (readers ⟦<S as Placed>⟧.whole ⟦<S as Placed>⟧.failures indexes.old indexes.new)) known
        (writer P.held P.failures report.old report.new) result }
{
    if indexes.is_empty() {
        return run_summary(heap, &mut Records { archives }, out, report);
    }
    run_summary(heap, &mut Indexes { indexes, archives }, out, report)
}

/// Carries out a plan that writes OUT from one archive. Notes of the command are added to `notes`.
pub fn write<S: Source + Placed + Opens, T: Target, P: Sink>(
    heap: Heap,
    plan: &Plan,
    inputs: &mut Inputs<S>,
    notes: &mut Vec<Note, Heap>,
    out: &mut Output<T::Draft, T>,
    report: &mut P,
) -> Result<Status, CommandFault>
    requires writes { writes_archive plan.now ≡ true }
    requires inputs { HasInputs plan.now (inputs_view inputs.old) }
    ensures as_many { AreAsMany (inputs_view inputs.old) (inputs_view inputs.new) }
    ensures ends { Executes S.opening_of plan.now
        (readers_by ⟦<S as Source>⟧.left ⟦<S as Source>⟧.failures (inputs_view inputs.old) (inputs_view inputs.new))
        (readers_by ⟦<S as Placed>⟧.whole ⟦<S as Placed>⟧.failures (inputs_view inputs.old) (inputs_view inputs.new))
        (outs T.Draft.held T.Draft.failures T.published T.failures out.old out.new)
        (writer P.held P.failures report.old report.new) result }
    ensures noted { OnOk result (Notes S.opening_of plan.now
        (readers_by ⟦<S as Source>⟧.left ⟦<S as Source>⟧.failures (inputs_view inputs.old) (inputs_view inputs.new))
        notes.old.items notes.new.items) }
{
    let Inputs {
        archives,
        files,
        ops,
        summaries,
        ..
    } = inputs;
    let [archive, ..] = archives.as_mut_slice() else {
        unreachable!();
    };
    match plan {
        Plan::Admit { keep_going } => {
            run_admit(heap, *keep_going, archive, files, notes, out, report)
        }
        Plan::Retire { key, digest } => {
            run_retire(heap, archive, *key, *digest, notes, out, report)
        }
        Plan::Migrate => run_migrate(heap, archive, out, report),
        Plan::Apply => match ops.as_mut_slice() {
            [ops, ..] => run_apply(heap, archive, ops, out, report),
            [] => unreachable!(),
        },
        Plan::Index => run_index(heap, archive, out, report),
        Plan::Delta => match summaries.as_mut_slice() {
            [summary, ..] => run_delta(heap, archive, summary, out, report),
            [] => unreachable!(),
        },
        _ => unreachable!(),
    }
}
