//! The command of a plan, over its inputs.

ghost use Rattle.std.specs.Prelude.{◌≡◌, OnOk};
ghost use Rattle.command_common.specs.Outputs.{outs, writer};
ghost use Rattle.cli_arguments.specs.Inputs.{inputs_view};
ghost use Rattle.cli_arguments.specs.Plan.{HasInputs};
ghost use Rattle.cli_run.specs.Disks.{AreAsMany};
ghost use Rattle.cli_run.specs.Plans.{Executes, Notes, readers_by, replaces_of};

use crate::queries::answer;
use crate::updates::{extract, merge, summary, write};
use archive_core::Archive;
use byte_device::{Output, Placed, Sink, Source, Target};
use byte_lazy_inputs::Opens;
use cli_arguments::{Inputs, Plan};
use cli_files::ReplaceRule;
use command_archives::run_new;
use command_common::{CommandFault, Note, Status};
use heap_memory::Heap;

/// Which files the OUT of a plan replaces: a summary or an index one of its own kind, a slice a file with the same
/// bytes, an archive one below it.
pub fn replace_rule(plan: &Plan) -> ReplaceRule
    ensures { result ≡ replaces_of plan.now }
{
    match plan {
        Plan::Summary => ReplaceRule::Summaries,
        Plan::Index => ReplaceRule::Indexes,
        Plan::Extract { .. } => ReplaceRule::SameBytes,
        _ => ReplaceRule::ArchivesBelow,
    }
}

/// Carries out a plan over its inputs. Archives are of type `L` for addresses, and of type `A` otherwise. Notes of the
/// command are added to `notes`.
pub fn execute_plan<
    A: Archive + Drop,
    L: Archive + Drop,
    S: Source + Placed + Opens,
    T: Target,
    P: Sink,
>(
    heap: Heap,
    plan: &Plan,
    inputs: &mut Inputs<S>,
    notes: &mut Vec<Note, Heap>,
    out: &mut Output<T::Draft, T>,
    report: &mut P,
) -> Result<Status, CommandFault>
    requires { HasInputs plan.now (inputs_view inputs.old) }
    ensures as_many { AreAsMany (inputs_view inputs.old) (inputs_view inputs.new) }
    ensures ends { Executes S.opening_of plan.now
        (readers_by ⟦<S as Source>⟧.left ⟦<S as Source>⟧.failures (inputs_view inputs.old) (inputs_view inputs.new))
        (readers_by ⟦<S as Placed>⟧.whole ⟦<S as Placed>⟧.failures (inputs_view inputs.old) (inputs_view inputs.new))
        (outs T.Draft.held T.Draft.failures T.published T.failures out.old out.new)
        (writer P.held P.failures report.old report.new) result }
    ensures noted { OnOk result (Notes S.opening_of plan.now
        (readers_by ⟦<S as Source>⟧.left ⟦<S as Source>⟧.failures (inputs_view inputs.old) (inputs_view inputs.new))
        notes.old.items notes.new.items) }
{
    match plan {
        Plan::New => run_new::<A, _, _>(heap, out, report),
        Plan::Merge => merge::<A, _, _, _>(heap, &mut inputs.archives, out, report),
        Plan::Extract { key, digest } => extract::<A, _, _, _>(
            heap,
            &mut inputs.archives,
            &mut inputs.indexes,
            key,
            digest,
            out,
            report,
        ),
        Plan::Summary => summary::<_, T, _>(
            heap,
            &mut inputs.archives,
            &mut inputs.indexes,
            out,
            report,
        ),
        Plan::Find { .. }
        | Plan::List
        | Plan::Name { .. }
        | Plan::Symbolicate { .. }
        | Plan::Frames { .. }
        | Plan::Rehearse => answer::<A, L, _, _>(heap, plan, inputs, notes, report),
        Plan::Admit { .. }
        | Plan::Retire { .. }
        | Plan::Migrate
        | Plan::Apply
        | Plan::Index
        | Plan::Delta => write(heap, plan, inputs, notes, out, report),
    }
}
