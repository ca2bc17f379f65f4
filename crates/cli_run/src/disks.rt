//! A plan that is carried out over inputs that are opened at their first read.

ghost use Rattle.cli_files.specs.LazyInputs.{told};
ghost use Rattle.command_common.specs.Outputs.{outs, writer};
ghost use Rattle.cli_arguments.specs.Inputs.{inputs_view};
ghost use Rattle.cli_arguments.specs.Lines.{Line};
ghost use Rattle.cli_arguments.specs.Plan.{HasInputs, IsPlanOf};
ghost use Rattle.cli_standard_error.specs.Names.{AreOfLine};
ghost use Rattle.cli_run.specs.Disks.{Carried};

use crate::plans::execute_plan;
use crate::unopened::with_opening_fault;
use archive_core::Archive;
use byte_device::{Output, Sink, Target};
use cli_arguments::{Inputs, Plan};
use cli_files::{Disk, LazyInput};
use command_common::{CommandFault, Note, Status};
use heap_memory::Heap;

/// Carries out a plan over inputs, each of which is opened at its first read. An input that cannot be opened fails like
/// one that cannot be read; the result then has `CannotOpen` or `OutOfMemory`. Notes of the command are added to
/// `notes`.
pub fn execute_on<A: Archive + Drop, L: Archive + Drop, D: Disk, T: Target, P: Sink>(
    heap: Heap,
    inputs: &mut Inputs<LazyInput<'_, D>>,
    plan: &Plan,
    notes: &mut Vec<Note, Heap>,
    out: &mut Output<T::Draft, T>,
    report: &mut P,
) -> Result<Status, CommandFault>
    requires { HasInputs plan.now (inputs_view inputs.old) }
    ensures { (line : Line) → IsPlanOf plan.now line → AreOfLine told line (inputs_view inputs.old)
        → Carried told line plan.now (inputs_view inputs.old) (inputs_view inputs.new)
        (outs T.Draft.held T.Draft.failures T.published T.failures out.old out.new)
        (writer P.held P.failures report.old report.new) result notes.old.items notes.new.items }
{
    let ended = execute_plan::<A, L, _, _, _>(heap, plan, inputs, notes, out, report);
    with_opening_fault(inputs, ended)
}
