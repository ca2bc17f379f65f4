//! The inputs of a command, each with a function that reads it or returns its refusal.
ghost use Rattle.std.specs.Prelude.{◌≡◌, ◌≢◌, [], Ok};
ghost use Rattle.archive_core.specs.Content.{IsContent, Operations};
ghost use Rattle.archive_core.specs.Lists.{IsList};
ghost use Rattle.archive_core.specs.Summary.{summary};
ghost use Rattle.archive_records.specs.declared.fault.RecordFaultKind.TheVariants.{OutOfMemory as RecordOutOfMemory};
ghost use Rattle.archive_records.specs.Entry.{AreEntries};
ghost use Rattle.archive_from_records.specs.Keys.{AreInOrder};
ghost use Rattle.archive_records.specs.Text.{IsOperationsText, summary_text};
ghost use Rattle.text_input_files.specs.Frames.{frames_of};
ghost use Rattle.text_input_files.specs.Script.{acts, script_of};
ghost use Rattle.command_common.specs.declared.faults.CommandFault.TheVariants.{Input};
ghost use Rattle.command_common.specs.declared.faults.Why.TheVariants.{Record};
ghost use Rattle.command_common.specs.Inputs.{Gives, Holds, HoldsArchive, HoldsContent, HoldsPart, IsArchive};
ghost use Rattle.command_common.specs.Inputs.{IsRefusal};
ghost use Rattle.command_common.specs.Inputs.{IsRefusedArchive, IsRefusedFile, IsRefusedFrames, IsRefusedOps};
ghost use Rattle.command_common.specs.Inputs.{IsRefusedScript, IsRefusedSummary, IsUnread, ReadsInput, TellsInTurn};
ghost use Rattle.command_common.specs.Inputs.{reader};

use crate::faults::{CommandFault, InputName, Why};
use archive_core::{Archive, FindRow, Operation};
use archive_from_records::{
    Questions, Selects, answer_by_key, list_rows, read_archive, read_ops, read_part, summarize,
    test_archive,
};
use archive_records::{RecordFault, RecordFaultKind, Summary, read_summary};
use byte_device::{ReadFault, Source, read_to_end};
use heap_memory::Heap;
use text_input_files::{
    Frame, FramesError, Script, ScriptError, frame_flaw, read_frames, read_script, script_flaw,
};
use text_values::line_at;

/// The refusal of an input whose text has this fault, or whose reader failed.
pub fn refusal(at: InputName, fault: RecordFault) -> CommandFault
    ensures refused { IsRefusal (λ index why. (index ≡ at) × (why ≡ Record fault) × (fault.kind ≢ RecordOutOfMemory))
        (fault.kind ≡ RecordOutOfMemory) result }
{
    match fault.kind {
        RecordFaultKind::OutOfMemory => CommandFault::OutOfMemory,
        _ => CommandFault::Input(at, Why::Record(fault)),
    }
}

/// The value read from an input, or the refusal of that input.
macro_rules! or_refused {
    ($at:expr, $read:expr) => {
        match $read {
            Ok(read) => Ok(read),
            Err(fault) => Err(refusal($at, fault)),
        }
    };
}

/// Reads archive `index` of the command line, counted from 0.
pub fn read_archive_input<A: Archive + Drop, R: Source>(
    heap: Heap,
    index: u64,
    input: &mut R,
) -> Result<A, CommandFault>
    ensures { ReadsInput (reader R.left R.failures input.old input.new) result
        (λ input archive. IsContent (A.content archive) × HoldsArchive input (A.content archive))
        (IsRefusedArchive index) }
{
    let at = InputName::Archive(index);
    or_refused!(at, read_archive(heap, input))
}

/// Reads archive `index` of the command line, counted from 0, to its end, and keeps nothing.
pub fn check_archive_input<R: Source>(
    heap: Heap,
    index: u64,
    input: &mut R,
) -> Result<(), CommandFault>
    ensures { ReadsInput (reader R.left R.failures input.old input.new) result (λ input _. IsArchive input)
        (IsRefusedArchive index) }
{
    let at = InputName::Archive(index);
    or_refused!(at, test_archive(heap, input))
}

/// The fault to report if an input after the archive failed with `fault`. If that input was refused, the archive is
/// read to its end first, and its own fault is returned if it has one. Any other `fault` is returned as it is.
pub fn first_refusal<R: Source>(heap: Heap, input: &mut R, fault: CommandFault) -> CommandFault
    ensures { TellsInTurn (reader R.left R.failures input.old input.new) fault result }
{
    match fault {
        CommandFault::Input(at, why) => match check_archive_input(heap, 0, input) {
            Ok(()) => CommandFault::Input(at, why),
            Err(first) => first,
        },
        other => other,
    }
}

/// Reads archive `index` of the command line, counted from 0, and keeps the selected records.
pub fn read_archive_part<A: Archive + Drop, S: Selects, R: Source>(
    heap: Heap,
    index: u64,
    select: &S,
    input: &mut R,
) -> Result<A, CommandFault>
    ensures { ReadsInput (reader R.left R.failures input.old input.new) result
        (λ input archive. HoldsPart input (S.picked select.now) (A.content archive)) (IsRefusedArchive index) }
{
    let at = InputName::Archive(index);
    or_refused!(at, read_part(heap, select, input))
}

/// Reads the archive to which questions are put, and answers them.
pub fn answer_from_archive<A: Archive + Drop, Q: Questions + Drop, R: Source>(
    heap: Heap,
    questions: Q,
    input: &mut R,
) -> Result<Q, CommandFault>
    requires order { AreInOrder (Q.left questions) }
    requires start { (o : Operations) → Q.answered questions o questions }
    ensures { ReadsInput (reader R.left R.failures input.old input.new) result
        (λ input told. HoldsContent input (λ o. (Q.left told ≡ []) × Q.answered questions o told))
        (IsRefusedArchive 0) }
{
    let at = InputName::Archive(0);
    or_refused!(at, answer_by_key::<A, Q, R>(heap, questions, input))
}

/// Reads the archive that is listed, and returns its rows.
pub fn read_rows<R: Source>(heap: Heap, input: &mut R) -> Result<Vec<FindRow, Heap>, CommandFault>
    ensures { ReadsInput (reader R.left R.failures input.old input.new) result
        (λ input rows. HoldsContent input (λ o. IsList o rows.items)) (IsRefusedArchive 0) }
{
    let at = InputName::Archive(0);
    or_refused!(at, list_rows(heap, input))
}

/// Reads the archive that is summarized, and returns its summary.
pub fn summarize_archive<R: Source>(heap: Heap, input: &mut R) -> Result<Summary, CommandFault>
    ensures { ReadsInput (reader R.left R.failures input.old input.new) result
        (λ input entries. HoldsContent input (λ o. entries ≡ summary o)) (IsRefusedArchive 0) }
{
    let at = InputName::Archive(0);
    or_refused!(at, summarize(heap, input))
}

fn read_bytes<S: Source>(
    heap: Heap,
    at: InputName,
    input: &mut S,
) -> Result<Vec<u8, Heap>, CommandFault>
    ensures { ReadsInput (reader S.left S.failures input.old input.new) result (λ input bytes. Holds input bytes.items)
        (λ input name why. (name ≡ at) × IsUnread input why) }
{
    match read_to_end(heap, input) {
        Ok(bytes) => Ok(bytes),
        Err(ReadFault::Device) => Err(CommandFault::Input(at, Why::Device)),
        Err(ReadFault::OutOfMemory) => Err(CommandFault::OutOfMemory),
    }
}

/// Reads all of file `index`.
pub fn read_file<S: Source>(
    heap: Heap,
    index: u64,
    file: &mut S,
) -> Result<Vec<u8, Heap>, CommandFault>
    ensures { ReadsInput (reader S.left S.failures file.old file.new) result (λ file bytes. Holds file bytes.items)
        (IsRefusedFile index) }
{
    read_bytes(heap, InputName::File(index), file)
}

/// Reads OPS, and returns its operations in order.
pub fn read_operations<S: Source>(
    heap: Heap,
    ops: &mut S,
) -> Result<Vec<Operation, Heap>, CommandFault>
    ensures { ReadsInput (reader S.left S.failures ops.old ops.new) result
        (λ ops operations. Gives ops (λ text. IsOperationsText text operations.items)) IsRefusedOps }
{
    let at = InputName::Ops;
    or_refused!(at, read_ops(heap, ops))
}

/// Reads the summary that an archive is compared with.
pub fn read_summary_input<S: Source>(heap: Heap, summary: &mut S) -> Result<Summary, CommandFault>
    ensures { ReadsInput (reader S.left S.failures summary.old summary.new) result
        (λ summary entries. AreEntries entries × Holds summary (summary_text entries)) IsRefusedSummary }
{
    let at = InputName::Summary;
    or_refused!(at, read_summary(heap, summary))
}

/// Reads the script to its end, and then parses it.
pub fn read_script_input<S: Source>(heap: Heap, script: &mut S) -> Result<Script, CommandFault>
    ensures { ReadsInput (reader S.left S.failures script.old script.new) result
        (λ script listed. Gives script (λ bytes. script_of bytes ≡ Ok (listed.sites, acts listed.events.items)))
        IsRefusedScript }
{
    let bytes = read_bytes(heap.share(), InputName::Script, script)?;
    match read_script(heap, &bytes) {
        Ok(listed) => Ok(listed),
        Err(ScriptError::Faulty { fault, line }) => {
            let flaw = script_flaw(fault, line_at(&bytes, line));
            Err(CommandFault::Input(InputName::Script, Why::Script { fault, line, flaw }))
        }
        Err(ScriptError::OutOfMemory) => Err(CommandFault::OutOfMemory),
    }
}

/// Reads the frames of a crash to their end, and then parses them.
pub fn read_frames_input<S: Source>(
    heap: Heap,
    frames: &mut S,
) -> Result<Vec<Frame, Heap>, CommandFault>
    ensures { ReadsInput (reader S.left S.failures frames.old frames.new) result
        (λ frames listed. Gives frames (λ bytes. frames_of bytes ≡ Ok listed.items)) IsRefusedFrames }
{
    let bytes = read_bytes(heap.share(), InputName::Frames, frames)?;
    match read_frames(heap, &bytes) {
        Ok(listed) => Ok(listed),
        Err(FramesError::BadFrame { line }) => {
            let flaw = frame_flaw(line_at(&bytes, line));
            Err(CommandFault::Input(InputName::Frames, Why::BadFrame { line, flaw }))
        }
        Err(FramesError::OutOfMemory) => Err(CommandFault::OutOfMemory),
    }
}
