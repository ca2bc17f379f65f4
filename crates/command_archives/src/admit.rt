//! `admit IN OUT FILE...`, which passes over refused FILEs, or fails for the first of them.
ghost use Rattle.std.specs.Prelude.{◌≡◌, ◌≢◌, ◌++◌, ℕ, List, length, map, string_bytes, Ok, Err, OnOk, IfOk, IfErr};
ghost use Rattle.std.specs.List.{list_any};
ghost use Rattle.join_core.specs.Listing.{listing};
ghost use Rattle.archive_image_admission.specs.File.{parts, slice_in, IsAcceptedFile, IsTakeFault};
ghost use Rattle.byte_lazy_inputs.specs.declared.openings.Opening.TheVariants.{Fine, OutOfMemory};
ghost use Rattle.command_common.specs.declared.faults.Why.{Why};
ghost use Rattle.command_archives.specs.Admit.{admit_as_it_comes};
ghost use Rattle.command_archives.specs.PassedOver.{Becomes, EndsAdmit, EndsPassing, NotesAdmit, NotesRetiredPassing};
ghost use Rattle.command_archives.specs.PassedOver.{Outcome, admit_passing_as_it_comes, why_passed};
ghost use Rattle.command_archives.specs.InnerArriving.{AreFirstRows, Brings, HasCome, is_passed, lines_again};
ghost use Rattle.command_archives.specs.InnerArriving.{with_status};
ghost use Rattle.archive_core.specs.Content.{Operations, changes};
ghost use Rattle.archive_merge.specs.Arrivals.{arrival_of};
ghost use Rattle.command_archives.specs.InnerNotes.{IsNoted};
ghost use Rattle.command_archives.specs.InnerArrivalJoins.{telling};
ghost use Rattle.command_archives.specs.Notes.{NotesRetired, retired_notes};
ghost use Rattle.command_common.specs.declared.faults.CommandFault.TheVariants.{Input};
ghost use Rattle.command_common.specs.declared.faults.InputName.{InputName};
ghost use Rattle.command_common.specs.declared.faults.InputName.TheVariants.{File};
ghost use Rattle.command_archives.specs.Begun.{EndsBegun};
ghost use Rattle.command_common.specs.Ends.{EndsStreamed};
ghost use Rattle.command_common.specs.Inputs.{EachUnfailed, Holds, IsAccepted, IsFileRefused};
ghost use Rattle.command_common.specs.Inputs.{IsFirstRefused, IsRefusal, IsRefusedBytes};
ghost use Rattle.command_common.specs.Inputs.{IsRefusedFile, ReadsInput, ReadsInputs, reader, readers};
ghost use Rattle.command_common.specs.Outputs.{out_of, outs, writer};

use crate::arriving::{Arrivals, update_rows};
use crate::file_rows::file_lines;
use crate::merging::merge_operations;
use crate::notes::note_retired;
use archive_core::Slice;
use archive_image_admission::laws::one_take_fault;
use archive_image_admission::{TakeFault, slice_file};
use archive_merge::Arrival;
use byte_device::{Output, Sink, Source, Target};
use byte_lazy_inputs::{Opening, Opens};
use command_common::{
    CommandFault, InputName, Note, Status, Why, first_refusal, publish_draft, read_file,
};
use heap_memory::{Heap, NoMemory};

fn refusal_of_file(index: u64, fault: TakeFault) -> CommandFault
    ensures refused { (bytes : List ℕ) → IsTakeFault bytes fault
        → IsRefusal (IsRefusedBytes index bytes) (Unit {0}) result }
{
    match fault {
        TakeFault::OutOfMemory => CommandFault::OutOfMemory,
        fault => CommandFault::Input(InputName::File(index), Why::Take(fault)),
    }
}

/// The slices of file `index`, from its bytes: one entry for each part, `None` for a part that is no slice.
fn slices_in(index: u64, bytes: Vec<u8, Heap>) -> Result<Vec<Option<Slice>, Heap>, CommandFault>
    ensures accepted { OnOk result (IsAcceptedFile bytes.items) }
    ensures slices { IfOk result (λ slices. slices.items ≡ map slice_in (parts bytes.items)) }
    ensures refused { IfErr result (IsRefusal (IsRefusedBytes index bytes.items) (Unit {0})) }
{
    match slice_file(bytes) {
        Ok(slices) => Ok(slices),
        Err(fault) => Err(refusal_of_file(index, fault)),
    }
}

/// Reads the file with this number, and returns its slices.
fn read_slices<S: Source>(
    heap: &Heap,
    index: u64,
    file: &mut S,
) -> Result<Vec<Option<Slice>, Heap>, CommandFault>
    ensures { ReadsInput (reader S.left S.failures file.old file.new) result (λ file slices. (bytes : List ℕ)
        × IsAcceptedFile bytes × Holds file bytes × (slices.items ≡ map slice_in (parts bytes)))
        (IsRefusedFile index) }
{
    let bytes = read_file(heap.share(), index, file)?;
    let slices = slices_in(index, bytes)?;
    Ok(slices)
}

/// Adds the slices and the rows of the file with this number.
fn admit_file<S: Source>(
    heap: &Heap,
    arrivals: &mut Arrivals,
    index: u64,
    file: &mut S,
) -> Result<(), CommandFault>
    ensures { ReadsInput (reader S.left S.failures file.old file.new) result (λ file _. (bytes : List ℕ)
        × IsAcceptedFile bytes × Holds file bytes × Brings arrivals.old arrivals.new index (Ok bytes))
        (IsRefusedFile index) }
{
    let slices = read_slices(heap, index, file)?;
    arrivals.take_slices(index, slices)?;
    Ok(())
}

fn admit_files<S: Source>(heap: &Heap, files: &mut [S]) -> Result<Arrivals, CommandFault>
    ensures { let known = readers S.left S.failures files.old files.new in
        ReadsInputs result (λ arrivals. (texts : List (List ℕ)) × HasCome (λ _. Fine) known (map Ok texts) arrivals.came
        arrivals.first_rows.items arrivals.rows.items)
        (IsFirstRefused File IsAccepted IsFileRefused known) (EachUnfailed known) }
{
    let mut arrivals = Arrivals::none(heap);
    'files: for (index, file) in files.iter_mut().enumerate() {
        admit_file(heap, &mut arrivals, index as u64, file)?;
    }
    Ok(arrivals)
}

/// Why an input is refused; fails if memory ran out.
fn why_refused(fault: CommandFault) -> Result<Why, NoMemory>
    ensures { IfOk result (λ why. (name : InputName) × (fault ≡ Input name why)) }
{
    match fault {
        CommandFault::Input(_, why) => Ok(why),
        _ => Err(NoMemory),
    }
}

/// Why a refused file is passed over; fails if memory ran out at its opening.
fn why_passed(opening: Opening, why: Why) -> Result<Why, NoMemory>
    ensures why { IfOk result (λ told. told ≡ why_passed opening why) }
    ensures opened { OnOk result (opening ≢ OutOfMemory) }
{
    match opening {
        Opening::Fine => Ok(why),
        Opening::Refused => Ok(Why::CannotOpen),
        Opening::OutOfMemory => Err(NoMemory),
    }
}

/// Adds the row of the file with this number, which is refused.
fn pass_file<S: Source + Opens>(
    arrivals: &mut Arrivals,
    index: u64,
    file: &S,
    why: Why,
) -> Result<(), NoMemory>
    ensures { OnOk result ((told : Why) × (S.opening_of file.now ≢ OutOfMemory)
        × (told ≡ why_passed (S.opening_of file.now) why) × Brings arrivals.old arrivals.new index (Err told)) }
{
    let told = why_passed(file.opening(), why)?;
    arrivals.pass_over(index, told)?;
    Ok(())
}

/// Adds the slices and the rows of the file with this number; or passes it over, and adds its row. Returns whether it
/// was passed over.
fn take_file<S: Source + Opens>(
    heap: &Heap,
    arrivals: &mut Arrivals,
    index: u64,
    file: &mut S,
) -> Result<bool, NoMemory>
    ensures { IfOk result (λ passed. (outcome : Outcome)
        × Becomes S.opening_of (reader S.left S.failures file.old file.new) outcome
        × Brings arrivals.old arrivals.new index outcome × (passed ≡ is_passed outcome)) }
{
    match read_slices(heap, index, file) {
        Ok(slices) => {
            arrivals.take_slices(index, slices)?;
            Ok(false)
        }
        Err(fault) => {
            let why = why_refused(fault)?;
            pass_file(arrivals, index, file, why)?;
            Ok(true)
        }
    }
}

/// Returns the slices and rows of the files, and whether one of them was passed over.
fn take_files<S: Source + Opens>(heap: &Heap, files: &mut [S]) -> Result<(Arrivals, bool), NoMemory>
    ensures { let known = readers S.left S.failures files.old files.new in
        IfOk result (λ taken. (outcomes : List Outcome) × HasCome S.opening_of known outcomes taken.0.came
        taken.0.first_rows.items taken.0.rows.items × (taken.1 ≡ list_any is_passed outcomes)) }
{
    let mut arrivals = Arrivals::none(heap);
    let mut passed = false;
    'files: for (index, file) in files.iter_mut().enumerate() {
        let one = take_file(heap, &mut arrivals, index as u64, file)?;
        passed |= one;
    }
    Ok((arrivals, passed))
}

/// The lines of the rows, updated by the arrival of each slice in IN. Adds a note for each slice that IN retires.
fn report_arrivals(
    heap: Heap,
    arrivals: Arrivals,
    arrived: &[Arrival],
    notes: &mut Vec<Note, Heap>,
) -> Result<String<Heap>, NoMemory>
    requires are_first { (records : List (List ℕ))
        × AreFirstRows (listing arrivals.came) arrivals.first_rows.items arrivals.rows.items records }
    requires told { length arrived.now ≡ length (listing arrivals.came) }
    ensures lines { IfOk result (λ lines. (o : Operations) (records : List (List ℕ))
        → AreFirstRows (listing arrivals.came) arrivals.first_rows.items arrivals.rows.items records
        → arrived.now ≡ map (arrival_of o) (listing arrivals.came)
        → string_bytes lines ≡ lines_again arrivals.rows.items records (changes o)) }
    ensures noted { OnOk result ((o : Operations) → arrived.now ≡ map (arrival_of o) (listing arrivals.came)
        → notes.new.items ≡ notes.old.items ++ retired_notes o arrivals.came) }
{
    let Arrivals {
        came,
        first_rows,
        rows,
    } = arrivals;
    note_retired(notes, came.operations(), arrived)?;
    let mut again = rows;
    update_rows(&mut again, &first_rows, arrived);
    file_lines(heap, &again)
}

/// Writes IN's archive with the slices to OUT, and their rows and the sizes to the report: a slice that IN has or
/// retires is known. Adds a note for each slice that IN retires.
fn write_admitted<R: Source, T: Target, P: Sink>(
    heap: Heap,
    input: &mut R,
    arrivals: Arrivals,
    notes: &mut Vec<Note, Heap>,
    out: &mut Output<T::Draft, T>,
    report: &mut P,
) -> Result<Status, CommandFault>
    requires { (records : List (List ℕ))
        × AreFirstRows (listing arrivals.came) arrivals.first_rows.items arrivals.rows.items records }
    ensures ends { (records : List (List ℕ))
        → AreFirstRows (listing arrivals.came) arrivals.first_rows.items arrivals.rows.items records
        → EndsBegun (reader R.left R.failures input.old input.new)
        (λ input. telling input arrivals.came (lines_again arrivals.rows.items records))
        (out_of (outs T.Draft.held T.Draft.failures T.published T.failures out.old out.new))
        (writer P.held P.failures report.old report.new) result }
    ensures noted { OnOk result (IsNoted (reader R.left R.failures input.old input.new) arrivals.came
        notes.old.items notes.new.items) }
{
    let (sizes, told) = merge_operations(&heap, input, arrivals.came.operations(), &mut out.draft)?;
    let lines = report_arrivals(heap, arrivals, &told.arrivals, notes)?;
    publish_draft(lines, sizes, out, report)
}

/// `admit` that fails for a refused file.
fn admit_all<R: Source, S: Source, T: Target, P: Sink>(
    heap: Heap,
    input: &mut R,
    files: &mut [S],
    notes: &mut Vec<Note, Heap>,
    out: &mut Output<T::Draft, T>,
    report: &mut P,
) -> Result<Status, CommandFault>
    ensures ends { let known = out_of (outs T.Draft.held T.Draft.failures T.published T.failures out.old out.new) in
        EndsStreamed (admit_as_it_comes (reader R.left R.failures input.old input.new)
        (readers S.left S.failures files.old files.new) known.draft) known
        (writer P.held P.failures report.old report.new) result }
    ensures noted { OnOk result (NotesRetired (reader R.left R.failures input.old input.new)
        (readers S.left S.failures files.old files.new) notes.old.items notes.new.items) }
{
    match admit_files(&heap, files) {
        Ok(arrivals) => write_admitted(heap, input, arrivals, notes, out, report),
        Err(fault) => Err(first_refusal(heap, input, fault)),
    }
}

/// `SomeRefused` in place of `Done` if a file was passed over; a fault is kept.
fn with_status(passed: bool, ended: Result<Status, CommandFault>) -> Result<Status, CommandFault>
    ensures { result ≡ with_status passed ended }
{
    match ended {
        Ok(_) if passed => Ok(Status::SomeRefused),
        Ok(_) => Ok(Status::Done),
        Err(fault) => Err(fault),
    }
}

/// `admit` that passes over refused files.
fn admit_passing<R: Source, S: Source + Opens, T: Target, P: Sink>(
    heap: Heap,
    input: &mut R,
    files: &mut [S],
    notes: &mut Vec<Note, Heap>,
    out: &mut Output<T::Draft, T>,
    report: &mut P,
) -> Result<Status, CommandFault>
    ensures ends { let known = out_of (outs T.Draft.held T.Draft.failures T.published T.failures out.old out.new) in
        EndsPassing (admit_passing_as_it_comes S.opening_of (reader R.left R.failures input.old input.new)
        (readers S.left S.failures files.old files.new) known.draft) known
        (writer P.held P.failures report.old report.new) result }
    ensures noted { OnOk result (NotesRetiredPassing S.opening_of (reader R.left R.failures input.old input.new)
        (readers S.left S.failures files.old files.new) notes.old.items notes.new.items) }
{
    one_take_fault();
    match take_files(&heap, files) {
        Ok((arrivals, passed)) => {
            let ended = write_admitted(heap, input, arrivals, notes, out, report);
            with_status(passed, ended)
        }
        Err(NoMemory) => Err(CommandFault::OutOfMemory),
    }
}

/// Writes IN's archive with the slices of each file to OUT, and a row for each part and the sizes to the report. The
/// files are read first, in the order of the command line, each to its end; then IN is merged with their slices as it
/// is read, in the memory of these slices, of one record and of 57 bytes for each retirement. A note is added for each
/// slice of the files that IN retires, in the order of their records. With `keep_going`, a refused file is passed over:
/// its row has the reason, and the status is `SomeRefused`. Without it, IN is tested to its end, and the command fails.
///
/// # Errors
///
/// `Input` for IN or, without `keep_going`, for the first refused input, in the order of the command line; `Output` and
/// `Report` if that writer failed; `OutOfMemory`.
pub fn run_admit<R: Source, S: Source + Opens, T: Target, P: Sink>(
    heap: Heap,
    keep_going: bool,
    input: &mut R,
    files: &mut [S],
    notes: &mut Vec<Note, Heap>,
    out: &mut Output<T::Draft, T>,
    report: &mut P,
) -> Result<Status, CommandFault>
    ensures ends { EndsAdmit keep_going S.opening_of (reader R.left R.failures input.old input.new)
        (readers S.left S.failures files.old files.new)
        (out_of (outs T.Draft.held T.Draft.failures T.published T.failures out.old out.new))
        (writer P.held P.failures report.old report.new) result }
    ensures noted { OnOk result (NotesAdmit keep_going S.opening_of (reader R.left R.failures input.old input.new)
        (readers S.left S.failures files.old files.new) notes.old.items notes.new.items) }
{
    if keep_going {
        admit_passing(heap, input, files, notes, out, report)
    } else {
        admit_all(heap, input, files, notes, out, report)
    }
}
