//! Laws of the definitions about an output without a path, and about inputs that were not opened.

ghost use Rattle.std.specs.Prelude.{◌≡◌, ◌≢◌, ◌⊎◌, [], Err, List, None, Result, Some};
ghost use Rattle.cli_files.specs.InputStates.{Told, Unopened, Waiting, unopened_in};
ghost use Rattle.cli_files.specs.declared.input_state.Unopened.TheVariants.{OutOfMemory as Wanting, Refused};
ghost use Rattle.command_common.specs.declared.notes.Note.{Note};
ghost use Rattle.byte_device.specs.declared.disks.CannotOpen.{CannotOpen as Refusal};
ghost use Rattle.command_common.specs.Outputs.{Outs, Writer};
ghost use Rattle.command_common.specs.declared.failures.Failure.{Failure};
ghost use Rattle.command_common.specs.declared.faults.CommandFault.{CommandFault};
ghost use Rattle.command_common.specs.declared.faults.CommandFault.TheVariants.{Input, OutOfMemory};
ghost use Rattle.command_common.specs.declared.faults.InputName.{InputName};
ghost use Rattle.command_common.specs.declared.faults.Status.{Status};
ghost use Rattle.command_common.specs.declared.faults.Why.{Why};
ghost use Rattle.command_common.specs.declared.faults.Why.TheVariants.{CannotOpen};
ghost use Rattle.cli_arguments.specs.Inputs.{Inputs};
ghost use Rattle.cli_arguments.specs.Lines.{Line};
ghost use Rattle.cli_arguments.specs.declared.plan.Plan.{Plan};
ghost use Rattle.cli_run.specs.Disks.{Carried};
ghost use Rattle.cli_run.specs.Files.{Calls, IsCarriedOut};
ghost use Rattle.cli_standard_error.specs.Names.{input_at};
ghost use Rattle.cli_run.specs.Openings.{HaveOneFile, IsRefusedByDisk};

use byte_device::{Sink, Source, Target};

/// For an output without a path no call is made: it accepts nothing, and is not created.
pub fn nothing_is_called_without_a_path<S: Source, D: Sink, T: Target>()
    ensures { (calls : Calls S D T) (line : Line) (report : Writer) (told : Result Status Failure)
        (notes : List Note)
        (is : IsCarriedOut calls line report told notes)
        → is.path ≡ None
        → calls.called ≡ [] }
{}

/// If a command is refused because an input cannot be opened, the disk refused that input at its first read; there is
/// no other cause.
pub fn refused_by_the_disk<S: Source, D: Sink, T: Target>()
    ensures { (told : Told S) (line : Line) (plan : Plan) (before behind : Inputs S) (out : Outs D T) (report : Writer)
        (result : Result Status CommandFault) (notes noted : List Note) (name : InputName)
        → Carried told line plan before behind out report result notes noted
        → result ≡ Err (Input name CannotOpen)
        → (input : S) × (input_at behind name ≡ Some input) × IsRefusedByDisk told input }
{}

/// If the input at which a command failed was not opened, only the reason for that is reported; if it was opened, the
/// command's own result is reported.
pub fn unopened_inputs_are_told<S: Source, D: Sink, T: Target>()
    ensures refused { (told : Told S) (line : Line) (plan : Plan) (before behind : Inputs S) (out : Outs D T)
        (report : Writer) (result : Result Status CommandFault) (notes noted : List Note) (name : InputName) (why : Why)
        (input : S) (refused : Refusal)
        (is : Carried told line plan before behind out report result notes noted)
        → is.ended ≡ Err (Input name why)
        → input_at behind name ≡ Some input
        → told.stage input ≡ Unopened (Refused refused)
        → result ≡ Err (Input name CannotOpen) }
    ensures wanting { (told : Told S) (line : Line) (plan : Plan) (before behind : Inputs S) (out : Outs D T)
        (report : Writer) (result : Result Status CommandFault) (notes noted : List Note) (name : InputName) (why : Why)
        (input : S)
        (is : Carried told line plan before behind out report result notes noted)
        → is.ended ≡ Err (Input name why)
        → input_at behind name ≡ Some input
        → told.stage input ≡ Unopened Wanting
        → result ≡ Err OutOfMemory }
    ensures opened { (told : Told S) (line : Line) (plan : Plan) (before behind : Inputs S) (out : Outs D T)
        (report : Writer) (result : Result Status CommandFault) (notes noted : List Note) (name : InputName) (why : Why)
        (input : S)
        (is : Carried told line plan before behind out report result notes noted)
        → is.ended ≡ Err (Input name why)
        → input_at behind name ≡ Some input
        → unopened_in (told.stage input) ≡ None
        → (result ≡ Err (Input name why)) × (why ≢ CannotOpen) }
{}

/// Two calls are refused at one input, whose disks have the same file for it, or neither has one. Then both report that
/// it cannot be opened, or neither does; unless one is refused before the first read of the input, for instance for its
/// number.
pub fn one_opening<R: Source, S: Source, D: Sink, T: Target>()
    ensures { (told : Told R) (also : Told S) (line : Line) (plan another : Plan) (before behind : Inputs R)
        (first last : Inputs S) (out more : Outs D T) (report told_also : Writer)
        (result other : Result Status CommandFault) (notes noted old new : List Note) (name : InputName)
        (why reason : Why) (input : R) (there : S)
        → Carried told line plan before behind out report result notes noted
        → Carried also line another first last more told_also other old new
        → result ≡ Err (Input name why)
        → other ≡ Err (Input name reason)
        → input_at behind name ≡ Some input
        → input_at last name ≡ Some there
        → HaveOneFile told also input there
        → why ≡ CannotOpen
        → (also.stage there ≡ Waiting) ⊎ (reason ≡ CannotOpen) }
{}
