//! Laws of the definitions about the input with a name.

ghost use Rattle.std.specs.Prelude.{◌≡◌, Some};
ghost use Rattle.cli_files.specs.InputStates.{Told};
ghost use Rattle.command_common.specs.declared.faults.InputName.{InputName};
ghost use Rattle.cli_arguments.specs.Inputs.{Inputs};
ghost use Rattle.cli_arguments.specs.Lines.{Line};
ghost use Rattle.cli_standard_error.specs.Names.{AreOfLine, input_at, path_at};

use byte_device::Source;

/// If a command is refused for an input, the second line has the path of the input that is examined.
pub fn each_name_leads_to_its_path<S: Source>()
    ensures { (told : Told S) (line : Line) (inputs : Inputs S) (name : InputName) (input : S)
        → AreOfLine told line inputs
        → input_at inputs name ≡ Some input
        → path_at line name ≡ Some (told.path input) }
{}
