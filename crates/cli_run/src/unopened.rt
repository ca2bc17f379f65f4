//! The fault of a command whose input could not be opened at its first read.

ghost use Rattle.std.specs.Prelude.{◌≡◌};
ghost use Rattle.cli_files.specs.LazyInputs.{told};
ghost use Rattle.cli_arguments.specs.Inputs.{inputs_view};
ghost use Rattle.cli_standard_error.specs.Names.{input_at};
ghost use Rattle.cli_run.specs.Unopened.{ReportsUnopened, fault_at, unopened_of};

use cli_arguments::Inputs;
use cli_files::{Disk, LazyInput, Unopened};
use cli_standard_error::input_at;
use command_common::{CommandFault, InputName, Status, Why};

/// Why the input with this name was not opened, if it was not.
fn unopened_at<D: Disk>(inputs: &Inputs<LazyInput<'_, D>>, name: InputName) -> Option<Unopened>
    ensures { result ≡ unopened_of told (input_at (inputs_view inputs.now) name) }
{
    input_at(inputs, name)?.unopened()
}

/// The fault of a command that is refused for this input: `CannotOpen` or `OutOfMemory` if it was not opened for this
/// reason, otherwise the command's own fault.
fn fault_at(unopened: Option<Unopened>, name: InputName, why: Why) -> CommandFault
    ensures { result ≡ fault_at unopened name why }
{
    match unopened {
        None => CommandFault::Input(name, why),
        Some(Unopened::Refused(_)) => CommandFault::Input(name, Why::CannotOpen),
        Some(Unopened::OutOfMemory) => CommandFault::OutOfMemory,
    }
}

/// The result of a command; if the input that it refused could not be opened, the fault is `CannotOpen` or
/// `OutOfMemory` instead.
pub fn with_opening_fault<D: Disk>(
    inputs: &Inputs<LazyInput<'_, D>>,
    ended: Result<Status, CommandFault>,
) -> Result<Status, CommandFault>
    ensures { ReportsUnopened told (inputs_view inputs.now) ended result }
{
    match ended {
        Err(CommandFault::Input(name, why)) => {
            Err(fault_at(unopened_at(inputs, name), name, why))
        }
        other => other,
    }
}
