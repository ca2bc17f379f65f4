//! The messages of the program on standard error.

use crate::faults::CommandFault;
use byte_device::CannotCreate;
use heap_memory::NoMemory;
use std::error::Error;
use std::fmt;

/// Why the program fails. Its message is the program's name, followed by the text of the variant's value.
#[derive(Clone, Copy, Debug, PartialEq, Eq)]
pub enum Failure {
    /// A command was refused.
    Command(CommandFault),
    /// The output was not created.
    CannotCreate(CannotCreate),
    /// The output was not published: its bytes could not be synced to the disk or renamed, or the file there must not
    /// be replaced.
    CannotReplace,
}

impl Error for Failure {}

#[tactic(auto, unfolding(crate::specs::FaultTexts::failure_text))]
impl fmt::Display for Failure {
    ghost use Rattle.std.specs.Prelude.{Some};
    ghost use Rattle.command_common.specs.FaultTexts.{failure_text};

    ghost output = { λ failure. Some (failure_text failure) };

    fn fmt<W: fmt::Write>(&self, f: &mut fmt::Formatter<W>) -> fmt::Result {
        match *self {
            Failure::Command(fault) => write!(f, "symarch: {fault}"),
            Failure::CannotCreate(refused) => write!(f, "symarch: {refused}"),
            Failure::CannotReplace => f.write_str("symarch: output: cannot replace"),
        }
    }
}

impl From<CommandFault> for Failure {
    ghost use Rattle.std.specs.Prelude.{◌≡◌};
    ghost use Rattle.command_common.specs.declared.failures.Failure.TheVariants.{Command};

    ghost from_gives = { λ fault failure. failure ≡ Command fault };

    fn from(fault: CommandFault) -> Failure {
        Failure::Command(fault)
    }
}

impl From<CannotCreate> for Failure {
    ghost use Rattle.std.specs.Prelude.{◌≡◌};
    ghost use Rattle.command_common.specs.declared.failures.Failure.TheVariants.{CannotCreate};

    ghost from_gives = { λ refused failure. failure ≡ CannotCreate refused };

    fn from(refused: CannotCreate) -> Failure {
        Failure::CannotCreate(refused)
    }
}

impl From<NoMemory> for Failure {
    ghost use Rattle.std.specs.Prelude.{◌≡◌};
    ghost use Rattle.command_common.specs.declared.faults.CommandFault.TheVariants.{OutOfMemory};
    ghost use Rattle.command_common.specs.declared.failures.Failure.TheVariants.{Command};

    ghost from_gives = { λ _ failure. failure ≡ Command OutOfMemory };

    fn from(refused: NoMemory) -> Failure {
        Failure::Command(CommandFault::from(refused))
    }
}
