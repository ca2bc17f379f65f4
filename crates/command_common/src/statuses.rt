//! The status of a search, and the exit status of a command.

ghost use Rattle.std.specs.Prelude.{◌≡◌};
ghost use Rattle.command_common.specs.Found.{found_status};
ghost use Rattle.command_common.specs.Statuses.{exit_status};

use crate::{CommandFault, Failure, Status};

/// The exit status for this result: 0, 1, 2, or 4 if memory ran out.
pub fn exit_status(ended: &Result<Status, Failure>) -> u8
    ensures { result ≡ exit_status ended.now }
{
    match ended {
        Ok(Status::Done) => 0,
        Ok(Status::Partial) => 1,
        Ok(Status::SomeRefused) => 2,
        Err(Failure::Command(CommandFault::OutOfMemory)) => 4,
        Err(_) => 2,
    }
}

/// `Partial` if there are no rows, else `Done`.
pub fn found_status<T>(rows: &[T]) -> Status
    ensures { result ≡ found_status rows.now }
{
    if rows.is_empty() {
        Status::Partial
    } else {
        Status::Done
    }
}
