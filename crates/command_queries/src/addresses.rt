//! The addresses of address arguments, and the status after an answer.
ghost use Rattle.std.specs.Prelude.{◌≡◌, if◌then◌else◌};
ghost use Rattle.command_common.specs.declared.faults.Status.TheVariants.{Partial};
ghost use Rattle.command_queries.specs.Symbolicate.{asked_of, is_symbol};

use archive_core::{Answer, Where};
use command_common::Status;

/// The address of an address argument, in the file or in the loaded image.
pub fn asked_of(load: Option<u64>, address: u64) -> Where
    ensures { result ≡ asked_of load address }
{
    match load {
        Some(load) => Where::Loaded { load, address },
        None => Where::File(address),
    }
}

/// The status after one more answer: unchanged if it is a single symbol, else `Partial`.
pub fn status_after(status: Status, answer: &Answer<'_>) -> Status
    ensures { result ≡ if is_symbol answer.now then status else Partial }
{
    match answer {
        Answer::Symbol(_) => status,
        Answer::Unknown | Answer::NoSymbol | Answer::Conflict(_) => Status::Partial,
    }
}
