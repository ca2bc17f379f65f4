//! Why a command line has no plan.

ghost use Rattle.std.specs.Prelude.{◌≡◌, ◌≢◌, MatchResult};
ghost use Rattle.clap.specs.Words.{kind_of};
ghost use Rattle.cli_arguments.specs.LineFaults.{IsHelpUnlessMemory, IsRefusalUnlessMemory};

use crate::escapes::shown_line;
use clap::Error;
use clap::error::ErrorKind;
use std::alloc::{AllocError, AllocFailed, Global};

/// Why a command line has no plan.
#[derive(Debug, Drop)]
pub enum LineFault {
    /// The line is refused: status 3. The text begins with `error: ` and ends with a line feed, as each error text of
    /// `clap` does.
    Refused(String),
    /// Memory ran out: status 4.
    OutOfMemory,
    /// The line asks for help or for the version, with its text: status 0.
    Help(String),
}

impl From<AllocError> for LineFault {
    ghost use Rattle.cli_arguments.specs.declared.line_faults.LineFault.TheVariants.{OutOfMemory};

    ghost from_gives = { λ _ e. e ≡ OutOfMemory };

    fn from(_refused: AllocError) -> LineFault {
        LineFault::OutOfMemory
    }
}

impl<T: Drop> From<AllocFailed<T>> for LineFault {
    ghost use Rattle.cli_arguments.specs.declared.line_faults.LineFault.TheVariants.{OutOfMemory};

    ghost from_gives = { λ _ e. e ≡ OutOfMemory };

    fn from(_refused: AllocFailed<T>) -> LineFault {
        LineFault::OutOfMemory
    }
}

/// The fault of a line for an error of `clap` with this kind, which is not lack of memory, and this text.
fn asked_or_refused(kind: ErrorKind, text: String) -> LineFault
    ensures help { kind ≡ ErrorKind.DisplayHelp → result ≡ LineFault.Help text }
    ensures version { kind ≡ ErrorKind.DisplayVersion → result ≡ LineFault.Help text }
    ensures refusal { kind ≢ ErrorKind.DisplayHelp → kind ≢ ErrorKind.DisplayVersion
        → result ≡ LineFault.Refused text }
{
    if kind == ErrorKind::DisplayHelp || kind == ErrorKind::DisplayVersion {
        LineFault::Help(text)
    } else {
        LineFault::Refused(text)
    }
}

/// The text of an error; if a refused word has control characters, the text is one line, so that no word adds a line of
/// its own.
fn error_text(alloc: Global, error: &Error, controlled: bool) -> Option<String> {
    let text = error.to_string(alloc).ok()?;
    match error.kind() {
        ErrorKind::DisplayHelp | ErrorKind::DisplayVersion => Some(text),
        _ if controlled => shown_line(alloc, &text).ok(),
        _ => Some(text),
    }
}

/// The fault of a line for this error of `clap`; `controlled` is whether a word of the line has a control character.
pub fn parse_fault(alloc: Global, error: &Error, controlled: bool) -> LineFault
    ensures memory { kind_of error.now ≡ ErrorKind.OutOfMemory → result ≡ LineFault.OutOfMemory }
    ensures help { kind_of error.now ≡ ErrorKind.DisplayHelp → IsHelpUnlessMemory result }
    ensures version { kind_of error.now ≡ ErrorKind.DisplayVersion → IsHelpUnlessMemory result }
    ensures refusal { kind_of error.now ≢ ErrorKind.DisplayHelp
        → kind_of error.now ≢ ErrorKind.DisplayVersion → IsRefusalUnlessMemory result }
{
    let kind = error.kind();
    if kind == ErrorKind::OutOfMemory {
        return LineFault::OutOfMemory;
    }
    match error_text(alloc, error, controlled) {
        Some(text) => asked_or_refused(kind, text),
        None => LineFault::OutOfMemory,
    }
}

/// A refusal with a text of the program's own, or lack of memory if there is no text.
pub fn refused(text: Result<String, AllocError>) -> LineFault
    ensures text { MatchResult text (λ t. result ≡ LineFault.Refused t)
        (λ _. result ≡ LineFault.OutOfMemory) }
    ensures refusal { IsRefusalUnlessMemory result }
{
    match text {
        Ok(text) => LineFault::Refused(text),
        Err(_) => LineFault::OutOfMemory,
    }
}
