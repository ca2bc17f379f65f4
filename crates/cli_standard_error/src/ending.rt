//! The messages of the program at its end, and its exit status.

ghost use Rattle.std.specs.Prelude.{◌≡◌, ◌≢◌, Err, MatchResult, Ok};
ghost use Rattle.std.specs.IoError.{error_kind};
ghost use Rattle.command_common.specs.Outputs.{writer};
ghost use Rattle.command_common.specs.Statuses.{exit_status};
ghost use Rattle.cli_arguments.specs.LineView.{line_view};
ghost use Rattle.cli_standard_error.specs.Ending.{EndsLine, IsUnreadable, WantsMemory};
ghost use Rattle.cli_standard_error.specs.StandardError.{SaysFailure, SaysNotes, after_error, reason_in};

use crate::hints::{Seen, second_line_of};
use crate::standard_error::{
    RefusedLine, print_notes, print_out_of_memory, print_second_line, say,
};
use byte_device::{Sink, push_all};
use cli_arguments::{Line, LineFault, without_line_feed};
use command_common::{Failure, Note, Status, exit_status};
use heap_memory::Heap;
use std::alloc::Global;
use std::io::{self, ErrorKind};

/// The exit status of help and of the version.
const DONE: u8 = 0;

/// The exit status of a refused command line.
const BAD_LINE: u8 = 3;

/// The exit status of a command whose memory ran out.
const OUT_OF_MEMORY: u8 = 4;

/// Ends the program: prints the notes of a command, or why it failed.
pub fn end<E: Sink>(
    alloc: Global,
    line: &Line,
    ended: Result<(Status, Vec<Note, Heap>), Failure>,
    seen: Seen,
    errors: &mut E,
) -> u8
    ensures says { MatchResult ended
        (λ both. SaysNotes (writer E.held E.failures errors.old errors.new) both.1.items)
        (λ failure. SaysFailure (writer E.held E.failures errors.old errors.new) (line_view line.now) failure) }
    ensures status { MatchResult ended
        (λ both. result ≡ exit_status (Ok both.0))
        (λ failure. result ≡ exit_status (Err failure)) }
{
    match ended {
        Ok((status, notes)) => {
            print_notes(alloc, &notes, errors);
            exit_status(&Ok(status))
        }
        Err(failure) => {
            say_failure(alloc, line, failure, seen, errors);
            exit_status(&Err(failure))
        }
    }
}

/// Prints why a line failed, and then the second line.
fn say_failure<E: Sink>(alloc: Global, line: &Line, failure: Failure, seen: Seen, errors: &mut E)
    ensures { SaysFailure (writer E.held E.failures errors.old errors.new) (line_view line.now) failure }
{
    if !say(alloc, &failure, errors) {
        return;
    }
    if let Some(help) = second_line_of(line, &failure, seen) {
        print_second_line(alloc, &help, errors);
    }
}

/// Ends the program for words that have no plan.
pub fn end_with_line_fault<P: Sink, E: Sink>(
    alloc: Global,
    fault: LineFault,
    report: &mut P,
    errors: &mut E,
) -> u8
    ensures { EndsLine fault (writer P.held P.failures report.old report.new)
        (writer E.held E.failures errors.old errors.new) result }
{
    match fault {
        LineFault::Help(text) => {
            let _ = push_all(report, text.as_bytes());
            DONE
        }
        LineFault::Refused(text) => {
            say(alloc, &RefusedLine(reason_in(&text)), errors);
            BAD_LINE
        }
        LineFault::OutOfMemory => {
            print_out_of_memory(errors);
            OUT_OF_MEMORY
        }
    }
}

/// The reason in the text of a refused line, which begins with `error: ` and ends with a line feed.
fn reason_in(text: &str) -> &str
    ensures { result.now ≡ reason_in text.now }
{
    after_error(without_line_feed(text))
}

fn after_error(text: &str) -> &str
    ensures { result.now ≡ after_error text.now }
{
    match text.strip_prefix("error: ") {
        Some(reason) => reason,
        None => text,
    }
}

/// Refuses words that could not be read: there was no memory for them, or one is not UTF-8 text.
pub fn refuse_words<P: Sink, E: Sink>(
    alloc: Global,
    error: &io::Error,
    report: &mut P,
    errors: &mut E,
) -> u8
    ensures memory { error_kind error.now ≡ ErrorKind.OutOfMemory
        → WantsMemory (writer P.held P.failures report.old report.new)
        (writer E.held E.failures errors.old errors.new) result }
    ensures text { error_kind error.now ≢ ErrorKind.OutOfMemory
        → IsUnreadable (writer P.held P.failures report.old report.new)
        (writer E.held E.failures errors.old errors.new) result }
{
    if error.kind() == ErrorKind::OutOfMemory {
        end_with_line_fault(alloc, LineFault::OutOfMemory, report, errors)
    } else {
        say(
            alloc,
            &RefusedLine("invalid word: expected UTF-8 text"),
            errors,
        );
        BAD_LINE
    }
}
