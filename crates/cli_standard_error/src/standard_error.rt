//! The lines on standard error.

ghost use Rattle.std.specs.Prelude.{◌≡◌, [], IfOk, IfSome, None, Some, string_bytes};
ghost use Rattle.command_common.specs.Outputs.{Takes, writer};
ghost use Rattle.command_common.specs.declared.failures.Failure.{Failure};
ghost use Rattle.cli_arguments.specs.Lines.{Line};
ghost use Rattle.text_reports.specs.Report.{line};
ghost use Rattle.cli_standard_error.specs.Hints.{file_of, subject_of, subject_text};
ghost use Rattle.cli_standard_error.specs.StandardError.{IsPushed, SaysHelp, SaysLine, SaysNotes, SaysReport};
ghost use Rattle.cli_standard_error.specs.StandardError.{SaysWanting, note_lines};

use crate::hints::SecondLine;
use crate::second_lines::{report_line, second_line};
use byte_device::{Sink, push_all};
use command_common::Note;
use heap_memory::NoMemory;
use std::alloc::Global;
use std::fmt::{self, Display, Write};
use std::io;

/// The line for words that are refused for this reason.
#[derive(Clone, Copy)]
pub struct RefusedLine<'a>(pub &'a str);

impl Display for RefusedLine<'_> {
    ghost use Rattle.std.specs.Prelude.{◌++◌, Some, codes};

    ghost output = { λ line. Some (codes "symarch: " ++ line.0.now) };

    fn fmt<W: fmt::Write>(&self, f: &mut fmt::Formatter<W>) -> fmt::Result {
        let reason = self.0;
        write!(f, "symarch: {reason}")
    }
}

/// A line with its line feed.
fn line_of<T: Display>(alloc: Global, told: &T) -> Result<String, NoMemory>
    ensures { IfOk result (λ whole. IfSome (T.output told.now) (λ text. string_bytes whole ≡ line text)) }
{
    let mut whole = String::new(alloc);
    writeln!(whole, "{told}")?;
    Ok(whole)
}

/// Writes these bytes, and returns whether the writer accepted all of them.
fn push_whole<E: Sink>(errors: &mut E, bytes: &[u8]) -> bool
    ensures { IsPushed (writer E.held E.failures errors.old errors.new) bytes.now result }
{
    match push_all(errors, bytes) {
        Ok(()) => true,
        Err(_) => false,
    }
}

/// Prints that memory ran out, without using memory.
pub fn print_out_of_memory<E: Sink>(errors: &mut E) -> bool
    ensures { SaysWanting (writer E.held E.failures errors.old errors.new) result }
{
    push_whole(errors, b"symarch: out of memory\n")
}

/// Prints a line; or, if there is no memory for it, that memory ran out. Returns whether the line itself was printed to
/// its end.
pub fn say<E: Sink, T: Display>(alloc: Global, told: &T, errors: &mut E) -> bool
    ensures { IfSome (T.output told.now)
        (λ text. SaysLine (writer E.held E.failures errors.old errors.new) text result) }
{
    match line_of(alloc, told) {
        Ok(whole) => push_whole(errors, whole.as_bytes()),
        Err(NoMemory) => {
            print_out_of_memory(errors);
            false
        }
    }
}

/// Prints the second line of this failure, if there is memory for it.
pub fn print_second_line<E: Sink>(alloc: Global, help: &SecondLine<'_>, errors: &mut E)
    ensures { (asked : Line) (failure : Failure) → Some help.now.path.now ≡ file_of asked failure
        → subject_text help.now.subject ≡ subject_of failure
        → SaysHelp (writer E.held E.failures errors.old errors.new) asked failure }
{
    if let Ok(text) = second_line(alloc, help) {
        push_whole(errors, text.as_bytes());
    }
}

/// Prints why the report failed, if that is known, after the line of that failure.
pub fn print_report_fault<E: Sink>(alloc: Global, reason: Option<io::Error>, errors: &mut E)
    ensures unknown { reason ≡ None → Takes (writer E.held E.failures errors.old errors.new) [] }
    ensures known { IfSome reason (λ _. SaysReport (writer E.held E.failures errors.old errors.new)) }
{
    let Some(reason) = reason else {
        return;
    };
    match report_line(alloc, reason) {
        Ok(line) => push_whole(errors, line.as_bytes()),
        Err(NoMemory) => push_whole(errors, b"  report is standard output\n"),
    };
}

/// The lines of the notes.
fn lines_of(alloc: Global, notes: &[Note]) -> Result<String, NoMemory>
    ensures { IfOk result (λ lines. string_bytes lines ≡ note_lines notes.now) }
{
    let mut lines = String::new(alloc);
    'notes: for note in notes {
        writeln!(lines, "{note}")?;
    }
    Ok(lines)
}

/// Prints one line for each note; or, if there is no memory for the lines, the line for that.
pub fn print_notes<E: Sink>(alloc: Global, notes: &[Note], errors: &mut E)
    ensures { SaysNotes (writer E.held E.failures errors.old errors.new) notes.now }
{
    if notes.is_empty() {
        return;
    }
    match lines_of(alloc, notes) {
        Ok(lines) => push_whole(errors, lines.as_bytes()),
        Err(NoMemory) => push_whole(errors, b"note: out of memory\n"),
    };
}
