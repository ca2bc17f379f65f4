//! The program over its words, the files of the system, its report and standard error.

ghost use Rattle.std.specs.Prelude.{◌≡◌, ◌≢◌, MatchResult, map, string_bytes};
ghost use Rattle.std.specs.IoError.{error_kind};
ghost use Rattle.command_common.specs.Outputs.{writer};
ghost use Rattle.cli_files.specs.LazyInputs.{told_by};
ghost use Rattle.cli_files.specs.Fresh.{AreFresh};
ghost use Rattle.cli_arguments.specs.LineView.{line_view};
ghost use Rattle.cli_run.specs.Files.{calls_of};
ghost use Rattle.cli_standard_error.specs.Ending.{IsUnreadable, WantsMemory};
ghost use Rattle.cli_run.specs.Ends.{EndsWords, IsIdle};

use crate::files::execute_line;
use byte_device::{Placed, Sink, Source, Target};
use cli_arguments::{Plan, parse_command_line};
use cli_files::{Disk, OpenedFile, OutFile, OutTarget, PlacedFile, SystemDisk, SystemFiles};
use cli_standard_error::{Seen, end, end_with_line_fault, refuse_words};
use std::io::{self, BufReader, ErrorKind};
use std::rt::Files;

/// Carries out the words of the command line over these files, and returns the exit status. The report, help and the
/// version are written to `report`. To `errors` are written the notes, one line each; or why the command failed, in one
/// line, and a hint for a person in a second one.
pub fn run<'f, F: Files, P: Sink, E: Sink>(
    words: io::Result<Vec<String>>,
    files: &mut SystemFiles<'f, F>,
    report: &mut P,
    errors: &mut E,
) -> u8
    requires { AreFresh files.old }
    ensures { let calls = calls_of
        (told_by ⟦<SystemDisk<'f, F> as Disk>⟧ ⟦<OpenedFile<BufReader<F::File>> as Source>⟧
        ⟦<PlacedFile<F::File> as Placed>⟧)
        ⟦<OutFile<'f, F> as Sink>⟧.held
        ⟦<OutFile<'f, F> as Sink>⟧.failures ⟦<OutTarget<'f, F> as Target>⟧.published
        ⟦<OutTarget<'f, F> as Target>⟧.failures files.old files.new in
        let told = writer P.held P.failures report.old report.new in
        let standard_error = writer E.held E.failures errors.old errors.new in
        MatchResult words (λ read. EndsWords calls (map string_bytes read.items) told standard_error result)
        (λ error. IsIdle calls
        × (error_kind error ≡ ErrorKind.OutOfMemory → WantsMemory told standard_error result)
        × (error_kind error ≢ ErrorKind.OutOfMemory → IsUnreadable told standard_error result)) }
{
    match words {
        Ok(words) => run_words(&words, files, report, errors),
        Err(error) => refuse_words(files.alloc(), &error, report, errors),
    }
}

fn run_words<'f, F: Files, P: Sink, E: Sink>(
    words: &[String],
    files: &mut SystemFiles<'f, F>,
    report: &mut P,
    errors: &mut E,
) -> u8
    requires { AreFresh files.old }
    ensures { let calls = calls_of
        (told_by ⟦<SystemDisk<'f, F> as Disk>⟧ ⟦<OpenedFile<BufReader<F::File>> as Source>⟧
        ⟦<PlacedFile<F::File> as Placed>⟧)
        ⟦<OutFile<'f, F> as Sink>⟧.held
        ⟦<OutFile<'f, F> as Sink>⟧.failures ⟦<OutTarget<'f, F> as Target>⟧.published
        ⟦<OutTarget<'f, F> as Target>⟧.failures files.old files.new in
        EndsWords calls (map string_bytes words.now) (writer P.held P.failures report.old report.new)
        (writer E.held E.failures errors.old errors.new) result }
{
    let alloc = files.alloc();
    match parse_command_line(alloc, words) {
        Ok(line) => {
            let mut seen = Seen::NOTHING;
            let ended = execute_line(files, &line, &Plan::of(&line), report, &mut seen);
            end(alloc, &line, ended, seen, errors)
        }
        Err(fault) => end_with_line_fault(alloc, fault, report, errors),
    }
}
