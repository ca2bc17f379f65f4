//! Command lines, parsed by `clap`.

ghost use Rattle.std.specs.Prelude.{◌≡◌, ◌⊎◌, IfErr, IfOk, IsErrAnd, OnOk, Some, [], ◌∷◌};
ghost use Rattle.std.specs.Prelude.{false, map, option_map, true};
ghost use Rattle.clap.specs.Words.{IsAmong, found_of, rows_of, subcommand_rows_of};
ghost use Rattle.cli_arguments.specs.Lines.{KeepsInputs, are_accepted, error_kinds, is_in_order, is_path_among};
ghost use Rattle.cli_arguments.specs.Lines.{line_in};
ghost use Rattle.cli_arguments.specs.Lines.{line_of};
ghost use Rattle.cli_arguments.specs.Lines.{named_command, overwrites_input};
ghost use Rattle.cli_arguments.specs.LineView.{line_view};
ghost use Rattle.cli_arguments.specs.LineFaults.{IsHelpUnlessMemory, IsRefusalUnlessMemory, IsRefusedBy, ReadsLine};
ghost use Rattle.cli_arguments.specs.LineFaults.{out_is_input, out_refusal, refusal_in, refusal_of};

use crate::clap_commands::symarch_command;
use crate::commands::signature_named;
use crate::escapes::{has_control, shown};
use crate::line_faults::{LineFault, parse_fault, refused};
use crate::lines::Line;
use crate::spelled_values::all_values;
use clap::ArgMatches;
use clap::error::ErrorKind;
use std::alloc::Global;
use std::convert::AsStr;

/// The line of the command with this name.
fn line_in(alloc: Global, name: &str, matches: &ArgMatches) -> Result<Line, LineFault>
    ensures reads { ReadsLine (line_in (name.now, rows_of (found_of matches.now))) result }
    ensures told { IfErr result (IsRefusedBy (refusal_in (name.now, rows_of (found_of matches.now)))) }
{
    let Some(row) = signature_named(name) else {
        return Err(refused(format!(in alloc; "error: invalid command '{name}'\n")));
    };
    let values = all_values(alloc, row.arguments, matches)?;
    let name = String::from_str(alloc, name)?;
    Ok(Line { name, values })
}

/// The matches of `clap` for these words.
fn matches_of<'a, S: AsStr>(alloc: Global, words: &'a [S]) -> Result<ArgMatches<'a>, LineFault>
    ensures ok { IfOk result (λ m. subcommand_rows_of m ≡ named_command (map S.text words.now)) }
    ensures accepted { OnOk result (error_kinds (map S.text words.now) ≡ []) }
    ensures err { are_accepted (map S.text words.now) ≡ true
        → IfErr result (λ e. e ≡ LineFault.OutOfMemory) }
    ensures help { error_kinds (map S.text words.now) ≡ ErrorKind.DisplayHelp ∷ []
        → IsErrAnd result IsHelpUnlessMemory }
    ensures version { error_kinds (map S.text words.now) ≡ ErrorKind.DisplayVersion ∷ []
        → IsErrAnd result IsHelpUnlessMemory }
    ensures refusal { ¬ IsAmong ErrorKind.DisplayHelp (error_kinds (map S.text words.now))
        → ¬ IsAmong ErrorKind.DisplayVersion (error_kinds (map S.text words.now))
        → IfErr result IsRefusalUnlessMemory }
{
    let command = symarch_command(alloc)?;
    match command.try_get_matches_from(words) {
        Ok(matches) => Ok(matches),
        Err(error) => Err(parse_fault(alloc, &error, has_control(words))),
    }
}

/// The command that was named, and its matches.
fn named_command<'m, 'a>(matches: &'m ArgMatches<'a>) -> Option<(&'a str, &'m ArgMatches<'a>)>
    ensures { option_map (λ p. (p.0.now, rows_of (found_of p.1.now))) result
        ≡ subcommand_rows_of matches.now }
{
    matches.subcommand()
}

/// Whether a path is one of these, compared as text.
fn is_among(path: &str, paths: &[&str]) -> bool
    ensures { result ≡ is_path_among path.now (map (λ p. p.now) paths.now) }
{
    paths.contains(&path)
}

/// The refusal of a line whose OUT is an input.
fn out_is_input(alloc: Global, out: &str) -> LineFault
    ensures told { IsRefusedBy (Some (out_is_input out.now)) result }
    ensures refusal { IsRefusalUnlessMemory result }
{
    match shown(alloc, out) {
        Ok(out) => refused(format!(in alloc;
            "error: invalid OUT '{out}': expected a path that is no input\n"
        )),
        Err(_) => LineFault::OutOfMemory,
    }
}

/// Refuses a line that would overwrite one of its inputs.
fn check_out(alloc: Global, line: &Line) -> Result<(), LineFault>
    ensures ok { OnOk result (overwrites_input (line_view line.now) ≡ false) }
    ensures err { IfErr result (λ e. (e ≡ LineFault.OutOfMemory) ⊎ (overwrites_input (line_view line.now) ≡ true)) }
    ensures refusal { IfErr result IsRefusalUnlessMemory }
    ensures told { IfErr result (IsRefusedBy (out_refusal (line_view line.now))) }
{
    let Some(out) = line.out_path() else {
        return Ok(());
    };
    if is_among(out, &line.inputs(alloc)?) {
        return Err(out_is_input(alloc, out));
    }
    Ok(())
}

/// Parses a command line, whose first word is the program's name.
///
/// # Errors
///
/// A line that `clap` refuses has `clap`'s text. If a word lacks the form of its argument, the text has the argument's
/// name, the word and the form; if OUT is an input, the text has its path. `OutOfMemory` if memory runs out.
pub fn parse_command_line<S: AsStr>(alloc: Global, words: &[S]) -> Result<Line, LineFault>
    // The line is that of the words, by `clap`'s own definition of a command's matches.
    ensures ok { IfOk result (λ line. Some (line_view line) ≡ line_of (map S.text words.now)) }
    ensures accepted { OnOk result (error_kinds (map S.text words.now) ≡ []) }
    ensures in_order { OnOk result (is_in_order (map S.text words.now) ≡ true) }
    ensures keeps_inputs { IfOk result (λ line. KeepsInputs (line_view line)) }

    // A line that `clap` accepts, in which each value has its form and OUT's path is not an input's, is refused only
    // for want of memory.
    ensures err { are_accepted (map S.text words.now) ≡ true
        → is_in_order (map S.text words.now) ≡ true
        → IfErr result (λ e. e ≡ LineFault.OutOfMemory) }
    ensures help { error_kinds (map S.text words.now) ≡ ErrorKind.DisplayHelp ∷ []
        → IsErrAnd result IsHelpUnlessMemory }
    ensures version { error_kinds (map S.text words.now) ≡ ErrorKind.DisplayVersion ∷ []
        → IsErrAnd result IsHelpUnlessMemory }
    ensures refusal { ¬ IsAmong ErrorKind.DisplayHelp (error_kinds (map S.text words.now))
        → ¬ IsAmong ErrorKind.DisplayVersion (error_kinds (map S.text words.now))
        → IfErr result IsRefusalUnlessMemory }

    // Words that `clap` accepts are refused for the first argument of the command with a word that lacks its form, with
    // the first such word and the form; and only if each has its form, for OUT, with its path.
    ensures told { error_kinds (map S.text words.now) ≡ []
        → IfErr result (IsRefusedBy (refusal_of (named_command (map S.text words.now)))) }
{
    let matches = matches_of(alloc, words)?;
    let Some((name, inner)) = named_command(&matches) else {
        return Err(refused(String::from_str(alloc, "error: missing command\n")));
    };
    let line = line_in(alloc, name, inner)?;
    check_out(alloc, &line)?;
    Ok(line)
}
