//! The printed lines of a case.

use crate::ends::{End, Left};
use archive_core::Digest;
use cli_arguments::LineFault;
use command_common::exit_status;
use heap_memory::NoMemory;
use sha2::{Digest as _, Sha256};
use text_values::Spelled;

// The greatest number of lines of a report that are printed; of a longer report the digest is printed.
const MOST_LINES: usize = 40;

/// Prints the outputs of a case, and its result. For a call without lines it prints that.
pub fn print_left(left: &Left, printed: &mut String) -> Result<(), NoMemory> {
    if left.end == End::Given && left.report.is_empty() {
        return writeln!(printed, "  nothing");
    }
    print_report(&left.report, printed)?;
    if !left.out.is_empty() {
        printed.push_str(if left.is_draft { "  draft " } else { "  OUT " })?;
        print_text(&left.out, printed)?;
    }
    print_end(left.end, printed)
}

/// Prints the length and the digest of bytes.
pub fn print_text(bytes: &[u8], printed: &mut String) -> Result<(), NoMemory> {
    let digest = Spelled(Digest(Sha256::digest(bytes)));
    writeln!(printed, "{} bytes {digest}", bytes.len())
}

// Prints the result of a case. For a call with lines it prints nothing more.
fn print_end(end: End, printed: &mut String) -> Result<(), NoMemory> {
    match end {
        End::Given => Ok(()),
        End::Fault(fault) => writeln!(printed, "  {fault}"),
        End::Command(ended) => {
            if let Err(failure) = ended {
                writeln!(printed, "  {failure}")?;
            }
            writeln!(printed, "  status {}", exit_status(&ended))
        }
    }
}

/// Prints a report, which is an ASCII text, wherever it is cut.
pub fn print_report(report: &[u8], printed: &mut String) -> Result<(), NoMemory> {
    match str::from_utf8(report) {
        Ok(text) => print_lines(text, printed),
        Err(_) => writeln!(printed, "  WRONG: a report that is no text"),
    }
}

// Prints the lines of a text, and whether the last one is cut.
fn print_lines(text: &str, printed: &mut String) -> Result<(), NoMemory> {
    let lines = text.lines().count();
    if lines > MOST_LINES {
        let digest = Spelled(Digest(Sha256::digest(text.as_bytes())));
        return writeln!(printed, "  {lines} lines {digest}");
    }
    for line in text.lines() {
        writeln!(printed, "  | {line}")?;
    }
    if !text.is_empty() && !text.ends_with('\n') {
        writeln!(printed, "  (the last line is cut)")?;
    }
    Ok(())
}

/// Prints why the words of a line have no plan.
pub fn print_line_fault(fault: &LineFault, printed: &mut String) -> Result<(), NoMemory> {
    let (text, status) = match fault {
        LineFault::Help(text) => (text.as_str(), 0),
        LineFault::Refused(text) => (text.as_str(), 3),
        LineFault::OutOfMemory => ("", 4),
    };
    print_lines(text, printed)?;
    writeln!(printed, "  status {status}")
}

/// Prints whether two files are the same, and otherwise the first difference.
pub fn print_same(left: &[u8], right: &[u8], printed: &mut String) -> Result<(), NoMemory> {
    if left == right {
        return writeln!(printed, "  yes, {} bytes", left.len());
    }
    let offset = left.iter().zip(right).take_while(|(l, r)| l == r).count();
    writeln!(printed, "  NO, they differ at {offset}")
}
