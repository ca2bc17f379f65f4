//! The second line of a failure, for a person; programs read the first. It is one line, whatever a path or the error of
//! the system contains, and begins with two spaces, so that it is distinct from every other line.

ghost use Rattle.std.specs.Prelude.{◌≡◌, ◌++◌, codes, false, IfOk, List, string_bytes, ℕ};
ghost use Rattle.cli_arguments.specs.Shown.{shown};
ghost use Rattle.text_reports.specs.Report.{line};
ghost use Rattle.cli_standard_error.specs.Hints.{subject_text};
ghost use Rattle.cli_standard_error.specs.StandardError.{has_line_feed};

use crate::hints::SecondLine;
use cli_arguments::shown;
use heap_memory::NoMemory;
use std::alloc::Global;
use std::fmt::{Display, Write};
use std::io;

/// Whether a text has a line feed.
fn has_line_feed(text: &[u8]) -> bool
    ensures { result ≡ has_line_feed text.now }
{
    text.iter().any(|byte| *byte == b'\n')
}

/// A text, if it is one line, and else the empty text.
fn one_line(text: &str) -> &str
    ensures { has_line_feed result.now ≡ false }
{
    if has_line_feed(text.as_bytes()) {
        ""
    } else {
        text
    }
}

/// The text that contracts leave free in a line.
fn free_text<T: Display>(alloc: Global, told: &T) -> Result<String, NoMemory>
    ensures { IfOk result (λ free. has_line_feed (string_bytes free) ≡ false) }
{
    let mut free = String::new(alloc);
    write!(free, "{told}")?;
    Ok(String::from_str(alloc, one_line(&free))?)
}

/// The second line of a failure. It is one line, whatever the path contains.
#[tactic(auto, using(crate::proofs::OneLine::feedless))]
pub fn second_line(alloc: Global, help: &SecondLine<'_>) -> Result<String, NoMemory>
    ensures one { has_line_feed (shown help.now.path.now) ≡ false }
    ensures text { IfOk result (λ text. (free : List ℕ) × (has_line_feed free ≡ false)
        × (string_bytes text ≡ line (codes "  " ++ subject_text help.now.subject
        ++ codes " is " ++ shown help.now.path.now ++ free))) }
{
    let subject = help.subject;
    let path = shown(alloc, help.path)?;
    let known = free_text(alloc, help)?;
    let mut text = String::new(alloc);
    writeln!(text, "  {subject} is {path}{known}")?;
    Ok(text)
}

/// The line for the reason why the report failed.
pub fn report_line(alloc: Global, reason: io::Error) -> Result<String, NoMemory>
    ensures { IfOk result (λ text. (free : List ℕ) × (has_line_feed free ≡ false)
        × (string_bytes text ≡ line (codes "  report is standard output" ++ free))) }
{
    let mut said = String::new(alloc);
    write!(said, ": {reason}")?;
    let reason = one_line(&said);
    let mut text = String::new(alloc);
    writeln!(text, "  report is standard output{reason}")?;
    Ok(text)
}
