//! The flaws by which a line has no fields with one space between two.

ghost use Rattle.std.specs.Prelude.{◌≡◌};
ghost use Rattle.std.specs.Str.{is_utf8};
ghost use Rattle.text_values.specs.Flaws.{has, has_empty_part, is_empty, line_flaw};

use std::str;

/// The flaw of a line, whatever its fields should be.
#[derive(Clone, Copy, Debug, PartialEq, Eq)]
pub enum LineFlaw {
    /// It begins with the byte-order mark of UTF-8.
    ByteOrderMark,
    /// It has a tab.
    Tab,
    /// It has a carriage return.
    CarriageReturn,
    /// It is not UTF-8.
    NotText,
    /// It has two adjacent spaces, or a space at an end.
    Spaces,
}

/// The flaw of a line, if it has one of these: the first in the order of the flaws.
pub fn line_flaw(line: &[u8]) -> Option<LineFlaw>
    ensures { result ≡ line_flaw line.now }
{
    if line.is_empty() {
        None
    } else if line.starts_with(b"\xef\xbb\xbf") {
        Some(LineFlaw::ByteOrderMark)
    } else if has(line, b'\t') {
        Some(LineFlaw::Tab)
    } else if has(line, b'\r') {
        Some(LineFlaw::CarriageReturn)
    } else if !is_text(line) {
        Some(LineFlaw::NotText)
    } else if has_empty_part(line) {
        Some(LineFlaw::Spaces)
    } else {
        None
    }
}

// Whether a line has this byte.
fn has(line: &[u8], byte: u8) -> bool
    ensures { result ≡ has byte line.now }
{
    line.iter().any(|b| *b == byte)
}

// Whether a line is UTF-8.
fn is_text(line: &[u8]) -> bool
    ensures { result ≡ is_utf8 line.now }
{
    match str::from_utf8(line) {
        Ok(_) => true,
        Err(_) => false,
    }
}

// Whether a line has an empty part before, between or after its spaces.
fn has_empty_part(line: &[u8]) -> bool
    ensures { result ≡ has_empty_part line.now }
{
    line.split(|byte| *byte == b' ').any(|part| is_empty(part))
}

fn is_empty(part: &[u8]) -> bool
    ensures { result ≡ is_empty part.now }
{
    part.is_empty()
}
