//! The lines of a file that count, and their fields.

ghost use Rattle.std.specs.Prelude.{◌≡◌, ◌<◌, ◌^◌, ◌∷◌, All, IfOk, length, option_map, slice_get};
ghost use Rattle.text_values.specs.Lines.{counting, counts, fields_after, line_at, line_count, lines, parts, seen};

use heap_memory::{Heap, NoMemory};

/// The lines of a file that count, each after the number of the lines before it. Fails only if memory runs out.
pub fn lines_that_count(heap: Heap, bytes: &[u8]) -> Result<Vec<(usize, &[u8]), Heap>, NoMemory>
    requires { length bytes.now < 2 ^ 63 }
    ensures lines { IfOk result (λ lines. seen lines.items ≡ counting bytes.now) }
    ensures few { IfOk result (λ lines. All (λ line. line.0 < 2 ^ 63) lines.items) }
{
    bytes
        .split(|byte| *byte == b'\n')
        .enumerate()
        .filter(|line| line_counts(line.1))
        .collect(heap)
}

/// Whether a line counts: empty lines and those that begin with `#` are skipped.
fn line_counts(line: &[u8]) -> bool
    ensures { result ≡ counts line.now }
{
    match line {
        [] => false,
        [first, ..] => *first != b'#',
    }
}

/// The line with this number, counted from 1; an empty one if there is none.
pub fn line_at(bytes: &[u8], number: u64) -> &[u8]
    ensures { result.now ≡ line_at bytes.now number }
{
    match line_after(bytes, number.saturating_sub(1) as usize) {
        Some(line) => line,
        None => &[],
    }
}

// The line after this number of lines.
fn line_after(bytes: &[u8], others: usize) -> Option<&[u8]>
    ensures { option_map (λ line. line.now) result ≡ slice_get (lines bytes.now) others }
{
    bytes.split(|byte| *byte == b'\n').nth(others)
}

/// The number of lines: one for each newline, and one more if bytes follow the last of them.
pub fn number_of_lines(bytes: &[u8]) -> u64
    requires { length bytes.now < 2 ^ 64 }
    ensures { result ≡ line_count bytes.now }
{
    let ended = bytes.iter().filter(|byte| **byte == b'\n').count() as u64;
    match bytes {
        [.., last] if *last != b'\n' => ended + 1,
        _ => ended,
    }
}

/// The first field of a text, and the text after the next space, if there is one.
pub fn cut_field(text: &str) -> (&str, Option<&str>)
    ensures { result.0.now ∷ fields_after (option_map (λ rest. rest.now) result.1) ≡ parts text.now }
{
    match text.split_once(' ') {
        Some((field, behind)) => (field, Some(behind)),
        None => (text, None),
    }
}
