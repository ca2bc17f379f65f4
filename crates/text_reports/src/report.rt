//! Reports, built whole in memory before their first byte is printed.
ghost use Rattle.std.specs.Prelude.{◌≡◌, ◌++◌, IfOk, string_bytes};
ghost use Rattle.text_reports.specs.Report.{admit_lines, retire_line, apply_line, archive_line, summary_line};

use crate::{AdmitRow, Text};
use archive_core::{Digest, SliceKey};
use archive_records::Sizes;
use heap_memory::{Heap, NoMemory};
use text_values::Spelled;

/// The lines of `admit`: one for each slice, in the order of the rows. Fails only if memory runs out.
pub fn admit_lines(heap: Heap, rows: &[AdmitRow]) -> Result<String<Heap>, NoMemory>
    ensures { IfOk result (λ text. string_bytes text ≡ admit_lines rows.now) }
{
    let mut text = String::new(heap);
    'rows: for row in rows {
        writeln!(text, "{row}")?;
    }
    Ok(text)
}

/// The line of `retire`: the retirement, and whether it is new.
pub fn retire_line(
    heap: Heap,
    changed: bool,
    key: SliceKey,
    digest: Digest,
) -> Result<String<Heap>, NoMemory>
    ensures { IfOk result (λ text. string_bytes text ≡ retire_line changed key digest) }
{
    let mut text = String::new(heap);
    let word = if changed { "retired" } else { "known" };
    let key = Text(key);
    let digest = Spelled(digest);
    writeln!(text, "{word} {key} {digest}")?;
    Ok(text)
}

/// The line of `apply`: the numbers of records of the file that were new, and that were known: present, or covered by a
/// retirement. Fails only if memory runs out.
pub fn apply_line(heap: Heap, new: u64, known: u64) -> Result<String<Heap>, NoMemory>
    ensures { IfOk result (λ text. string_bytes text ≡ apply_line new known) }
{
    let mut text = String::new(heap);
    writeln!(text, "applied: {new} new, {known} known")?;
    Ok(text)
}

/// The line of `summary`: the numbers of entries and bytes that were written. Fails only if memory runs out.
pub fn summary_line(heap: Heap, sizes: Sizes) -> Result<String<Heap>, NoMemory>
    ensures { IfOk result (λ text. string_bytes text ≡ summary_line sizes) }
{
    let mut text = String::new(heap);
    let entries = sizes.records;
    let bytes = sizes.bytes;
    writeln!(text, "summary: {entries} entries, {bytes} bytes")?;
    Ok(text)
}

/// These lines, and after them the last line of the report of every command that writes an archive: its sizes. Fails
/// only if memory runs out.
pub fn with_sizes(lines: String<Heap>, sizes: Sizes) -> Result<String<Heap>, NoMemory>
    ensures { IfOk result (λ text. string_bytes text ≡ string_bytes lines ++ archive_line sizes) }
{
    let mut text = lines;
    let sizes = Text(sizes);
    writeln!(text, "{sizes}")?;
    Ok(text)
}
