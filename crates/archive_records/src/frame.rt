//! One record after another from a source, each read over the last.

ghost use Rattle.std.specs.Prelude.{◌≡◌, ◌<◌, ◌≤◌, length, Ok, Err, MatchResult};
ghost use Rattle.std.specs.Io.KnownBytes.{Consumes};
ghost use Rattle.archive_records.specs.Layout.{framed};
ghost use Rattle.archive_records.specs.Reader.{BlamesReader, Fills, IsHead, bytes_so_far, seen_as, Over};

use crate::buffer::{Buffer, fill};
use crate::fault::RecordFaultKind;
use crate::format::Format;
use crate::head::{LARGEST_SLICE, body_length_of, head_length_of};
use byte_device::Source;
use std::cmp::Ordering;

/// Reads the head of the next record, and returns its length.
fn read_head<R: Source>(
    file: Format,
    r: &mut R,
    chunk: &mut [u8],
    buffer: &mut Buffer,
) -> Result<usize, RecordFaultKind>
    requires room { 0 < length chunk.old }
    requires start { buffer.old.at ≡ 0 }
    ensures fills { Fills (R.left r.old) (R.left r.new) buffer.old buffer.new }
    ensures head { MatchResult result (IsHead file buffer.new)
        (λ kind. framed file (bytes_so_far buffer.new) ≡ Err (seen_as kind)) }
    ensures reader { BlamesReader R.left R.failures r.old r.new result }
{
    fill(r, chunk, buffer, 1)?;
    let Some(head) = head_length_of(file, &buffer.bytes[..buffer.at]) else {
        return Err(RecordFaultKind::BadTag);
    };
    fill(r, chunk, buffer, head - 1)?;
    Ok(head)
}

/// Reads the bytes after the head.
fn read_body<R: Source>(
    file: Format,
    r: &mut R,
    chunk: &mut [u8],
    buffer: &mut Buffer,
    head: usize,
) -> Result<(), RecordFaultKind>
    requires room { 0 < length chunk.old }
    requires within { buffer.old.at ≤ length buffer.old.bytes.items }
    requires head { IsHead file buffer.old head }
    ensures fills { Fills (R.left r.old) (R.left r.new) buffer.old buffer.new }
    ensures framed { MatchResult result
        (λ _. framed file (bytes_so_far buffer.new) ≡ Ok buffer.new.at)
        (λ kind. framed file (bytes_so_far buffer.new) ≡ Err (seen_as kind)) }
    ensures reader { BlamesReader R.left R.failures r.old r.new result }
{
    let body = body_length_of(file, &buffer.bytes[..buffer.at]);
    if body > LARGEST_SLICE {
        return Err(RecordFaultKind::TooLarge);
    }
    fill(r, chunk, buffer, body as usize)
}

/// Reads the next record, or the end record, over the last one.
pub fn read_record<R: Source>(
    file: Format,
    r: &mut R,
    chunk: &mut [u8],
    buffer: &mut Buffer,
) -> Result<(), RecordFaultKind>
    requires { 0 < length chunk.old }
    ensures within { buffer.new.at ≤ length buffer.new.bytes.items }
    ensures taken { Consumes (R.left r.old) (R.left r.new) (bytes_so_far buffer.new) }
    ensures over { Over buffer.old.bytes.items buffer.new }
    ensures framed { MatchResult result
        (λ _. framed file (bytes_so_far buffer.new) ≡ Ok buffer.new.at)
        (λ kind. framed file (bytes_so_far buffer.new) ≡ Err (seen_as kind)) }
    ensures reader { BlamesReader R.left R.failures r.old r.new result }
{
    buffer.at = 0;
    buffer.order = Ordering::Equal;
    let head = read_head(file, r, chunk, buffer)?;
    read_body(file, r, chunk, buffer, head)
}
