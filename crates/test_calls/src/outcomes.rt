//! The result of a case at a point of a sweep, compared with the whole case.

use command_common::{CommandFault, Failure};
use heap_memory::NoMemory;
use std::alloc::Global;
use test_parts::{End, Left};

/// The printed result of a case at a point of a sweep, without the numbers that are the point itself.
pub fn outcome_at(
    alloc: Global,
    point: usize,
    left: &Left,
    whole: &Left,
) -> Result<String, NoMemory> {
    let mut text = String::new(alloc);
    let failed = failed_there(point, left.end);
    match failed {
        Some(device) => write!(text, "status 2, {device}: failed after that many bytes")?,
        None => write!(text, "{}", left.end)?,
    }
    if left.end == whole.end && matches!(&left.end, End::Command(Ok(_)) | End::Given) {
        text.push_str(" as ever")?;
    }
    if let End::Command(_) = left.end {
        text.push_str("; OUT ")?;
        let at = point_of("output", failed, point);
        push_kept(&mut text, &left.out, &whole.out, at)?;
        text.push_str("; report ")?;
    } else {
        text.push_str("; told ")?;
    }
    let at = point_of("report", failed, point);
    push_kept(&mut text, &left.report, &whole.report, at)?;
    Ok(text)
}

// The output that failed, if it reports the point as its number of bytes.
fn failed_there(point: usize, end: End) -> Option<&'static str> {
    match end {
        End::Command(Err(Failure::Command(CommandFault::Output(written))))
            if written == point as u128 => { Some("output") }
        End::Command(Err(Failure::Command(CommandFault::Report(written))))
            if written == point as u128 => { Some("report") }
        _ => None,
    }
}

// The point, if this is the output that failed there.
fn point_of(device: &str, failed: Option<&str>, point: usize) -> Option<usize> {
    if failed == Some(device) {
        Some(point)
    } else {
        None
    }
}

// Adds which part of the whole case's output this output is; without its length if that is the point at which it
// failed.
fn push_kept(
    text: &mut String,
    bytes: &[u8],
    whole: &[u8],
    point: Option<usize>,
) -> Result<(), NoMemory> {
    let len = bytes.len();
    if len > 0 && bytes == whole {
        text.push_str("all")
    } else if !whole.starts_with(bytes) {
        write!(text, "{len} other bytes")
    } else if point == Some(len) {
        text.push_str("that many first bytes")
    } else if len == 0 {
        text.push_str("nothing")
    } else {
        write!(text, "{len} first bytes")
    }
}
