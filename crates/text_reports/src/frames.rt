//! The lines of source frames.
ghost use Rattle.std.specs.Prelude.{◌≡◌, ◌++◌, [], OnOk, slice_index_or, string_bytes};
ghost use Rattle.std.specs.List.{flat_map};
ghost use Rattle.std.specs.Option.{option_map};
ghost use Rattle.dwarf_lines.specs.PathViews.{path_view};
ghost use Rattle.text_reports.specs.FrameLists.{list_view, lists_view};
ghost use Rattle.text_reports.specs.Frames.{frame_line, frame_lines, function_byte, function_or_unknown, function_text};
ghost use Rattle.text_reports.specs.Frames.{is_at, path_or_unknown};
ghost use Rattle.dwarf_source_frames.specs.FrameViews.{frame_view};

use crate::Escaped;
use crate::answers::EscapedByte;
use dwarf_lines::PathParts;
use dwarf_source_frames::SourceFrame;
use heap_memory::{Heap, NoMemory};

// Whether the bytes after a space of a name, and the space after the name, begin with `at `.
fn is_at(after: &[u8]) -> bool
    ensures { result ≡ is_at after.now }
{
    match after {
        [b'a', b't'] => true,
        [b'a', b't', b' ', ..] => true,
        _ => false,
    }
}

// Writes a byte in the name of a function, before others.
#[tactic(auto, unfolding(crate::specs::Frames::function_byte))]
fn push_byte(text: &mut String<Heap>, byte: u8, after: &[u8]) -> Result<(), NoMemory>
    ensures { OnOk result (string_bytes text.new ≡ string_bytes text.old ++ function_byte byte after.now) }
{
    if byte == b' ' && is_at(after) {
        write!(text, "\\x20")
    } else {
        let byte = EscapedByte(byte);
        write!(text, "{byte}")
    }
}

fn push_name(text: &mut String<Heap>, name: &[u8]) -> Result<(), NoMemory>
    ensures { OnOk result (string_bytes text.new ≡ string_bytes text.old ++ function_text name.now) }
{
    let mut left = name;
    'bytes: while let Some((byte, after)) = left.split_first() {
        push_byte(text, *byte, after)?;
        left = after;
    }
    Ok(())
}

fn push_function(text: &mut String<Heap>, name: Option<&[u8]>) -> Result<(), NoMemory>
    ensures { OnOk result (string_bytes text.new ≡ string_bytes text.old
        ++ function_or_unknown (option_map (λ n. n.now) name.entry)) }
{
    match name {
        Some(name) => push_name(text, name),
        None => write!(text, "?"),
    }
}

fn push_path(
    heap: &Heap,
    text: &mut String<Heap>,
    path: Option<PathParts<'_>>,
) -> Result<(), NoMemory>
    ensures { OnOk result (string_bytes text.new ≡ string_bytes text.old
        ++ path_or_unknown (option_map path_view path.entry)) }
{
    match path {
        Some(parts) => {
            let path = parts.joined(heap.share())?;
            let path = Escaped(&path);
            write!(text, "{path}")
        }
        None => write!(text, "?"),
    }
}

#[tactic(auto, unfolding(crate::specs::Frames::frame_text))]
fn push_frame(heap: &Heap, text: &mut String<Heap>, frame: &SourceFrame<'_>) -> Result<(), NoMemory>
    ensures { OnOk result (string_bytes text.new ≡ string_bytes text.old ++ frame_line (frame_view frame.now)) }
{
    write!(text, "    ")?;
    push_function(text, frame.name)?;
    write!(text, " at ")?;
    push_path(heap, text, frame.path)?;
    let line = frame.line;
    let column = frame.column;
    writeln!(text, ":{line}:{column}")
}

#[tactic(auto, unfolding(crate::specs::Frames::frame_lines))]
pub(crate) fn push_frames(
    heap: &Heap,
    text: &mut String<Heap>,
    frames: &[SourceFrame<'_>],
) -> Result<(), NoMemory>
    ensures { OnOk result (string_bytes text.new ≡ string_bytes text.old
        ++ frame_lines (list_view frames.now)) }
{
    'frames: for frame in frames {
        push_frame(heap, text, frame)?;
    }
    Ok(())
}

/// Writes the lines of the frames of each list, in order.
pub(crate) fn push_frame_lists(
    heap: &Heap,
    text: &mut String<Heap>,
    frames: &[&[SourceFrame<'_>]],
) -> Result<(), NoMemory>
    ensures { OnOk result (string_bytes text.new ≡ string_bytes text.old
        ++ flat_map frame_lines (lists_view frames.now)) }
{
    'lists: for list in frames {
        push_frames(heap, text, list)?;
    }
    Ok(())
}

/// Writes the lines of the frames of the list at an index, if there is one.
pub(crate) fn push_frame_list_at(
    heap: &Heap,
    text: &mut String<Heap>,
    frames: &[&[SourceFrame<'_>]],
    index: usize,
) -> Result<(), NoMemory>
    ensures { OnOk result (string_bytes text.new ≡ string_bytes text.old
        ++ frame_lines (slice_index_or (lists_view frames.now) index [])) }
{
    let Some(list) = frames.get(index) else {
        return Ok(());
    };
    push_frames(heap, text, list)
}
