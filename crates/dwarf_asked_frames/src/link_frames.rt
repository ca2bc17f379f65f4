//! The frames of a row and a link.

ghost use Rattle.std.specs.Prelude.{◌≡◌, ◌≤◌, IfOk, List, length, map};
ghost use Rattle.dwarf_asked_frames.specs.FoundFrames.{frames_of_list};
ghost use Rattle.dwarf_functions.specs.Links.{AreCallersBefore, AreFramesOfLink, AreFramesOfRowAndLink};
ghost use Rattle.dwarf_functions.specs.Links.{LinkRecord, frame_at_place};
ghost use Rattle.dwarf_functions.specs.LinkViews.{link_view, links_view};
ghost use Rattle.dwarf_source_frames.specs.FrameViews.{frame_view, lines_view};

use crate::found::FrameList;
use dwarf_functions::{Link, Links};
use dwarf_lines::Row;
use dwarf_source_frames::{SourceFrame, SourceLocation, UnitLines};
use heap_memory::{Heap, NoMemory};

/// The frame of a link at a source location.
fn frame_at<'a>(lines: &UnitLines<'a>, link: &Link<'a>, place: SourceLocation) -> SourceFrame<'a>
    ensures { frame_view result ≡ frame_at_place (lines_view lines.now) (link_view link.now).name place }
{
    SourceFrame {
        name: link.name,
        path: lines.path_in(place.file),
        line: place.line,
        column: place.column,
    }
}

/// The frames of the link with a number, the innermost first, which has the given source location.
fn frames_of_link<'a>(
    heap: Heap,
    lines: &UnitLines<'a>,
    links: &Links<'a>,
    number: usize,
    innermost: SourceLocation,
) -> Result<Vec<SourceFrame<'a>, Heap>, NoMemory>
    requires callers { AreCallersBefore (links_view links.now.links.items) }
    requires within { number ≤ length links.now.links.items }
    ensures { IfOk result (λ frames. AreFramesOfLink (lines_view lines.now) (links_view links.now.links.items)
        innermost number (map frame_view frames.items)) }
{
    let mut frames = Vec::new(heap);
    let mut place = innermost;
    let mut left = number;
    'callers: while left > 0 {
        let link: Link<'a> = links.links[left - 1];
        frames.push(frame_at(lines, &link, place))?;
        place = link.call;
        left = link.caller;
    }
    Ok(frames)
}

/// The frame of a row alone, which has no function; none without a row.
fn frames_of_row<'a>(
    heap: Heap,
    lines: &UnitLines<'a>,
    row: Option<Row>,
) -> Result<FrameList<'a>, NoMemory>
    ensures { IfOk result (λ list. (links : List LinkRecord)
        → AreFramesOfRowAndLink (lines_view lines.now) links row 0 (frames_of_list list)) }
{
    let mut frames = Vec::new(heap);
    let Some(row) = row else {
        return Ok(FrameList { frames });
    };
    frames.push(lines.frame_of_row(&row))?;
    Ok(FrameList { frames })
}

/// The frames of a row and of the link with a number, the innermost first: if there is no link, the frame of the row
/// alone.
pub(crate) fn frames_at<'a>(
    heap: Heap,
    lines: &UnitLines<'a>,
    links: &Links<'a>,
    row: Option<Row>,
    number: usize,
) -> Result<FrameList<'a>, NoMemory>
    requires callers { AreCallersBefore (links_view links.now.links.items) }
    requires within { number ≤ length links.now.links.items }
    ensures { IfOk result (λ list. AreFramesOfRowAndLink (lines_view lines.now) (links_view links.now.links.items)
        row number (frames_of_list list)) }
{
    if number == 0 {
        let list = frames_of_row(heap, lines, row)?;
        return Ok(list);
    }
    let frames = frames_of_link(heap, lines, links, number, SourceLocation::of_row(row))?;
    Ok(FrameList { frames })
}
