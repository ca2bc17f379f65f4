//! The turns of a unit, merged from the steps of its rows and of its links.

ghost use Rattle.std.specs.Prelude.{◌∷◌, [], ◌≡◌, ◌≤◌, ◌<◌, ◌^◌, ℕ, IfOk, List, OnOk, length};
ghost use Rattle.std.specs.List.{Contains};
ghost use Rattle.dwarf_frame_changes.specs.Between.{AreSteps, AreTurnsBetween, AreTurnsFrom, IsBelow, parts_of};
ghost use Rattle.dwarf_frame_changes.specs.Given.{Takes, TurnRecord};
ghost use Rattle.dwarf_frame_changes.specs.UnitNumbers.{ArePartsTold};
ghost use Rattle.dwarf_functions.specs.Links.{AreFramesOfRowAndLink, AreLinkSteps};
ghost use Rattle.dwarf_functions.specs.LinkViews.{links_view};
ghost use Rattle.dwarf_source_frames.specs.Frames.{FrameRecord};
ghost use Rattle.dwarf_source_frames.specs.FrameViews.{lines_view};
ghost use Rattle.dwarf_source_frames.specs.SectionsViews.{sections_view};
ghost use Rattle.dwarf_source_frames.specs.UnitViews.{unit_view};
ghost use Rattle.dwarf_asked_addresses.specs.Rising.{AreRising};

use crate::next_start::{below, count_to, next_start, number_of, row_of};
use crate::numbers::{Linked, Paths, frames_of_row, number_links};
use crate::sink::FrameSink;
use crate::unit_steps::UnitSteps;
use dwarf_asked_addresses::count_below;
use dwarf_functions::{Links, RowSteps};
use dwarf_lines::Row;
use dwarf_source_frames::{DebugInfo, DebugUnit, SourceLocation, UnitLines};
use heap_memory::{Heap, NoMemory};

/// The parts of a unit from which its frames are built.
#[derive(Drop)]
pub(crate) struct UnitParts<'a> {
    pub paths: Paths,
    pub linked: Vec<Linked, Heap>,
    pub links: Links<'a>,
}

impl<'a> UnitParts<'a> {
    /// The parts of a unit. Its names, paths and calls are added to a sink.
    pub fn read<T: FrameSink<'a>>(
        heap: Heap,
        info: &DebugInfo<'a>,
        unit: &DebugUnit<'a>,
        lines: &UnitLines<'a>,
        sink: &mut T,
    ) -> Result<UnitParts<'a>, NoMemory>
        requires { unit.now.header.entries_offset ≤ length unit.now.bytes.now }
        ensures links { IfOk result (λ parts. AreLinkSteps (sections_view info.now.sections) (unit_view unit.now)
            (links_view parts.links.links.items) parts.links.starts.items parts.links.numbers.items) }
        ensures told { IfOk result (λ parts. ArePartsTold (T.numbers_name sink.new) (T.numbers_path sink.new)
            (T.numbers_frames sink.new) (lines_view lines.now) parts) }
        ensures taken { OnOk result (Takes (T.has_received sink.old) (T.has_received sink.new) []) }
    {
        let links = Links::read(heap.share(), info, unit)?;
        let mut paths = Paths::new(heap.share());
        let linked = number_links(heap, lines, &mut paths, &links, sink)?;
        Ok(UnitParts {
            paths,
            linked,
            links,
        })
    }

    /// The number of the frames of a row and of the link with a number.
    fn frames<T: FrameSink<'a>>(
        &mut self,
        lines: &UnitLines<'a>,
        sink: &mut T,
        row: Option<Row>,
        number: usize,
    ) -> Result<u32, NoMemory>
        requires within { number ≤ length self.old.links.links.items }
        requires told { ArePartsTold (T.numbers_name sink.old) (T.numbers_path sink.old) (T.numbers_frames sink.old)
            (lines_view lines.now) self.old }
        ensures is { IfOk result (λ found. (frames : List FrameRecord)
            × AreFramesOfRowAndLink (lines_view lines.now) (links_view self.old.links.links.items) row number frames
            × T.numbers_frames sink.new found frames) }
        ensures links { OnOk result (self.new.links ≡ self.old.links) }
        ensures told { OnOk result (ArePartsTold (T.numbers_name sink.new) (T.numbers_path sink.new)
            (T.numbers_frames sink.new) (lines_view lines.now) self.new) }
        ensures taken { Takes (T.has_received sink.old) (T.has_received sink.new) [] }
    {
        if number == 0 {
            let alone = frames_of_row(lines, &mut self.paths, row, sink)?;
            return Ok(alone);
        }
        let place = SourceLocation::of_row(row);
        let path = self.paths.number(lines, sink, place.file)?;
        let of = self.linked[number - 1];
        let found = sink.frames(of.name, path, place.line, place.column, of.callers)?;
        Ok(found)
    }

    /// Pushes an address with the frames of its row and its link.
    fn push_turn<T: FrameSink<'a>>(
        &mut self,
        lines: &UnitLines<'a>,
        sink: &mut T,
        address: u64,
        row: Option<Row>,
        number: usize,
    ) -> Result<(), NoMemory>
        requires within { number ≤ length self.old.links.links.items }
        requires told { ArePartsTold (T.numbers_name sink.old) (T.numbers_path sink.old) (T.numbers_frames sink.old)
            (lines_view lines.now) self.old }
        ensures fits { address < 2 ^ 64 }
        ensures given { OnOk result ((frames : List FrameRecord)
            × AreFramesOfRowAndLink (lines_view lines.now) (links_view self.old.links.links.items) row number frames
            × Takes (T.has_received sink.old) (T.has_received sink.new)
            (record { address = address; frames = frames } ∷ [])) }
        ensures links { OnOk result (self.new.links ≡ self.old.links) }
        ensures told { OnOk result (ArePartsTold (T.numbers_name sink.new) (T.numbers_path sink.new)
            (T.numbers_frames sink.new) (lines_view lines.now) self.new) }
    {
        let frames = self.frames(lines, sink, row, number)?;
        sink.push(address, frames)?;
        Ok(())
    }

    /// Pushes the turns from an address on, below another one.
    fn push_turns_between<T: FrameSink<'a>>(
        &mut self,
        lines: &UnitLines<'a>,
        rows: &RowSteps,
        sink: &mut T,
        from: u64,
        end: Option<u64>,
    ) -> Result<(), NoMemory>
        requires below { IsBelow from end }
        requires steps { AreSteps (parts_of (lines_view lines.now) rows.now self.old.links) }
        requires told { ArePartsTold (T.numbers_name sink.old) (T.numbers_path sink.old) (T.numbers_frames sink.old)
            (lines_view lines.now) self.old }
        ensures given { OnOk result ((given : List TurnRecord)
            × Takes (T.has_received sink.old) (T.has_received sink.new) given
            × AreTurnsBetween (parts_of (lines_view lines.now) rows.now self.old.links) from end given) }
        ensures links { OnOk result (self.new.links ≡ self.old.links) }
        ensures told { OnOk result (ArePartsTold (T.numbers_name sink.new) (T.numbers_path sink.new)
            (T.numbers_frames sink.new) (lines_view lines.now) self.new) }
    {
        let mut row = count_below(&rows.starts, from);
        let mut link = count_below(&self.links.starts, from);
        let mut address = Some(from);
        'turns: while let Some(at) = address {
            row = count_to(&rows.starts, row, at);
            link = count_to(&self.links.starts, link, at);
            let number = number_of(&self.links, link);
            self.push_turn(lines, sink, at, row_of(rows, row), number)?;
            let next = next_start(&rows.starts, &self.links.starts, row, link);
            address = below(next, end);
        }
        Ok(())
    }

    /// Pushes the turns of the unit from each of its boundaries on, up to the next boundary.
    pub fn push_all_turns<T: FrameSink<'a>>(
        &mut self,
        lines: &UnitLines<'a>,
        rows: &RowSteps,
        steps: &UnitSteps,
        boundaries: &[u64],
        sink: &mut T,
    ) -> Result<(), NoMemory>
        requires rising { AreRising boundaries.now }
        requires starts { AreRising steps.now.starts.items }
        requires stand { (a : ℕ) → Contains boundaries.now a → Contains steps.now.starts.items a }
        requires steps { AreSteps (parts_of (lines_view lines.now) rows.now self.old.links) }
        requires told { ArePartsTold (T.numbers_name sink.old) (T.numbers_path sink.old) (T.numbers_frames sink.old)
            (lines_view lines.now) self.old }
        ensures { OnOk result ((given : List TurnRecord)
            × Takes (T.has_received sink.old) (T.has_received sink.new) given
            × AreTurnsFrom (parts_of (lines_view lines.now) rows.now self.old.links) steps.now.starts.items
            boundaries.now given) }
    {
        for from in boundaries {
            let end = steps.after(*from);
            self.push_turns_between(lines, rows, sink, *from, end)?;
        }
        Ok(())
    }
}
