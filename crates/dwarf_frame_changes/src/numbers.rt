//! The numbers that a sink returned for the paths and the links of a unit.

ghost use Rattle.std.specs.Prelude.{[], ◌≡◌, ◌≢◌, ◌<◌, ◌+◌, ℕ, IfOk, OnOk, Some, None, length};
ghost use Rattle.std.specs.Ordering.{nat_cmp};
ghost use Rattle.std.specs.BTreeMap as tree_map;
ghost use Rattle.dwarf_frame_changes.specs.Given.{Takes};
ghost use Rattle.dwarf_frame_changes.specs.Taking.{KeepsNumbers};
ghost use Rattle.dwarf_frame_changes.specs.UnitNumbers.{AreLinked, AreNameNumbers, ArePathNumbers, IsPathNumber};
ghost use Rattle.dwarf_frame_changes.specs.UnitNumbers.{row_frames};
ghost use Rattle.dwarf_functions.specs.Links.{AreCallersBefore};
ghost use Rattle.dwarf_functions.specs.LinkViews.{links_view};
ghost use Rattle.dwarf_functions.specs.NameNumbers.{AreNamesNumbered};
ghost use Rattle.dwarf_source_frames.specs.FrameViews.{lines_view};

use crate::names::Names;
use crate::sink::FrameSink;
use dwarf_functions::{Link, Links};
use dwarf_lines::Row;
use dwarf_source_frames::{SourceLocation, UnitLines};
use heap_memory::{Heap, NoMemory};
use std::collections::BTreeMap;

/// The numbers of paths by the indexes of their files, and the index that was looked up last, with its number.
#[derive(Drop)]
pub(crate) struct Paths {
    by_index: BTreeMap<u64, u32, Heap>,
    last: Option<(u64, u32)>,
}

impl Paths {
    /// Paths without numbers.
    pub fn new(heap: Heap) -> Paths
        ensures index { (i : ℕ) → tree_map.get nat_cmp result.by_index i ≡ None }
        ensures last { result.last ≡ None }
    {
        Paths {
            by_index: BTreeMap::new(heap),
            last: None,
        }
    }

    /// Keeps the number of the path of a file.
    fn keep(&mut self, index: u64, number: u32) -> Result<(), NoMemory>
        ensures here { OnOk result (tree_map.get nat_cmp self.new.by_index index ≡ Some number) }
        ensures others { OnOk result ((other : ℕ) → other ≢ index →
            tree_map.get nat_cmp self.new.by_index other ≡ tree_map.get nat_cmp self.old.by_index other) }
        ensures last { OnOk result (self.new.last ≡ self.old.last) }
    {
        self.by_index.insert(index, number)?;
        Ok(())
    }

    /// The number of the path of a file, which is then kept.
    fn find<'a, T: FrameSink<'a>>(
        &mut self,
        lines: &UnitLines<'a>,
        sink: &mut T,
        index: u64,
    ) -> Result<u32, NoMemory>
        requires { ArePathNumbers (T.numbers_path sink.old) (lines_view lines.now) self.old }
        ensures is { IfOk result (λ number.
            IsPathNumber (T.numbers_path sink.new) (lines_view lines.now) (Some index) number) }
        ensures kept { OnOk result (ArePathNumbers (T.numbers_path sink.new) (lines_view lines.now) self.new) }
        ensures names { KeepsNumbers (T.numbers_name sink.old) (T.numbers_name sink.new) }
        ensures frames { KeepsNumbers (T.numbers_frames sink.old) (T.numbers_frames sink.new) }
        ensures taken { Takes (T.has_received sink.old) (T.has_received sink.new) [] }
    {
        if let Some(number) = self.by_index.get(&index) {
            return Ok(*number);
        }
        let number = sink.path(lines.path_in(Some(index)))?;
        self.keep(index, number)?;
        Ok(number)
    }

    /// The number of the path of a file, or of no path.
    pub fn number<'a, T: FrameSink<'a>>(
        &mut self,
        lines: &UnitLines<'a>,
        sink: &mut T,
        file: Option<u64>,
    ) -> Result<u32, NoMemory>
        requires { ArePathNumbers (T.numbers_path sink.old) (lines_view lines.now) self.old }
        ensures is { IfOk result (λ number.
            IsPathNumber (T.numbers_path sink.new) (lines_view lines.now) file number) }
        ensures kept { OnOk result (ArePathNumbers (T.numbers_path sink.new) (lines_view lines.now) self.new) }
        ensures names { KeepsNumbers (T.numbers_name sink.old) (T.numbers_name sink.new) }
        ensures frames { KeepsNumbers (T.numbers_frames sink.old) (T.numbers_frames sink.new) }
        ensures taken { Takes (T.has_received sink.old) (T.has_received sink.new) [] }
    {
        let Some(index) = file else {
            return sink.path(None);
        };
        if let Some((known, number)) = self.last {
            if known == index {
                return Ok(number);
            }
        }
        let number = self.find(lines, sink, index)?;
        self.last = Some((index, number));
        Ok(number)
    }
}

/// The numbers of a link: of its name, and of the frames of the links that call it.
#[derive(Clone, Copy)]
pub(crate) struct Linked {
    pub name: u32,
    pub callers: u32,
}

/// Adds the numbers of the next link. Those of the links before it are known.
fn push_linked<'a, T: FrameSink<'a>>(
    lines: &UnitLines<'a>,
    paths: &mut Paths,
    links: &Links<'a>,
    names: &mut Names,
    all: &mut Vec<Linked, Heap>,
    sink: &mut T,
) -> Result<(), NoMemory>
    requires within { length all.old.items < length links.now.links.items }
    requires callers { AreCallersBefore (links_view links.now.links.items) }
    requires numbered { AreNamesNumbered links.now.name_count links.now.links.items }
    requires names { AreNameNumbers (T.numbers_name sink.old) links.now names.old }
    requires paths { ArePathNumbers (T.numbers_path sink.old) (lines_view lines.now) paths.old }
    requires linked { AreLinked (T.numbers_name sink.old) (T.numbers_frames sink.old) (lines_view lines.now)
        (links_view links.now.links.items) (length all.old.items) all.old.items }
    ensures count { OnOk result (length all.new.items ≡ length all.old.items + 1) }
    ensures linked { OnOk result (AreLinked (T.numbers_name sink.new) (T.numbers_frames sink.new) (lines_view lines.now)
        (links_view links.now.links.items) (length all.new.items) all.new.items) }
    ensures names { OnOk result (AreNameNumbers (T.numbers_name sink.new) links.now names.new) }
    ensures kept { OnOk result (ArePathNumbers (T.numbers_path sink.new) (lines_view lines.now) paths.new) }
    ensures taken { Takes (T.has_received sink.old) (T.has_received sink.new) [] }
{
    let index = all.len();
    let link: Link<'a> = links.links[index];
    let name = names.number_of_name(links, index, sink)?;
    if link.caller == 0 {
        let callers = sink.no_frames();
        all.push(Linked { name, callers })?;
        return Ok(());
    }
    let outer = all[link.caller - 1];
    let path = paths.number(lines, sink, link.call.file)?;
    let callers = sink.frames(
        outer.name,
        path,
        link.call.line,
        link.call.column,
        outer.callers,
    )?;
    all.push(Linked { name, callers })?;
    Ok(())
}

/// The numbers of all links of a unit.
pub(crate) fn number_links<'a, T: FrameSink<'a>>(
    heap: Heap,
    lines: &UnitLines<'a>,
    paths: &mut Paths,
    links: &Links<'a>,
    sink: &mut T,
) -> Result<Vec<Linked, Heap>, NoMemory>
    requires callers { AreCallersBefore (links_view links.now.links.items) }
    requires numbered { AreNamesNumbered links.now.name_count links.now.links.items }
    requires paths { ArePathNumbers (T.numbers_path sink.old) (lines_view lines.now) paths.old }
    ensures is { IfOk result (λ all. AreLinked (T.numbers_name sink.new) (T.numbers_frames sink.new)
        (lines_view lines.now) (links_view links.now.links.items) (length links.now.links.items) all.items) }
    ensures kept { OnOk result (ArePathNumbers (T.numbers_path sink.new) (lines_view lines.now) paths.new) }
    ensures taken { OnOk result (Takes (T.has_received sink.old) (T.has_received sink.new) []) }
{
    let mut names = Names::new(heap.share(), links.name_count)?;
    let mut all: Vec<Linked, Heap> = Vec::new(heap);
    'links: while all.len() < links.links.len() {
        push_linked(lines, paths, links, &mut names, &mut all, sink)?;
    }
    Ok(all)
}

/// The number of the frame of a row alone, which has no function.
pub(crate) fn frames_of_row<'a, T: FrameSink<'a>>(
    lines: &UnitLines<'a>,
    paths: &mut Paths,
    row: Option<Row>,
    sink: &mut T,
) -> Result<u32, NoMemory>
    requires { ArePathNumbers (T.numbers_path sink.old) (lines_view lines.now) paths.old }
    ensures is { IfOk result (λ found. T.numbers_frames sink.new found (row_frames (lines_view lines.now) row)) }
    ensures kept { OnOk result (ArePathNumbers (T.numbers_path sink.new) (lines_view lines.now) paths.new) }
    ensures names { KeepsNumbers (T.numbers_name sink.old) (T.numbers_name sink.new) }
    ensures frames { KeepsNumbers (T.numbers_frames sink.old) (T.numbers_frames sink.new) }
    ensures taken { Takes (T.has_received sink.old) (T.has_received sink.new) [] }
{
    let Some(row) = row else {
        return Ok(sink.no_frames());
    };
    let place = SourceLocation::of_row(Some(row));
    let path = paths.number(lines, sink, place.file)?;
    let none = sink.name(None)?;
    let callers = sink.no_frames();
    let alone = sink.frames(none, path, place.line, place.column, callers)?;
    Ok(alone)
}
