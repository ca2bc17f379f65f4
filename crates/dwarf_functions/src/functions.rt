//! The functions of a unit, and the ranges of their code.

ghost use Rattle.std.specs.Prelude.{◌≡◌, ◌≤◌, ◌++◌, ◌⊎◌, IfOk, IfSome, OnOk, length, true};
ghost use Rattle.std.specs.Option.{option_map};
ghost use Rattle.dwarf_ranges.specs.UnitViews.{unit_view as ranges_view};
ghost use Rattle.dwarf_entries.specs.EntryViews.{entry_view, unread_view};
ghost use Rattle.dwarf_source_frames.specs.Names.{IsName};
ghost use Rattle.dwarf_source_frames.specs.Scopes.{left_after_scope, scope_of, scope_ranges, scopes_of};
ghost use Rattle.dwarf_source_frames.specs.SectionsViews.{sections_view};
ghost use Rattle.dwarf_source_frames.specs.UnitViews.{unit_view};
ghost use Rattle.dwarf_functions.specs.Asked.{asked_ranges, asked_scope, asked_scopes, has_asked};
ghost use Rattle.dwarf_functions.specs.FunctionNames.{AreNumbered, HasName};
ghost use Rattle.dwarf_functions.specs.OpenFunctions.{Adds, AreAmong, Closes, Takes};
ghost use Rattle.dwarf_functions.specs.Origins.{AreNamed, IsNamedAt};
ghost use Rattle.dwarf_functions.specs.UnitFunctions.{AreFunctions};
ghost use Rattle.dwarf_asked_addresses.specs.Rising.{AreRising};

use crate::origins::{Origins, nameless_origin};
use dwarf_asked_addresses::count_below;
use dwarf_entries::{Entries, Entry, UnreadEntry};
use dwarf_ranges::{CodeRange, Ranges, UnitRanges};
use dwarf_source_frames::{
    DebugInfo, DebugUnit, SourceLocation, UnitEntry, is_function, is_subprogram, scope_ranges,
};
use heap_memory::{Heap, NoMemory};

/// A function of a unit.
#[derive(Clone, Copy)]
pub struct Function<'a> {
    /// The name of the function.
    pub name: Option<&'a [u8]>,
    /// The index of a function with the same name: functions with one number have one name.
    pub name_number: usize,
    /// The source location of the call, if the function is inlined.
    pub call: SourceLocation,
    /// Whether it is a subprogram, which is not called by the function in which it is nested.
    pub is_subprogram: bool,
    /// The number of functions up to the last that is nested in it.
    pub end: usize,
    /// The number of ranges up to its last.
    pub ranges_end: usize,
}

/// A name, and the index of a function with this name.
#[derive(Clone, Copy)]
struct Named<'a> {
    name: Option<&'a [u8]>,
    number: usize,
}

/// A function in which further functions may be nested: its depth and its index.
#[derive(Clone, Copy)]
pub(crate) struct Open {
    pub depth: usize,
    pub index: usize,
}

/// The functions of a unit that have ranges, or those that have ranges with asked addresses, in the order of their
/// entries.
#[derive(Drop)]
pub struct Functions<'a> {
    pub functions: Vec<Function<'a>, Heap>,
    pub ranges: Vec<CodeRange, Heap>,
    /// Functions with the names of entries that other entries refer to.
    origins: Origins,
}

/// Whether a range contains one of the asked addresses, which ascend; true if all addresses are asked.
fn has_asked(asked: Option<&[u64]>, range: CodeRange) -> bool
    requires { IfSome asked (λ all. AreRising all.now) }
    ensures { result ≡ has_asked (option_map (λ all. all.now) asked.entry) range }
{
    let Some(asked) = asked else {
        return true;
    };
    let first = count_below(asked, range.low);
    if first >= asked.len() {
        return false;
    }
    asked[first] < range.high
}

/// Adds the ranges that contain an asked address.
fn push_ranges(
    all: &mut Vec<CodeRange, Heap>,
    ranges: Ranges<'_>,
    asked: Option<&[u64]>,
) -> Result<(), NoMemory>
    requires { IfSome asked (λ all. AreRising all.now) }
    ensures { OnOk result (all.new.items ≡ all.old.items
        ++ asked_ranges (option_map (λ all. all.now) asked.entry) ranges.entry) }
{
    for range in ranges {
        if has_asked(asked, range) {
            all.push(range)?;
        }
    }
    Ok(())
}

impl<'a> Functions<'a> {
    /// Closes the functions in which an entry at a depth is not nested.
    fn close(&mut self, opened: &mut Vec<Open, Heap>, depth: usize)
        requires { AreAmong (length self.old.functions.items) opened.old.items }
        ensures ranges { self.new.ranges ≡ self.old.ranges }
        ensures origins { self.new.origins ≡ self.old.origins }
        ensures closed { Closes depth opened.old.items opened.new.items
            self.old.functions.items self.new.functions.items }
    {
        let count = self.functions.len();
        let mut left = opened.len();
        'opened: while left > 0 && opened[left - 1].depth >= depth {
            self.functions[opened[left - 1].index].end = count;
            left -= 1;
        }
        opened.truncate(left);
    }

    /// The name of an entry, which may be that of the entry at an offset of `__debug_info`.
    fn named(
        &self,
        info: &DebugInfo<'a>,
        unit: &DebugUnit<'a>,
        entry: &Entry<'a>,
        origin: Option<u64>,
    ) -> Named<'a>
        requires named { AreNamed (sections_view info.now.sections) self.now.functions.items self.now.origins }
        requires origin { IfSome origin
            (IsNamedAt (record { unit = unit_view unit.now; entry = entry_view entry.now })) }
        ensures name { IsName (sections_view info.now.sections)
            (record { unit = unit_view unit.now; entry = entry_view entry.now })
            (option_map (λ n. n.now) result.name) }
        ensures number { (result.number ≡ length self.now.functions.items)
            ⊎ HasName self.now.functions.items result.number (option_map (λ n. n.now) result.name) }
    {
        if let Some(number) = self.origins.get(origin) {
            let name = self.functions[number].name;
            return Named { name, number };
        }
        let of = UnitEntry {
            unit: *unit,
            entry: *entry,
        };
        let name = info.name_of(&of);
        let number = self.functions.len();
        Named { name, number }
    }

    /// Adds a function entry, if it has ranges with asked addresses.
    fn push_entry(
        &mut self,
        info: &DebugInfo<'a>,
        unit: &DebugUnit<'a>,
        asked: Option<&[u64]>,
        opened: &mut Vec<Open, Heap>,
        depth: usize,
        entry: &Entry<'a>,
        ranges: Ranges<'a>,
    ) -> Result<(), NoMemory>
        requires asked { IfSome asked (λ all. AreRising all.now) }
        requires named { AreNamed (sections_view info.now.sections) self.old.functions.items self.old.origins }
        ensures ranges { OnOk result (self.new.ranges.items
            ≡ self.old.ranges.items ++ asked_ranges (option_map (λ all. all.now) asked.entry) ranges.entry) }
        ensures added { OnOk result (Adds (sections_view info.now.sections) (unit_view unit.now)
            (asked_scope (option_map (λ all. all.now) asked.entry)
            (record { depth = depth; entry = entry_view entry.now; ranges = ranges.entry }))
            (length self.new.ranges.items) opened.old.items opened.new.items
            self.old.functions.items self.new.functions.items) }
        ensures named { OnOk result
            (AreNamed (sections_view info.now.sections) self.new.functions.items self.new.origins) }
    {
        let before = self.ranges.len();
        push_ranges(&mut self.ranges, ranges, asked)?;
        if self.ranges.len() == before {
            return Ok(());
        }
        let index = self.functions.len();
        let origin = nameless_origin(unit, entry);
        let named = self.named(info, unit, entry, origin);
        let call = SourceLocation::of_call(entry);
        self.functions.push(Function {
            name: named.name,
            name_number: named.number,
            call,
            is_subprogram: is_subprogram(entry),
            end: index + 1,
            ranges_end: self.ranges.len(),
        })?;
        opened.push(Open { depth, index })?;
        self.origins.keep(origin, named.number);
        Ok(())
    }

    /// Adds an entry at a depth, if it is a function and has ranges with asked addresses. At most `left` entries of its
    /// range list count; `left` is reduced by those that were used.
    fn take(
        &mut self,
        info: &DebugInfo<'a>,
        unit: &DebugUnit<'a>,
        asked: Option<&[u64]>,
        ranges: &UnitRanges<'a>,
        left: &mut u128,
        opened: &mut Vec<Open, Heap>,
        depth: usize,
        entry: &UnreadEntry<'_, 'a>,
    ) -> Result<(), NoMemory>
        requires asked { IfSome asked (λ all. AreRising all.now) }
        requires among { AreAmong (length self.old.functions.items) opened.old.items }
        requires named { AreNamed (sections_view info.now.sections) self.old.functions.items self.old.origins }
        ensures left { OnOk result (left.new
            ≡ left_after_scope (ranges_view ranges.now) left.old (unread_view entry.now)) }
        ensures ranges { OnOk result (self.new.ranges.items ≡ self.old.ranges.items
            ++ asked_ranges (option_map (λ all. all.now) asked.entry)
            (scope_ranges (ranges_view ranges.now) left.old (unread_view entry.now))) }
        ensures taken { OnOk result (Takes (sections_view info.now.sections) (unit_view unit.now)
            (asked_scope (option_map (λ all. all.now) asked.entry)
            (scope_of (ranges_view ranges.now) left.old depth (unread_view entry.now)))
            (length self.new.ranges.items) opened.old.items opened.new.items
            self.old.functions.items self.new.functions.items) }
        ensures named { OnOk result
            (AreNamed (sections_view info.now.sections) self.new.functions.items self.new.origins) }
    {
        self.close(opened, depth);
        if !is_function(entry) {
            return Ok(());
        }
        let entry = entry.read();
        let own = scope_ranges(ranges, &entry, left);
        self.push_entry(info, unit, asked, opened, depth, &entry, own)
    }

    /// The functions of a unit that have ranges, or those with ranges that contain one of the asked addresses, which
    /// ascend. The time is that of reading the unit once, and of their names; the memory is 100 bytes for each
    /// function, 16 for each of their ranges, and 24 KiB for the names by offset.
    pub fn read(
        heap: Heap,
        info: &DebugInfo<'a>,
        unit: &DebugUnit<'a>,
        asked: Option<&[u64]>,
    ) -> Result<Functions<'a>, NoMemory>
        requires within { unit.now.header.entries_offset ≤ length unit.now.bytes.now }
        requires asked { IfSome asked (λ all. AreRising all.now) }
        ensures are { IfOk result (λ all. AreFunctions (sections_view info.now.sections) (unit_view unit.now)
            (asked_scopes (option_map (λ all. all.now) asked.entry)
            (scopes_of (sections_view info.now.sections) (unit_view unit.now)))
            all.functions.items all.ranges.items) }
        ensures numbered { IfOk result (λ all. AreNumbered all.functions.items) }
    {
        let ranges = unit.unit_ranges(&info.sections);
        let mut left = unit.entries_of_lists();
        let mut all = Functions {
            functions: Vec::new(heap.share()),
            ranges: Vec::new(heap.share()),
            origins: Origins::new(heap.share())?,
        };
        let mut opened = Vec::new(heap);
        for placed in Entries::of(&info.abbreviations, unit.header, unit.bytes) {
            all.take(
                info,
                unit,
                asked,
                &ranges,
                &mut left,
                &mut opened,
                placed.depth,
                &placed.entry,
            )?;
        }
        all.close(&mut opened, 0);
        Ok(all)
    }
}
