//! The frames at the turns of an image, unit by unit.

ghost use Rattle.std.specs.Prelude.{◌≡◌, ◌↔◌, ◌<◌, ◌^◌, ℕ, IfOk, IfSome, List, OnOk, Some, map};
ghost use Rattle.std.specs.List.{Contains};
ghost use Rattle.std.specs.BTreeMap as tree_map;
ghost use Rattle.dwarf_frame_changes.specs.ByProgram.{AreBoundariesBy, AreRowsOfLast, rows_at};
ghost use Rattle.dwarf_source_frames.specs.ByUnit.{addresses_under};
ghost use Rattle.dwarf_frame_changes.specs.Given.{AreTurnsIn, AreTurnsOf, AreTurnsWithUnits, Takes, TurnRecord};
ghost use Rattle.dwarf_frame_changes.specs.Given.{without_frames};
ghost use Rattle.dwarf_frame_changes.specs.UnitSteps.{AreUnitSteps};
ghost use Rattle.dwarf_source_frames.specs.ByUnit.{IsPlaced};
ghost use Rattle.dwarf_source_frames.specs.FrameViews.{lines_view};
ghost use Rattle.dwarf_source_frames.specs.AddressFrames.{rows_of};
ghost use Rattle.dwarf_source_frames.specs.DebugSections.{DebugSectionsRecord};
ghost use Rattle.dwarf_asked_addresses.specs.Rising.{AreRising};
ghost use Rattle.dwarf_source_frames.specs.SectionsViews.{sections_view};

use crate::merging::UnitParts;
use crate::sink::FrameSink;
use crate::unit_steps::UnitSteps;
use dwarf_asked_addresses::sorted_once;
use dwarf_encoding::Units;
use dwarf_functions::RowSteps;
use dwarf_source_frames::{ByUnit, DebugInfo, UnitLines, take_unit};
use heap_memory::{Heap, NoMemory};
use macho_image::Image;

/// A unit: the offset of its program, its own offset, and its boundaries.
#[derive(Drop)]
struct UnitBoundaries {
    program: u64,
    place: u64,
    boundaries: Vec<u64, Heap>,
}

/// The rows of the program that was run last.
#[derive(Drop)]
struct LastRows {
    program: Option<u64>,
    rows: RowSteps,
}

/// Pushes addresses without frames.
fn push_without_frames<'a, T: FrameSink<'a>>(
    sink: &mut T,
    addresses: &[u64],
) -> Result<(), NoMemory>
    ensures fits { OnOk result ((a : ℕ) → Contains addresses.now a → a < 2 ^ 64) }
    ensures given { OnOk result (Takes (T.has_received sink.old) (T.has_received sink.new)
        (map (λ a. without_frames a) addresses.now)) }
{
    let none = sink.no_frames();
    for address in addresses {
        sink.push(*address, none)?;
    }
    Ok(())
}

impl LastRows {
    /// Runs a unit's program at an offset, unless it is the last one that was run.
    fn run(
        &mut self,
        heap: Heap,
        lines: &UnitLines<'_>,
        program: Option<u64>,
    ) -> Result<(), NoMemory>
        requires { IfSome lines.now.program (λ p. 0 < p.header.line_range) }
        ensures program { OnOk result (self.new.program ≡ program) }
        ensures rows { OnOk result ((sections : DebugSectionsRecord) → AreRowsOfLast sections self.old
            → rows_of (lines_view lines.now) ≡ rows_at sections program → AreRowsOfLast sections self.new) }
    {
        if self.program.is_some() && self.program == program {
            return Ok(());
        }
        self.rows = RowSteps::of(heap, lines)?;
        self.program = program;
        Ok(())
    }
}

/// Pushes the turns of the unit at an offset, with their frames. Its boundaries are an argument.
fn push_unit_turns<'a, T: FrameSink<'a>>(
    heap: Heap,
    info: &DebugInfo<'a>,
    line_units: &Units<'a>,
    steps: &UnitSteps,
    of: &UnitBoundaries,
    last: &mut LastRows,
    sink: &mut T,
) -> Result<(), NoMemory>
    requires lines { line_units.now ≡ info.now.sections.debug_line.now }
    requires steps { AreUnitSteps (sections_view info.now.sections) steps.now.starts.items steps.now.places.items }
    requires rising { AreRising of.now.boundaries.items }
    requires boundaries { (a : ℕ) → Contains of.now.boundaries.items a
        ↔ IsPlaced steps.now.starts.items steps.now.places.items a (Some of.now.place) }
    requires last { AreRowsOfLast (sections_view info.now.sections) last.old }
    ensures given { OnOk result ((given : List TurnRecord)
        × Takes (T.has_received sink.old) (T.has_received sink.new) given
        × AreTurnsIn (sections_view info.now.sections) (Some of.now.place) given) }
    ensures last { OnOk result (AreRowsOfLast (sections_view info.now.sections) last.new) }
{
    let Some(unit) = info.unit_at(of.place) else {
        push_without_frames(sink, &of.boundaries)?;
        return Ok(());
    };
    let lines = UnitLines::read(heap.share(), &info.sections, line_units, &unit)?;
    last.run(heap.share(), &lines, unit.program_offset())?;
    let mut parts = UnitParts::read(heap, info, &unit, &lines, sink)?;
    parts.push_all_turns(&lines, &last.rows, steps, &of.boundaries, sink)?;
    Ok(())
}

/// The offset of the program of the unit at an offset; units without one come last.
fn program_offset_at(info: &DebugInfo<'_>, place: u64) -> u64 {
    match info.unit_at(place) {
        Some(unit) => unit.program_offset().unwrap_or(u64::MAX),
        None => u64::MAX,
    }
}

/// The units in the order of their programs, each with its boundaries.
fn by_program(
    heap: Heap,
    info: &DebugInfo<'_>,
    mut by_unit: ByUnit,
) -> Result<Vec<UnitBoundaries, Heap>, NoMemory>
    ensures { IfOk result (λ all. AreBoundariesBy by_unit all.items) }
{
    let mut all = Vec::new(heap);
    'units: while let Some((place, list)) = take_unit(&mut by_unit) {
        all.push(UnitBoundaries {
            program: program_offset_at(info, place),
            place,
            boundaries: sorted_once(list.addresses),
        })?;
    }
    all.sort_unstable_by_key(|unit| unit.program);
    Ok(all)
}

/// Pushes the turns that have a unit, one unit after another, with their frames. The boundaries are an argument.
fn push_turns_of_units<'a, T: FrameSink<'a>>(
    heap: Heap,
    info: &DebugInfo<'a>,
    line_units: &Units<'a>,
    steps: &UnitSteps,
    by_unit: ByUnit,
    sink: &mut T,
) -> Result<(), NoMemory>
    requires lines { line_units.now ≡ info.now.sections.debug_line.now }
    requires steps { AreUnitSteps (sections_view info.now.sections) steps.now.starts.items steps.now.places.items }
    requires boundaries { (place a : ℕ) → Contains (addresses_under by_unit place) a
        ↔ IsPlaced steps.now.starts.items steps.now.places.items a (Some place) }
    ensures { OnOk result ((given : List TurnRecord)
        × Takes (T.has_received sink.old) (T.has_received sink.new) given
        × AreTurnsWithUnits (sections_view info.now.sections) given) }
{
    let all = by_program(heap.share(), info, by_unit)?;
    let mut last = LastRows {
        program: None,
        rows: RowSteps::none(heap.share()),
    };
    for unit in all.iter() {
        push_unit_turns(heap.share(), info, line_units, steps, unit, &mut last, sink)?;
    }
    Ok(())
}

/// Pushes each turn of an image, once, with its frames: first the turns without a unit, which have no frames, then
/// those of one unit after another. `__debug_aranges`, the declarations and the first entries of units are read once
/// for all. Each unit with a turn is read once. The units have the order of their programs, and each program is run
/// twice, even if several units share it. The memory is that of the boundaries of units, of the links of one unit, and
/// of the rows of one program.
pub fn push_turns<'a, T: FrameSink<'a>>(
    heap: Heap,
    image: &Image<'a>,
    sink: &mut T,
) -> Result<(), NoMemory>
    ensures { OnOk result ((given : List TurnRecord)
        × Takes (T.has_received sink.old) (T.has_received sink.new) given × AreTurnsOf image.now given) }
{
    let info = DebugInfo::read(heap.share(), image)?;
    let line_units = Units::read(heap.share(), info.sections.debug_line)?;
    let steps = UnitSteps::read(heap.share(), &info)?;
    let (without, by_unit) = steps.by_unit(heap.share())?;
    let without = sorted_once(without);
    push_without_frames(sink, &without)?;
    push_turns_of_units(heap, &info, &line_units, &steps, by_unit, sink)?;
    Ok(())
}
