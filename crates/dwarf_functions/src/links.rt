//! The functions that contain each address of a unit, as links that addresses share.

ghost use Rattle.std.specs.Prelude.{◌≡◌, ◌≤◌, ◌<◌, ◌↔◌, ℕ, List, IfOk, length};
ghost use Rattle.std.specs.List.{Contains};
ghost use Rattle.dwarf_functions.specs.FunctionNames.{AreNumbered};
ghost use Rattle.dwarf_functions.specs.Links.{AreLinkSteps, AreLinksAmong, AreLinksOf, ends_of_ranges};
ghost use Rattle.dwarf_functions.specs.LinkViews.{links_view};
ghost use Rattle.dwarf_functions.specs.NameNumbers.{AreNamesNumbered};
ghost use Rattle.dwarf_functions.specs.Taking.{AreParts};
ghost use Rattle.dwarf_functions.specs.UnitFunctions.{AreFunctions};
ghost use Rattle.dwarf_source_frames.specs.DebugSections.{DebugSectionsRecord};
ghost use Rattle.dwarf_source_frames.specs.DebugUnits.{UnitRecord};
ghost use Rattle.dwarf_source_frames.specs.Scopes.{ScopeRecord, scopes_of};
ghost use Rattle.dwarf_source_frames.specs.SectionsViews.{sections_view};
ghost use Rattle.dwarf_source_frames.specs.UnitViews.{unit_view};
ghost use Rattle.dwarf_asked_addresses.specs.Rising.{AreRising};

use crate::functions::Functions;
use crate::making::Making;
use crate::taking::Taking;
use dwarf_asked_addresses::{Waiting, sorted_once};
use dwarf_ranges::CodeRange;
use dwarf_source_frames::{DebugInfo, DebugUnit, SourceLocation};
use heap_memory::{Heap, NoMemory};

/// A function in the link of the function that calls it.
#[derive(Clone, Copy)]
pub struct Link<'a> {
    /// The name of the function.
    pub name: Option<&'a [u8]>,
    /// The number of its name: links with one number have one name.
    pub name_number: usize,
    /// The source location of the call, if the function is inlined.
    pub call: SourceLocation,
    /// The number of the calling link, from 1 on, or 0: the link in which it is nested, unless it is a subprogram.
    pub caller: usize,
    /// The number of the link in which it is nested, from 1 on, or 0.
    pub(crate) outer: usize,
    /// The index of the function.
    pub(crate) function: usize,
    /// The number of the last link that is nested in it, or 0.
    pub(crate) child: usize,
    /// The number of links from it to the outermost.
    pub(crate) count: usize,
}

/// The links of a unit: the addresses from each start on, up to the next start, have the link with a number, from 1 on,
/// or none (0).
#[derive(Drop)]
pub struct Links<'a> {
    pub links: Vec<Link<'a>, Heap>,
    pub starts: Vec<u64, Heap>,
    pub numbers: Vec<usize, Heap>,
    /// An upper bound: all numbers of names are below it.
    pub name_count: usize,
}

/// The addresses at which ranges begin and end, ascending, each once.
fn starts_of(heap: Heap, ranges: &[CodeRange]) -> Result<Vec<u64, Heap>, NoMemory>
    ensures rising { IfOk result (λ starts. AreRising starts.items) }
    ensures same { IfOk result (λ starts. (a : ℕ) → Contains starts.items a ↔ Contains (ends_of_ranges ranges.now) a) }
{
    let mut starts = Vec::new(heap);
    for range in ranges {
        starts.push(range.low)?;
        starts.push(range.high)?;
    }
    Ok(sorted_once(starts))
}

impl<'a> Links<'a> {
    /// The links of these functions at starts, which ascend.
    fn of(heap: Heap, all: &Functions<'a>, starts: Vec<u64, Heap>) -> Result<Links<'a>, NoMemory>
        requires parts { AreParts all.now.functions.items all.now.ranges.items }
        requires numbered { AreNumbered all.now.functions.items }
        requires rising { AreRising starts.items }
        ensures starts { IfOk result (λ links. links.starts.items ≡ starts.items) }
        ensures among { IfOk result (λ links. (sections : DebugSectionsRecord) (unit : UnitRecord)
            (scopes : List ScopeRecord)
            → AreFunctions sections unit scopes all.now.functions.items all.now.ranges.items
            → AreLinksAmong sections unit scopes (links_view links.links.items) starts.items links.numbers.items) }
        ensures names { IfOk result (λ links. AreNamesNumbered links.name_count links.links.items) }
    {
        let count = starts.len();
        let waiting = Waiting::new(heap.share(), count)?;
        let making = Making {
            all,
            links: Vec::new(heap.share()),
            last: 0,
        };
        let mut taking = Taking {
            making,
            starts,
            numbers: vec![in heap.share(); 0; count]?,
            waiting,
        };
        taking.take_all(&heap)?;
        Ok(Links {
            links: taking.making.links,
            starts: taking.starts,
            numbers: taking.numbers,
            name_count: all.functions.len(),
        })
    }

    /// The links of a unit. The memory is that of its functions and ranges. An address in ranges of nested functions
    /// needs the memory of its link once. The time is that of reading the unit once, of sorts of each function's ranges
    /// and of the addresses at which all ranges begin and end, and of up to 256 functions for each of these addresses.
    pub fn read(
        heap: Heap,
        info: &DebugInfo<'a>,
        unit: &DebugUnit<'a>,
    ) -> Result<Links<'a>, NoMemory>
        requires { unit.now.header.entries_offset ≤ length unit.now.bytes.now }
        ensures steps { IfOk result (λ links. AreLinkSteps (sections_view info.now.sections) (unit_view unit.now)
            (links_view links.links.items) links.starts.items links.numbers.items) }
        ensures names { IfOk result (λ links. AreNamesNumbered links.name_count links.links.items) }
    {
        let functions = Functions::read(heap.share(), info, unit, None)?;
        let starts = starts_of(heap.share(), &functions.ranges)?;
        let links = Links::of(heap, &functions, starts)?;
        Ok(links)
    }

    /// The links of some addresses of a unit, which ascend: they are the starts, and nothing is stated about addresses
    /// between them. The time is that of reading the unit once; the memory is that of the addresses and of the
    /// functions that contain one.
    pub fn at(
        heap: Heap,
        info: &DebugInfo<'a>,
        unit: &DebugUnit<'a>,
        addresses: &[u64],
    ) -> Result<Links<'a>, NoMemory>
        requires within { unit.now.header.entries_offset ≤ length unit.now.bytes.now }
        requires rising { AreRising addresses.now }
        ensures { IfOk result (λ links. AreLinksOf (sections_view info.now.sections) (unit_view unit.now)
            (links_view links.links.items) addresses.now links.numbers.items) }
    {
        let functions = Functions::read(heap.share(), info, unit, Some(addresses))?;
        let starts = addresses.to_vec(heap.share())?;
        let links = Links::of(heap, &functions, starts)?;
        Ok(links)
    }
}
