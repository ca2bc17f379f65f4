//! Starts, to which the links of the functions that contain them are assigned, one function after another.

ghost use Rattle.std.specs.Prelude.{◌≡◌, ◌<◌, ◌∷◌, [], ℕ, List, OnOk, Some, length, slice_get, slice_index, true};
ghost use Rattle.dwarf_ranges.specs.Lists.{in_ranges};
ghost use Rattle.dwarf_functions.specs.Taking.{AreOf, AreParts, Extends, HasBefore, HasSame, IsTaking, Takes};
ghost use Rattle.dwarf_functions.specs.UnitFunctions.{FunctionRecord};
ghost use Rattle.dwarf_asked_addresses.specs.Waiting.{Waits};

use crate::apart::apart_of;
use crate::making::Making;
use dwarf_asked_addresses::{Waiting, count_below};
use dwarf_ranges::CodeRange;
use heap_memory::{Heap, NoMemory};

/// The largest number of frames of an address.
const FRAMES_MAX: usize = 256;

/// Starts with the numbers of their links, so far; those whose links may still change wait.
#[derive(Drop)]
pub struct Taking<'f, 'a> {
    pub making: Making<'f, 'a>,
    pub starts: Vec<u64, Heap>,
    pub numbers: Vec<usize, Heap>,
    pub waiting: Waiting,
}

impl<'f, 'a> Taking<'f, 'a> {
    /// Assigns to a start the link of a function in the start's own link.
    fn extend(&mut self, index: usize, at: usize) -> Result<(), NoMemory>
        requires taking { IsTaking self.old }
        requires index { index < length self.old.making.all.now.functions.items }
        requires at { at < length self.old.starts.items }
        requires waits { Waits self.old.waiting.next.items at }
        ensures same { HasSame self.old self.new }
        ensures taking { OnOk result (IsTaking self.new) }
        ensures extends { OnOk result (Extends index at self.old self.new) }
    {
        let caller = self.numbers[at];
        let number = self.making.link(index, caller)?;
        self.numbers[at] = number;
        if self.making.count_of(number) >= FRAMES_MAX {
            self.waiting.end(at);
        }
        Ok(())
    }

    /// Records that a function contains a waiting start. The start no longer waits if the function is not nested in its
    /// link.
    fn take_start(&mut self, index: usize, at: usize) -> Result<(), NoMemory>
        requires taking { IsTaking self.old }
        requires index { index < length self.old.making.all.now.functions.items }
        requires at { at < length self.old.starts.items }
        requires waits { Waits self.old.waiting.next.items at }
        ensures same { HasSame self.old self.new }
        ensures taking { OnOk result (IsTaking self.new) }
        ensures takes { OnOk result ((of : List FunctionRecord) (f : FunctionRecord)
            → AreOf of self.old.making.all.now.functions.items self.old.making.all.now.ranges.items
            → slice_get of index ≡ Some f → in_ranges (slice_index self.old.starts.items at) f.ranges ≡ true
            → Takes of index (λ i. i ≡ at) self.old self.new) }
    {
        let caller = self.numbers[at];
        if caller == 0 {
            return self.extend(index, at);
        }
        let before = self.making.links[caller - 1].function;
        if before == index {
            return Ok(());
        }
        if self.making.all.functions[before].end <= index {
            self.waiting.end(at);
            return Ok(());
        }
        self.extend(index, at)
    }

    /// Records that a function contains the starts of a range.
    fn take_range(&mut self, index: usize, range: CodeRange) -> Result<(), NoMemory>
        requires taking { IsTaking self.old }
        requires index { index < length self.old.making.all.now.functions.items }
        ensures same { HasSame self.old self.new }
        ensures taking { OnOk result (IsTaking self.new) }
        ensures takes { OnOk result ((of : List FunctionRecord) (f : FunctionRecord)
            → AreOf of self.old.making.all.now.functions.items self.old.making.all.now.ranges.items
            → slice_get of index ≡ Some f
            → ((a : ℕ) → in_ranges a (range ∷ []) ≡ true → in_ranges a f.ranges ≡ true)
            → Takes of index (λ i. in_ranges (slice_index self.old.starts.items i) (range ∷ []) ≡ true) self.old
            self.new) }
    {
        let end = count_below(&self.starts, range.high);
        let first = count_below(&self.starts, range.low);
        let mut at = self.waiting.first_from(first);
        'starts: while at < end {
            self.take_start(index, at)?;
            at = self.waiting.first_from(at + 1);
        }
        Ok(())
    }

    /// Records that a function contains the starts of these ranges.
    fn take_ranges(&mut self, index: usize, ranges: &[CodeRange]) -> Result<(), NoMemory>
        requires taking { IsTaking self.old }
        requires index { index < length self.old.making.all.now.functions.items }
        ensures same { HasSame self.old self.new }
        ensures taking { OnOk result (IsTaking self.new) }
        ensures takes { OnOk result ((of : List FunctionRecord) (f : FunctionRecord)
            → AreOf of self.old.making.all.now.functions.items self.old.making.all.now.ranges.items
            → slice_get of index ≡ Some f
            → ((a : ℕ) → in_ranges a ranges.now ≡ true → in_ranges a f.ranges ≡ true)
            → Takes of index (λ i. in_ranges (slice_index self.old.starts.items i) ranges.now ≡ true) self.old
            self.new) }
    {
        for range in ranges {
            self.take_range(index, *range)?;
        }
        Ok(())
    }

    /// Records that a function contains the starts of its ranges. It visits each start once, even if several of the
    /// ranges contain it.
    fn take_function(
        &mut self,
        heap: &Heap,
        index: usize,
        ranges: &[CodeRange],
    ) -> Result<(), NoMemory>
        requires taking { IsTaking self.old }
        requires index { index < length self.old.making.all.now.functions.items }
        ensures same { HasSame self.old self.new }
        ensures taking { OnOk result (IsTaking self.new) }
        ensures takes { OnOk result ((of : List FunctionRecord) (f : FunctionRecord)
            → AreOf of self.old.making.all.now.functions.items self.old.making.all.now.ranges.items
            → slice_get of index ≡ Some f → ranges.now ≡ f.ranges
            → Takes of index (λ i. in_ranges (slice_index self.old.starts.items i) ranges.now ≡ true) self.old
            self.new) }
    {
        if ranges.len() < 2 {
            return self.take_ranges(index, ranges);
        }
        let parts = apart_of(heap, ranges)?;
        self.take_ranges(index, &parts)
    }

    /// Records for each function that it contains the starts of its ranges.
    pub fn take_all(&mut self, heap: &Heap) -> Result<(), NoMemory>
        requires taking { IsTaking self.old }
        requires parts { AreParts self.old.making.all.now.functions.items self.old.making.all.now.ranges.items }
        ensures same { HasSame self.old self.new }
        ensures taking { OnOk result (IsTaking self.new) }
        ensures takes { OnOk result ((of : List FunctionRecord)
            → AreOf of self.old.making.all.now.functions.items self.old.making.all.now.ranges.items
            → ((i : ℕ) → i < length self.old.starts.items → HasBefore of self.old 0 i)
            → (i : ℕ) → i < length self.old.starts.items → HasBefore of self.new (length of) i) }
    {
        let all = self.making.all;
        let mut begin = 0;
        for (index, function) in all.functions.iter().enumerate() {
            self.take_function(heap, index, &all.ranges[begin..function.ranges_end])?;
            begin = function.ranges_end;
        }
        Ok(())
    }
}
