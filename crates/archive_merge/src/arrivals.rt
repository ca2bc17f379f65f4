//! The report of a merge on its sides.

ghost use Rattle.std.specs.Prelude.{◌≡◌, ◌≤◌, ◌&&◌, ◌||◌, count_by, false, [], length};
ghost use Rattle.archive_merge.specs.Arrivals.{is_new, arrival_by};

use heap_memory::Heap;

/// The effect of a record of the right side on the left one.
#[derive(Clone, Copy, Debug, PartialEq, Eq)]
pub enum Arrival {
    /// The left side neither has it nor retires it.
    New,
    /// The left side has it.
    Had,
    /// The left side retires it.
    Retired,
}

impl Arrival {
    /// Whether the left side neither has it nor retires it.
    pub fn is_new(&self) -> bool
        ensures { result ≡ is_new self.now }
    {
        *self == Arrival::New
    }
}

/// The number of new ones.
pub fn number_of_new(arrivals: &[Arrival]) -> u64
    ensures counted { result ≡ count_by is_new arrivals.now }
    ensures within { result ≤ length arrivals.now }
{
    arrivals.iter().filter(|arrival| arrival.is_new()).count() as u64
}

/// The report of a merge on its sides.
#[derive(Drop)]
pub struct MergeReport {
    /// The effect of each record of the right side on the left one when it was processed, in order.
    pub arrivals: Vec<Arrival, Heap>,
    /// Whether the right side retires a slice that the left one has.
    pub withdraws: bool,
}

impl MergeReport {
    /// Creates an empty report.
    pub fn nothing(heap: Heap) -> MergeReport
        ensures arrivals { result.arrivals.items ≡ [] }
        ensures withdraws { result.withdraws ≡ false }
    {
        MergeReport {
            arrivals: Vec::new(heap),
            withdraws: false,
        }
    }

    /// Reports whether a record was skipped, and whether the left side had it.
    pub fn pass(&mut self, passed: bool, had: bool)
        ensures withdraws { self.new.withdraws ≡ ((passed && had) || self.old.withdraws) }
        ensures arrivals { self.new.arrivals ≡ self.old.arrivals }
    {
        if passed && had {
            self.withdraws = true;
        }
    }
}

/// The effect of a record on the left side, by whether that side retires it, and whether it has it.
pub fn arrival_by(retired: bool, had: bool) -> Arrival
    ensures { result ≡ arrival_by retired had }
{
    match (retired, had) {
        (true, _) => Arrival::Retired,
        (false, true) => Arrival::Had,
        (false, false) => Arrival::New,
    }
}
