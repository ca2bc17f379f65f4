//! Two texts of archives, merged record by record.
//!
//! - `side`, `merging`, `streams`: [`merge_streams`], in the memory of one record of each side and of the retirements
//!   of either, each kept once;
//! - `arrival_merge`, `arrivals`: [`merge_with_arrivals`], which also reports whether the left side has, or has
//!   retired, each record of the right side;
//! - `losses`: [`lost_operations`], which compares two archives, with a sink that keeps nothing; `laws`: if none is
//!   lost, the new one is above the old one;
//! - `borrowed`: [`BorrowedText`], the text of operations in memory, and [`BorrowedSide`], which reads its records from
//!   where they are. The right side of a merge is a [`Side`]: one of these, or [`MergeInput`], a text that is read.
//!
//! # What is proved
//!
//! - [`merge_streams`] writes the text of the join of two archives, of either version, as they are read. Otherwise it
//!   reports the side that stops the merge by the definition, after exactly the bytes in that definition; and the bytes
//!   that it wrote are not an archive's text, whatever the inputs are (`GainsNoText`). Their number is that in its
//!   fault. The contract says which bytes of the other side were read by then: magics and records are read in
//!   alternation, left first.
//! - `Write` is reported only if the writer failed, no reader did, both magics were read, and no side had stopped the
//!   merge before.
//! - [`merge_with_arrivals`] does the same, and reports for each record of the right text whether the left content
//!   retires or has it (`arrival_of`), and whether one of these records retires a slice of the left content.
//! - [`lost_operations`] returns the number of records of an old archive that a new one neither has nor covers
//!   (`Loses`); it is 0 exactly if the new one is above the old one (`nothing_is_lost_just_above`). Otherwise it
//!   reports which of the two is refused, with its fault, and this one stops a merge of both (`IsNotCompared`).
//!
//! # Why it is so
//!
//! - A covered admission is skipped as if it had been written: the side or sides with it are read on. When it is the
//!   least record that is held, all retirements of both sides have been read. The end record counts the written
//!   records.
//! - If a side stops a merge, its contract says which bytes of the other one were read: none, the magic, the records
//!   that were written, and, if that side was read on, the record after them or the end record. A covered record is
//!   held until it would have been written. If it were skipped at once, another side than the one of the definitions
//!   (`LeftStops`, `RightStops`) could be refused first.
//! - A retirement that both sides have is kept once (`shared`): when both hold it, both readers forget it, from the ends
//!   of their lists (`share_retirement`). A contract sees a merge as if each side kept its own (`sides_of`). If there is
//!   no memory for shared retirements, each side keeps its own, and nothing is refused.
//! - After 9,223,372,036,854,775,807 records the side with the next one is refused with `OutOfMemory`. An equal pair
//!   counts once, and the left side is reported. If memory runs out for a record of both sides, that is reported for
//!   the left one, which is read first (`IsOfBoth`); for a record that was read in part, or that the left side has not
//!   read yet, it is reported for the right side.
//! - `merge_with_arrivals` has a loop of its own over the same steps. The arrival of a right record is determined when
//!   it is next: the left side has been read up to it by then. It is recorded before the right side is read on, when
//!   `OutOfMemory` can be reported for that side.
//! - The side with the next record is determined once in each step (`next_side`), and passed on: two equal records are
//!   compared to their ends, which for slices is megabytes.
//! - The results of `lost_operations` are kept, one byte per record, and counted at the end, so the program has only
//!   one merge with a report.
#![tactic(auto)]

mod arrival_merge;
mod arrivals;
mod borrowed;
pub mod laws;
mod losses;
mod merging;
mod side;
mod streams;

pub use arrival_merge::merge_with_arrivals;
pub use arrivals::{Arrival, MergeReport, number_of_new};
pub use borrowed::{BorrowedSide, BorrowedText};
pub use losses::lost_operations;
pub use side::{MergeInput, ReadFrom, Side};
pub use streams::merge_streams;
