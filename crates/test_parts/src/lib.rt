//! The parts of the cases of `test_acceptance`: the bytes of their words, devices that test their callers, and calls
//! below the commands, with their printed lines.
//!
//! - `faults`: why a case cannot be carried out, or a call is refused;
//! - `store`: files in memory;
//! - `words`: the words of a case;
//! - `parts`, `counters`, `addresses`: the bytes and the addresses of words;
//! - `limits`: the limits of devices, and the extent of a sweep;
//! - `devices`: inputs and outputs that test their callers;
//! - `ends`: the result of a case, and its outputs;
//! - `images`, `archives`: calls that read bytes, carried out;
//! - `questions`: questions to an archive;
//! - `selections`: calls that keep a part of an archive;
//! - `streams`, `growths`: streams of std that fail, and memory that is refused;
//! - `heaps`: two memories, one for each of two archives;
//! - `pairs`: random pairs of archives, merged and joined;
//! - `printing`: the printed lines of a case.
#![tactic(auto)]

mod addresses;
mod archives;
mod counters;
mod devices;
mod ends;
mod faults;
mod growths;
mod heaps;
mod images;
mod limits;
mod pairs;
mod parts;
mod printing;
mod questions;
mod selections;
mod store;
mod streams;
mod words;

pub use addresses::addresses_of;
pub use archives::{
    print_beside, print_each_taking, print_front, print_merging, print_operations, print_summary,
    print_whole, read, text_of,
};
pub use devices::{Shelf, StrictSink, StrictSource};
pub use ends::{End, Left};
pub use faults::{CallFault, CaseFault, Ended};
pub use growths::{print_room_of_bytes, print_room_of_growths};
pub use heaps::{Texts, print_heaps};
pub use images::{print_fat, print_image, print_kind, print_named, print_nearest, print_slice};
pub use limits::{FileLimit, Limits, Sweep};
pub use pairs::print_pairs;
pub use parts::{bytes_of, number};
pub use printing::{print_left, print_line_fault, print_report, print_same, print_text};
pub use questions::{answers_of, print_answers};
pub use selections::{Picked, print_part};
pub use store::Store;
pub use streams::{Failing, print_reading, print_strict_devices, print_writing};
pub use words::{first_word, words_of};
