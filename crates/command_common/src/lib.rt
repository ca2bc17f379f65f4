//! The code that all commands share: their inputs, the definitions for their contents, and their results.
//!
//! A command reads its inputs, reports the first refused one in the order of the command line, and writes OUT: while it
//! reads its first input, or after it read all. OUT is published when it is complete; then the report is written.
//!
//! - `faults`: the results of commands, and the faults of refused ones;
//! - `failures`: the line printed on standard error if the program fails;
//! - `notes`: the notes of a command that succeeded;
//! - `statuses`: the status of a search, and the exit status of a command;
//! - `publishing`: the end of each command;
//! - `sources`: the content of one input, or its refusal;
//! - `together`: archives whose parts are kept and joined, and questions that their join answers;
//! - `evidence`: [`Evidence`], by which a command answers, so that it is written once; `records`: the records of
//!   archives as such.
//!
//! # Why it is so
//!
//! - `CommandFault` and `Failure` have their `Display` by hand. The texts of lower crates' faults are in
//!   `text_reports`.
//! - An input in a contract is a record of two states, before and after.
//! - An output that could not be published failed after all of its bytes.
#![tactic(auto)]

mod evidence;
mod failures;
mod faults;
mod notes;
mod publishing;
mod records;
mod sources;
mod statuses;
mod together;

pub use evidence::Evidence;
pub use failures::Failure;
pub use faults::{CommandFault, InputName, Status, Why};
pub use notes::Note;
pub use publishing::{
    publish, publish_draft, publish_output, publish_summary, write_report, write_report_bytes,
};
pub use records::{Records, first_and_rest};
pub use sources::{
    first_refusal, read_archive_input, read_file, read_frames_input, read_operations,
    read_script_input, read_summary_input, refusal,
};
pub use statuses::{exit_status, found_status};
pub use together::{answer_all, answer_archives, bytes_of, read_parts, uuid_bytes};
