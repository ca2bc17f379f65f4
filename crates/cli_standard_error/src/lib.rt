//! The messages of the program on standard error: why a command failed, a hint for a person, and the notes of a command
//! that succeeded.
//!
//! - `input_names`: the input for each name;
//! - `file_kinds`: the kind of a refused file;
//! - `flaws`: the faulty line of an input, in words;
//! - `hints`: the hints for a person after a failure;
//! - `second_lines`: the line with the hint;
//! - `standard_error`: the lines on standard error;
//! - `ending`: the messages at the end, and the exit status;
//! - `laws`: laws about the input with a name.
#![tactic(auto)]

mod ending;
mod file_kinds;
mod flaws;
mod hints;
mod input_names;
mod laws;
mod second_lines;
mod standard_error;

pub use ending::{end, end_with_line_fault, refuse_words};
pub use hints::Seen;
pub use input_names::input_at;
pub use standard_error::print_report_fault;
