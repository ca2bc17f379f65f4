//! The output of the program: the lines of reports, and the texts of faults.
//!
//! - `texts`: the printed texts of faults;
//! - `rows`: keys and the rows of reports;
//! - `report`: reports, built whole in memory;
//! - `finds`: the lines of `find` and of `list`;
//! - `slices`: the lines of the slices that answer for keys;
//! - `frames`: the lines of source frames;
//! - `answers`: the lines of `symbolicate`;
//! - `names`: the lines of `name`;
//! - [`laws`]: laws about the lines of `find` and of `list`.
//!
//! # Why it is so
//!
//! - The texts of the faults of lower crates are here, so that no lower crate prints.
#![tactic(auto)]

mod answers;
mod finds;
mod frames;
pub mod laws;
mod names;
mod report;
mod rows;
mod slices;
mod texts;

pub use answers::{Escaped, push_answer};
pub use finds::{find_lines, list_lines};
pub use names::name_lines;
pub use report::{admit_lines, apply_line, retire_line, summary_line, with_sizes};
pub use rows::AdmitRow;
pub use slices::slices_lines;
pub use texts::Text;
