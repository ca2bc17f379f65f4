//! The program without `main`: a command line, carried out over any files and over those of the system, and its
//! messages.
//!
//! - `queries`: the command of a plan without OUT, over its inputs and the report;
//! - `updates`: the command of a plan that writes OUT from an archive;
//! - `plans`: the command of any plan over its inputs, OUT and the report;
//! - `unopened`: the fault of a command whose input could not be opened;
//! - `disks`: a plan over inputs that are opened at their first read;
//! - `files`: a line over files of the system;
//! - `runs`: the words of a command line, carried out over files of the system;
//! - `laws`: laws about an output without a path, and about inputs that were not opened.
//!
//! # Why it is so
//!
//! - A plan that only reports has an OUT without a path.
//! - Plans without OUT are matched separately: `answer` needs no OUT, and short matches prove faster than one.
#![tactic(auto)]

mod disks;
mod files;
mod laws;
mod plans;
mod queries;
mod runs;
mod unopened;
mod updates;

pub use disks::execute_on;
pub use runs::run;
