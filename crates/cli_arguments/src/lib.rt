//! The command line: its command, values and inputs.
//!
//! - `commands`: the table of the commands, with their help texts and arguments;
//! - `values`: the values of an argument;
//! - `lines`: a command line as its command and values;
//! - `inputs`: the inputs of a line, by their kinds;
//! - `escapes`: words and paths as they are printed;
//! - `line_faults`: why a line has no plan;
//! - `clap_commands`: the commands of the table, as `clap` builds them;
//! - `spelled_values`: the values of the words of an argument;
//! - `parsing`: reading a command line;
//! - `plan`: the plan of a line, by the name of its command, with its values;
//! - `laws`: laws of the definitions of words and of the table.
//!
//! # Why it is so
//!
//! - `clap`'s definition of a simple command is cited. The table is `'static`. A FILE may be IN.
//! - `Plan` has one case for each command, with its values and no path. It is made once.
//! - Inputs are made in the order of the words, and then grouped by kind (`Inputs`), so that no number marks where
//!   those of one kind end.
//! - Each pattern of values is next to its row of the table, since one generic step over names and values did not
//!   prove.
#![tactic(auto)]

mod clap_commands;
mod commands;
mod escapes;
mod inputs;
pub mod laws;
mod line_faults;
mod lines;
mod parsing;
mod plan;
mod spelled_values;
mod values;

pub use commands::{Argument, Form, Kind, Role, form_text, is_input_of};
pub use escapes::{shown, without_line_feed};
pub use inputs::Inputs;
pub use line_faults::LineFault;
pub use lines::Line;
pub use parsing::parse_command_line;
pub use plan::Plan;
pub use values::{Amount, Values};
