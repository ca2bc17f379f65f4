//! The answers of indexes are right for the contents from which they were made: definitions and laws only.
//!
//! - [`laws`]: laws of answers, of entries without a table, and of slices that no entry puts in order;
//! - [`command_laws`]: the commands with indexes have the reports of the contents: laws of rows, of summaries, of
//!   refusals, and of several archives read together.
#![tactic(auto)]

pub mod command_laws;
pub mod laws;
