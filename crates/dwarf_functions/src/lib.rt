//! The functions that contain each address of a unit, as links that addresses share, [`Links`], and the row of the line
//! program that covers it, [`RowSteps`]. Both are built in one walk, for all addresses of the unit at once (`read`,
//! `of`) or for the asked ones (`at`).
//!
//! A [`Link`] is a function in the link of the function that calls it.
//!
//! - `row_steps`: the rows of a line program that cover addresses (DWARF 5, section 6.2), step by step;
//! - `functions`: [`Functions`], those of a unit that have ranges of code, or ranges with asked addresses, in the order
//!   of their entries; `origins`: their names;
//! - `making`: links that are being built;
//! - `apart`: the disjoint ranges of a function;
//! - `taking`: starts, to which the links of the functions that contain them are assigned, one function after another;
//! - `links`: [`Links`], those of a unit.
#![tactic(auto)]

mod apart;
mod functions;
mod links;
mod making;
mod origins;
mod row_steps;
mod taking;

pub use links::{Link, Links};
pub use row_steps::RowSteps;
