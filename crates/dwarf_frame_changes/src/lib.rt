//! The addresses at which the frames of an image may change, its turns, and the frames there: the contents of a table
//! of the frames of each address.
//!
//! The frames of an address are those of its unit. The unit changes at boundaries alone: the addresses at which the
//! tuples of `__debug_aranges`, and the ranges of the units that no set of it names, begin and end. Within a unit, the
//! frames change where the ranges of functions begin and end, and at the addresses of rows. So the turns are the
//! boundaries, and these addresses of each unit, if they belong to the unit.
//!
//! The modules in reading order: `unit_boundaries`, the addresses at which the unit changes; `unit_steps`, the unit of
//! each address; `sink`, [`FrameSink`], which accepts turns with numbers for their frames; `names` and `numbers`, the
//! numbers for the names, paths and links of a unit; `next_start` and `merging`, the turns of a unit from one boundary
//! to the next; `unit_by_unit`, [`push_turns`], all turns of an image; `laws`: the frames stay the same between two
//! turns.
#![tactic(auto)]

pub mod laws;
mod merging;
mod names;
mod next_start;
mod numbers;
mod sink;
mod unit_boundaries;
mod unit_by_unit;
mod unit_steps;

pub use sink::FrameSink;
pub use unit_by_unit::push_turns;
