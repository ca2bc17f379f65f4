//! Source lines and inlined frames: the frames of an address according to the DWARF of an image (DWARF 5). No image is
//! refused for its DWARF: data that cannot be read has no frames.
//!
//! The modules in reading order: `debug_sections`, the DWARF sections of an image; `debug_unit`, its units, and
//! `unit_code`, the ranges of their entries; `debug_info`, the entries by their offsets; `unit_addresses`, the units of
//! many addresses, and `unit_lists`, [`by_unit`], these addresses grouped by unit; `scopes`, the ranges of functions;
//! `names`, the names of functions; `unit_lines`, the texts, names and program of a unit; `frame`, frames and their
//! source locations; `laws`: relations between the definitions.
#![tactic(auto)]

mod debug_info;
mod debug_sections;
mod debug_unit;
mod frame;
pub mod laws;
mod names;
mod scopes;
mod unit_addresses;
mod unit_code;
mod unit_lines;
mod unit_lists;

pub use debug_info::DebugInfo;
pub use debug_sections::DebugSections;
pub use debug_unit::{DebugUnit, UnitEntry};
pub use frame::{SourceFrame, SourceLocation};
pub use scopes::{is_function, is_subprogram, scope_ranges};
pub use unit_code::range_attributes;
pub use unit_lines::UnitLines;
pub use unit_lists::{AddressList, ByUnit, by_unit, take_unit};
