//! Line number programs (DWARF 5, section 6.2), of the versions 2 to 5 in the 32-bit format: their headers with the
//! names of directories and files, their instructions, the machine that runs them, and the rows of the line number
//! table that it appends. Damage is never an error: the rows before it count.
//!
//! The modules in reading order: `opcodes`, the constants; `header`; `names`, the names of directories and files, as
//! `name_lists` (versions 2 to 4) and `name_entries` (version 5) read them; `path`, the paths of files; `instruction`,
//! and `reading`, the encoding of an instruction; `registers`; `rows`, as an iterator; `laws`: relations between the
//! definitions.
#![tactic(auto)]

mod header;
mod instruction;
pub mod laws;
mod name_entries;
mod name_lists;
mod names;
mod opcodes;
mod path;
mod reading;
mod registers;
mod rows;

pub use header::{Header, Program};
pub use instruction::Instruction;
pub use names::{Name, Names};
pub use path::PathParts;
pub use registers::{Registers, Row};
pub use rows::Rows;
