//! Universal files, as in mach-o/fat.h: a header, and a table of the slices of the file, one for each architecture.
//!
//! - `number`, `file_kind`: numbers, and the kind of a file by its first four bytes; `fat_fault`: why bytes are no
//!   universal file;
//! - `fat_header`, `fat_arch`: the header and an entry of the table; `bounds`: the tests of the entries' parts;
//! - `universal`: [`Universal::read`] reads a universal file, or returns the fault; a slice is any bytes, borrowed from
//!   the file. [`fat_laws`]: laws about these definitions.
#![tactic(auto)]

mod bounds;
mod fat_arch;
mod fat_fault;
mod fat_header;
pub mod fat_laws;
mod file_kind;
mod number;
mod universal;

pub use fat_fault::FatFault;
pub use fat_header::MOST_ARCHES;
pub use file_kind::{FileKind, kind};
pub use universal::Universal;
