//! Thin 64-bit little-endian Mach-O images, as mach-o/loader.h describes them: the header, the load commands LC_UUID,
//! LC_SYMTAB and LC_SEGMENT_64, and the sections.
//!
//! `Image::read` returns an image or the fault of the bytes. An image borrows its bytes; no call allocates memory. File
//! ranges of segments, sections and symbols are not checked here.
//!
//! The modules in reading order: `loader`, the constants; `number` and `name`; `fault`; then the structures, one in
//! each module: `header`, `uuid_command`, `symtab_command`, `section`, `segment`, `load_command`; `load_commands` and
//! `sections`, the iterators; `contents`, the walk that tests the commands, and `image`; and `laws`: relations between
//! the definitions.
#![tactic(auto)]

mod contents;
mod fault;
mod header;
mod image;
pub mod laws;
mod load_command;
mod load_commands;
mod loader;
mod name;
mod number;
mod section;
mod sections;
mod segment;
mod symtab_command;
mod uuid_command;

pub use fault::ImageFault;
pub use image::Image;
pub use load_command::LoadCommand;
pub use load_commands::LoadCommands;
pub use name::before_nul;
pub use section::Section;
pub use sections::Sections;
pub use segment::{SegmentCommand64, SegmentSections};
pub use symtab_command::Symtab;
