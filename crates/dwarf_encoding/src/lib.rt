//! The encodings of numbers, texts and attribute values in DWARF (DWARF 5, sections 7.5.5, 7.5.6 and 7.6), in the
//! 32-bit format, with addresses of eight bytes. Each function reads the value that begins the bytes, and returns it
//! with the bytes after it. No call allocates memory, but for the table of `Units::read`. Numbers of any size are
//! also written.
//!
//! The modules in reading order: `little_endian`, numbers of a fixed size; `leb128`, numbers of any size; `text`, texts
//! that end with a NUL; `value`, the value of an attribute; `dw_form`, the constants; `form`, the encoding of a value;
//! `text_sections`, the text that a value names; `units`, the units of a section; `laws`, relations between the
//! definitions.
#![tactic(auto)]

pub mod dw_form;
mod form;
pub mod laws;
mod leb128;
mod little_endian;
mod text;
mod text_sections;
mod units;
mod value;

pub use form::{fixed_size, read_value, skip_value};
pub use leb128::{push_signed_leb128, push_unsigned_leb128, signed_leb128, unsigned_leb128};
pub use little_endian::{u16_le_at, u32_le_at, u64_le_at};
pub use text::read_text;
pub use text_sections::TextSections;
pub use units::{Units, is_64_bit, split_unit};
pub use value::Value;
