//! The texts of architectures, UUIDs, digests and addresses, printed and read.
//!
//! A [`Word`] is read from its text, in each of its forms. A printed value has one of these forms and is read back as
//! the same value ([`laws`]).
//!
//! - [`machine`]: the architectures with a name, and their numbers;
//! - `archs`: the text of an architecture;
//! - `numbers`: hex digits, and the text of an address;
//! - `identities`: the texts of a UUID and of a digest;
//! - `words`: a value with a text;
//! - `lines`: the lines of a file that count, and their fields;
//! - `flaws`: the flaws by which a line has no such fields.
#![tactic(auto)]

mod archs;
mod flaws;
mod identities;
pub mod laws;
mod lines;
pub mod machine;
mod numbers;
mod words;

pub use flaws::{LineFlaw, line_flaw};
pub use lines::{cut_field, line_at, lines_that_count, number_of_lines};
pub use numbers::Address;
pub use words::{Spelled, Word};
