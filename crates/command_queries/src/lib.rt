//! The commands that search an archive, or several as their join, and print an answer, over any sources and sinks.
//!
//! - `find`, `list`, `name`: the commands that print which slices it has;
//! - `source_frames`: the source frames for addresses in the slices that answer under a key;
//! - `places`: the answers of an archive for addresses under a key, each with its lines;
//! - `addresses`: the address of an argument, and the status after an answer.
#![tactic(auto)]

mod addresses;
mod find;
mod list;
mod name;
mod places;
mod source_frames;

pub use addresses::{asked_of, status_after};
pub use find::run_find;
pub use list::run_list;
pub use name::{NameAnswer, answer_name};
pub use places::{PlaceAnswer, address_in, answer_places};
