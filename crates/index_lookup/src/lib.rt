//! Answers from several indexes: by their entries, and by the tables of the entries that answer.
//!
//! Only the entries with a key are read, two runs that are found by binary search, and only those pages of the tables
//! of the entries that answer that are needed, each compared with its digest. No slice is read.
//!
//! - `fault`: why there is no answer;
//! - `numbered`: an entry of one of several indexes, and its fields;
//! - `retired`: the keys and digests of the retirements with a key; `live`: the entries that none of these covers;
//! - `order`: the order of their records; `answering`: [`answering_entries`], those that answer;
//! - `named`: [`NamedSlice`], a slice that an entry names, and which of them answer or have a digest;
//! - `own`: the answer of a table for an address; `lines`: its frames in the slice;
//! - `answers`: [`Answers`], the answers of entries' tables for several addresses; `told`: [`answer_among`], which
//!   finds them;
//! - [`laws`]: the answers for several addresses are those for each address.
#![tactic(auto)]

mod answering;
mod answers;
mod fault;
pub mod laws;
mod lines;
mod live;
mod named;
mod numbered;
mod order;
mod own;
mod retired;
mod told;

pub use answering::{Answering, answering_entries};
pub use answers::{Answers, EntryAnswers};
pub use fault::AnswerFault;
pub use named::{NamedSlice, named_among, named_with};
pub use told::answer_among;
