//! Addresses that are looked up together. An address with an answer is no longer pending, so that overlapping ranges
//! cost no more than the addresses that they answer.
//!
//! - `pending`: [`pending_addresses`], the set; [`assign_within`], a value for all pending addresses in a range;
//! - `answers`: [`answers_for`], the answer for each address, in the order of the addresses;
//! - `rising`: [`sorted_once`], addresses in order, each once, and [`count_below`], the number of those below one;
//! - `waiting`: [`Waiting`], the waiting indexes of these: a pass over a range costs no more than those that still
//!   wait.
#![tactic(auto)]

mod answers;
mod pending;
mod rising;
mod waiting;

pub use answers::answers_for;
pub use pending::{assign_within, pending_addresses};
pub use rising::{count_below, sorted_once};
pub use waiting::Waiting;
