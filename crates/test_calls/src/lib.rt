//! The surroundings of the cases of `test_acceptance`, and calls below the commands, carried out.
//!
//! - `desk`: files in memory, and the limits of their devices; `inputs`: these files as the inputs of a line;
//! - `subjects`, `changes`: calls that may change an archive, and the archive that they leave if memory is refused;
//! - `calls`: calls below the commands;
//! - `outcomes`: the result of a case at one point of a device.
#![tactic(auto)]

mod calls;
mod changes;
mod desk;
mod inputs;
mod outcomes;
mod subjects;

pub use calls::Call;
pub use desk::{Desk, Tried};
pub use inputs::{Input, make_inputs};
pub use outcomes::outcome_at;
