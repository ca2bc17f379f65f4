//! Inputs that are opened by the first call for their bytes: [`Opens`] reports the result.
#![tactic(auto)]

mod openings;

pub use openings::{Opening, Opens};
