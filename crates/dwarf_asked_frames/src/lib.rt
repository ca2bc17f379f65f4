//! The frames of asked addresses of an image: [`frames_of`]. They are those of the rows and of the links of each unit
//! that has one of the addresses, which are built for these addresses alone, one unit after another.
//!
//! The modules in reading order: `found`, the frames that were found for addresses; `link_frames`, those of a row and a
//! link; `unit_frames`, those of the addresses of a unit; `address_frames`, those of addresses of an image.
#![tactic(auto)]

mod address_frames;
mod found;
mod link_frames;
mod unit_frames;

pub use address_frames::{AddressFrames, frames_of};
