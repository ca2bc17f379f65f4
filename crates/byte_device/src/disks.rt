//! Files that cannot be opened or created.

use std::error::Error;
use std::fmt::{self, Display};
use std::io;

/// An input could not be opened.
#[derive(Clone, Copy, Debug)]
pub struct CannotOpen {
    /// The error of the system.
    pub reason: io::Error,
}

/// The file of an output could not be created.
#[derive(Clone, Copy, Debug, PartialEq, Eq)]
pub struct CannotCreate;

impl Error for CannotCreate {}

#[tactic(auto, unfolding(crate::specs::Disks::cannot_create_text))]
impl fmt::Display for CannotCreate {
    ghost use Rattle.std.specs.Prelude.{Some};
    ghost use Rattle.byte_device.specs.Disks.{cannot_create_text};

    ghost output = { λ _. Some cannot_create_text };

    fn fmt<W: fmt::Write>(&self, f: &mut fmt::Formatter<W>) -> fmt::Result {
        f.write_str("output: cannot create")
    }
}
