//! A script, and the faults of bytes that are none.

use crate::Event;
use heap_memory::Heap;
use std::alloc::{AllocError, AllocFailed};

/// A script: the number of sites, and the events at them, in this order.
#[derive(Debug, Drop)]
pub struct Script {
    /// The number of sites, from 1 to 64.
    pub sites: u32,
    /// At most 10,000 events. An event may name a site or a message that does not exist.
    pub events: Vec<Event, Heap>,
}

/// The fault of the first faulty line of a script.
#[derive(Clone, Copy, Debug, PartialEq, Eq)]
pub enum ScriptFault {
    /// The first line that counts is no `sites N` with N from 1 to 64, or no line counts.
    NoSites,
    /// The line is no event.
    BadEvent,
    /// The line is an event after 10,000 others.
    TooManyEvents,
}

/// Why no script is read.
#[derive(Clone, Copy, Debug, PartialEq, Eq)]
pub enum ScriptError {
    /// The bytes are no script.
    Faulty {
        /// The fault of the first faulty line.
        fault: ScriptFault,
        /// The number of that line, counted from 1; if no line counts, the number of lines plus one.
        line: u64,
    },
    /// Memory ran out.
    OutOfMemory,
}

impl From<AllocError> for ScriptError {
    ghost use Rattle.std.specs.Prelude.{◌≡◌};
    ghost use Rattle.text_input_files.specs.declared.script.ScriptError.TheVariants.{OutOfMemory};

    ghost from_gives = { λ _ error. error ≡ OutOfMemory };

    fn from(_refused: AllocError) -> ScriptError {
        ScriptError::OutOfMemory
    }
}

impl<T: Drop> From<AllocFailed<T>> for ScriptError {
    ghost use Rattle.std.specs.Prelude.{◌≡◌};
    ghost use Rattle.text_input_files.specs.declared.script.ScriptError.TheVariants.{OutOfMemory};

    ghost from_gives = { λ _ error. error ≡ OutOfMemory };

    fn from(_refused: AllocFailed<T>) -> ScriptError {
        ScriptError::OutOfMemory
    }
}
