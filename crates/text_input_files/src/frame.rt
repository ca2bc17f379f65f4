//! A frame, and the faults of bytes that are no frames.

use archive_core::SliceKey;
use std::alloc::{AllocError, AllocFailed};

/// A frame of a crash: an address in an image.
#[derive(Clone, Copy, Debug, PartialEq, Eq)]
pub struct Frame {
    /// The key of the image.
    pub key: SliceKey,
    /// The load address of the image; none if the address is one of the file.
    pub load: Option<u64>,
    pub address: u64,
}

/// Why no frames are read.
#[derive(Clone, Copy, Debug, PartialEq, Eq)]
pub enum FramesError {
    /// A line that counts is no frame.
    BadFrame {
        /// The number of the first such line, counted from 1.
        line: u64,
    },
    /// Memory ran out.
    OutOfMemory,
}

impl From<AllocError> for FramesError {
    ghost use Rattle.std.specs.Prelude.{◌≡◌};
    ghost use Rattle.text_input_files.specs.declared.frame.FramesError.TheVariants.{OutOfMemory};

    ghost from_gives = { λ _ error. error ≡ OutOfMemory };

    fn from(_refused: AllocError) -> FramesError {
        FramesError::OutOfMemory
    }
}

impl<T: Drop> From<AllocFailed<T>> for FramesError {
    ghost use Rattle.std.specs.Prelude.{◌≡◌};
    ghost use Rattle.text_input_files.specs.declared.frame.FramesError.TheVariants.{OutOfMemory};

    ghost from_gives = { λ _ error. error ≡ OutOfMemory };

    fn from(_refused: AllocFailed<T>) -> FramesError {
        FramesError::OutOfMemory
    }
}
