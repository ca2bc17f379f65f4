//! The result of admitting a slice.

use archive_core::{Digest, SliceKey};

/// The result of admitting a slice of a file.
#[derive(Clone, Copy, Debug, PartialEq, Eq)]
pub enum Taken {
    /// The archive did not have it, and has it now.
    Added(SliceKey, Digest),
    /// The archive had it, or has a retirement that covers it.
    Known(SliceKey, Digest),
    /// It does not begin like a 64-bit little-endian image; archives keep no others.
    Skipped,
}
