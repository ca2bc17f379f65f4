//! Why bytes cannot be returned.

use byte_device::{Failed, ReadFault};

/// Why bytes cannot be returned.
#[derive(Clone, Copy, Debug, PartialEq, Eq, Drop)]
pub enum CheckFault {
    /// The stored bytes differ from their digests, or there are fewer.
    Changed,
    /// The device failed in this call.
    Device,
    /// Memory could not be allocated.
    OutOfMemory,
}
