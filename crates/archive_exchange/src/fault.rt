//! Why a message is not joined, or has no reply.

use archive_records::RecordFault;
use std::alloc::AllocError;

/// Why a message is not joined.
#[derive(Clone, Copy, Debug, PartialEq, Eq)]
pub enum DeliverFault {
    /// It is no archive's text: the fault of `read_archive`.
    Refused(RecordFault),
    /// Memory ran out.
    OutOfMemory,
}

impl From<AllocError> for DeliverFault {
    ghost use Rattle.std.specs.Prelude.{◌≡◌};
    ghost use Rattle.archive_exchange.specs.declared.fault.DeliverFault.TheVariants.{OutOfMemory};

    ghost from_gives = { λ _ fault. fault ≡ OutOfMemory };

    fn from(_refused: AllocError) -> DeliverFault {
        DeliverFault::OutOfMemory
    }
}

/// Why a message has no reply.
#[derive(Clone, Copy, Debug, PartialEq, Eq)]
pub enum ReplyFault {
    /// It is no summary's text: the fault of `read_summary`.
    NotASummary(RecordFault),
    /// Memory ran out.
    OutOfMemory,
}

impl From<AllocError> for ReplyFault {
    ghost use Rattle.std.specs.Prelude.{◌≡◌};
    ghost use Rattle.archive_exchange.specs.declared.fault.ReplyFault.TheVariants.{OutOfMemory};

    ghost from_gives = { λ _ fault. fault ≡ OutOfMemory };

    fn from(_refused: AllocError) -> ReplyFault {
        ReplyFault::OutOfMemory
    }
}
