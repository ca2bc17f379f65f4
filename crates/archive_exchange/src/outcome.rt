//! The outcome of an event.

use archive_image_admission::{TakeFault, Taken};
use archive_records::RecordFault;
use heap_memory::Heap;

/// Why an event is refused. If several faults apply, it is the first of them in this order.
#[derive(Clone, Copy, Debug, PartialEq, Eq)]
pub enum EventFault {
    /// There is no site with that number.
    NoSite,
    /// No message with that number was sent before.
    NoMessage,
    /// The message to reply to is no summary: the fault of `read_summary`.
    NotASummary(RecordFault),
    /// The message to deliver is no archive: the fault of `read_archive`.
    Refused(RecordFault),
    /// The file is refused, and never for `OutOfMemory`.
    File(TakeFault),
}

/// The outcome of an event.
#[derive(Debug, Drop)]
pub enum Outcome {
    /// A row for each part of the file, in its order.
    Took(Vec<Taken, Heap>),
    /// Whether the retirement is new to the site.
    Retired(bool),
    /// The number of the message that was sent.
    Sent(u64),
    /// The message was joined.
    Delivered,
    /// The site saved.
    Saved,
    /// The site stopped.
    Stopped,
    /// The event is refused and changed nothing.
    Refused(EventFault),
}
