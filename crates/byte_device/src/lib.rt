//! Devices that read and write bytes and count their failures: in order, or from any offset; and files by their paths,
//! each of which is a device.
//!
//! - [`Source`] and [`Sink`], in order: `buffers` in memory, `streams` of files, `limited` for tests, `nowhere`, which
//!   keeps nothing; `reading`: [`read_to_end`], all the bytes; `writing`: [`put`], a whole text;
//! - [`Placed`], from any offset: `placing` for files, `placed_pieces` in memory; `placed_reading`: [`read_at`], a
//!   number of bytes from an offset;
//! - `rooms`: [`make_room`], how memory grows with the bytes that are read;
//! - `targets`: [`Output`], a draft that is written, and the [`Target`] at which it is published;
//! - `disks`: why a file cannot be opened or created.
#![tactic(auto)]

ghost use Rattle.std.specs.Prelude.{◌≡◌, ℕ, List, Option, IfOk, OnErr, ◌<◌, ◌≤◌, length};
ghost use Rattle.std.specs.Io.KnownBytes.{ReadConsumes, WriteAppends};
ghost use Rattle.byte_device.specs.Devices.{CountsFailure};
ghost use Rattle.byte_device.specs.Places.{TakenAt, HasSize};

mod buffers;
mod disks;
mod limited;
mod nowhere;
mod placed_pieces;
mod placed_reading;
mod placing;
mod reading;
mod rooms;
mod streams;
mod targets;
mod writing;

pub use buffers::{Bytes, Grown};
pub use disks::{CannotCreate, CannotOpen};
pub use limited::{Pieces, Short};
pub use nowhere::Nowhere;
pub use placed_pieces::PlacedPieces;
pub use placed_reading::read_at;
pub use placing::Placing;
pub use reading::{ReadFault, is_at_end, read_to_end};
pub use rooms::make_room;
pub use streams::{Reading, Writing};
pub use targets::{Output, Target};
pub use writing::{WriteFault, push_all, put};

/// The number of bytes that are read from a device at once, if no fewer are needed.
pub const PIECE_LEN: usize = 64 * 1024;

/// The device failed in this call: no byte was read or written, and its count of failures rose by one. A device whose
/// count is at its greatest, 2^64 - 1, fails every call.
#[derive(Clone, Copy, Debug, PartialEq, Eq)]
pub struct Failed;

/// A device that returns its bytes in order.
pub trait Source {
    // The bytes that pulls will return from here, if they are known.
    ghost left: { Self → Option (List ℕ) };

    // The number of failed calls.
    ghost failures: { Self → ℕ };

    /// Reads the next bytes into the front of `buf` and returns their number: at least one if `buf` is not empty, and 0
    /// only at the end.
    fn pull(&mut self, buf: &mut [u8]) -> Result<usize, Failed>
        ensures bound { IfOk result (λ n. n ≤ length buf.new) }
        ensures bytes { ReadConsumes (left self.old) (left self.new) result buf.new }
        ensures count { CountsFailure (failures self.old) (failures self.new) result };
}

/// A device that accepts bytes in order.
pub trait Sink {
    // The bytes that it has accepted, if they are known.
    ghost held: { Self → Option (List ℕ) };

    // The number of failed calls.
    ghost failures: { Self → ℕ };

    /// Accepts bytes from the front of `bytes` and returns their number: at least one if there are any.
    fn push(&mut self, bytes: &[u8]) -> Result<usize, Failed>
        ensures bound { IfOk result (λ n. n ≤ length bytes.now) }
        ensures some { 0 < length bytes.now → IfOk result (λ n. 0 < n) }
        ensures bytes { WriteAppends (held self.old) (held self.new) result bytes.now }
        ensures count { CountsFailure (failures self.old) (failures self.new) result };
}

/// A device that returns bytes from any offset.
pub trait Placed {
    // All its bytes, if they are known.
    ghost whole: { Self → Option (List ℕ) };

    // The number of failed calls.
    ghost failures: { Self → ℕ };

    // Between the two states a read from this offset failed. If nothing else is known of a device, only such a read
    // proves this.
    ghost unread: { Self → Self → ℕ → Type 0 };

    // Between the two states the device failed to return its size.
    ghost unmeasured: { Self → Self → Type 0 };

    /// Reads bytes from the offset into the front of `buf` and returns their number: at least one if `buf` is not
    /// empty, and 0 only at or past the end.
    fn take_at(&mut self, at: u64, buf: &mut [u8]) -> Result<usize, Failed>
        ensures bound { IfOk result (λ n. n ≤ length buf.new) }
        ensures bytes { IfOk result (λ n. TakenAt (whole self.old) at n buf.new) }
        ensures keeps { whole self.new ≡ whole self.old }
        ensures count { CountsFailure (failures self.old) (failures self.new) result }
        ensures unread { OnErr result (unread self.old self.new at) };

    /// The size of the device in bytes.
    fn size(&mut self) -> Result<u64, Failed>
        ensures size { IfOk result (λ size. HasSize (whole self.old) size) }
        ensures keeps { whole self.new ≡ whole self.old }
        ensures count { CountsFailure (failures self.old) (failures self.new) result }
        ensures unmeasured { OnErr result (unmeasured self.old self.new) };
}
