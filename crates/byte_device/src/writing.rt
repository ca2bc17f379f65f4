//! Writes whole texts to a sink.

ghost use Rattle.std.specs.Prelude.{◌≡◌, ◌+◌, ◌^◌, ◌<◌, length, OnOk, IfErr, OnErr};
ghost use Rattle.std.specs.Io.KnownBytes.{Appends};
ghost use Rattle.byte_device.specs.Devices.{FailedIn};
ghost use Rattle.byte_device.specs.Writes.{Puts, WritesFirst};

use crate::{Failed, Sink};

/// The writer failed after it had accepted exactly this number of first bytes of the text.
#[derive(Clone, Copy, Debug, PartialEq, Eq)]
pub struct WriteFault {
    pub written: u128,
}

/// Writes all the bytes.
pub fn push_all<W: Sink>(w: &mut W, bytes: &[u8]) -> Result<(), WriteFault>
    ensures ok { OnOk result (Appends (W.held w.old) (W.held w.new) bytes.now) }
    ensures unfailed { OnOk result (W.failures w.new ≡ W.failures w.old) }
    ensures err { IfErr result (λ e. WritesFirst (W.held w.old) (W.held w.new) bytes.now e.written) }
    ensures failed { OnErr result (FailedIn (W.failures w.old) (W.failures w.new)) }
{
    let mut at = 0;
    'pushing: while at < bytes.len() {
        match w.push(&bytes[at..]) {
            Ok(n) => at += n,
            Err(Failed) => {
                return Err(WriteFault {
                    written: at as u128,
                });
            }
        }
    }
    Ok(())
}

/// Writes the bytes that follow the first `written` bytes of a text, and returns how many bytes of the text are written
/// then. The number in a fault, too, counts from the beginning of the text.
pub fn put<W: Sink>(w: &mut W, written: u128, bytes: &[u8]) -> Result<u128, WriteFault>
    requires { written + length bytes.now < 2 ^ 128 }
    ensures { Puts W.held W.failures (λ n. n) w.old w.new written bytes.now result }
{
    match push_all(w, bytes) {
        Ok(()) => Ok(written + bytes.len() as u128),
        Err(fault) => Err(WriteFault {
            written: written + fault.written,
        }),
    }
}
