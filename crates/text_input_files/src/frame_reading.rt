//! Reads frames.

ghost use Rattle.std.specs.Prelude.{◌≡◌, ◌+◌, ◌<◌, ◌^◌, All, IfErr, IfOk, Ok};
ghost use Rattle.text_values.specs.Lines.{seen};
ghost use Rattle.text_input_files.specs.Frames.{IsErrorOf, frames_in, frames_of};

use crate::frame::{Frame, FramesError};
use crate::frame_fields::read_frame;
use heap_memory::Heap;
use text_values::lines_that_count;

/// The largest number of bytes that are read: no machine's memory has room for more in one piece.
const MOST_BYTES: usize = usize::MAX / 2;

/// Reads any number of frames, in the order of their lines.
///
/// Memory is allocated before a line is tested, so `OutOfMemory` may be reported for bytes that are no frames.
pub fn read_frames(heap: Heap, bytes: &[u8]) -> Result<Vec<Frame, Heap>, FramesError>
    ensures frames { IfOk result (λ frames. frames_of bytes.now ≡ Ok frames.items) }
    ensures fault { IfErr result (IsErrorOf (frames_of bytes.now)) }
{
    if bytes.len() > MOST_BYTES {
        return Err(FramesError::OutOfMemory);
    }
    let lines = lines_that_count(heap.share(), bytes)?;
    frames_among(heap, &lines)
}

// The frames of the lines that count, each after the number of the lines before it.
fn frames_among(heap: Heap, lines: &[(usize, &[u8])]) -> Result<Vec<Frame, Heap>, FramesError>
    requires { All (λ line. line.0 < 2 ^ 63) lines.now }
    ensures ok { IfOk result (λ frames. frames_in (seen lines.now) ≡ Ok frames.items) }
    ensures err { IfErr result (IsErrorOf (frames_in (seen lines.now))) }
{
    let mut frames = Vec::with_capacity(heap, lines.len())?;
    'lines: for line in lines {
        let Some(frame) = read_frame(line.1) else {
            return Err(FramesError::BadFrame {
                line: line.0 as u64 + 1,
            });
        };
        frames.push(frame)?;
    }
    Ok(frames)
}
