//! Laws about frames.
//!
//! Each law is the contract of a function with an empty body, and its clauses are about the definitions alone.
ghost use Rattle.std.specs.Prelude.{◌≡◌, ℕ, List, Ok, Err};
ghost use Rattle.text_input_files.specs.Frames.{IsFirstFault, IsFrames, frames_of};
ghost use Rattle.text_input_files.specs.declared.frame.Frame.{Frame};

/// Bytes are frames exactly if each line that counts is one frame, in this order.
pub fn frames_of_lines()
    ensures lines { (bytes : List ℕ) (frames : List Frame) → frames_of bytes ≡ Ok frames → IsFrames bytes frames }
    ensures listed { (bytes : List ℕ) (frames : List Frame) → IsFrames bytes frames → frames_of bytes ≡ Ok frames }
{}

/// Otherwise the fault is the first line that counts and is no frame, by its number, counted from 1.
pub fn fault_of_lines()
    ensures lines { (bytes : List ℕ) (line : ℕ) → frames_of bytes ≡ Err line → IsFirstFault bytes line }
    ensures listed { (bytes : List ℕ) (line : ℕ) → IsFirstFault bytes line → frames_of bytes ≡ Err line }
{}
