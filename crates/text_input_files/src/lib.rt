//! Inputs with one item per line: the script of a rehearsal, and the frames of a crash.
//!
//! A script is a number of sites, and the events at them:
//!
//! - `event`: an event at a site; `script`: a script, and the faults of other bytes;
//! - `numbers`: decimal numbers, and the flaws of other fields; `events`: the event of a line;
//! - `script_flaws`: the flaw of a faulty line; `script_reading`: reads a script;
//! - [`script_laws`]: laws about scripts.
//!
//! Frames are addresses, each in an image:
//!
//! - `frame`: a frame, and the faults of bytes that are no frames; `frame_fields`: the frame of a line;
//! - `frame_flaws`: the flaw of a line without a frame; `frame_reading`: reads frames;
//! - [`frame_laws`]: laws about frames.
//!
//! # Why it is so
//!
//! - Too many bytes are `OutOfMemory`. The flaw of a line depends on that line alone.
#![tactic(auto)]

mod event;
mod events;
mod frame;
mod frame_fields;
mod frame_flaws;
pub mod frame_laws;
mod frame_reading;
mod numbers;
mod script;
mod script_flaws;
pub mod script_laws;
mod script_reading;

pub use event::Event;
pub use frame::{Frame, FramesError};
pub use frame_flaws::{FrameFlaw, frame_flaw};
pub use frame_reading::read_frames;
pub use numbers::NumberFlaw;
pub use script::{Script, ScriptError, ScriptFault};
pub use script_flaws::{ScriptFlaw, script_flaw};
pub use script_reading::read_script;
