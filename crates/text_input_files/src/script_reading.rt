//! Reads a script.

ghost use Rattle.std.specs.Prelude.{◌≡◌, ◌+◌, ◌<◌, ◌^◌, All, IfErr, IfOk, Ok};
ghost use Rattle.text_values.specs.Lines.{seen};
ghost use Rattle.text_input_files.specs.Script.{IsErrorOf, acts, events_of, script_of};

use crate::Event;
use crate::events::{read_event, read_sites};
use crate::script::{Script, ScriptError, ScriptFault};
use heap_memory::Heap;
use text_values::{lines_that_count, number_of_lines};

/// The largest number of events in a script.
const MOST_EVENTS: usize = 10_000;

/// The largest number of bytes in a script: no machine's memory has room for more in one piece.
const MOST_BYTES: usize = usize::MAX / 2;

/// Reads a script.
///
/// The lines are tested in their order; an event after 10,000 others is tested for its form first. Memory is allocated
/// as the lines are read, so `OutOfMemory` may be reported for bytes that are no script.
pub fn read_script(heap: Heap, bytes: &[u8]) -> Result<Script, ScriptError>
    ensures script { IfOk result (λ script. script_of bytes.now ≡ Ok (script.sites, acts script.events.items)) }
    ensures fault { IfErr result (IsErrorOf (script_of bytes.now)) }
{
    if bytes.len() > MOST_BYTES {
        return Err(ScriptError::OutOfMemory);
    }
    let lines = lines_that_count(heap.share(), bytes)?;
    let Some((first, further)) = lines.split_first() else {
        return Err(faulty(ScriptFault::NoSites, number_of_lines(bytes)));
    };
    let Some(sites) = read_sites(first.1) else {
        return Err(faulty(ScriptFault::NoSites, first.0 as u64));
    };
    let events = read_events(heap, further)?;
    Ok(Script { sites, events })
}

// The error for this fault at the line after this number of lines.
fn faulty(fault: ScriptFault, before: u64) -> ScriptError
    requires { before + 1 < 2 ^ 64 }
    ensures { result ≡ ScriptError.Faulty fault (before + 1) }
{
    ScriptError::Faulty {
        fault,
        line: before + 1,
    }
}

// The events of the lines that count, each after the number of the lines before it.
fn read_events(heap: Heap, lines: &[(usize, &[u8])]) -> Result<Vec<Event, Heap>, ScriptError>
    requires { All (λ line. line.0 + 1 < 2 ^ 64) lines.now }
    ensures ok { IfOk result (λ events. events_of 0 (seen lines.now) ≡ Ok (acts events.items)) }
    ensures err { IfErr result (IsErrorOf (events_of 0 (seen lines.now))) }
{
    let mut events = Vec::new(heap.share());
    'lines: for line in lines {
        let Some(event) = read_event(heap.share(), line.1)? else {
            return Err(faulty(ScriptFault::BadEvent, line.0 as u64));
        };
        if events.len() >= MOST_EVENTS {
            return Err(faulty(ScriptFault::TooManyEvents, line.0 as u64));
        }
        events.push(event)?;
    }
    Ok(events)
}
