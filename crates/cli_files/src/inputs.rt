//! The inputs of a command, each opened at its first read.

ghost use Rattle.std.specs.Prelude.{◌≡◌, ◌++◌, [], OnOk, map};
ghost use Rattle.cli_files.specs.LazyInputs.{told};
ghost use Rattle.cli_files.specs.InputStates.{AreFirstAsked, AreWaiting};

use crate::call_log::CallLog;
use crate::input_state::LazyInput;
use crate::system_disk::SystemDisk;
use heap_memory::NoMemory;
use std::alloc::Global;
use std::rt::Files;

/// An input from the system.
pub type SystemInput<'l, 'a, F> = LazyInput<'l, SystemDisk<'a, F>>;

/// Makes an input for each of these paths, and notes the path.
pub fn make_inputs<'l, 'a, F: Files>(
    alloc: Global,
    files: &'a F,
    paths: &[&'l str],
    asked: &mut CallLog,
    inputs: &mut Vec<SystemInput<'l, 'a, F>>,
) -> Result<(), NoMemory>
    requires { inputs.old.items ≡ [] }
    ensures inputs { OnOk result (AreWaiting told (map (λ p. p.now) paths.now) inputs.new.items) }
    ensures asked { OnOk result (asked.new.entries ≡ asked.old.entries ++ map (λ p. p.now) paths.now) }
    ensures first { AreFirstAsked asked.old.entries asked.new.entries (map (λ p. p.now) paths.now) }
{
    'paths: for path in paths {
        asked.note(path.as_bytes());
        inputs.push(LazyInput::new(SystemDisk::new(alloc, files), path))?;
    }
    Ok(())
}
