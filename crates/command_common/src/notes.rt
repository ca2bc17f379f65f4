//! The notes of a command that succeeded: requested records or names that are not there.

use archive_core::{Digest, SliceKey};
use heap_memory::Heap;
use std::fmt;
use text_reports::{Escaped, Text};
use text_values::Spelled;

/// A note of a command, apart from its report: it changes neither the report nor the exit status.
#[derive(Debug, Drop)]
pub enum Note {
    /// IN retires this slice of a file, so it is not admitted.
    Retired(SliceKey, Digest),
    /// IN has no slice with this key and digest; the retirement is added all the same.
    Missing(SliceKey, Digest),
    /// No symbol has this name, but one has it with a `_` before it.
    Underscored(Vec<u8, Heap>),
}

#[tactic(auto, unfolding(crate::specs::Notes::note_text))]
impl fmt::Display for Note {
    ghost use Rattle.std.specs.Prelude.{Some};
    ghost use Rattle.command_common.specs.Notes.{note_text};

    ghost output = { λ note. Some (note_text note) };

    fn fmt<W: fmt::Write>(&self, f: &mut fmt::Formatter<W>) -> fmt::Result {
        match self {
            Note::Retired(key, digest) => {
                let key = Text(*key);
                let digest = Spelled(*digest);
                write!(
                    f,
                    "note: {key} {digest} is retired in IN, and does not come in"
                )
            }
            Note::Missing(key, digest) => {
                let key = Text(*key);
                let digest = Spelled(*digest);
                write!(f, "note: IN has no slice {key} {digest}")
            }
            Note::Underscored(name) => {
                let name = Escaped(name);
                write!(f, "note: there is no symbol {name}, but there is _{name}")
            }
        }
    }
}
