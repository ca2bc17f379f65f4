//! `load_command`: the kind of each command.

ghost use Rattle.std.specs.Prelude.{◌≡◌, ◌+◌, ◌<◌, ◌≤◌, ◌^◌, ◌++◌, length, MatchOption};
ghost use Rattle.macho_image.specs.Layout.{u32_le_at};
ghost use Rattle.macho_image.specs.Commands.{IsCommand, HasRoom};
ghost use Rattle.macho_image.specs.Inner.{HasNoCommand};
ghost use Rattle.macho_image.specs.Kinds.{load_command};

use crate::loader::{LC_SEGMENT_64, LC_SYMTAB, LC_UUID, LOAD_COMMAND_LEN};
use crate::number::number32;
use crate::segment::SegmentCommand64;
use crate::symtab_command::{Symtab, symtab_in};
use crate::uuid_command::uuid_in;
use uuid::Uuid;

/// A load command, by its `cmd`.
#[derive(Drop)]
pub enum LoadCommand<'a> {
    /// LC_UUID: the UUID.
    Uuid(Uuid),
    /// LC_SEGMENT_64: a segment with its sections.
    Segment(SegmentCommand64<'a>),
    /// LC_SYMTAB: the offsets and sizes of the symbol table and the string table.
    Symtab(Symtab),
    /// A command of another kind.
    Other,
}

/// `cmd`: the kind of a command.
pub(crate) fn cmd(command: &[u8]) -> u32
    requires { 8 ≤ length command.now }
    ensures { result ≡ u32_le_at command.now 0 }
{
    number32(command, 0)
}

/// The load command that begins the bytes, and the bytes after it; `None` if the bytes do not begin with a command. Any
/// `cmdsize` that fits is accepted, whether or not it is a multiple of 8.
#[tactic(auto, using(crate::proofs::FirstCommands::commands_in_front))]
pub(crate) fn split_command(bytes: &[u8]) -> Option<(&[u8], &[u8])>
    ensures { MatchOption result (HasNoCommand bytes.now) (λ p. IsCommand p.0.now × (bytes.now ≡ p.0.now ++ p.1.now)) }
{
    if bytes.len() < LOAD_COMMAND_LEN {
        return None;
    }
    let cmdsize = number32(bytes, 4) as usize;
    if cmdsize < LOAD_COMMAND_LEN || bytes.len() < cmdsize {
        return None;
    }
    Some(bytes.split_at(cmdsize))
}

impl<'a> LoadCommand<'a> {
    /// The command with these bytes, which are at an offset of the image.
    #[tactic(auto, unfolding(crate::specs::Kinds::load_command))]
    pub(crate) fn of(offset: u32, bytes: &'a [u8]) -> LoadCommand<'a>
        requires room { HasRoom bytes.now }
        requires small { offset + length bytes.now < 2 ^ 32 }
        ensures { result ≡ load_command offset bytes.now }
    {
        match cmd(bytes) {
            LC_SEGMENT_64 => LoadCommand::Segment(SegmentCommand64::of(offset, bytes)),
            LC_UUID => LoadCommand::Uuid(uuid_in(bytes)),
            LC_SYMTAB => LoadCommand::Symtab(symtab_in(bytes)),
            _ => LoadCommand::Other,
        }
    }
}
