//! The statements of an image about itself, read in one walk over its load commands, which tests each of them.

ghost use Rattle.std.specs.Prelude.{◌≡◌, ◌+◌, ◌<◌, ◌^◌, [], ◌∷◌, Bool, true, Some, None, IfOk, IfErr, is_some, length};
ghost use Rattle.std.specs.Option.{option_or};
ghost use Rattle.macho_image.specs.Commands.{IsCommand, HasRoom};
ghost use Rattle.macho_image.specs.Contents.{uuid_among, symtab_among};
ghost use Rattle.macho_image.specs.Fault.{command_fault, IsFirstFault};
ghost use Rattle.macho_image.specs.Inner.{AreContents};
ghost use Rattle.macho_image.specs.declared.fault.ImageFault.TheVariants.{SecondUuid, SecondSymtab};

use crate::fault::ImageFault;
use crate::load_command::{LoadCommand, cmd, split_command};
use crate::loader::{LC_SEGMENT_64, LC_SYMTAB, LC_UUID, SYMTAB_COMMAND_LEN, UUID_COMMAND_LEN};
use crate::segment::is_short;
use crate::symtab_command::Symtab;
use uuid::Uuid;

/// Tests that a command is long enough for its kind. `number` is the index of the command.
fn check_room(number: u32, command: &[u8]) -> Result<(), ImageFault>
    requires { IsCommand command.now }
    ensures faulty { IfErr result (λ fault. (has_uuid has_symtab : Bool) →
        command_fault number has_uuid has_symtab command.now ≡ Some fault) }
    ensures room { IfOk result (λ _. HasRoom command.now) }
{
    match cmd(command) {
        LC_SEGMENT_64 if is_short(command) => Err(ImageFault::BadSegment(number)),
        LC_UUID if command.len() < UUID_COMMAND_LEN => Err(ImageFault::BadUuid(number)),
        LC_SYMTAB if command.len() < SYMTAB_COMMAND_LEN => Err(ImageFault::BadSymtab(number)),
        _ => Ok(()),
    }
}

/// The UUID and the symbol table of the load commands that were read so far.
#[derive(Clone, Copy)]
pub(crate) struct Contents {
    pub(crate) uuid: Option<Uuid>,
    pub(crate) symtab: Option<Symtab>,
}

impl Contents {
    /// Adds the UUID of the next command, whose index is `number`. The error is `SecondUuid` if there is one already.
    fn with_uuid(self, number: u32, uuid: Uuid) -> Result<Contents, ImageFault>
        ensures faulty { IfErr result (λ fault. (fault ≡ SecondUuid number) × (is_some self.uuid ≡ true)) }
        ensures alone { IfOk result (λ _. self.uuid ≡ None) }
        ensures uuid { IfOk result (λ contents. contents.uuid ≡ Some uuid) }
        ensures symtab { IfOk result (λ contents. contents.symtab ≡ self.symtab) }
    {
        if self.uuid.is_some() {
            return Err(ImageFault::SecondUuid(number));
        }
        Ok(Contents {
            uuid: Some(uuid),
            ..self
        })
    }

    /// Adds the symbol table of the next command, whose index is `number`. The error is `SecondSymtab` if there is one
    /// already.
    fn with_symtab(self, number: u32, symtab: Symtab) -> Result<Contents, ImageFault>
        ensures faulty { IfErr result (λ fault. (fault ≡ SecondSymtab number) × (is_some self.symtab ≡ true)) }
        ensures alone { IfOk result (λ _. self.symtab ≡ None) }
        ensures uuid { IfOk result (λ contents. contents.uuid ≡ self.uuid) }
        ensures symtab { IfOk result (λ contents. contents.symtab ≡ Some symtab) }
    {
        if self.symtab.is_some() {
            return Err(ImageFault::SecondSymtab(number));
        }
        Ok(Contents {
            symtab: Some(symtab),
            ..self
        })
    }

    /// Adds the UUID or the symbol table of the next command, which is at an offset of the image and whose index is
    /// `number`. A segment and a command of any other kind add nothing.
    #[tactic(auto, unfolding(crate::specs::Kinds::load_command))]
    fn with_command(self, number: u32, offset: u32, command: &[u8]) -> Result<Contents, ImageFault>
        requires command { IsCommand command.now }
        requires small { offset + length command.now < 2 ^ 32 }
        ensures faulty { IfErr result (λ fault.
            command_fault number (is_some self.uuid) (is_some self.symtab) command.now ≡ Some fault) }
        ensures sound { IfOk result (λ _.
            command_fault number (is_some self.uuid) (is_some self.symtab) command.now ≡ None) }
        ensures uuid { IfOk result (λ contents. contents.uuid ≡ option_or self.uuid (uuid_among (command.now ∷ []))) }
        ensures symtab { IfOk result (λ contents.
            contents.symtab ≡ option_or self.symtab (symtab_among (command.now ∷ []))) }
    {
        check_room(number, command)?;
        match LoadCommand::of(offset, command) {
            LoadCommand::Uuid(uuid) => self.with_uuid(number, uuid),
            LoadCommand::Symtab(symtab) => self.with_symtab(number, symtab),
            LoadCommand::Segment(_) | LoadCommand::Other => Ok(self),
        }
    }
}

/// The UUID and the symbol table of the first `count` load commands, or the first fault among them. The bytes begin at
/// the offset `start` of the image. It stops at the first missing command, whatever the count, with the fault
/// `BadCommand`.
pub(crate) fn read_load_commands(
    area: &[u8],
    start: u32,
    count: u32,
) -> Result<Contents, ImageFault>
    requires { start + length area.now < 2 ^ 32 }
    ensures faulty { IfErr result (λ fault. IsFirstFault area.now count fault) }
    ensures sound { IfOk result (λ contents. AreContents area.now count contents.uuid contents.symtab) }
{
    let mut contents = Contents {
        uuid: None,
        symtab: None,
    };
    let mut rest = area;
    for number in 0..count {
        let Some((command, after)) = split_command(rest) else {
            return Err(ImageFault::BadCommand(number));
        };
        let offset = start + (area.len() - rest.len()) as u32;
        contents = contents.with_command(number, offset, command)?;
        rest = after;
    }
    Ok(contents)
}
