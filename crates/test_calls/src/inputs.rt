//! The files of a desk as the inputs of a line.

ghost use Rattle.std.specs.Prelude.{◌≡◌, [], OnOk, map};
ghost use Rattle.cli_files.specs.LazyInputs.{told};
ghost use Rattle.cli_files.specs.InputStates.{AreWaiting};

use crate::desk::Desk;
use byte_device::{CannotOpen, PlacedPieces};
use cli_files::{Disk, LazyInput};
use heap_memory::NoMemory;
use test_parts::StrictSource;

impl<'a> Disk for Desk<'a> {
    ghost use Rattle.std.specs.Prelude.{[], None, is_some, option_map, if◌then◌else◌};
    ghost use Rattle.std.specs.BTreeMap.{get_by_text};
    ghost use Rattle.byte_device.specs.Disks.{Unknown, file_of};

    type Input = StrictSource<'a>;

    type Places = PlacedPieces<'a>;

    // Nothing is known of files if one of them is cut.
    ghost file_at = { λ desk path. if is_some desk.limits.cut then Unknown
        else file_of (option_map (λ v. v.items) (get_by_text desk.store.now.files path)) };

    ghost path_of = { λ _. [] };

    ghost opened_at = { λ _. [] };

    ghost opened = { λ _. None };

    ghost wanting = { λ _. None };

    fn open(&mut self, path: &str) -> Result<Result<StrictSource<'a>, CannotOpen>, NoMemory> {
        if self.limits.opened == 0 {
            return Err(NoMemory);
        }
        Ok(self.input(path))
    }

    fn open_places(
        &mut self,
        path: &str,
    ) -> Result<Result<PlacedPieces<'a>, CannotOpen>, NoMemory> {
        if self.limits.opened == 0 {
            return Err(NoMemory);
        }
        Ok(self.places(path))
    }
}

/// An input of a line, at its position on the command line.
pub type Input<'l, 'a> = LazyInput<'l, Desk<'a>>;

/// Makes an input for each of these paths. There is memory to open a limited number of the first ones.
pub fn make_inputs<'l, 'a>(
    mut desk: Desk<'a>,
    paths: &[&'l str],
    inputs: &mut Vec<Input<'l, 'a>>,
) -> Result<(), NoMemory>
    requires { inputs.old.items ≡ [] }
    ensures { OnOk result (AreWaiting told (map (λ p. p.now) paths.now) inputs.new.items) }
{
    'paths: for path in paths {
        inputs.push(LazyInput::new(desk, path))?;
        desk.limits.opened = desk.limits.opened.saturating_sub(1);
    }
    Ok(())
}
