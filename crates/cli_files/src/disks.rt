//! Files by their paths, each read from its start or at any offset.

ghost use Rattle.std.specs.Prelude.{◌≡◌, ◌∷◌, [], List, Option, IfOk, MatchResult};
ghost use Rattle.byte_device.specs.Disks.{FileAt, IsOpened, Path, opened_with};

use byte_device::{CannotOpen, Placed, Source};
use heap_memory::NoMemory;

/// Files that are read by path.
pub trait Disk {
    /// A file that is read from its start.
    type Input: Source + Drop;

    /// A file that is read at any offset.
    type Places: Placed + Drop;

    // The known facts about the file at a path.
    ghost file_at: { Self → Path → FileAt };

    // The path at which a file was opened, as a list of one, if its disk records it.
    ghost path_of: { Self.Input → List Path };

    // The same for a file that is read at any offset.
    ghost opened_at: { Self.Places → List Path };

    // The paths that were opened, in order, if known.
    ghost opened: { Self → Option (List Path) };

    // The paths at which the system reported that memory ran out, if known.
    ghost wanting: { Self → Option (List Path) };

    /// Opens the file at a path to be read from its start. The outer error is lack of memory; the path counts as opened
    /// then too. The inner error states why the file cannot be opened.
    fn open(&mut self, path: &str) -> Result<Result<Self::Input, CannotOpen>, NoMemory>
        ensures input { IfOk result
            (λ input. IsOpened Self.Input.left Self.Input.failures path_of (file_at self.old path.now) input) }
        ensures files { file_at self.new ≡ file_at self.old }
        ensures opened { opened self.new ≡ opened_with (opened self.old) (path.now ∷ []) }
        ensures wanting { MatchResult result (λ _. wanting self.new ≡ wanting self.old)
            (λ _. wanting self.new ≡ opened_with (wanting self.old) (path.now ∷ [])) };

    /// Opens the file at a path to be read at any offset; errors as for `open`.
    fn open_places(&mut self, path: &str) -> Result<Result<Self::Places, CannotOpen>, NoMemory>
        ensures places { IfOk result
            (λ places. IsOpened Self.Places.whole Self.Places.failures opened_at (file_at self.old path.now) places) }
        ensures files { file_at self.new ≡ file_at self.old }
        ensures opened { opened self.new ≡ opened_with (opened self.old) (path.now ∷ []) }
        ensures wanting { MatchResult result (λ _. wanting self.new ≡ wanting self.old)
            (λ _. wanting self.new ≡ opened_with (wanting self.old) (path.now ∷ [])) };
}
