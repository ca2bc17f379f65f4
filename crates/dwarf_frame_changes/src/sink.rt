//! A receiver of turns with their frames.

ghost use Rattle.std.specs.Prelude.{◌∷◌, [], ℕ, IfOk, List, OnOk, Option};
ghost use Rattle.std.specs.Option.{option_map};
ghost use Rattle.dwarf_frame_changes.specs.Given.{Takes, TurnRecord};
ghost use Rattle.dwarf_frame_changes.specs.Taking.{KeepsNumbers};
ghost use Rattle.dwarf_lines.specs.Paths.{PathRecord};
ghost use Rattle.dwarf_lines.specs.PathViews.{path_view};
ghost use Rattle.dwarf_source_frames.specs.Frames.{FrameRecord};

use dwarf_lines::PathParts;
use heap_memory::NoMemory;

/// A receiver of turns with their frames. It returns numbers for names, paths and frames, so that each is passed to it
/// once; a number keeps its meaning from then on.
pub trait FrameSink<'a> {
    // This is the number of a name, or of no name; of a path, or of no path; of frames, the innermost first.
    ghost numbers_name: { Self → ℕ → Option (List ℕ) → Type 0 };

    ghost numbers_path: { Self → ℕ → Option PathRecord → Type 0 };

    ghost numbers_frames: { Self → ℕ → List FrameRecord → Type 0 };

    // It has received these turns, in this order.
    ghost has_received: { Self → List TurnRecord → Type 0 };

    /// The number of a name, or of no name.
    fn name(&mut self, name: Option<&'a [u8]>) -> Result<u32, NoMemory>
        ensures is { IfOk result (λ number. numbers_name self.new number (option_map (λ n. n.now) name.entry)) }
        ensures names { KeepsNumbers (numbers_name self.old) (numbers_name self.new) }
        ensures paths { KeepsNumbers (numbers_path self.old) (numbers_path self.new) }
        ensures frames { KeepsNumbers (numbers_frames self.old) (numbers_frames self.new) }
        ensures taken { Takes (has_received self.old) (has_received self.new) [] };

    /// The number of a path, or of no path.
    fn path(&mut self, path: Option<PathParts<'a>>) -> Result<u32, NoMemory>
        ensures is { IfOk result (λ number. numbers_path self.new number (option_map path_view path.entry)) }
        ensures names { KeepsNumbers (numbers_name self.old) (numbers_name self.new) }
        ensures paths { KeepsNumbers (numbers_path self.old) (numbers_path self.new) }
        ensures frames { KeepsNumbers (numbers_frames self.old) (numbers_frames self.new) }
        ensures taken { Takes (has_received self.old) (has_received self.new) [] };

    /// The number of the empty list of frames.
    fn no_frames(&self) -> u32
        ensures { numbers_frames self.now result [] };

    /// The number of a frame and of those that it is inlined into.
    fn frames(
        &mut self,
        name: u32,
        path: u32,
        line: u32,
        column: u32,
        callers: u32,
    ) -> Result<u32, NoMemory>
        requires name { (n : Option (List ℕ)) × numbers_name self.old name n }
        requires path { (p : Option PathRecord) × numbers_path self.old path p }
        requires callers { (outer : List FrameRecord) × numbers_frames self.old callers outer }
        ensures is { IfOk result (λ number.
            (n : Option (List ℕ)) (p : Option PathRecord) (outer : List FrameRecord) → numbers_name self.old name n
            → numbers_path self.old path p → numbers_frames self.old callers outer
            → numbers_frames self.new number
            (record { name = n; path = p; line = line; column = column } ∷ outer)) }
        ensures names { KeepsNumbers (numbers_name self.old) (numbers_name self.new) }
        ensures paths { KeepsNumbers (numbers_path self.old) (numbers_path self.new) }
        ensures frames { KeepsNumbers (numbers_frames self.old) (numbers_frames self.new) }
        ensures taken { Takes (has_received self.old) (has_received self.new) [] };

    /// Receives an address and the number of its frames.
    fn push(&mut self, address: u64, number: u32) -> Result<(), NoMemory>
        requires { (frames : List FrameRecord) × numbers_frames self.old number frames }
        ensures taken { OnOk result ((frames : List FrameRecord) → numbers_frames self.old number frames
            → Takes (has_received self.old) (has_received self.new)
            (record { address = address; frames = frames } ∷ [])) }
        ensures names { KeepsNumbers (numbers_name self.old) (numbers_name self.new) }
        ensures paths { KeepsNumbers (numbers_path self.old) (numbers_path self.new) }
        ensures frames { KeepsNumbers (numbers_frames self.old) (numbers_frames self.new) };
}
