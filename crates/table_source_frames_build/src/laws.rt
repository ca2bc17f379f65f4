//! Relations between the definitions: the turns of an image suffice for its table.

ghost use Rattle.std.specs.Prelude.{◌<◌, ◌^◌, ℕ, List, All, Contains};
ghost use Rattle.dwarf_source_frames.specs.AddressFrames.{AreFramesOf};
ghost use Rattle.dwarf_frame_changes.specs.Given.{AreTurnsOf, TurnRecord};
ghost use Rattle.dwarf_frame_changes.specs.Turns.{IsTurn};
ghost use Rattle.macho_symbols.specs.Symbols.{strings_of};
ghost use Rattle.table_source_frames.specs.LineTable.{IsLineTable, room_of};
ghost use Rattle.table_source_frames.specs.Steps.{AreFrameSteps, Stays, StepRecord, starts_of};
ghost use Rattle.table_source_frames_build.specs.Lines.{AreLeastSteps, IsWritten};
ghost use Rattle.table_source_frames_build.specs.TurnSteps.{steps_of_turns};

use dwarf_frame_changes::laws::{empty_before_turns, same_between_turns};
use dwarf_source_frames::laws::one_list_of_frames;

/// If the frames of addresses were added, and those of an image change at no other address, the fewest steps are those
/// of the image.
pub fn least_steps_are_frame_steps()
    ensures { (image : List ℕ) (added steps : List StepRecord) → AreLeastSteps added steps
        → All (λ s. s.start < 2 ^ 64) added → All (λ s. AreFramesOf image s.start s.frames) added
        → ((a : ℕ) → a < 2 ^ 64 → (Contains (starts_of added) a → ⊥) → Stays image a)
        → AreFrameSteps image steps }
{
    one_list_of_frames();
}

/// If the frames at all turns are known, the frames at an address that is no turn are those at the address before.
pub fn frames_stay_between_turns()
    ensures { (image : List ℕ) (turns : List TurnRecord) (a : ℕ) → AreTurnsOf image turns → a < 2 ^ 64
        → (IsTurn image a → ⊥) → Stays image a }
{
    same_between_turns();
    empty_before_turns();
}

/// The fewest steps that state the frames at the turns of an image are the steps of the image.
pub fn steps_by_turns()
    ensures { (image : List ℕ) (turns : List TurnRecord) (steps : List StepRecord) → AreTurnsOf image turns
        → AreLeastSteps (steps_of_turns turns) steps → AreFrameSteps image steps }
{
    frames_stay_between_turns();
    least_steps_are_frame_steps();
}

/// A store that accepted the turns of an image writes the line table of the image.
pub fn table_by_turns()
    ensures { (image : List ℕ) (turns : List TurnRecord) (bytes : List ℕ) → AreTurnsOf image turns
        → IsWritten (room_of image) (strings_of image) (steps_of_turns turns) bytes → IsLineTable image bytes }
{
    steps_by_turns();
}
