//! Relations between the definitions.

ghost use Rattle.std.specs.Prelude.{[], ◌≡◌, ◌<◌, ◌≤◌, ◌^◌, ℕ, List};
ghost use Rattle.dwarf_frame_changes.specs.Turns.{IsTurn};
ghost use Rattle.dwarf_source_frames.specs.AddressFrames.{AreFramesOf};
ghost use Rattle.dwarf_source_frames.specs.Frames.{FrameRecord};

/// The frames stay the same up to the next turn.
pub fn same_between_turns()
    ensures { (image : List ℕ) (a b : ℕ) (frames : List FrameRecord) → a < b → b < 2 ^ 64
        → ((turn : ℕ) → a < turn → turn ≤ b → IsTurn image turn → ⊥)
        → AreFramesOf image a frames → AreFramesOf image b frames }
{}

/// An address before the first turn has no frames.
pub fn no_frames_before_turns()
    ensures { (image : List ℕ) (a : ℕ) (frames : List FrameRecord) → a < 2 ^ 64
        → ((turn : ℕ) → turn ≤ a → IsTurn image turn → ⊥) → AreFramesOf image a frames → frames ≡ [] }
{}

/// The empty list is that of the frames of an address before the first turn.
pub fn empty_before_turns()
    ensures { (image : List ℕ) (a : ℕ) → a < 2 ^ 64
        → ((turn : ℕ) → turn ≤ a → IsTurn image turn → ⊥) → AreFramesOf image a [] }
{}
