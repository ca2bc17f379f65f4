//! Relations between the definitions.

ghost use Rattle.std.specs.Prelude.{[], ◌≡◌, ◌<◌, ◌^◌, ℕ, All, List, Option};
ghost use Rattle.dwarf_source_frames.specs.AddressFrames.{AreFramesOf};
ghost use Rattle.dwarf_source_frames.specs.DebugSections.{DebugSectionsRecord, debug_sections};
ghost use Rattle.dwarf_source_frames.specs.Frames.{FrameRecord};
ghost use Rattle.dwarf_source_frames.specs.UnitAddresses.{IsUnitOf};

/// An address has at most one unit.
pub fn one_unit()
    ensures { (sections : DebugSectionsRecord) (address : ℕ) (one other : Option ℕ) →
        IsUnitOf sections address one → IsUnitOf sections address other → one ≡ other }
{}

/// An address has one list of frames.
pub fn one_list_of_frames()
    ensures { (image : List ℕ) (address : ℕ) (one other : List FrameRecord) →
        AreFramesOf image address one → AreFramesOf image address other → one ≡ other }
{}

/// The lines and the columns of frames are below 2^32.
pub fn lines_below_two_to_32()
    ensures { (image : List ℕ) (address : ℕ) (frames : List FrameRecord) → AreFramesOf image address frames
        → All (λ f. (f.line < 2 ^ 32) × (f.column < 2 ^ 32)) frames }
{}

/// An address of an image without `__debug_info` has no frames.
pub fn no_frames_without_dwarf()
    ensures { (image : List ℕ) (address : ℕ) (frames : List FrameRecord) →
        (debug_sections image).debug_info ≡ [] → AreFramesOf image address frames → frames ≡ [] }
{}
