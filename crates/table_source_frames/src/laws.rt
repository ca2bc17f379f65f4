//! Relations between the definitions. Each law is the contract of a function that does nothing.

ghost use Rattle.std.specs.Prelude.{◌≡◌, ◌<◌, ◌^◌, ℕ, List, Option};
ghost use Rattle.dwarf_source_frames.specs.AddressFrames.{AreFramesOf};
ghost use Rattle.table_source_frames.specs.LineTable.{IsLineTable, IsLineTextWithin};
ghost use Rattle.table_source_frames.specs.SliceTable.{IsSliceTable};
ghost use Rattle.table_source_frames.specs.Steps.{AreFrameSteps, IsStepFor, StepRecord, frames_at, starts_of};
ghost use Rattle.table_symbols.specs.Table.{IsTableText};

use dwarf_source_frames::laws::one_list_of_frames;

/// An address has one step or none.
pub fn one_step()
    ensures { (starts : List ℕ) (address : ℕ) (found other : Option ℕ) → IsStepFor starts address found
        → IsStepFor starts address other → found ≡ other }
{}

/// The frames of an address are those of the last step that begins at or below it; if there is no such step, it has
/// none.
pub fn frames_by_step()
    ensures { (image : List ℕ) (steps : List StepRecord) (address : ℕ) (found : Option ℕ) → address < 2 ^ 64
        → AreFrameSteps image steps → IsStepFor (starts_of steps) address found
        → AreFramesOf image address (frames_at steps found) }
{
    one_list_of_frames();
    one_step();
}

/// An image has one list of steps.
pub fn one_list_of_steps()
    ensures { (image : List ℕ) (steps others : List StepRecord) → AreFrameSteps image steps
        → AreFrameSteps image others → steps ≡ others }
{
    one_list_of_frames();
}

/// Steps have one text in a slice with some strings, for each limit on its size.
pub fn one_text()
    ensures { (room : ℕ) (strings : List ℕ) (steps : List StepRecord) (bytes others : List ℕ)
        → IsLineTextWithin room strings steps bytes → IsLineTextWithin room strings steps others
        → bytes ≡ others }
{}

/// An image has one line table.
pub fn one_line_table()
    ensures { (image bytes others : List ℕ) → IsLineTable image bytes → IsLineTable image others → bytes ≡ others }
{
    one_list_of_steps();
    one_text();
}

/// A slice has one table.
pub fn one_slice_table()
    ensures { (image bytes others : List ℕ) → IsSliceTable image bytes → IsSliceTable image others → bytes ≡ others }
{
    one_line_table();
    table_symbols::laws::one_text();
}

/// The table of a slice is a table of its symbols: each result for symbols of such tables holds for it too.
pub fn has_symbols()
    ensures { (image bytes : List ℕ) → IsSliceTable image bytes → IsTableText image bytes }
{}
