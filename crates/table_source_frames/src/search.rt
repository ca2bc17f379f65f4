//! The step of an address: a binary search among the groups, and one group from its front.

ghost use Rattle.std.specs.Prelude.{◌≡◌, ◌<◌, ◌≤◌, ◌^◌, ℕ, List, Option, IfErr, IfOk};
ghost use Rattle.table_checked_pages.specs.Groups.{groups_in};
ghost use Rattle.table_checked_pages.specs.GroupViews.{groups_view};
ghost use Rattle.table_checked_pages.specs.Views.{KeepsPages};
ghost use Rattle.table_checked_pages.specs.Reading.{ReadsStored};
ghost use Rattle.table_source_frames.specs.Inner.{FitsPosition, HasPosition, IsLastStep, IsPositionIn, IsPositionOf};
ghost use Rattle.table_source_frames.specs.Inner.{group_bytes_of, step_view};
ghost use Rattle.table_source_frames.specs.LineText.{parts_of};
ghost use Rattle.table_source_frames.specs.OfBytes.{IsStoredStep, IsTrueOfBytes, groups_place};
ghost use Rattle.table_source_frames.specs.Opened.{IsOpened, IsUnstored};
ghost use Rattle.table_source_frames.specs.Steps.{AreAscending, IsStepFor, StepRecord, frames_at, starts_of};

use crate::row::{Position, Step};
use crate::steps::last_step;
use crate::table::{HEAD_LEN, LineTable};
use byte_device::Placed;
use dwarf_encoding::laws::{at_most_ten_bytes, numbers_are_read_back};
use table_checked_pages::{CheckFault, GROUP_MOST, Groups, Pages, groups_in};

/// The position of an address without frames.
const NO_POSITION: Position = Position {
    scope: 0,
    line: 0,
    column: 0,
};

/// A number of a position. The error is `Changed` if it does not fit.
fn fitted(number: u64) -> Result<u32, CheckFault>
    ensures fits { IfOk result (λ fitted. fitted ≡ number) }
    ensures fault { IfErr result (λ fault. (fault ≡ CheckFault.Changed) × (2 ^ 32 ≤ number)) }
{
    match u32::try_from(number) {
        Ok(fitted) => Ok(fitted),
        Err(_) => Err(CheckFault::Changed),
    }
}

/// The position of a step. The error is `Changed` if one of its numbers does not fit.
fn position_of(step: Step) -> Result<Position, CheckFault>
    ensures fits { IfOk result (λ position. IsPositionOf (step_view step) position) }
    ensures fault { IfErr result (λ fault. (fault ≡ CheckFault.Changed) × (FitsPosition (step_view step) → ⊥)) }
{
    let scope = fitted(step.scope)?;
    let line = fitted(step.line)?;
    let column = fitted(step.column)?;
    Ok(Position {
        scope,
        line,
        column,
    })
}

impl LineTable {
    /// The groups of steps.
    fn groups(&self) -> Groups
        ensures { groups_view result ≡ groups_place self.now }
    {
        Groups {
            offset: self.offset + HEAD_LEN as u64,
            count: groups_in(self.steps),
            size: self.step_bytes,
        }
    }

    /// The last step of the group at an index that does not start above an address.
    fn step_in_group<P: Placed>(
        &self,
        device: &mut P,
        pages: &mut Pages,
        index: u64,
        address: u64,
    ) -> Result<Step, CheckFault>
        requires { index < groups_in self.now.steps }
        ensures claim { pages.new.claim ≡ pages.old.claim }
        ensures keeps { KeepsPages P.whole device.old pages.old pages.new }
        ensures read { ReadsStored P.whole P.failures device.old device.new result
            (λ text step. (all strings : List ℕ) (steps : List StepRecord)
            → IsOpened self.now pages.old text all strings steps
            → IsLastStep (group_bytes_of (parts_of strings steps) index) address (step_view step))
            (IsUnstored self.now pages.old) }
        ensures bytes { IfOk result (λ step. IsTrueOfBytes P.whole device.old pages.old
            (λ all. IsStoredStep self.now all (step_view step))) }
    {
        at_most_ten_bytes();
        numbers_are_read_back();
        let groups = self.groups();
        let (offset, count) = groups.place(device, pages, index)?;
        let mut room = [0; GROUP_MOST];
        let group = &mut room[..count];
        pages.read(device, offset, group)?;
        match last_step(group, address) {
            Some(step) => Ok(step),
            None => Err(CheckFault::Changed),
        }
    }

    /// The position of the innermost frame of an address; with scope 0 if it has no frames.
    pub(crate) fn position_for<P: Placed>(
        &self,
        device: &mut P,
        pages: &mut Pages,
        address: u64,
    ) -> Result<Position, CheckFault>
        ensures claim { pages.new.claim ≡ pages.old.claim }
        ensures keeps { KeepsPages P.whole device.old pages.old pages.new }
        ensures read { ReadsStored P.whole P.failures device.old device.new result
            (λ text position. (all strings : List ℕ) (steps : List StepRecord) → AreAscending (starts_of steps)
            → IsOpened self.now pages.old text all strings steps
            → (found : Option ℕ) × IsStepFor (starts_of steps) address found
            × HasPosition (parts_of strings steps) position (frames_at steps found))
            (IsUnstored self.now pages.old) }
        ensures bytes { IfOk result (λ position. IsTrueOfBytes P.whole device.old pages.old
            (λ all. IsPositionIn self.now all position)) }
    {
        at_most_ten_bytes();
        numbers_are_read_back();
        let groups = self.groups();
        let count = groups.up_to(device, pages, address)?;
        if count == 0 {
            return Ok(NO_POSITION);
        }
        let step = self.step_in_group(device, pages, count - 1, address)?;
        let position = position_of(step)?;
        Ok(position)
    }
}
