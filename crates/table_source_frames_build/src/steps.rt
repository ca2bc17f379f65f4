//! The steps of a table, in groups.

ghost use Rattle.std.specs.Prelude.{◌≡◌, ◌≤◌, ◌<◌, ◌*◌, ◌++◌, IfOk, OnOk, length, map};
ghost use Rattle.table_checked_pages.specs.Groups.{bytes_of, group_at, group_rows};
ghost use Rattle.table_source_frames.specs.StepGroups.{difference_bytes, no_numbers, step_bytes, steps_bytes};
ghost use Rattle.table_source_frames_build.specs.KeptViews.{kept_view};
ghost use Rattle.table_source_frames_build.specs.PartBytes.{AreCounts, groups_by, step_numbers};
ghost use Rattle.table_source_frames_build.specs.StepViews.{HaveLocations, numbers_view};

use crate::kept::Kept;
use crate::parts::Parts;
use crate::rows::push_u64;
use crate::step::Step;
use dwarf_encoding::push_signed_leb128;
use heap_memory::{Heap, NoMemory};
use table_checked_pages::{GROUP_ROWS, groups_in};

/// The numbers of a step: its start, its scope, its line and its column.
#[derive(Clone, Copy)]
pub(crate) struct StepNumbers {
    pub start: u64,
    pub scope: u32,
    pub line: u32,
    pub column: u32,
}

/// The rows of groups of steps, and the bytes of all groups.
#[derive(Drop)]
pub(crate) struct StepRows {
    pub groups: Vec<u8, Heap>,
    pub bytes: Vec<u8, Heap>,
}

/// Adds a number after an earlier one, as their difference.
#[tactic(auto, unfolding(table_source_frames::specs::StepGroups::difference_bytes))]
fn push_difference(bytes: &mut Vec<u8, Heap>, before: u64, number: u64) -> Result<(), NoMemory>
    ensures { OnOk result (bytes.new.items ≡ bytes.old.items ++ difference_bytes before number) }
{
    push_signed_leb128(bytes, number.wrapping_sub(before))
}

/// Adds the numbers of a step after those of an earlier one.
fn push_step(
    bytes: &mut Vec<u8, Heap>,
    before: StepNumbers,
    step: StepNumbers,
) -> Result<(), NoMemory>
    ensures { OnOk result (bytes.new.items ≡ bytes.old.items ++ step_bytes (numbers_view before) (numbers_view step)) }
{
    push_difference(bytes, before.start, step.start)?;
    push_difference(bytes, u64::from(before.scope), u64::from(step.scope))?;
    push_difference(bytes, u64::from(before.line), u64::from(step.line))?;
    push_difference(bytes, u64::from(before.column), u64::from(step.column))
}

/// The group of steps at an index.
fn group_at(steps: &[Step], index: usize) -> &[Step]
    requires { 128 * index < length steps.now }
    ensures { result.now ≡ group_at steps.now index }
{
    let rest = steps.split_at(GROUP_ROWS * index).1;
    rest.split_at(GROUP_ROWS.min(rest.len())).0
}

impl<'a> Kept<'a> {
    /// The numbers of a step in a table with these parts.
    fn step_numbers(&self, parts: &Parts, step: Step) -> StepNumbers
        requires counts { AreCounts (kept_view self.now) parts.now }
        requires location { step.location ≤ length (kept_view self.now).locations }
        ensures { numbers_view result ≡ step_numbers (kept_view self.now) parts.now.scopes.order.items step }
    {
        let key = self.location_key_of(step.location);
        StepNumbers {
            start: step.start,
            scope: parts.scopes.number_of(key.scope),
            line: key.line,
            column: key.column,
        }
    }

    /// Adds the steps of a group.
    fn push_group(
        &self,
        bytes: &mut Vec<u8, Heap>,
        parts: &Parts,
        steps: &[Step],
    ) -> Result<(), NoMemory>
        requires counts { AreCounts (kept_view self.now) parts.now }
        requires steps { HaveLocations (kept_view self.now) steps.now }
        ensures { OnOk result (bytes.new.items ≡ bytes.old.items ++ steps_bytes no_numbers
            (map (step_numbers (kept_view self.now) parts.now.scopes.order.items) steps.now)) }
    {
        let mut before = StepNumbers {
            start: 0,
            scope: 0,
            line: 0,
            column: 0,
        };
        for step in steps {
            let numbers = self.step_numbers(parts, *step);
            push_step(bytes, before, numbers)?;
            before = numbers;
        }
        Ok(())
    }

    /// These steps in groups.
    pub fn step_rows(&self, heap: Heap, parts: &Parts, steps: &[Step]) -> Result<StepRows, NoMemory>
        requires counts { AreCounts (kept_view self.now) parts.now }
        requires steps { HaveLocations (kept_view self.now) steps.now }
        ensures groups { IfOk result (λ rows. rows.groups.items
            ≡ group_rows 0 (groups_by (kept_view self.now) parts.now.scopes.order.items steps.now)) }
        ensures bytes { IfOk result (λ rows. rows.bytes.items
            ≡ bytes_of (groups_by (kept_view self.now) parts.now.scopes.order.items steps.now)) }
    {
        let mut groups = Vec::new(heap.share());
        let mut bytes = Vec::new(heap);
        'groups: for index in 0..groups_in(steps.len() as u64) {
            let group = group_at(steps, index as usize);
            push_u64(&mut groups, group[0].start)?;
            push_u64(&mut groups, bytes.len() as u64)?;
            self.push_group(&mut bytes, parts, group)?;
        }
        Ok(StepRows { groups, bytes })
    }
}
