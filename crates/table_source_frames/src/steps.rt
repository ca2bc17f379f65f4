//! The steps of a group, one after another.

ghost use Rattle.std.specs.Prelude.{◌≡◌, ◌<◌, IfNone, IfSome, length};
ghost use Rattle.std.specs.Option.{option_map};
ghost use Rattle.table_source_frames.specs.Inner.{AreNoSteps, IsLastStep, step_view};
ghost use Rattle.table_source_frames.specs.StepGroups.{no_numbers, number_after, step_after};

use crate::row::Step;
use dwarf_encoding::signed_leb128;

/// The numbers before the first step of a group.
fn no_step() -> Step
    ensures { step_view result ≡ no_numbers }
{
    Step {
        start: 0,
        scope: 0,
        line: 0,
        column: 0,
    }
}

/// The number after an earlier one whose difference begins the bytes, and the bytes after it; `None` if no number
/// begins them.
fn number_after(before: u64, bytes: &[u8]) -> Option<(u64, &[u8])>
    ensures shorter { IfSome result (λ x. length x.1.now < length bytes.now) }
    ensures is { option_map (λ x. (x.0, x.1.now)) result ≡ number_after before bytes.now }
{
    let (apart, rest) = signed_leb128(bytes)?;
    Some((before.wrapping_add(apart), rest))
}

/// The step after an earlier one whose differences begin the bytes, and the bytes after it; `None` if no step begins
/// them.
#[tactic(auto, unfolding(crate::specs::StepGroups::step_after))]
fn step_after(before: Step, bytes: &[u8]) -> Option<(Step, &[u8])>
    ensures shorter { IfSome result (λ x. length x.1.now < length bytes.now) }
    ensures is { option_map (λ x. (step_view x.0, x.1.now)) result ≡ step_after (step_view before) bytes.now }
{
    let (start, bytes) = number_after(before.start, bytes)?;
    let (scope, bytes) = number_after(before.scope, bytes)?;
    let (line, bytes) = number_after(before.line, bytes)?;
    let (column, bytes) = number_after(before.column, bytes)?;
    let step = Step {
        start,
        scope,
        line,
        column,
    };
    Some((step, bytes))
}

/// The last step of a group that does not start above an address, if starts ascend; the numbers before its first step
/// if there is none. `None` if a step that is read does not end with the bytes.
pub(crate) fn last_step(bytes: &[u8], address: u64) -> Option<Step>
    ensures found { IfSome result (λ step. IsLastStep bytes.now address (step_view step)) }
    ensures none { IfNone result (AreNoSteps bytes.now address) }
{
    let mut last = no_step();
    let mut rest = bytes;
    'steps: while !rest.is_empty() {
        let (step, after) = step_after(last, rest)?;
        if step.start > address {
            return Some(last);
        }
        last = step;
        rest = after;
    }
    Some(last)
}
