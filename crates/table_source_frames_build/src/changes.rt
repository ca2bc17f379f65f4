//! The steps at which the location changes.

ghost use Rattle.std.specs.Prelude.{◌≡◌, IfOk};
ghost use Rattle.table_source_frames_build.specs.StepViews.{changed_after};

use crate::step::Step;
use heap_memory::{Heap, NoMemory};

/// The steps whose location differs from that of the step before; before the first step there is no location.
pub(crate) fn changed_steps(heap: Heap, steps: &[Step]) -> Result<Vec<Step, Heap>, NoMemory>
    ensures { IfOk result (λ changed. changed.items ≡ changed_after 0 steps.now) }
{
    let mut changed = Vec::new(heap);
    let mut before = 0;
    for step in steps {
        if step.location != before {
            changed.push(*step)?;
            before = step.location;
        }
    }
    Ok(changed)
}
