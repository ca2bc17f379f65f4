//! The draft of an output, and the target at which it is published when it is complete.

ghost use Rattle.std.specs.Prelude.{◌≡◌, ℕ, List, [], Option, Some, OnErr, OnOk};
ghost use Rattle.byte_device.specs.Devices.{CountsFailure};

use crate::{Failed, Sink};

/// The place at which an output is published.
pub trait Target {
    /// The sink for the bytes until then.
    type Draft: Sink;

    // The text that was published last, if there is one and it is known.
    ghost published: { Self → Option (List ℕ) };

    // The number of failed calls.
    ghost failures: { Self → ℕ };

    /// Replaces the published text by the draft's bytes, in one step. The draft is empty afterwards. If this fails, the
    /// published text stays.
    fn publish(&mut self, draft: &mut Self::Draft) -> Result<(), Failed>
        ensures published { OnOk result (published self.new ≡ Self.Draft.held draft.old) }
        ensures emptied { OnOk result (Self.Draft.held draft.new ≡ Some []) }
        ensures kept { OnErr result (published self.new ≡ published self.old) }
        ensures held { OnErr result (Self.Draft.held draft.new ≡ Self.Draft.held draft.old) }
        ensures unfailed { Self.Draft.failures draft.new ≡ Self.Draft.failures draft.old }
        ensures count { CountsFailure (failures self.old) (failures self.new) result };
}

/// An output: the draft that is written, and the target at which it is published when it is complete.
#[derive(Drop)]
pub struct Output<D, T> {
    pub draft: D,
    pub target: T,
}
