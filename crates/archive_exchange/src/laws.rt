//! Laws about deliveries and events.
//!
//! Each law is the contract of a function that only calls laws of the crates below. Its clauses are about the
//! definitions alone: a caller that needs a law calls its function.
ghost use Rattle.std.specs.Prelude.{◌≡◌, ℕ, List};
ghost use Rattle.archive_core.specs.Content.{IsContent, IsBelow};
ghost use Rattle.archive_exchange.specs.SiteState.{SiteState, HasJoined, HasJoinedInPart};
ghost use Rattle.archive_exchange.specs.ModelEvent.{ModelEvent, AreSeen};
ghost use Rattle.text_input_files.specs.declared.event.Event.{Event};

use archive_image_admission::laws::one_take_fault;

/// A delivery that stopped half way left a content between the old one and the result, and has the same result if it is
/// repeated.
pub fn delivery_resumed()
    ensures above { (text : List ℕ) (old mid : SiteState) → HasJoinedInPart text old mid → IsBelow old.held mid.held }
    ensures below { (text : List ℕ) (old mid new : SiteState)
        → HasJoinedInPart text old mid
        → HasJoined text old new
        → IsBelow mid.held new.held }
    ensures again { (text : List ℕ) (old mid new : SiteState)
        → IsContent old.held
        → HasJoinedInPart text old mid
        → HasJoined text mid new
        → HasJoined text old new }
{}

/// Each list of events is exactly one list of events in the definitions of `specs/World`.
pub fn one_meaning()
    ensures some { (events : List Event) → (seen : List ModelEvent) × AreSeen events seen }
    ensures one { (events : List Event) (seen other : List ModelEvent)
        → AreSeen events seen
        → AreSeen events other
        → seen ≡ other }
{
    one_take_fault();
}
