//! Any list of events, on any number of sites.
ghost use Rattle.std.specs.Prelude.{◌≡◌, ◌≤◌, ℕ, [], List, Some, suc, min, max, length, slice_get, IfOk};
ghost use Rattle.std.specs.List.{AllZip};
ghost use Rattle.archive_core.specs.Content.{IsBelow, content_of};
ghost use Rattle.archive_exchange.specs.World.{start, state, outcomes};
ghost use Rattle.archive_exchange.specs.Reached.{reached};
ghost use Rattle.archive_exchange.specs.Issued.{AreIssued, AreRecords, DigestsDiffer, IsExchange, IsQuiet};
ghost use Rattle.archive_exchange.specs.SiteState.{SiteState};
ghost use Rattle.archive_exchange.specs.ModelEvent.{ModelEvent, OfEvents, OutcomeIs};
ghost use Rattle.archive_exchange.specs.WorldState.{Represents};
ghost use Rattle.archive_exchange.specs.Alike.{AreAlike};
ghost use Rattle.archive_exchange.specs.InnerEvents.{HasRun};

use crate::happening::happen;
use crate::laws::one_meaning;
use crate::model_laws::{
    asker_is_above_replier, issued_and_kept, mutual_replies_agree, reached_is_held,
    same_operations_same_content,
};
use crate::{Outcome, Site, World};
use archive_core::Archive;
use archive_image_admission::TakeFault;
use heap_memory::{Heap, NoMemory};
use text_input_files::Event;

fn empty_sites<A: Archive + Drop>(heap: &Heap, sites: u32) -> Result<Vec<Site<A>, Heap>, NoMemory>
    ensures number { IfOk result (λ row. length row.items ≡ sites) }
    ensures empty { IfOk result (λ row. Represents row.items [] start) }
{
    let mut row = Vec::new(heap.share());
    'sites: for _ in 0..sites {
        row.push(Site::new(heap.share())?)?;
    }
    Ok(row)
}

fn carry_out<A: Archive + Drop>(
    heap: Heap,
    sites: u32,
    events: &[Event],
) -> Result<(World<A>, Vec<Outcome, Heap>), NoMemory>
    ensures number { IfOk result (λ done. length done.0.sites ≡ sites) }
    ensures has_run { IfOk result (λ done. OfEvents events.now (λ seen.
        HasRun sites seen (length seen) done.0.sites done.0.messages done.1.items)) }
{
    one_meaning();
    let mut row = empty_sites(&heap, sites)?;
    let mut messages = Vec::new(heap.share());
    let mut outcomes = Vec::new(heap);
    'events: for event in events {
        let outcome = happen(&mut row, &mut messages, event)?;
        outcomes.push(outcome)?;
    }
    Ok((World::new(row, messages), outcomes))
}

/// Carries out a list of events on this number of sites, which begin empty, and returns the world after them and an
/// outcome for each event. Any events, in any order: a refused one changes nothing.
///
/// The clauses are about the events in the definitions of `specs/World`; by `laws::one_meaning` each list has exactly
/// one. If memory runs out at any event, the run fails.
pub fn run<A: Archive + Drop>(
    heap: Heap,
    sites: u32,
    events: &[Event],
) -> Result<(World<A>, Vec<Outcome, Heap>), NoMemory>
    ensures number { IfOk result (λ done. length done.0.sites ≡ sites) }

    // The world is the state after all events, its messages byte for byte, and the outcomes are those of the events.
    ensures state { IfOk result (λ done. OfEvents events.now (λ seen.
        Represents done.0.sites done.0.messages (state sites seen (length seen)))) }
    ensures outcomes { IfOk result (λ done. OfEvents events.now (λ seen.
        AllZip OutcomeIs done.1.items (outcomes sites seen (length seen)))) }

    // A site holds the content of the operations that reach it.
    ensures reached { IfOk result (λ done. OfEvents events.now (λ seen. (i : ℕ) (site : SiteState)
        → slice_get done.0.sites i ≡ Some site
        → site.held ≡ content_of (reached sites seen i))) }

    // The headline: sites that the same operations reached, here or in any other run, hold the same content, write the
    // same bytes and have the same answer to every lookup.
    ensures same_operations_same_bytes { IfOk result (λ done. OfEvents events.now (λ seen.
        (i : ℕ) (site : SiteState) (others : ℕ) (later : List ModelEvent) (j : ℕ)
        → slice_get done.0.sites i ≡ Some site
        → content_of (reached sites seen i) ≡ content_of (reached others later j)
        → AreAlike site.held ((state others later (length later)).held j))) }

    // The operations that its events issue are records. That is the premise of the laws of events, and of `headline`.
    ensures records { IfOk result (λ _. OfEvents events.now (λ seen. AreRecords sites seen)) }

    // Each operation that is held or saved was issued.
    ensures held_was_issued { IfOk result (λ _. OfEvents events.now (λ seen. (n i : ℕ)
        → AreIssued sites seen ((state sites seen n).held i))) }
    ensures saved_was_issued { IfOk result (λ _. OfEvents events.now (λ seen. (n i : ℕ)
        → AreIssued sites seen ((state sites seen n).saved i))) }

    // The saved content of a site is below the contents that it saves later, and below those that it holds then and
    // later.
    ensures saved_grows { IfOk result (λ _. OfEvents events.now (λ seen. (n m i : ℕ)
        → n ≤ m
        → IsBelow ((state sites seen n).saved i) ((state sites seen m).saved i))) }
    ensures saved_is_held { IfOk result (λ _. OfEvents events.now (λ seen. (n m i : ℕ)
        → n ≤ m
        → IsBelow ((state sites seen n).saved i) ((state sites seen m).held i))) }

    // If no two different issued slices have the same SHA-256: a site that receives a delta in reply to any of its
    // summaries is above the content of the replier at the reply.
    ensures lifted { IfOk result (λ _. OfEvents events.now (λ seen. (i x a r k : ℕ)
        → DigestsDiffer sites seen
        → IsExchange sites seen i x a r k
        → IsBelow ((state sites seen r).held x) ((state sites seen (suc k)).held i))) }

    // And two sites that reply to each other's summaries, and are quiet meanwhile, hold the same content.
    ensures agreed { IfOk result (λ _. OfEvents events.now (λ seen. (i j a r d b s e : ℕ)
        → DigestsDiffer sites seen
        → IsExchange sites seen i j a r d
        → IsExchange sites seen j i b s e
        → IsQuiet seen i (min a b) (max d e) d
        → IsQuiet seen j (min a b) (max d e) e
        → AreAlike ((state sites seen (suc (max d e))).held i) ((state sites seen (suc (max d e))).held j))) }
{
    reached_is_held::<TakeFault>();
    same_operations_same_content::<TakeFault>();
    issued_and_kept::<TakeFault>();
    asker_is_above_replier::<TakeFault>();
    mutual_replies_agree::<TakeFault>();
    let done = carry_out(heap, sites, events)?;
    Ok(done)
}
