//! The opening of stored bytes.

ghost use Rattle.std.specs.Prelude.{◌≡◌, ◌<◌, ◌^◌, ℕ, List, IfErr, IfOk, OnErr, length};
ghost use Rattle.table_checked_pages.specs.Pages.{AreStored, MayBeStored};
ghost use Rattle.table_checked_pages.specs.Views.{ArePagesOf, claim_view};
ghost use Rattle.table_checked_pages.specs.declared.fault.CheckFault.TheVariants.{Changed};

use crate::sizes::digests_len;
use crate::{CheckFault, Claim, Pages};
use heap_memory::Heap;

impl Pages {
    /// The bytes of a claim. No byte is read before the first call of [`Pages::read`].
    #[tactic(auto, unfolding(crate::specs::Pages::AreKeptLevels))]
    pub fn open(heap: Heap, claim: Claim) -> Result<Pages, CheckFault>
        ensures claim { IfOk result (λ pages. pages.claim ≡ claim) }
        ensures opened { IfOk result (λ pages. (text all : List ℕ) → MayBeStored text (claim_view claim) all
            → ArePagesOf pages text all) }
        ensures fault { IfErr result (λ fault. fault ≡ Changed) }
        ensures absent { OnErr result ((text : List ℕ) → length text < 2 ^ 64 → (all : List ℕ)
            → AreStored text (claim_view claim) all → ⊥) }
    {
        let Some(first) = claim.offset.checked_add(digests_len(claim.size)) else {
            return Err(CheckFault::Changed);
        };
        let Some(_) = first.checked_add(claim.size) else {
            return Err(CheckFault::Changed);
        };
        Ok(Pages {
            claim,
            levels: Vec::new(heap.share()),
            heap,
        })
    }
}
