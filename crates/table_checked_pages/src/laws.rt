//! How bytes are stored, and the assumption about SHA-256. Each law is the contract of a function that does nothing.

ghost use Rattle.std.specs.Prelude.{◌≡◌, ◌<◌, ◌≤◌, ◌++◌, ℕ, List, length};
ghost use Rattle.sha2.specs.Sha256.{sha256};
ghost use Rattle.table_checked_pages.specs.Pages.{AreStored, Claim, MayBeStored, page_digests, root_of, stored};

/// At most one page is stored as it is, and its root is its SHA-256. More bytes are stored after their page digests,
/// which are stored in the same way, and have the same root.
pub fn stored_after_digests()
    ensures page { (all : List ℕ) → length all ≤ 4096 → (stored all ≡ all) × (root_of all ≡ sha256 all) }
    ensures pages { (all : List ℕ) → 4096 < length all
        → (stored all ≡ stored (page_digests all) ++ all) × (root_of all ≡ root_of (page_digests all)) }
{}

/// If bytes are stored where a claim says, nothing is assumed about SHA-256: they satisfy `MayBeStored`.
pub fn stored_may_be()
    ensures { (text all : List ℕ) (claim : Claim) → AreStored text claim all → MayBeStored text claim all }
{}
