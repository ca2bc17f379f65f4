//! Binary search among rows in stored pages.

ghost use Rattle.std.specs.Prelude.{◌≡◌, ◌≤◌, ◌<◌, ℕ, List, Decides, IfOk};
ghost use Rattle.table_checked_pages.specs.Halving.{IsEdge};
ghost use Rattle.table_checked_pages.specs.Pages.{AreStored};
ghost use Rattle.table_checked_pages.specs.Reading.{ReadsStored};
ghost use Rattle.table_checked_pages.specs.Views.{ArePagesOf, KeepsPages, claim_view};

use crate::fault::CheckFault;
use crate::pages::Pages;
use byte_device::Placed;

/// A sought row among the rows in pages, by index.
pub trait Sought {
    // The type of the rows.
    ghost Rows: { Type 0 };

    // These rows are stored in the bytes of the pages.
    ghost stand: { Self → Rows → List ℕ → Type 0 };

    // The bytes of the pages contain every row that the search may read.
    ghost is_held: { Self → List ℕ → Type 0 };

    // The row at an index is below the sought one.
    ghost is_below: { Self → Rows → ℕ → Type 0 };

    // The number of rows that the search may read.
    ghost count: { Self → ℕ };

    /// Whether the row at an index is below the sought one.
    fn is_below<P: Placed>(
        &self,
        device: &mut P,
        pages: &mut Pages,
        place: u64,
    ) -> Result<bool, CheckFault>
        requires { place < count self.now }
        ensures claim { pages.new.claim ≡ pages.old.claim }
        ensures keeps { KeepsPages P.whole device.old pages.old pages.new }
        ensures read { ReadsStored P.whole P.failures device.old device.new result
            (λ text below. (all : List ℕ) (rows : Rows) → ArePagesOf pages.old text all → stand self.now rows all
            → Decides below (is_below self.now rows place))
            (λ text. (all : List ℕ) → AreStored text (claim_view pages.old.claim) all → ArePagesOf pages.old text all
            → is_held self.now all → ⊥) };
}

/// The index from `from` to `to` such that the row before it is below the sought one, and its own row is not. One row
/// is read in each step of the binary search. If the rows ascend, exactly the rows before this index are below the
/// sought one.
pub fn partition_point<P: Placed, S: Sought>(
    device: &mut P,
    pages: &mut Pages,
    sought: &S,
    from: u64,
    to: u64,
) -> Result<u64, CheckFault>
    requires from { from ≤ S.count sought.now }
    requires to { to ≤ S.count sought.now }
    ensures claim { pages.new.claim ≡ pages.old.claim }
    ensures keeps { KeepsPages P.whole device.old pages.old pages.new }
    ensures within { IfOk result (λ place. (from ≤ place) × (place ≤ S.count sought.now)) }
    ensures inside { from ≤ to → IfOk result (λ place. place ≤ to) }
    ensures read { ReadsStored P.whole P.failures device.old device.new result
        (λ text place. (all : List ℕ) (rows : S.Rows) → ArePagesOf pages.old text all → S.stand sought.now rows all
        → IsEdge (S.is_below sought.now rows) from to place)
        (λ text. (all : List ℕ) → AreStored text (claim_view pages.old.claim) all → ArePagesOf pages.old text all
        → S.is_held sought.now all → ⊥) }
{
    let mut low = from;
    let mut high = to;
    'halving: while low < high {
        let middle = low + (high - low) / 2;
        let below = sought.is_below(device, pages, middle)?;
        if below {
            low = middle + 1;
        } else {
            high = middle;
        }
    }
    Ok(low)
}
