//! The row for an address, by binary search in a stored table.

ghost use Rattle.std.specs.Prelude.{◌≡◌, ◌+◌, ◌*◌, ◌<◌, ◌≤◌, ◌^◌, ℕ, List, Some, length, slice_get};
ghost use Rattle.table_checked_pages.specs.Pages.{AreStored};
ghost use Rattle.table_checked_pages.specs.Views.{ArePagesOf, KeepsPages, claim_view};
ghost use Rattle.table_checked_pages.specs.Reading.{ReadsStored};
ghost use Rattle.macho_symbols.specs.Rows.{IsRowFor};
ghost use Rattle.table_symbols.specs.Rows.{AreRows, rows_bytes};
ghost use Rattle.table_checked_pages.specs.Standing.{Stands};
ghost use Rattle.macho_symbols.specs.declared.row.Row.{Row};

use crate::row::{ROW_LEN, row_of};
use byte_device::Placed;
use macho_symbols::Row;
use table_checked_pages::{CheckFault, Pages, Sought, partition_point};

/// The row with this number, among the rows from an offset on.
fn row_at<P: Placed>(
    device: &mut P,
    table: &mut Pages,
    first: u64,
    index: u64,
) -> Result<Row, CheckFault>
    requires { first + 21 * index < 2 ^ 64 }
    ensures claim { table.new.claim ≡ table.old.claim }
    ensures keeps { KeepsPages P.whole device.old table.old table.new }
    ensures read { ReadsStored P.whole P.failures device.old device.new result
        (λ text row. (all : List ℕ) (rows : List Row) → ArePagesOf table.old text all → AreRows rows
        → Stands all first (rows_bytes rows) → index < length rows → slice_get rows index ≡ Some row)
        (λ text. (all : List ℕ) → AreStored text (claim_view table.old.claim) all → ArePagesOf table.old text all
        → first + 21 * (index + 1) ≤ length all → ⊥) }
{
    let mut bytes = [0; ROW_LEN];
    table.read(device, first + ROW_LEN as u64 * index, &mut bytes)?;
    Ok(row_of(&bytes))
}

/// The rows that begin at or below an address, among the rows from an offset of the table on.
#[derive(Drop)]
struct StartsUpTo {
    first: u64,
    count: u64,
    address: u64,
    ghost fits: { first + 21 * count < 2 ^ 64 },
}

impl Sought for StartsUpTo {
    ghost use Rattle.std.specs.Prelude.{slice_index_or};

    ghost Rows = { List Row };

    ghost stand = { λ s rows all.
        AreRows rows × (length rows ≡ s.count) × Stands all s.first (rows_bytes rows) };

    ghost is_held = { λ s all. s.first + 21 * s.count ≤ length all };

    ghost is_below = { λ s rows place. (d : Row) → (slice_index_or rows place d).start ≤ s.address };

    ghost count = { λ s. s.count };

    fn is_below<P: Placed>(
        &self,
        device: &mut P,
        table: &mut Pages,
        place: u64,
    ) -> Result<bool, CheckFault> {
        let row = row_at(device, table, self.first, place)?;
        Ok(row.start <= self.address)
    }
}

/// The row for an address, among a number of rows from an offset of the table on. It reads one row in each step of the
/// binary search.
pub(crate) fn row_for<P: Placed>(
    device: &mut P,
    table: &mut Pages,
    first: u64,
    count: u64,
    address: u64,
) -> Result<Option<Row>, CheckFault>
    requires { first + 21 * count < 2 ^ 64 }
    ensures claim { table.new.claim ≡ table.old.claim }
    ensures keeps { KeepsPages P.whole device.old table.old table.new }
    ensures read { ReadsStored P.whole P.failures device.old device.new result
        (λ text found. (all : List ℕ) (rows : List Row) → ArePagesOf table.old text all → AreRows rows
        → length rows ≡ count → Stands all first (rows_bytes rows) → IsRowFor rows address found)
        (λ text. (all : List ℕ) → AreStored text (claim_view table.old.claim) all → ArePagesOf table.old text all
        → first + 21 * count ≤ length all → ⊥) }
{
    let sought = StartsUpTo {
        first,
        count,
        address,
    };
    let end = partition_point(device, table, &sought, 0, count)?;
    if end == 0 {
        return Ok(None);
    }
    let row = row_at(device, table, first, end - 1)?;
    Ok(Some(row))
}
