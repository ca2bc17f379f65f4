//! Relations between the definitions. Each law is the contract of a function that does nothing.

ghost use Rattle.std.specs.Prelude.{◌≡◌, ◌<◌, ◌^◌, ℕ, List, Option, None, MatchOption};
ghost use Rattle.macho_symbols.specs.Nearest.{IsNearest};
ghost use Rattle.macho_symbols.specs.Rows.{IsRowFor};
ghost use Rattle.macho_symbols.specs.Steps.{AreSteps, SaysNearest};
ghost use Rattle.macho_symbols.specs.declared.row.Row.{Row};
ghost use Rattle.table_symbols.specs.Rows.{AreRows, rows_bytes};
ghost use Rattle.table_symbols.specs.Steps.{AreBytes};
ghost use Rattle.table_symbols.specs.Table.{IsTableWith};

/// An address has one row or none.
pub fn one_row()
    ensures { (rows : List Row) (address : ℕ) (found other : Option Row) → IsRowFor rows address found
        → IsRowFor rows address other → found ≡ other }
{}

/// The same bytes are the rows of only one table.
pub fn one_table()
    ensures { (rows others : List Row) → AreRows rows → AreRows others → rows_bytes rows ≡ rows_bytes others
        → rows ≡ others }
{}

/// The last row that begins at or below an address has the nearest candidate of that address; if there is no such row,
/// there is no nearest candidate.
pub fn nearest_by_step()
    ensures { (image : List ℕ) (rows : List Row) (address : ℕ) (found : Option Row) → AreBytes image
        → address < 2 ^ 64 → AreSteps image rows → IsRowFor rows address found
        → MatchOption found (IsNearest image address None) (SaysNearest image address) }
{}

/// An image has one list of steps.
pub fn one_steps()
    ensures { (image : List ℕ) (rows others : List Row) → AreSteps image rows → AreSteps image others → rows ≡ others }
{}

/// An image and lines determine one table.
pub fn one_text()
    ensures { (image lines bytes others : List ℕ) → IsTableWith image lines bytes → IsTableWith image lines others
        → bytes ≡ others }
{}
