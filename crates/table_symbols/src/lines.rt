//! The offsets of the strings and of the lines in a stored table.

ghost use Rattle.std.specs.Prelude.{◌≡◌, ◌+◌, ◌++◌, ◌≤◌, ℕ, List, length};
ghost use Rattle.table_checked_pages.specs.Views.{ArePagesOf};
ghost use Rattle.table_checked_pages.specs.Standing.{IsRestFrom};
ghost use Rattle.table_symbols.specs.Opened.{IsOpened, IsOpenedIn, lines_at, strings_at};
ghost use Rattle.table_symbols.specs.Table.{TableParts, table_bytes};

use crate::Table;
use table_checked_pages::Pages;

impl Table {
    /// The bytes of the table, and the offsets of its strings and of its lines among them. No page that was read for
    /// symbols is kept.
    pub fn into_lines(self) -> (Pages, u64, u64)
        ensures claim { result.0.claim ≡ self.pages.claim }
        ensures order { result.1 ≤ result.2 }
        ensures lines { (text : List ℕ) (t : TableParts) → IsOpened self text t
            → ArePagesOf result.0 text (table_bytes t) × IsRestFrom (table_bytes t) result.1 (t.strings ++ t.lines)
            × (result.1 + length t.strings ≡ result.2) }
        ensures bytes { (text all : List ℕ) → IsOpenedIn self text all
            → ArePagesOf result.0 text all × (result.1 ≡ strings_at all) × (result.2 ≡ lines_at all) }
    {
        let strings = self.first_string();
        let lines = self.first_line();
        let mut pages = self.pages;
        pages.forget();
        (pages, strings, lines)
    }
}
