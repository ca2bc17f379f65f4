//! The declarations of all tables. If the codes of a table ascend from 1 on, as compilers write them, a declaration is
//! found without a search.

ghost use Rattle.std.specs.Prelude.{[], ◌≡◌, ◌≢◌, ◌==◌, ◌&&◌, ◌++◌, ◌∷◌, ℕ, None, OnOk, Some, length, if◌then◌else◌};
ghost use Rattle.std.specs.Option.{is_some, option_map, option_or};
ghost use Rattle.std.specs.Ordering.{nat_cmp};
ghost use Rattle.std.specs.BTreeMap as tree_map;
ghost use Rattle.dwarf_entries.specs.DeclarationViews.{declaration_in, declaration_view, row_in, rows_or_none};

use crate::declaration::Declaration;
use heap_memory::{Heap, NoMemory};
use std::collections::BTreeMap;

/// The declarations of a table with the codes 1, 2, 3 and so on, as far as they have this order.
#[derive(Drop)]
pub(crate) struct Rows<'a> {
    pub rows: Vec<Declaration<'a>, Heap>,
}

/// Rows by the offsets of their tables.
type RowsByTable<'a> = BTreeMap<u64, Rows<'a>, Heap>;

/// Declarations by the offsets of their tables and their codes.
pub(crate) type DeclarationsByCode<'a> = BTreeMap<(u64, u64), Declaration<'a>, Heap>;

/// The declarations of all tables: the rows of each, and the declarations that are in no row.
#[derive(Drop)]
pub(crate) struct Declarations<'a> {
    pub rows: RowsByTable<'a>,
    pub others: DeclarationsByCode<'a>,
}

/// The declaration with a code in rows; `None` if there is none.
pub(crate) fn row_in<'t, 'a>(rows: Option<&'t Rows<'a>>, code: u64) -> Option<&'t Declaration<'a>>
    ensures { option_map (λ d. d.now) result ≡ row_in (rows_or_none (option_map (λ r. r.now) rows.entry)) code }
{
    let rows = rows?;
    if code == 0 || (rows.rows.len() as u64) < code {
        return None;
    }
    Some(&rows.rows[code as usize - 1])
}

/// Adds a row to the rows of a table.
fn push_row<'a>(
    heap: Heap,
    by_table: &mut RowsByTable<'a>,
    table: u64,
    declaration: Declaration<'a>,
) -> Result<(), NoMemory>
    ensures here { OnOk result (rows_or_none (tree_map.get nat_cmp by_table.new table)
        ≡ rows_or_none (tree_map.get nat_cmp by_table.old table) ++ declaration.entry ∷ []) }
    ensures others { OnOk result ((other : ℕ) → other ≢ table →
        rows_or_none (tree_map.get nat_cmp by_table.new other)
        ≡ rows_or_none (tree_map.get nat_cmp by_table.old other)) }
{
    let mut rows = match by_table.remove(&table) {
        Some(rows) => rows,
        None => Rows {
            rows: Vec::new(heap),
        },
    };
    rows.rows.push(declaration)?;
    by_table.insert(table, rows)?;
    Ok(())
}

impl<'a> Declarations<'a> {
    /// Tables without declarations.
    pub fn none(heap: Heap) -> Declarations<'a>
        ensures { (table code : ℕ) → declaration_in result table code ≡ None }
    {
        Declarations {
            rows: BTreeMap::new(heap.share()),
            others: BTreeMap::new(heap),
        }
    }

    /// The rows of a table; `None` if it has none.
    pub fn rows_of(&self, table: u64) -> Option<&Rows<'a>>
        ensures { option_map (λ r. r.now) result ≡ tree_map.get nat_cmp self.now.rows table }
    {
        self.rows.get(&table)
    }

    /// The number of rows of a table.
    fn count_of(&self, table: u64) -> usize
        ensures { result ≡ length (rows_or_none (tree_map.get nat_cmp self.now.rows table)) }
    {
        match self.rows_of(table) {
            Some(rows) => rows.rows.len(),
            None => 0,
        }
    }

    /// Whether a table has a declaration with a code.
    fn has(&self, table: u64, code: u64) -> bool
        ensures { result ≡ is_some (declaration_in self.now table code) }
    {
        row_in(self.rows_of(table), code).is_some() || self.others.contains_key(&(table, code))
    }

    /// Adds a declaration to a table that has none with its code: as its next row, or among the others.
    fn put(
        &mut self,
        heap: Heap,
        table: u64,
        code: u64,
        declaration: Declaration<'a>,
    ) -> Result<(), NoMemory>
        requires { declaration_in self.old table code ≡ None }
        ensures { OnOk result ((t c : ℕ) → declaration_in self.new t c
            ≡ (if (t == table) && (c == code) then Some declaration.entry else declaration_in self.old t c)) }
    {
        if code == self.count_of(table) as u64 + 1 {
            return push_row(heap, &mut self.rows, table, declaration);
        }
        self.others.insert((table, code), declaration)?;
        Ok(())
    }

    /// Adds a declaration to a table, unless the table has one with its code.
    pub fn keep_first(
        &mut self,
        heap: Heap,
        table: u64,
        code: u64,
        declaration: Declaration<'a>,
    ) -> Result<(), NoMemory>
        ensures { OnOk result ((t c : ℕ) → option_map declaration_view (declaration_in self.new t c)
            ≡ (if (t == table) && (c == code)
            then option_or (option_map declaration_view (declaration_in self.old t c))
            (Some (declaration_view declaration.entry))
            else option_map declaration_view (declaration_in self.old t c))) }
    {
        if self.has(table, code) {
            return Ok(());
        }
        self.put(heap, table, code, declaration)
    }
}
