//! The tables of `__debug_abbrev` (DWARF 5, section 7.5.3).

ghost use Rattle.std.specs.Prelude.{◌≡◌, ℕ, IfOk};
ghost use Rattle.std.specs.Option.{option_map, option_or};
ghost use Rattle.std.specs.BTreeMap as tree_map;
ghost use Rattle.dwarf_entries.specs.Abbreviations.{declaration_of};
ghost use Rattle.dwarf_entries.specs.DeclarationViews.{declaration_in, declaration_view, key_cmp, row_in, rows_or_none};

use crate::declaration::Declaration;
use crate::declarations::{Declarations, DeclarationsByCode, Rows, row_in};
use crate::reading::read_declaration;
use heap_memory::{Heap, NoMemory};
use std::marker::Model;

/// The declarations of `__debug_abbrev`, up to the first that cannot be read. The section is read once for all units. A
/// contract sees the section.
#[derive(Drop)]
pub struct Abbreviations<'a> {
    section: &'a [u8],
    declarations: Declarations<'a>,
}

impl<'a> Model for Abbreviations<'a> {
    ghost use Rattle.std.specs.Prelude.{ℕ, List};
    ghost use Rattle.dwarf_entries.specs.DeclarationViews.{AreDeclarations};

    ghost Value = { List ℕ };

    ghost view = { λ a. a.section.now };

    ghost invariant = { λ a. AreDeclarations a.section.now a.declarations };
}

/// The declarations of a section.
fn read_declarations<'a>(heap: Heap, section: &'a [u8]) -> Result<Declarations<'a>, NoMemory>
    ensures { IfOk result (λ declarations. (table code : ℕ) →
        option_map declaration_view (declaration_in declarations table code) ≡ declaration_of section.now table code) }
{
    let mut declarations = Declarations::none(heap.share());
    let mut table = 0u64;
    let mut rest = section;
    'declarations: while let Some((found, after)) = read_declaration(heap.share(), rest)? {
        rest = after;
        match found {
            Some((code, declaration)) => declarations.keep_first(
                heap.share(),
                table,
                code,
                declaration,
            )?,
            None => table = (section.len() - rest.len()) as u64,
        }
    }
    Ok(declarations)
}

/// The declarations of one table.
#[derive(Clone, Copy)]
pub(crate) struct Table<'t, 'a> {
    section: &'a [u8],
    offset: u64,
    rows: Option<&'t Rows<'a>>,
    others: &'t DeclarationsByCode<'a>,
    ghost each: { (code : ℕ) →
        option_map declaration_view (option_or (row_in (rows_or_none (option_map (λ r. r.now) rows)) code)
        (tree_map.get key_cmp others.now (offset, code)))
        ≡ declaration_of section.now offset code },
}

impl<'t, 'a> Table<'t, 'a> {
    /// The first declaration with a code.
    pub fn declaration(&self, code: u64) -> Option<&'t Declaration<'a>>
        ensures { option_map (λ d. declaration_view d.now) result
            ≡ declaration_of self.now.section.now self.now.offset code }
    {
        match row_in(self.rows, code) {
            Some(declaration) => Some(declaration),
            None => self.others.get(&(self.offset, code)),
        }
    }
}

impl<'a> Abbreviations<'a> {
    /// The declarations of a section.
    pub fn read(heap: Heap, section: &'a [u8]) -> Result<Abbreviations<'a>, NoMemory>
        ensures { IfOk result (λ abbreviations. abbreviations ≡ section.now) }
    {
        let declarations = read_declarations(heap, section)?;
        Ok(Abbreviations {
            section,
            declarations,
        })
    }

    /// The table at an offset; it has no declarations if no table begins there.
    pub(crate) fn table(&self, offset: u64) -> Table<'_, 'a>
        ensures { (result.section.now ≡ self.now) × (result.offset ≡ offset) }
    {
        Table {
            section: self.section,
            offset,
            rows: self.declarations.rows_of(offset),
            others: &self.declarations.others,
        }
    }
}
