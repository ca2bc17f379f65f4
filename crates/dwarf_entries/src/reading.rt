//! The reading of declarations (DWARF 5, section 7.5.3).

ghost use Rattle.std.specs.Prelude.{◌≡◌, IfOk};
ghost use Rattle.std.specs.Option.{option_map};
ghost use Rattle.dwarf_entries.specs.Abbreviations.{declaration_body_at, declaration_at};
ghost use Rattle.dwarf_entries.specs.DeclarationViews.{declaration_view};

use crate::declaration::{Declaration, total_size};
use crate::dw::DW_CHILDREN_YES;
use crate::specification::read_shape;
use dwarf_encoding::unsigned_leb128;
use heap_memory::{Heap, NoMemory};

/// A declaration from its tag on, and the bytes after it.
#[tactic(auto, unfolding(crate::specs::Abbreviations::declaration_body_at))]
fn read_body<'a>(
    heap: Heap,
    bytes: &'a [u8],
) -> Result<Option<(Declaration<'a>, &'a [u8])>, NoMemory>
    ensures { IfOk result (λ found. option_map (λ x. (declaration_view x.0, x.1.now)) found
        ≡ declaration_body_at bytes.now) }
{
    let Some((tag, rest)) = unsigned_leb128(bytes) else {
        return Ok(None);
    };
    let Some((children, rest)) = rest.split_first() else {
        return Ok(None);
    };
    let Some((shape, rest)) = read_shape(heap, rest)? else {
        return Ok(None);
    };
    let size = total_size(&shape.pairs);
    let declaration = Declaration {
        tag,
        has_children: *children == DW_CHILDREN_YES,
        shape,
        size,
    };
    Ok(Some((declaration, rest)))
}

/// A code and its declaration, or `None` for the code 0, which ends a table; and the bytes after it.
#[tactic(auto, unfolding(crate::specs::Abbreviations::declaration_at))]
pub(crate) fn read_declaration<'a>(
    heap: Heap,
    bytes: &'a [u8],
) -> Result<Option<(Option<(u64, Declaration<'a>)>, &'a [u8])>, NoMemory>
    ensures { IfOk result (λ found.
        option_map (λ x. (option_map (λ d. (d.0, declaration_view d.1)) x.0, x.1.now)) found
        ≡ declaration_at bytes.now) }
{
    let Some((code, rest)) = unsigned_leb128(bytes) else {
        return Ok(None);
    };
    if code == 0 {
        return Ok(Some((None, rest)));
    }
    let Some((declaration, rest)) = read_body(heap, rest)? else {
        return Ok(None);
    };
    Ok(Some((Some((code, declaration)), rest)))
}
