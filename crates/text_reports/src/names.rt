//! The lines of `name`.
ghost use Rattle.std.specs.Prelude.{◌≡◌, map, IfOk, string_bytes};
ghost use Rattle.archive_core.specs.Names.{owned_name_view};
ghost use Rattle.text_reports.specs.Names.{name_lines};

use crate::{Escaped, Text};
use archive_core::{NameRow, OwnedNameRow};
use heap_memory::{Heap, NoMemory};
use std::fmt;
use text_values::{Address, Spelled};

#[tactic(auto, unfolding(crate::specs::Names::name_row_text))]
impl<'r, 'a> fmt::Display for Text<&'r NameRow<'a>> {
    ghost use Rattle.std.specs.Prelude.{Some};
    ghost use Rattle.archive_core.specs.Names.{name_view};
    ghost use Rattle.text_reports.specs.Names.{name_row_text};

    ghost output = { λ text. Some (name_row_text (name_view text.0.now)) };

    fn fmt<W: fmt::Write>(&self, f: &mut fmt::Formatter<W>) -> fmt::Result {
        let key = Text(self.0.key);
        let digest = Spelled(self.0.digest);
        let address = Address(self.0.address);
        let segment = Escaped(self.0.segment);
        let section = Escaped(self.0.section);
        write!(f, "{key} {digest} {address} ({segment},{section})")
    }
}

/// The lines of `name`: one for each symbol with the name, in the order of the rows. Fails only if memory runs out.
pub fn name_lines(heap: Heap, rows: &[OwnedNameRow]) -> Result<String<Heap>, NoMemory>
    ensures { IfOk result (λ text. string_bytes text ≡ name_lines (map owned_name_view rows.now)) }
{
    let mut text = String::new(heap);
    'rows: for row in rows {
        let borrowed = row.lend();
        let line = Text(&borrowed);
        writeln!(text, "{line}")?;
    }
    Ok(text)
}
