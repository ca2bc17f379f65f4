//! The lines of `find` and of `list`.
ghost use Rattle.std.specs.Prelude.{◌≡◌, ◌≤◌, ◌++◌, length, IfOk, OnOk, string_bytes};
ghost use Rattle.std.specs.List.{prefix_len, flat_map};
ghost use Rattle.archive_core.specs.Find.{is_dsym_row, is_image_row, answering_count};
ghost use Rattle.archive_core.specs.Find.{is_key};
ghost use Rattle.text_reports.specs.Report.{line};
ghost use Rattle.text_reports.specs.Finds.{conflict_line, find_row_text, groups_lines, find_lines, list_lines};

use crate::Text;
use archive_core::{ArchKey, FindRow, FindState, SliceKey, is_key};
use heap_memory::{Heap, NoMemory};
use std::fmt;
use text_values::Spelled;

// The form of a key in a line.
#[derive(Clone, Copy)]
pub(crate) enum KeyForm {
    // The architecture only, if all lines have one UUID.
    Arch,
    // The UUID and the architecture.
    Whole,
}

// A key, with its form in a line.
#[derive(Clone, Copy)]
struct KeyText {
    form: KeyForm,
    key: SliceKey,
}

// A row, with the form of its key in a line.
#[derive(Clone, Copy)]
struct Row {
    form: KeyForm,
    row: FindRow,
}

impl fmt::Display for KeyText {
    ghost use Rattle.std.specs.Prelude.{Some};
    ghost use Rattle.text_reports.specs.Finds.{key_form_text};

    ghost output = { λ text. Some (key_form_text text.form text.key) };

    fn fmt<W: fmt::Write>(&self, f: &mut fmt::Formatter<W>) -> fmt::Result {
        match self.form {
            KeyForm::Arch => Spelled(self.key.arch).fmt(f),
            KeyForm::Whole => Text(self.key).fmt(f),
        }
    }
}

#[tactic(auto, unfolding(crate::specs::Finds::find_state_text))]
impl fmt::Display for Text<FindState> {
    ghost use Rattle.std.specs.Prelude.{Some};
    ghost use Rattle.text_reports.specs.Finds.{find_state_text};

    ghost output = { λ text. Some (find_state_text text.0) };

    fn fmt<W: fmt::Write>(&self, f: &mut fmt::Formatter<W>) -> fmt::Result {
        match self.0 {
            FindState::Retired => f.write_str("retired"),
            FindState::Image => f.write_str("image"),
            FindState::Dsym => f.write_str("dsym"),
        }
    }
}

#[tactic(auto, unfolding(crate::specs::Finds::find_row_text))]
impl fmt::Display for Row {
    ghost use Rattle.std.specs.Prelude.{Some};
    ghost use Rattle.text_reports.specs.Finds.{find_row_text};

    ghost output = { λ row. Some (find_row_text row.form row.row) };

    fn fmt<W: fmt::Write>(&self, f: &mut fmt::Formatter<W>) -> fmt::Result {
        let key = KeyText {
            form: self.form,
            key: self.row.key,
        };
        let state = Text(self.row.state);
        let digest = Spelled(self.row.digest);
        write!(f, "{key} {state} {digest}")
    }
}

// Whether a row is for a live companion with the architecture.
fn is_dsym_row(arch: ArchKey, row: &FindRow) -> bool
    ensures { result ≡ is_dsym_row arch row.now }
{
    row.key.arch == arch && matches!(row.state, FindState::Dsym)
}

// Whether a row is for another live slice with the architecture.
fn is_image_row(arch: ArchKey, row: &FindRow) -> bool
    ensures { result ≡ is_image_row arch row.now }
{
    row.key.arch == arch && matches!(row.state, FindState::Image)
}

// The number of slices with an architecture that answer, by the rows.
fn answering_count(rows: &[FindRow], arch: ArchKey) -> usize
    ensures { result ≡ answering_count rows.now arch }
{
    let companions = rows.iter().filter(|row| is_dsym_row(arch, row)).count();
    if companions == 0 {
        rows.iter().filter(|row| is_image_row(arch, row)).count()
    } else {
        companions
    }
}

// The number of first rows with a key.
fn group_len(rows: &[FindRow], key: &SliceKey) -> usize
    ensures len { result ≡ prefix_len (λ row. is_key row.key key.now) rows.now }
    ensures within { result ≤ length rows.now }
{
    rows.iter().take_while(|row| is_key(&row.key, key)).count()
}

// Writes a line for each row.
pub(crate) fn push_rows(
    text: &mut String<Heap>,
    form: KeyForm,
    rows: &[FindRow],
) -> Result<(), NoMemory>
    ensures { OnOk result (string_bytes text.new
        ≡ string_bytes text.old ++ flat_map (λ row. line (find_row_text form row)) rows.now) }
{
    'rows: for row in rows {
        let row = Row { form, row: *row };
        writeln!(text, "{row}")?;
    }
    Ok(())
}

// Writes the line of a conflict if several slices answer.
#[tactic(auto, unfolding(crate::specs::Finds::conflict_line))]
fn push_conflict(
    text: &mut String<Heap>,
    form: KeyForm,
    key: SliceKey,
    count: usize,
) -> Result<(), NoMemory>
    ensures { OnOk result (string_bytes text.new ≡ string_bytes text.old ++ conflict_line form key count) }
{
    if count >= 2 {
        let key = KeyText { form, key };
        writeln!(text, "{key} conflict {count}")?;
    }
    Ok(())
}

// A line for each row, and after the rows with a key the line of its conflict.
fn groups_lines(heap: Heap, form: KeyForm, rows: &[FindRow]) -> Result<String<Heap>, NoMemory>
    ensures { IfOk result (λ text. string_bytes text ≡ groups_lines form rows.now) }
{
    let mut text = String::new(heap);
    let mut rest = rows;
    'groups: while let Some(first) = rest.first() {
        let key = first.key;
        let (group, others) = rest.split_at(group_len(rest, &key));
        push_rows(&mut text, form, group)?;
        push_conflict(&mut text, form, key, answering_count(group, key.arch))?;
        rest = others;
    }
    Ok(text)
}

/// The lines of `find`: one for each row, and after the rows with an architecture for which several slices answer the
/// line with their number. Live companions answer alone. Fails only if memory runs out.
pub fn find_lines(heap: Heap, rows: &[FindRow]) -> Result<String<Heap>, NoMemory>
    ensures { IfOk result (λ text. string_bytes text ≡ find_lines rows.now) }
{
    groups_lines(heap, KeyForm::Arch, rows)
}

/// The lines of `list`: those of `find` for each UUID, with the UUID before each. Fails only if memory runs out.
pub fn list_lines(heap: Heap, rows: &[FindRow]) -> Result<String<Heap>, NoMemory>
    ensures { IfOk result (λ text. string_bytes text ≡ list_lines rows.now) }
{
    groups_lines(heap, KeyForm::Whole, rows)
}
