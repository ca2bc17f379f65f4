//! `name ARCHIVE NAME`, over one archive or several.
ghost use Rattle.std.specs.Prelude.{◌≡◌, ◌&&◌, [], IfOk, length, map, nat_eq, not, string_bytes};
ghost use Rattle.archive_core.specs.Names.{IsNames};
ghost use Rattle.archive_core.specs.Names.{owned_name_view};
ghost use Rattle.archive_from_records.specs.Names.{AddsNames};
ghost use Rattle.command_common.specs.Archives.{ReadsOthers, ReadsTogether};
ghost use Rattle.command_common.specs.Inputs.{HoldsContent, IsRefusedArchive, ReadsInput, reader, readers};
ghost use Rattle.command_queries.specs.InnerNames.{HaveAdded};
ghost use Rattle.command_queries.specs.Name.{Answers, underscored};

use archive_from_records::{
    NamesFound, NamesTold, SoughtNames, gather_names, live_names, read_names,
};
use byte_device::Source;
use command_common::{CommandFault, InputName, Status, found_status, refusal};
use heap_memory::{Heap, NoMemory};
use text_reports::name_lines;

fn no_rows(heap: &Heap) -> NamesTold
    ensures { (result.rows.items ≡ []) × (result.others.items ≡ []) }
{
    NamesTold {
        rows: Vec::new(heap.share()),
        others: Vec::new(heap.share()),
    }
}

/// Reads the one archive that is searched, and returns the rows of the names.
fn read_name_rows<R: Source>(
    heap: Heap,
    sought: SoughtNames<'_>,
    input: &mut R,
) -> Result<NamesTold, CommandFault>
    ensures { ReadsInput (reader R.left R.failures input.old input.new) result
        (λ input told. HoldsContent input
        (λ o. IsNames o sought.entry.name.now (map owned_name_view told.rows.items)
        × IsNames o sought.entry.other.now (map owned_name_view told.others.items)))
        (IsRefusedArchive 0) }
{
    let at = InputName::Archive(0);
    let none = no_rows(&heap);
    match read_names(heap, none, sought, input) {
        Ok(told) => Ok(told),
        Err(fault) => Err(refusal(at, fault)),
    }
}

/// Reads the archive with this number on the command line, and adds its rows for the names.
fn gather_input<R: Source>(
    heap: Heap,
    found: NamesFound,
    number: u64,
    sought: SoughtNames<'_>,
    input: &mut R,
) -> Result<NamesFound, CommandFault>
    ensures { ReadsInput (reader R.left R.failures input.old input.new) result
        (λ input now. HoldsContent input (λ o. AddsNames o sought.entry.name.now sought.entry.other.now found now))
        (IsRefusedArchive number) }
{
    let at = InputName::Archive(number);
    match gather_names(heap, found, sought, input) {
        Ok(now) => Ok(now),
        Err(fault) => Err(refusal(at, fault)),
    }
}

/// Reads these archives, in order, and adds their rows for the names. The first of them is archive 1 on the command
/// line.
fn gather_others<R: Source>(
    heap: &Heap,
    found: NamesFound,
    sought: SoughtNames<'_>,
    others: &mut [R],
) -> Result<NamesFound, CommandFault>
    ensures { ReadsOthers (readers R.left R.failures others.old others.new) result
        (λ others now. HaveAdded others sought.entry.name.now sought.entry.other.now found now) }
{
    let mut now = found;
    'others: for (index, other) in others.iter_mut().enumerate() {
        now = gather_input(heap.share(), now, index as u64 + 1, sought, other)?;
    }
    Ok(now)
}

/// Reads the archives in the order of the command line, each to its end, and returns the rows of the names in their
/// join. Rows of slices that one of them retires are dropped at the end.
fn gather_rows<R: Source>(
    heap: &Heap,
    sought: SoughtNames<'_>,
    archive: &mut R,
    others: &mut [R],
) -> Result<NamesTold, CommandFault>
    ensures { ReadsTogether (reader R.left R.failures archive.old archive.new)
        (readers R.left R.failures others.old others.new) result
        (λ told o. IsNames o sought.entry.name.now (map owned_name_view told.rows.items)
        × IsNames o sought.entry.other.now (map owned_name_view told.others.items)) }
{
    let none = NamesFound {
        told: no_rows(heap),
        retired: Vec::new(heap.share()),
    };
    let first = gather_input(heap.share(), none, 0, sought, archive)?;
    let found = gather_others(heap, first, sought, others)?;
    Ok(live_names(found))
}

/// Reads the archives that are searched, and returns the rows of the names in their join.
fn read_rows<R: Source>(
    heap: Heap,
    sought: SoughtNames<'_>,
    archive: &mut R,
    others: &mut [R],
) -> Result<NamesTold, CommandFault>
    ensures { ReadsTogether (reader R.left R.failures archive.old archive.new)
        (readers R.left R.failures others.old others.new) result
        (λ told o. IsNames o sought.entry.name.now (map owned_name_view told.rows.items)
        × IsNames o sought.entry.other.now (map owned_name_view told.others.items)) }
{
    if others.is_empty() {
        read_name_rows(heap, sought, archive)
    } else {
        gather_rows(&heap, sought, archive, others)
    }
}

fn is_underscored(told: &NamesTold) -> bool
    ensures { result ≡ (nat_eq (length told.now.rows.items) 0 && not (nat_eq (length told.now.others.items) 0)) }
{
    told.rows.is_empty() && !told.others.is_empty()
}

/// A name with a `_` before it: Mach-O stores C names so.
fn underscored(heap: Heap, name: &[u8]) -> Result<Vec<u8, Heap>, NoMemory>
    ensures { IfOk result (λ longer. longer.items ≡ underscored name.now) }
{
    let mut longer = Vec::new(heap);
    longer.push(b'_')?;
    longer.extend_from_slice(name)?;
    Ok(longer)
}

/// The answer of archives for a name.
#[derive(Drop)]
pub struct NameAnswer {
    /// `Done` if a symbol has the name, and else `Partial`.
    pub status: Status,
    /// A line for each of its symbols.
    pub text: String<Heap>,
    /// No symbol has the name, but one has it with a `_` before it.
    pub is_underscored: bool,
}

/// Returns a row for each symbol with exactly this name in a live slice of the join of the archives: the key and the
/// SHA-256 of the slice, the address, and the section. The name is searched by its bytes in the string table of an
/// image, and so is the name with a `_` before it. The archives are read one after another, each once and to its end,
/// and no slice is kept.
///
/// # Errors
///
/// `Input` for the first archive that is refused; `OutOfMemory`.
pub fn answer_name<R: Source>(
    heap: Heap,
    archive: &mut R,
    others: &mut [R],
    sought: &[u8],
) -> Result<NameAnswer, CommandFault>
    ensures { ReadsTogether (reader R.left R.failures archive.old archive.new)
        (readers R.left R.failures others.old others.new) result
        (λ answer o. Answers o sought.now answer.status (string_bytes answer.text) answer.is_underscored) }
{
    let other = underscored(heap.share(), sought)?;
    let names = SoughtNames {
        name: sought,
        other: &other,
    };
    let told = read_rows(heap.share(), names, archive, others)?;
    let text = name_lines(heap, &told.rows)?;
    Ok(NameAnswer {
        status: found_status(&told.rows),
        text,
        is_underscored: is_underscored(&told),
    })
}
