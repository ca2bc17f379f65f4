//! Calls over the bytes of a file: kinds, slices, images and symbols.

use crate::faults::Ended;
use crate::printing::print_text;
use archive_core::{ArchKey, Slice, SliceKey};
use fat_slices::{Universal, kind};
use heap_memory::{Heap, NoMemory};
use macho_image::{Image, Section};
use macho_symbols::{AddressTable, Found, Symbols};
use text_reports::{Escaped, Text};
use text_values::{Address, Spelled};

/// Prints the kind of a file.
pub fn print_kind(file: &[u8], printed: &mut String) -> Ended {
    Ok(writeln!(printed, "{:?}", kind(file))?)
}

/// Prints the slices of a universal file.
pub fn print_fat(file: &[u8], printed: &mut String) -> Ended {
    let universal = Universal::read(file)?;
    for index in 0..universal.len() {
        write!(printed, "slice {index}: ")?;
        print_text(universal.slice(index), printed)?;
    }
    if universal.is_empty() != (universal.len() == 0) {
        writeln!(printed, "WRONG: it is said to be empty")?;
    }
    Ok(())
}

/// Prints an image: its key and kind, its text base, its symbol table, and its sections.
pub fn print_image(bytes: &[u8], printed: &mut String) -> Ended {
    let image = Image::read(bytes)?;
    print_header(&image, printed)?;
    print_symtab(&image, printed)?;
    print_commands(&image, printed)?;
    Ok(print_sections(&image, printed)?)
}

// Prints the key and the kind of an image, and its text base.
fn print_header(image: &Image, printed: &mut String) -> Result<(), NoMemory> {
    let (cputype, cpusubtype) = image.arch();
    let key = Text(SliceKey {
        uuid: image.uuid(),
        arch: ArchKey {
            cputype,
            cpusubtype,
        },
    });
    let kind = if image.is_dsym() { "dsym" } else { "image" };
    writeln!(printed, "{key} {kind}")?;
    match image.text_base() {
        Some(base) => writeln!(printed, "text base {}", Address(base)),
        None => writeln!(printed, "text base -"),
    }
}

fn print_symtab(image: &Image, printed: &mut String) -> Result<(), NoMemory> {
    match image.symtab() {
        Some(table) => {
            write!(printed, "symtab {} {}", table.symoff, table.nsyms)?;
            writeln!(printed, " {} {}", table.stroff, table.strsize)
        }
        None => writeln!(printed, "symtab -"),
    }
}

fn print_commands(image: &Image, printed: &mut String) -> Result<(), NoMemory> {
    let mut commands: u32 = 0;
    for _ in image.commands() {
        commands = commands.saturating_add(1);
    }
    writeln!(printed, "commands {commands}")
}

fn print_sections(image: &Image, printed: &mut String) -> Result<(), NoMemory> {
    let mut number: u32 = 0;
    for section in image.sections() {
        number = number.saturating_add(1);
        print_section(number, section, printed)?;
        print_by_number(image, number, Some(section), printed)?;
    }
    print_by_number(image, 0, None, printed)?;
    print_by_number(image, number.saturating_add(1), None, printed)
}

// Prints an error if a number refers to another section than this one. A section number is one byte, and a greater one
// refers to none.
fn print_by_number(
    image: &Image,
    number: u32,
    section: Option<Section>,
    printed: &mut String,
) -> Result<(), NoMemory> {
    match u8::try_from(number) {
        Ok(number) if image.section(number) != section => {
            writeln!(printed, "WRONG: section {number} is another one")
        }
        _ => Ok(()),
    }
}

fn print_section(number: u32, section: Section, printed: &mut String) -> Result<(), NoMemory> {
    let segment = Escaped(section.segment);
    let name = Escaped(section.section);
    write!(printed, "section {number} {segment},{name} ")?;
    let from = Address(section.addr);
    writeln!(printed, "from {from}, {} addresses", section.size)
}

/// Prints the key and the digest of a slice, and also tests its copy.
pub fn print_slice(heap: Heap, bytes: &[u8], printed: &mut String) -> Ended {
    let checked = Slice::check(bytes).map(|slice| slice.key());
    let slice = Slice::admit(heap.share(), bytes)?;
    let copy = slice.copy(heap)?;
    let key = Text(slice.key());
    writeln!(printed, "{key} {}", Spelled(slice.digest()))?;
    if checked != Ok(slice.key()) || slice.bytes() != bytes {
        writeln!(printed, "WRONG: the check says otherwise")?;
    }
    if copy.key() != slice.key() || copy.bytes() != bytes {
        writeln!(printed, "WRONG: the copy is another slice")?;
    }
    Ok(())
}

/// Prints the nearest symbol of each address.
pub fn print_nearest(heap: Heap, bytes: &[u8], addresses: &[u64], printed: &mut String) -> Ended {
    let image = Image::read(bytes)?;
    let symbols = Symbols::read(&image)?;
    let table = AddressTable::build(heap, &symbols)?;
    for address in addresses {
        let found = table.nearest(*address, bytes);
        print_found(*address, found, printed)?;
        if found != symbols.nearest_plain(*address) {
            writeln!(printed, "WRONG: the scan says otherwise")?;
        }
    }
    Ok(())
}

/// Prints each symbol of a name.
pub fn print_named(bytes: &[u8], name: &[u8], printed: &mut String) -> Ended {
    let image = Image::read(bytes)?;
    let symbols = Symbols::read(&image)?;
    for found in symbols.named(name) {
        print_found(found.address, Some(found), printed)?;
    }
    Ok(())
}

// Prints the symbol found at an address.
fn print_found(address: u64, found: Option<Found>, printed: &mut String) -> Result<(), NoMemory> {
    let address = Address(address);
    match found {
        Some(found) => writeln!(
            printed,
            "{address} {} in section {}",
            Text(found),
            found.sect
        ),
        None => writeln!(printed, "{address} -"),
    }
}
