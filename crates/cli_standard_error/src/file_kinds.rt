//! The kind of a refused file, by its first bytes, and the command that reads such files.

ghost use Rattle.std.specs.Prelude.{◌≡◌, find, map, nat_eq, option_map};
ghost use Rattle.std.specs.List.{starts_with};
ghost use Rattle.cli_standard_error.specs.FileKinds.{is_class, kind_among, kind_of, other_kind, own_kind};

use archive_records::Format;
use cli_files::LeadingBytes;
use std::fmt;

/// The kind of a file, by its first bytes.
#[derive(Clone, Copy, Debug, PartialEq, Eq)]
pub enum FileKind {
    Archive,
    Operations,
    Summary,
    Index,
    /// It is an index of a release before 2.4.
    EarlierIndex,
    MachO,
    Universal,
    JavaClass,
    Elf,
    Zip,
    Gzip,
    /// It is a text with a byte-order mark.
    Marked,
}

/// The first bytes of other files: indexes, files of mach-o/loader.h and mach-o/fat.h, in either byte order, and common
/// formats.
const BEGINNINGS: [(&[u8], FileKind); 12] = [
    (b"MSYMIDX2", FileKind::Index),
    (b"MSYMIDX1", FileKind::EarlierIndex),
    (b"\xcf\xfa\xed\xfe", FileKind::MachO),
    (b"\xce\xfa\xed\xfe", FileKind::MachO),
    (b"\xfe\xed\xfa\xcf", FileKind::MachO),
    (b"\xfe\xed\xfa\xce", FileKind::MachO),
    (b"\xca\xfe\xba\xbe", FileKind::Universal),
    (b"\xca\xfe\xba\xbf", FileKind::Universal),
    (b"\x7fELF", FileKind::Elf),
    (b"PK\x03\x04", FileKind::Zip),
    (b"\x1f\x8b", FileKind::Gzip),
    (b"\xef\xbb\xbf", FileKind::Marked),
];

/// The greatest number of slices in a universal file. A Java class file has the same magic, and its version, at least
/// 45, is where a universal file has that number.
const MOST_SLICES: u32 = 42;

impl FileKind {
    /// The kind of a file with these first bytes, if it is known.
    pub fn of(leading_bytes: &LeadingBytes) -> Option<FileKind>
        ensures { result ≡ kind_of leading_bytes.now }
    {
        match own_kind(leading_bytes) {
            Some(kind) => Some(kind),
            None => match other_kind(leading_bytes) {
                Some(FileKind::Universal) if is_class(leading_bytes) => Some(FileKind::JavaClass),
                kind => kind,
            },
        }
    }
}

/// The kind, if it is one of symarch's own files.
fn own_kind(leading_bytes: &LeadingBytes) -> Option<FileKind>
    ensures { result ≡ own_kind leading_bytes.now }
{
    if leading_bytes.starts_with(&Format::Archive.magic())
        || leading_bytes.starts_with(&Format::OldArchive.magic())
    {
        Some(FileKind::Archive)
    } else if leading_bytes.starts_with(&Format::Operations.magic()) {
        Some(FileKind::Operations)
    } else if leading_bytes.starts_with(&Format::Summary.magic()) {
        Some(FileKind::Summary)
    } else {
        None
    }
}

/// The kind, if it is another file.
fn other_kind(leading_bytes: &LeadingBytes) -> Option<FileKind>
    ensures { result ≡ other_kind leading_bytes.now }
{
    kind_among(&BEGINNINGS, leading_bytes)
}

/// The kind of the first row whose bytes these bytes begin with.
fn kind_among(beginnings: &[(&[u8], FileKind)], bytes: &[u8]) -> Option<FileKind>
    ensures { result ≡ kind_among bytes.now (map (λ row. (row.0.now, row.1)) beginnings.now) }
{
    first_kind(beginnings, bytes)
}

/// The same, with references in the clause.
fn first_kind(beginnings: &[(&[u8], FileKind)], bytes: &[u8]) -> Option<FileKind>
    ensures { result
        ≡ option_map (λ row. row.1) (find (λ row. starts_with nat_eq bytes.now row.0.now) beginnings.now) }
{
    beginnings
        .iter()
        .find(|(begins, _)| bytes.starts_with(begins))
        .map(|(_, kind)| *kind)
}

/// Whether a file with the first bytes of a universal file is a Java class file.
fn is_class(leading_bytes: &LeadingBytes) -> bool
    ensures { result ≡ is_class leading_bytes.now }
{
    let slices = u32::from_be_bytes([
        leading_bytes[4],
        leading_bytes[5],
        leading_bytes[6],
        leading_bytes[7],
    ]);
    leading_bytes[3] == 0xbe && slices > MOST_SLICES
}

impl fmt::Display for FileKind {
    fn fmt<W: fmt::Write>(&self, f: &mut fmt::Formatter<W>) -> fmt::Result {
        f.write_str(match self {
            FileKind::Archive => "an archive, which `merge` takes",
            FileKind::Operations => "an operations file, which `apply` takes",
            FileKind::Summary => "a summary, which `delta` takes",
            FileKind::Index => "an index, which `index` writes",
            FileKind::EarlierIndex => {
                "an index of an earlier release, which `index` makes anew, or `symarch-keep` if it keeps the archive"
            }
            FileKind::MachO => "a Mach-O file, which `admit` takes",
            FileKind::Universal => "a universal file, which `admit` takes",
            FileKind::JavaClass => "a Java class file, which no command takes",
            FileKind::Elf => "an ELF file, which no command takes",
            FileKind::Zip => "a zip file, which has to be unpacked first",
            FileKind::Gzip => "a gzip file, which has to be unpacked first",
            FileKind::Marked => "which begins with a byte-order mark",
        })
    }
}
