//! Which file at OUT's path is replaced, by its first bytes, and why one is not. No contract covers the contents of
//! files.

ghost use Rattle.std.specs.Prelude.{◌≡◌, ◌≢◌, ℕ, IfErr, IfOk, IsOk, List, None, Ok, OnOk, Some, [], false, true};
ghost use Rattle.cli_files.specs.FileCalls.{HasRead, first_bytes};
ghost use Rattle.cli_files.specs.Replacing.{GivesWay, IsOfKind};

use crate::opened_file::{LEADING_LEN, LeadingBytes};
use archive_records::TextKind;
use heap_memory::NoMemory;
use std::io::{self, Read};

/// The magic of an index.
const INDEX_MAGIC: LeadingBytes = *b"MSYMIDX2";

/// The magic of an index of a release before 2.4.
const EARLIER_INDEX_MAGIC: LeadingBytes = *b"MSYMIDX1";

/// Why OUT accepts no bytes, or was not published.
#[derive(Clone, Copy, Debug)]
pub enum OutFault {
    /// It could not be created, or the file there may not be written, with the error of the system. `None`: OUT is the
    /// file of an input.
    NotCreated(Option<io::Error>),
    /// The file there is not replaced.
    NotReplaced(Obstacle),
    /// Memory ran out for the names of its paths.
    OutOfMemory,
}

impl From<NoMemory> for OutFault {
    ghost use Rattle.std.specs.Prelude.{◌≡◌};
    ghost use Rattle.cli_files.specs.declared.replaceable.OutFault.TheVariants.{OutOfMemory};

    ghost from_gives = { λ _ fault. fault ≡ OutOfMemory };

    fn from(_refused: NoMemory) -> OutFault {
        OutFault::OutOfMemory
    }
}

/// Why the file at OUT's path is not replaced.
#[derive(Clone, Copy, Debug)]
pub enum Obstacle {
    /// It has these first bytes, and the command replaces no such file.
    OtherKind(LeadingBytes),
    /// It is an archive with this number of records that the new one neither has nor covers.
    Loses(u64),
    /// It has the first bytes of an archive, and cannot be read to its end.
    Damaged,
    /// Its bytes differ from those of the new slice, which replaces only the same bytes.
    Differs,
    /// It was not read or not renamed, with the error of the system, if any.
    Refused(Option<io::Error>),
}

/// Which files a command may replace. It may always replace an empty one.
#[derive(Clone, Copy, Debug, PartialEq, Eq)]
pub enum ReplaceRule {
    /// An archive, unless it has a record that the new one neither has nor covers.
    ArchivesBelow,
    /// A summary.
    Summaries,
    /// An index, of this release or of an earlier one.
    Indexes,
    /// A file with the same bytes as the new one, which is a slice.
    SameBytes,
}

impl ReplaceRule {
    /// Whether a file with these first bytes is of the kind that the command writes. A slice may have any first bytes.
    fn is_of_kind(self, bytes: &LeadingBytes) -> bool
        ensures kind { result ≡ true → IsOfKind self bytes.now }
        ensures other { result ≡ false → IsOfKind self bytes.now → ⊥ }
    {
        match self {
            ReplaceRule::ArchivesBelow => TextKind::Archive.format_of(bytes).is_some(),
            ReplaceRule::Summaries => TextKind::Summary.format_of(bytes).is_some(),
            ReplaceRule::Indexes => *bytes == INDEX_MAGIC || *bytes == EARLIER_INDEX_MAGIC,
            ReplaceRule::SameBytes => true,
        }
    }
}

/// The first eight bytes of a file of this size, padded with zeros; `None` if it is empty.
pub fn beginning_of<R: Read>(file: &mut R, size: u64) -> io::Result<Option<LeadingBytes>>
    ensures empty { size ≡ 0 → result ≡ Ok None }
    ensures some { size ≢ 0 → OnOk result (result ≢ Ok None) }
    ensures none { IfOk result (λ beginning. first_bytes beginning ≡ [] → size ≡ 0) }
    ensures bytes { IfOk result
        (λ beginning. HasRead (R.remaining file.old) (R.remaining file.new) size beginning) }
{
    if size == 0 {
        return Ok(None);
    }
    let mut bytes = [0; LEADING_LEN];
    let count = size.min(LEADING_LEN as u64) as usize;
    file.read_exact(&mut bytes[..count])?;
    Ok(Some(bytes))
}

/// Tests whether a file with these first bytes may be replaced.
pub fn check_kind(replaces: ReplaceRule, beginning: &Option<LeadingBytes>) -> Result<(), OutFault>
    ensures gives_way { OnOk result (GivesWay replaces (first_bytes beginning.now)) }
    ensures of_kind { OnOk result ((bytes : List ℕ) → beginning.now ≡ Some bytes → IsOfKind replaces bytes) }
    ensures empty { beginning.now ≡ None → IsOk result }
    ensures other { IfErr result (λ fault. (bytes : List ℕ) × (beginning.now ≡ Some bytes)
        × (fault ≡ OutFault.NotReplaced (Obstacle.OtherKind bytes)) × (IsOfKind replaces bytes → ⊥)) }
    ensures kind { (bytes : List ℕ) → beginning.now ≡ Some bytes → IsOfKind replaces bytes → IsOk result }
{
    match beginning {
        Some(bytes) if !replaces.is_of_kind(bytes) => Err(OutFault::NotReplaced(Obstacle::OtherKind(
            *bytes,
        ))),
        _ => Ok(()),
    }
}
