//! The numbers in the end record of an index.

ghost use Rattle.std.specs.Prelude.{◌≡◌, All, if◌then◌else◌, map, not};
ghost use Rattle.archive_core.specs.Content.{is_admission};
ghost use Rattle.index_format.specs.Entry.{HasItsFields, entry_bytes};
ghost use Rattle.index_format.specs.Text.{archive_length, retired_in};

use crate::IndexEntry;
use archive_core::FindState;
use archive_records::{END_LEN, MAGIC_LEN};

/// Whether an entry is that of an admission.
#[tactic(auto, unfolding(crate::specs::Entry::entry_bytes, crate::specs::Entry::placed_bytes))]
pub(crate) fn is_admission(entry: &IndexEntry) -> bool
    ensures { result ≡ is_admission (entry_bytes entry.now) }
{
    match entry.row.state {
        FindState::Retired => false,
        FindState::Image | FindState::Dsym => true,
    }
}

/// 1 for the entry of a retirement, otherwise 0.
#[tactic(auto, unfolding(crate::specs::Entry::entry_bytes, crate::specs::Entry::placed_bytes))]
fn one_if_retired(entry: &IndexEntry) -> u64
    ensures { result ≡ (if not (is_admission (entry_bytes entry.now)) then 1 else 0) }
{
    match entry.row.state {
        FindState::Retired => 1,
        FindState::Image | FindState::Dsym => 0,
    }
}

/// The number of retirements among the entries.
pub fn retired_in(entries: &[IndexEntry]) -> u64
    ensures { result ≡ retired_in (map entry_bytes entries.now) }
{
    let mut retired = 0;
    'counting: for entry in entries {
        retired += one_if_retired(entry);
    }
    retired
}

/// The length of the archive of these entries: the magic, their records and the end record.
pub(crate) fn archive_len(entries: &[IndexEntry]) -> u128
    requires { All HasItsFields entries.now }
    ensures { result ≡ archive_length (map entry_bytes entries.now) }
{
    let mut len = MAGIC_LEN + END_LEN as u128;
    'adding: for entry in entries {
        len += u128::from(entry.length);
    }
    len
}
