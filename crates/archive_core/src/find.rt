//! The rows of a search for a UUID, and of a list of all slices.
use crate::{Digest, Record, SliceKey};
use macho_image::Image;

/// A retirement, or a live slice.
#[derive(Clone, Copy, Debug, PartialEq, Eq)]
pub struct FindRow {
    /// The key of the retirement or slice.
    pub key: SliceKey,
    /// The SHA-256 of the slice's bytes, or the digest of the retirement.
    pub digest: Digest,
    /// Whether the row is a retirement, an image or a companion.
    pub state: FindState,
}

/// The state in a row.
#[derive(Clone, Copy, Debug, PartialEq, Eq)]
pub enum FindState {
    /// A retirement, whether a slice that it covers was admitted or not.
    Retired,
    /// A live slice that is no companion.
    Image,
    /// A live slice that is a companion with debug information: its `filetype` is MH_DSYM.
    Dsym,
}

impl FindRow {
    ghost use Rattle.std.specs.Prelude.{◌≡◌};
    ghost use Rattle.archive_core.specs.Key.{IsKey};
    ghost use Rattle.archive_core.specs.Find.{row_of};
    ghost use Rattle.archive_core.specs.Record.{IsOperation, operation_borrowed};
    ghost use Rattle.archive_core.specs.declared.operations.Operation.TheVariants.{Retire};

    /// The row of a record. The slice is hashed if its digest is not kept.
    pub fn of(record: &Record<'_>) -> FindRow
        ensures row { result ≡ row_of (operation_borrowed record.now) }
        ensures operation { IsOperation (operation_borrowed record.now) }
        ensures key { IsKey result.key }
    {
        match record {
            Record::Admit(slice) => FindRow {
                key: slice.key(),
                digest: slice.digest(),
                state: FindState::of_image(&slice.image()),
            },
            Record::Retire(key, digest) => FindRow::of_retirement(*key, *digest),
        }
    }

    // The row of a retirement.
    fn of_retirement(key: SliceKey, digest: Digest) -> FindRow
        ensures row { result ≡ row_of (Retire key digest) }
        ensures operation { IsOperation (Retire key digest) }
        ensures key { IsKey result.key }
    {
        FindRow {
            key,
            digest,
            state: FindState::Retired,
        }
    }
}

impl FindState {
    ghost use Rattle.std.specs.Prelude.{◌≡◌};
    ghost use Rattle.archive_core.specs.Find.{state_of};

    /// The state of a live slice, from its image.
    pub fn of_image(image: &Image<'_>) -> FindState
        ensures { result ≡ state_of image.now }
    {
        if image.is_dsym() {
            FindState::Dsym
        } else {
            FindState::Image
        }
    }
}
