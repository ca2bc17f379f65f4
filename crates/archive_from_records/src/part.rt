//! Reads archives and keeps a part of them.

ghost use Rattle.std.specs.Prelude.{◌≡◌, ℕ, List, Bool};
ghost use Rattle.archive_core.specs.Record.{IsRecord};
ghost use Rattle.archive_core.specs.Part.{is_under, part};
ghost use Rattle.archive_records.specs.declared.kind.TextKind.TheVariants.{Archive};
ghost use Rattle.archive_records.specs.Reading.{ReadsInPart};

use crate::keeping::{Keeper, Kept, keep_whole};
use archive_core::Archive;
use archive_records::{MAGIC_LEN, RecordFault, RecordReader};
use byte_device::Source;
use heap_memory::{Heap, NoMemory};

/// The records that are kept.
pub trait Selects {
    ghost picked: { Self → List ℕ → Bool };

    /// Whether the record is kept.
    fn picks(&self, bytes: &[u8]) -> bool
        requires { IsRecord bytes.now }
        ensures { result ≡ picked self.now bytes.now };
}

/// The records whose bytes after the tag begin with this prefix: those with a UUID, or with a key.
#[derive(Clone, Copy)]
pub struct Under<'a>(pub &'a [u8]);

impl<'a> Selects for Under<'a> {
    ghost use Rattle.archive_core.specs.Part.{is_under};

    ghost picked = { λ under bytes. is_under under.0.now bytes };

    fn picks(&self, bytes: &[u8]) -> bool {
        bytes[1..].starts_with(self.0)
    }
}

/// Keeps the records that are picked.
#[derive(Drop)]
struct Picked<'a, S>(&'a S);

impl<'a, S: Selects> Keeper for Picked<'a, S> {
    ghost use Rattle.std.specs.Prelude.{◌≡◌};
    ghost use Rattle.std.specs.FinSet as set;
    ghost use Rattle.archive_core.specs.Part.{part};

    ghost has_kept = { λ start records o now. (S.picked now.0.now ≡ S.picked start.0.now)
        × (o ≡ part (set.from_list records) (S.picked start.0.now)) };

    fn keep<A: Archive + Drop>(
        &mut self,
        heap: &Heap,
        kept: &mut Kept<A>,
        reader: &mut RecordReader,
    ) -> Result<(), NoMemory> {
        if !self.0.picks(reader.last()) {
            return Ok(());
        }
        kept.keep_last(heap, reader)
    }
}

/// Reads an archive, and keeps the records that are picked: the whole input is read and tested like by
/// [`crate::read_archive`], and the result is a part of the content that it returns, in the memory of that part, of one
/// record that is not picked and of 57 bytes for each retirement. Slices that are picked are not copied.
pub fn read_part<A: Archive + Drop, S: Selects, R: Source>(
    heap: Heap,
    select: &S,
    r: &mut R,
) -> Result<A, RecordFault>
    ensures { ReadsInPart Archive (λ archive o. A.content archive ≡ part o (S.picked select.now))
        R.left R.failures r.old r.new result }
{
    let mut picked = keep_whole::<A, Picked<'_, S>, R>(&heap, Picked(select), r)?;
    match picked.kept.add_last_slice() {
        Ok(()) => Ok(picked.kept.archive),
        Err(NoMemory) => Err(RecordFault::out_of_memory(MAGIC_LEN)),
    }
}
