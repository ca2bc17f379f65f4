//! Calls that read an archive and keep a part of it.

use crate::archives::{print_record, text_of};
use crate::devices::StrictSource;
use crate::faults::{CaseFault, Ended};
use crate::printing::print_text;
use crate::questions::print_answers;
use crate::words::first_word;
use archive_core::{ArchKey, Archive, SliceKey};
use archive_from_records::{Under, read_part};
use archive_records::{RecordFault, key_prefix};
use heap_memory::{Heap, NoMemory};
use text_values::Word;
use uuid::Uuid;

/// The records of an archive that are kept.
#[derive(Clone, Copy)]
pub enum Picked {
    /// Those under a UUID.
    OfUuid(Uuid),
    /// Those under a UUID and an architecture.
    OfKey(SliceKey),
}

impl Picked {
    /// The selection of words, and the questions after it: `UUID QUESTION..` or `UUID ARCH QUESTION..`.
    pub fn of_words(words: &str) -> Result<(Picked, &str), CaseFault> {
        let (word, rest) = first_word(words);
        let uuid = Uuid::read(word).ok_or(CaseFault::BadLine)?;
        let (word, questions) = first_word(rest);
        Ok(match ArchKey::read(word) {
            Some(arch) => (Picked::OfKey(SliceKey { uuid, arch }), questions),
            None => (Picked::OfUuid(uuid), rest),
        })
    }
}

/// Reads an archive's text, and keeps the selected records. Prints each of them, the length and digest of their text,
/// and their answers. The growths and the bytes of memory are those of the reading.
pub fn print_part<A: Archive + Drop>(
    heap: Heap,
    picked: Picked,
    questions: &str,
    source: &mut StrictSource,
    printed: &mut String,
) -> Ended {
    let part: A = read_picked(heap.share(), picked, source)?;
    heap.grant(u64::MAX);
    heap.grant_bytes(u64::MAX);
    print_records(&part, printed)?;
    printed.push_str("held: ")?;
    print_text(&text_of(*printed.allocator(), &part)?, printed)?;
    print_answers(&heap, &part, questions, printed)
}

// Reads an archive, and keeps the selected records.
fn read_picked<A: Archive + Drop>(
    heap: Heap,
    picked: Picked,
    source: &mut StrictSource,
) -> Result<A, RecordFault> {
    match picked {
        Picked::OfUuid(uuid) => read_part(heap, &Under(uuid.as_bytes()), source),
        Picked::OfKey(key) => read_part(heap, &Under(&key_prefix(&key)), source),
    }
}

// Prints each record of an archive, and their number.
fn print_records<A: Archive>(archive: &A, printed: &mut String) -> Result<(), NoMemory> {
    for index in 0..archive.len() {
        print_record(&archive.record_at(index), printed)?;
        printed.push_str("\n")?;
    }
    writeln!(printed, "{} records", archive.len())
}
