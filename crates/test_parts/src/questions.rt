//! Questions to an archive.
//!
//! A word `0xHEX` is an address, looked up under each key of its records; `find` searches each UUID for its rows; and
//! any other word is a name.

use crate::addresses::address;
use crate::faults::{CallFault, Ended};
use archive_core::{Answer, Archive, Record, SliceKey, Where};
use heap_memory::{Heap, NoMemory};
use std::alloc::Global;
use text_reports::{Text, find_lines, push_answer};

/// Asks an archive, and prints its answers.
pub fn print_answers<A: Archive>(
    heap: &Heap,
    archive: &A,
    words: &str,
    printed: &mut String,
) -> Ended {
    for question in words.split(' ') {
        match address(question) {
            Ok(address) => print_lookups(heap, archive, address, printed)?,
            Err(_) if question.is_empty() => {}
            Err(_) if question == "find" => print_finds(heap, archive, printed)?,
            Err(_) => {
                for row in archive.find_name(question.as_bytes())?.iter() {
                    writeln!(printed, "{}", Text(row))?;
                }
            }
        }
    }
    Ok(())
}

fn print_lookups<A: Archive>(
    heap: &Heap,
    archive: &A,
    address: u64,
    printed: &mut String,
) -> Ended {
    for key in keys_of(*printed.allocator(), archive)? {
        let answer = archive.lookup(&key, Where::File(address))?;
        let mut text = String::new(heap.share());
        push_answer(heap, &mut text, address, &answer, &[])?;
        printed.push_str(&text)?;
    }
    Ok(())
}

fn print_finds<A: Archive>(heap: &Heap, archive: &A, printed: &mut String) -> Result<(), NoMemory> {
    let mut asked = None;
    for key in keys_of(*printed.allocator(), archive)? {
        if asked != Some(key.uuid) {
            let rows = archive.find(&key.uuid)?;
            printed.push_str(&find_lines(heap.share(), &rows)?)?;
            asked = Some(key.uuid);
        }
    }
    Ok(())
}

/// The answers of an archive. Prints an error if a lookup fails for lack of memory although no slices are in conflict.
pub fn answers_of<A: Archive>(
    heap: &Heap,
    archive: &A,
    questions: &str,
    printed: &mut String,
) -> Result<String, CallFault> {
    let mut answers = String::new(*printed.allocator());
    if !questions.is_empty() {
        print_needless(heap, archive, printed)?;
        print_answers(heap, archive, questions, &mut answers)?;
    }
    Ok(answers)
}

fn print_needless<A: Archive>(
    heap: &Heap,
    archive: &A,
    printed: &mut String,
) -> Result<(), NoMemory> {
    for key in keys_of(*printed.allocator(), archive)? {
        let place = Where::File(0x1040);
        heap.grant(0);
        let refused = archive.lookup(&key, place).is_err();
        heap.grant(u64::MAX);
        if refused && !matches!(&archive.lookup(&key, place)?, Answer::Conflict(_)) {
            writeln!(printed, "WRONG: a lookup without a conflict is refused")?;
        }
    }
    Ok(())
}

// The keys of an archive's records, each once.
fn keys_of<A: Archive>(alloc: Global, archive: &A) -> Result<Vec<SliceKey>, NoMemory> {
    let mut keys = Vec::new(alloc);
    for index in 0..archive.len() {
        let key = match archive.record_at(index) {
            Record::Admit(slice) => slice.key(),
            Record::Retire(key, _) => key,
        };
        if !keys.contains(&key) {
            keys.push(key)?;
        }
    }
    Ok(keys)
}
