//! Growths and bytes of memory that are granted or refused.

use heap_memory::{Heap, NoMemory};
use std::alloc::Global;

/// Prints the capacity of memory with this number of growths: the numbers in one vector, or in three that share them.
pub fn print_room_of_growths(
    alloc: Global,
    growths: u64,
    printed: &mut String,
) -> Result<(), NoMemory> {
    print_one(Heap::with_growths(alloc, growths)?, printed)?;
    print_three(Heap::with_growths(alloc, growths)?, printed)
}

/// Prints the capacity of memory with this number of bytes: the numbers of 8 bytes in one vector.
pub fn print_room_of_bytes(
    alloc: Global,
    bytes: u64,
    printed: &mut String,
) -> Result<(), NoMemory> {
    let heap = Heap::new(alloc)?;
    heap.grant_bytes(bytes);
    print_one(heap, printed)
}

// The number of pushes that are tried.
const NUMBERS: u64 = 99;

// Prints how many numbers one vector accepts. After its first growth it has room for 4, and after each later one for
// twice as many.
fn print_one(heap: Heap, printed: &mut String) -> Result<(), NoMemory> {
    let mut numbers = Vec::new(heap);
    for number in 0..NUMBERS {
        let _ = numbers.push(number);
    }
    writeln!(printed, "  one takes {}", numbers.len())
}

// Prints which of three vectors accept a number, where the first is shrunk and dropped before the push to the third;
// and whether the third and a fourth accept one after one more growth is granted.
fn print_three(heap: Heap, printed: &mut String) -> Result<(), NoMemory> {
    let mut first = Vec::new(heap.share());
    let mut second = Vec::new(heap.share());
    let mut third = Vec::new(heap.share());
    let taken = [first.push(1u8).is_ok(), second.push(2u8).is_ok()];
    first.shrink_to_fit();
    drop(first);
    let third_took = third.push(3u8).is_ok();
    heap.grant(1);
    let granted = [third.push(4u8).is_ok(), Vec::new(heap).push(5u8).is_ok()];
    writeln!(
        printed,
        "  three take {taken:?} {third_took}, then {granted:?}"
    )
}
