//! Random pairs of archives, merged as they are read and joined as values.

use crate::archives::{read, text_of};
use crate::faults::{CallFault, Ended};
use crate::printing::print_text;
use archive_core::{Archive, Operation, Slice, take_all};
use archive_merge::merge_streams;
use byte_device::{Bytes, Grown};
use heap_memory::Heap;
use std::alloc::Global;

// Pseudorandom numbers from a seed: the linear congruential generator of Knuth's MMIX.
#[derive(Drop)]
struct Dice(u64);

impl Dice {
    // A number below the number of sides.
    fn below(&mut self, sides: u8) -> u8 {
        self.0 = self
            .0
            .wrapping_mul(6_364_136_223_846_793_005)
            .wrapping_add(1_442_695_040_888_963_407);
        let byte = ((self.0 >> 40) & 0xff) as u8;
        byte % sides.max(1)
    }
}

// Whether an operation is added to the left archive, and to the right one, of the pair with this number.
fn sides(number: u64, operation: &Operation, dice: &mut Dice) -> (bool, bool) {
    match number % 5 {
        // A third of them is added to both.
        0 => match dice.below(3) {
            0 => (true, false),
            1 => (false, true),
            _ => (true, true),
        },
        1 => (true, false),
        2 => (true, true),
        // The retirements are added to the left one, whose records so all precede those of the right one.
        3 => {
            let is_retirement = matches!(operation, Operation::Retire(_, _));
            (is_retirement, !is_retirement)
        }
        _ => (false, true),
    }
}

/// Merges random pairs of archives, whose slices are made from an image. Prints where the join of the two as values is
/// a different archive, and the digest of all texts.
pub fn print_pairs<A: Archive + Drop>(
    image: &[u8],
    pairs: u64,
    seed: u64,
    printed: &mut String,
) -> Ended {
    let alloc = *printed.allocator();
    let heap = Heap::new(alloc)?;
    let mut dice = Dice(seed);
    let mut all = Vec::new(alloc);
    for number in 0..pairs {
        let (left, right) = random_pair::<A>(alloc, &heap, number, image, &mut dice)?;
        let mut merged = Grown::new(heap.share());
        let (mut one, mut other) = (Bytes::new(&left), Bytes::new(&right));
        let sizes = merge_streams(&heap, &mut one, &mut other, &mut merged);
        let mut joined: A = read(heap.share(), &left)?;
        take_all(&mut joined, read(heap.share(), &right)?)?;
        let records = sizes.map(|sizes| sizes.records);
        if records != Ok(joined.len()) || merged.as_slice() != text_of(alloc, &joined)?.as_slice() {
            writeln!(printed, "WRONG: pair {number} is merged otherwise")?;
        }
        all.extend_from_slice(merged.as_slice())?;
    }
    Ok(print_text(&all, printed)?)
}

// The texts of the pair with this number.
fn random_pair<A: Archive + Drop>(
    alloc: Global,
    heap: &Heap,
    number: u64,
    image: &[u8],
    dice: &mut Dice,
) -> Result<(Vec<u8>, Vec<u8>), CallFault> {
    let mut left = A::empty(heap.share());
    let mut right = A::empty(heap.share());
    for _ in 0..dice.below(12) {
        let operation = random_operation(alloc, heap, image, dice)?;
        let (to_left, to_right) = sides(number, &operation, dice);
        if to_left {
            left.take(operation.copy(heap.share())?)?;
        }
        if to_right {
            right.take(operation)?;
        }
    }
    Ok((text_of(alloc, &left)?, text_of(alloc, &right)?))
}

// The admission or the retirement of an image with a changed last byte, and up to two more bytes.
fn random_operation(
    alloc: Global,
    heap: &Heap,
    image: &[u8],
    dice: &mut Dice,
) -> Result<Operation, CallFault> {
    let mut bytes = image.to_vec(alloc)?;
    if let Some(last) = bytes.last_mut() {
        *last = dice.below(6);
    }
    for _ in 0..dice.below(3) {
        bytes.extend_from_slice(&[dice.below(255)])?;
    }
    let slice = Slice::admit(heap.share(), &bytes)?;
    if dice.below(3) == 0 {
        return Ok(Operation::Retire(slice.key(), slice.digest()));
    }
    Ok(Operation::Admit(slice))
}
